ghost use Rattle.std.specs.Prelude.{◌≡◌, ◌≤◌, ◌⊎◌, IfOk, IfErr, OnOk, OnErr, IsErrOf};
ghost use Rattle.mig_tool_save.specs.Common.{most_saved_width, Appends, AppendsPart, Rose, RisesOnReadFault, Unsound, saved_line, WroteNoStream, CarriedOut, effects, input_effect, sink_effect};
ghost use Rattle.mig_dirtysave.specs.declared.answer.SaveAnswer.TheVariants as answers;
ghost use Rattle.mig_tool_report.specs.declared.outcome.Outcome.TheVariants as outcomes;
ghost use Rattle.mig_tool_report.specs.declared.outcome.Refusal.TheVariants as refusals;
ghost use Rattle.mig_tool_report.specs.declared.status.Status.TheVariants as statuses;
ghost use Rattle.mig_tool_save.specs.Promises.{save_promise};
ghost use Rattle.mig_tool_save.specs.LiveSaves.{IsUnasked, WroteLive, WroteLiveTo};
ghost use Rattle.mig_tool_save.specs.SaveSteps.{ReadsHostToSave, ReadsHostAndScript, stop_of_image, stop_of_script, outcome_of_stop, ComesToNone};

use mig_bytes::{Sink, Source, Stop};
use mig_dirtysave::{SaveAnswer, Saver};
use mig_guest::mig_machine_api::Machine;
use mig_image::{Host, ImageAnswer, read_host};
use mig_machine::{ScriptMachine, rounds_are_paced, script_machine_is_at};
use mig_machine_script::{Script, ScriptAnswer};
use mig_tool_report::{Outcome, Refusal, SaveSummary, Status, finish, put_saved};
use std::alloc::Global;

/// Wider hosts aren't saved.
const MOST_SAVED_WIDTH: u64 = 1 << 28;

/// A host, and the script that is to run on it while it is saved.
#[derive(Drop)]
struct HostAndScript {
    host: Host,
    script: Script,
}

/// Why the image of a host isn't read.
fn image_stop(answer: ImageAnswer) -> Stop<Refusal>
    ensures { result ≡ stop_of_image answer }
{
    match answer {
        ImageAnswer::Refused(place, cause) => Stop::Refused(Refusal::Image(place, cause)),
        ImageAnswer::ReadFault => Stop::ReadFault,
        ImageAnswer::Memory => Stop::Memory,
    }
}

/// Why a script isn't read.
fn script_stop(answer: ScriptAnswer) -> Stop<Refusal>
    ensures { result ≡ stop_of_script answer }
{
    match answer {
        ScriptAnswer::BadLine(line) => Stop::Refused(Refusal::BadLine(line)),
        ScriptAnswer::TooLong => Stop::Refused(Refusal::TooLong),
        ScriptAnswer::ReadFault => Stop::ReadFault,
        ScriptAnswer::Memory => Stop::Memory,
    }
}

/// Reads the image of a host, and leaves unread what follows it.
fn host_to_save<S: Source>(alloc: Global, input: &mut S) -> Result<Host, Stop<Refusal>>
    ensures read { ReadsHostToSave (S.left input.old) (S.left input.new) result }
    ensures narrow { IfOk result (λ host. host.host.width ≤ most_saved_width) }
    ensures faults { RisesOnReadFault (S.faults input.old) (S.faults input.new) result }
{
    match read_host(alloc, input, MOST_SAVED_WIDTH) {
        Ok(host) => Ok(host),
        Err(answer) => Err(image_stop(answer)),
    }
}

/// Reads the image of a host, and a script to the end of the input.
fn host_and_script<S: Source>(alloc: Global, input: &mut S) -> Result<HostAndScript, Stop<Refusal>>
    ensures read { ReadsHostAndScript (S.left input.old) (S.left input.new) result }
    ensures narrow { IfOk result (λ read. read.host.host.width ≤ most_saved_width) }
    ensures faults { RisesOnReadFault (S.faults input.old) (S.faults input.new) result }
{
    let host = host_to_save(alloc, input)?;
    match Script::read(alloc, input) {
        Ok(script) => Ok(HostAndScript { host, script }),
        Err(answer) => Err(script_stop(answer)),
    }
}

/// The outcome where no host and script were read.
fn stopped(stop: Stop<Refusal>) -> Outcome
    ensures { result ≡ outcome_of_stop stop }
{
    match stop {
        Stop::Refused(refusal) => Outcome::Refused(refusal),
        Stop::ReadFault => Outcome::ReadFault,
        Stop::Memory => Outcome::Memory,
    }
}

/// The outcome of a machine that never fails, where it came to no stream.
fn unsaved(answer: SaveAnswer) -> Outcome
    requires { answer ≡ answers.MachineFault → ⊥ }
    ensures unsound { (unsound : Unsound) → answer ≡ answers.Unsound unsound → result ≡ outcomes.Refused (refusals.Pause unsound) }
    ensures write { answer ≡ answers.WriteFault → result ≡ outcomes.WriteFault }
{
    match answer {
        SaveAnswer::Unsound(unsound) => Outcome::Refused(Refusal::Pause(unsound)),
        SaveAnswer::WriteFault => Outcome::WriteFault,
        SaveAnswer::MachineFault => unreachable!(),
    }
}

/// Saves live a machine that was asked nothing before, while its script runs.
pub(crate) fn save_machine<K: Sink>(
    alloc: Global,
    machine: &mut ScriptMachine,
    out: &mut K,
) -> Result<SaveSummary, Outcome>
    requires { IsUnasked machine.old }
    ensures wrote { IfOk result (WroteLiveTo machine.old.host machine.old.lines machine.new.host (K.written out.old) (K.written out.new)) }
    ensures none { IfErr result (ComesToNone machine.old.host machine.old.lines) }
    ensures no_stream { OnErr result (WroteNoStream (K.written out.old) (K.written out.new)) }
    ensures kept { IsErrOf result outcomes.Memory → out.new ≡ out.old }
    ensures write { IsErrOf result outcomes.WriteFault → Rose (K.faults out.old) (K.faults out.new) }
    ensures quiet { OnOk result (K.faults out.new ≡ K.faults out.old) }
    ensures later { K.faults out.old ≤ K.faults out.new }
{
    let Ok(saver) = Saver::prepare(alloc, machine) else {
        return Err(Outcome::Memory);
    };
    let _width = machine.width();
    // Laws: the machine's logs are exact, and so its rounds are those that the host and the script tell.
    script_machine_is_at();
    rounds_are_paced();
    match saver.run(machine, out) {
        Ok(report) => Ok(SaveSummary {
            rounds: u64::from(report.rounds),
            entries: report.entries,
        }),
        Err(answer) => Err(unsaved(answer)),
    }
}

/// Saves a host live, while its script runs.
fn save_live<K: Sink>(
    alloc: Global,
    read: HostAndScript,
    out: &mut K,
) -> Result<SaveSummary, Outcome>
    requires narrow { read.host.host.width ≤ most_saved_width }
    ensures wrote { IfOk result (WroteLive read.host.host (read.script) (K.written out.old) (K.written out.new)) }
    ensures none { IfErr result (ComesToNone read.host.host (read.script)) }
    ensures no_stream { OnErr result (WroteNoStream (K.written out.old) (K.written out.new)) }
    ensures kept { IsErrOf result outcomes.Memory → out.new ≡ out.old }
    ensures write { IsErrOf result outcomes.WriteFault → Rose (K.faults out.old) (K.faults out.new) }
    ensures quiet { OnOk result (K.faults out.new ≡ K.faults out.old) }
    ensures later { K.faults out.old ≤ K.faults out.new }
{
    let Ok(mut machine) = ScriptMachine::new(alloc, read.host, read.script) else {
        return Err(Outcome::Memory);
    };
    save_machine(alloc, &mut machine, out)
}

/// Puts the line of a host that was saved.
fn told<R: Sink>(report: &mut R, summary: SaveSummary) -> Status
    ensures done { result ≡ statuses.Done → Appends (R.written report.old) (R.written report.new) (saved_line summary) }
    ensures part { result ≡ statuses.WriteFault → AppendsPart (R.written report.old) (R.written report.new) (saved_line summary) }
    ensures answers { (result ≡ statuses.Done) ⊎ (result ≡ statuses.WriteFault) }
    ensures quiet { result ≡ statuses.Done → R.faults report.new ≡ R.faults report.old }
    ensures rose { result ≡ statuses.WriteFault → Rose (R.faults report.old) (R.faults report.new) }
    ensures later { R.faults report.old ≤ R.faults report.new }
{
    match put_saved(report, summary) {
        Ok(()) => Status::Done,
        Err(_) => Status::WriteFault,
    }
}

/// Reads the image of a host and a script, and saves the host live, while the script runs.
pub fn save<S: Source, K: Sink, R: Sink>(
    alloc: Global,
    input: &mut S,
    out: &mut K,
    report: &mut R,
) -> Status
    ensures { CarriedOut save_promise (effects (input_effect S.left S.faults input.old input.new)
        (sink_effect K.written K.faults out.old out.new) (sink_effect R.written R.faults report.old report.new)) result }
{
    let read = match host_and_script(alloc, input) {
        Ok(read) => read,
        Err(stop) => return finish(report, stopped(stop)),
    };
    match save_live(alloc, read, out) {
        Ok(summary) => told(report, summary),
        Err(outcome) => finish(report, outcome),
    }
}
