ghost use Rattle.std.specs.Prelude.{◌≡◌, ◌⊎◌, ℕ, List, Option};
ghost use Rattle.mig_tool_guest.specs.Common.{Appends, AppendsPart, canon_any, OutputRises, CarriedOut, ComesTo, effects, input_effect, sink_effect, unreached, status_of, or_stop, RisesOnReadFault, AgreesWithJudging, stream_at, IsBase};
ghost use Rattle.mig_pvtables.specs.Whole.{IsWhole};
ghost use Rattle.mig_tool_guest.specs.Fronts.{IsSummary, input_with, restored_text};
ghost use Rattle.mig_tool_guest.specs.Outcomes.{outcome_of};
ghost use Rattle.mig_tool_guest.specs.Promises.{normalise_promise, convert_promise, restore_promise, verify_promise};
ghost use Rattle.mig_tool_report.specs.declared.outcome.Outcome.TheVariants as outcomes;
ghost use Rattle.mig_tool_report.specs.declared.outcome.Refusal.TheVariants as refusals;

use mig_bytes::{Sink, Source};
use mig_guest::Guest;
use mig_image::{HostAnswer, host_of, write_host};
use mig_legacy::{LegacyAnswer, read_legacy};
use mig_libxl::{read_any, write_any};
use mig_restore::StreamAnswer;
use mig_tool_report::{Outcome, Refusal, Status, Summary, finish, put_ok};
use std::alloc::Global;

/// The outcome where no stream is read.
pub(crate) fn unread(answer: StreamAnswer) -> Outcome
    ensures { result ≡ outcome_of refusals.Stream answer }
{
    match answer {
        StreamAnswer::Refused(place, cause) => Outcome::Refused(Refusal::Stream(place, cause)),
        StreamAnswer::ReadFault => Outcome::ReadFault,
        StreamAnswer::Memory => Outcome::Memory,
    }
}

/// The outcome where no legacy stream is read.
pub(crate) fn unconverted(answer: LegacyAnswer) -> Outcome
    ensures { result ≡ outcome_of refusals.Legacy answer }
{
    match answer {
        LegacyAnswer::Refused(place, cause) => Outcome::Refused(Refusal::Legacy(place, cause)),
        LegacyAnswer::ReadFault => Outcome::ReadFault,
        LegacyAnswer::Memory => Outcome::Memory,
    }
}

/// Writes the canonical stream of a guest.
fn write_canonical<K: Sink>(guest: &Guest, out: &mut K) -> Outcome
    requires whole { IsWhole guest.now }
    ensures done { result ≡ outcomes.Done → Appends (K.written out.old) (K.written out.new) (canon_any guest.now) }
    ensures part { result ≡ outcomes.WriteFault → AppendsPart (K.written out.old) (K.written out.new) (canon_any guest.now) }
    ensures answers { (result ≡ outcomes.Done) ⊎ (result ≡ outcomes.WriteFault) }
    ensures write { OutputRises (status_of result) (K.faults out.old) (K.faults out.new) }
{
    match write_any(out, guest) {
        Ok(()) => Outcome::Done,
        Err(_) => Outcome::WriteFault,
    }
}

/// Reads a stream, and writes it in its canonical form.
pub(crate) fn normalised<S: Source, K: Sink>(alloc: Global, input: &mut S, out: &mut K) -> Outcome
    ensures { ComesTo normalise_promise (effects (input_effect S.left S.faults input.old input.new) (sink_effect K.written K.faults out.old out.new) unreached) result }
{
    match read_any(alloc, input) {
        Ok(reading) => write_canonical(&reading.guest, out),
        Err(answer) => unread(answer),
    }
}

/// Reads a stream, writes it in its canonical form, and puts the line of the status on the report.
pub fn normalise<S: Source, K: Sink, R: Sink>(
    alloc: Global,
    input: &mut S,
    out: &mut K,
    report: &mut R,
) -> Status
    ensures { CarriedOut normalise_promise (effects (input_effect S.left S.faults input.old input.new)
        (sink_effect K.written K.faults out.old out.new) (sink_effect R.written R.faults report.old report.new)) result }
{
    let outcome = normalised(alloc, input, out);
    finish(report, outcome)
}

/// Reads a legacy stream, and writes the canonical stream of its guest.
fn converted<S: Source, K: Sink>(alloc: Global, input: &mut S, out: &mut K) -> Outcome
    ensures { ComesTo convert_promise (effects (input_effect S.left S.faults input.old input.new) (sink_effect K.written K.faults out.old out.new) unreached) result }
{
    match read_legacy(alloc, input) {
        Ok(guest) => write_canonical(&guest, out),
        Err(answer) => unconverted(answer),
    }
}

/// Reads a legacy stream, writes the canonical stream of its guest, and puts the line of the status on the report.
pub fn convert<S: Source, K: Sink, R: Sink>(
    alloc: Global,
    input: &mut S,
    out: &mut K,
    report: &mut R,
) -> Status
    ensures { CarriedOut convert_promise (effects (input_effect S.left S.faults input.old input.new)
        (sink_effect K.written K.faults out.old out.new) (sink_effect R.written R.faults report.old report.new)) result }
{
    let outcome = converted(alloc, input, out);
    finish(report, outcome)
}

/// Writes the image of a guest, with machine frames counted up from the base.
fn write_restored<K: Sink>(alloc: Global, guest: Guest, base: u64, out: &mut K) -> Outcome
    requires whole { IsWhole guest }
    requires base { IsBase base }
    ensures done { result ≡ outcomes.Done → Appends (K.written out.old) (K.written out.new) (restored_text base guest) }
    ensures part { result ≡ outcomes.WriteFault → AppendsPart (K.written out.old) (K.written out.new) (restored_text base guest) }
    ensures answers { (result ≡ outcomes.Done) ⊎ ((result ≡ outcomes.WriteFault) ⊎ (result ≡ outcomes.Memory)) }
    ensures kept { result ≡ outcomes.Memory → out.new ≡ out.old }
    ensures write { OutputRises (status_of result) (K.faults out.old) (K.faults out.new) }
{
    match host_of(alloc, guest, base) {
        Ok(host) => match write_host(out, &host) {
            Ok(()) => Outcome::Done,
            Err(_) => Outcome::WriteFault,
        },
        Err(HostAnswer::Memory) => Outcome::Memory,
        Err(HostAnswer::BaseRange) => unreachable!(),
    }
}

/// Reads a stream, and writes the image of its guest, with machine frames counted up from the base.
fn restored<S: Source, K: Sink>(alloc: Global, base: u64, input: &mut S, out: &mut K) -> Outcome
    requires { IsBase base }
    ensures { ComesTo (restore_promise base) (effects (input_effect S.left S.faults input.old input.new) (sink_effect K.written K.faults out.old out.new) unreached) result }
{
    let guest = match read_any(alloc, input) {
        Ok(reading) => reading.guest,
        Err(answer) => return unread(answer),
    };
    write_restored(alloc, guest, base, out)
}

/// Reads a stream, writes the image of its guest, with machine frames counted up from the base, and puts the line of the
/// status on the report.
pub fn restore<S: Source, K: Sink, R: Sink>(
    alloc: Global,
    base: u64,
    input: &mut S,
    out: &mut K,
    report: &mut R,
) -> Status
    requires { IsBase base }
    ensures { CarriedOut (restore_promise base) (effects (input_effect S.left S.faults input.old input.new)
        (sink_effect K.written K.faults out.old out.new) (sink_effect R.written R.faults report.old report.new)) result }
{
    let outcome = restored(alloc, base, input, out);
    finish(report, outcome)
}

/// Reads a stream: what is said of it.
fn summarised<S: Source>(alloc: Global, input: &mut S) -> Result<Summary, StreamAnswer>
    ensures read { AgreesWithJudging IsSummary (S.left input.old) (S.left input.new) stream_at (or_stop result) }
    ensures faults { RisesOnReadFault (S.faults input.old) (S.faults input.new) (or_stop result) }
{
    match read_any(alloc, input) {
        Ok(reading) => Ok(Summary {
            version: u64::from(reading.version),
            kind: reading.guest.kind(),
            frames: reading.guest.frames(),
            records: u64::from(reading.records),
            differs: reading.differs,
        }),
        Err(answer) => Err(answer),
    }
}

/// Puts on the report what is said of a stream, or why it isn't read.
pub(crate) fn tell_summary<R: Sink>(report: &mut R, said: Result<Summary, StreamAnswer>) -> Status
    ensures { (told left : Option (List ℕ)) (failed failed_now : ℕ) → AgreesWithJudging IsSummary told left stream_at (or_stop said) → RisesOnReadFault failed failed_now (or_stop said)
        → CarriedOut verify_promise (effects (input_with told left failed failed_now) unreached (sink_effect R.written R.faults report.old report.new)) result }
{
    match said {
        Ok(summary) => match put_ok(report, summary) {
            Ok(()) => Status::Done,
            Err(_) => Status::WriteFault,
        },
        Err(answer) => finish(report, unread(answer)),
    }
}

/// Reads a stream, and says on the report what it is.
pub fn verify<S: Source, R: Sink>(alloc: Global, input: &mut S, report: &mut R) -> Status
    ensures { CarriedOut verify_promise (effects (input_effect S.left S.faults input.old input.new)
        unreached (sink_effect R.written R.faults report.old report.new)) result }
{
    let said = summarised(alloc, input);
    tell_summary(report, said)
}
