ghost use Rattle.std.specs.Prelude.{◌≡◌, ◌≤◌, ◌⊎◌, ◌++◌, ℕ, List, [], Some, None, IfOk, OnOk, length};
ghost use Rattle.mig_tool_save.specs.Common.{Rose, host_of_exercise, script_of_exercise, unsoundness, view, canon_any, AcceptedStream, Reports, memory_line};
ghost use Rattle.mig_bytes.specs.declared.answer.Answer.TheVariants as stream_answers;
ghost use Rattle.mig_guest.specs.Guests.{GuestOf};
ghost use Rattle.mig_pvtables.specs.Blank.{blank as blank_form};
ghost use Rattle.mig_pvtables.specs.Whole.{IsWhole};
ghost use Rattle.mig_tool_report.specs.Words.{IsFrameNumber};
ghost use Rattle.mig_tool_report.specs.declared.outcome.Outcome.TheVariants as outcomes;
ghost use Rattle.mig_tool_report.specs.declared.status.Status.TheVariants as statuses;
ghost use Rattle.mig_tool_save.specs.Exercises.{Exercises, ExerciseSaved, SaysExercise};
ghost use Rattle.mig_tool_save.specs.LiveSaves.{IsUnasked, WroteLiveTo, paused_host};

use crate::saving::save_machine;
use mig_bytes::{Failed, MemSink, Memory, Sink, Source};
use mig_exercise::{exercise_host, exercise_is_saved, exercise_script};
use mig_guest::Guest;
use mig_image::{
    Host, HostAnswer, SoundAnswer, guest_of, host_of, hosted_is_seen, hosted_is_sound,
};
use mig_libxl::{read_any, write_any};
use mig_machine::ScriptMachine;
use mig_restore::StreamAnswer;
use mig_tool_report::{ExerciseSummary, Outcome, SaveSummary, Status, finish, put_exercised};
use std::alloc::Global;

/// The machine frame of the first frame of a guest that is restored.
const BASE: u64 = 1 << 20;

/// What an exercise came to.
#[derive(Drop)]
pub struct Exercised {
    /// The frames of its host.
    pub frames: u64,
    /// The rounds before the pause.
    pub rounds: u32,
    /// The entries of all PAGE_DATA records.
    pub entries: u64,
    /// The bytes of the guest's canonical stream.
    pub canon: u64,
    /// What was written of the host while its script ran.
    pub stream: MemSink,
}

/// Bytes in memory, to be read once more. A read of them never fails.
#[derive(Drop)]
struct Again<'a> {
    left: &'a [u8],
}

impl Source for Again<'_> {
    ghost left = { λ s. Some s.left.now };

    ghost faults = { λ s. 0 };

    fn read(&mut self, buf: &mut [u8]) -> Result<usize, Failed> {
        let count = self.left.len().min(buf.len());
        let (first, left) = self.left.split_at(count);
        buf[..count].copy_from_slice(first);
        self.left = left;
        Ok(count)
    }
}

/// That a stream wasn't read for want of memory.
fn unread(answer: StreamAnswer) -> Memory
    requires { answer ≡ stream_answers.Memory }
{
    match answer {
        StreamAnswer::Memory => Memory,
        StreamAnswer::Refused(_, _) | StreamAnswer::ReadFault => unreachable!(),
    }
}

/// The guest that a stream means, where it is one.
fn guest_again(alloc: Global, stream: &[u8]) -> Result<Guest, Memory>
    requires { (guest : GuestOf) × ((rest : List ℕ) → AcceptedStream (stream.now ++ rest) guest rest) }
    ensures guest { IfOk result (λ again. (guest : GuestOf) → ((rest : List ℕ) → AcceptedStream (stream.now ++ rest) guest rest) → again ≡ guest) }
    ensures whole { IfOk result (λ again. IsWhole again) }
    ensures blank { IfOk result (λ again. blank_form again ≡ again) }
{
    let mut bytes = Again { left: stream };
    match read_any(alloc, &mut bytes) {
        Ok(reading) => Ok(reading.guest),
        Err(answer) => Err(unread(answer)),
    }
}

/// A text in memory. One that is written anew takes the room of the one before.
#[derive(Drop)]
struct Text {
    bytes: Vec<u8>,
    faults: u64,
}

impl Sink for Text {
    ghost written = { λ text. Some text.bytes.items };

    ghost faults = { λ text. text.faults };

    fn write(&mut self, piece: &[u8]) -> Result<usize, Failed> {
        match self.bytes.extend_from_slice(piece) {
            Ok(()) => Ok(piece.len()),
            Err(_) => {
                self.faults = self.faults.saturating_add(1);
                Err(Failed)
            }
        }
    }
}

/// An empty text, with room for so many bytes.
fn empty_text(alloc: Global, room: usize) -> Result<Text, Memory> {
    match Vec::with_capacity(alloc, room) {
        Ok(bytes) => Ok(Text { bytes, faults: 0 }),
        Err(_) => Err(Memory),
    }
}

/// Makes a text the canonical stream of a guest.
fn canonical(guest: &Guest, text: &mut Text) -> Result<(), Memory>
    requires { IsWhole guest.now }
    ensures { OnOk result (text.new.bytes.items ≡ canon_any guest.now) }
{
    text.bytes.clear();
    match write_any(text, guest) {
        Ok(()) => Ok(()),
        Err(_) => Err(Memory),
    }
}

/// Makes a text the canonical stream of the guest that a sound host is seen as.
fn canonical_seen(alloc: Global, host: &Host, text: &mut Text) -> Result<(), Memory>
    requires { unsoundness host.now.host ≡ None }
    ensures { OnOk result (text.new.bytes.items ≡ canon_any (view host.now.host)) }
{
    match guest_of(alloc, host) {
        Ok(guest) => canonical(&guest, text),
        Err(SoundAnswer::Memory) => Err(Memory),
        Err(SoundAnswer::Unsound(_)) => unreachable!(),
    }
}

/// Makes a text the canonical stream of the guest that a guest is seen as once it is restored: its own.
fn canonical_restored(alloc: Global, guest: Guest, text: &mut Text) -> Result<(), Memory>
    requires whole { IsWhole guest }
    requires blank { blank_form guest ≡ guest }
    ensures { OnOk result (text.new.bytes.items ≡ canon_any guest) }
{
    // Laws: the host of a restored guest is sound, and it is seen as the guest.
    hosted_is_sound();
    hosted_is_seen();
    match host_of(alloc, guest, BASE) {
        Ok(host) => canonical_seen(alloc, &host, text),
        Err(HostAnswer::Memory) => Err(Memory),
        Err(HostAnswer::BaseRange) => unreachable!(),
    }
}

/// How long the canonical stream is of this guest, which this host is seen as. One stream is written of the guest, of
/// what it is seen as once it is restored, and of what the host is seen as.
fn one_canonical_len(
    alloc: Global,
    guest: Guest,
    host: &Host,
    text: &mut Text,
) -> Result<u64, Memory>
    requires whole { IsWhole guest }
    requires blank { blank_form guest ≡ guest }
    requires sound { unsoundness host.now.host ≡ None }
    requires seen { guest ≡ view host.now.host }
    ensures { IfOk result (λ len. len ≡ length (canon_any (view host.now.host))) }
{
    canonical(&guest, text)?;
    let len = text.bytes.len();
    canonical_restored(alloc, guest, text)?;
    prove_eq!(text.bytes.len(), len);
    canonical_seen(alloc, host, text)?;
    prove_eq!(text.bytes.len(), len);
    Ok(len as u64)
}

/// How long the canonical stream of the guest is that this stream means and this host is seen as. The guest that is
/// read from the stream, restored and seen again, and the one that is seen now, have one canonical stream.
fn canonical_len(alloc: Global, stream: &[u8], host: &Host) -> Result<u64, Memory>
    requires sound { unsoundness host.now.host ≡ None }
    requires means { (rest : List ℕ) → AcceptedStream (stream.now ++ rest) (view host.now.host) rest }
    ensures { IfOk result (λ len. len ≡ length (canon_any (view host.now.host))) }
{
    let mut text = empty_text(alloc, stream.len())?;
    let guest = guest_again(alloc, stream)?;
    one_canonical_len(alloc, guest, host, &mut text)
}

/// That nothing was saved for want of memory: a sink in memory fails where there is none.
fn starved(outcome: Outcome) -> Memory
    requires { (outcome ≡ outcomes.WriteFault) ⊎ (outcome ≡ outcomes.Memory) }
{
    match outcome {
        Outcome::WriteFault | Outcome::Memory => Memory,
        Outcome::Done | Outcome::Refused(_) | Outcome::Usage | Outcome::ReadFault => unreachable!(),
    }
}

/// A machine in memory with the host of the exercise, which runs its script.
fn exercise_machine(alloc: Global, seed: u64, frames: u64) -> Result<ScriptMachine, Memory>
    requires { IsFrameNumber frames }
    ensures host { IfOk result (λ machine. machine.host ≡ host_of_exercise seed frames) }
    ensures lines { IfOk result (λ machine. machine.lines ≡ script_of_exercise seed frames) }
    ensures unasked { IfOk result (λ machine. IsUnasked machine) }
{
    let script = exercise_script(alloc, seed, frames)?;
    let host = exercise_host(alloc, seed, frames)?;
    ScriptMachine::new(alloc, host, script)
}

/// Saves live in memory a machine whose host can be seen as a guest whenever it is paused. Reads what was written, and
/// says how long the canonical stream of its guest is, in bytes.
fn saved_len(
    alloc: Global,
    machine: &mut ScriptMachine,
    stream: &mut MemSink,
) -> Result<(SaveSummary, u64), Memory>
    requires unasked { IsUnasked machine.old }
    requires sound { (calls : ℕ) → unsoundness (paused_host machine.old.host machine.old.lines calls) ≡ None }
    requires empty { stream.old.bytes ≡ [] }
    ensures wrote { IfOk result (λ saved. WroteLiveTo machine.old.host machine.old.lines machine.new.host (Some stream.old.bytes) (Some stream.new.bytes) saved.0) }
    ensures canon { IfOk result (λ saved. saved.1 ≡ length (canon_any (view machine.new.host))) }
{
    let summary = match save_machine(alloc, machine, stream) {
        Ok(summary) => summary,
        Err(outcome) => return Err(starved(outcome)),
    };
    let canon = canonical_len(alloc, stream.bytes(), machine.host())?;
    Ok((summary, canon))
}

/// Saves a machine with the host and the script of the exercise, which was asked nothing before.
fn exercise_of(
    alloc: Global,
    seed: u64,
    frames: u64,
    machine: &mut ScriptMachine,
) -> Result<Exercised, Memory>
    requires size { IsFrameNumber frames }
    requires host { machine.old.host ≡ host_of_exercise seed frames }
    requires lines { machine.old.lines ≡ script_of_exercise seed frames }
    requires unasked { IsUnasked machine.old }
    ensures frames { IfOk result (λ e. e.frames ≡ frames) }
    ensures saved { IfOk result (λ e. ExerciseSaved seed frames e.stream.bytes (record { rounds = e.rounds; entries = e.entries }) e.canon) }
    ensures numbers { IfOk result (λ e. Exercises seed frames (record { frames = e.frames; rounds = e.rounds; entries = e.entries; canon = e.canon })) }
{
    // Law: the host can be seen as a guest whenever it is paused, and that guest's canonical stream has one length.
    exercise_is_saved();
    let mut stream = MemSink::new(alloc, Vec::new(alloc));
    let (summary, canon) = saved_len(alloc, machine, &mut stream)?;
    Ok(Exercised {
        frames,
        rounds: summary.rounds as u32,
        entries: summary.entries,
        canon,
        stream,
    })
}

/// Saves the host of the exercise live in memory, while its script runs, and reads what was written. Then it writes the
/// guest in its canonical form: as it was read, as it is seen once it is restored, and as the paused host is seen.
pub fn exercise(alloc: Global, seed: u64, frames: u64) -> Result<Exercised, Memory>
    requires { IsFrameNumber frames }
    ensures frames { IfOk result (λ e. e.frames ≡ frames) }
    ensures saved { IfOk result (λ e. ExerciseSaved seed frames e.stream.bytes (record { rounds = e.rounds; entries = e.entries }) e.canon) }
    ensures numbers { IfOk result (λ e. Exercises seed frames (record { frames = e.frames; rounds = e.rounds; entries = e.entries; canon = e.canon })) }
{
    let mut machine = exercise_machine(alloc, seed, frames)?;
    exercise_of(alloc, seed, frames, &mut machine)
}

/// Makes an exercise, and says on the report what it came to.
pub fn exercise_told<R: Sink>(alloc: Global, seed: u64, frames: u64, report: &mut R) -> Status
    requires { IsFrameNumber frames }
    ensures said { SaysExercise seed frames (R.written report.old) (R.written report.new) result }
    ensures quiet { result ≡ statuses.Done → R.faults report.new ≡ R.faults report.old }
    ensures rose { result ≡ statuses.WriteFault → Rose (R.faults report.old) (R.faults report.new) }
    ensures later { R.faults report.old ≤ R.faults report.new }
    ensures line { result ≡ statuses.Memory → Reports memory_line (R.written report.old) (R.written report.new) (R.faults report.old) (R.faults report.new) }
{
    let Ok(exercised) = exercise(alloc, seed, frames) else {
        return finish(report, Outcome::Memory);
    };
    let summary = ExerciseSummary {
        frames: exercised.frames,
        rounds: u64::from(exercised.rounds),
        entries: exercised.entries,
        canon: exercised.canon,
    };
    match put_exercised(report, summary) {
        Ok(()) => Status::Done,
        Err(_) => Status::WriteFault,
    }
}
