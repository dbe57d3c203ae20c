ghost use Rattle.std.specs.Prelude.{◌≡◌, ℕ};
ghost use Rattle.mig_file.specs.Files.{failed_in, left_in};
ghost use Rattle.mig_tool_report.specs.Words.{IsBase, IsFrameNumber};
ghost use Rattle.mig_tool_report.specs.declared.command.Command.TheVariants as commands;
ghost use Rattle.mig_tool_report.specs.Promises.{CarriedOut, effects, input_effect, sink_effect};
ghost use Rattle.mig_tool.specs.Promises.{promise_of, promise_of_file};

use mig_bytes::{Sink, Source};
use mig_file::{FileSource, PageFile};
use mig_tool_guest::{
    convert, convert_file, normalise, normalise_file, relay, restore, restore_file, show, verify,
    verify_file, walk, walk_file, walk_image,
};
use mig_tool_report::{Command, Status};
use mig_tool_save::{exercise_told, save};
use std::alloc::Global;

/// Carries out a command.
pub(crate) fn carry_out<S: Source, K: Sink, R: Sink>(
    alloc: Global,
    command: Command,
    input: &mut S,
    out: &mut K,
    report: &mut R,
) -> Status
    requires base { (base : ℕ) → command ≡ commands.Restore base → IsBase base }
    requires frames { (seed n : ℕ) → command ≡ commands.Exercise seed n → IsFrameNumber n }
    ensures { CarriedOut (promise_of command) (effects (input_effect S.left S.faults input.old input.new)
        (sink_effect K.written K.faults out.old out.new) (sink_effect R.written R.faults report.old report.new)) result }
{
    match command {
        Command::Normalise => normalise(alloc, input, out, report),
        Command::Convert => convert(alloc, input, out, report),
        Command::Restore(base) => restore(alloc, base, input, out, report),
        Command::Verify => verify(alloc, input, report),
        Command::Save => save(alloc, input, out, report),
        Command::Exercise { seed, frames } => exercise_told(alloc, seed, frames, report),
        Command::Walk { vcpu, address } => walk(alloc, vcpu, address, input, report),
        Command::WalkImage { vcpu, address } => walk_image(alloc, vcpu, address, input, report),
        Command::Relay => relay(alloc, input, out, report),
        Command::Show => show(alloc, input, out, report),
    }
}

/// Carries out a command on a file, of which it reads no page that it has no need of.
pub(crate) fn carry_out_file<P: PageFile, K: Sink, R: Sink>(
    alloc: Global,
    command: Command,
    input: &mut FileSource<'_, P>,
    out: &mut K,
    report: &mut R,
) -> Status
    requires base { (base : ℕ) → command ≡ commands.Restore base → IsBase base }
    requires frames { (seed n : ℕ) → command ≡ commands.Exercise seed n → IsFrameNumber n }
    ensures { CarriedOut (promise_of_file command) (effects (input_effect (left_in P.bytes) failed_in input.old input.new)
        (sink_effect K.written K.faults out.old out.new) (sink_effect R.written R.faults report.old report.new)) result }
{
    match command {
        Command::Normalise => normalise_file(alloc, input, out, report),
        Command::Convert => convert_file(alloc, input, out, report),
        Command::Restore(base) => restore_file(alloc, base, input, out, report),
        Command::Verify => verify_file(alloc, input, report),
        Command::Walk { vcpu, address } => walk_file(alloc, vcpu, address, input, report),
        _ => carry_out(alloc, command, input, out, report),
    }
}
