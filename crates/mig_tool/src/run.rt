ghost use Rattle.mig_file.specs.Files.{failed_in, left_in};
ghost use Rattle.mig_tool_report.specs.Promises.{KeepsPromise, TellsUsage, effects, input_effect, sink_effect};
ghost use Rattle.mig_tool_report.specs.Report.{usage_line};
ghost use Rattle.mig_tool_report.specs.Words.{texts_of, Names};
ghost use Rattle.mig_tool_report.specs.declared.command.Command.{Command};
ghost use Rattle.mig_tool.specs.Promises.{promise_of, promise_of_file};

use crate::carry::{carry_out, carry_out_file};
use mig_bytes::{Sink, Source};
use mig_file::{FileSource, PageFile};
use mig_tool_report::{Command, Outcome, Status, command_in, finish};
use std::alloc::Global;

/// Does what the words say: reads `input`, writes on `out`, and puts the line of the status on `report`. The variants of
/// `Command` tell what each command takes, writes and says.
///
/// A status says the same however the input is cut, and whatever failed before. Want of memory may come at any time.
pub fn run<S: Source, K: Sink, R: Sink>(
    alloc: Global,
    words: &[String],
    input: &mut S,
    out: &mut K,
    report: &mut R,
) -> Status
    // Words that name no command are told the usage: nothing is read or written.
    ensures usage { ((command : Command) → Names (texts_of words.now) command → ⊥)
        → TellsUsage usage_line (effects (input_effect S.left S.faults input.old input.new) (sink_effect K.written K.faults out.old out.new) (sink_effect R.written R.faults report.old report.new)) result }

    // Of words that name a command the promise of the command is kept.
    ensures kept { (command : Command) → Names (texts_of words.now) command
        → KeepsPromise (promise_of command) (effects (input_effect S.left S.faults input.old input.new) (sink_effect K.written K.faults out.old out.new) (sink_effect R.written R.faults report.old report.new)) result }
{
    match command_in(words) {
        Some(command) => carry_out(alloc, command, input, out, report),
        None => finish(report, Outcome::Usage),
    }
}

/// Does what the words say, as `run` does, of a file that is read from a place on. It reads no page that nothing depends on.
/// `show` and `verify` read those of page tables alone, as does a walk, and `verify` those behind a VERIFY, with the pages that
/// these are compared with. `normalise`, `convert` and `restore` read each page where it is written. They keep none but those of
/// page tables, and `restore` of a PV guest those of its P2M frames.
pub fn run_file<P: PageFile, K: Sink, R: Sink>(
    alloc: Global,
    words: &[String],
    input: &mut FileSource<'_, P>,
    out: &mut K,
    report: &mut R,
) -> Status
    // Words that name no command are told the usage: nothing is read or written.
    ensures usage { ((command : Command) → Names (texts_of words.now) command → ⊥)
        → TellsUsage usage_line (effects (input_effect (left_in P.bytes) failed_in input.old input.new) (sink_effect K.written K.faults out.old out.new) (sink_effect R.written R.faults report.old report.new)) result }

    // Of words that name a command the promise of the command is kept.
    ensures kept { (command : Command) → Names (texts_of words.now) command
        → KeepsPromise (promise_of_file command) (effects (input_effect (left_in P.bytes) failed_in input.old input.new) (sink_effect K.written K.faults out.old out.new) (sink_effect R.written R.faults report.old report.new)) result }
{
    match command_in(words) {
        Some(command) => carry_out_file(alloc, command, input, out, report),
        None => finish(report, Outcome::Usage),
    }
}

/// Whether what these words name takes less of a file where it is read by place.
pub(crate) fn reads_by_place(words: &[String]) -> bool {
    match command_in(words) {
        Some(Command::Save | Command::Exercise { .. } | Command::WalkImage { .. } | Command::Relay)
        | None => false,
        Some(_) => true,
    }
}
