ghost use Rattle.std.specs.Prelude.{◌≡◌, ◌≤◌};
ghost use Rattle.mig_check.specs.Checks.{NamesCheck, promise_of_check};
ghost use Rattle.mig_check.specs.declared.words.Check.{Check};
ghost use Rattle.mig_tool_report.specs.Promises.{KeepsPromise, TellsUsage, effects, input_effect, sink_effect, unreached};
ghost use Rattle.mig_tool_report.specs.Report.{Reports, check_usage_line};
ghost use Rattle.mig_tool_report.specs.Words.{texts_of};
ghost use Rattle.mig_tool_report.specs.declared.status.Status.TheVariants as statuses;

use crate::words::{Check, check_in};
use mig_bytes::{Sink, Source, put_all};
use mig_tool_guest::{check, check_legacy};
use mig_tool_report::Status;
use std::alloc::Global;

/// Says how the program is called.
fn tell_usage<R: Sink>(report: &mut R) -> Status
    ensures status { result ≡ statuses.Usage }
    ensures line { Reports check_usage_line (R.written report.old) (R.written report.new) (R.faults report.old) (R.faults report.new) }
    ensures later { R.faults report.old ≤ R.faults report.new }
{
    let _ = put_all(report, b"usage: mig_check [legacy]\n");
    Status::Usage
}

/// Checks what the words name: reads `input`, and puts the line of the status on `report`.
///
/// | words | takes | says on `report` |
/// |---|---|---|
/// | none | a stream | what it is, as `mig_tool verify` does; it compares nothing, and says so where the stream has a VERIFY |
/// | `legacy` | a legacy stream | how many frames its guest has |
///
/// A status says the same however the input is cut, and whatever failed before. Want of memory may come at any time.
pub fn run<S: Source, R: Sink>(
    alloc: Global,
    words: &[String],
    input: &mut S,
    report: &mut R,
) -> Status
    // Words that name nothing are told the usage: nothing is read.
    ensures usage { ((check : Check) → NamesCheck (texts_of words.now) check → ⊥)
        → TellsUsage check_usage_line (effects (input_effect S.left S.faults input.old input.new) unreached (sink_effect R.written R.faults report.old report.new)) result }

    // Of words that name what is to be checked the promise is kept.
    ensures kept { (check : Check) → NamesCheck (texts_of words.now) check
        → KeepsPromise (promise_of_check check) (effects (input_effect S.left S.faults input.old input.new) unreached (sink_effect R.written R.faults report.old report.new)) result }
{
    match check_in(words) {
        Some(Check::Stream) => check(alloc, input, report),
        Some(Check::Legacy) => check_legacy(alloc, input, report),
        None => tell_usage(report),
    }
}
