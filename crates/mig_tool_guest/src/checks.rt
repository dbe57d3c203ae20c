ghost use Rattle.mig_tool_guest.specs.Common.{CarriedOut, effects, input_effect, sink_effect, unreached};
ghost use Rattle.mig_tool_guest.specs.Promises.{check_promise, check_legacy_promise};

use crate::commands::{unconverted, unread};
use mig_bytes::{Sink, Source};
use mig_legacy::judge_legacy;
use mig_libxl::judge_any;
use mig_tool_report::{CheckSummary, Status, finish, put_checked, put_checked_legacy};
use std::alloc::Global;

/// Judges a stream, and says on the report what it is. It keeps no page but those of page tables, and compares nothing
/// behind a VERIFY.
pub fn check<S: Source, R: Sink>(alloc: Global, input: &mut S, report: &mut R) -> Status
    ensures { CarriedOut check_promise (effects (input_effect S.left S.faults input.old input.new)
        unreached (sink_effect R.written R.faults report.old report.new)) result }
{
    let tally = match judge_any(alloc, input) {
        Ok(tally) => tally,
        Err(answer) => return finish(report, unread(answer)),
    };
    let summary = CheckSummary {
        version: u64::from(tally.version),
        kind: tally.kind,
        frames: tally.frames,
        records: u64::from(tally.records),
        verified: tally.verified,
    };
    match put_checked(report, summary) {
        Ok(()) => Status::Done,
        Err(_) => Status::WriteFault,
    }
}

/// Judges a legacy stream, and says on the report how many frames its guest has. It keeps no page.
pub fn check_legacy<S: Source, R: Sink>(alloc: Global, input: &mut S, report: &mut R) -> Status
    ensures { CarriedOut check_legacy_promise (effects (input_effect S.left S.faults input.old input.new)
        unreached (sink_effect R.written R.faults report.old report.new)) result }
{
    let frames = match judge_legacy(alloc, input) {
        Ok(frames) => frames,
        Err(answer) => return finish(report, unconverted(answer)),
    };
    match put_checked_legacy(report, frames) {
        Ok(()) => Status::Done,
        Err(_) => Status::WriteFault,
    }
}
