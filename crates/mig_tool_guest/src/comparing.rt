ghost use Rattle.mig_tool_guest.specs.Common.{or_stop, RisesOnReadFault, AgreesWithJudging, failed_in, left_in, stream_at};
ghost use Rattle.mig_tool_guest.specs.Fronts.{IsSummary};

use mig_file::{FileSource, PageFile};
use mig_libxl::compare_any;
use mig_restore::StreamAnswer;
use mig_tool_report::Summary;
use std::alloc::Global;

/// What is said of a stream in a file. It reads it once, and no page but those of page tables; where entries are to be
/// compared, it reads theirs, and those in the file that they are compared with.
pub(crate) fn compared_file<P: PageFile>(
    alloc: Global,
    input: &mut FileSource<'_, P>,
) -> Result<Summary, StreamAnswer>
    ensures read { AgreesWithJudging IsSummary (left_in P.bytes input.old) (left_in P.bytes input.new) stream_at (or_stop result) }
    ensures faults { RisesOnReadFault (failed_in input.old) (failed_in input.new) (or_stop result) }
{
    match compare_any(alloc, input) {
        Ok(comparison) => Ok(Summary {
            version: u64::from(comparison.tally.version),
            kind: comparison.tally.kind,
            frames: comparison.tally.frames,
            records: u64::from(comparison.tally.records),
            differs: comparison.differs,
        }),
        Err(answer) => Err(answer),
    }
}
