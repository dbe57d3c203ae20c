ghost use Rattle.std.specs.Prelude.{IfOk};
ghost use Rattle.mig_legacy.specs.Common.{or_stop, RisesOnReadFault, AgreesWithJudging, IsStreamed};
ghost use Rattle.mig_file.specs.Files.{failed_in, left_in};
ghost use Rattle.mig_legacy.specs.Placed.{IsPlacedLegacy};
ghost use Rattle.mig_legacy.specs.Stream.{legacy_at};

use crate::read::{LegacyAnswer, take_parts};
use mig_bytes::{Memory, answer_for};
use mig_file::{FileSource, PageFile};
use mig_placing::{PlacedGuest, Placing};
use std::alloc::Global;

/// Reads a legacy stream from a file as `read_legacy` does. Its pages stay in the file. The guest is an outline, with
/// the parts of its device model, and the place of each frame's page in the file is noted.
pub fn place_legacy<'a, P: PageFile>(
    alloc: Global,
    src: &mut FileSource<'a, P>,
) -> Result<PlacedGuest<'a, P>, LegacyAnswer>
    ensures read { AgreesWithJudging (IsPlacedLegacy P.bytes) (left_in P.bytes src.old) (left_in P.bytes src.new) legacy_at (or_stop result) }
    ensures streamed { IfOk result (λ placed. IsStreamed placed.outline) }
    ensures faults { RisesOnReadFault (failed_in src.old) (failed_in src.new) (or_stop result) }
{
    let mut placing = Placing::new(alloc, src.file());
    match take_parts(alloc, src, &mut placing) {
        Ok(seen) => match seen.finish() {
            Ok(outline) => Ok(placing.into_guest(outline)),
            Err(Memory) => Err(LegacyAnswer::Memory),
        },
        Err(stop) => Err(answer_for(stop)),
    }
}
