ghost use Rattle.std.specs.Prelude.{ℕ, List, Option};
ghost use Rattle.mig_bytes.specs.Answers.{or_stop};
ghost use Rattle.mig_bytes.specs.Faults.{RisesOnReadFault};
ghost use Rattle.mig_bytes.specs.Judged.{AgreesWithJudging, Judged};
ghost use Rattle.mig_file.specs.Files.{failed_in, left_in};
ghost use Rattle.mig_outline.specs.Outline.{outline_frames};
ghost use Rattle.mig_placing.specs.Compared.{IsComparison};
ghost use Rattle.mig_restore.specs.Reads.{IsTakenAndCompared};
ghost use Rattle.mig_restore_form.specs.Stream.{ImageOf, image_at, image_behind};

use crate::compares::Comparing;
use mig_bytes::{Stop, answer_for};
use mig_file::{FileSource, PageFile};
use mig_headers::{Cause, Place};
use mig_outline::{Tally, tally_of};
use mig_restore::{StreamAnswer, TakenImage, take_image, take_image_rest};
use std::alloc::Global;

/// What an accepted image in a file comes to.
#[derive(Clone, Copy)]
pub struct Comparison {
    /// Its tally.
    pub tally: Tally,
    /// How many of the entries behind VERIFY differ from the frames that were sent; none without a VERIFY.
    pub differs: Option<u64>,
}

/// The comparison of an image of whose guest the outline was taken.
fn comparison_of(
    taken: Result<TakenImage, Stop<(Place, Cause)>>,
) -> Result<Comparison, StreamAnswer>
    ensures read { (before after : Option (List ℕ)) (judging : List ℕ → Judged (Place × Cause) ImageOf) →
        AgreesWithJudging (IsTakenAndCompared outline_frames) before after judging taken → AgreesWithJudging IsComparison before after judging (or_stop result) }
    ensures faults { (before after : ℕ) → RisesOnReadFault before after taken → RisesOnReadFault before after (or_stop result) }
{
    match taken {
        Ok(image) => Ok(Comparison {
            tally: tally_of(&image),
            differs: image.differs,
        }),
        Err(stop) => Err(answer_for(stop)),
    }
}

/// Judges an image in a file, from its marker to its END record, and leaves what follows it unread. It keeps page
/// tables, and no other pages: an entry behind a VERIFY is compared with the page of its frame where that stands in the
/// file. `Refused` has the place and the cause of the first fault, and then the file was read up to the end of the
/// faulty part. `ReadFault` comes only where a read failed, be it of a page that was compared.
pub fn compare_image<P: PageFile>(
    alloc: Global,
    src: &mut FileSource<'_, P>,
) -> Result<Comparison, StreamAnswer>
    ensures read { AgreesWithJudging IsComparison (left_in P.bytes src.old) (left_in P.bytes src.new) image_at (or_stop result) }
    ensures faults { RisesOnReadFault (failed_in src.old) (failed_in src.new) (or_stop result) }
{
    let mut comparing = Comparing::new(alloc, src.file());
    comparison_of(take_image(alloc, src, &mut comparing))
}

/// Judges an image whose marker was taken before and found right; the same else.
pub fn compare_image_rest<P: PageFile>(
    alloc: Global,
    src: &mut FileSource<'_, P>,
) -> Result<Comparison, StreamAnswer>
    ensures read { AgreesWithJudging IsComparison (left_in P.bytes src.old) (left_in P.bytes src.new) image_behind (or_stop result) }
    ensures faults { RisesOnReadFault (failed_in src.old) (failed_in src.new) (or_stop result) }
{
    let mut comparing = Comparing::new(alloc, src.file());
    comparison_of(take_image_rest(alloc, src, &mut comparing))
}
