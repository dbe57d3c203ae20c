ghost use Rattle.std.specs.Prelude.{IfOk};
ghost use Rattle.mig_bytes.specs.Answers.{or_stop};
ghost use Rattle.mig_bytes.specs.Faults.{RisesOnReadFault};
ghost use Rattle.mig_bytes.specs.Judged.{AgreesWithJudging};
ghost use Rattle.mig_file.specs.Files.{failed_in, left_in};
ghost use Rattle.mig_restore_form.specs.Mean.{IsBegun};
ghost use Rattle.mig_restore_form.specs.Stream.{image_at, image_behind};
ghost use Rattle.mig_placing.specs.Placed.{IsPlacedImage};

use crate::guest::PlacedGuest;
use crate::keeps::Placing;
use mig_bytes::answer_for;
use mig_file::{FileSource, PageFile};
use mig_restore::{StreamAnswer, take_image, take_image_rest};
use std::alloc::Global;

/// Takes an image from a file, from its marker to its END record, and leaves what follows it unread. Its pages stay in the file.
/// `Refused` has the place and the cause of the first fault, and then the file was read up to the end of the faulty part.
pub fn place_image<'a, P: PageFile>(
    alloc: Global,
    src: &mut FileSource<'a, P>,
) -> Result<PlacedGuest<'a, P>, StreamAnswer>
    ensures read { AgreesWithJudging (IsPlacedImage P.bytes) (left_in P.bytes src.old) (left_in P.bytes src.new) image_at (or_stop result) }
    ensures begun { IfOk result (λ placed. IsBegun placed.outline) }
    ensures faults { RisesOnReadFault (failed_in src.old) (failed_in src.new) (or_stop result) }
{
    let mut placing = Placing::new(alloc, src.file());
    match take_image(alloc, src, &mut placing) {
        Ok(taken) => Ok(placing.into_guest(taken.guest)),
        Err(stop) => Err(answer_for(stop)),
    }
}

/// Takes an image whose marker was taken before and found right; the same else.
pub fn place_image_rest<'a, P: PageFile>(
    alloc: Global,
    src: &mut FileSource<'a, P>,
) -> Result<PlacedGuest<'a, P>, StreamAnswer>
    ensures read { AgreesWithJudging (IsPlacedImage P.bytes) (left_in P.bytes src.old) (left_in P.bytes src.new) image_behind (or_stop result) }
    ensures begun { IfOk result (λ placed. IsBegun placed.outline) }
    ensures faults { RisesOnReadFault (failed_in src.old) (failed_in src.new) (or_stop result) }
{
    let mut placing = Placing::new(alloc, src.file());
    match take_image_rest(alloc, src, &mut placing) {
        Ok(taken) => Ok(placing.into_guest(taken.guest)),
        Err(stop) => Err(answer_for(stop)),
    }
}
