ghost use Rattle.std.specs.Prelude.{ℕ, List, Option};
ghost use Rattle.mig_outline.specs.Common.{or_stop, RisesOnReadFault, AgreesWithJudging, ImageOf};
ghost use Rattle.mig_outline.specs.Judges.{IsTally, JudgesImage, JudgesRest};
ghost use Rattle.mig_outline.specs.Outline.{outline_frames};
ghost use Rattle.mig_bytes.specs.Judged.{Judged};
ghost use Rattle.mig_restore.specs.Reads.{IsTaken};

use crate::keeps::Outlines;
use mig_bytes::{Source, Stop, answer_for};
use mig_headers::{Cause, Kind, Place};
use mig_restore::{StreamAnswer, TakenImage, take_image, take_image_rest};
use std::alloc::Global;

/// What an accepted image comes to.
#[derive(Clone, Copy, Debug, PartialEq, Eq)]
pub struct Tally {
    /// The version in the image header.
    pub version: u32,
    /// The kind of guest.
    pub kind: Kind,
    /// How many frames the guest has that the records mean.
    pub frames: u64,
    /// How many records the image has, with END and optional ones.
    pub records: u32,
    /// Whether it has a VERIFY. The entries behind it were judged, but not compared: how many differ isn't known.
    pub verified: bool,
}

/// The tally of an image of whose guest the outline was taken.
pub fn tally_of(taken: &TakenImage) -> Tally
    ensures { (image : ImageOf) → IsTaken outline_frames taken.now image → IsTally result image }
{
    Tally {
        version: taken.version,
        kind: taken.guest.kind(),
        frames: taken.guest.frames(),
        records: taken.records,
        verified: taken.differs.is_some(),
    }
}

/// What a judge answers of an image of whose guest the outline was taken.
fn judged(taken: Result<TakenImage, Stop<(Place, Cause)>>) -> Result<Tally, StreamAnswer>
    ensures read { (before after : Option (List ℕ)) (judging : List ℕ → Judged (Place × Cause) ImageOf) →
        AgreesWithJudging (IsTaken outline_frames) before after judging taken → AgreesWithJudging IsTally before after judging (or_stop result) }
    ensures faults { (before after : ℕ) → RisesOnReadFault before after taken → RisesOnReadFault before after (or_stop result) }
{
    match taken {
        Ok(image) => Ok(tally_of(&image)),
        Err(stop) => Err(answer_for(stop)),
    }
}

/// Judges an image from its marker to its END record, and leaves what follows it unread. It keeps page tables, and no
/// other pages. `Refused` has the place and the cause of the first fault, and then the source was read up to the end of
/// the faulty part. `ReadFault` comes only where a read failed.
pub fn judge_image<S: Source>(alloc: Global, src: &mut S) -> Result<Tally, StreamAnswer>
    ensures read { JudgesImage (S.left src.old) (S.left src.new) result }
    ensures faults { RisesOnReadFault (S.faults src.old) (S.faults src.new) (or_stop result) }
{
    judged(take_image(alloc, src, &mut Outlines))
}

/// Judges an image whose marker was taken before and found right; the same else.
pub fn judge_image_rest<S: Source>(alloc: Global, src: &mut S) -> Result<Tally, StreamAnswer>
    ensures read { JudgesRest (S.left src.old) (S.left src.new) result }
    ensures faults { RisesOnReadFault (S.faults src.old) (S.faults src.new) (or_stop result) }
{
    judged(take_image_rest(alloc, src, &mut Outlines))
}
