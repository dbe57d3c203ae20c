ghost use Rattle.std.specs.Prelude.{◌≡◌, OnOk, IfOk, IsErrOf, None, nat_lt};
ghost use Rattle.mig_image.specs.Common.{TakesBytes, RisesOnReadFault, le32, AgreesWithJudging, Memory, first_named, kind_of_number, judged_as};
ghost use Rattle.mig_image.specs.GuestImage.{most_width_of};
ghost use Rattle.mig_image.specs.GuestImageForm.{host_head_causes, host_head_form};
ghost use Rattle.mig_image.specs.GuestImageParts.{head_version};

use crate::version::GuestImageVersion;
use mig_bytes::{Source, Stop, take_part, u32_le, u64_be, u64_le};
use mig_headers::{ImageCause, Kind};
use mig_pagetypes::{MOST_FRAMES, TOP_LIMIT};

/// "XGIMAGE1" and "XGIMAGE2", the lowest byte last.
const NAME_ONE: u64 = 0x5847_494D_4147_4531;

pub(crate) const NAME_TWO: u64 = 0x5847_494D_4147_4532;

/// The greatest width of a host that version 1 holds.
const MOST_WIDTH_ONE: u64 = 1 << 28;

/// The greatest width of a host that version 2 holds.
const MOST_WIDTH_TWO: u64 = 1 << 52;

/// The version of an image with this head.
pub(crate) fn version_in(head: &[u8; 32]) -> GuestImageVersion
    ensures { result ≡ head_version head.now }
{
    if u64_be(head, 0) == NAME_TWO {
        GuestImageVersion::Two
    } else {
        GuestImageVersion::One
    }
}

/// Whether the version holds no host of this width.
fn is_above_version(version: GuestImageVersion, width: u64) -> bool
    ensures { result ≡ nat_lt (most_width_of version) width }
{
    match version {
        GuestImageVersion::One => width > MOST_WIDTH_ONE,
        GuestImageVersion::Two => width > MOST_WIDTH_TWO,
    }
}

/// The kind of guest that a head names.
pub(crate) fn kind_in(head: &[u8; 32]) -> Kind
    ensures { result ≡ kind_of_number (le32 head.now 8) }
{
    match u32_le(head, 8) {
        1 => Kind::Pv,
        _ => Kind::Hvm,
    }
}

/// What is wrong with the head of an image, where wider hosts than this aren't taken.
fn head_fault(widest: u64, head: &[u8; 32]) -> Option<ImageCause>
    ensures { result ≡ first_named (host_head_causes widest head.now) }
{
    let (name, kind) = (u64_be(head, 0), u32_le(head, 8));
    if name != NAME_ONE && name != NAME_TWO {
        return Some(ImageCause::NotImage);
    }
    if kind != 1 && kind != 2 {
        return Some(ImageCause::BadKind(u64::from(kind)));
    }
    if u32_le(head, 12) != 0 {
        return Some(ImageCause::Reserved);
    }
    let (width, frames) = (u64_le(head, 16), u64_le(head, 24));
    if width > widest
        || is_above_version(version_in(head), width)
        || (kind == 1 && (width == 0 || width > TOP_LIMIT))
    {
        return Some(ImageCause::Width(width));
    }
    if frames > MOST_FRAMES || frames > width {
        return Some(ImageCause::FrameCount(frames));
    }
    None
}

/// Takes the head of an image of a host that is no wider than this.
#[tactic(auto, unfolding(mig_bytes_form::specs::Form::judged_as))]
pub(crate) fn read_head<S: Source>(src: &mut S, widest: u64) -> Result<[u8; 32], Stop<ImageCause>>
    ensures read { AgreesWithJudging (λ v head. head ≡ v) (S.left src.old) (S.left src.new) (judged_as (host_head_form widest)) result }
    ensures fine { IfOk result (λ head. first_named (host_head_causes widest head) ≡ None) }
    ensures taken { OnOk result (TakesBytes (S.left src.old) (S.left src.new)) }
    ensures faults { RisesOnReadFault (S.faults src.old) (S.faults src.new) result }
    ensures takes_no_memory { ¬ IsErrOf result Memory }
{
    let mut head = [0; 32];
    take_part(src, &mut head, ImageCause::Truncated)?;
    match head_fault(widest, &head) {
        Some(cause) => Err(Stop::Refused(cause)),
        None => Ok(head),
    }
}
