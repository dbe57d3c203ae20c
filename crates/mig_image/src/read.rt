ghost use Rattle.std.specs.Prelude.{◌≡◌, ◌≤◌, OnOk, IfOk, IsErrOf, length, None};
ghost use Rattle.std.specs.FinMap as maps;
ghost use Rattle.mig_image.specs.Common.{or_stop, TakesBytes, RisesOnReadFault, le64, AgreesWithJudging, Memory, first_named, most_frames, most_width, judged_as};
ghost use Rattle.mig_image.specs.Answer.{IsHost, ReadsHost, BeginsWithGuestImage};
ghost use Rattle.mig_image.specs.GuestImageForm.{host_head_causes, frames_form, count_form, behind_head, host_at};
ghost use Rattle.mig_image.specs.GuestImageParts.{opened};

use crate::frame::read_frame;
use crate::head::{kind_in, read_head, version_in};
use crate::read_part::read_parts;
use crate::version::GuestImageVersion;
use mig_bytes::{Answer, Source, Stop, answer_for, take_part, u64_le};
use mig_headers::{ImageCause, ImagePlace};
use mig_host::Host;
use std::alloc::Global;

/// Why an image isn't read.
pub type ImageAnswer = Answer<ImagePlace, ImageCause>;

/// Takes so many frames.
fn read_frames<S: Source>(
    src: &mut S,
    version: GuestImageVersion,
    host: &mut Host,
    count: u64,
) -> Result<(), Stop<(ImagePlace, ImageCause)>>
    requires few { count ≤ most_frames }
    requires none { length (maps.entries host.old.host.frames) ≡ 0 }
    ensures read { AgreesWithJudging (λ _ h. host.new.host ≡ h) (S.left src.old) (S.left src.new) (judged_as (frames_form version host.old.host count)) result }
    ensures width { OnOk result (host.new.host.width ≡ host.old.host.width) }
    ensures parts { OnOk result (host.new.host.parts ≡ host.old.host.parts) }
    ensures taken { OnOk result (TakesBytes (S.left src.old) (S.left src.new)) }
    ensures faults { RisesOnReadFault (S.faults src.old) (S.faults src.new) result }
{
    let mut next = 0;
    for i in 0..count {
        next = match read_frame(src, version, host, next) {
            Ok(behind) => behind,
            Err(stop) => return Err(stop.at(ImagePlace::Frame(i))),
        };
    }
    Ok(())
}

/// Takes the number of parts.
#[tactic(auto, unfolding(mig_bytes_form::specs::Form::judged_as))]
fn read_count<S: Source>(src: &mut S) -> Result<u64, Stop<ImageCause>>
    ensures read { AgreesWithJudging (λ v count. count ≡ v) (S.left src.old) (S.left src.new) (judged_as count_form) result }
    ensures taken { OnOk result (TakesBytes (S.left src.old) (S.left src.new)) }
    ensures faults { RisesOnReadFault (S.faults src.old) (S.faults src.new) result }
    ensures takes_no_memory { ¬ IsErrOf result Memory }
{
    let mut count = [0; 8];
    take_part(src, &mut count, ImageCause::Truncated)?;
    Ok(u64_le(&count, 0))
}

/// Takes the frames and parts behind a head into the host that the head opens.
#[tactic(auto, using(mig_host::proofs::InOrder::no_entries))]
fn take_behind<S: Source>(
    alloc: Global,
    src: &mut S,
    head: &[u8; 32],
    host: &mut Host,
) -> Result<(), Stop<(ImagePlace, ImageCause)>>
    requires opened { host.old.host ≡ opened head.now }
    requires few { le64 head.now 24 ≤ most_frames }
    ensures read { AgreesWithJudging (λ _ h. host.new.host ≡ h) (S.left src.old) (S.left src.new) (judged_as (behind_head head.now)) result }
    ensures width { OnOk result (host.new.host.width ≡ host.old.host.width) }
    ensures taken { OnOk result (TakesBytes (S.left src.old) (S.left src.new)) }
    ensures faults { RisesOnReadFault (S.faults src.old) (S.faults src.new) result }
{
    read_frames(src, version_in(head), host, u64_le(head, 24))?;
    let count = match read_count(src) {
        Ok(count) => count,
        Err(stop) => return Err(stop.at(ImagePlace::Parts)),
    };
    read_parts(alloc, src, host, count)
}

/// Takes the frames and parts behind a head.
fn read_behind<S: Source>(
    alloc: Global,
    src: &mut S,
    widest: u64,
    head: &[u8; 32],
) -> Result<Host, Stop<(ImagePlace, ImageCause)>>
    requires widest { widest ≤ most_width }
    requires fine { first_named (host_head_causes widest head.now) ≡ None }
    ensures read { AgreesWithJudging (λ host h. host.host ≡ h) (S.left src.old) (S.left src.new) (judged_as (behind_head head.now)) result }
    ensures narrow { IfOk result (λ host. host.host.width ≤ widest) }
    ensures taken { OnOk result (TakesBytes (S.left src.old) (S.left src.new)) }
    ensures faults { RisesOnReadFault (S.faults src.old) (S.faults src.new) result }
{
    let mut host = Host::new(alloc, kind_in(head), u64_le(head, 16));
    take_behind(alloc, src, head, &mut host)?;
    Ok(host)
}

/// Takes the head, and what stands behind it.
fn read_whole<S: Source>(
    alloc: Global,
    src: &mut S,
    widest: u64,
) -> Result<Host, Stop<(ImagePlace, ImageCause)>>
    requires { widest ≤ most_width }
    ensures read { AgreesWithJudging IsHost (S.left src.old) (S.left src.new) (host_at widest) result }
    ensures narrow { IfOk result (λ host. host.host.width ≤ widest) }
    ensures taken { OnOk result (TakesBytes (S.left src.old) (S.left src.new)) }
    ensures faults { RisesOnReadFault (S.faults src.old) (S.faults src.new) result }
{
    let head = match read_head(src, widest) {
        Ok(head) => head,
        Err(stop) => return Err(stop.at(ImagePlace::Head)),
    };
    read_behind(alloc, src, widest, &head)
}

/// Reads the image of a host, of either version, and leaves unread what follows it. Hosts that are wider than `widest` are
/// refused. `Refused` has the place and the cause of the first fault, and then the source was read up to the end of the
/// faulty part; `ReadFault` comes only where a read failed.
#[tactic(auto, using(crate::proofs::ImageFronts::begins_with_image))]
pub fn read_host<S: Source>(alloc: Global, src: &mut S, widest: u64) -> Result<Host, ImageAnswer>
    requires { widest ≤ most_width }
    ensures read { ReadsHost widest (S.left src.old) (S.left src.new) result }
    ensures spelled { BeginsWithGuestImage widest (S.left src.old) (S.left src.new) result }
    ensures narrow { IfOk result (λ host. host.host.width ≤ widest) }
    ensures faults { RisesOnReadFault (S.faults src.old) (S.faults src.new) (or_stop result) }
{
    match read_whole(alloc, src, widest) {
        Ok(host) => Ok(host),
        Err(stop) => Err(answer_for(stop)),
    }
}
