ghost use Rattle.std.specs.Prelude.{◌≡◌, ◌<◌, ◌+◌, ◌^◌, OnOk, IfOk, IsErrOf, length, Some, None, true};
ghost use Rattle.std.specs.FinMap as maps;
ghost use Rattle.mig_image.specs.Common.{TakesBytes, RisesOnReadFault, AgreesWithJudging, Memory, first_named, is_passed, most_frames, type_has_data, is_type_of, judged_as};
ghost use Rattle.mig_image.specs.FrameEnds.{EndsAt};
ghost use Rattle.mig_image.specs.GuestImage.{page_left_out};
ghost use Rattle.mig_image.specs.GuestImageForm.{reserved_bits, frame_causes, page_causes, frame_head_form, sent_page_form, page_form, host_frame_form};
ghost use Rattle.mig_image.specs.GuestImageParts.{head_pfn, head_type, head_type_number, has_zero_flag};

use crate::version::GuestImageVersion;
use crate::zeros::{is_all_zero, zero_page};
use mig_bytes::{Source, Stop, take_part, u64_le};
use mig_headers::{ImageCause, Kind};
use mig_host::Host;
use mig_pagetypes::{MACHINE_LIMIT, PageType};

/// The number of the type in a frame's head.
fn type_number_of(version: GuestImageVersion, head: &[u8; 16]) -> u64
    ensures { result ≡ head_type_number version head.now }
{
    let word = u64_le(head, 0);
    match version {
        GuestImageVersion::One => word / (1 << 28) % 16,
        GuestImageVersion::Two => word / (1 << 60) % 16,
    }
}

/// The type in a frame's head; a reserved one is as if it were no frame's.
fn kind_of(version: GuestImageVersion, head: &[u8; 16]) -> PageType
    ensures { result ≡ head_type version head.now }
{
    PageType::from_nibble(type_number_of(version, head) as u8).unwrap_or(PageType::Xtab)
}

/// The frame number in a frame's head.
fn pfn_of(version: GuestImageVersion, head: &[u8; 16]) -> u64
    ensures value { result ≡ head_pfn version head.now }
    ensures small { result < 2 ^ 52 }
{
    let word = u64_le(head, 0);
    match version {
        GuestImageVersion::One => word % (1 << 28),
        GuestImageVersion::Two => word % (1 << 52),
    }
}

/// Whether a frame's head says that the page is all zero, and doesn't stand behind it.
fn has_zero_flag(version: GuestImageVersion, head: &[u8; 16]) -> bool
    ensures { result ≡ has_zero_flag version head.now }
{
    version == GuestImageVersion::Two && u64_le(head, 0) / (1 << 52) % 2 == 1
}

/// Whether bits are set in a frame's head that have to be 0.
fn has_reserved(version: GuestImageVersion, head: &[u8; 16]) -> bool
    ensures { result ≡ is_passed (reserved_bits version head.now) }
{
    let word = u64_le(head, 0);
    match version {
        GuestImageVersion::One => word / (1 << 32) != 0,
        GuestImageVersion::Two => {
            word / (1 << 53) % (1 << 7) != 0
                || (has_zero_flag(version, head) && type_number_of(version, head) >= 13)
        }
    }
}

/// Whether guests of this kind have frames of this type.
fn is_type_of(kind: Kind, this: PageType) -> bool
    ensures { result ≡ is_type_of kind this }
{
    match kind {
        Kind::Pv => this != PageType::Xtab,
        Kind::Hvm => matches!(this, PageType::Notab | PageType::Broken | PageType::Xalloc),
    }
}

/// What is wrong with the head of a frame behind those of the host, which end at `next`.
fn frame_fault(
    version: GuestImageVersion,
    host: &Host,
    next: u64,
    head: &[u8; 16],
) -> Option<ImageCause>
    requires { EndsAt host.now.host next }
    ensures { result ≡ first_named (frame_causes version host.now.host head.now) }
{
    let pfn = pfn_of(version, head);
    let machine = u64_le(head, 8);
    if has_reserved(version, head) {
        return Some(ImageCause::Reserved);
    }
    if !is_type_of(host.kind(), kind_of(version, head)) {
        return Some(ImageCause::BadPageType(type_number_of(version, head)));
    }
    if pfn < next {
        return Some(ImageCause::FrameOrder(pfn));
    }
    if pfn >= host.width() {
        return Some(ImageCause::FrameOutside(pfn));
    }
    if machine == 0 || machine >= MACHINE_LIMIT {
        return Some(ImageCause::MachineFrame(machine));
    }
    if host.uses_machine(machine) {
        return Some(ImageCause::MachineTwice(machine));
    }
    None
}

/// Takes the head of a frame that stands behind those of the host, which end at `next`.
#[tactic(auto, unfolding(mig_bytes_form::specs::Form::judged_as))]
fn read_frame_head<S: Source>(
    src: &mut S,
    version: GuestImageVersion,
    host: &Host,
    next: u64,
) -> Result<[u8; 16], Stop<ImageCause>>
    requires { EndsAt host.now.host next }
    ensures read { AgreesWithJudging (λ v head. head ≡ v) (S.left src.old) (S.left src.new) (judged_as (frame_head_form version host.now.host)) result }
    ensures fine { IfOk result (λ head. first_named (frame_causes version host.now.host head) ≡ None) }
    ensures taken { OnOk result (TakesBytes (S.left src.old) (S.left src.new)) }
    ensures faults { RisesOnReadFault (S.faults src.old) (S.faults src.new) result }
    ensures takes_no_memory { ¬ IsErrOf result Memory }
{
    let mut head = [0; 16];
    take_part(src, &mut head, ImageCause::Truncated)?;
    match frame_fault(version, host, next, &head) {
        Some(cause) => Err(Stop::Refused(cause)),
        None => Ok(head),
    }
}

/// What is wrong with the page of this frame number, which stands behind its head.
fn sent_fault(version: GuestImageVersion, pfn: u64, page: &[u8; 4096]) -> Option<ImageCause>
    ensures { result ≡ first_named (page_causes version pfn page.now) }
{
    if version == GuestImageVersion::Two && is_all_zero(page) {
        return Some(ImageCause::ZeroPage(pfn));
    }
    None
}

/// Takes a page that stands behind its head.
#[tactic(auto, unfolding(mig_bytes_form::specs::Form::judged_as))]
fn read_sent_page<S: Source>(
    src: &mut S,
    version: GuestImageVersion,
    pfn: u64,
    page: &mut [u8; 4096],
) -> Result<(), Stop<ImageCause>>
    ensures read { AgreesWithJudging (λ _ sent. sent ≡ page.new) (S.left src.old) (S.left src.new) (judged_as (sent_page_form version pfn)) result }
    ensures taken { OnOk result (TakesBytes (S.left src.old) (S.left src.new)) }
    ensures faults { RisesOnReadFault (S.faults src.old) (S.faults src.new) result }
    ensures takes_no_memory { ¬ IsErrOf result Memory }
{
    take_part(src, page, ImageCause::Truncated)?;
    match sent_fault(version, pfn, page) {
        Some(cause) => Err(Stop::Refused(cause)),
        None => Ok(()),
    }
}

/// Takes the page of a frame whose type has data; one that is left out stays all zero.
fn read_page<S: Source>(
    src: &mut S,
    version: GuestImageVersion,
    head: &[u8; 16],
    page: &mut [u8; 4096],
) -> Result<(), Stop<ImageCause>>
    requires some { type_has_data (head_type version head.now) ≡ true }
    requires zero { page.old ≡ page_left_out }
    ensures read { AgreesWithJudging (λ _ found. found ≡ Some page.new) (S.left src.old) (S.left src.new) (judged_as (page_form version head.now)) result }
    ensures taken { OnOk result (TakesBytes (S.left src.old) (S.left src.new)) }
    ensures faults { RisesOnReadFault (S.faults src.old) (S.faults src.new) result }
    ensures takes_no_memory { ¬ IsErrOf result Memory }
{
    if has_zero_flag(version, head) {
        return Ok(());
    }
    read_sent_page(src, version, pfn_of(version, head), page)
}

/// Takes a frame that stands behind those of the host, which end at `next`, and keeps it. Answers where they end now.
#[tactic(auto, using(crate::proofs::Readers::frames_more, crate::proofs::Readers::is_absent))]
pub(crate) fn read_frame<S: Source>(
    src: &mut S,
    version: GuestImageVersion,
    host: &mut Host,
    next: u64,
) -> Result<u64, Stop<ImageCause>>
    requires ends { EndsAt host.old.host next }
    requires few { length (maps.entries host.old.host.frames) < most_frames }
    ensures read { AgreesWithJudging (λ _ h. host.new.host ≡ h) (S.left src.old) (S.left src.new) (judged_as (host_frame_form version host.old.host)) result }
    ensures ends { IfOk result (λ behind. EndsAt host.new.host behind) }
    ensures counted { OnOk result (length (maps.entries host.new.host.frames) ≡ length (maps.entries host.old.host.frames) + 1) }
    ensures width { OnOk result (host.new.host.width ≡ host.old.host.width) }
    ensures parts { OnOk result (host.new.host.parts ≡ host.old.host.parts) }
    ensures taken { OnOk result (TakesBytes (S.left src.old) (S.left src.new)) }
    ensures faults { RisesOnReadFault (S.faults src.old) (S.faults src.new) result }
{
    let head = read_frame_head(src, version, host, next)?;
    let kind = kind_of(version, &head);
    let (pfn, machine) = (pfn_of(version, &head), u64_le(&head, 8));
    if !kind.has_data() {
        return match host.add_frame(pfn, kind, machine, None) {
            Ok(()) => Ok(pfn + 1),
            Err(_) => Err(Stop::Memory),
        };
    }
    let mut page = zero_page();
    read_page(src, version, &head, &mut page)?;
    match host.add_frame(pfn, kind, machine, Some(&page)) {
        Ok(()) => Ok(pfn + 1),
        Err(_) => Err(Stop::Memory),
    }
}
