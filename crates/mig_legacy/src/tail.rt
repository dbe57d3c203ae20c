ghost use Rattle.std.specs.Prelude.{◌≡◌, ◌≤◌, ◌+◌, ◌∷◌, Some, length, IsOk, IfOk, OnOk};
ghost use Rattle.mig_legacy.specs.Common.{RisesOnReadFault, AgreesWithJudging, most_body, scan, Hvm, IsFew, IsBegun, AreEmulators, IsStreamedBare, judged_as};
ghost use Rattle.mig_legacy.specs.LegacyForm.{tail_of, tail_form, device_form};
ghost use Rattle.mig_legacy.specs.Seen.{put_tail, put_device};
ghost use Rattle.mig_legacy.specs.Stream.{device_at};

use crate::body::{param_key, take_length};
use mig_bytes::{Memory, Source, Stop, are_bytes, take_long, take_part};
use mig_guest::{EMULATOR_CONTEXT, Guest, PartKey};
use mig_headers::{LegacyCause, MOST_BODY};
use mig_hvm::{read_context, scan_context};
use mig_libxl_form::Emulators;
use std::alloc::Global;

/// The HVM parameters that are the frames of I/O requests, of buffered ones and of the store.
const REQUESTS: u32 = 5;

const BUFFERED: u32 = 6;

const STORE: u32 = 1;

/// The context of the device model.
const DEVICE: PartKey = PartKey {
    code: EMULATOR_CONTEXT,
    key1: 0,
    key2: 0,
};

/// What a device model's record begins with.
const SIGNATURE: [u8; 21] = *b"DeviceModelRecord0002";

/// Sets the three frame numbers, and the context.
fn set_tail(guest: &mut Guest, frames: &[u8; 24], context: &[u8]) -> Result<(), Memory>
    requires chain { IsOk (scan context.now) }
    ensures ok { OnOk result (guest.new ≡ put_tail guest.old (tail_of frames.now context.now)) }
{
    guest.set_part(param_key(REQUESTS), &frames[..8])?;
    guest.set_part(param_key(BUFFERED), &frames[8..16])?;
    guest.set_part(param_key(STORE), &frames[16..])?;
    read_context(guest, context)
}

/// Takes the frame numbers and the context behind the chunks.
pub(crate) fn take_tail<S: Source>(
    alloc: Global,
    src: &mut S,
    guest: &mut Guest,
) -> Result<(), Stop<LegacyCause>>
    requires hvm { guest.old.kind ≡ Hvm }
    requires begun { IsBegun guest.old }
    requires few { IsFew guest.old.frames }
    ensures read { AgreesWithJudging (λ _ t. guest.new ≡ put_tail guest.old t) (S.left src.old) (S.left src.new) (judged_as tail_form) result }
    ensures plain { OnOk result (IsStreamedBare guest.new) }
    ensures kind { OnOk result (guest.new.kind ≡ Hvm) }
    ensures faults { RisesOnReadFault (S.faults src.old) (S.faults src.new) result }
{
    let mut frames = [0; 24];
    take_part(src, &mut frames, LegacyCause::Truncated)?;
    let len = take_length(src, MOST_BODY)?;
    let context = take_long(alloc, src, len, LegacyCause::Truncated)?;
    if let Err(fault) = scan_context(&context) {
        return Err(Stop::Refused(LegacyCause::BadContext(fault)));
    }
    are_bytes(&frames);
    are_bytes(&context);
    match set_tail(guest, &frames, &context) {
        Ok(()) => Ok(()),
        Err(Memory) => Err(Stop::Memory),
    }
}

/// Takes a device model's record behind its first byte.
#[tactic(auto, unfolding(mig_bytes_form::specs::Form::judged_as))]
fn take_record<S: Source>(
    alloc: Global,
    src: &mut S,
    first: u8,
) -> Result<Vec<u8>, Stop<LegacyCause>>
    ensures read { AgreesWithJudging (λ content device. device ≡ Some content.items) (S.left src.old) (S.left src.new) (λ rest. judged_as device_form (first ∷ rest)) result }
    ensures small { IfOk result (λ content. length content.items + 8 ≤ most_body) }
    ensures faults { RisesOnReadFault (S.faults src.old) (S.faults src.new) result }
{
    let mut bytes = [first; 21];
    take_part(src, &mut bytes[1..], LegacyCause::Truncated)?;
    if bytes != SIGNATURE {
        return Err(Stop::Refused(LegacyCause::BadSignature));
    }
    let len = take_length(src, MOST_BODY - 8)?;
    take_long(alloc, src, len, LegacyCause::Truncated)
}

/// Takes the device model's record, and keeps its context. Where the source has ended there is none.
pub(crate) fn take_device<S: Source>(
    alloc: Global,
    src: &mut S,
    emulators: &mut Emulators,
) -> Result<(), Stop<LegacyCause>>
    requires begun { AreEmulators emulators.old }
    ensures read { AgreesWithJudging (λ _ device. emulators.new ≡ put_device emulators.old device) (S.left src.old) (S.left src.new) device_at result }
    ensures begun { OnOk result (AreEmulators emulators.new) }
    ensures faults { RisesOnReadFault (S.faults src.old) (S.faults src.new) result }
{
    let mut first = [0; 1];
    match take_part(src, &mut first, LegacyCause::Truncated) {
        Ok(()) => {}
        Err(Stop::Refused(_)) => return Ok(()),
        Err(stop) => return Err(stop),
    }
    let content = take_record(alloc, src, first[0])?;
    are_bytes(&content);
    match emulators.set_context(DEVICE, &content) {
        Ok(()) => Ok(()),
        Err(Memory) => Err(Stop::Memory),
    }
}
