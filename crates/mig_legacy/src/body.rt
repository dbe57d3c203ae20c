ghost use Rattle.std.specs.Prelude.{◌≡◌, ◌≤◌, ◌<◌, length, None, IfOk, OnOk, IsErrOf};
ghost use Rattle.mig_legacy.specs.Common.{RisesOnReadFault, AgreesWithJudging, Hvm, vcpu_limit, GrewByRecord, AreEmulators, judged_as, EntryStep, NotesOn};
ghost use Rattle.mig_bytes.specs.declared.stop.Stop.TheVariants.{Memory as NoMemory};
ghost use Rattle.mig_legacy.specs.Batches.{fault_of_batch};
ghost use Rattle.mig_legacy.specs.LegacyForm.{length_form, words_form, batch_form, clock_of as clock_in, vcpus_form, clock_form, value_form, toolstack_form};
ghost use Rattle.mig_legacy.specs.Legacy.{param_key as key_of_param};
ghost use Rattle.mig_legacy.specs.Legacy.LegacyContent.{Nothing};
ghost use Rattle.mig_legacy.specs.Seen.{cut_short, put_chunk_frames, put_in_guest, put_in_emulators};

use crate::batch::{batch_fault, page_data_words};
use crate::text::put;
use crate::toolstack::{physmap_pairs, toolstack_fault};
use mig_bytes::{Memory, ReadFailed, Source, Stop, are_bytes, skip, take_long, take_part, u32_le};
use mig_guest::{EMULATOR_PAIRS, Guest, PartKey};
use mig_headers::{Cause, LegacyCause, MOST_BODY, VCPU_LIMIT};
use mig_libxl_form::Emulators;
use mig_policy::PairsAnswer;
use mig_restore::{KeepsFrames, take_entries};
use mig_restore_form::words_of;
use std::alloc::Global;

/// The key of the part that an X86_TSC_INFO sets.
const TSC: PartKey = PartKey {
    code: 8,
    key1: 0,
    key2: 0,
};

/// The store of the device model.
const STORE: PartKey = PartKey {
    code: EMULATOR_PAIRS,
    key1: 0,
    key2: 0,
};

/// The key of the part that is the value of this HVM parameter.
pub(crate) fn param_key(index: u32) -> PartKey
    ensures { result ≡ key_of_param index }
{
    PartKey {
        code: 10,
        key1: index,
        key2: 0,
    }
}

/// Takes a length, which is at most so much.
#[tactic(auto, unfolding(mig_bytes_form::specs::Form::judged_as))]
pub(crate) fn take_length<S: Source>(src: &mut S, most: u32) -> Result<u32, Stop<LegacyCause>>
    ensures read { AgreesWithJudging (λ len n. n ≡ len) (S.left src.old) (S.left src.new) (judged_as (length_form most)) result }
    ensures most { IfOk result (λ len. len ≤ most) }
    ensures faults { RisesOnReadFault (S.faults src.old) (S.faults src.new) result }
    ensures takes_no_memory { ¬ IsErrOf result NoMemory }
{
    let mut bytes = [0; 4];
    take_part(src, &mut bytes, LegacyCause::Truncated)?;
    let len = u32_le(&bytes, 0);
    if len > most {
        return Err(Stop::Refused(LegacyCause::BodyTooLong(u64::from(len))));
    }
    Ok(len)
}

// ---- frames

/// The stop where the page of a word isn't whole, which is all that can be wrong with it.
fn truncated(stop: Stop<Cause>) -> Stop<LegacyCause>
    ensures { result ≡ cut_short stop }
{
    match stop {
        Stop::Refused(_) => Stop::Refused(LegacyCause::Truncated),
        Stop::ReadFault => Stop::ReadFault,
        Stop::Memory => Stop::Memory,
    }
}

/// Takes so many words.
#[tactic(auto, unfolding(mig_bytes_form::specs::Form::judged_as))]
fn take_words<S: Source>(
    alloc: Global,
    src: &mut S,
    count: u32,
) -> Result<Vec<u64>, Stop<LegacyCause>>
    requires { count ≤ 1024 }
    ensures read { AgreesWithJudging (λ list ws. ws ≡ list.items) (S.left src.old) (S.left src.new) (judged_as (words_form count)) result }
    ensures good { IfOk result (λ list. fault_of_batch list.items ≡ None) }
    ensures len { IfOk result (λ list. length list.items ≡ count) }
    ensures faults { RisesOnReadFault (S.faults src.old) (S.faults src.new) result }
{
    let bytes = take_long(alloc, src, 8 * count, LegacyCause::Truncated)?;
    let Ok(words) = words_of(alloc, &bytes, count as usize) else {
        return Err(Stop::Memory);
    };
    match batch_fault(&words) {
        Some(cause) => Err(Stop::Refused(cause)),
        None => Ok(words),
    }
}

/// Takes the words of a batch and their pages, and sets each frame as its page comes: what is kept of it.
pub(crate) fn take_batch<S: Source, F: KeepsFrames<S>>(
    alloc: Global,
    src: &mut S,
    keeper: &mut F,
    count: u32,
    guest: &mut Guest,
) -> Result<(), Stop<LegacyCause>>
    requires few { count ≤ 1024 }
    requires hvm { guest.old.kind ≡ Hvm }
    requires top { guest.old.top ≡ 0 }
    ensures read { AgreesWithJudging (λ _ c. guest.new ≡ put_in_guest F.put guest.old c) (S.left src.old) (S.left src.new) (judged_as (batch_form count)) result }
    ensures grown { OnOk result (GrewByRecord guest.old guest.new) }
    ensures faults { RisesOnReadFault (S.faults src.old) (S.faults src.new) result }
    ensures noted { AgreesWithJudging (λ _ c. NotesOn F.notes keeper.old keeper.new (S.left src.old) (S.left src.new) (put_chunk_frames c)) (S.left src.old) (S.left src.new) (judged_as (batch_form count)) result }
{
    F::goes_on();
    let words = take_words(alloc, src, count)?;
    let Ok(list) = page_data_words(alloc, &words) else {
        return Err(Stop::Memory);
    };
    match take_entries(src, keeper, &list, guest) {
        Ok(()) => Ok(()),
        Err(stop) => Err(truncated(stop)),
    }
}

// ---- other bodies

/// Takes which vCPUs there are, and keeps nothing of it.
#[tactic(auto, unfolding(mig_bytes_form::specs::Form::judged_as))]
pub(crate) fn take_vcpus<S: Source>(src: &mut S) -> Result<(), Stop<LegacyCause>>
    ensures read { AgreesWithJudging (λ _ c. c ≡ Nothing) (S.left src.old) (S.left src.new) (judged_as vcpus_form) result }
    ensures faults { RisesOnReadFault (S.faults src.old) (S.faults src.new) result }
    ensures takes_no_memory { ¬ IsErrOf result NoMemory }
{
    let mut bytes = [0; 4];
    take_part(src, &mut bytes, LegacyCause::Truncated)?;
    let max = u32_le(&bytes, 0);
    if max >= VCPU_LIMIT {
        return Err(Stop::Refused(LegacyCause::BadVcpuMax(u64::from(max))));
    }
    match skip(src, u64::from(8 * (max / 64 + 1))) {
        Ok(true) => Ok(()),
        Ok(false) => Err(Stop::Refused(LegacyCause::Truncated)),
        Err(ReadFailed) => Err(Stop::ReadFault),
    }
}

/// The bytes of an X86_TSC_INFO that say the same.
fn clock_of(alloc: Global, bytes: &[u8; 20]) -> Result<Vec<u8>, Memory>
    ensures { IfOk result (λ clock. clock.items ≡ clock_in bytes.now) }
{
    let Ok(mut clock) = Vec::with_capacity(alloc, 20) else {
        return Err(Memory);
    };
    put(&mut clock, &bytes[..4])?;
    put(&mut clock, &bytes[12..16])?;
    put(&mut clock, &bytes[4..12])?;
    put(&mut clock, &bytes[16..])?;
    Ok(clock)
}

/// Takes how time passes in the guest.
#[tactic(auto, unfolding(mig_bytes_form::specs::Form::judged_as))]
pub(crate) fn take_clock<S: Source>(
    alloc: Global,
    src: &mut S,
    guest: &mut Guest,
) -> Result<(), Stop<LegacyCause>>
    requires hvm { guest.old.kind ≡ Hvm }
    ensures read { (put : EntryStep) → AgreesWithJudging (λ _ c. guest.new ≡ put_in_guest put guest.old c) (S.left src.old) (S.left src.new) (judged_as clock_form) result }
    ensures grown { OnOk result (GrewByRecord guest.old guest.new) }
    ensures faults { RisesOnReadFault (S.faults src.old) (S.faults src.new) result }
{
    let mut bytes = [0; 20];
    take_part(src, &mut bytes, LegacyCause::Truncated)?;
    let Ok(clock) = clock_of(alloc, &bytes) else {
        return Err(Stop::Memory);
    };
    are_bytes(&clock);
    match guest.set_part(TSC, &clock) {
        Ok(()) => Ok(()),
        Err(_) => Err(Stop::Memory),
    }
}

/// Takes the value of the HVM parameter of this index.
#[tactic(auto, unfolding(mig_bytes_form::specs::Form::judged_as))]
pub(crate) fn take_value<S: Source>(
    src: &mut S,
    index: u32,
    guest: &mut Guest,
) -> Result<(), Stop<LegacyCause>>
    requires small { index < vcpu_limit }
    requires hvm { guest.old.kind ≡ Hvm }
    ensures read { (put : EntryStep) → AgreesWithJudging (λ _ c. guest.new ≡ put_in_guest put guest.old c) (S.left src.old) (S.left src.new) (judged_as (value_form index)) result }
    ensures grown { OnOk result (GrewByRecord guest.old guest.new) }
    ensures faults { RisesOnReadFault (S.faults src.old) (S.faults src.new) result }
{
    let mut bytes = [0; 12];
    take_part(src, &mut bytes, LegacyCause::Truncated)?;
    are_bytes(&bytes);
    match guest.set_part(param_key(index), &bytes[4..]) {
        Ok(()) => Ok(()),
        Err(_) => Err(Stop::Memory),
    }
}

/// Takes the data of the toolstack, and adds their pairs to the device model's store.
pub(crate) fn take_toolstack<S: Source>(
    alloc: Global,
    src: &mut S,
    emulators: &mut Emulators,
) -> Result<(), Stop<LegacyCause>>
    requires begun { AreEmulators emulators.old }
    ensures read { AgreesWithJudging (λ _ c. emulators.new ≡ put_in_emulators emulators.old c) (S.left src.old) (S.left src.new) (judged_as (toolstack_form emulators.old)) result }
    ensures begun { OnOk result (AreEmulators emulators.new) }
    ensures faults { RisesOnReadFault (S.faults src.old) (S.faults src.new) result }
{
    let len = take_length(src, MOST_BODY)?;
    let body = take_long(alloc, src, len, LegacyCause::Truncated)?;
    if let Some(offset) = toolstack_fault(&body) {
        return Err(Stop::Refused(LegacyCause::BadToolstack(offset)));
    }
    let Ok(pairs) = physmap_pairs(alloc, &body) else {
        return Err(Stop::Memory);
    };
    are_bytes(&pairs);
    match emulators.add_pairs(STORE, &pairs) {
        Ok(()) => Ok(()),
        Err(PairsAnswer::TooMany) => Err(Stop::Refused(LegacyCause::TooManyPairs)),
        Err(PairsAnswer::Memory) => Err(Stop::Memory),
    }
}
