ghost use Rattle.std.specs.Prelude.{◌≡◌, ◌≤◌, ◌^◌, ◌*◌, IfOk, OnOk, OnErr, IsErrOf, length, vec_len, true, false, None, Some};
ghost use Rattle.std.specs.List.{All, AllByRecursion};
ghost use Rattle.mig_restore.specs.Common.{RisesOnReadFault, AgreesWithJudging, each, plain_at, Truncated, Memory, record_row_of, type_of_number, most_body, RecordType, fault_of_length, put_entries, put_entries_by, put_content_by, GrewByRecord, sets_at, info_at, p2m_at, words_at, with_places, entry_at, list_at, pages_at, typed_at, body_at, IsGoodWord};
ghost use Rattle.mig_guest.specs.PartCodes.{row_of, code_number};
ghost use Rattle.mig_guest.specs.Formed.{is_emulator_code};
ghost use Rattle.mig_records.specs.Layouts.{IsSmallKey};
ghost use Rattle.mig_records.specs.Shapes.{fault_of_body, parts_of_body, set_parts, HasBodyLength};
ghost use Rattle.mig_headers.specs.declared.kind.Kind.TheVariants.{Pv};
ghost use Rattle.mig_restore.specs.Begun.{AreEntriesBegun};
ghost use Rattle.mig_restore.specs.Kept.{EntryStep, NotesOn, put_frames};
ghost use Rattle.mig_restore_form.specs.Record.Content.{Nothing};

use crate::keeps::KeepsFrames;
use mig_bytes::{ReadFailed, Source, Stop, are_bytes, skip, take_long, take_part, u32_le};
use mig_guest::{Guest, PartCode};
use mig_headers::{Cause, Kind, RecordType, is_optional};
use mig_hvm::{read_context, scan_context};
use mig_records::{
    RecordHead, body_fault, count_fault, p2m_fault, pv_info_fault, read_body, read_p2m,
};
use mig_restore_form::{list_fault, words_of};
use std::alloc::Global;

// ---- parts

/// What is wrong with a body that sets parts of this code.
fn sets_fault(code: PartCode, body: &[u8]) -> Option<Cause>
    ensures { result ≡ fault_of_body code body.now }
{
    match code {
        PartCode::HvmContext => match scan_context(body) {
            Ok(_) => None,
            Err(fault) => Some(Cause::BadContext(fault)),
        },
        _ => body_fault(code, body),
    }
}

/// Sets the parts of a body without fault.
fn set_parts(guest: &mut Guest, code: PartCode, body: &[u8]) -> Result<(), mig_bytes::Memory>
    requires { fault_of_body code body.now ≡ None }
    ensures ok { OnOk result (guest.new ≡ record guest.old { parts = set_parts code guest.old.parts (parts_of_body code body.now) }) }
    ensures small { AllByRecursion (λ p. IsSmallKey p.0) (parts_of_body code body.now) }
{
    match code {
        PartCode::HvmContext => read_context(guest, body),
        _ => read_body(guest, code, body),
    }
}

/// Takes a body that sets parts of this code.
fn take_sets<S: Source>(
    alloc: Global,
    src: &mut S,
    code: PartCode,
    len: u32,
    guest: &mut Guest,
) -> Result<(), Stop<Cause>>
    requires small { len ≤ most_body }
    requires allowed { HasBodyLength code len }
    requires of_kind { (row_of code).of_kind guest.old.kind ≡ true }
    requires no_emulator { is_emulator_code (code_number code) ≡ false }
    ensures read { (put : EntryStep) → AgreesWithJudging (λ _ c. guest.new ≡ put_content_by put guest.old c) (S.left src.old) (S.left src.new) (sets_at code len) result }
    ensures grown { OnOk result (GrewByRecord guest.old guest.new) }
    ensures faults { RisesOnReadFault (S.faults src.old) (S.faults src.new) result }
{
    let body = take_long(alloc, src, len, Cause::Truncated)?;
    if let Some(cause) = sets_fault(code, &body) {
        return Err(Stop::Refused(cause));
    }
    are_bytes(&body);
    match set_parts(guest, code, &body) {
        Ok(()) => Ok(()),
        Err(_) => Err(Stop::Memory),
    }
}

/// Takes the body of an X86_PV_INFO, and keeps nothing of it.
fn take_info<S: Source>(src: &mut S, len: u32) -> Result<(), Stop<Cause>>
    requires { len ≡ 8 }
    ensures read { AgreesWithJudging (λ _ c. c ≡ Nothing) (S.left src.old) (S.left src.new) (info_at len) result }
    ensures faults { RisesOnReadFault (S.faults src.old) (S.faults src.new) result }
    ensures takes_no_memory { ¬ IsErrOf result Memory }
{
    let mut body = [0; 8];
    take_part(src, &mut body, Cause::Truncated)?;
    match pv_info_fault(&body) {
        Some(cause) => Err(Stop::Refused(cause)),
        None => Ok(()),
    }
}

/// Takes the body of an X86_PV_P2M_FRAMES, and sets the list of P2M frames.
fn take_p2m<S: Source>(
    alloc: Global,
    src: &mut S,
    len: u32,
    guest: &mut Guest,
) -> Result<(), Stop<Cause>>
    requires small { len ≤ most_body }
    requires front { 8 ≤ len }
    requires kind { guest.old.kind ≡ Pv }
    ensures read { (put : EntryStep) → AgreesWithJudging (λ _ c. guest.new ≡ put_content_by put guest.old c) (S.left src.old) (S.left src.new) (p2m_at len) result }
    ensures grown { OnOk result (GrewByRecord guest.old guest.new) }
    ensures faults { RisesOnReadFault (S.faults src.old) (S.faults src.new) result }
{
    let body = take_long(alloc, src, len, Cause::Truncated)?;
    if let Some(cause) = p2m_fault(&body) {
        return Err(Stop::Refused(cause));
    }
    are_bytes(&body);
    match read_p2m(guest, &body) {
        Ok(()) => Ok(()),
        Err(_) => Err(Stop::Memory),
    }
}

/// Takes the body of an optional record, and keeps nothing of it.
pub fn skip_body<S: Source>(src: &mut S, len: u32) -> Result<(), Stop<Cause>>
    ensures read { AgreesWithJudging (λ _ c. c ≡ Nothing) (S.left src.old) (S.left src.new) (plain_at Truncated (λ _. Nothing) len) result }
    ensures faults { RisesOnReadFault (S.faults src.old) (S.faults src.new) result }
    ensures takes_no_memory { ¬ IsErrOf result Memory }
{
    match skip(src, u64::from(len)) {
        Ok(true) => Ok(()),
        Ok(false) => Err(Stop::Refused(Cause::Truncated)),
        Err(ReadFailed) => Err(Stop::ReadFault),
    }
}

// ---- frames

/// Takes so many words.
fn take_words<S: Source>(alloc: Global, src: &mut S, count: u32) -> Result<Vec<u64>, Stop<Cause>>
    requires { 8 * count ≤ most_body }
    ensures read { AgreesWithJudging (λ v list. list ≡ v.items) (S.left src.old) (S.left src.new) (words_at count) result }
    ensures len { IfOk result (λ v. vec_len v ≡ count) }
    ensures faults { RisesOnReadFault (S.faults src.old) (S.faults src.new) result }
{
    let bytes = take_long(alloc, src, 8 * count, Cause::Truncated)?;
    match words_of(alloc, &bytes, count as usize) {
        Ok(list) => Ok(list),
        Err(_) => Err(Stop::Memory),
    }
}

/// Takes the pages of a PAGE_DATA whose words these are, one for each word of a type with data. Sets the frame of each
/// word as its page comes: what is kept of it, and what the keeper notes. A table of a PV guest is judged before it is
/// set. Behind an error the frames of the first words are set, and all else of the guest is as it was.
pub fn take_entries<S: Source, F: KeepsFrames<S>>(
    src: &mut S,
    keeper: &mut F,
    list: &[u64],
    guest: &mut Guest,
) -> Result<(), Stop<Cause>>
    requires good { All (IsGoodWord guest.old.kind guest.old.top) list.now }
    requires few { length list.now ≤ 2 ^ 24 }
    ensures read { AgreesWithJudging (λ _ es. guest.new ≡ record guest.old { frames = put_entries_by F.put guest.old.kind guest.old.frames es })
        (S.left src.old) (S.left src.new) (each (entry_at guest.old.kind guest.old.top) (with_places 0 list.now)) result }
    ensures grown { OnOk result (GrewByRecord guest.old guest.new) }
    ensures faults { RisesOnReadFault (S.faults src.old) (S.faults src.new) result }
    ensures err { OnErr result (AreEntriesBegun F.put guest.old guest.new list.now) }
    ensures noted { AgreesWithJudging (λ _ es. NotesOn F.notes keeper.old keeper.new (S.left src.old) (S.left src.new) (λ frames. put_entries guest.old.kind frames es))
        (S.left src.old) (S.left src.new) (each (entry_at guest.old.kind guest.old.top) (with_places 0 list.now)) result }
{
    for place in 0..list.len() {
        keeper.take_entry(src, place as u32, list[place], guest)?;
    }
    Ok(())
}

/// Takes the count and the words of a PAGE_DATA record, for frame numbers up to top, and judges them.
pub fn take_list<S: Source>(
    alloc: Global,
    src: &mut S,
    len: u32,
    kind: Kind,
    top: u64,
) -> Result<Vec<u64>, Stop<Cause>>
    requires { len ≤ most_body }
    ensures read { AgreesWithJudging (λ v list. list ≡ v.items) (S.left src.old) (S.left src.new) (list_at kind top len) result }
    ensures good { IfOk result (λ v. All (IsGoodWord kind top) v.items) }
    ensures few { IfOk result (λ v. length v.items ≤ 2 ^ 24) }
    ensures faults { RisesOnReadFault (S.faults src.old) (S.faults src.new) result }
{
    let mut front = [0; 8];
    take_part(src, &mut front, Cause::Truncated)?;
    let count = u32_le(&front, 0);
    if let Some(cause) = count_fault(len, count) {
        return Err(Stop::Refused(cause));
    }
    let list = take_words(alloc, src, count)?;
    match list_fault(kind, top, len, &list) {
        Some(cause) => Err(Stop::Refused(cause)),
        None => Ok(list),
    }
}

/// Takes the body of a PAGE_DATA record.
fn take_pages<S: Source, F: KeepsFrames<S>>(
    alloc: Global,
    src: &mut S,
    keeper: &mut F,
    len: u32,
    guest: &mut Guest,
) -> Result<(), Stop<Cause>>
    requires { len ≤ most_body }
    ensures read { AgreesWithJudging (λ _ c. guest.new ≡ put_content_by F.put guest.old c) (S.left src.old) (S.left src.new) (pages_at guest.old.kind guest.old.top len) result }
    ensures grown { OnOk result (GrewByRecord guest.old guest.new) }
    ensures faults { RisesOnReadFault (S.faults src.old) (S.faults src.new) result }
    ensures noted { AgreesWithJudging (λ _ c. NotesOn F.notes keeper.old keeper.new (S.left src.old) (S.left src.new) (put_frames guest.old.kind c)) (S.left src.old) (S.left src.new) (pages_at guest.old.kind guest.old.top len) result }
{
    F::goes_on();
    let list = take_list(alloc, src, len, guest.kind(), guest.top())?;
    take_entries(src, keeper, &list, guest)
}

// ---- records

/// Takes the body of a record of a known type.
fn take_typed<S: Source, F: KeepsFrames<S>>(
    alloc: Global,
    src: &mut S,
    keeper: &mut F,
    this: RecordType,
    len: u32,
    guest: &mut Guest,
) -> Result<(), Stop<Cause>>
    requires small { len ≤ most_body }
    requires allowed { (record_row_of this).allows len ≡ true }
    requires of_kind { (record_row_of this).of_kind guest.old.kind ≡ true }
    ensures read { AgreesWithJudging (λ _ c. guest.new ≡ put_content_by F.put guest.old c) (S.left src.old) (S.left src.new) (typed_at guest.old.kind guest.old.top (Some this) len) result }
    ensures grown { OnOk result (GrewByRecord guest.old guest.new) }
    ensures faults { RisesOnReadFault (S.faults src.old) (S.faults src.new) result }
    ensures noted { AgreesWithJudging (λ _ c. NotesOn F.notes keeper.old keeper.new (S.left src.old) (S.left src.new) (put_frames guest.old.kind c)) (S.left src.old) (S.left src.new) (typed_at guest.old.kind guest.old.top (Some this) len) result }
{
    F::goes_on();
    match this {
        RecordType::PageData => take_pages(alloc, src, keeper, len, guest),
        RecordType::X86PvInfo => take_info(src, len),
        RecordType::X86PvP2mFrames => take_p2m(alloc, src, len, guest),
        _ => match PartCode::from_number(this.number()) {
            Some(code) => take_sets(alloc, src, code, len, guest),
            None => Ok(()),
        },
    }
}

/// Takes a record's body, and keeps what it says.
pub(crate) fn take_body<S: Source, F: KeepsFrames<S>>(
    alloc: Global,
    src: &mut S,
    keeper: &mut F,
    head: RecordHead,
    guest: &mut Guest,
) -> Result<(), Stop<Cause>>
    requires small { head.len ≤ most_body }
    requires allowed { fault_of_length head.kind head.len ≡ None }
    requires of_kind { (this : RecordType) → type_of_number head.kind ≡ Some this → (record_row_of this).of_kind guest.old.kind ≡ true }
    ensures read { AgreesWithJudging (λ _ c. guest.new ≡ put_content_by F.put guest.old c) (S.left src.old) (S.left src.new) (body_at guest.old.kind guest.old.top head.kind head.len) result }
    ensures grown { OnOk result (GrewByRecord guest.old guest.new) }
    ensures faults { RisesOnReadFault (S.faults src.old) (S.faults src.new) result }
    ensures noted { AgreesWithJudging (λ _ c. NotesOn F.notes keeper.old keeper.new (S.left src.old) (S.left src.new) (put_frames guest.old.kind c)) (S.left src.old) (S.left src.new) (body_at guest.old.kind guest.old.top head.kind head.len) result }
{
    F::goes_on();
    if is_optional(head.kind) {
        return skip_body(src, head.len);
    }
    match RecordType::from_number(head.kind) {
        Some(this) => take_typed(alloc, src, keeper, this, head.len, guest),
        None => Ok(()),
    }
}
