ghost use Rattle.std.specs.Prelude.{◌≡◌, ◌≤◌, ◌<◌, ◌+◌, ◌^◌, IfOk, OnOk, IfSome, None, length, true};
ghost use Rattle.mig_restore.specs.Common.{RisesOnReadFault, AgreesWithJudging, each, record_row_of, type_of_number, most_body, RecordType, fault_of_length, with_places, entry_at, pages_at, body_at, placed_content, put_content_by, differing, checked_in, GrewByRecord};
ghost use Rattle.mig_restore.specs.Compared.{IsCompared, differs_with};
ghost use Rattle.mig_restore.specs.Kept.{NotesOn, put_frames};

use crate::body::{take_body, take_list};
use crate::keeps::KeepsFrames;
use mig_bytes::{Source, Stop};
use mig_guest::Guest;
use mig_headers::{Cause, PAGE_DATA, VERIFY};
use mig_records::RecordHead;
use std::alloc::Global;

/// Takes the pages of a PAGE_DATA behind a VERIFY whose words these are. Says how many of its entries differ, as the keeper
/// does of each.
fn check_entries<S: Source, F: KeepsFrames<S>>(
    src: &mut S,
    keeper: &F,
    list: &[u64],
    guest: &Guest,
) -> Result<u64, Stop<Cause>>
    requires { length list.now ≤ 2 ^ 24 }
    ensures read { AgreesWithJudging (λ n es. IsCompared F.compares F.notes F.kept keeper.now (S.left src.old) guest.now.frames (λ frames. n ≡ differing guest.now.kind frames es))
        (S.left src.old) (S.left src.new) (each (entry_at guest.now.kind guest.now.top) (with_places 0 list.now)) result }
    ensures few { IfOk result (λ n. n ≤ 2 ^ 24) }
    ensures faults { RisesOnReadFault (S.faults src.old) (S.faults src.new) result }
{
    F::goes_on();
    let mut differ = 0;
    for place in 0..list.len() {
        let differs = keeper.check_entry(src, place as u32, list[place], guest)?;
        if differs {
            differ += 1;
        }
    }
    Ok(differ)
}

/// Takes the body of a PAGE_DATA record behind a VERIFY. Says how many of its entries differ.
fn check_pages<S: Source, F: KeepsFrames<S>>(
    alloc: Global,
    src: &mut S,
    keeper: &F,
    len: u32,
    guest: &Guest,
) -> Result<u64, Stop<Cause>>
    requires { len ≤ most_body }
    ensures read { AgreesWithJudging (λ n c. IsCompared F.compares F.notes F.kept keeper.now (S.left src.old) guest.now.frames (λ frames. n ≡ differing guest.now.kind frames (checked_in (placed_content true c))))
        (S.left src.old) (S.left src.new) (pages_at guest.now.kind guest.now.top len) result }
    ensures few { IfOk result (λ n. n ≤ 2 ^ 24) }
    ensures faults { RisesOnReadFault (S.faults src.old) (S.faults src.new) result }
{
    F::goes_on();
    let list = take_list(alloc, src, len, guest.kind(), guest.top())?;
    check_entries(src, keeper, &list, guest)
}

/// Takes a record's body, and keeps what it says; behind a VERIFY it keeps no frames, but has the keeper compare them. Says
/// how many entries differ, as the keeper does.
pub fn take_placed<S: Source, F: KeepsFrames<S>>(
    alloc: Global,
    src: &mut S,
    keeper: &mut F,
    head: RecordHead,
    verified: bool,
    guest: &mut Guest,
) -> Result<u64, Stop<Cause>>
    requires small { head.len ≤ most_body }
    requires allowed { fault_of_length head.kind head.len ≡ None }
    requires of_kind { (this : RecordType) → type_of_number head.kind ≡ Some this → (record_row_of this).of_kind guest.old.kind ≡ true }
    ensures read { AgreesWithJudging (λ _ c. guest.new ≡ put_content_by F.put guest.old (placed_content verified c)) (S.left src.old) (S.left src.new) (body_at guest.old.kind guest.old.top head.kind head.len) result }
    ensures few { IfOk result (λ n. n ≤ 2 ^ 24) }
    ensures grown { OnOk result (GrewByRecord guest.old guest.new) }
    ensures faults { RisesOnReadFault (S.faults src.old) (S.faults src.new) result }
    ensures noted { AgreesWithJudging (λ _ c. NotesOn F.notes keeper.old keeper.new (S.left src.old) (S.left src.new) (put_frames guest.old.kind (placed_content verified c))) (S.left src.old) (S.left src.new) (body_at guest.old.kind guest.old.top head.kind head.len) result }
    ensures compared { AgreesWithJudging (λ n c. IsCompared F.compares F.notes F.kept keeper.old (S.left src.old) guest.old.frames (λ frames. n ≡ differing guest.old.kind frames (checked_in (placed_content verified c))))
        (S.left src.old) (S.left src.new) (body_at guest.old.kind guest.old.top head.kind head.len) result }
{
    F::goes_on();
    if verified && head.kind == PAGE_DATA {
        return check_pages(alloc, src, keeper, head.len, guest);
    }
    take_body(alloc, src, keeper, head, guest)?;
    Ok(0)
}

/// The number of entries that differ, with those of one more record of this type: VERIFY begins it.
pub(crate) fn counted(differs: Option<u64>, kind: u32, more: u64) -> Option<u64>
    requires { IfSome differs (λ n. n + more < 2 ^ 64) }
    ensures { result ≡ differs_with differs kind more }
{
    match differs {
        Some(count) => Some(count + more),
        None => { if kind == VERIFY { Some(0) } else { None } }
    }
}
