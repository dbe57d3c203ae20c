ghost use Rattle.std.specs.Prelude.{◌≡◌, ◌≤◌, ◌<◌, ℕ, Bool, IfSome, find};
ghost use Rattle.mig_pvtables.specs.Common.{Entry as Said, NextEntry, level_of, option_copied, option_map, pfn_limit};
ghost use Rattle.std.specs.FinMap as maps;
ghost use Rattle.mig_guest.specs.Tables.{entry as what_is_said};
ghost use Rattle.mig_pvtables.specs.Faults.{find_entry, find_slot, slots};

use crate::table::{SLOTS, entry};
use mig_guest::{Entry, FrameStore};
use mig_pagetypes::PageType;

/// A test of what an entry says.
pub trait EntryTest {
    /// Whether an entry passes.
    ghost passing: { Self → Said → Bool };

    /// Whether this entry passes.
    fn passes(&self, said: Entry) -> bool
        ensures { result ≡ passing self.now said };
}

/// The first slot of a table whose entry passes.
#[tactic(auto, using(crate::proofs::Slots::no_slot))]
pub fn first_slot<T: EntryTest>(page: &[u8; 4096], level: u8, test: &T) -> Option<usize>
    requires least { 1 ≤ level }
    requires most { level ≤ 4 }
    ensures value { result ≡ find (λ slot. T.passing test.now (what_is_said level page.now slot)) slots }
    ensures small { IfSome result (λ slot. slot < 512) }
{
    for slot in 0..SLOTS {
        if test.passes(entry(page, level, slot)) {
            return Some(slot);
        }
    }
    None
}

/// The same of a frame, which may be no table.
fn slot_in<T: EntryTest>(kind: PageType, page: Option<&[u8; 4096]>, test: &T) -> Option<usize>
    ensures value { result ≡ find_slot (T.passing test.now) (level_of kind) (option_copied page.entry) }
    ensures small { IfSome result (λ slot. slot < 512) }
{
    let level = kind.table_level()?;
    first_slot(page?, level, test)
}

/// The first frame from this number on, with its type and its page.
fn next_entry(frames: &FrameStore, from: u64) -> Option<(u64, PageType, Option<&[u8; 4096]>)>
    ensures next { NextEntry from (maps.entries frames.now.frames) (option_map (λ e. (e.0, record { type = e.1; page = option_copied e.2 })) result) }
    ensures small { IfSome result (λ e. e.0 < pfn_limit) }
{
    frames.next(from)
}

/// The first entry of all tables that passes: the table's PFN, and the slot.
pub fn first_entry<T: EntryTest>(frames: &FrameStore, test: &T) -> Option<(u64, usize)>
    ensures value { result ≡ find_entry (T.passing test.now) frames.now.frames }
    ensures small { IfSome result (λ at. at.1 < 512) }
{
    let mut from = 0;
    while let Some((pfn, kind, page)) = next_entry(frames, from) {
        if let Some(slot) = slot_in(kind, page, test) {
            return Some((pfn, slot));
        }
        from = pfn + 1;
    }
    None
}
