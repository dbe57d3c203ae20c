ghost use Rattle.std.specs.Prelude.{◌≡◌, ◌≤◌, ◌<◌, ◌*◌, ◌^◌};
ghost use Rattle.mig_pvtables.specs.Common.{little_bytes, with_field, long_at};
ghost use Rattle.mig_guest.specs.Tables.{entry as what_is_said, named_frame};
ghost use Rattle.mig_pvtables.specs.Tables.{fault_of_page_table, is_superpage, names_above, with_frame};

use crate::searching::{EntryTest, first_slot};
use mig_bytes::{put_u64_le, u64_le};
use mig_guest::Entry;
use mig_headers::Cause;
use mig_pagetypes::MACHINE_LIMIT;

/// How many entries a table has.
pub(crate) const SLOTS: usize = 512;

/// What the entry in this slot says, as one of a table of this level.
#[tactic(auto, unfolding(mig_guest::specs::Tables::entry_of))]
pub fn entry(page: &[u8; 4096], level: u8, slot: usize) -> Entry
    requires least { 1 ≤ level }
    requires most { level ≤ 4 }
    requires slot { slot < 512 }
    ensures { result ≡ what_is_said level page.now slot }
{
    let e = u64_le(page, 8 * slot);
    if level == 4 && (256 <= slot && slot <= 271) {
        Entry::Blank
    } else if e % 2 != 1 {
        Entry::NotPresent
    } else if level >= 2 && e / 128 % 2 == 1 {
        Entry::Superpage
    } else {
        Entry::Frame(e / 4096 % MACHINE_LIMIT)
    }
}

/// Puts a frame into the entry in this slot. All its other bits, and all other entries, stay.
pub fn put_entry(page: &mut [u8; 4096], slot: usize, frame: u64)
    requires slot { slot < 512 }
    requires frame { frame < 2 ^ 40 }
    ensures { page.new ≡ with_field page.old (8 * slot) (little_bytes 8 (with_frame (long_at page.old slot) frame)) }
{
    let e = u64_le(page, 8 * slot);
    put_u64_le(page, 8 * slot, (e >> 52 << 52) + (frame * 4096 + e % 4096));
}

/// That an entry is a superpage.
#[derive(Drop)]
pub struct IsSuperpage;

impl EntryTest for IsSuperpage {
    ghost passing = { λ _. is_superpage };

    fn passes(&self, said: Entry) -> bool {
        matches!(said, Entry::Superpage)
    }
}

/// That an entry names a frame above `top`.
#[derive(Drop)]
struct NamesAbove {
    top: u64,
}

impl EntryTest for NamesAbove {
    ghost passing = { λ test. names_above test.top };

    fn passes(&self, said: Entry) -> bool {
        matches!(said, Entry::Frame(pfn) if self.top < pfn)
    }
}

/// The bits of a slot that name a frame.
fn frame_at(page: &[u8; 4096], slot: usize) -> u64
    requires { slot < 512 }
    ensures { result ≡ named_frame (long_at page.now slot) }
{
    u64_le(page, 8 * slot) / 4096 % MACHINE_LIMIT
}

/// What is wrong with a table of this level in a stream: its first superpage before all else, then the first entry that
/// names a frame above `top`. `entry` is the table's place in its record.
pub fn check_table(page: &[u8; 4096], level: u8, entry: u32, top: u64) -> Option<Cause>
    requires least { 1 ≤ level }
    requires most { level ≤ 4 }
    ensures { result ≡ fault_of_page_table entry top level page.now }
{
    let place = u64::from(entry);
    if let Some(slot) = first_slot(page, level, &IsSuperpage) {
        return Some(Cause::Superpage(place, slot as u64));
    }
    let slot = first_slot(page, level, &NamesAbove { top })?;
    Some(Cause::EntryOutside(place, slot as u64, frame_at(page, slot)))
}
