ghost use Rattle.std.specs.Prelude.{◌≡◌, ◌≤◌, ◌<◌, ◌*◌, ◌^◌, ℕ, Option, Some, None, IfSome};
ghost use Rattle.std.specs.Result.{OnOk, OnErr, IfErr};
ghost use Rattle.mig_pvtables.specs.Common.{Frame};
ghost use Rattle.mig_guest.specs.Tables.{entry as what_is_said};
ghost use Rattle.mig_pvtables.specs.Renaming.{renamed_table, normalised_table};
ghost use Rattle.mig_pvtables.specs.BadEntries.{bad_entry, is_unknown};

use crate::blanking::blank_table;
use crate::frames::{FrameNames, Frames, ToMachine, ToStream};
use crate::searching::{EntryTest, first_slot};
use crate::table::{IsSuperpage, SLOTS, entry, put_entry};
use mig_guest::Entry;
use thiserror::Error;

/// Puts the other name of each frame that an entry names in its place. An entry whose frame has none stays.
pub fn rename_table<N: FrameNames>(page: &mut [u8; 4096], level: u8, names: &N)
    requires least { 1 ≤ level }
    requires most { level ≤ 4 }
    requires small { (slot n name : ℕ) → slot < 512 → what_is_said level page.old slot ≡ Frame n → N.names names.now n ≡ Some name → name < 2 ^ 40 }
    ensures { page.new ≡ renamed_table (N.names names.now) level page.old }
{
    for slot in 0..SLOTS {
        if let Entry::Frame(frame) = entry(page, level, slot) {
            if let Some(name) = names.name_of(frame) {
                put_entry(page, slot, name);
            }
        }
    }
}

/// Puts the machine frame of each frame number that an entry names in its place. An entry whose frame number has none
/// stays.
pub fn localise_table<F: Frames>(page: &mut [u8; 4096], level: u8, frames: &F)
    requires least { 1 ≤ level }
    requires most { level ≤ 4 }
    ensures { page.new ≡ renamed_table (F.mfns frames.now) level page.old }
{
    frames.one_to_one();
    rename_table(page, level, &ToMachine { frames });
}

/// Why an entry has no form in a stream.
#[derive(Clone, Copy, Debug, PartialEq, Eq)]
pub enum Why {
    Superpage,
    /// The machine frame that it names has no frame number.
    NoFrame,
}

/// The first entry of a table that has no form in a stream.
#[derive(Clone, Copy, Debug, PartialEq, Eq, Error)]
#[error("an entry has no form in a stream")]
pub struct BadEntry {
    pub slot: u16,
    pub why: Why,
}

/// That an entry names a machine frame that has no frame number.
#[derive(Drop)]
pub struct NamesUnknown<'a, F> {
    pub frames: &'a F,
}

impl<F: Frames> EntryTest for NamesUnknown<'_, F> {
    ghost passing = { λ test. is_unknown (F.pfns test.frames.now) };

    fn passes(&self, said: Entry) -> bool {
        matches!(said, Entry::Frame(mfn) if self.frames.pfn_of(mfn).is_none())
    }
}

/// Brings a machine's table to its form in a stream: blank slots are 0, and entries name frame numbers. `Err` is the
/// first superpage, or where there is none the first entry whose machine frame has no frame number; the page is as it
/// was then.
#[tactic(auto, using(crate::proofs::BlankSays::same_entry))]
pub fn normalise_table<F: Frames>(
    page: &mut [u8; 4096],
    level: u8,
    frames: &F,
) -> Result<(), BadEntry>
    requires least { 1 ≤ level }
    requires most { level ≤ 4 }
    requires small { (slot n pfn : ℕ) → slot < 512 → what_is_said level page.old slot ≡ Frame n → F.pfns frames.now n ≡ Some pfn → pfn < 2 ^ 40 }
    ensures ok { OnOk result (page.new ≡ normalised_table (F.pfns frames.now) level page.old) }
    ensures none { OnOk result (bad_entry (F.pfns frames.now) level page.old ≡ None) }
    ensures first { IfErr result (λ bad. bad_entry (F.pfns frames.now) level page.old ≡ Some bad) }
    ensures err { OnErr result (page.new ≡ page.old) }
{
    if let Some(slot) = first_slot(page, level, &IsSuperpage) {
        return Err(BadEntry {
            slot: slot as u16,
            why: Why::Superpage,
        });
    }
    if let Some(slot) = first_slot(page, level, &NamesUnknown { frames }) {
        return Err(BadEntry {
            slot: slot as u16,
            why: Why::NoFrame,
        });
    }
    blank_table(page, level);
    rename_table(page, level, &ToStream { frames });
    Ok(())
}
