ghost use Rattle.std.specs.Prelude.{◌≡◌};
ghost use Rattle.mig_walk.specs.Outlined.{type_of_cell};

use crate::levels::{Levels, entry_in, key_of, root_in};
use mig_guest::{Entry, Guest};
use mig_pagetypes::PageType;
use mig_placed::Places;

/// A guest by its outline, which has its parts and its page tables, and by the places of its pages in a file, which have the
/// types of its frames.
#[derive(Clone, Copy)]
pub(crate) struct OutlinedLevels<'a> {
    pub(crate) outline: &'a Guest,
    pub(crate) places: &'a Places,
}

/// The type of the frame of this number.
fn type_at(places: &Places, pfn: u64) -> Option<PageType>
    ensures { result ≡ type_of_cell places.now pfn }
{
    match places.next(pfn) {
        Some((first, cell)) => { if first == pfn { Some(cell.kind) } else { None } }
        None => None,
    }
}

impl Levels for OutlinedLevels<'_> {
    ghost use Rattle.mig_walk.specs.Outlined.{in_outline};

    ghost standing = { λ s. in_outline s.outline.now s.places.now };

    fn root(&self, vcpu: u32) -> Option<u64> {
        root_in(self.outline.part(key_of(vcpu)), vcpu)
    }

    fn named(&self, number: u64) -> Option<u64> {
        type_at(self.places, number)?;
        Some(number)
    }

    fn kind_of(&self, pfn: u64) -> Option<PageType> {
        type_at(self.places, pfn)
    }

    fn entry_of(&self, pfn: u64, level: u8, slot: usize) -> Option<Entry> {
        entry_in(
            type_at(self.places, pfn),
            self.outline.page(pfn),
            level,
            slot,
        )
    }
}
