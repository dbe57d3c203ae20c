ghost use Rattle.std.specs.Prelude.{◌≡◌, ℕ, List, Some, false};
ghost use Rattle.std.specs.FinMap as maps;
ghost use Rattle.mig_file.specs.Files.{left_at};
ghost use Rattle.mig_outline.specs.Outline.{outline_frames, put_outline_entry};
ghost use Rattle.mig_placing.specs.Places.{ArePlaced};

use crate::guest::PlacedGuest;
use mig_bytes::Stop;
use mig_file::{FileSource, PageFile};
use mig_guest::Guest;
use mig_headers::Cause;
use mig_outline::Outlines;
use mig_placed::Places;
use mig_pvtables::WholeAnswer;
use mig_restore::KeepsFrames;
use mig_restore_form::{pfn_in, type_in, type_in_guest};
use std::alloc::Global;

/// Places in a file are below this.
const PLACE_LIMIT: u64 = (1 << 52) - 1;

/// Of a guest its outline is kept, and of each frame the place of its page in this file is noted. Entries behind a
/// VERIFY are passed over.
#[derive(Drop)]
pub struct Placing<'a, P: PageFile> {
    pub(crate) file: &'a P,
    pub(crate) places: Places,
}

impl<'a, P: PageFile> Placing<'a, P> {
    /// No frames are noted.
    #[tactic(auto, using(crate::proofs::Places::none_noted))]
    pub fn new(alloc: Global, file: &'a P) -> Placing<'a, P>
        ensures begun { (all : List ℕ) (at : ℕ) → P.bytes file.now ≡ Some all → ArePlaced (P.bytes result.file.now) result.places all (left_at (P.bytes file.now) at) maps.empty }
    {
        Placing {
            file,
            places: Places::new(alloc),
        }
    }

    /// The file.
    pub fn file(&self) -> &'a P
        ensures { result.now ≡ self.now.file.now }
    {
        self.file
    }

    /// The guest of this outline, with the places that were noted.
    pub fn into_guest(self, outline: Guest) -> PlacedGuest<'a, P>
        ensures outline { result.outline ≡ outline }
        ensures places { result.places ≡ self.entry.places }
        ensures file { result.file.now ≡ self.entry.file.now }
    {
        PlacedGuest {
            outline,
            places: self.places,
            file: self.file,
        }
    }
}

impl<'a, P: PageFile> KeepsFrames<FileSource<'a, P>> for Placing<'a, P> {
    ghost kept = { outline_frames };

    ghost put = { put_outline_entry };

    ghost notes = { λ keeper all left frames. ArePlaced (P.bytes keeper.file.now) keeper.places all left frames };

    ghost compares = { false };

    fn goes_on() {
        <Outlines as KeepsFrames<FileSource<'a, P>>>::goes_on()
    }

    fn take_entry(
        &mut self,
        src: &mut FileSource<'a, P>,
        place: u32,
        word: u64,
        guest: &mut Guest,
    ) -> Result<(), Stop<Cause>> {
        let at = self.file.size().saturating_sub(src.rest());
        if at >= PLACE_LIMIT {
            return Err(Stop::Memory);
        }
        let kind = type_in_guest(guest.kind(), type_in(word));
        match self.places.set(pfn_in(word), kind, at) {
            Ok(()) => Outlines.take_entry(src, place, word, guest),
            Err(_) => Err(Stop::Memory),
        }
    }

    fn check_entry(
        &self,
        src: &mut FileSource<'a, P>,
        place: u32,
        word: u64,
        guest: &Guest,
    ) -> Result<bool, Stop<Cause>> {
        Outlines.check_entry(src, place, word, guest)
    }

    fn fault_at_end(alloc: Global, guest: &Guest) -> Result<(), WholeAnswer> {
        <Outlines as KeepsFrames<FileSource<'a, P>>>::fault_at_end(alloc, guest)
    }
}
