ghost use Rattle.std.specs.Prelude.{◌≡◌, ◌<◌, ◌≤◌, ◌*◌, ℕ, List, [], length, take, is_some, IfOk, IfSome, OnErr, Some};
ghost use Rattle.std.specs.declared.option.Option.{Option};
ghost use Rattle.std.specs.FinMap as maps;
ghost use Rattle.std.specs.Option.{option_map, unwrap_or};
ghost use Rattle.mig_pagetypes.specs.PageTypes.{level_of};
ghost use Rattle.mig_placed.specs.InFile.{page_in_file};
ghost use Rattle.mig_pvtables.specs.Blank.{zero_page};
ghost use Rattle.mig_blanked.specs.Behind.{kept_page, page_behind};

use crate::plain::count_plain;
use mig_bytes::Failed;
use mig_file::PageFile;
use mig_guest::Guest;
use mig_pagestore_index::Index;
use mig_pagetypes::FrameWord;
use mig_placed::{PlacedFrames, Places};
use mig_records_pages::{FrameSequence, pages_with, put_page};

/// The frames of a PV guest in its blank form, one by one: of a P2M frame the page is zeros, of a page table the one in the
/// outline, and of any other frame the one at its place in the file. Of the last, pages that stand one behind another there are
/// read at once.
#[derive(Clone, Copy)]
pub struct PagesByNumber<'a, P: PageFile> {
    outline: &'a Guest,
    marks: &'a Index,
    places: &'a Places,
    file: &'a P,
}

/// How many pages stand at a place that is counted from 1: none at 0.
fn pages_at(place: u64) -> u32
    ensures size { (file : Option (List ℕ)) → length (unwrap_or (page_in_file file place) []) ≡ 4096 * result }
    ensures few { result ≤ 1 }
{
    if place == 0 { 0 } else { 1 }
}

/// Puts zeros to the front of the buffer, where a page stands at a place that is counted from 1; answers how many came.
fn put_zeros(buffer: &mut [u8], place: u64) -> u32
    requires room { 4096 ≤ length buffer.old }
    ensures bytes { (file : Option (List ℕ)) → take (4096 * result) buffer.new ≡ unwrap_or (option_map (λ _. zero_page) (page_in_file file place)) [] }
    ensures room { length buffer.new ≡ length buffer.old }
    ensures few { result ≤ 1 }
{
    if place == 0 {
        return 0;
    }
    put_page(buffer, Some(&[0; 4096]))
}

/// Reads the page that stands at a place, which is counted from 1, to the front of the buffer; answers how many came.
fn put_placed<P: PageFile>(file: &P, buffer: &mut [u8], place: u64) -> Result<u32, Failed>
    requires room { 4096 ≤ length buffer.old }
    ensures bytes { IfOk result (λ n. (all : List ℕ) → P.bytes file.now ≡ Some all → take (4096 * n) buffer.new ≡ unwrap_or (page_in_file (Some all) place) []) }
    ensures few { IfOk result (λ n. n ≤ 1) }
    ensures wanted { OnErr result (0 < place) }
    ensures room { length buffer.new ≡ length buffer.old }
{
    if place == 0 {
        return Ok(0);
    }
    match file.read_at(place - 1, &mut buffer[0..4096]) {
        Ok(()) => Ok(1),
        Err(failed) => Err(failed),
    }
}

impl<P: PageFile> PagesByNumber<'_, P> {
    /// The frames that stand at these places in this file, with the pages of the tables of this outline, and with zeros for the
    /// marked ones.
    pub fn new<'a>(
        outline: &'a Guest,
        marks: &'a Index,
        places: &'a Places,
        file: &'a P,
    ) -> PagesByNumber<'a, P>
        ensures outline { result.outline.now ≡ outline.now }
        ensures marks { result.marks.now.values ≡ marks.now.values }
        ensures places { result.places.now ≡ places.now }
        ensures file { result.file.now ≡ file.now }
    {
        PagesByNumber {
            outline,
            marks,
            places,
            file,
        }
    }

    /// How many pages come with a frame, of which its cell says this: 1 or 0.
    fn pages_with(&self, pfn: u64, cell: FrameWord) -> u32
        ensures size { (file : Option (List ℕ)) → length (unwrap_or (page_behind (is_some (maps.get self.now.marks.now.values pfn)) (level_of cell.kind) (kept_page self.now.outline.now.frames pfn) (page_in_file file cell.pfn)) []) ≡ 4096 * result }
        ensures few { result ≤ 1 }
    {
        if self.marks.get(pfn).is_some() {
            return pages_at(cell.pfn);
        }
        match cell.kind.table_level() {
            Some(_) => pages_with(self.outline.page(pfn)),
            None => pages_at(cell.pfn),
        }
    }

    /// Puts the page of a frame, of which its cell says this, to the front of the buffer; answers how many came.
    fn put_page(&self, buffer: &mut [u8], pfn: u64, cell: FrameWord) -> Result<u32, Failed>
        requires room { 4096 ≤ length buffer.old }
        ensures bytes { IfOk result (λ n. (all : List ℕ) → P.bytes self.now.file.now ≡ Some all → take (4096 * n) buffer.new ≡ unwrap_or (page_behind (is_some (maps.get self.now.marks.now.values pfn)) (level_of cell.kind) (kept_page self.now.outline.now.frames pfn) (page_in_file (Some all) cell.pfn)) []) }
        ensures few { IfOk result (λ n. n ≤ 1) }
        ensures wanted { OnErr result ((file : Option (List ℕ)) → 0 < length (unwrap_or (page_behind (is_some (maps.get self.now.marks.now.values pfn)) (level_of cell.kind) (kept_page self.now.outline.now.frames pfn) (page_in_file file cell.pfn)) [])) }
        ensures room { length buffer.new ≡ length buffer.old }
    {
        if self.marks.get(pfn).is_some() {
            return Ok(put_zeros(buffer, cell.pfn));
        }
        match cell.kind.table_level() {
            Some(_) => Ok(put_page(buffer, self.outline.page(pfn))),
            None => put_placed(self.file, buffer, cell.pfn),
        }
    }
}

/// The frames in the order of their numbers; a place in their sequence is a frame number.
impl<P: PageFile> FrameSequence for PagesByNumber<'_, P> {
    ghost use Rattle.std.specs.Prelude.{true, is_some};
    ghost use Rattle.mig_blanked.specs.Behind.{behind_after};

    ghost frames_from = { λ s place. behind_after s.marks.now.values s.outline.now.frames (P.bytes s.file.now) s.places.now place };

    ghost told = { λ s. is_some (P.bytes s.file.now) };

    ghost fails = { λ s. true };

    #[tactic(auto, using(crate::proofs::Behind::behind_counted))]
    fn frame_count(&self) -> u64 {
        self.places.len()
    }

    fn frame_from(&self, place: u64) -> Option<(FrameWord, u32, u64)> {
        match self.places.next(place) {
            Some((pfn, cell)) => {
                let word = FrameWord {
                    pfn,
                    kind: cell.kind,
                };
                Some((word, self.pages_with(pfn, cell), pfn + 1))
            }
            None => None,
        }
    }

    fn run_from(&self, place: u64, _most: u32) -> (u64, u32, &[u8]) {
        (place, 0, &[])
    }

    fn pages_from(
        &self,
        buffer: &mut [u8],
        place: u64,
        most: u32,
    ) -> Result<(u64, u32, u32), Failed> {
        let plain = count_plain(self.marks, self.places, place, most);
        if plain > 0 {
            let placed = PlacedFrames::new(self.places, self.file);
            return placed.pages_from(buffer, place, plain);
        }
        let Some((pfn, cell)) = self.places.next(place) else {
            return Ok((place, 0, 0));
        };
        match self.put_page(buffer, pfn, cell) {
            Ok(pages) => Ok((pfn + 1, 1, pages)),
            Err(failed) => Err(failed),
        }
    }
}
