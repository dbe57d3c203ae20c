ghost use Rattle.std.specs.Prelude.{◌≡◌, ◌<◌, ◌≤◌, ◌*◌, ℕ, List, [], length, take, IfOk, OnErr, Some};
ghost use Rattle.std.specs.declared.option.Option.{Option};
ghost use Rattle.std.specs.Option.{unwrap_or};
ghost use Rattle.mig_blanked.specs.Behind.{kept_page};
ghost use Rattle.mig_placed.specs.InFile.{page_in_file};
ghost use Rattle.mig_localised.specs.Over.{page_over};

use mig_bytes::Failed;
use mig_file::PageFile;
use mig_guest::Guest;
use mig_pagetypes::FrameWord;
use mig_placed::Places;
use mig_records_pages::{FrameSequence, pages_with, put_page};

/// The frames of a PV guest as it stands in a machine, one by one: of a frame that has a page in the outline it is this page,
/// and of any other the one at its place in the file.
#[derive(Clone, Copy)]
pub struct LocalisedFrames<'a, P: PageFile> {
    outline: &'a Guest,
    places: &'a Places,
    file: &'a P,
}

/// Reads the page that stands at a place, which is counted from 1, to the front of the buffer.
fn put_placed<P: PageFile>(file: &P, buffer: &mut [u8], place: u64) -> Result<u32, Failed>
    requires room { 4096 ≤ length buffer.old }
    requires some { 0 < place }
    ensures bytes { IfOk result (λ n. (all : List ℕ) → P.bytes file.now ≡ Some all → take (4096 * n) buffer.new ≡ unwrap_or (page_in_file (Some all) place) []) }
    ensures one { IfOk result (λ n. n ≡ 1) }
    ensures wanted { OnErr result (0 < place) }
    ensures room { length buffer.new ≡ length buffer.old }
{
    match file.read_at(place - 1, &mut buffer[0..4096]) {
        Ok(()) => Ok(1),
        Err(failed) => Err(failed),
    }
}

impl<P: PageFile> LocalisedFrames<'_, P> {
    /// The frames that stand at these places in this file, with the pages of this outline in place of theirs.
    pub fn new<'a>(outline: &'a Guest, places: &'a Places, file: &'a P) -> LocalisedFrames<'a, P>
        ensures outline { result.outline.now ≡ outline.now }
        ensures places { result.places.now ≡ places.now }
        ensures file { result.file.now ≡ file.now }
    {
        LocalisedFrames {
            outline,
            places,
            file,
        }
    }

    /// How many pages come with a frame, of which its cell says this: 1 or 0.
    fn pages_with(&self, pfn: u64, cell: FrameWord) -> u32
        ensures size { (file : Option (List ℕ)) → length (unwrap_or (page_over (kept_page self.now.outline.now.frames pfn) (page_in_file file cell.pfn)) []) ≡ 4096 * result }
        ensures few { result ≤ 1 }
    {
        if cell.pfn == 0 {
            return 0;
        }
        match self.outline.page(pfn) {
            Some(page) => pages_with(Some(page)),
            None => 1,
        }
    }

    /// Puts the page of a frame, of which its cell says this, to the front of the buffer; answers how many came.
    fn put_page(&self, buffer: &mut [u8], pfn: u64, cell: FrameWord) -> Result<u32, Failed>
        requires room { 4096 ≤ length buffer.old }
        ensures bytes { IfOk result (λ n. (all : List ℕ) → P.bytes self.now.file.now ≡ Some all → take (4096 * n) buffer.new ≡ unwrap_or (page_over (kept_page self.now.outline.now.frames pfn) (page_in_file (Some all) cell.pfn)) []) }
        ensures few { IfOk result (λ n. n ≤ 1) }
        ensures wanted { OnErr result ((file : Option (List ℕ)) → 0 < length (unwrap_or (page_over (kept_page self.now.outline.now.frames pfn) (page_in_file file cell.pfn)) [])) }
        ensures room { length buffer.new ≡ length buffer.old }
    {
        if cell.pfn == 0 {
            return Ok(0);
        }
        match self.outline.page(pfn) {
            Some(page) => Ok(put_page(buffer, Some(page))),
            None => put_placed(self.file, buffer, cell.pfn),
        }
    }
}

/// The frames in the order of their numbers; a place in their sequence is a frame number.
impl<P: PageFile> FrameSequence for LocalisedFrames<'_, P> {
    ghost use Rattle.std.specs.Prelude.{true, is_some};
    ghost use Rattle.mig_localised.specs.Over.{over_after};

    ghost frames_from = { λ s place. over_after s.outline.now.frames (P.bytes s.file.now) s.places.now place };

    ghost told = { λ s. is_some (P.bytes s.file.now) };

    ghost fails = { λ s. true };

    #[tactic(auto, using(crate::proofs::Over::over_counted))]
    fn frame_count(&self) -> u64 {
        self.places.len()
    }

    fn frame_from(&self, place: u64) -> Option<(FrameWord, u32, u64)> {
        match self.places.next(place) {
            Some((pfn, cell)) => {
                let word = FrameWord {
                    pfn,
                    kind: cell.kind,
                };
                Some((word, self.pages_with(pfn, cell), pfn + 1))
            }
            None => None,
        }
    }

    fn run_from(&self, place: u64, _most: u32) -> (u64, u32, &[u8]) {
        (place, 0, &[])
    }

    fn pages_from(
        &self,
        buffer: &mut [u8],
        place: u64,
        _most: u32,
    ) -> Result<(u64, u32, u32), Failed> {
        let Some((pfn, cell)) = self.places.next(place) else {
            return Ok((place, 0, 0));
        };
        match self.put_page(buffer, pfn, cell) {
            Ok(pages) => Ok((pfn + 1, 1, pages)),
            Err(failed) => Err(failed),
        }
    }
}
