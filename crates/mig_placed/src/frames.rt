ghost use Rattle.std.specs.Prelude.{◌≡◌, ◌<◌, ◌≤◌};

use crate::places::Places;
use crate::runs::{find_run, read_run};
use mig_bytes::Failed;
use mig_file::PageFile;
use mig_pagetypes::FrameWord;
use mig_records_pages::FrameSequence;

/// Frames whose pages stay in a file. Pages that are one behind another there are read at once.
#[derive(Clone, Copy)]
pub struct PlacedFrames<'a, P: PageFile> {
    places: &'a Places,
    file: &'a P,
}

impl<P: PageFile> PlacedFrames<'_, P> {
    /// The frames with these places in this file.
    pub fn new<'a>(places: &'a Places, file: &'a P) -> PlacedFrames<'a, P>
        ensures places { result.places.now ≡ places.now }
        ensures file { result.file.now ≡ file.now }
    {
        PlacedFrames { places, file }
    }
}

/// How many pages are at a place that is counted from 1: none at 0.
fn pages_at(place: u64) -> u32
    ensures none { place ≡ 0 → result ≡ 0 }
    ensures one { 0 < place → result ≡ 1 }
    ensures few { result ≤ 1 }
{
    if place == 0 { 0 } else { 1 }
}

/// The frames in the order of their numbers; a place in their sequence is a frame number.
impl<P: PageFile> FrameSequence for PlacedFrames<'_, P> {
    ghost use Rattle.std.specs.Prelude.{true, is_some};
    ghost use Rattle.mig_placed.specs.Runs.{frames_after};

    ghost frames_from = { λ s place. frames_after (P.bytes s.file.now) s.places.now place };

    ghost told = { λ s. is_some (P.bytes s.file.now) };

    ghost fails = { λ s. true };

    #[tactic(auto, using(crate::proofs::Seen::placed_counted))]
    fn frame_count(&self) -> u64 {
        self.places.len()
    }

    fn frame_from(&self, place: u64) -> Option<(FrameWord, u32, u64)> {
        match self.places.next(place) {
            Some((pfn, cell)) => {
                let word = FrameWord {
                    pfn,
                    kind: cell.kind,
                };
                Some((word, pages_at(cell.pfn), pfn + 1))
            }
            None => None,
        }
    }

    fn run_from(&self, place: u64, _most: u32) -> (u64, u32, &[u8]) {
        (place, 0, &[])
    }

    fn pages_from(
        &self,
        buffer: &mut [u8],
        place: u64,
        most: u32,
    ) -> Result<(u64, u32, u32), Failed> {
        let run = find_run(self.places, place, most);
        if run.pages == 0 {
            return Ok((run.behind, run.frames, 0));
        }
        match read_run(self.file, buffer, run) {
            Ok(()) => Ok((run.behind, run.frames, run.pages)),
            Err(failed) => Err(failed),
        }
    }
}
