ghost use Rattle.std.specs.Prelude.{◌≡◌, ◌<◌, ◌≤◌, ◌*◌, ℕ, List, [], Bool, true, All, IfNone, IfSome, IfOk, OnErr, length, take, drop};
ghost use Rattle.mig_records_pages.specs.Common.{option_copied, pfn_limit, entries_from};
ghost use Rattle.std.specs.FinMap as maps;
ghost use Rattle.mig_records_pages.specs.PageData.{Frame, pages_of};
ghost use Rattle.mig_records_pages.specs.Copied.{IsFirstFrame};
ghost use Rattle.mig_records_pages.specs.Told.{told_of, told_held, telling_frame, telling_frames, HasPfn};

use crate::HeldFrame;
use crate::gathered::{pages_with, put_page};
use mig_bytes::Failed;
use mig_guest::Guest;
use mig_pagetypes::{FrameWord, PageType};

/// Frames one behind another, of which PAGE_DATA records are written. Their pages are lent, or put into a buffer; they may
/// have to be got from elsewhere, and that may fail.
pub trait FrameSequence {
    /// The frames from a place on. Where the bytes of their pages aren't told, the pages are only counted.
    ghost frames_from: { Self → ℕ → List Frame };

    /// Whether the bytes of their pages are told.
    ghost told: { Self → Bool };

    /// Whether a page may not be got.
    ghost fails: { Self → Bool };

    /// How many frames there are from place 0 on.
    fn frame_count(&self) -> u64
        ensures { result ≡ length (frames_from self.now 0) };

    /// The frame at a place: its word, how many pages come with it, which is 1 where its type has data and else 0, and the
    /// place behind it.
    fn frame_from(&self, place: u64) -> Option<(FrameWord, u32, u64)>
        ensures none { IfNone result (frames_from self.now place ≡ []) }
        ensures some { IfSome result (λ e. IsFirstFrame (frames_from self.now place) e.0 e.1 (frames_from self.now e.2)) }
        ensures small { IfSome result (λ e. e.0.pfn < pfn_limit) };

    /// The pages of the frames from a place on, where they lie one behind another in memory, at most so many: the place behind
    /// them, how many frames they are, and their bytes. None need lie so.
    fn run_from(&self, place: u64, most: u32) -> (u64, u32, &[u8])
        ensures bytes { result.2.now ≡ pages_of (take result.1 (frames_from self.now place)) }
        ensures behind { frames_from self.now result.0 ≡ drop result.1 (frames_from self.now place) }
        ensures most { result.1 ≤ most };

    /// Puts the pages of some frames from a place on, at least of one and at most of so many, one behind another to the
    /// front of the buffer. The answer has the place behind the frames, how many frames they are, and how many pages
    /// came with them. It fails only where a page comes with one of so many.
    fn pages_from(
        &self,
        buffer: &mut [u8],
        place: u64,
        most: u32,
    ) -> Result<(u64, u32, u32), Failed>
        requires some { 0 < most }
        requires room { 4096 * most ≤ length buffer.old }
        requires has { most ≤ length (frames_from self.now place) }
        ensures bytes { IfOk result (λ r. told self.now ≡ true → take (4096 * r.2) buffer.new ≡ pages_of (take r.1 (frames_from self.now place))) }
        ensures behind { IfOk result (λ r. frames_from self.now r.0 ≡ drop r.1 (frames_from self.now place)) }
        ensures few { IfOk result (λ r. (0 < r.1) × (r.1 ≤ most) × (r.2 ≤ r.1)) }
        ensures wanted { OnErr result (0 < length (pages_of (take most (frames_from self.now place)))) }
        ensures fails { OnErr result (fails self.now ≡ true) }
        ensures room { length buffer.new ≡ length buffer.old };
}

/// The frames of a guest in the order of their numbers; a place is a frame number.
impl FrameSequence for Guest {
    ghost use Rattle.std.specs.Prelude.{true, false};

    ghost frames_from = { λ guest place. entries_from place (maps.entries guest.frames) };

    ghost told = { λ guest. true };

    ghost fails = { λ guest. false };

    #[tactic(auto, using(crate::proofs::ListSteps::entries_counted))]
    fn frame_count(&self) -> u64 {
        self.frames()
    }

    fn frame_from(&self, place: u64) -> Option<(FrameWord, u32, u64)> {
        let (pfn, kind, page) = self.next_entry(place)?;
        Some((FrameWord { pfn, kind }, pages_with(page), pfn + 1))
    }

    fn run_from(&self, place: u64, most: u32) -> (u64, u32, &[u8]) {
        self.page_run(place, most)
    }

    fn pages_from(
        &self,
        buffer: &mut [u8],
        place: u64,
        _most: u32,
    ) -> Result<(u64, u32, u32), Failed> {
        match self.next_entry(place) {
            Some((pfn, _, page)) => Ok((pfn + 1, 1, put_page(buffer, page))),
            None => Ok((place, 0, 0)),
        }
    }
}

/// Entries that are held, in their order; a place is an index.
#[derive(Clone, Copy)]
pub(crate) struct HeldFrames<'a> {
    pub(crate) entries: &'a [HeldFrame],
    ghost pfns: { All HasPfn entries.now },
}

/// The type that an entry tells.
fn type_told(entry: &HeldFrame) -> PageType
    ensures { result ≡ (telling_frame (told_of entry.now)).1.type }
{
    match entry.kind {
        Some(kind) => kind,
        None => PageType::Xtab,
    }
}

/// The page that comes with an entry, where its type has data.
fn page_told(entry: &HeldFrame) -> Option<&[u8; 4096]>
    ensures { option_copied result ≡ (telling_frame (told_of entry.now)).1.page }
{
    if type_told(entry).has_data() {
        return Some(&entry.page);
    }
    None
}

impl FrameSequence for HeldFrames<'_> {
    ghost use Rattle.std.specs.Prelude.{true, false};

    ghost frames_from = { λ held place. drop place (telling_frames (told_held held.entries.now)) };

    ghost told = { λ held. true };

    ghost fails = { λ held. false };

    #[tactic(auto, using(crate::proofs::Places::frames_len))]
    fn frame_count(&self) -> u64 {
        self.entries.len() as u64
    }

    fn frame_from(&self, place: u64) -> Option<(FrameWord, u32, u64)> {
        let entry = self.entries.get(place as usize)?;
        let word = FrameWord {
            pfn: entry.pfn,
            kind: type_told(entry),
        };
        Some((word, pages_with(page_told(entry)), place + 1))
    }

    fn run_from(&self, place: u64, _most: u32) -> (u64, u32, &[u8]) {
        (place, 0, &[])
    }

    fn pages_from(
        &self,
        buffer: &mut [u8],
        place: u64,
        _most: u32,
    ) -> Result<(u64, u32, u32), Failed> {
        match self.entries.get(place as usize) {
            Some(entry) => Ok((place + 1, 1, put_page(buffer, page_told(entry)))),
            None => Ok((place, 0, 0)),
        }
    }
}
