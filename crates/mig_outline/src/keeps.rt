ghost use Rattle.std.specs.Prelude.{◌≡◌, ℕ, ⊤, false, None};
ghost use Rattle.mig_outline.specs.Common.{RisesOnReadFault, AgreesWithJudging, Kind, level_of, type_has_data, page_at, type_in_word, type_in_guest};
ghost use Rattle.mig_outline.specs.Outline.{outline_frames, outline_type, put_outline_entry, seen_frames};

use mig_bytes::{Source, Stop};
use mig_guest::{FrameStore, Guest};
use mig_headers::Cause;
use mig_pagetypes::PageType;
use mig_pvtables::{TypedFrames, WholeAnswer, frame_type, whole_by};
use mig_restore::{AllFrames, KeepsFrames, skip_body};
use mig_restore_form::{pfn_in, type_in, type_in_guest};
use std::alloc::Global;

/// How many bytes a page has.
const PAGE: u32 = 4096;

/// The type that stands in an outline for one without a table: a type without data.
fn outlined(kind: PageType) -> PageType
    requires { level_of kind ≡ None }
    ensures value { result ≡ outline_type kind }
    ensures bare { type_has_data result ≡ false }
{
    match kind {
        PageType::Notab => PageType::Xalloc,
        PageType::Xtab => PageType::Xtab,
        _ => PageType::Broken,
    }
}

/// Takes the page that goes with a word, where its type has data, and keeps nothing of it. No page but a table's is judged.
fn pass_page<S: Source>(src: &mut S, word: u64) -> Result<(), Stop<Cause>>
    ensures read { (kind : Kind) (top place : ℕ) → level_of (type_in_guest kind (type_in_word word)) ≡ None →
        AgreesWithJudging (λ _ _. ⊤) (S.left src.old) (S.left src.new) (page_at kind top (place, word)) result }
    ensures faults { RisesOnReadFault (S.faults src.old) (S.faults src.new) result }
{
    if type_in(word).has_data() {
        skip_body(src, PAGE)
    } else {
        Ok(())
    }
}

/// The frames of an outline, with the types that they stand for.
#[derive(Drop)]
struct SeenFrames<'a> {
    store: &'a FrameStore,
}

impl TypedFrames for SeenFrames<'_> {
    ghost frames = { λ it. seen_frames it.store.now.frames };

    #[tactic(auto, using(crate::proofs::Faults::type_seen))]
    fn type_of_frame(&self, pfn: u64) -> Option<PageType> {
        match frame_type(self.store, pfn) {
            Some(PageType::Xalloc) => Some(PageType::Notab),
            kind => kind,
        }
    }

    #[tactic(auto, using(crate::proofs::Faults::seen_needed))]
    fn is_needed(&self, index: usize) -> bool {
        self.store.is_needed(index)
    }
}

/// Of a guest its outline is kept: the pages of its tables, and no others. Nothing more is noted of its frames, so that it
/// can't be told of an entry behind a VERIFY whether it differs.
#[derive(Drop)]
pub struct Outlines;

impl<S: Source> KeepsFrames<S> for Outlines {
    ghost kept = { outline_frames };

    ghost put = { put_outline_entry };

    ghost notes = { λ _ _ _ _. ⊤ };

    ghost compares = { false };

    fn goes_on() {}

    fn take_entry(
        &mut self,
        src: &mut S,
        place: u32,
        word: u64,
        guest: &mut Guest,
    ) -> Result<(), Stop<Cause>> {
        let kind = type_in_guest(guest.kind(), type_in(word));
        if kind.table_level().is_some() {
            return AllFrames.take_entry(src, place, word, guest);
        }
        pass_page(src, word)?;
        match guest.set_frame(pfn_in(word), outlined(kind), None) {
            Ok(()) => Ok(()),
            Err(_) => Err(Stop::Memory),
        }
    }

    fn check_entry(
        &self,
        src: &mut S,
        place: u32,
        word: u64,
        guest: &Guest,
    ) -> Result<bool, Stop<Cause>> {
        let meant = type_in_guest(guest.kind(), type_in(word));
        if meant.table_level().is_some() {
            return AllFrames.check_entry(src, place, word, guest);
        }
        pass_page(src, word)?;
        Ok(false)
    }

    fn fault_at_end(alloc: Global, guest: &Guest) -> Result<(), WholeAnswer> {
        let frames = SeenFrames {
            store: guest.frame_store(),
        };
        whole_by(alloc, guest, &frames)
    }
}
