ghost use Rattle.std.specs.Prelude.{◌≡◌, ◌∷◌, [], ◌++◌, ℕ, ⊤, Bool, List, OnOk, OnErr, Some, Err, true, not};
ghost use Rattle.std.specs.declared.option.Option.{Option};
ghost use Rattle.std.specs.FinMap as maps;
ghost use Rattle.mig_guest.specs.Formed.{IsFormed};
ghost use Rattle.mig_pvtables.specs.declared.testing.WholeAnswer.TheVariants.{Fault};
ghost use Rattle.mig_restore.specs.Begun.{AreEntriesSet};
ghost use Rattle.mig_restore.specs.Common.{RisesOnReadFault, AgreesWithJudging, FrameEntry, FrameMap, GrewByRecord, GuestOf, Kind, agrees, entry_at, put_entry, fault_of_guest, IsGoodWord};
ghost use Rattle.mig_restore.specs.Compared.{IsCompared};
ghost use Rattle.mig_restore.specs.Kept.{IsOfFaultless, NotesOn, kept_guest};

use crate::compare::has_frame;
use crate::page::{EntryPage, take_page};
use mig_bytes::{Source, Stop};
use mig_guest::Guest;
use mig_headers::Cause;
use mig_pvtables::{WholeAnswer, whole};
use mig_restore_form::{pfn_in, type_in, type_in_guest};
use std::alloc::Global;

/// What is kept of the frames that records set, and what is wrong in the end with the guest that has them. A value of the
/// type can note more of the frames, as they come from the source.
pub trait KeepsFrames<S: Source> {
    /// What is kept of frames.
    ghost kept: { FrameMap → FrameMap };

    /// What an entry makes of frames that are kept.
    ghost put: { Kind → FrameMap → FrameEntry → FrameMap };

    /// Whether a value has noted these frames of an input with these bytes, where so much of it is left.
    ghost notes: { Self → List ℕ → Option (List ℕ) → FrameMap → Type 0 };

    /// Whether it is told of entries behind a VERIFY that they differ from the frames.
    ghost compares: { Bool };

    /// Does nothing. What is kept goes on as the frames do: an entry makes of it what is kept of what it makes of the frames,
    /// and there are as many of them. What is noted stays noted as the source is read on.
    fn goes_on()
        ensures entry { (kind : Kind) (frames : FrameMap) (e : FrameEntry) → put kind (kept frames) e ≡ kept (put_entry kind frames e) }
        ensures none { kept maps.empty ≡ maps.empty }
        ensures count { (frames : FrameMap) → maps.len (kept frames) ≡ maps.len frames }
        ensures read_on { (keeper : Self) (all front rest : List ℕ) (frames : FrameMap) → notes keeper all (Some (front ++ rest)) frames → notes keeper all (Some rest) frames };

    /// Takes the page that goes with the word at this place of its record, where its type has data. Puts the entry into
    /// the frames that are kept, and into those that are noted. A table of a PV guest is judged before.
    fn take_entry(
        &mut self,
        src: &mut S,
        place: u32,
        word: u64,
        guest: &mut Guest,
    ) -> Result<(), Stop<Cause>>
        requires { IsGoodWord guest.old.kind guest.old.top word }
        ensures read { AgreesWithJudging (λ _ e. guest.new ≡ record guest.old { frames = put guest.old.kind guest.old.frames e })
            (S.left src.old) (S.left src.new) (entry_at guest.old.kind guest.old.top (place, word)) result }
        ensures grown { OnOk result (GrewByRecord guest.old guest.new) }
        ensures top { OnOk result (guest.new.top ≡ guest.old.top) }
        ensures faults { RisesOnReadFault (S.faults src.old) (S.faults src.new) result }
        ensures set { OnOk result (AreEntriesSet put guest.old guest.new (word ∷ [])) }
        ensures err { OnErr result (guest.new ≡ guest.old) }
        ensures noted { AgreesWithJudging (λ _ e. NotesOn notes self.old self.new (S.left src.old) (S.left src.new) (λ frames. put_entry guest.old.kind frames e))
            (S.left src.old) (S.left src.new) (entry_at guest.old.kind guest.old.top (place, word)) result };

    /// Takes the page that goes with the word at this place of its record, where its type has data, and keeps nothing of the
    /// entry: its record is behind a VERIFY. A table of a PV guest is judged. Says whether the entry differs from the
    /// frames that are noted, where values of the type compare.
    fn check_entry(
        &self,
        src: &mut S,
        place: u32,
        word: u64,
        guest: &Guest,
    ) -> Result<bool, Stop<Cause>>
        ensures read { AgreesWithJudging (λ differs e. IsCompared compares notes kept self.now (S.left src.old) guest.now.frames (λ frames. differs ≡ not (agrees guest.now.kind frames e)))
            (S.left src.old) (S.left src.new) (entry_at guest.now.kind guest.now.top (place, word)) result }
        ensures faults { RisesOnReadFault (S.faults src.old) (S.faults src.new) result };

    /// What is wrong at END with the guest of which this is kept.
    fn fault_at_end(alloc: Global, guest: &Guest) -> Result<(), WholeAnswer>
        requires { IsFormed guest.now }
        ensures ok { OnOk result (IsOfFaultless kept guest.now) }
        ensures fault { (g : GuestOf) (c : Cause) → guest.now ≡ kept_guest kept g → result ≡ Err (Fault c) → fault_of_guest g ≡ Some c };
}

/// All frames are kept as they are set, with their pages. Nothing more is noted of them.
#[derive(Drop)]
pub struct AllFrames;

impl<S: Source> KeepsFrames<S> for AllFrames {
    ghost kept = { λ frames. frames };

    ghost put = { put_entry };

    ghost notes = { λ _ _ _ _. ⊤ };

    ghost compares = { true };

    fn goes_on() {}

    fn take_entry(
        &mut self,
        src: &mut S,
        place: u32,
        word: u64,
        guest: &mut Guest,
    ) -> Result<(), Stop<Cause>> {
        let in_stream = type_in(word);
        let kind = type_in_guest(guest.kind(), in_stream);
        if !in_stream.has_data() {
            return match guest.set_frame(pfn_in(word), kind, None) {
                Ok(()) => Ok(()),
                Err(_) => Err(Stop::Memory),
            };
        }
        let page = EntryPage {
            kind,
            place,
            top: guest.top(),
        };
        guest.set_filled(pfn_in(word), kind, src, &page)
    }

    fn check_entry(
        &self,
        src: &mut S,
        place: u32,
        word: u64,
        guest: &Guest,
    ) -> Result<bool, Stop<Cause>> {
        let kind = type_in_guest(guest.kind(), type_in(word));
        let mut page = [0; 4096];
        let some = take_page(src, place, word, guest, &mut page)?;
        if some {
            Ok(!has_frame(guest, pfn_in(word), kind, Some(&page)))
        } else {
            Ok(!has_frame(guest, pfn_in(word), kind, None))
        }
    }

    fn fault_at_end(alloc: Global, guest: &Guest) -> Result<(), WholeAnswer> {
        whole(alloc, guest)
    }
}
