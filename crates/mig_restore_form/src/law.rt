ghost use Rattle.std.specs.Prelude.{◌≡◌, ◌≢◌, ◌≤◌, ◌⊎◌, ◌↔◌, [], ◌∷◌, ◌++◌, ℕ, List, option_and_then, unwrap_or, true, Some, None};
ghost use Rattle.mig_restore_form.specs.Common.{All, Contains, AreBytes, Cause, Place, Kind, HasNoEmulators, FrameMap, p2m_key, blank, IsOfBytes, GuestOf, listed, PartKey, IsRecord, PageData, Passes, Verify, type_number};
ghost use Rattle.std.specs.FinMap as maps;
ghost use Rattle.mig_pvtables.specs.Whole.{IsWhole};
ghost use Rattle.mig_restore_form.specs.Judging.{Opening};
ghost use Rattle.mig_restore_form.specs.Record.{FrameEntry, StreamRecord};
ghost use Rattle.mig_restore_form.specs.Mean.{sent, last_entry, frame_in, entries_in, entries_of, last_said, last_listed, ends_of, checked_in, checked_of, agrees, differing, differs_of};
ghost use Rattle.mig_restore_form.specs.Spelled.{IsBatch, Follows, IsImage, Accepted};
ghost use Rattle.mig_restore_form.specs.Stream.{image_at, image_of, IsRefused};

/// What judging accepts is spelled as the format says.
#[tactic(auto, using(crate::proofs::Laws::accepted_is_image))]
pub fn accepted_is_image()
    ensures { (input : List ℕ) (o : Opening) (records : List StreamRecord) (rest : List ℕ) →
        image_at input ≡ Passes (image_of o records) rest → IsImage input o records rest }
{}

/// What is spelled as the format says is accepted.
pub fn image_is_accepted()
    ensures { (input : List ℕ) (o : Opening) (records : List StreamRecord) (rest : List ℕ) →
        IsImage input o records rest → image_at input ≡ Passes (image_of o records) rest }
{}

/// For every input either a front is an accepted stream, or it is refused at a place for a cause.
pub fn accepted_or_refused()
    ensures { (input : List ℕ) → ((guest : GuestOf) × (rest : List ℕ) × Accepted input guest rest)
        ⊎ ((place : Place) × (cause : Cause) × (rest : List ℕ) × IsRefused input place cause rest) }
{}

/// An input with an accepted front has no refusal.
pub fn never_both()
    ensures { (input : List ℕ) (guest : GuestOf) (rest : List ℕ) (place : Place) (cause : Cause) (more : List ℕ) →
        Accepted input guest rest → IsRefused input place cause more → ⊥ }
{}

/// At most one front of an input is an accepted stream, with one guest.
pub fn one_front()
    ensures { (input : List ℕ) (g h : GuestOf) (rest more : List ℕ) → Accepted input g rest → Accepted input h more
        → (g ≡ h) × (rest ≡ more) }
{}

/// An accepted guest of an input of bytes is whole, in its blank form and of bytes, and has no emulator parts.
pub fn accepted_is_whole()
    ensures { (input : List ℕ) (guest : GuestOf) (rest : List ℕ) → AreBytes input → Accepted input guest rest
        → IsWhole guest × (blank guest ≡ guest) × IsOfBytes guest × HasNoEmulators guest.parts }
{}

/// Of each frame number the last entry in stream order decides what was sent: it says the frame's type and page, or that
/// there is no frame.
#[tactic(auto, using(crate::proofs::Meaning::last_entry_is))]
pub fn last_entry_decides()
    ensures { (kind : Kind) (records : List StreamRecord) (pfn : ℕ) →
        maps.get (sent kind records).frames pfn ≡ option_and_then (frame_in kind) (last_entry pfn (entries_of records)) }
{}

/// Of each part but the list of P2M frames the last content that says something of it decides what was sent. A policy
/// body that isn't empty says of each part of its code whether it is there.
#[tactic(auto, using(crate::proofs::Meaning::last_content_is))]
pub fn last_content_decides()
    ensures { (kind : Kind) (records : List StreamRecord) (key : PartKey) → key ≢ p2m_key →
        maps.get (sent kind records).parts key ≡ unwrap_or (last_said key records) None }
{}

/// Of each index of the list of P2M frames the last record that lists it decides what was sent.
pub fn last_listing_decides()
    ensures { (input : List ℕ) (o : Opening) (records : List StreamRecord) (rest : List ℕ) (k : ℕ) → IsImage input o records rest →
        listed (sent o.kind records).parts k ≡ last_listed k records }
{}

/// The greatest frame number that was sent is 0, or one that ends a list of P2M frames; and no list ends above it.
#[tactic(auto, using(crate::proofs::Meaning::greatest_end_is))]
pub fn greatest_end_decides()
    ensures { (kind : Kind) (records : List StreamRecord) →
        All (λ last. last ≤ (sent kind records).top) (ends_of records)
        × (((sent kind records).top ≡ 0) ⊎ Contains (ends_of records) (sent kind records).top) }
{}

/// An entry agrees with frames exactly where the frame of its number is the one that it says, with its type and its page, or
/// there is none and it is XTAB.
#[tactic(auto, using(crate::proofs::VerifyLaws::entry_agrees))]
pub fn entry_agrees()
    ensures { (kind : Kind) (frames : FrameMap) (e : FrameEntry) → (agrees kind frames e ≡ true) ↔ (maps.get frames e.pfn ≡ frame_in kind e) }
{}

/// The entries that the body of a PAGE_DATA has are sent where no record before it is a VERIFY, and compared where one is.
pub fn page_data_is_sent_or_compared()
    ensures { (o : Opening) (records : List StreamRecord) (r : StreamRecord) (bytes : List ℕ) → Follows o records r bytes → r.type ≡ type_number PageData →
        (body : List ℕ) × (es : List FrameEntry) × IsRecord (type_number PageData) body bytes × IsBatch o.kind (sent o.kind records).top body es
        × (All (λ q. q.type ≢ type_number Verify) records → (entries_in r.content ≡ es) × (checked_in r.content ≡ []))
        × ((All (λ q. q.type ≢ type_number Verify) records → ⊥) → (entries_in r.content ≡ []) × (checked_in r.content ≡ es)) }
{}

/// Of an image with a VERIFY the entries before it are those that are sent, and the entries behind it those that are
/// compared.
pub fn verify_parts_entries()
    ensures { (input : List ℕ) (o : Opening) (before behind : List StreamRecord) (v : StreamRecord) (rest : List ℕ) →
        IsImage input o (before ++ v ∷ behind) rest → v.type ≡ type_number Verify →
        (entries_of (before ++ v ∷ behind) ≡ entries_of before) × (checked_of (before ++ v ∷ behind) ≡ checked_of behind) }
{}

/// Of an image with a VERIFY those entries behind it are counted that differ from the frames that were sent before it.
pub fn entries_behind_verify_are_counted()
    ensures { (input : List ℕ) (o : Opening) (before behind : List StreamRecord) (v : StreamRecord) (rest : List ℕ) →
        IsImage input o (before ++ v ∷ behind) rest → v.type ≡ type_number Verify →
        differs_of o.kind (before ++ v ∷ behind) ≡ Some (differing o.kind (sent o.kind before).frames (checked_of behind)) }
{}

/// There is no such number exactly where no record is a VERIFY.
#[tactic(auto, using(crate::proofs::VerifyLaws::no_number))]
pub fn only_verify_is_counted()
    ensures { (kind : Kind) (records : List StreamRecord) → (differs_of kind records ≡ None) ↔ All (λ r. r.type ≢ type_number Verify) records }
{}
