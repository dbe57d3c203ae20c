ghost use Rattle.std.specs.Prelude.{◌≡◌, ◌≢◌, ◌⊎◌, ℕ, List, option_and_then};
ghost use Rattle.std.specs.FinMap as maps;
ghost use Rattle.mig_legacy.specs.Common.{option_map, option_or, Passes, Pair, Hvm, LegacyCause, LegacyPlace, GuestOf, PartKey, text_of_map, IsWhole, frame_in, last_bytes, last_entry};
ghost use Rattle.mig_bytes.specs.Bytes.{AreBytes};
ghost use Rattle.mig_pvtables.specs.Blank.{blank, IsOfBytes};
ghost use Rattle.mig_policy.specs.PairMaps.{last_pair_value as last_pair};
ghost use Rattle.mig_legacy.specs.Legacy.{LegacyStream, device_key, mean_legacy, param_key, store_key};
ghost use Rattle.mig_legacy.specs.Meaning.{entries_of_chunks, last_value, pairs_of_chunks, parts_told, store_of, tail_value};
ghost use Rattle.mig_legacy.specs.Spelled.{IsLegacy, AcceptedLegacy};
ghost use Rattle.mig_legacy.specs.Stream.{legacy_at, IsLegacyRefused};

/// What judging accepts is spelled as the format says.
#[tactic(auto, using(crate::proofs::Laws::accepted_is_legacy))]
pub fn accepted_is_legacy()
    ensures { (input : List ℕ) (s : LegacyStream) (rest : List ℕ) → legacy_at input ≡ Passes s rest → IsLegacy input s rest }
{}

/// What is spelled as the format says is accepted.
pub fn legacy_is_accepted()
    ensures { (input : List ℕ) (s : LegacyStream) (rest : List ℕ) → IsLegacy input s rest → legacy_at input ≡ Passes s rest }
{}

/// For every input either a front is an accepted stream, or it is refused at a place for a cause.
pub fn accepted_or_refused()
    ensures { (input : List ℕ) → ((guest : GuestOf) × (rest : List ℕ) × AcceptedLegacy input guest rest)
        ⊎ ((place : LegacyPlace) × (cause : LegacyCause) × (rest : List ℕ) × IsLegacyRefused input place cause rest) }
{}

/// An input with an accepted front has no refusal.
pub fn never_both()
    ensures { (input : List ℕ) (guest : GuestOf) (rest : List ℕ) (place : LegacyPlace) (cause : LegacyCause) (more : List ℕ) →
        AcceptedLegacy input guest rest → IsLegacyRefused input place cause more → ⊥ }
{}

/// At most one front of an input is an accepted stream, with one guest.
pub fn one_front()
    ensures { (input : List ℕ) (g h : GuestOf) (rest more : List ℕ) → AcceptedLegacy input g rest → AcceptedLegacy input h more
        → (g ≡ h) × (rest ≡ more) }
{}

/// An accepted guest of an input of bytes is whole, in its blank form and of bytes, with the parts of its device model.
pub fn accepted_legacy_is_whole()
    ensures { (input : List ℕ) (guest : GuestOf) (rest : List ℕ) → AreBytes input → AcceptedLegacy input guest rest
        → IsWhole guest × (blank guest ≡ guest) × IsOfBytes guest }
{}

/// The guest that a stream means is an HVM guest, and no list of P2M frames gives it a greatest frame number.
#[tactic(auto, using(crate::proofs::Meaning::kind_is, crate::proofs::Meaning::top_is))]
pub fn guest_is_hvm()
    ensures kind { (s : LegacyStream) → (mean_legacy s).kind ≡ Hvm }
    ensures top { (s : LegacyStream) → (mean_legacy s).top ≡ 0 }
{}

/// Of each frame number the last entry of all batches decides: it says the frame's type and page, or that there is no
/// frame.
#[tactic(auto, using(crate::proofs::Meaning::last_entry_decides))]
pub fn last_entry_decides()
    ensures { (s : LegacyStream) (pfn : ℕ) →
        maps.get (mean_legacy s).frames pfn ≡ option_and_then (frame_in Hvm) (last_entry pfn (entries_of_chunks s.chunks)) }
{}

/// Of each part but the two of the device model the last that the chunks and then the tail say decides. A part that
/// none of them says isn't there.
#[tactic(auto, using(crate::proofs::DeviceMeaning::last_part_decides))]
pub fn last_part_decides()
    ensures { (s : LegacyStream) (key : PartKey) → key ≢ store_key → key ≢ device_key →
        maps.get (mean_legacy s).parts key ≡ last_bytes key (parts_told s) }
{}

/// An HVM parameter has the tail's value where the tail says one, which it does of 1, 5 and 6; else the value of the
/// last chunk that says one.
#[tactic(auto, using(crate::proofs::DeviceMeaning::last_value_decides))]
pub fn last_value_decides()
    ensures { (s : LegacyStream) (index : ℕ) →
        maps.get (mean_legacy s).parts (param_key index) ≡ option_or (tail_value index s.tail) (last_value index s.chunks) }
{}

/// The pairs of all toolstacks make the device model's store, which has of each key the last value; no pairs make
/// none.
#[tactic(auto, using(crate::proofs::DeviceMeaning::pairs_make_store, crate::proofs::DeviceMeaning::last_pair_decides))]
pub fn last_pair_decides()
    ensures store { (s : LegacyStream) →
        maps.get (mean_legacy s).parts store_key ≡ option_map text_of_map (store_of (pairs_of_chunks s.chunks)) }
    ensures values { (ps : List Pair) (k : List ℕ) → option_and_then (λ m. maps.get m k) (store_of ps) ≡ last_pair k ps }
{}

/// The device model's data are those of its record, and without a record there are none.
#[tactic(auto, using(crate::proofs::DeviceMeaning::device_record_decides))]
pub fn device_record_decides()
    ensures { (s : LegacyStream) → maps.get (mean_legacy s).parts device_key ≡ s.device }
{}
