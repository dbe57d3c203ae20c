ghost use Rattle.std.specs.Prelude.{◌≡◌, ℕ, ◌<◌, ◌^◌, ◌↔◌, List, length, replicate, slice_index, All, Some, None, true, false};
ghost use Rattle.std.specs.declared.option.Option.{Option};
ghost use Rattle.std.specs.Io.KnownBytes.{Appends};
ghost use Rattle.mig_records.specs.Common.{padding_len, Kind, BadPageType, PfnOutside, word_type, word_pfn};
ghost use Rattle.mig_pagetypes.specs.PageTypes.{type_of};
ghost use Rattle.mig_records.specs.Faults.{fault_of_words};
ghost use Rattle.mig_records.specs.Heads.{head_in};
ghost use Rattle.mig_records.specs.Records.{head_of, spelled, IsRecord};
ghost use Rattle.mig_records.specs.Words.{has_reserved_type, names_outside, IsFirst};

/// A head that is written says again what it was written for.
#[tactic(auto, using(crate::proofs::HeadBytes::type_in_head, crate::proofs::HeadBytes::len_in_head))]
pub fn heads_are_read_back()
    ensures { (kind len : ℕ) → kind < 2 ^ 32 → len < 2 ^ 32
        → head_in (head_of kind len) ≡ record { kind = kind; len = len } }
{}

/// The canonical spelling of a record is a record.
pub fn spelled_is_record()
    ensures { (kind : ℕ) (body : List ℕ) → kind < 2 ^ 32 → length body < 2 ^ 32
        → IsRecord kind body (spelled kind body) }
{}

/// A head, a body and zeros that pad it, written one after the other, are the canonical spelling.
#[tactic(auto, unfolding(crate::specs::Records::spelled))]
pub fn pieces_spell_a_record()
    ensures { (before headed filled after : Option (List ℕ)) (kind : ℕ) (body : List ℕ)
        → Appends before headed (head_of kind (length body))
        → Appends headed filled body
        → Appends filled after (replicate (padding_len (length body)) 0)
        → Appends before after (spelled kind body) }
{}

/// The place that BadPageType names is the first with a reserved type, which it names too.
#[tactic(auto, using(crate::proofs::WordFaults::reserved_is_first))]
pub fn reserved_place_is_first()
    ensures { (kind : Kind) (top : ℕ) (ws : List ℕ) (entry n : ℕ)
        → fault_of_words kind top ws ≡ Some (BadPageType entry n)
        → IsFirst has_reserved_type ws entry × (n ≡ word_type (slice_index ws entry)) }
{}

/// The place that PfnOutside names is the first with a frame number outside the guest, which it names too; and no word
/// has a reserved type.
#[tactic(auto, using(crate::proofs::WordFaults::outside_is_first))]
pub fn outside_place_is_first()
    ensures { (kind : Kind) (top : ℕ) (ws : List ℕ) (entry n : ℕ)
        → fault_of_words kind top ws ≡ Some (PfnOutside entry n)
        → IsFirst (names_outside kind top) ws entry × (n ≡ word_pfn (slice_index ws entry))
        × All (λ w. has_reserved_type w ≡ false) ws }
{}

/// Words have no fault exactly where none has a reserved type and none names a frame outside the guest.
pub fn faultless_words()
    ensures { (kind : Kind) (top : ℕ) (ws : List ℕ) → (fault_of_words kind top ws ≡ None)
        ↔ All (λ w. (has_reserved_type w ≡ false) × (names_outside kind top w ≡ false)) ws }
{}

/// A reserved type is one that has no page type.
pub fn reserved_types_are_unknown()
    ensures { (w : ℕ) → w < 2 ^ 64 → (has_reserved_type w ≡ true) ↔ (type_of (word_type w) ≡ None) }
{}
