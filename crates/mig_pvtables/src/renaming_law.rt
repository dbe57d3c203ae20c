ghost use Rattle.std.specs.Prelude.{◌≡◌, ◌≢◌, ◌↔◌, ◌<◌, ◌/◌, ◌%◌, ◌^◌, ℕ, List, Option, Some, None};
ghost use Rattle.mig_pvtables.specs.Common.{AreBytes, Frame, long_at, entry, blanked_table, is_present, is_large};
ghost use Rattle.mig_pvtables.specs.BadEntries.{bad_entry, IsFirstSlot, HasSuperpage, HasUnknown, NamesKnown};
ghost use Rattle.mig_pvtables.specs.declared.rename.Why.TheVariants as causes;
ghost use Rattle.mig_pvtables.specs.Renaming.{renamed_by, renamed_table, normalised_table, entry_named, NamesFit, GoesBack};

/// A table that is localised and then normalised is the table with 0 in its blank slots, where each frame that its
/// entries name has a machine frame and goes back.
pub fn localised_table_comes_back()
    ensures { (mfn_of pfn_of : ℕ → Option ℕ) (level : ℕ) (page : List ℕ) → AreBytes page
        → ((slot n : ℕ) → slot < 512 → entry level page slot ≡ Frame n → GoesBack mfn_of pfn_of n)
        → normalised_table pfn_of level (renamed_table mfn_of level page) ≡ blanked_table level page }
{}

/// A table whose entries name other frames says the same in each slot, but for the frames. Entries are present, and
/// superpages, as they were; bits 0 to 11 and 52 to 63 stay. An entry that names no frame (blank, not present or a
/// superpage), and one for whose slot there is no name, stays as it was, bits 12 to 51 too.
pub fn renamed_table_says_the_same()
    ensures said { (names : ℕ → Option ℕ) (level : ℕ) (page : List ℕ) → AreBytes page → NamesFit names level page → (slot : ℕ) → slot < 512
        → entry level (renamed_by names level page) slot ≡ entry_named (names slot) (entry level page slot) }
    ensures kind { (names : ℕ → Option ℕ) (level : ℕ) (page : List ℕ) → AreBytes page → NamesFit names level page → (slot : ℕ) → slot < 512
        → (is_present (long_at (renamed_by names level page) slot) ≡ is_present (long_at page slot)) × (is_large (long_at (renamed_by names level page) slot) ≡ is_large (long_at page slot)) }
    ensures bits { (names : ℕ → Option ℕ) (level : ℕ) (page : List ℕ) → AreBytes page → NamesFit names level page → (slot : ℕ) → slot < 512
        → (long_at (renamed_by names level page) slot % 2 ^ 12 ≡ long_at page slot % 2 ^ 12) × (long_at (renamed_by names level page) slot / 2 ^ 52 ≡ long_at page slot / 2 ^ 52) }
    ensures frameless { (names : ℕ → Option ℕ) (level : ℕ) (page : List ℕ) → AreBytes page → NamesFit names level page → (slot : ℕ) → slot < 512
        → ((n : ℕ) → entry level page slot ≢ Frame n) → long_at (renamed_by names level page) slot ≡ long_at page slot }
    ensures nameless { (names : ℕ → Option ℕ) (level : ℕ) (page : List ℕ) → AreBytes page → NamesFit names level page → (slot : ℕ) → slot < 512
        → names slot ≡ None → long_at (renamed_by names level page) slot ≡ long_at page slot }
{}

/// What normalising a table refuses: the least slot that holds a superpage, where there is one; else the least slot
/// that names a machine frame without a frame number. It refuses nothing exactly where each entry outside the blank
/// slots isn't present, or names a machine frame that has a frame number.
pub fn normalise_table_refuses_the_first()
    ensures superpage { (pfn_of : ℕ → Option ℕ) (level : ℕ) (page : List ℕ) (slot : ℕ)
        → (bad_entry pfn_of level page ≡ Some (record { slot = slot; why = causes.Superpage })) ↔ IsFirstSlot (HasSuperpage level page) slot }
    ensures no_frame { (pfn_of : ℕ → Option ℕ) (level : ℕ) (page : List ℕ) (slot : ℕ)
        → (bad_entry pfn_of level page ≡ Some (record { slot = slot; why = causes.NoFrame })) ↔ (((other : ℕ) → other < 512 → HasSuperpage level page other → ⊥) × IsFirstSlot (HasUnknown pfn_of level page) slot) }
    ensures nothing { (pfn_of : ℕ → Option ℕ) (level : ℕ) (page : List ℕ)
        → (bad_entry pfn_of level page ≡ None) ↔ ((slot : ℕ) → slot < 512 → NamesKnown pfn_of (entry level page slot)) }
{}
