ghost use Rattle.std.specs.Prelude.{◌≡◌, ◌↔◌, ◌<◌, ◌∷◌, [], ℕ, List, length, is_none, nat_lt, None, IsSome};
ghost use Rattle.std.specs.FinMap as maps;
ghost use Rattle.mig_headers.specs.Rows.{first_fault};
ghost use Rattle.mig_pvtables.specs.Common.{Missing, TooManyFrames, Pv, Hvm, most_frames, IsFormed, IsFew, GuestOf, context_key, entry, IsWithin};
ghost use Rattle.mig_pvtables.specs.Blank.{blank, IsOfBytes};
ghost use Rattle.mig_pvtables.specs.Faults.{fault_of_guest};
ghost use Rattle.mig_pvtables.specs.Tables.{fault_of_page_table};
ghost use Rattle.mig_pvtables.specs.Whole.{IsWhole};
ghost use Rattle.mig_pvtables.specs.WholePv.{IsWholePv};
ghost use Rattle.mig_pvtables.specs.WorkedGuest.{worked_pv_guest};

/// Of an HVM guest two causes are tried: that it has no context, and that it has too many frames.
#[tactic(auto, using(crate::proofs::HvmGuests::hvm_fault))]
pub fn hvm_guest_has_two_faults()
    ensures { (g : GuestOf) → g.kind ≡ Hvm → fault_of_guest g ≡
        first_fault ((is_none (maps.get g.parts context_key), Missing 9) ∷ (nat_lt most_frames (length (maps.entries g.frames)), TooManyFrames) ∷ []) }
{}

/// A whole HVM guest is a well formed one that has a context and not too many frames.
#[tactic(auto, using(crate::proofs::HvmGuests::hvm_whole))]
pub fn hvm_guest_is_whole()
    ensures { (g : GuestOf) → g.kind ≡ Hvm → IsWhole g ↔ (IsFormed g × IsSome (maps.get g.parts context_key) × IsFew g.frames) }
{}

/// A whole PV guest is one that is whole in the words of the format.
#[tactic(auto, using(crate::proofs::PvGuests::pv_whole))]
pub fn pv_guest_is_whole()
    ensures { (g : GuestOf) → g.kind ≡ Pv → IsWhole g ↔ IsWholePv g }
{}

/// The PV guest of the worked stream is whole.
#[tactic(auto, using(crate::proofs::WorkedGuest::worked_is_whole))]
pub fn worked_pv_guest_is_whole()
    ensures { IsWhole worked_pv_guest }
{}

/// Some whole PV guest is in its blank form.
#[tactic(auto, using(crate::proofs::WorkedGuest::some_blank_whole))]
pub fn some_blank_pv_guest_is_whole()
    ensures { (g : GuestOf) × (g.kind ≡ Pv) × IsWhole g × (blank g ≡ g) }
{}

/// A table has no fault in a stream exactly where none of its slots says a superpage or a frame above top.
#[tactic(auto, using(crate::proofs::Within::table_within))]
pub fn faultless_table_is_within()
    ensures { (place top level : ℕ) (page : List ℕ) → (fault_of_page_table place top level page ≡ None) ↔ ((slot : ℕ) → slot < 512 → IsWithin top (entry level page slot)) }
{}

/// An HVM guest is its own blank form.
#[tactic(auto, using(crate::proofs::HvmGuests::hvm_blank))]
pub fn hvm_guest_is_blank()
    ensures { (g : GuestOf) → g.kind ≡ Hvm → blank g ≡ g }
{}

/// The blank form of a guest is its own blank form.
#[tactic(auto, using(crate::proofs::BlankAgain::blank_again))]
pub fn blank_form_is_blank()
    ensures { (g : GuestOf) → blank (blank g) ≡ blank g }
{}

/// The blank form of a whole guest is whole.
pub fn blank_form_is_whole()
    ensures { (g : GuestOf) → IsWhole g → IsWhole (blank g) }
{}

/// A well formed guest of bytes whose blank form is whole is whole.
#[tactic(auto, using(crate::proofs::BlankBack::whole_before))]
pub fn whole_as_its_blank_form()
    ensures { (g : GuestOf) → IsOfBytes g → IsFormed g → IsWhole (blank g) → IsWhole g }
{}
