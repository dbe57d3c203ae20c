ghost use Rattle.std.specs.Prelude.{◌≡◌, ◌↔◌, ℕ, List, [], ◌++◌};
ghost use Rattle.mig_guest.specs.Guests.{GuestOf};
ghost use Rattle.mig_guest.specs.Parts.{Part, PartMap};
ghost use Rattle.mig_libxl_form.specs.Carried.{IsCarried};
ghost use Rattle.mig_canon.specs.CanonStream.{AreEmulatorsInOrder, canon_any, emulators_in_order};
ghost use Rattle.mig_libxl_form.specs.Spelled.{AcceptedStream};

/// The canonical stream of a whole guest in its blank form is an accepted stream with this guest, whatever follows it.
#[tactic(auto, using(crate::proofs::AnyCanons::canon_is_accepted))]
pub fn canon_is_accepted()
    ensures { (guest : GuestOf) (rest : List ℕ) → IsCarried guest → AcceptedStream (canon_any guest ++ rest) guest rest }
{}

/// The canonical streams of such guests are equal exactly where the guests are.
#[tactic(auto, using(crate::proofs::AnyCanons::canon_is_one_to_one))]
pub fn canon_is_one_to_one()
    ensures { (guest other : GuestOf) → IsCarried guest → IsCarried other → (canon_any guest ≡ canon_any other) ↔ (guest ≡ other) }
{}

/// What is normalised twice is as it was normalised once: of such a guest the canonical stream is its own.
pub fn twice_is_once()
    ensures { (guest other : GuestOf) (rest : List ℕ) → IsCarried guest → AcceptedStream (canon_any guest) other rest → (canon_any other ≡ canon_any guest) × (rest ≡ []) }
{}

/// A list is that of the emulators' parts, as the canonical stream has them, exactly where it has each part of an emulator
/// and no other, and their keys ascend by id, index and code.
pub fn emulators_ascend()
    ensures { (parts : PartMap) (ps : List Part) → (ps ≡ emulators_in_order parts) ↔ AreEmulatorsInOrder parts ps }
{}
