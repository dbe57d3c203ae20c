ghost use Rattle.std.specs.Prelude.{◌≡◌, ◌↔◌, ℕ, Option};
ghost use Rattle.mig_headers.specs.CauseNumbers.{number_of_cause};
ghost use Rattle.mig_host_laws.specs.Common.{Cause, Pv, Unsound, number_of_unsound, IsFormed, GuestOf, HostOf, IsValid, fault_of_guest, IsSound, unsoundness};
ghost use Rattle.mig_pvtables.specs.Whole.{IsWhole};
ghost use Rattle.mig_host_laws.specs.FirstRow.{first_row, IsWide};
ghost use Rattle.mig_host_laws.specs.NamedFirst.{NamesFirst};
ghost use Rattle.mig_host_laws.specs.Standing.{Standing, in_host};
ghost use Rattle.mig_host_laws.specs.Unsoundness.{UnsoundHas, NamesFirstRow, IsWrongAtEnd};

/// Of all that is wrong with a guest where it is, one cause is named first, or none.
#[tactic(auto, using(crate::proofs::Rows::one_row))]
pub fn one_row_is_named()
    ensures { (s : Standing) (f g : Option Unsound) → NamesFirstRow s f → NamesFirstRow s g → f ≡ g }
{}

/// The unsoundness of a host, valid or not, is the row of least number at its least place.
#[tactic(auto, using(crate::proofs::Instances::unsoundness_named))]
pub fn unsoundness_is_least()
    ensures { (h : HostOf) → NamesFirst number_of_unsound (UnsoundHas h) (unsoundness h) }
{}

/// The fault of a PV guest at the end of its stream is the first, at its least place, of what is wrong with it there.
pub fn guest_fault_is_least()
    ensures { (g : GuestOf) → g.kind ≡ Pv → NamesFirst number_of_cause (IsWrongAtEnd g) (fault_of_guest g) }
{}

/// A host is sound exactly where nothing is wrong with it. A PV guest is whole exactly where it is well formed and
/// nothing is wrong with it at the end of its stream.
#[tactic(auto, using(crate::proofs::Nothing::nothing_at_end))]
pub fn nothing_is_wrong()
    ensures host { (h : HostOf) → IsSound h ↔ ((place : ℕ) (cause : Unsound) → UnsoundHas h place cause → ⊥) }
    ensures guest { (g : GuestOf) → g.kind ≡ Pv → IsWhole g ↔ (IsFormed g × ((place : ℕ) (cause : Cause) → IsWrongAtEnd g place cause → ⊥)) }
{}

/// What is found row by row, with tables looked through below a width beyond which there are none, is the row of least
/// number at its least place. The width of a valid host is such a one.
#[tactic(auto, using(crate::proofs::Rows::first_row_named))]
pub fn first_row_is_least()
    ensures row { (s : Standing) (width : ℕ) → IsWide width s → NamesFirstRow s (first_row width s) }
    ensures wide { (h : HostOf) → IsValid h → IsWide h.width (in_host h) }
{}
