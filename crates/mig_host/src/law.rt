ghost use Rattle.std.specs.Prelude.{◌≡◌, ℕ, Some, None};
ghost use Rattle.std.specs.FinMap as maps;
ghost use Rattle.mig_host.specs.Common.{Pv, Hvm, GuestOf, HostFrame, IsValid, blank, IsWhole, IsSound, unsoundness, view, hvm_view};
ghost use Rattle.mig_pvtables.specs.P2mFrames.{listed};
ghost use Rattle.mig_pvtables.specs.P2mPages.{p2m_page};
ghost use Rattle.mig_host.specs.Hosted.{mfn_in, hosted, IsBaseOutside};

/// What a whole guest becomes is a valid host, where the base isn't out of range.
#[tactic(auto, using(crate::proofs::HostedGuests::whole_valid))]
pub fn hosted_is_valid()
    ensures { (guest : GuestOf) (base : ℕ) → IsWhole guest → (IsBaseOutside guest base → ⊥) → IsValid (hosted guest base) }
{}

/// What a whole guest in blank form becomes is a sound host: nothing is in the way of seeing it.
pub fn hosted_is_sound()
    ensures sound { (guest : GuestOf) (base : ℕ) → IsWhole guest → blank guest ≡ guest → (IsBaseOutside guest base → ⊥) → IsSound (hosted guest base) }
    ensures faultless { (guest : GuestOf) (base : ℕ) → IsWhole guest → blank guest ≡ guest → (IsBaseOutside guest base → ⊥) → unsoundness (hosted guest base) ≡ None }
{}

/// The host that a whole guest in blank form becomes is seen as this guest.
#[tactic(auto, using(crate::proofs::HostedGuests::whole_seen))]
pub fn hosted_is_seen()
    ensures { (guest : GuestOf) (base : ℕ) → IsWhole guest → blank guest ≡ guest → (IsBaseOutside guest base → ⊥) → view (hosted guest base) ≡ guest }
{}

/// Each P2M frame that a whole PV guest lists holds the machine frames of its range, at whatever place it is listed.
#[tactic(auto, using(crate::proofs::HostedPages::hosted_page))]
pub fn hosted_p2m_frames_are_filled()
    ensures { (guest : GuestOf) (base k pfn : ℕ) → IsWhole guest → guest.kind ≡ Pv → listed guest.parts k ≡ Some pfn
        → (frame : HostFrame) × (maps.get (hosted guest base).frames pfn ≡ Some frame) × (frame.page ≡ Some (p2m_page (mfn_in guest.frames base) k)) }
{}

/// The host that a whole HVM guest becomes is seen as this guest, whatever the base.
#[tactic(auto, using(crate::proofs::HostViews::hosted_seen))]
pub fn hvm_hosted_is_seen()
    ensures { (guest : GuestOf) (base : ℕ) → IsWhole guest → guest.kind ≡ Hvm → hvm_view (hosted guest base) ≡ guest }
{}
