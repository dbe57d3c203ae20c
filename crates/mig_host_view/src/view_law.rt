ghost use Rattle.std.specs.Prelude.{◌≡◌, ◌≤◌, ◌↔◌, ℕ, List, Option, Some, None, true, IsSome};
ghost use Rattle.std.specs.FinMap as maps;
ghost use Rattle.mig_host_view.specs.Common.{Pv, Hvm, gdt_ents, FrameOf, GuestOf, HostOf, IsValid, blank, IsOfBytes, listed, p2m_page, GoesBack, blanked_context, field_value, frame_of_field, is_used, is_used_somewhere, IsWhole};
ghost use Rattle.mig_host_view.specs.Localised.{localised};
ghost use Rattle.mig_host_view.specs.Normalised.{normalised};
ghost use Rattle.mig_host_view.specs.RenamedContexts.{renamed_context};
ghost use Rattle.mig_host_view.specs.Sound.{CanBeSeen, IsSound, unsoundness};
ghost use Rattle.mig_host_view.specs.View.{guest_in, view, hvm_view};

/// A context in its blank form that is localised and then renamed back comes back, in its blank form, where each frame
/// that a field which a stream uses says goes back.
#[tactic(auto, using(crate::proofs::RenamedContexts::context_returns))]
pub fn renamed_context_comes_back()
    ensures { (mfn_of pfn_of : ℕ → Option ℕ) (id : ℕ) (context : List ℕ) → blanked_context context ≡ context
        → ((field : ℕ) → field ≤ 18 → is_used id (gdt_ents context) field (field_value context field) ≡ true → GoesBack mfn_of pfn_of (frame_of_field field (field_value context field)))
        → blanked_context (renamed_context is_used_somewhere pfn_of id (renamed_context is_used mfn_of id context)) ≡ context }
{}

/// A whole guest in blank form that is localised, and then normalised, is the guest, where each frame goes back.
#[tactic(auto, using(crate::proofs::GuestsBack::guest_back))]
pub fn localised_guest_comes_back()
    ensures { (g : GuestOf) → IsWhole g → blank g ≡ g → (mfn_of pfn_of : ℕ → Option ℕ)
        → ((n : ℕ) → IsSome (maps.get g.frames n) → GoesBack mfn_of pfn_of n) → normalised pfn_of (localised mfn_of g) ≡ g }
{}

/// Nothing is in the way of seeing such a guest where it is.
pub fn localised_guest_can_be_seen()
    ensures { (g : GuestOf) → IsWhole g → blank g ≡ g → (mfn_of pfn_of : ℕ → Option ℕ)
        → ((n : ℕ) → IsSome (maps.get g.frames n) → GoesBack mfn_of pfn_of n) → CanBeSeen (localised mfn_of g) pfn_of }
{}

/// Each P2M frame that a whole PV guest lists holds, once that is localised, the machine frames of its range, at whatever
/// place it is listed, where numbers without a frame have no machine frame.
#[tactic(auto, using(crate::proofs::ListedPages::listed_page))]
pub fn localised_p2m_frames_are_filled()
    ensures { (g : GuestOf) → IsWhole g → g.kind ≡ Pv → (mfn_of : ℕ → Option ℕ) → ((n : ℕ) → maps.get g.frames n ≡ None → mfn_of n ≡ None) → (k pfn : ℕ) → listed g.parts k ≡ Some pfn
        → (frame : FrameOf) × (maps.get (localised mfn_of g).frames pfn ≡ Some frame) × (frame.page ≡ Some (p2m_page mfn_of k)) }
{}

/// A host is sound exactly where no row finds anything in the way.
#[tactic(auto, using(crate::proofs::SoundRows::sound_is_faultless))]
pub fn sound_host_has_no_unsoundness()
    ensures { (h : HostOf) → IsSound h ↔ (unsoundness h ≡ None) }
{}

/// Of an HVM host nothing is renamed: machine frames go, and the context is cut.
#[tactic(auto, using(crate::proofs::HostViews::hvm_viewed))]
pub fn hvm_host_is_viewed()
    ensures { (h : HostOf) → h.kind ≡ Hvm → view h ≡ hvm_view h }
{}

/// What a valid and sound host is seen as is a whole guest in blank form.
pub fn view_is_whole()
    ensures whole { (h : HostOf) → IsValid h → IsSound h → IsWhole (view h) }
    ensures form { (h : HostOf) → IsValid h → IsSound h → blank (view h) ≡ view h }
{}

/// A host of bytes is seen as a guest of bytes.
#[tactic(auto, using(crate::proofs::ViewedBytes::view_bytes))]
pub fn view_is_of_bytes()
    ensures { (h : HostOf) → IsOfBytes (guest_in h) → IsOfBytes (view h) }
{}
