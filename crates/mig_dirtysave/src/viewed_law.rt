ghost use Rattle.std.specs.Prelude.{◌≡◌, ◌≤◌, ◌^◌, ℕ, List, ◌++◌, length, map};
ghost use Rattle.mig_dirtysave.specs.Common.{HostOf, IsValid, IsSound, view, bare_guest, FrameTold, telling_frames, all_told, AreSized, frames_meant, AreTold, forms};
ghost use Rattle.mig_restore_form.specs.Spelled.{Accepted};
ghost use Rattle.mig_canon.specs.Batched.{batched};

/// Of a valid and sound host whose frames are what a saver's entries mean: the canonical image of its view, with the
/// saver's records in place of the frames' own, is accepted, whatever follows it. Its guest is the view without the
/// parts of emulators.
#[tactic(auto, using(crate::proofs::Viewed::saved_is_viewed))]
pub fn saved_host_is_viewed()
    ensures { (h : HostOf) (batches : List (List FrameTold)) (rest : List ℕ) → IsValid h → IsSound h
        → AreSized batches → AreTold h.kind h.width (all_told batches) → length batches ≤ 2 ^ 27 → frames_meant (all_told batches) ≡ forms h.frames
        → Accepted (batched (view h) (map telling_frames batches) ++ rest) (bare_guest (view h)) rest }
{}
