ghost use Rattle.std.specs.Prelude.{ℕ, List, ◌++◌};
ghost use Rattle.mig_canon.specs.Common.{GuestOf, IsFormed, HasNoEmulators, blank, Frame};
ghost use Rattle.mig_canon.specs.Canon.{canon};
ghost use Rattle.mig_restore_form.specs.Spelled.{Accepted, IsComplete};
ghost use Rattle.mig_canon.specs.Bare.{IsBare};
ghost use Rattle.mig_canon.specs.Batched.{TellFrames, batched};

/// The canonical image of a bare guest is an accepted image with this guest, whatever follows it.
#[tactic(auto, using(crate::proofs::Batched::canon_is_accepted))]
pub fn canonical_image_is_accepted()
    ensures { (guest : GuestOf) (rest : List ℕ) → IsBare guest → Accepted (canon guest ++ rest) guest rest }
{}

/// The records of a guest's frames may have any number of frames, from 1 to 1024, and some of them more than once. The
/// stream is accepted. It means the blank form of the guest that has, at each number, what comes last.
#[tactic(auto, using(crate::proofs::Batched::batched_is_accepted))]
pub fn frames_may_come_in_any_records()
    ensures { (guest : GuestOf) (batches : List (List Frame)) (rest : List ℕ) → IsFormed guest → HasNoEmulators guest.parts → IsComplete guest.kind guest → TellFrames guest batches
        → Accepted (batched guest batches ++ rest) (blank guest) rest }
{}
