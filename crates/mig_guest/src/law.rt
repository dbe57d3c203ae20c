ghost use Rattle.std.specs.Prelude.{◌≡◌, ◌≢◌, ◌≤◌, ℕ, List, length, false, Option};
ghost use Rattle.std.specs.FinMap as maps;
ghost use Rattle.mig_guest.specs.Common.{Kind, most_policy_entries, PageType, Xtab};
ghost use Rattle.mig_guest.specs.declared.part_key.PartKey.{PartKey};
ghost use Rattle.mig_guest.specs.Frames.{framed};
ghost use Rattle.mig_guest.specs.Guests.{GuestOf};
ghost use Rattle.mig_guest.specs.Parts.{put_parts, replace_code};
ghost use Rattle.mig_guest.specs.Formed.{IsFormed, IsGuestFrame, AreParts, is_policy, width_of};

/// A guest without frames and parts is well formed.
pub fn empty_guest_is_formed()
    ensures { (kind : Kind) → IsFormed (record { kind = kind; top = 0; frames = maps.empty; parts = maps.empty }) }
{}

/// A well formed guest stays so where parts of one code that is no policy's are set.
#[tactic(auto, using(crate::proofs::Kept::parts_keep))]
pub fn setting_parts_keeps_formed()
    ensures { (g : GuestOf) (code : ℕ) (ps : List (PartKey × List ℕ)) → is_policy code ≡ false → AreParts g.kind (width_of g) code ps
        → IsFormed g → IsFormed (record g { parts = put_parts g.parts ps }) }
{}

/// A well formed guest stays so where all entries of a policy are replaced.
#[tactic(auto, using(crate::proofs::Kept::policies_keep))]
pub fn setting_policies_keeps_formed()
    ensures { (g : GuestOf) (code : ℕ) (ps : List (PartKey × List ℕ)) → length ps ≤ most_policy_entries → AreParts g.kind (width_of g) code ps
        → IsFormed g → IsFormed (record g { parts = replace_code code g.parts ps }) }
{}

/// A well formed guest stays so where a frame is set that it may have, or a frame is taken away.
pub fn setting_frames_keeps_formed()
    ensures { (g : GuestOf) (pfn : ℕ) (type : PageType) (page : Option (List ℕ)) →
        (type ≢ Xtab → IsGuestFrame g.kind g.top pfn (record { type = type; page = page }))
        → IsFormed g → IsFormed (record g { frames = framed g.frames pfn type page }) }
{}
