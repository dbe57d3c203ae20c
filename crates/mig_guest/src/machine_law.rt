ghost use Rattle.std.specs.Prelude.{◌≡◌, ◌<◌, ◌≤◌, ◌↔◌, ◌++◌, ℕ, true, List, Contains, Some, None};
ghost use Rattle.mig_guest.specs.Common.{range_with_len, Kind, level_of};
ghost use Rattle.std.specs.List.Sorted.{IsStrictlyIncreasing};
ghost use Rattle.std.specs.FinMap as maps;
ghost use Rattle.mig_guest.specs.Hosts.{HostFrame, HostFrames, pfn_in};
ghost use Rattle.mig_guest.specs.Tables.{entry};
ghost use Rattle.mig_guest.specs.declared.table.Entry.TheVariants.{Frame};
ghost use Rattle.mig_guest.specs.Footprints.{footprint, footprint_of};
ghost use Rattle.mig_guest.specs.History.{History};
ghost use Rattle.mig_guest.specs.Pfns.{Pfns, members};
ghost use Rattle.mig_guest.specs.Rounds.{Rounds, all_read, most_rounds};

/// A frame number without a frame has no footprint. A frame's own machine frame isn't in its footprint: a frame that gets
/// another one keeps its footprint, where its slots name the frame numbers that they named. An entry of a table names the
/// frame number that has its machine frame, and a frame that is no table names none.
#[tactic(auto, using(crate::proofs::Prints::own, crate::proofs::Prints::names))]
pub fn footprint_laws()
    ensures absent { (frames : HostFrames) (pfn : ℕ) → maps.get frames pfn ≡ None → footprint frames pfn ≡ None }
    ensures own { (frames now : HostFrames) (pfn machine : ℕ) (frame : HostFrame) → maps.get frames pfn ≡ Some frame → maps.get now pfn ≡ Some (record frame { machine = machine })
        → ((slot : ℕ) → (footprint_of now frame).names slot ≡ (footprint_of frames frame).names slot) → footprint now pfn ≡ footprint frames pfn }
    ensures entry { (frames : HostFrames) (frame : HostFrame) (level slot mfn : ℕ) (page : List ℕ) → level_of frame.type ≡ Some level → frame.page ≡ Some page → entry level page slot ≡ Frame mfn
        → (footprint_of frames frame).names slot ≡ pfn_in frames mfn }
    ensures data_alone { (frames : HostFrames) (frame : HostFrame) (slot : ℕ) → level_of frame.type ≡ None → (footprint_of frames frame).names slot ≡ None }
{}

/// The members of a set below a width are those numbers below it that are in the set, and they ascend.
pub fn members_laws()
    ensures are { (width pfn : ℕ) (set : Pfns) → Contains (members width set) pfn ↔ ((pfn < width) × (set pfn ≡ true)) }
    ensures ascend { (width : ℕ) (set : Pfns) → IsStrictlyIncreasing (members width set) }
{}

/// There are one to five rounds before the pause, and the first of them reads every frame number below the width, in
/// ascending order.
pub fn rounds_laws()
    ensures number { (kind : Kind) (width : ℕ) (h : History) → Rounds kind width h → (1 ≤ h.live) × (h.live ≤ most_rounds) }
    ensures begins { (kind : Kind) (width : ℕ) (h : History) → Rounds kind width h → (others : List ℕ) × (all_read width h ≡ range_with_len 0 width ++ others) }
{}
