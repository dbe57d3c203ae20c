ghost use Rattle.std.specs.Prelude.{◌≡◌, ◌≤◌, ◌<◌, ◌+◌, ℕ, List, [], length};
ghost use Rattle.mig_machine_laws.specs.Common.{Frame, GuestOf, Kind, batch, batches, bodies_of};
ghost use Rattle.mig_machine_laws.specs.CanonOrder.{AscendByRank};

/// The frames of a canonical stream are in batches. Each but the last has 1024 of them, the last has at least one, and
/// there is none where there are no frames.
#[tactic(auto, using(crate::proofs::Batches::full, crate::proofs::Batches::last, crate::proofs::Batches::two))]
pub fn canonical_batches_are_full()
    ensures full { (fs : List Frame) (k : ℕ) → k + 1 < batches fs → length (batch fs k) ≡ 1024 }
    ensures last { (fs : List Frame) (k : ℕ) → k + 1 ≡ batches fs → (1 ≤ length (batch fs k)) × (length (batch fs k) ≤ 1024) }
    ensures none { batches [] ≡ 0 }
    ensures two { (fs : List Frame) → length fs ≡ 1025 → batches fs ≡ 2 }
{}

/// The records of a canonical stream are in one order of their types, those of vCPUs by the vCPUs' ids first.
#[tactic(auto, using(crate::proofs::CanonOrder::ascend))]
pub fn canonical_records_ascend()
    ensures { (kind : Kind) (g : GuestOf) → AscendByRank (bodies_of kind g) }
{}
