ghost use Rattle.std.specs.Prelude.{◌≡◌, ◌≤◌, ◌<◌, ◌+◌, ◌∷◌, ◌++◌, ℕ, List, length, Option};
ghost use Rattle.mig_machine_laws.specs.Common.{Kind, Hvm, LogTook, History, Rounds, to_read, size, BatchesCut, FitsBatch, FrameTold, IsBehind, all_told, most_entries};
ghost use Rattle.mig_machine_laws.specs.FiveRounds.{five_rounds};

/// A save has from 1 to 5 rounds. With fewer than 5 the last of their logs names fewer than 50 frame numbers, and each earlier
/// one names 50 or more.
#[tactic(auto, using(crate::proofs::RoundsGoOn::number, crate::proofs::RoundsGoOn::few, crate::proofs::RoundsGoOn::many))]
pub fn rounds_go_on_up_to_five()
    ensures number { (kind : Kind) (width : ℕ) (h : History) → (r : Rounds kind width h) → (1 ≤ length r.live) × (length r.live ≤ 5) }
    ensures few { (kind : Kind) (width : ℕ) (h : History) → (r : Rounds kind width h) → length r.live < 5 → size width (to_read width r.live) < 50 }
    ensures many { (kind : Kind) (width : ℕ) (h : History) → (r : Rounds kind width h) → (later earlier : List LogTook) (log : LogTook) → r.live ≡ later ++ log ∷ earlier → 0 < length later → 50 ≤ size width log.log }
{}

/// An HVM guest of 50 frame numbers that all change in each round is saved in five.
#[tactic(auto, using(crate::proofs::RoundsGoOn::worked))]
pub fn five_rounds_are_rounds()
    ensures { Rounds Hvm 50 five_rounds × (five_rounds.live ≡ 5) }
{}

/// A record has from 1 to 1024 entries, and of all entries that were sent at most 1024 stand in no whole record.
#[tactic(auto, using(crate::proofs::RoundsGoOn::behind))]
pub fn entries_behind_are_few()
    ensures most { most_entries ≡ 1024 }
    ensures batch { (batch : List FrameTold) → FitsBatch batch → (1 ≤ length batch) × (length batch ≤ 1024) }
    ensures behind { (start now : Option (List ℕ)) (more : ℕ) (sent : List FrameTold) → IsBehind start now more sent → (batches : List (List FrameTold)) × BatchesCut start now batches × (length sent + more ≤ length (all_told batches) + 1024) }
{}
