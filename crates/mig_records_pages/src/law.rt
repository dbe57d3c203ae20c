ghost use Rattle.std.specs.Prelude.{◌<◌, ◌≤◌, ◌+◌, ◌-◌, ◌*◌, ℕ, List, [], ◌++◌, length};
ghost use Rattle.std.specs.declared.option.Option.{Option};
ghost use Rattle.mig_records_pages.specs.Common.{Record};
ghost use Rattle.mig_records_pages.specs.PageData.{most_entries};
ghost use Rattle.mig_records_pages.specs.Told.{FrameTold, all_told};
ghost use Rattle.mig_records_pages.specs.Written.{WroteAll, WroteSome};
ghost use Rattle.mig_records_pages.specs.Batches.{AreSized, AreFull, IsSent, IsBehind};

/// Before anything is written there are no records. Records that were written behind others are behind them. So are
/// records with a part of one more, which may be none of it.
#[tactic(auto, using(crate::proofs::Written::nothing_written, crate::proofs::Written::all_behind, crate::proofs::Written::some_behind, crate::proofs::Written::none_of_next))]
pub fn records_stand_behind_records()
    ensures nothing { (start : Option (List ℕ)) → WroteAll start start [] }
    ensures all { (start from now : Option (List ℕ)) (rs ss : List Record) → WroteAll start from rs → WroteAll from now ss → WroteAll start now (rs ++ ss) }
    ensures some { (start from now : Option (List ℕ)) (rs ss : List Record) → WroteAll start from rs → WroteSome from now ss → WroteSome start now (rs ++ ss) }
    ensures part { (start now : Option (List ℕ)) (rs : List Record) → WroteAll start now rs → WroteSome start now rs }
{}

/// Before anything is written no entry is sent, and none is held. Of entries that were sent, and one more that is to be, at
/// most as many as a record may have stand in no whole record, where fewer are held. The records are as few as their entries and flushes
/// allow.
#[tactic(auto, using(crate::proofs::Joins::nothing_sent))]
pub fn sent_entries_are_little_behind()
    ensures nothing { (start : Option (List ℕ)) → IsSent start start 0 [] [] }
    ensures behind { (start now : Option (List ℕ)) (flushes : ℕ) (held sent : List FrameTold) → length held < most_entries → IsSent start now flushes held sent → IsBehind start now 1 sent }
    ensures few { (flushes : ℕ) (batches : List (List FrameTold)) → AreSized batches → AreFull flushes batches → most_entries * length batches ≤ length (all_told batches) + (most_entries - 1) * flushes }
{}
