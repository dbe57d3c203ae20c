ghost use Rattle.std.specs.Prelude.{◌≡◌, ◌+◌, ℕ, List, [], length};
ghost use Rattle.mig_records.specs.declared.head.RecordHead.{RecordHead};
ghost use Rattle.mig_relay.specs.Laws.{ListsAreFronts};
ghost use Rattle.mig_relay.specs.Parts.{AtPages, AtWords};
ghost use Rattle.mig_relay.specs.Spots.{AtLibxlHead, InImage, Outer};
ghost use Rattle.mig_relay.specs.Waiting.{may_wait, most_waiting};
ghost use Rattle.mig_relay.specs.declared.state.Coming.TheVariants as comes;
ghost use Rattle.mig_restore_form.specs.Judging.{Opening};
ghost use Rattle.mig_restore_form.specs.Record.{FrameEntry, StreamRecord};

/// The bytes that a relay stands for are a faultless front, or one with the first bytes of the next part.
pub fn lists_are_fronts()
    ensures { ListsAreFronts }
{}

/// How many bytes may wait in front of three parts, and how many may have been taken and not written. The parts are a
/// head, the 1024 words of a PAGE_DATA, and one of their pages.
pub fn worked_waiting()
    ensures at_head { (may_wait comes.LibxlHead 0 ≡ 512) × (most_waiting (AtLibxlHead []) ≡ 4608) }
    ensures at_words { (outer : Outer) (o : Opening) (records : List StreamRecord) (head : RecordHead) → (may_wait (comes.Words head 1024) 0 ≡ 512) × (most_waiting (InImage outer (AtWords o records head 1024)) ≡ 12800) }
    ensures at_page { (outer : Outer) (o : Opening) (records : List StreamRecord) (head : RecordHead) (coming : List (ℕ × ℕ)) (stood : List FrameEntry) → length stood + length coming ≡ 1024
        → (may_wait (comes.Page head) 1024 ≡ 8704) × (most_waiting (InImage outer (AtPages o records head coming stood)) ≡ 12800) }
{}
