ghost use Rattle.std.specs.Prelude.{ℕ, List};
ghost use Rattle.mig_legacy.specs.Batches.{BatchesAreJudged};
ghost use Rattle.mig_legacy.specs.Chunks.{NumbersHaveKinds};
ghost use Rattle.mig_legacy.specs.Judged.{ToolstackIsSpelled};
ghost use Rattle.mig_legacy.specs.Texts.{DigitsSpellNumbers};
ghost use Rattle.mig_legacy.specs.WordsSaid.{WordsSayFrames};

/// Each chunk is that of its number.
#[tactic(auto, using(crate::proofs::ChunkNumbers::numbers_have_kinds))]
pub fn numbers_have_kinds()
    ensures { NumbersHaveKinds }
{}

/// A batch has no fault exactly where each of its words has a type and is below 2^32. A word is told to be high exactly
/// where it is the first of 2^32 or more, and each word has a type.
pub fn batches_are_judged()
    ensures { (ws : List ℕ) → BatchesAreJudged ws }
{}

/// A batch has no fault exactly where each word says a frame, or that there is none; and the words of a PAGE_DATA say the
/// same frames.
#[tactic(auto, using(crate::proofs::WordLaws::words_say))]
pub fn words_say_frames()
    ensures { WordsSayFrames }
{}

/// The digits of a number in a key or a value spell it, the most significant first, without zeros at their front.
#[tactic(auto, using(crate::proofs::Digits::digits_spell))]
pub fn digits_spell_numbers()
    ensures { DigitsSpellNumbers }
{}

/// The data of a toolstack have no wrong field exactly where they are spelled as entries, and these are the entries
/// that they are judged to be.
#[tactic(auto, using(crate::proofs::Spelling::toolstack_spelled))]
pub fn toolstack_is_spelled()
    ensures { (body : List ℕ) → ToolstackIsSpelled body }
{}
