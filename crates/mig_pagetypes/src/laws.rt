ghost use Rattle.std.specs.Prelude.{◌≡◌, ℕ, ◌^◌, ◌<◌, Some, Ok};
ghost use Rattle.mig_pagetypes.specs.declared.page_type.PageType.{PageType};
ghost use Rattle.mig_pagetypes.specs.declared.frame_word.FrameWord.{FrameWord};
ghost use Rattle.mig_pagetypes.specs.PageTypes.{number_of, type_of};
ghost use Rattle.mig_pagetypes.specs.FrameWords.{frame_word, word_of, without_ignored};

/// Each type is the one of its number.
pub fn types_have_numbers()
    ensures { (t : PageType) → type_of (number_of t) ≡ Some t }
{}

/// A number that names a type is that type's number.
pub fn numbers_name_types()
    ensures { (n : ℕ) (t : PageType) → type_of n ≡ Some t → number_of t ≡ n }
{}

/// A word that is written says again what it was written for.
pub fn decoding_undoes_encoding()
    ensures { (f : FrameWord) → f.pfn < 2 ^ 52 → frame_word (word_of f) ≡ Ok f }
{}

/// A word that is read and written is the same but for bits 59 to 52, which are zero.
pub fn encoding_undoes_decoding()
    ensures { (w : ℕ) (f : FrameWord) → frame_word w ≡ Ok f → word_of f ≡ without_ignored w }
{}
