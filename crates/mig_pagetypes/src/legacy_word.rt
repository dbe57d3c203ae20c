ghost use Rattle.std.specs.Prelude.{◌≡◌};
ghost use Rattle.mig_pagetypes.specs.LegacyWords.{legacy_word, IsSaid};

use crate::{FrameWord, PageType};

/// The word that stands for no frame.
const PLACEHOLDER: u64 = 0xF000_0000;

/// What a word of a batch of pages says in a legacy stream (Xen's xg_save_restore.h). The type is in bits 31 to 28, the
/// frame number in bits 27 to 0.
#[derive(Clone, Copy, Debug, PartialEq, Eq)]
pub enum LegacyWord {
    /// Nothing: 0xF0000000.
    Placeholder,
    Word(FrameWord),
    /// This type number is reserved.
    BadType(u8),
    /// Bits 63 to 32 aren't all 0.
    High,
}

/// What a word of a legacy stream says. A reserved type is told before bits that have to be 0.
pub fn decode_legacy_word(word: u64) -> LegacyWord
    ensures value { result ≡ legacy_word word }
    ensures said { IsSaid word result }
{
    let number = (word / (1 << 28) % 16) as u8;
    let Some(kind) = PageType::from_nibble(number) else {
        return LegacyWord::BadType(number);
    };
    if word >= 1 << 32 {
        return LegacyWord::High;
    }
    if word == PLACEHOLDER {
        return LegacyWord::Placeholder;
    }
    LegacyWord::Word(FrameWord {
        pfn: word % (1 << 28),
        kind,
    })
}
