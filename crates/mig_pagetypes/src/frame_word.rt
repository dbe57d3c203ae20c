ghost use Rattle.std.specs.Prelude.{◌≡◌, ◌<◌, ◌≤◌, ◌^◌, IfErr};
ghost use Rattle.mig_pagetypes.specs.FrameWords.{frame_word, word_of};

use crate::PageType;

/// A frame number with its type, as a word of a PAGE_DATA record has them: the type in bits 63 to 60, the frame number
/// in bits 51 to 0. Bits 59 to 52 are ignored.
#[derive(Clone, Copy, Debug, PartialEq, Eq)]
pub struct FrameWord {
    pub pfn: u64,
    pub kind: PageType,
}

/// What a word says; the refusal is its type number, which is reserved.
pub fn decode_word(word: u64) -> Result<FrameWord, u8>
    ensures value { result ≡ frame_word word }
    ensures reserved { IfErr result (λ n. (5 ≤ n) × (n ≤ 8)) }
{
    let number = (word / (1 << 60)) as u8;
    match PageType::from_nibble(number) {
        Some(kind) => Ok(FrameWord {
            pfn: word % (1 << 52),
            kind,
        }),
        None => Err(number),
    }
}

/// The word that says so, with bits 59 to 52 zero.
pub fn encode_word(word: FrameWord) -> u64
    requires { word.pfn < 2 ^ 52 }
    ensures { result ≡ word_of word }
{
    u64::from(word.kind.nibble()) * (1 << 60) + word.pfn
}
