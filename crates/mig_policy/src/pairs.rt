ghost use Rattle.std.specs.Prelude.{◌≡◌, ◌<◌, ◌↔◌, length, false, IsTrue, IfNone, IfSome};
ghost use Rattle.mig_policy.specs.Common.{list_all, AreCanonicalPairs, is_key_byte, is_next_key, texts_in, are_rising_texts, are_canonical_pairs};

use crate::texts::split_text;

/// Whether a key may have this byte.
pub fn may_be_in_key(byte: u8) -> bool
    ensures { result ≡ is_key_byte byte }
{
    matches!(byte, b'0'..=b'9' | b'A'..=b'Z' | b'a'..=b'z' | b'-' | b'/' | b'_' | b'@')
}

/// Whether a key may have all these bytes.
fn is_key(bytes: &[u8]) -> bool
    ensures { result ≡ list_all is_key_byte bytes.now }
{
    bytes.iter().all(|byte| may_be_in_key(*byte))
}

/// A key that may come behind this last one.
#[tactic(auto, using(crate::proofs::PairSteps::next_key))]
fn may_follow(last: &[u8], key: &[u8]) -> bool
    ensures { result ≡ is_next_key last.now key.now }
{
    is_key(key) && last < key
}

/// The key of the first pair, where it may come behind this last key, and what is behind the pair.
#[tactic(auto, using(crate::proofs::TextSteps::if_none, crate::proofs::PairSteps::no_value, crate::proofs::PairSteps::after_pair))]
fn split_pair<'a>(last: &[u8], bytes: &'a [u8]) -> Option<(&'a [u8], &'a [u8])>
    requires { 0 < length bytes.now }
    ensures none { IfNone result (are_rising_texts last.now (texts_in bytes.now) ≡ false) }
    ensures some { IfSome result (λ r. are_rising_texts last.now (texts_in bytes.now) ≡ are_rising_texts r.0.now (texts_in r.1.now)) }
    ensures shorter { IfSome result (λ r. length r.1.now < length bytes.now) }
{
    let (key, behind) = split_text(bytes)?;
    let (_, rest) = split_text(behind)?;
    if may_follow(last, key) {
        Some((key, rest))
    } else {
        None
    }
}

/// Whether these bytes are pairs of texts in canonical form: key NUL value NUL, with ascending distinct keys (libxl
/// migration stream, "EMULATOR_XENSTORE_DATA").
#[tactic(auto, using(crate::proofs::PairSteps::all_texts, crate::proofs::PairSteps::at_end, crate::proofs::PairSteps::spelled_as))]
pub fn canonical_pairs(bytes: &[u8]) -> bool
    ensures value { result ≡ are_canonical_pairs bytes.now }
    ensures spelled { IsTrue result ↔ AreCanonicalPairs bytes.now }
{
    let mut last: &[u8] = &[];
    let mut rest = bytes;
    while !rest.is_empty() {
        let Some((key, behind)) = split_pair(last, rest) else {
            return false;
        };
        last = key;
        rest = behind;
    }
    true
}
