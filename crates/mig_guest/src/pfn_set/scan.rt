ghost use Rattle.std.specs.Prelude.{◌≡◌, ℕ, ◌^◌, ◌<◌, ◌≤◌, length, true, false, IfSome, IfNone};
ghost use Rattle.mig_guest.specs.Common.{bit_at};
ghost use Rattle.mig_guest.specs.Pfns.{pfns_of_words, size};
ghost use Rattle.mig_guest.specs.Changes.{IsBelow};

/// The least bit, from this one on, that is set.
fn bit_from(word: u64, from: u64) -> Option<u64>
    requires { from < 64 }
    ensures inside { IfSome result (λ bit. (from ≤ bit) × (bit < 64)) }
    ensures found { IfSome result (λ bit. bit_at word bit ≡ 1) }
    ensures least { IfSome result (λ bit. (i : ℕ) → from ≤ i → i < bit → bit_at word i ≡ 0) }
    ensures none { IfNone result ((i : ℕ) → from ≤ i → bit_at word i ≡ 0) }
{
    let rest = word >> from;
    if rest == 0 {
        return None;
    }
    Some(from + rest.trailing_zeros() as u64)
}

/// The least member from a frame number on; words of zeros are passed over whole.
#[tactic(auto, using(crate::proofs::Scans::none_yet))]
pub fn next_from(words: &[u64], pfn: u64) -> Option<u64>
    requires { length words.now < 2 ^ 58 }
    ensures found { IfSome result (λ p. (pfn ≤ p) × (pfns_of_words words.now p ≡ true)) }
    ensures least { IfSome result (λ p. (q : ℕ) → pfn ≤ q → q < p → pfns_of_words words.now q ≡ false) }
    ensures none { IfNone result ((q : ℕ) → pfn ≤ q → pfns_of_words words.now q ≡ false) }
{
    let mut low = pfn % 64;
    for index in (pfn / 64) as usize..words.len() {
        if let Some(bit) = bit_from(words[index], low) {
            return Some(64 * index as u64 + bit);
        }
        low = 0;
    }
    None
}

/// How many members the set has, below any width that they are all below.
pub fn count(words: &[u64]) -> u64
    requires { length words.now < 2 ^ 58 }
    ensures { (width : ℕ) → IsBelow width (pfns_of_words words.now) → result ≡ size width (pfns_of_words words.now) }
{
    let mut members = 0;
    for index in 0..words.len() {
        members += words[index].count_ones() as u64;
    }
    members
}
