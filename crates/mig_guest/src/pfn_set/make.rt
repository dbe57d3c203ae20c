ghost use Rattle.std.specs.Prelude.{◌≡◌, ℕ, ◌+◌, ◌-◌, ◌*◌, ◌/◌, ◌^◌, ◌<◌, ◌≤◌, length, IfOk};
ghost use Rattle.mig_guest.specs.Common.{bit_at};
ghost use Rattle.mig_guest.specs.Pfns.{pfns_of_words, no_pfns, all_below};

use std::alloc::{AllocError, Global};

/// A word of which so many of the lowest bits are set, or all 64.
fn low_bits(bits: u64) -> u64
    ensures below { (i : ℕ) → i < 64 → i < bits → bit_at result i ≡ 1 }
    ensures above { (i : ℕ) → i < 64 → bits ≤ i → bit_at result i ≡ 0 }
{
    if bits < 64 { (1 << bits) - 1 } else { u64::MAX }
}

/// All frame numbers below the width become members, and no others.
#[tactic(auto, using(crate::proofs::Fills::filled_more, crate::proofs::Fills::all_filled))]
fn fill(words: &mut [u64], width: u64)
    requires { length words.old ≡ (width + 63) / 64 }
    ensures { pfns_of_words words.new ≡ all_below width }
{
    for index in 0..words.len() {
        words[index] = low_bits(width - 64 * index as u64);
    }
}

/// A set without members, with room for frame numbers below the width.
pub fn none(alloc: Global, width: u64) -> Result<Vec<u64>, AllocError>
    requires { width < 2 ^ 63 }
    ensures set { IfOk result (λ words. pfns_of_words words.items ≡ no_pfns) }
    ensures size { IfOk result (λ words. length words.items ≡ (width + 63) / 64) }
{
    vec![in alloc; 0; ((width + 63) / 64) as usize]
}

/// All frame numbers below the width.
pub fn all(alloc: Global, width: u64) -> Result<Vec<u64>, AllocError>
    requires { width < 2 ^ 63 }
    ensures set { IfOk result (λ words. pfns_of_words words.items ≡ all_below width) }
    ensures size { IfOk result (λ words. length words.items ≡ (width + 63) / 64) }
{
    let mut words = none(alloc, width)?;
    fill(&mut words, width);
    Ok(words)
}
