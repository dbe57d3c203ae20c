ghost use Rattle.std.specs.Prelude.{◌≡◌, ◌==◌, ◌||◌, false, not, length, nat_lt};
ghost use Rattle.mig_policy.specs.Common.{position, is_key_byte, texts_in};
ghost use Rattle.mig_policy.specs.PairFaults.{torn_at, bad_key_at, fine_len, pairs_fault as fault_of, IsFirstFault};

use crate::pairs::may_be_in_key;
use crate::texts::split_text;
use mig_headers::Cause;

/// Where the first byte is that no key may have.
fn first_not_allowed(key: &[u8]) -> Option<usize>
    ensures { result ≡ position (λ b. not (is_key_byte b)) key.now }
{
    key.iter().position(|byte| !may_be_in_key(*byte))
}

/// How many bytes are before the first that no key may have.
fn allowed_len(key: &[u8]) -> usize
    ensures { result ≡ fine_len key.now }
{
    match first_not_allowed(key) {
        Some(at) => at,
        None => key.len(),
    }
}

/// Whether a key with so many allowed bytes at its front has another, or none at all.
fn is_bad(key: &[u8], allowed: usize) -> bool
    ensures { result ≡ ((length key.now == 0) || nat_lt allowed (length key.now)) }
{
    key.is_empty() || allowed < key.len()
}

/// Where a text begins that no zero ends, or a value should begin that isn't there.
fn torn_place(bytes: &[u8]) -> Option<u64>
    ensures { result ≡ torn_at false 0 (texts_in bytes.now) }
{
    let mut rest = bytes;
    let mut odd = false;
    while let Some((_, behind)) = split_text(rest) {
        rest = behind;
        odd = !odd;
    }
    if odd || !rest.is_empty() {
        Some((bytes.len() - rest.len()) as u64)
    } else {
        None
    }
}

/// Where the first byte of a key is that isn't allowed, or the zero of an empty key.
fn bad_key_place(bytes: &[u8]) -> Option<u64>
    ensures { result ≡ bad_key_at 0 (texts_in bytes.now) }
{
    let mut rest = bytes;
    while let Some((key, behind)) = split_text(rest) {
        let allowed = allowed_len(key);
        if is_bad(key, allowed) {
            return Some((bytes.len() - rest.len() + allowed) as u64);
        }
        let Some((_, next)) = split_text(behind) else {
            return None;
        };
        rest = next;
    }
    None
}

/// The first fault of bytes that are to be pairs of texts.
#[tactic(auto, unfolding(crate::specs::PairFaults::pairs_fault))]
fn first_fault(bytes: &[u8]) -> Option<Cause>
    ensures { result ≡ fault_of bytes.now }
{
    if let Some(place) = torn_place(bytes) {
        return Some(Cause::BadPairs(place));
    }
    let place = bad_key_place(bytes)?;
    Some(Cause::BadKey(place))
}

/// The first fault of bytes that are to be pairs of texts (libxl migration stream, "EMULATOR_XENSTORE_DATA"). It is
/// where a text begins that no zero ends, or the end of the bytes where a value is missing. Where there is no such
/// place, it is the first byte of a key that isn't allowed, or the zero of an empty key.
pub fn pairs_fault(bytes: &[u8]) -> Option<Cause>
    ensures value { result ≡ fault_of bytes.now }
    ensures first { IsFirstFault bytes.now result }
{
    first_fault(bytes)
}
