ghost use Rattle.std.specs.Prelude.{◌≡◌, ◌≤◌, ◌<◌, ◌+◌, ◌^◌, ◌-◌, List, ℕ, length, fold};
ghost use Rattle.mig_policy.specs.PairFaults.{pairs_fault as fault_of};
ghost use Rattle.mig_relay_bodies.specs.PairPieces.{no_bytes, then_byte, bad_byte, torn_in, fault_in_pairs};

use mig_headers::Cause;
use mig_policy::may_be_in_key;

/// What is known of pairs of texts once some first bytes of it were taken.
#[derive(Clone, Copy, Debug, PartialEq, Eq)]
pub struct Pairs {
    /// How many bytes were taken.
    pub at: u64,
    /// Where the text begins that isn't ended yet.
    pub begins: u64,
    /// Whether it is a value.
    pub odd: bool,
    /// The first byte of a key that isn't allowed, or the zero of an empty key.
    pub bad: Option<u64>,
}

/// Before the first byte.
pub(crate) fn no_pairs() -> Pairs
    ensures { result ≡ no_bytes }
{
    Pairs {
        at: 0,
        begins: 0,
        odd: false,
        bad: None,
    }
}

fn bad_place(pairs: Pairs, byte: u8) -> Option<u64>
    ensures { result ≡ bad_byte pairs byte }
{
    if pairs.odd {
        return None;
    }
    if byte == 0 {
        return if pairs.begins == pairs.at {
            Some(pairs.at)
        } else {
            None
        };
    }
    if may_be_in_key(byte) {
        None
    } else {
        Some(pairs.at)
    }
}

/// With one byte more.
fn behind_byte(pairs: Pairs, byte: u8) -> Pairs
    ensures { pairs.at + 1 < 2 ^ 64 → result ≡ then_byte pairs byte }
{
    let bad = match pairs.bad {
        Some(place) => Some(place),
        None => bad_place(pairs, byte),
    };
    // No body is so long that a place in it is out of 64 bits.
    let at = pairs.at.saturating_add(1);
    if byte == 0 {
        Pairs {
            at,
            begins: at,
            odd: !pairs.odd,
            bad,
        }
    } else {
        Pairs {
            at,
            begins: pairs.begins,
            odd: pairs.odd,
            bad,
        }
    }
}

/// With a piece more.
pub(crate) fn behind_bytes(pairs: Pairs, piece: &[u8]) -> Pairs
    ensures { pairs.at + length piece.now < 2 ^ 64 → result ≡ fold then_byte pairs piece.now }
{
    let mut known = pairs;
    for byte in piece {
        known = behind_byte(known, *byte);
    }
    known
}

/// Where a text begins that isn't ended, or a value that isn't there.
fn torn_place(pairs: Pairs) -> Option<u64>
    ensures { result ≡ torn_in pairs }
{
    if pairs.odd || pairs.begins < pairs.at {
        Some(pairs.begins)
    } else {
        None
    }
}

fn first_fault(pairs: Pairs) -> Option<Cause>
    ensures { result ≡ fault_in_pairs pairs }
{
    if let Some(place) = torn_place(pairs) {
        return Some(Cause::BadPairs(place));
    }
    let place = pairs.bad?;
    Some(Cause::BadKey(place))
}

/// The first fault of pairs that were taken whole.
pub(crate) fn pairs_fault(pairs: Pairs) -> Option<Cause>
    ensures { (bytes : List ℕ) → pairs ≡ fold then_byte no_bytes bytes → result ≡ fault_of bytes }
{
    first_fault(pairs)
}
