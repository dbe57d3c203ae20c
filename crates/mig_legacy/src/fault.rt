ghost use Rattle.std.specs.Prelude.{◌≡◌, ◌≤◌, ◌==◌, length, IfNone, IfSome};
ghost use Rattle.std.specs.List.{position};
ghost use Rattle.mig_legacy.specs.Judged.{is_name as name_is, entry_fault as fault_of, entry_len as len_of};

use mig_bytes::u32_le;

/// Where the first zero is.
fn first_zero(bytes: &[u8]) -> Option<usize>
    ensures { result ≡ position (λ b. b == 0) bytes.now }
{
    bytes.iter().position(|byte| *byte == 0)
}

/// Whether these are no bytes, or a name with its zero behind it.
#[tactic(auto, using(crate::proofs::Names::name_ends, crate::proofs::Names::no_name_ends))]
fn is_name(bytes: &[u8]) -> bool
    ensures { result ≡ name_is bytes.now }
{
    match first_zero(bytes) {
        Some(end) => end + 1 == bytes.len(),
        None => bytes.is_empty(),
    }
}

/// How long the entry at the front is.
pub(crate) fn entry_len(bytes: &[u8]) -> usize
    requires { 28 ≤ length bytes.now }
    ensures { result ≡ len_of bytes.now }
{
    32 + u32_le(bytes, 24) as usize
}

/// Where the first wrong field of the entry at the front is.
#[tactic(auto, unfolding(crate::specs::Judged::entry_fault))]
pub(crate) fn entry_fault(bytes: &[u8]) -> Option<usize>
    ensures value { result ≡ fault_of bytes.now }
    ensures whole { IfNone result (len_of bytes.now ≤ length bytes.now) }
    ensures within { IfSome result (λ field. field ≤ length bytes.now) }
{
    if bytes.len() < 28 {
        return Some(bytes.len() / 8 * 8);
    }
    let len = u32_le(bytes, 24) as usize;
    if bytes.len() - 28 < len || !is_name(&bytes[28..28 + len]) {
        return Some(28);
    }
    if bytes.len() - 28 - len < 4 {
        return Some(28 + len);
    }
    None
}
