ghost use Rattle.std.specs.Prelude.{◌≡◌, ◌<◌, ◌+◌, ◌==◌, [], ◌∷◌, ◌++◌, length, IfNone, IfSome};
ghost use Rattle.mig_policy.specs.Common.{position, texts_in};
ghost use Rattle.mig_policy.specs.PairMaps.{pairs_in};

/// Where the first zero is.
fn first_zero(bytes: &[u8]) -> Option<usize>
    ensures { result ≡ position (λ b. b == 0) bytes.now }
{
    bytes.iter().position(|byte| *byte == 0)
}

/// What is before the first zero, and what is behind it.
pub(crate) fn split_text(bytes: &[u8]) -> Option<(&[u8], &[u8])>
    ensures none { IfNone result (texts_in bytes.now ≡ bytes.now ∷ []) }
    ensures some { IfSome result (λ r. texts_in bytes.now ≡ r.0.now ∷ texts_in r.1.now) }
    ensures parts { IfSome result (λ r. bytes.now ≡ r.0.now ++ 0 ∷ r.1.now) }
    ensures len { IfSome result (λ r. length r.0.now + length r.1.now + 1 ≡ length bytes.now) }
{
    let end = first_zero(bytes)?;
    Some((&bytes[..end], &bytes[end + 1..]))
}

/// The key and the value of the first pair, and what is behind it.
pub(crate) fn split_pair(bytes: &[u8]) -> Option<(&[u8], &[u8], &[u8])>
    ensures none { IfNone result (pairs_in bytes.now ≡ []) }
    ensures some { IfSome result (λ r. pairs_in bytes.now ≡ record { key = r.0.now; value = r.1.now } ∷ pairs_in r.2.now) }
    ensures len { IfSome result (λ r. length r.0.now + length r.1.now + length r.2.now + 2 ≡ length bytes.now) }
{
    let (key, behind) = split_text(bytes)?;
    let (value, rest) = split_text(behind)?;
    Some((key, value, rest))
}
