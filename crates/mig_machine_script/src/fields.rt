ghost use Rattle.std.specs.Prelude.{◌≡◌, ◌==◌, ◌↔◌, ◌∷◌, [], ℕ, List, IfOk, IfNone, IfSome, IsTrue};
ghost use Rattle.mig_machine_script.specs.Common.{position, option_copied};
ghost use Rattle.mig_machine_script.specs.ScriptLines.{fields_in, IsNumber, AreNumbers, IsHex};
ghost use Rattle.mig_machine_script.specs.ScriptFields.{fields_left};

use hex::FromHexError;
use itoa::Buffer;
use mig_bytes::Memory;
use std::alloc::Global;
use std::str;

/// Where the first field ends.
fn field_end(text: &[u8]) -> Option<usize>
    ensures { result ≡ position (λ b. b == 32) text.now }
{
    text.iter().position(|byte| *byte == b' ')
}

/// The first field, and the text of the others, where there are any.
pub(crate) fn first_field(text: &[u8]) -> (&[u8], Option<&[u8]>)
    ensures { fields_in text.now ≡ result.0.now ∷ fields_left (option_copied result.1) }
{
    match field_end(text) {
        Some(end) => (&text[..end], Some(&text[end + 1..])),
        None => (text, None),
    }
}

/// Whether the texts are the same.
fn is_same(text: &str, other: &str) -> bool
    ensures { IsTrue result ↔ (text.now ≡ other.now) }
{
    text == other
}

/// The number that a text spells.
fn number_of_text(text: &str) -> Option<u64>
    ensures some { IfSome result (IsNumber text.now) }
    ensures none { IfNone result ((n : ℕ) → IsNumber text.now n → ⊥) }
{
    let Ok(n) = text.parse::<u64>() else {
        return None;
    };
    let mut digits = Buffer::new();
    if !is_same(text, digits.format(n)) {
        return None;
    }
    Some(n)
}

/// The number that a field spells.
fn number_in(field: &[u8]) -> Option<u64>
    ensures some { IfSome result (IsNumber field.now) }
    ensures none { IfNone result ((n : ℕ) → IsNumber field.now n → ⊥) }
{
    let Ok(text) = str::from_utf8(field) else {
        return None;
    };
    number_of_text(text)
}

/// The number that the first of the fields left spells, and the others.
pub(crate) fn number(rest: Option<&[u8]>) -> Option<(u64, Option<&[u8]>)>
    ensures some { IfSome result (λ r. AreNumbers (fields_left (option_copied rest.entry)) (r.0 ∷ []) (fields_left (option_copied r.1))) }
    ensures none { IfNone result ((n : ℕ) (ns : List ℕ) (others : List (List ℕ)) → AreNumbers (fields_left (option_copied rest.entry)) (n ∷ ns) others → ⊥) }
{
    let (field, behind) = first_field(rest?);
    let n = number_in(field)?;
    Some((n, behind))
}

/// The bytes that the last of the fields left spells.
pub(crate) fn bytes_in(alloc: Global, rest: Option<&[u8]>) -> Result<Option<Vec<u8>>, Memory>
    ensures some { IfOk result (λ found. IfSome found (λ bytes. (hex : List ℕ) × (fields_left (option_copied rest.entry) ≡ hex ∷ []) × IsHex hex bytes.items)) }
    ensures none { IfOk result (λ found. IfNone found ((hex bytes : List ℕ) → fields_left (option_copied rest.entry) ≡ hex ∷ [] → IsHex hex bytes → ⊥)) }
{
    let Some(text) = rest else {
        return Ok(None);
    };
    let (field, behind) = first_field(text);
    if behind.is_some() || field.len() < 2 {
        return Ok(None);
    }
    match hex::decode(alloc, field) {
        Ok(bytes) => Ok(Some(bytes)),
        Err(FromHexError::OutOfMemory) => Err(Memory),
        Err(_) => Ok(None),
    }
}
