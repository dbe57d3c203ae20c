ghost use Rattle.std.specs.Prelude.{◌≡◌, ◌≤◌, ◌<◌, ◌==◌, [], ◌∷◌, ◌++◌, length, not, OnOk, codes};
ghost use Rattle.std.specs.List.{flat_map, position};
ghost use Rattle.mig_legacy.specs.Common.{text_of_pair};
ghost use Rattle.mig_legacy.specs.Judged.{entry_len, entry_in, name_in};
ghost use Rattle.mig_legacy.specs.Texts.{hexadecimal, physmap_pair, name_pairs, pairs_of_physmap, without_zeros};

use mig_bytes::{Memory, u32_le, u64_le};

/// Puts bytes at the end.
pub fn put(text: &mut Vec<u8>, bytes: &[u8]) -> Result<(), Memory>
    ensures ok { OnOk result (text.new.items ≡ text.old.items ++ bytes.now) }
{
    if text.extend_from_slice(bytes).is_err() {
        return Err(Memory);
    }
    Ok(())
}

/// Where the first digit is that isn't 0.
fn first_but_zero(digits: &[u8]) -> Option<usize>
    ensures { result ≡ position (λ d. not (d == 48)) digits.now }
{
    digits.iter().position(|digit| *digit != b'0')
}

/// The digits without the zeros at their front; the last stays.
#[tactic(auto, using(crate::proofs::Names::from_first, crate::proofs::Names::from_last))]
fn strip_zeros(digits: &[u8]) -> &[u8]
    requires { 0 < length digits.now }
    ensures { result.now ≡ without_zeros digits.now }
{
    match first_but_zero(digits) {
        Some(first) => &digits[first..],
        None => &digits[digits.len() - 1..],
    }
}

/// Puts a number in lower-case hexadecimal digits at the end.
#[tactic(auto, unfolding(crate::specs::Texts::hexadecimal))]
fn put_hexadecimal(text: &mut Vec<u8>, number: u64) -> Result<(), Memory>
    ensures ok { OnOk result (text.new.items ≡ text.old.items ++ hexadecimal number) }
{
    let mut digits = [0; 16];
    let Ok(()) = hex::encode_to_slice(number.to_be_bytes(), &mut digits) else {
        unreachable!()
    };
    put(text, strip_zeros(&digits))
}

/// Puts the key of a field at the end, and its zero.
fn put_key(text: &mut Vec<u8>, phys: u64, field: &[u8]) -> Result<(), Memory>
    ensures ok { OnOk result (text.new.items ≡ text.old.items ++ ((codes "physmap/" ++ (hexadecimal phys ++ (codes "/" ++ field.now))) ++ 0 ∷ [])) }
{
    put(text, b"physmap/")?;
    put_hexadecimal(text, phys)?;
    put(text, b"/")?;
    put(text, field)?;
    put(text, &[0])
}

/// Puts a pair at the end whose value is a number.
fn put_number(text: &mut Vec<u8>, phys: u64, field: &[u8], number: u64) -> Result<(), Memory>
    ensures ok { OnOk result (text.new.items ≡ text.old.items ++ text_of_pair (physmap_pair phys field.now (hexadecimal number))) }
{
    put_key(text, phys, field)?;
    put_hexadecimal(text, number)?;
    put(text, &[0])
}

/// Puts the pair of the name whose bytes these are at the end, where there is a name.
fn put_name(text: &mut Vec<u8>, phys: u64, bytes: &[u8]) -> Result<(), Memory>
    ensures ok { OnOk result (text.new.items ≡ text.old.items ++ flat_map text_of_pair (name_pairs phys (name_in bytes.now))) }
{
    if bytes.is_empty() {
        return Ok(());
    }
    put_key(text, phys, b"name")?;
    put(text, &bytes[..bytes.len() - 1])?;
    put(text, &[0])
}

/// Puts the pairs of the entry at the front of these bytes at the end.
pub(crate) fn put_physmap(text: &mut Vec<u8>, bytes: &[u8]) -> Result<(), Memory>
    requires { entry_len bytes.now ≤ length bytes.now }
    ensures ok { OnOk result (text.new.items ≡ text.old.items ++ flat_map text_of_pair (pairs_of_physmap (entry_in bytes.now))) }
{
    let phys = u64_le(bytes, 0);
    put_number(text, phys, b"start_addr", u64_le(bytes, 8))?;
    put_number(text, phys, b"size", u64_le(bytes, 16))?;
    let len = u32_le(bytes, 24) as usize;
    put_name(text, phys, &bytes[28..28 + len])
}
