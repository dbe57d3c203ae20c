ghost use Rattle.std.specs.Prelude.{◌≡◌, ◌≤◌, ◌<◌, ◌^◌, None, length, OnOk, OnErr, IfOk, IsErrOf};
ghost use Rattle.std.specs.FinMap as maps;
ghost use Rattle.mig_policy.specs.PairFaults.{pairs_fault};
ghost use Rattle.mig_policy.specs.PairMaps.{text_of_map, pairs_key, part_bytes, merged, merged_at, with_pairs};
ghost use Rattle.mig_policy.specs.declared.pair_map.PairsAnswer.TheVariants.{TooMany};
ghost use Rattle.mig_policy.specs.Common.{most_pairs};

use crate::pair_map::{PairMap, PairsAnswer};
use mig_bytes::Memory;
use mig_guest::{EMULATOR_PAIRS, Guest, PartKey};
use std::alloc::Global;

/// The pairs of a part and those added to it.
fn merged_map(alloc: Global, part: &[u8], bytes: &[u8]) -> Result<PairMap, Memory>
    ensures { IfOk result (λ map. map ≡ merged part.now bytes.now) }
{
    let mut map = PairMap::new(alloc);
    map.add_all(part)?;
    map.add_all(bytes)?;
    Ok(map)
}

/// The text of the pairs of a part and of those added to it.
fn merged_text(alloc: Global, part: &[u8], bytes: &[u8]) -> Result<Vec<u8>, PairsAnswer>
    ensures ok { IfOk result (λ text. text.items ≡ text_of_map (merged part.now bytes.now)) }
    ensures fits { IfOk result (λ text. length (text_of_map (merged part.now bytes.now)) ≤ most_pairs) }
    ensures too_many { IsErrOf result TooMany → most_pairs < length (text_of_map (merged part.now bytes.now)) }
{
    let Ok(map) = merged_map(alloc, part, bytes) else {
        return Err(PairsAnswer::Memory);
    };
    if !map.fits() {
        return Err(PairsAnswer::TooMany);
    }
    match map.text() {
        Ok(text) => Ok(text),
        Err(Memory) => Err(PairsAnswer::Memory),
    }
}

/// The bytes of a part; none where it isn't there.
fn bytes_of(guest: &Guest, key: PartKey) -> &[u8]
    ensures { result.now ≡ part_bytes (maps.get guest.now.parts key) }
{
    match guest.part(key) {
        Some(part) => part,
        None => &[],
    }
}

/// Adds pairs of the emulator with this id and index to those that it has; the last value of a key decides. No bytes
/// set nothing. Where the pairs spell more than 2^24 bytes, or no memory is found, the guest stays.
pub fn merge_pairs(
    alloc: Global,
    guest: &mut Guest,
    id: u32,
    index: u32,
    bytes: &[u8],
) -> Result<(), PairsAnswer>
    requires { pairs_fault bytes.now ≡ None }
    ensures ok { OnOk result (guest.new ≡ record guest.old { parts = with_pairs guest.old.parts (pairs_key id index) bytes.now }) }
    ensures fits { OnOk result (length (text_of_map (merged_at guest.old.parts (pairs_key id index) bytes.now)) ≤ most_pairs) }
    ensures too_many { IsErrOf result TooMany → most_pairs < length (text_of_map (merged_at guest.old.parts (pairs_key id index) bytes.now)) }
    ensures err { OnErr result (guest.new ≡ guest.old) }
{
    let key = PartKey {
        code: EMULATOR_PAIRS,
        key1: id,
        key2: index,
    };
    let text = merged_text(alloc, bytes_of(guest, key), bytes)?;
    if bytes.is_empty() {
        return Ok(());
    }
    match guest.set_part(key, &text) {
        Ok(()) => Ok(()),
        Err(Memory) => Err(PairsAnswer::Memory),
    }
}
