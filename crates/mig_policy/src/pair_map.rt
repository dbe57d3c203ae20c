ghost use Rattle.std.specs.Prelude.{◌≡◌, ◌≤◌, ◌<◌, ◌^◌, ◌+◌, ◌++◌, true, false, length, OnOk, OnErr, IfOk, IsErrOf};
ghost use Rattle.std.specs.FinMap as maps;
ghost use Rattle.mig_policy.specs.PairMaps.{AreBegun, put_pairs, pairs_in, text_of_map, text_of_entry};
ghost use Rattle.mig_policy.specs.declared.pair_map.PairsAnswer.TheVariants.{TooMany};
ghost use Rattle.mig_policy.specs.Common.{most_pairs};

use crate::texts::split_pair;
use mig_bytes::Memory;
use mig_guest::MOST_PAIRS;
use std::alloc::Global;
use std::collections::BTreeMap;
use std::marker::Model;
use thiserror::Error;

/// Why pairs aren't added.
#[derive(Clone, Copy, Debug, PartialEq, Eq, Error)]
pub enum PairsAnswer {
    /// The pairs, the earlier ones included, spell more than `MOST_PAIRS` bytes.
    #[error("the pairs spell too many bytes")]
    TooMany,
    /// There was no memory.
    #[error("no memory was found")]
    Memory,
}

/// Values by their keys, as an emulator's records set them one after another; of each key the last decides.
#[derive(Drop)]
pub struct PairMap {
    alloc: Global,
    pairs: BTreeMap<Vec<u8>, Vec<u8>>,

    // How many bytes the pairs spell.
    len: usize,
}

impl Model for PairMap {
    ghost use Rattle.std.specs.Prelude.{◌≡◌, length, map, T};
    ghost use Rattle.std.specs.Ordering.{nat_cmp};
    ghost use Rattle.std.specs.Cmp.Lexicographic.{slice_cmp};
    ghost use Rattle.std.specs.FinMap.Entries.{is_sorted};
    ghost use Rattle.mig_policy.specs.PairMaps as pair_maps;

    ghost Value = { pair_maps.PairMap };

    ghost coded = { pair_maps.pairs_code };

    ghost view = { λ p. pair_maps.pairs_seen p.pairs.entries };

    ghost invariant = { λ p. T (is_sorted (slice_cmp nat_cmp) (map pair_maps.shown p.pairs.entries)) × (p.len ≡ length (pair_maps.text_of_map (pair_maps.pairs_seen p.pairs.entries))) };
}

/// Puts the text of one pair at the end.
fn put_text(text: &mut Vec<u8>, key: &[u8], value: &[u8]) -> Result<(), Memory>
    ensures ok { OnOk result (text.new.items ≡ text.old.items ++ text_of_entry (key.now, value.now)) }
{
    if text.extend_from_slice(key).is_err()
        || text.push(0).is_err()
        || text.extend_from_slice(value).is_err()
        || text.push(0).is_err()
    {
        return Err(Memory);
    }
    Ok(())
}

impl PairMap {
    /// A map without pairs.
    pub fn new(alloc: Global) -> PairMap
        ensures { result ≡ maps.empty }
    {
        PairMap {
            alloc,
            pairs: BTreeMap::new(alloc),
            len: 0,
        }
    }

    /// Sets one pair, in place of the one of its key. Where no memory is found, the pairs stay.
    fn set(&mut self, key: &[u8], value: &[u8]) -> Result<(), Memory>
        requires { length (text_of_map self.old) + length key.now + length value.now + 2 < 2 ^ 64 }
        ensures ok { OnOk result (self.new ≡ maps.insert self.old key.now value.now) }
        ensures longer { OnOk result (length (text_of_map self.new) ≤ length (text_of_map self.old) + length key.now + length value.now + 2) }
        ensures err { OnErr result (self.new ≡ self.old) }
    {
        let Ok(own_key) = key.to_vec(self.alloc) else {
            return Err(Memory);
        };
        let Ok(own_value) = value.to_vec(self.alloc) else {
            return Err(Memory);
        };
        match self.pairs.insert(own_key, own_value) {
            Ok(Some(old)) => {
                self.len = self.len + value.len() - old.len();
                Ok(())
            }
            Ok(None) => {
                self.len += key.len() + value.len() + 2;
                Ok(())
            }
            Err(_) => Err(Memory),
        }
    }

    /// Adds the pairs of these bytes, however long their text becomes. Where no memory is found, the first of them are
    /// there.
    pub(crate) fn add_all(&mut self, bytes: &[u8]) -> Result<(), Memory>
        requires { length (text_of_map self.old) + length bytes.now < 2 ^ 64 }
        ensures ok { OnOk result (self.new ≡ put_pairs self.old (pairs_in bytes.now)) }
        ensures longer { OnOk result (length (text_of_map self.new) ≤ length (text_of_map self.old) + length bytes.now) }
        ensures err { OnErr result (AreBegun self.old self.new (pairs_in bytes.now)) }
    {
        let mut rest = bytes;
        while let Some((key, value, behind)) = split_pair(rest) {
            self.set(key, value)?;
            rest = behind;
        }
        Ok(())
    }

    /// Whether the text is no longer than an emulator's pairs may be.
    pub(crate) fn fits(&self) -> bool
        ensures fits { result ≡ true → length (text_of_map self.now) ≤ most_pairs }
        ensures too_many { result ≡ false → most_pairs < length (text_of_map self.now) }
    {
        self.len <= MOST_PAIRS as usize
    }

    /// Adds the pairs of these bytes. After an error some of them are there, from the first on: all where they are too
    /// many.
    pub fn add(&mut self, bytes: &[u8]) -> Result<(), PairsAnswer>
        requires small { length (text_of_map self.old) ≤ most_pairs }
        ensures ok { OnOk result (self.new ≡ put_pairs self.old (pairs_in bytes.now)) }
        ensures fits { OnOk result (length (text_of_map self.new) ≤ most_pairs) }
        ensures too_many { IsErrOf result TooMany → most_pairs < length (text_of_map (put_pairs self.old (pairs_in bytes.now))) }
        ensures all { IsErrOf result TooMany → self.new ≡ put_pairs self.old (pairs_in bytes.now) }
        ensures err { OnErr result (AreBegun self.old self.new (pairs_in bytes.now)) }
    {
        let Ok(()) = self.add_all(bytes) else {
            return Err(PairsAnswer::Memory);
        };
        if !self.fits() {
            return Err(PairsAnswer::TooMany);
        }
        Ok(())
    }

    /// The bytes that spell the pairs, in ascending order of their keys.
    pub fn text(&self) -> Result<Vec<u8>, Memory>
        ensures { IfOk result (λ text. text.items ≡ text_of_map self.now) }
    {
        let Ok(mut text) = Vec::with_capacity(self.alloc, self.len) else {
            return Err(Memory);
        };
        for (key, value) in &self.pairs {
            put_text(&mut text, key.as_slice(), value.as_slice())?;
        }
        Ok(text)
    }
}
