ghost use Rattle.std.specs.declared.ops.Bound.TheVariants.{Included, Excluded, Unbounded};
ghost use Rattle.std.specs.Prelude.{◌≡◌, ◌==◌, ℕ, ◌+◌, ◌≤◌, length, not, OnOk, OnErr, IfSome, IfNone, IsSome, None, option_and_then};
ghost use Rattle.mig_guest.specs.Common.{option_copied, option_copied_mut, option_map, sem, spliced};
ghost use Rattle.std.specs.BTreeMap as tree;
ghost use Rattle.std.specs.FinMap as maps;
ghost use Rattle.mig_guest.specs.declared.part_key.PartKey.{PartKey};
ghost use Rattle.mig_guest.specs.Parts.{NextPart, NextBehind, NextKey};
ghost use Rattle.mig_guest.specs.Lending.{LendsBytes};

use crate::part_key::PartKey;
use mig_bytes::Memory;
use std::alloc::Global;
use std::collections::BTreeMap;
use std::marker::Model;
use std::ops::Bound;

/// Parts by key: the bytes of each.
#[derive(Drop)]
pub struct Parts {
    alloc: Global,
    parts: BTreeMap<PartKey, Vec<u8>>,
}

impl Model for Parts {
    ghost use Rattle.mig_guest.specs.Parts.{PartMap, parts_code};

    ghost Value = { PartMap };

    ghost coded = { parts_code };

    ghost use Rattle.mig_guest.specs.Parts.{parts_seen};

    ghost view = { λ p. parts_seen p.parts.entries };
}

/// Writes `bytes` over those from `at` on.
fn write_over(part: &mut [u8], at: usize, bytes: &[u8])
    requires { at + length bytes.now ≤ length part.old }
    ensures { part.new ≡ spliced part.old at bytes.now }
{
    part[at..at + bytes.len()].copy_from_slice(bytes);
}

/// Lends the bytes, which keep their number.
pub(crate) fn bytes_mut(part: &mut Vec<u8>) -> &mut [u8]
    ensures* writes_back { sem 𝓛 (LendsBytes part.entry result) }
    ensures value { result.now ≡ part.old.items }
{
    part.as_mut_slice()
}

/// Where the parts of a code begin: behind this key, or at the least key of the code.
fn start_of(code: u32, after: Option<PartKey>) -> Bound<PartKey>
    ensures behind { IfSome after (λ k. result ≡ Excluded k) }
    ensures least { IfNone after (result ≡ Included (record { code = code; key1 = 0; key2 = 0 })) }
{
    match after {
        Some(key) => Bound::Excluded(key),
        None => Bound::Included(PartKey {
            code,
            key1: 0,
            key2: 0,
        }),
    }
}

/// Behind this key, or everywhere.
fn behind(after: Option<PartKey>) -> Bound<PartKey>
    ensures some { IfSome after (λ k. result ≡ Excluded k) }
    ensures none { IfNone after (result ≡ Unbounded) }
{
    let Some(key) = after else {
        return Bound::Unbounded;
    };
    Bound::Excluded(key)
}

impl Parts {
    ghost use Rattle.mig_guest.specs.Lending.{LendsPart};

    /// No parts.
    pub fn new(alloc: Global) -> Parts
        ensures { result ≡ maps.empty }
    {
        Parts {
            alloc,
            parts: BTreeMap::new(alloc),
        }
    }

    /// The bytes of a part; none where it isn't there.
    pub fn get(&self, key: PartKey) -> Option<&[u8]>
        ensures { option_copied result ≡ maps.get self.now key }
    {
        match self.parts.get(&key) {
            Some(bytes) => Some(bytes.as_slice()),
            None => None,
        }
    }

    /// Sets the bytes of a part; where no memory is found, the parts stay.
    pub fn set(&mut self, key: PartKey, bytes: &[u8]) -> Result<(), Memory>
        ensures ok { OnOk result (self.new ≡ maps.insert self.old key bytes.now) }
        ensures err { OnErr result (self.new ≡ self.old) }
    {
        let Ok(copy) = bytes.to_vec(self.alloc) else {
            return Err(Memory);
        };
        match self.parts.insert(key, copy) {
            Ok(_) => Ok(()),
            Err(_) => Err(Memory),
        }
    }

    /// Lends the bytes of a part as they are kept.
    pub(crate) fn lend(&mut self, key: PartKey) -> Option<&mut Vec<u8>>
        ensures* writes_back { sem 𝓛 (LendsPart self.entry key result) }
        ensures value { option_map (λ v. v.items) (option_copied_mut result) ≡ maps.get self.old key }
    {
        self.parts.get_mut(&key)
    }

    /// Writes `bytes` over those of one part from its byte `at` on.
    pub fn write(&mut self, key: PartKey, at: usize, bytes: &[u8])
        requires range { IfSome (maps.get self.old key) (λ part. at + length bytes.now ≤ length part) }
        requires there { IsSome (maps.get self.old key) }
        ensures { IfSome (maps.get self.old key) (λ part. self.new ≡ maps.insert self.old key (spliced part at bytes.now)) }
    {
        let part = self.parts.get_mut(&key).unwrap();
        write_over(part, at, bytes);
    }

    /// The least key of a part that is above `after`, or of all parts.
    pub fn next(&self, after: Option<PartKey>) -> Option<PartKey>
        ensures { NextKey self.now after result }
    {
        match self.next_behind(after) {
            Some((key, _)) => Some(key),
            None => None,
        }
    }

    /// The part with the least key among those of this code that are above `after`, or among all of them.
    pub fn next_of_code(&self, code: u32, after: Option<PartKey>) -> Option<(PartKey, &[u8])>
        requires { IfSome after (λ k. k.code ≡ code) }
        ensures { NextPart code after (maps.entries self.now) (option_map (λ e. (e.0, e.1.now)) result) }
    {
        let start = start_of(code, after);
        match self.parts.range((start, Bound::Unbounded)).next() {
            Some((key, bytes)) => {
                if key.code != code {
                    return None;
                }
                Some((*key, bytes.as_slice()))
            }
            None => None,
        }
    }

    /// The part with the least key above `after`, or of all parts, with its bytes.
    pub fn next_behind(&self, after: Option<PartKey>) -> Option<(PartKey, &[u8])>
        ensures { NextBehind after (maps.entries self.now) (option_map (λ e. (e.0, e.1.now)) result) }
    {
        let start = behind(after);
        let mut others = self.parts.range((start, Bound::Unbounded));
        match others.next() {
            Some((part, bytes)) => Some((*part, bytes.as_slice())),
            None => None,
        }
    }

    /// Takes all parts of a code away.
    pub(crate) fn clear_code(&mut self, code: u32)
        ensures { self.new ≡ maps.retain_keys self.old (λ k. not (k.code == code)) }
    {
        self.parts.retain(
            |key: &PartKey, value: &mut Vec<u8>| -> bool
                ensures answer { result ≡ not (key.now.code == code) }
                ensures kept { value.new ≡ value.old }
            { key.code != code },
        );
    }
}
