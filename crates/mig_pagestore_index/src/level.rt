ghost use Rattle.std.specs.Prelude.{◌≡◌, ◌+◌, ◌-◌, ◌*◌, ◌<◌, ◌≤◌, ℕ, slice_set, slice_index, length, OnOk, IfSome, IfNone};
ghost use Rattle.mig_pagestore_index.specs.Leaves.{step, IsLevel};
ghost use Rattle.mig_pagestore_index.specs.Tree.{HasSpare};

use std::alloc::{AllocError, Global};

/// How many places a leaf has.
const PLACES: usize = 512;

/// There are no more leaves than this.
const MOST: usize = 1 << 31;

/// Leaves of 512 places, one behind another. Those from `used` on are spare: there, and empty.
#[derive(Drop)]
pub(crate) struct Level {
    pub(crate) cells: Vec<u64>,
    pub(crate) used: usize,
}

impl Level {
    /// What is at a place of a leaf; 0 where there is no leaf.
    pub(crate) fn get(&self, node: u64, place: usize) -> u64
        requires sound { IsLevel self.now.cells.items self.now.used }
        requires node { node ≤ self.now.used }
        requires place { place < 512 }
        ensures { result ≡ step self.now.cells.items node place }
    {
        if node == 0 {
            return 0;
        }
        self.cells[(node as usize - 1) * PLACES + place]
    }

    /// The least place of a leaf, from this one on, that has a value, with the value.
    pub(crate) fn next(&self, node: u64, from: usize) -> Option<(usize, u64)>
        requires sound { IsLevel self.now.cells.items self.now.used }
        requires node { (0 < node) × (node ≤ self.now.used) }
        requires from { from ≤ 512 }
        ensures none { IfNone result ((j : ℕ) → from ≤ j → j < 512 → step self.now.cells.items node j ≡ 0) }
        ensures least { IfSome result (λ e. (from ≤ e.0) × (e.0 < 512) × (0 < e.1) × (step self.now.cells.items node e.0 ≡ e.1) × ((j : ℕ) → from ≤ j → j < e.0 → step self.now.cells.items node j ≡ 0)) }
    {
        for place in from..PLACES {
            let value = self.get(node, place);
            if value > 0 {
                return Some((place, value));
            }
        }
        None
    }

    /// Puts a value at a place of a leaf.
    pub(crate) fn set(&mut self, node: u64, place: usize, value: u64)
        requires sound { IsLevel self.old.cells.items self.old.used }
        requires node { (0 < node) × (node ≤ self.old.used) }
        requires place { place < 512 }
        ensures cells { self.new.cells.items ≡ slice_set self.old.cells.items ((node - 1) * 512 + place) value }
        ensures used { self.new.used ≡ self.old.used }
    {
        self.cells[(node as usize - 1) * PLACES + place] = value;
    }

    /// Takes a spare leaf into use.
    pub(crate) fn open(&mut self) -> u64
        requires sound { IsLevel self.old.cells.items self.old.used }
        requires spare { HasSpare self.old.cells.items self.old.used 1 }
        ensures cells { self.new.cells ≡ self.old.cells }
        ensures used { self.new.used ≡ self.old.used + 1 }
        ensures node { result ≡ self.old.used + 1 }
    {
        self.used += 1;
        self.used as u64
    }

    /// No leaves.
    pub(crate) fn new(alloc: Global) -> Level
        ensures sound { IsLevel result.cells.items result.used }
        ensures unused { result.used ≡ 0 }
    {
        Level {
            cells: Vec::new(alloc),
            used: 0,
        }
    }

    /// Makes ready at least so many spare leaves.
    pub(crate) fn reserve(&mut self, more: usize) -> Result<(), AllocError>
        requires sound { IsLevel self.old.cells.items self.old.used }
        ensures sound { IsLevel self.new.cells.items self.new.used }
        ensures used { self.new.used ≡ self.old.used }
        ensures same { (i : ℕ) → slice_index self.new.cells.items i ≡ slice_index self.old.cells.items i }
        ensures kept { length self.old.cells.items ≤ length self.new.cells.items }
        ensures ready { OnOk result (HasSpare self.new.cells.items self.new.used more) }
    {
        if more >= MOST - self.used {
            return Err(AllocError);
        }
        let wanted = (self.used + more) * PLACES;
        if self.cells.len() < wanted {
            self.cells.resize(wanted, 0)?;
        }
        Ok(())
    }
}
