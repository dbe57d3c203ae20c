ghost use Rattle.std.specs.Prelude.{◌≡◌, ◌+◌, ◌*◌, ◌/◌, ◌^◌, ◌<◌, ◌≤◌, ℕ, slice_index, length, OnOk, IfSome, IfNone};
ghost use Rattle.mig_pagestore_index.specs.Leaves.{IsLevel};
ghost use Rattle.mig_pagestore_index.specs.Tree.{leaf, found, IsTreeOf, HasRoom, IsOneLess, IsAsFull, IsKept, Sets};
ghost use Rattle.mig_pagestore_index.specs.Directories.{leaf_at};

use crate::directory::Directory;
use crate::level::Level;
use std::alloc::{AllocError, Global};

/// How many values a leaf has.
const PLACES: u64 = 512;

/// Values above 0 by numbers below 2^52, in leaves of 512 values: a directory tells of each 512 numbers their leaf.
#[derive(Drop)]
pub(crate) struct Tree {
    pub(crate) directory: Directory,
    pub(crate) leaves: Level,
}

impl Tree {
    /// No values and no leaves, without memory.
    pub(crate) fn new(alloc: Global) -> Tree
        ensures sound { IsTreeOf result }
        ensures empty { (q : ℕ) → found result q ≡ 0 }
    {
        Tree {
            directory: Directory::new(alloc),
            leaves: Level::new(alloc),
        }
    }

    /// The value of this number, and 0 where there is none.
    pub(crate) fn get(&self, number: u64) -> u64
        requires sound { IsTreeOf self.now }
        ensures { result ≡ found self.now number }
    {
        let node = self.directory.get(number / PLACES);
        self.leaves.get(node, (number % PLACES) as usize)
    }

    /// The leaf for these numbers; a spare one is taken into use where they have none.
    fn leaf_for(&mut self, key: u64) -> u64
        requires sound { IsTreeOf self.old }
        requires small { key < 2 ^ 43 }
        requires room { leaf self.old key ≡ 0 → HasRoom self.old 1 }
        ensures sound { IsTreeOf self.new }
        ensures leaf { (0 < result) × (result ≡ leaf self.new key) }
        ensures same { (q : ℕ) → found self.new q ≡ found self.old q }
        ensures taken { IsOneLess self.old self.new }
        ensures kept { 0 < leaf self.old key → self.new ≡ self.old }
    {
        let there = self.directory.get(key);
        if there > 0 {
            return there;
        }
        let node = self.leaves.open();
        self.directory.put(key, node);
        node
    }

    /// Sets the value of a number, and takes no memory; 0 takes the value away. The answer is the value that it had, and 0
    /// where it had none.
    pub(crate) fn put(&mut self, number: u64, value: u64) -> u64
        requires sound { IsTreeOf self.old }
        requires small { number < 2 ^ 52 }
        requires room { found self.old number ≡ 0 → HasRoom self.old 1 }
        ensures sound { IsTreeOf self.new }
        ensures before { result ≡ found self.old number }
        ensures set { Sets self.old self.new number value }
        ensures taken { IsOneLess self.old self.new }
        ensures kept { 0 < found self.old number → IsAsFull self.old self.new }
    {
        let node = self.leaf_for(number / PLACES);
        let place = (number % PLACES) as usize;
        let before = self.leaves.get(node, place);
        self.leaves.set(node, place, value);
        before
    }

    /// Makes ready what so many new numbers may need: a leaf each, and its way in the directory.
    pub(crate) fn reserve(&mut self, more: usize) -> Result<(), AllocError>
        requires sound { IsTreeOf self.old }
        ensures sound { IsTreeOf self.new }
        ensures same { (q : ℕ) → found self.new q ≡ found self.old q }
        ensures kept { IsKept self.old self.new }
        ensures ready { OnOk result (HasRoom self.new more) }
    {
        self.directory.reserve(more)?;
        self.leaves.reserve(more)
    }

    /// The least number from `from` on that has a value, with its value.
    pub(crate) fn next(&self, from: u64) -> Option<(u64, u64)>
        requires sound { IsTreeOf self.now }
        ensures none { IfNone result ((k : ℕ) → from ≤ k → found self.now k ≡ 0) }
        ensures least { IfSome result (λ e. (from ≤ e.0) × (e.0 < 2 ^ 52) × (0 < e.1) × (found self.now e.0 ≡ e.1) × ((k : ℕ) → from ≤ k → k < e.0 → found self.now k ≡ 0)) }
    {
        let mut at = from;
        while let Some((key, node)) = self.directory.next(at / PLACES) {
            let first = at.saturating_sub(key * PLACES) as usize;
            if let Some((place, value)) = self.leaves.next(node, first) {
                return Some((key * PLACES + place as u64, value));
            }
            at = (key + 1) * PLACES;
        }
        None
    }
}
