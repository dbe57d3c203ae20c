ghost use Rattle.std.specs.Prelude.{◌≡◌, ◌+◌, ◌*◌, ◌<◌, ◌≤◌, ℕ, OnOk, IfSome, IfNone, length, slice_index, ◌⊎◌};
ghost use Rattle.mig_pagestore_index.specs.Leaves.{Becomes};
ghost use Rattle.mig_pagestore_index.specs.Directories.{leaf_at, lead, near_keys, IsSearched, IsDirectory, AreWithin};

use std::alloc::{AllocError, Global};
use std::mem;

/// A part of a directory: the keys in it, each with the number of its leaf, which is above 0.
#[derive(Drop)]
pub(crate) enum Node {
    Empty,
    Tip {
        key: u64,
        leaf: u64,
    },
    /// The keys stand below `split` on the left, and from it on on the right; all are from `low` to `high`.
    Fork {
        split: u64,
        low: u64,
        high: u64,
        left: Box<Node>,
        right: Box<Node>,
    },
}

/// The roundest number above `low` and up to `high`: no other there has so many zero bits at its end. Where keys are parted
/// at such numbers, a way to a key has no more forks than a key has bits.
fn roundest(low: u64, high: u64) -> u64
    requires { low < high }
    ensures above { low < result }
    ensures upto { result ≤ high }
{
    let mut round = high;
    while round & (round - 1) > low {
        round &= round - 1;
    }
    round
}

/// Whether a key has a higher bit that isn't that of `low` and `high` than any in which these two differ.
fn is_apart(key: u64, low: u64, high: u64) -> bool {
    let within = low ^ high;
    let beyond = key ^ low;
    within < beyond && within < beyond ^ within
}

impl Node {
    /// The leaf of this key; 0 where it has none.
    pub(crate) fn get(&self, key: u64) -> u64
        ensures { result ≡ leaf_at self.now key }
    {
        let mut at = self;
        while let Node::Fork {
            split,
            left,
            right,
            ..
        } = at
        {
            at = if key < *split { left } else { right };
        }
        match at {
            Node::Tip { key: own, leaf } if *own == key => *leaf,
            _ => 0,
        }
    }

    /// The least key from `from` on, with its leaf.
    pub(crate) fn next(&self, from: u64) -> Option<(u64, u64)>
        requires { IsSearched self.now }
        ensures none { IfNone result ((k : ℕ) → from ≤ k → leaf_at self.now k ≡ 0) }
        ensures least { IfSome result (λ e. (from ≤ e.0) × (0 < e.1) × (leaf_at self.now e.0 ≡ e.1) × ((k : ℕ) → from ≤ k → k < e.0 → leaf_at self.now k ≡ 0)) }
    {
        match self {
            Node::Empty => None,
            Node::Tip { key, leaf } => {
                if from <= *key {
                    Some((*key, *leaf))
                } else {
                    None
                }
            }
            Node::Fork {
                split,
                left,
                right,
                ..
            } => {
                if from < *split {
                    if let Some(found) = left.next(from) {
                        return Some(found);
                    }
                }
                right.next(from)
            }
        }
    }

    /// Parts a key, which is below or above all others, from them.
    fn part(
        &mut self,
        low: u64,
        high: u64,
        key: u64,
        leaf: u64,
        mut one: Box<Node>,
        mut other: Box<Node>,
    )
        requires sound { IsSearched self.old }
        requires within { AreWithin low high (leaf_at self.old) }
        requires ordered { low ≤ high }
        requires apart { (key < low) ⊎ (high < key) }
        requires some { 0 < leaf }
        ensures sound { IsSearched self.new }
        ensures put { Becomes (leaf_at self.old) (leaf_at self.new) key leaf }
    {
        *one = mem::replace(self, Node::Empty);
        *other = Node::Tip { key, leaf };
        *self = if key < low {
            Node::Fork {
                split: roundest(key, low),
                low: key,
                high,
                left: other,
                right: one,
            }
        } else {
            Node::Fork {
                split: roundest(high, key),
                low,
                high: key,
                left: one,
                right: other,
            }
        };
    }

    /// Gives a key that has none a leaf.
    fn put(&mut self, key: u64, leaf: u64, one: Box<Node>, other: Box<Node>)
        requires sound { IsSearched self.old }
        requires none { leaf_at self.old key ≡ 0 }
        requires some { 0 < leaf }
        ensures sound { IsSearched self.new }
        ensures put { Becomes (leaf_at self.old) (leaf_at self.new) key leaf }
    {
        match self {
            Node::Empty => *self = Node::Tip { key, leaf },
            Node::Tip { key: own, .. } => {
                let own = *own;
                self.part(own, own, key, leaf, one, other);
            }
            Node::Fork {
                split,
                low,
                high,
                left,
                right,
            } => {
                let (least, most) = (*low, *high);
                if (key < least || most < key) && is_apart(key, least, most) {
                    self.part(least, most, key, leaf, one, other);
                    return;
                }
                *low = key.min(least);
                *high = key.max(most);
                if key < *split {
                    left.put(key, leaf, one, other);
                } else {
                    right.put(key, leaf, one, other);
                }
            }
        }
    }
}

/// So many keys, the lowest, have a place in a table of their own: those of the first 8 GiB of a guest.
const NEAR: u64 = 4096;

/// The leaves by key, and nodes that are kept ready for more: two for a key.
#[derive(Drop)]
pub(crate) struct Directory {
    /// The leaf of each of the lowest keys, 0 where it has none.
    pub(crate) near: Vec<u64>,
    pub(crate) root: Node,
    pub(crate) ready: Vec<Box<Node>>,
    alloc: Global,
}

/// The leaf of a key in the table; 0 where it has none.
fn near_leaf(near: &[u64], key: u64) -> u64
    ensures { result ≡ slice_index near.now key }
{
    match near.get(key as usize) {
        Some(leaf) => *leaf,
        None => 0,
    }
}

/// The least key of the table from `from` on that has a leaf, with its leaf.
fn next_near(near: &[u64], from: u64) -> Option<(u64, u64)>
    ensures none { IfNone result ((k : ℕ) → from ≤ k → k < near_keys → slice_index near.now k ≡ 0) }
    ensures least { IfSome result (λ e. (from ≤ e.0) × (e.0 < near_keys) × (0 < e.1) × (slice_index near.now e.0 ≡ e.1) × ((k : ℕ) → from ≤ k → k < e.0 → slice_index near.now k ≡ 0)) }
{
    for key in from..NEAR {
        let leaf = near_leaf(near, key);
        if leaf > 0 {
            return Some((key, leaf));
        }
    }
    None
}

/// Sees to it that there is a place for each of the lowest keys.
fn widen(near: &mut Vec<u64>) -> Result<(), AllocError>
    ensures same { (i : ℕ) → slice_index near.new.items i ≡ slice_index near.old.items i }
    ensures kept { length near.old.items ≤ length near.new.items }
    ensures wide { OnOk result (near_keys ≤ length near.new.items) }
{
    if (near.len() as u64) < NEAR {
        near.resize(NEAR as usize, 0)?;
    }
    Ok(())
}

/// Sees to it that there are nodes for so many keys.
fn fill(alloc: Global, ready: &mut Vec<Box<Node>>, keys: usize) -> Result<(), AllocError>
    ensures kept { length ready.old.items ≤ length ready.new.items }
    ensures ready { OnOk result (2 * keys ≤ length ready.new.items) }
{
    while ready.len() / 2 < keys {
        ready.push(Box::new(alloc, Node::Empty)?)?;
    }
    Ok(())
}

impl Directory {
    /// A directory without keys, which has taken no memory.
    pub(crate) fn new(alloc: Global) -> Directory
        ensures sound { IsDirectory result.root }
        ensures empty { (q : ℕ) → lead result.near.items result.root q ≡ 0 }
    {
        Directory {
            near: Vec::new(alloc),
            root: Node::Empty,
            ready: Vec::new(alloc),
            alloc,
        }
    }

    /// The leaf of this key; 0 where it has none.
    pub(crate) fn get(&self, key: u64) -> u64
        ensures { result ≡ lead self.now.near.items self.now.root key }
    {
        if key < NEAR {
            return near_leaf(&self.near, key);
        }
        self.root.get(key)
    }

    /// The least key from `from` on, with its leaf.
    pub(crate) fn next(&self, from: u64) -> Option<(u64, u64)>
        requires { IsDirectory self.now.root }
        ensures none { IfNone result ((k : ℕ) → from ≤ k → lead self.now.near.items self.now.root k ≡ 0) }
        ensures least { IfSome result (λ e. (from ≤ e.0) × (0 < e.1) × (lead self.now.near.items self.now.root e.0 ≡ e.1) × ((k : ℕ) → from ≤ k → k < e.0 → lead self.now.near.items self.now.root k ≡ 0)) }
    {
        if let Some(found) = next_near(&self.near, from) {
            return Some(found);
        }
        self.root.next(from)
    }

    /// Gives a key that has none a leaf, and takes no memory.
    pub(crate) fn put(&mut self, key: u64, leaf: u64)
        requires sound { IsDirectory self.old.root }
        requires none { lead self.old.near.items self.old.root key ≡ 0 }
        requires some { 0 < leaf }
        requires wide { near_keys ≤ length self.old.near.items }
        requires room { 2 ≤ length self.old.ready.items }
        ensures sound { IsDirectory self.new.root }
        ensures put { Becomes (lead self.old.near.items self.old.root) (lead self.new.near.items self.new.root) key leaf }
        ensures near { length self.new.near.items ≡ length self.old.near.items }
        ensures ready { length self.old.ready.items ≤ length self.new.ready.items + 2 }
    {
        if key < NEAR {
            self.near[key as usize] = leaf;
            return;
        }
        let one = self.ready.pop().unwrap();
        let other = self.ready.pop().unwrap();
        self.root.put(key, leaf, one, other);
    }

    /// Makes ready nodes for at least so many keys.
    pub(crate) fn reserve(&mut self, more: usize) -> Result<(), AllocError>
        ensures root { self.new.root ≡ self.old.root }
        ensures same { (i : ℕ) → slice_index self.new.near.items i ≡ slice_index self.old.near.items i }
        ensures near { length self.old.near.items ≤ length self.new.near.items }
        ensures kept { length self.old.ready.items ≤ length self.new.ready.items }
        ensures wide { OnOk result (near_keys ≤ length self.new.near.items) }
        ensures ready { OnOk result (2 * more ≤ length self.new.ready.items) }
    {
        widen(&mut self.near)?;
        fill(self.alloc, &mut self.ready, more)
    }
}
