ghost use Rattle.std.specs.Prelude.{◌≡◌, ℕ, ◌+◌, ◌<◌, ◌≤◌, IsSome, IsOk, OnOk, IfSome, IfNone, Some, None};
ghost use Rattle.std.specs.FinMap as maps;
ghost use Rattle.mig_pagestore_index.specs.Indexed.{number_limit};

use crate::tree::Tree;
use std::alloc::{AllocError, Global};
use std::marker::Model;

/// Numbers are below 2^52.
const NUMBER_LIMIT: u64 = 1 << 52;

/// Values above 0 by number, and room for spare numbers.
#[derive(Drop)]
pub struct Index {
    tree: Tree,
    count: u64,
    spare: usize,
}

impl Model for Index {
    ghost use Rattle.std.specs.Prelude.{◌≡◌, ◌≤◌};
    ghost use Rattle.std.specs.FinMap as maps;
    ghost use Rattle.mig_pagestore_index.specs.Tree.{found, IsTreeOf, HasRoom};
    ghost use Rattle.mig_pagestore_index.specs.Indexed.{Indexed, indexed_code, gathered, number_limit};

    ghost Value = { Indexed };

    ghost coded = { indexed_code };

    ghost view = { λ x. record { values = gathered (found x.tree) number_limit; spare = x.spare } };

    ghost invariant = { λ x. IsTreeOf x.tree × (x.count ≡ maps.len (gathered (found x.tree) number_limit)) × HasRoom x.tree x.spare };
}

impl Index {
    /// An index without values, which has taken no memory.
    #[tactic(auto, using(crate::proofs::Counted::made_empty, crate::proofs::Gathered::gathered_none))]
    pub fn new(alloc: Global) -> Index
        ensures values { result.values ≡ maps.empty }
        ensures spare { result.spare ≡ 0 }
    {
        Index {
            tree: Tree::new(alloc),
            count: 0,
            spare: 0,
        }
    }

    /// How many numbers have a value.
    #[tactic(auto, using(crate::proofs::Gathered::some_below))]
    pub fn len(&self) -> u64
        ensures count { result ≡ maps.len self.now.values }
        ensures small { (q : ℕ) → IsSome (maps.get self.now.values q) → q < number_limit }
    {
        self.count
    }

    /// The value of this number, which may be any number; none where it has none.
    #[tactic(auto, using(crate::proofs::Counted::beyond, crate::proofs::Gathered::none_at, crate::proofs::Gathered::some_at))]
    pub fn get(&self, number: u64) -> Option<u64>
        ensures value { result ≡ maps.get self.now.values number }
        ensures some { IfSome result (λ v. 0 < v) }
        ensures small { IsSome result → number < number_limit }
    {
        let tree = &self.tree;
        if number >= NUMBER_LIMIT {
            return None;
        }
        match tree.get(number) {
            0 => None,
            value => Some(value),
        }
    }

    /// The least number that has a value and is at least `from`, which may be any number, with its value.
    #[tactic(auto, using(crate::proofs::Gathered::outside, crate::proofs::Gathered::none_at, crate::proofs::Gathered::some_at))]
    pub fn next(&self, from: u64) -> Option<(u64, u64)>
        ensures none { IfNone result ((k : ℕ) → from ≤ k → maps.get self.now.values k ≡ None) }
        ensures there { IfSome result (λ e. maps.get self.now.values e.0 ≡ Some e.1) }
        ensures least { IfSome result (λ e. (from ≤ e.0) × ((k : ℕ) → from ≤ k → k < e.0 → maps.get self.now.values k ≡ None)) }
        ensures some { IfSome result (λ e. 0 < e.1) }
        ensures small { IfSome result (λ e. e.0 < number_limit) }
    {
        let tree = &self.tree;
        tree.next(from)
    }

    /// Makes ready room for at least `more` numbers, those included that are spare already. Where no memory is found, all
    /// stays, and nothing that was spare is lost.
    pub fn reserve(&mut self, more: usize) -> Result<(), AllocError>
        ensures values { self.new.values ≡ self.old.values }
        ensures ready { OnOk result (more ≤ self.new.spare) }
        ensures kept { self.old.spare ≤ self.new.spare }
        ensures enough { more ≤ self.old.spare → IsOk result }
    {
        if more <= self.spare {
            return Ok(());
        }
        self.tree.reserve(more)?;
        self.spare = more;
        Ok(())
    }

    /// Sets the value of a number, and takes no memory: a number that had none takes a spare one.
    pub fn put_spare(&mut self, number: u64, value: u64)
        requires small { number < number_limit }
        requires some { 0 < value }
        requires room { maps.get self.old.values number ≡ None → 1 ≤ self.old.spare }
        ensures values { self.new.values ≡ maps.insert self.old.values number value }
        ensures taken { self.old.spare ≤ self.new.spare + 1 }
        ensures in_place { IsSome (maps.get self.old.values number) → self.new.spare ≡ self.old.spare }
    {
        if self.tree.put(number, value) == 0 {
            self.count += 1;
            self.spare -= 1;
        }
    }

    /// Takes the value of a number away, where it has one.
    pub fn remove(&mut self, number: u64)
        requires { number < number_limit }
        ensures values { self.new.values ≡ maps.remove self.old.values number }
        ensures spare { self.old.spare ≤ self.new.spare }
    {
        if self.tree.get(number) == 0 {
            return;
        }
        self.tree.put(number, 0);
        self.count -= 1;
    }
}
