ghost use Rattle.std.specs.Prelude.{◌≡◌, ◌+◌, ◌<◌, ◌≤◌, IsSome, IsOk, OnOk, IfOk, None};
ghost use Rattle.std.specs.FinMap as maps;
ghost use Rattle.mig_pagetypes.specs.Limits.{machine_limit};

use crate::tree::Tree;
use mig_bytes::Memory;
use std::alloc::{AllocError, Global};
use std::marker::Model;

/// The PFN of each machine frame that has one, and room for spare machine frames.
#[derive(Drop)]
pub struct M2p {
    tree: Tree,
}

impl Model for M2p {
    ghost use Rattle.mig_host_m2p.specs.Trees.{IsStandingTree, kept};
    ghost use Rattle.mig_pagestore_index.specs.Indexed.{Indexed, indexed_code};

    ghost Value = { Indexed };

    ghost coded = { indexed_code };

    ghost view = { λ x. record { values = kept x.tree; spare = x.tree.spare } };

    ghost invariant = { λ x. IsStandingTree x.tree };
}

impl M2p {
    /// A map without machine frames, which has taken no memory.
    pub fn new(alloc: Global) -> M2p
        ensures values { result.values ≡ maps.empty }
        ensures spare { result.spare ≡ 0 }
    {
        M2p {
            tree: Tree::new(alloc),
        }
    }

    /// A map without machine frames, which has room for so many.
    pub fn with_capacity(alloc: Global, frames: usize) -> Result<M2p, Memory>
        ensures values { IfOk result (λ m. m.values ≡ maps.empty) }
        ensures ready { IfOk result (λ m. frames ≤ m.spare) }
    {
        let mut m2p = M2p::new(alloc);
        m2p.reserve(frames)?;
        Ok(m2p)
    }

    /// The PFN that has this machine frame, which may be any number.
    pub fn get(&self, machine: u64) -> Option<u64>
        ensures { result ≡ maps.get self.now.values machine }
    {
        self.tree.get(machine)
    }

    /// Makes ready room for at least `more` machine frames, those included that are spare already. Where no memory is
    /// found, all stays, and nothing that was spare is lost.
    pub fn reserve(&mut self, more: usize) -> Result<(), Memory>
        ensures values { self.new.values ≡ self.old.values }
        ensures ready { OnOk result (more ≤ self.new.spare) }
        ensures kept { self.old.spare ≤ self.new.spare }
        ensures enough { more ≤ self.old.spare → IsOk result }
    {
        match self.tree.reserve(more) {
            Ok(()) => Ok(()),
            Err(AllocError) => Err(Memory),
        }
    }

    /// Gives a machine frame this PFN, and takes no memory: a machine frame that had none takes a spare place.
    pub fn put_spare(&mut self, machine: u64, pfn: u64)
        requires below { machine < machine_limit }
        requires room { maps.get self.old.values machine ≡ None → 1 ≤ self.old.spare }
        ensures values { self.new.values ≡ maps.insert self.old.values machine pfn }
        ensures taken { self.old.spare ≤ self.new.spare + 1 }
        ensures in_place { IsSome (maps.get self.old.values machine) → self.new.spare ≡ self.old.spare }
    {
        self.tree.put_spare(machine, pfn);
    }

    /// Takes the PFN of this machine frame away, where it has one, and leaves room for another.
    pub fn remove(&mut self, machine: u64)
        ensures values { self.new.values ≡ maps.remove self.old.values machine }
        ensures spare { self.old.spare ≤ self.new.spare }
        ensures freed { IsSome (maps.get self.old.values machine) → self.old.spare + 1 ≤ self.new.spare }
    {
        self.tree.remove(machine);
    }
}
