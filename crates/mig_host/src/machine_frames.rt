ghost use Rattle.std.specs.Prelude.{◌≡◌, ℕ, ◌+◌, ◌≤◌, ◌<◌, IsOk, IsSome, OnOk, OnErr, IfOk, IfSome, IfNone, Some, None};
ghost use Rattle.std.specs.FinMap as maps;
ghost use Rattle.mig_host.specs.Common.{pfn_limit, machine_limit};
ghost use Rattle.mig_host.specs.HostView.{pfn_of_machine_in};

use mig_bytes::Memory;
use mig_host_m2p::M2p;
use mig_pagestore_index::Index;
use mig_pvtables::Frames;
use std::alloc::Global;
use std::marker::Model;

/// The machine frame of each PFN, one to one and below 2^40, and room for spare ones.
#[derive(Drop)]
pub(crate) struct MachineFrames {
    /// The machine frame of each PFN.
    there: Index,
    /// The PFN of each machine frame.
    back: M2p,
    spare: usize,
}

impl Model for MachineFrames {
    ghost use Rattle.std.specs.Prelude.{◌≤◌};
    ghost use Rattle.std.specs.FinMap as maps;
    ghost use Rattle.mig_host.specs.HostView.{MachinesAndSpare, machines_code, AreInverse, AreBelowLimit};

    ghost Value = { MachinesAndSpare };

    ghost coded = { machines_code };

    ghost view = { λ f. record { machines = f.there.values; spare = f.spare } };

    ghost invariant = { λ f. AreInverse f.there.values (maps.get f.back.values) × (f.spare ≤ f.there.spare) × (f.spare ≤ f.back.spare) × AreBelowLimit f.there.values };
}

impl MachineFrames {
    /// No machine frames; it has taken no memory.
    pub(crate) fn new(alloc: Global) -> MachineFrames
        ensures machines { result.machines ≡ maps.empty }
        ensures spare { result.spare ≡ 0 }
    {
        MachineFrames {
            there: Index::new(alloc),
            back: M2p::new(alloc),
            spare: 0,
        }
    }

    /// No machine frames yet. Where the map back is made for as many as will come, it isn't copied as it grows.
    pub(crate) fn with_capacity(alloc: Global, frames: usize) -> Result<MachineFrames, Memory>
        ensures machines { IfOk result (λ f. f.machines ≡ maps.empty) }
        ensures spare { IfOk result (λ f. f.spare ≡ 0) }
    {
        let back = M2p::with_capacity(alloc, frames)?;
        Ok(MachineFrames {
            there: Index::new(alloc),
            back,
            spare: 0,
        })
    }

    /// The machine frame of this PFN, which may be any number.
    pub(crate) fn machine(&self, pfn: u64) -> Option<u64>
        ensures value { result ≡ maps.get self.now.machines pfn }
        ensures back { IfSome result (λ machine. pfn_of_machine_in self.now.machines machine ≡ Some pfn) }
        ensures small { IfSome result (λ machine. machine < machine_limit) }
    {
        self.there.get(pfn)
    }

    /// The PFN that has this machine frame.
    pub(crate) fn pfn(&self, machine: u64) -> Option<u64>
        ensures value { result ≡ pfn_of_machine_in self.now.machines machine }
        ensures some { IfSome result (λ pfn. maps.get self.now.machines pfn ≡ Some machine) }
        ensures none { IfNone result ((pfn : ℕ) → maps.get self.now.machines pfn ≡ Some machine → ⊥) }
    {
        self.back.get(machine)
    }

    /// Does nothing. The machine frames of the PFNs are one to one.
    fn all_one_to_one(&self)
        ensures there { (machine pfn : ℕ) → pfn_of_machine_in self.now.machines machine ≡ Some pfn → maps.get self.now.machines pfn ≡ Some machine }
        ensures back { (machine pfn : ℕ) → maps.get self.now.machines pfn ≡ Some machine → pfn_of_machine_in self.now.machines machine ≡ Some pfn }
        ensures small { (machine pfn : ℕ) → maps.get self.now.machines pfn ≡ Some machine → machine < machine_limit }
    {
        let _ = &self.spare;
    }

    /// Makes ready room for at least `more` machine frames, those included that are spare already.
    pub(crate) fn reserve(&mut self, more: usize) -> Result<(), Memory>
        ensures machines { self.new.machines ≡ self.old.machines }
        ensures ready { OnOk result (more ≤ self.new.spare) }
        ensures kept { self.old.spare ≤ self.new.spare }
        ensures enough { more ≤ self.old.spare → IsOk result }
    {
        if more <= self.spare {
            return Ok(());
        }
        let Ok(()) = self.there.reserve(more) else {
            return Err(Memory);
        };
        self.back.reserve(more)?;
        self.spare = more;
        Ok(())
    }

    /// Gives a PFN a machine frame that no other has, and takes no memory.
    pub(crate) fn put_spare(&mut self, pfn: u64, machine: u64)
        requires small { pfn < pfn_limit }
        requires some { 0 < machine }
        requires below { machine < machine_limit }
        requires absent { maps.get self.old.machines pfn ≡ None }
        requires unused { (other : ℕ) → maps.get self.old.machines other ≡ Some machine → ⊥ }
        requires room { 1 ≤ self.old.spare }
        ensures machines { self.new.machines ≡ maps.insert self.old.machines pfn machine }
        ensures taken { self.old.spare ≤ self.new.spare + 1 }
    {
        self.there.put_spare(pfn, machine);
        self.back.put_spare(machine, pfn);
        self.spare -= 1;
    }

    /// Gives a PFN a machine frame that no other has; where no memory is found, all stays.
    pub(crate) fn insert(&mut self, pfn: u64, machine: u64) -> Result<(), Memory>
        requires small { pfn < pfn_limit }
        requires some { 0 < machine }
        requires below { machine < machine_limit }
        requires absent { maps.get self.old.machines pfn ≡ None }
        requires unused { (other : ℕ) → maps.get self.old.machines other ≡ Some machine → ⊥ }
        ensures ok { OnOk result (self.new.machines ≡ maps.insert self.old.machines pfn machine) }
        ensures err { OnErr result (self.new.machines ≡ self.old.machines) }
        ensures taken { self.old.spare ≤ self.new.spare + 1 }
    {
        self.reserve(1)?;
        self.put_spare(pfn, machine);
        Ok(())
    }

    /// Gives a PFN that has a machine frame another one, which no other has, and takes no memory.
    pub(crate) fn replace(&mut self, pfn: u64, machine: u64)
        requires there { IsSome (maps.get self.old.machines pfn) }
        requires some { 0 < machine }
        requires below { machine < machine_limit }
        requires unused { (other : ℕ) → maps.get self.old.machines other ≡ Some machine → ⊥ }
        ensures machines { self.new.machines ≡ maps.insert self.old.machines pfn machine }
        ensures spare { self.old.spare ≤ self.new.spare }
    {
        if let Some(old) = self.there.get(pfn) {
            self.back.remove(old);
            self.back.put_spare(machine, pfn);
            self.there.put_spare(pfn, machine);
        }
    }

    /// Takes the machine frame of this PFN away, where it has one.
    pub(crate) fn remove(&mut self, pfn: u64)
        ensures machines { self.new.machines ≡ maps.remove self.old.machines pfn }
        ensures spare { self.old.spare ≤ self.new.spare }
    {
        if let Some(machine) = self.there.get(pfn) {
            self.there.remove(pfn);
            self.back.remove(machine);
        }
    }
}

impl Frames for MachineFrames {
    ghost pfns = { λ f mfn. pfn_of_machine_in f.machines mfn };

    ghost mfns = { λ f pfn. maps.get f.machines pfn };

    fn pfn_of(&self, mfn: u64) -> Option<u64> {
        self.pfn(mfn)
    }

    fn mfn_of(&self, pfn: u64) -> Option<u64> {
        self.machine(pfn)
    }

    fn one_to_one(&self) {
        self.all_one_to_one();
    }
}
