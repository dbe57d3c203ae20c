ghost use Rattle.std.specs.Prelude.{◌≡◌, ℕ, ◌+◌, ◌≤◌, ◌<◌, OnOk, OnErr, IfSome, IfNone, IsSome, IsOk, Some, None, option_and_then, length, min};
ghost use Rattle.mig_host.specs.Common.{option_copied, option_map, Pv, pfn_limit, top_limit, most_frames, machine_limit, PartKey, NextEntry, IsHostFrame, IsHostPart, IsValid, most_width, pfn_in, FitsPolicy, NextBehind, NextKey, guest_in};
ghost use Rattle.std.specs.FinMap as maps;
ghost use Rattle.mig_host.specs.HostView.{has_machine, put_frame, put_part_in};

use crate::machine_frames::MachineFrames;
use mig_bytes::Memory;
use mig_guest::{FrameStore, PartKey, Parts};
use mig_headers::Kind;
use mig_pagetypes::PageType;
use mig_pvtables::Frames;
use std::alloc::Global;
use std::marker::Model;

/// A guest as it stands in a machine: each frame number below the width that has a frame has a machine frame too, and
/// no machine frame belongs to two. Its pages and parts are raw, as they stand in the machine. There is room for spare
/// frames.
#[derive(Drop)]
pub struct Host {
    kind: Kind,
    width: u64,
    pub(crate) frames: FrameStore,
    pub(crate) machines: MachineFrames,
    pub(crate) parts: Parts,
}

impl Model for Host {
    ghost use Rattle.std.specs.Prelude.{min};
    ghost use Rattle.mig_host.specs.HostView.{HostAndSpare, host_and_spare_code, host_seen, IsMade};

    ghost Value = { HostAndSpare };

    ghost coded = { host_and_spare_code };

    ghost view = { λ h. record { host = host_seen h.kind h.width h.frames.frames h.machines.machines h.parts; spare = min h.frames.spare h.machines.spare } };

    ghost invariant = { λ h. IsMade h.kind h.width h.frames.frames h.machines.machines h.parts };
}

impl Host {
    ghost use Rattle.mig_guest.specs.Hosts.{HostOf, HostFrame};
    ghost use Rattle.mig_host.specs.HostView.{host_seen, IsMade};

    /// A host without frames and parts.
    #[tactic(auto, using(crate::proofs::HostsMade::joined_empty))]
    pub fn new(alloc: Global, kind: Kind, width: u64) -> Host
        requires width { width ≤ most_width }
        requires some_width { kind ≡ Pv → 0 < width }
        requires pv_width { kind ≡ Pv → width ≤ top_limit }
        ensures host { result.host ≡ record { kind = kind; width = width; frames = maps.empty; parts = maps.empty } }
        ensures spare { result.spare ≡ 0 }
    {
        Host {
            kind,
            width,
            frames: FrameStore::new(alloc),
            machines: MachineFrames::new(alloc),
            parts: Parts::new(alloc),
        }
    }

    /// The host of these frames, with these machine frames, and of these parts.
    pub(crate) fn of(
        kind: Kind,
        width: u64,
        frames: FrameStore,
        machines: MachineFrames,
        parts: Parts,
    ) -> Host
        requires { IsMade kind width frames.frames machines.machines parts }
        ensures host { result.host ≡ host_seen kind width frames.frames machines.machines parts }
        ensures spare { result.spare ≡ min frames.spare machines.spare }
    {
        Host {
            kind,
            width,
            frames,
            machines,
            parts,
        }
    }

    /// Which kind of guest it is.
    pub fn kind(&self) -> Kind
        ensures { result ≡ self.now.host.kind }
    {
        self.kind
    }

    /// One more than the greatest PFN that the host may have.
    pub fn width(&self) -> u64
        ensures value { result ≡ self.now.host.width }
        ensures valid { IsValid self.now.host }
    {
        self.width
    }

    /// The number of frames.
    #[tactic(auto, using(crate::proofs::HostMaps::len_with_machines))]
    pub fn frames(&self) -> u64
        ensures { result ≡ maps.len self.now.host.frames }
    {
        self.frames.len()
    }

    /// The type of this frame; none where the host doesn't have it.
    #[tactic(auto, using(crate::proofs::HostMaps::kind_joined))]
    pub fn frame(&self, pfn: u64) -> Option<PageType>
        ensures { result ≡ option_map (λ f. f.type) (maps.get self.now.host.frames pfn) }
    {
        match self.frames.get(pfn) {
            Some((kind, _)) => Some(kind),
            None => None,
        }
    }

    /// The raw page of this frame; none where there is no frame, or its type has no data.
    #[tactic(auto, using(crate::proofs::HostMaps::page_joined))]
    pub fn page(&self, pfn: u64) -> Option<&[u8; 4096]>
        ensures { option_copied result ≡ option_and_then (λ f. f.page) (maps.get self.now.host.frames pfn) }
    {
        match self.frames.get(pfn) {
            Some((_, page)) => page,
            None => None,
        }
    }

    /// The machine frame of this frame.
    #[tactic(auto, using(crate::proofs::HostMaps::machine_joined))]
    pub(crate) fn machine(&self, pfn: u64) -> Option<u64>
        ensures value { result ≡ option_map (λ f. f.machine) (maps.get self.now.host.frames pfn) }
        ensures back { IfSome result (λ machine. pfn_in self.now.host.frames machine ≡ Some pfn) }
        ensures small { IfSome result (λ machine. machine < machine_limit) }
    {
        self.machines.machine(pfn)
    }

    /// The PFN that has this machine frame.
    pub(crate) fn pfn(&self, machine: u64) -> Option<u64>
        ensures value { result ≡ pfn_in self.now.host.frames machine }
        ensures back { IfSome result (λ pfn. option_map (λ f. f.machine) (maps.get self.now.host.frames pfn) ≡ Some machine) }
    {
        self.machines.pfn(machine)
    }

    /// Whether some frame has this machine frame.
    #[tactic(auto, using(crate::proofs::HostMaps::used_joined))]
    pub fn uses_machine(&self, machine: u64) -> bool
        ensures { result ≡ has_machine self.now.host machine }
    {
        self.machines.pfn(machine).is_some()
    }

    /// The least PFN that has a frame and is at least `from`, which may be any number.
    #[tactic(auto, using(crate::proofs::HostMaps::none_joined, crate::proofs::HostMaps::there_joined))]
    pub fn next_frame(&self, from: u64) -> Option<u64>
        ensures none { IfNone result ((k : ℕ) → from ≤ k → maps.get self.now.host.frames k ≡ None) }
        ensures there { IfSome result (λ q. IsSome (maps.get self.now.host.frames q)) }
        ensures least { IfSome result (λ q. (from ≤ q) × ((k : ℕ) → from ≤ k → k < q → maps.get self.now.host.frames k ≡ None)) }
        ensures small { IfSome result (λ q. q < pfn_limit) }
    {
        match self.frames.next(from) {
            Some((pfn, _, _)) => Some(pfn),
            None => None,
        }
    }

    /// The first frame from this number on, with its type, its machine frame and its page.
    #[tactic(auto, using(crate::proofs::HostMaps::none_from, crate::proofs::HostMaps::next_joined, crate::proofs::HostMaps::has_no_machine))]
    pub fn next_entry(&self, from: u64) -> Option<(u64, PageType, u64, Option<&[u8; 4096]>)>
        ensures next { NextEntry from (maps.entries self.now.host.frames) (option_map (λ e. (e.0, record { type = e.1; machine = e.2; page = option_copied e.3 })) result) }
        ensures small { IfSome result (λ e. e.0 < pfn_limit) }
    {
        let (pfn, kind, page) = self.frames.next(from)?;
        let machine = self.machines.machine(pfn)?;
        Some((pfn, kind, machine, page))
    }

    /// The raw bytes of a part; none where the host doesn't have it.
    pub fn part(&self, key: PartKey) -> Option<&[u8]>
        ensures { option_copied result ≡ maps.get self.now.host.parts key }
    {
        self.parts.get(key)
    }

    /// The least key of a part that is above `after`, or of all parts.
    pub fn next_part(&self, after: Option<PartKey>) -> Option<PartKey>
        ensures { NextKey self.now.host.parts after result }
    {
        self.parts.next(after)
    }

    /// The part with the least key above `after`, or of all parts, with its bytes.
    pub fn next_behind(&self, after: Option<PartKey>) -> Option<(PartKey, &[u8])>
        ensures next { NextBehind after (maps.entries self.now.host.parts) (option_map (λ e. (e.0, e.1.now)) result) }
    {
        self.parts.next_behind(after)
    }

    /// The frames as they are kept, without their machine frames, to look at.
    #[tactic(auto, using(crate::proofs::SoundHosts::frames_kept))]
    pub(crate) fn frame_store(&self) -> &FrameStore
        ensures { result.now.frames ≡ (guest_in self.now.host).frames }
    {
        &self.frames
    }

    /// The parts, to look at.
    pub fn parts(&self) -> &Parts
        ensures value { result.now ≡ self.now.host.parts }
        ensures valid { IsValid self.now.host }
    {
        &self.parts
    }

    /// Makes ready room for at least `more` frames, those included that are spare already.
    pub fn reserve(&mut self, more: usize) -> Result<(), Memory>
        ensures host { self.new.host ≡ self.old.host }
        ensures ready { OnOk result (more ≤ self.new.spare) }
        ensures kept { self.old.spare ≤ self.new.spare }
        ensures enough { more ≤ self.old.spare → IsOk result }
    {
        self.frames.reserve(more)?;
        self.machines.reserve(more)
    }

    /// Adds a frame, and takes no memory.
    #[tactic(auto, using(crate::proofs::HostsMade::no_machine))]
    pub(crate) fn put_spare(
        &mut self,
        pfn: u64,
        kind: PageType,
        machine: u64,
        page: Option<&[u8; 4096]>,
    )
        requires is { IsHostFrame self.old.host.kind self.old.host.width pfn (record { type = kind; machine = machine; page = option_copied page }) }
        requires absent { maps.get self.old.host.frames pfn ≡ None }
        requires unused { (other : ℕ) (frame : HostFrame) → maps.get self.old.host.frames other ≡ Some frame → frame.machine ≡ machine → ⊥ }
        requires few { length (maps.entries self.old.host.frames) < most_frames }
        requires room { 1 ≤ self.old.spare }
        ensures host { self.new.host ≡ put_frame self.old.host pfn (record { type = kind; machine = machine; page = option_copied page.entry }) }
        ensures taken { self.old.spare ≤ self.new.spare + 1 }
    {
        self.frames.put_spare(pfn, kind, page);
        self.machines.put_spare(pfn, machine);
    }

    /// Adds a frame; where no memory is found, the host stays.
    pub fn add_frame(
        &mut self,
        pfn: u64,
        kind: PageType,
        machine: u64,
        page: Option<&[u8; 4096]>,
    ) -> Result<(), Memory>
        requires is { IsHostFrame self.old.host.kind self.old.host.width pfn (record { type = kind; machine = machine; page = option_copied page }) }
        requires absent { maps.get self.old.host.frames pfn ≡ None }
        requires unused { (other : ℕ) (frame : HostFrame) → maps.get self.old.host.frames other ≡ Some frame → frame.machine ≡ machine → ⊥ }
        requires few { length (maps.entries self.old.host.frames) < most_frames }
        ensures ok { OnOk result (self.new.host ≡ put_frame self.old.host pfn (record { type = kind; machine = machine; page = option_copied page.entry })) }
        ensures err { OnErr result (self.new.host ≡ self.old.host) }
        ensures taken { self.old.spare ≤ self.new.spare + 1 }
    {
        self.reserve(1)?;
        self.put_spare(pfn, kind, machine, page);
        Ok(())
    }

    /// Sets the bytes of a part; where no memory is found, the host stays.
    pub fn set_part(&mut self, key: PartKey, bytes: &[u8]) -> Result<(), Memory>
        requires is { IsHostPart self.old.host.kind self.old.host.width key bytes.now }
        requires leaves { FitsPolicy 17 (maps.insert self.old.host.parts key bytes.now) }
        requires msrs { FitsPolicy 18 (maps.insert self.old.host.parts key bytes.now) }
        ensures ok { OnOk result (self.new.host ≡ put_part_in self.old.host key bytes.now) }
        ensures err { OnErr result (self.new.host ≡ self.old.host) }
        ensures spare { self.new.spare ≡ self.old.spare }
    {
        self.parts.set(key, bytes)
    }
}

impl Frames for Host {
    ghost pfns = { λ h mfn. pfn_in h.host.frames mfn };

    ghost mfns = { λ h pfn. option_map (λ f. f.machine) (maps.get h.host.frames pfn) };

    fn pfn_of(&self, mfn: u64) -> Option<u64> {
        self.pfn(mfn)
    }

    fn mfn_of(&self, pfn: u64) -> Option<u64> {
        self.machine(pfn)
    }

    fn one_to_one(&self) {
        self.width();
    }
}
