ghost use Rattle.std.specs.Prelude.{◌≡◌, ◌≤◌, ◌<◌, ℕ, List, Some, length, true};
ghost use Rattle.std.specs.FinMap as maps;
ghost use Rattle.mig_guest.specs.Formed.{IsFormed};
ghost use Rattle.mig_guest.specs.Guests.{GuestOf};
ghost use Rattle.mig_walk.specs.Common.{IsWhole, IsSound, in_stream, in_host, vcpu_key};
ghost use Rattle.mig_walk.specs.Outlined.{StandForGuest};
ghost use Rattle.mig_walk.specs.Walks.{slot_of, IsCanonical, IsWalked};
ghost use Rattle.mig_walk.specs.WalkSteps.{CanBeWalked, IsReached};

use crate::levels::Levels;
use crate::outlined::OutlinedLevels;
use mig_guest::{Entry, Guest};
use mig_host::Host;
use mig_pagetypes::PageType;
use mig_placed::Places;

/// Which frame an address means to a vCPU, or why it means none.
#[derive(Clone, Copy, Debug, PartialEq, Eq)]
pub enum Walked {
    /// It means this frame, of this type: of a guest its PFN, of a host its machine frame.
    Frame { frame: u64, kind: PageType },
    /// There is no such vCPU. An HVM guest has none that a stream tells of.
    NoVcpu,
    /// Bits 63 to 47 of the address aren't all equal.
    NotCanonical,
    /// The way ends at a table of this level, from 1 to 4: the entry isn't present, or its slot is the hypervisor's own.
    Absent(u8),
    /// The way ends at a frame that is no table of this level, from 1 to 3.
    NotTable(u8),
}

/// Whether bits 63 to 47 of an address are all equal.
fn is_canonical(address: u64) -> bool
    ensures yes { result ≡ true → IsCanonical address }
    ensures no { IsCanonical address → result ≡ true }
{
    let high = address >> 47;
    high == 0 || high == (1 << 17) - 1
}

/// The slot that an address selects in a table of this level.
#[tactic(auto, unfolding(crate::specs::Walks::slot_of))]
fn slot(address: u64, level: u8) -> usize
    requires least { 1 ≤ level }
    requires most { level ≤ 4 }
    ensures value { result ≡ slot_of address level }
    ensures small { result < 512 }
{
    ((address >> (3 + 9 * u32::from(level))) % 512) as usize
}

/// Where the way of a canonical address ends that begins at the root that this number names. What is answered of a guest in
/// which addresses can't be walked says nothing.
fn walk_from<L: Levels>(levels: &L, root: u64, vcpu: u32, address: u64) -> Walked
    requires canonical { IsCanonical address }
    ensures { CanBeWalked (L.standing levels.now) vcpu → IsReached (L.standing levels.now) vcpu address 4 root → IsWalked (L.standing levels.now) vcpu address result }
{
    let mut number = root;
    let mut level = 4;
    while level > 0 {
        let Some(pfn) = levels.named(number) else {
            return Walked::Absent(level);
        };
        let Some(entry) = levels.entry_of(pfn, level, slot(address, level)) else {
            return Walked::NotTable(level);
        };
        let Entry::Frame(named) = entry else {
            return Walked::Absent(level);
        };
        number = named;
        level -= 1;
    }
    let Some(pfn) = levels.named(number) else {
        return Walked::Absent(level);
    };
    match levels.kind_of(pfn) {
        Some(kind) => Walked::Frame {
            frame: number,
            kind,
        },
        None => Walked::Absent(level),
    }
}

/// Which frame an address means to a vCPU, where addresses can be walked.
fn walk<L: Levels>(levels: &L, vcpu: u32, address: u64) -> Walked
    requires size { (context : List ℕ) → maps.get (L.standing levels.now).parts (vcpu_key vcpu) ≡ Some context → length context ≡ 5168 }
    ensures { CanBeWalked (L.standing levels.now) vcpu → IsWalked (L.standing levels.now) vcpu address result }
{
    let Some(root) = levels.root(vcpu) else {
        return Walked::NoVcpu;
    };
    if !is_canonical(address) {
        return Walked::NotCanonical;
    }
    walk_from(levels, root, vcpu, address)
}

/// The frame, by its number (PFN), that an address means to a vCPU of a guest, as its page tables say it, or why it means
/// none. It takes no memory.
pub fn walk_guest(guest: &Guest, vcpu: u32, address: u64) -> Walked
    requires whole { IsWhole guest.now }
    ensures walked { IsWalked (in_stream guest.now) vcpu address result }
{
    walk(guest, vcpu, address)
}

/// The machine frame (MFN) that an address means to a vCPU of a host, as its page tables say it, or why it means none. It
/// takes no memory.
pub fn walk_host(host: &Host, vcpu: u32, address: u64) -> Walked
    requires sound { IsSound host.now.host }
    ensures walked { IsWalked (in_host host.now.host) vcpu address result }
{
    host.width();
    walk(host, vcpu, address)
}

/// The frame, by its number (PFN), that an address means to a vCPU of the guest that an outline and the places of its pages
/// stand for, as `walk_guest` says it. No page is read: tables are in the outline. Where they stand for no whole guest, the
/// answer says nothing. It takes no memory.
pub fn walk_outlined(outline: &Guest, places: &Places, vcpu: u32, address: u64) -> Walked
    requires formed { IsFormed outline.now }
    ensures walked { (g : GuestOf) → StandForGuest outline.now places.now g → IsWhole g → IsWalked (in_stream g) vcpu address result }
{
    let levels = OutlinedLevels { outline, places };
    walk(&levels, vcpu, address)
}
