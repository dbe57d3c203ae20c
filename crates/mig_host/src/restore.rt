ghost use Rattle.std.specs.Prelude.{◌≡◌, ◌⊎◌, ℕ, ◌+◌, ◌<◌, ◌≤◌, ◌↔◌, true, false, IfOk, OnOk, OnErr, Err, IsSome, length};
ghost use Rattle.std.specs.FinMap as maps;
ghost use Rattle.mig_host.specs.Common.{option_map, top_limit, machine_limit, IsWhole};
ghost use Rattle.mig_guest.specs.Formed.{IsFormed};
ghost use Rattle.mig_host.specs.Hosted.{hosted, hosted_width, rank_in, mfn_in, least_width, IsBaseOutside};
ghost use Rattle.mig_host_view.specs.Localised.{localised};
ghost use Rattle.mig_host.specs.declared.restore.HostAnswer.TheVariants.{BaseRange};

use crate::host::Host;
use crate::machine_frames::MachineFrames;
use mig_bytes::Memory;
use mig_guest::Guest;
use mig_headers::Kind;
use mig_host_view::localise_guest;
use mig_pagetypes::MACHINE_LIMIT;
use std::alloc::Global;
use thiserror::Error;

/// Why a guest doesn't become a host.
#[derive(Clone, Copy, Debug, PartialEq, Eq, Error)]
pub enum HostAnswer {
    /// The machine frames counted up from the base don't lie from 1 to 2^40 - 1.
    #[error("the base is out of range")]
    BaseRange,
    /// There was no memory.
    #[error("no memory was found")]
    Memory,
}

/// Whether the machine frames of so many frames, counted up from the base, don't lie from 1 to 2^40 - 1.
pub fn is_outside(base: u64, frames: u64) -> bool
    ensures yes { result ≡ true → (base ≡ 0) ⊎ (machine_limit < base + frames) }
    ensures no { result ≡ false → (0 < base) × (base + frames ≤ machine_limit) }
{
    base == 0 || base > MACHINE_LIMIT || frames > MACHINE_LIMIT - base
}

/// The frame of rank i gets machine frame base + i. Answers them, and one more than the greatest PFN.
#[tactic(auto, using(crate::proofs::Ranks::rank_full, crate::proofs::Ranks::frames_inside, crate::proofs::InOrder::entries_counted, crate::proofs::RestoredHosts::counted_all))]
fn count_up(alloc: Global, guest: &Guest, base: u64) -> Result<(MachineFrames, u64), Memory>
    requires some { 0 < base }
    requires range { base + length (maps.entries guest.now.frames) ≤ machine_limit }
    ensures machines { IfOk result (λ r. (pfn : ℕ) → maps.get r.0.machines pfn ≡ option_map (λ _. base + rank_in guest.now.frames pfn) (maps.get guest.now.frames pfn)) }
    ensures width { IfOk result (λ r. r.1 ≡ least_width (maps.entries guest.now.frames)) }
{
    let mut machines = MachineFrames::with_capacity(alloc, guest.frames() as usize)?;
    let mut from = 0;
    for i in 0..guest.frames() {
        let Some(pfn) = guest.next_frame(from) else {
            return Ok((machines, from));
        };
        machines.insert(pfn, base + i)?;
        from = pfn + 1;
    }
    Ok((machines, from))
}

/// The width of the host that a guest becomes, where this is one more than its greatest PFN.
fn width_for(guest: &Guest, least: u64) -> u64
    requires { guest.now.top < top_limit }
    ensures { least ≡ least_width (maps.entries guest.now.frames) → result ≡ hosted_width guest.now.kind guest.now }
{
    match guest.kind() {
        Kind::Pv => guest.top() + 1,
        Kind::Hvm => least,
    }
}

/// The host that a restored guest becomes: the frame of rank i, in the order of the frame numbers, gets machine frame
/// base + i, and these stand in the tables, P2M frames and vCPUs of a PV guest. The pages and parts of the guest are
/// moved, and changed where they are. A refusal drops the guest.
#[tactic(auto, using(crate::proofs::InOrder::entries_counted))]
pub fn host_of(alloc: Global, guest: Guest, base: u64) -> Result<Host, HostAnswer>
    requires whole { IsWhole guest }
    ensures hosted { IfOk result (λ host. host.host ≡ hosted guest base) }
    ensures outside { (result ≡ Err BaseRange) ↔ IsBaseOutside guest base }
{
    if is_outside(base, guest.frames()) {
        return Err(HostAnswer::BaseRange);
    }
    let Ok((machines, least)) = count_up(alloc, &guest, base) else {
        return Err(HostAnswer::Memory);
    };
    let mut guest = guest;
    let kind = guest.kind();
    let width = width_for(&guest, least);
    localise_guest(&mut guest, &machines);
    let (frames, parts) = guest.into_frames_and_parts();
    Ok(Host::of(kind, width, frames, machines, parts))
}

/// Brings a guest to the form in which it stands in the machine as `host_of` puts it there: the frame of rank i gets machine
/// frame base + i. Its pages and parts are changed where they are. After an error it stays.
#[tactic(auto, using(crate::proofs::InOrder::entries_counted))]
pub fn localise_counted(alloc: Global, guest: &mut Guest, base: u64) -> Result<(), HostAnswer>
    requires formed { IsFormed guest.old }
    ensures localised { OnOk result (guest.new ≡ localised (mfn_in guest.old.frames base) guest.old) }
    ensures outside { (result ≡ Err BaseRange) ↔ IsBaseOutside guest.old base }
    ensures kept { OnErr result (guest.new ≡ guest.old) }
{
    if is_outside(base, guest.frames()) {
        return Err(HostAnswer::BaseRange);
    }
    let Ok((machines, _)) = count_up(alloc, guest, base) else {
        return Err(HostAnswer::Memory);
    };
    localise_guest(guest, &machines);
    Ok(())
}
