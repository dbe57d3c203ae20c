ghost use Rattle.std.specs.Prelude.{◌≡◌, ◌≢◌, ◌≤◌, ◌<◌, ℕ, List, [], ◌∷◌, length, IfSome, IfOk, OnOk, Some, None, Err, find};
ghost use Rattle.mig_pvtables.specs.Common.{option_copied, option_map, TargetAbsent, VcpuFrame, Hvm, Pv, level_of, IsFormed, FrameMap};
ghost use Rattle.std.specs.FinMap as maps;
ghost use Rattle.mig_guest.specs.Tables.{entry as what_is_said};
ghost use Rattle.mig_pvtables.specs.Faults.{find_slot, find_entry, is_absent, slots, find_field, needed_keys, first_some, missing, too_many as more_than_allowed, first_cause, fault_by, fault_of_guest};
ghost use Rattle.mig_pvtables.specs.declared.testing.WholeAnswer.TheVariants.{Fault, Memory as NoMemory};

use crate::fields::{InStream, bad_field};
use crate::listing::{TypedFrames, misplaced_frame, missing_part};
use crate::searching::{EntryTest, first_entry};
use mig_bytes::Memory;
use mig_guest::{Entry, Guest};
use mig_headers::{Cause, Kind};
use mig_pagetypes::MOST_FRAMES;
use std::alloc::Global;
use thiserror::Error;

/// Why a guest isn't whole, or that this wasn't found out.
#[derive(Clone, Copy, Debug, PartialEq, Eq, Error)]
pub enum WholeAnswer {
    /// The guest isn't whole: the first cause in it, at its least place.
    #[error("the guest isn't whole")]
    Fault(Cause),
    /// There was no memory.
    #[error("no memory was found")]
    Memory,
}

/// The first of the parts that each guest of its kind has that isn't there.
fn absent_part(guest: &Guest) -> Option<Cause>
    ensures { result ≡ first_some (missing guest.now.parts) (needed_keys guest.now.kind) }
{
    let code = missing_part(guest.kind(), guest.parts())?;
    Some(Cause::Missing(code))
}

/// That there are more frames than a guest may have.
#[tactic(auto, using(crate::proofs::Walks::frames_counted))]
fn too_many(guest: &Guest) -> Option<Cause>
    ensures { result ≡ more_than_allowed guest.now.frames }
{
    if guest.frames() > MOST_FRAMES {
        Some(Cause::TooManyFrames)
    } else {
        None
    }
}

/// That an entry names a frame that isn't there.
#[derive(Drop)]
struct NamesAbsent<'a> {
    guest: &'a Guest,
}

impl EntryTest for NamesAbsent<'_> {
    ghost passing = { λ test. is_absent test.guest.now.frames };

    fn passes(&self, said: Entry) -> bool {
        matches!(said, Entry::Frame(pfn) if self.guest.frame(pfn).is_none())
    }
}

/// The first cause in a PV guest that comes behind those of its P2M frames.
fn later_fault<T: TypedFrames>(guest: &Guest, frames: &T) -> Option<Cause>
    requires { IsFormed guest.now }
    ensures { result ≡ first_cause (option_map (λ at. TargetAbsent at.0 at.1) (find_entry (is_absent guest.now.frames) guest.now.frames)
        ∷ option_map (λ at. VcpuFrame at.0 at.1) (find_field (T.frames frames.now) guest.now.parts) ∷ more_than_allowed guest.now.frames ∷ []) }
{
    if let Some((pfn, slot)) = first_entry(guest.frame_store(), &NamesAbsent { guest }) {
        return Some(Cause::TargetAbsent(pfn, slot as u64));
    }
    if let Some((id, field)) = bad_field(guest.parts(), &InStream { frames }) {
        return Some(Cause::VcpuFrame(u64::from(id), u64::from(field)));
    }
    too_many(guest)
}

/// The first cause in a PV guest.
fn pv_fault<T: TypedFrames>(
    alloc: Global,
    guest: &Guest,
    frames: &T,
) -> Result<Option<Cause>, Memory>
    requires formed { IsFormed guest.now }
    requires pv { guest.now.kind ≡ Pv }
    ensures { IfOk result (λ fault. fault ≡ fault_by (T.frames frames.now) guest.now) }
{
    if let Some(cause) = absent_part(guest) {
        return Ok(Some(cause));
    }
    if let Some(place) = misplaced_frame(alloc, frames, guest.parts())? {
        return Ok(Some(Cause::P2mFrame(place as u64)));
    }
    Ok(later_fault(guest, frames))
}

/// The first cause in an HVM guest.
fn hvm_fault(guest: &Guest) -> Option<Cause>
    requires { guest.now.kind ≡ Hvm }
    ensures { (typed : FrameMap) → result ≡ fault_by typed guest.now }
{
    absent_part(guest).or(too_many(guest))
}

/// Whether a guest that is well formed is whole; else the first cause in it, at its least place. An HVM guest is tested
/// without memory.
pub fn whole(alloc: Global, guest: &Guest) -> Result<(), WholeAnswer>
    requires { IsFormed guest.now }
    ensures ok { OnOk result (fault_of_guest guest.now ≡ None) }
    ensures fault { (c : Cause) → result ≡ Err (Fault c) → fault_of_guest guest.now ≡ Some c }
    ensures hvm { guest.now.kind ≡ Hvm → result ≢ Err NoMemory }
{
    whole_by(alloc, guest, guest.frame_store())
}

/// The same, where others than the guest tell the types of the frames that P2M frames and fields of vCPUs ask for.
pub fn whole_by<T: TypedFrames>(alloc: Global, guest: &Guest, frames: &T) -> Result<(), WholeAnswer>
    requires { IsFormed guest.now }
    ensures ok { OnOk result (fault_by (T.frames frames.now) guest.now ≡ None) }
    ensures fault { (c : Cause) → result ≡ Err (Fault c) → fault_by (T.frames frames.now) guest.now ≡ Some c }
    ensures hvm { guest.now.kind ≡ Hvm → result ≢ Err NoMemory }
{
    let fault = match guest.kind() {
        Kind::Hvm => hvm_fault(guest),
        Kind::Pv => match pv_fault(alloc, guest, frames) {
            Ok(fault) => fault,
            Err(Memory) => return Err(WholeAnswer::Memory),
        },
    };
    match fault {
        Some(cause) => Err(WholeAnswer::Fault(cause)),
        None => Ok(()),
    }
}
