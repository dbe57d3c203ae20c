ghost use Rattle.std.specs.Prelude.{◌≡◌, ◌≤◌, ℕ, List, [], ◌∷◌, length, true, Some, None, IfOk};
ghost use Rattle.std.specs.FinMap as maps;
ghost use Rattle.mig_dirtysave.specs.Common.{FaultHasCause, Pv, PartKey, IsValidState, first_cause, unsoundness, row_1, row_2, row_5};
ghost use Rattle.mig_dirtysave.specs.Paused.{standing_seen, HasTypes, first_in_tables, first_around, with_names, OnlyLooksUp};

use crate::contexts::rename_contexts;
use crate::listing::misplaced_by_type;
use mig_bytes::Failed;
use mig_guest::mig_machine_api::Machine;
use mig_guest::{Guest, PartCode, PartKey};
use mig_headers::{Kind, Unsound};
use mig_host_view::{absent_needed, large_gdt};
use mig_pagetypes::PageType;
use mig_pvtables::{PartsByKey, sole_key};

/// The host of a machine is valid at every moment.
pub(crate) fn host_is_valid<M: Machine>(machine: &M)
    ensures { IsValidState (M.state machine.now) }
{
    let _width = machine.width();
}

/// The parts of a machine's host.
#[derive(Drop)]
struct HostParts<'a, M> {
    machine: &'a M,
}

impl<M: Machine> PartsByKey for HostParts<'_, M> {
    ghost parts = { λ it. (M.state it.machine.now).host.parts };

    fn lacks(&self, key: PartKey) -> bool {
        self.machine.part(key).is_none()
    }
}

/// The first P2M frame that may not stand where it is listed, by the types that were seen last.
fn misplaced<M: Machine>(
    machine: &M,
    types: &[Option<PageType>],
    marks: &mut [Option<bool>],
) -> Option<Unsound>
    requires { length types.now ≤ length marks.old }
    ensures { result ≡ row_2 (standing_seen (M.state machine.now).host types.now) }
{
    let list = machine.part(sole_key(PartCode::P2mFrames))?;
    let index = misplaced_by_type(list, types, marks)?;
    Some(Unsound::P2mFrame(index as u64))
}

/// The first cause that comes before those of tables.
fn cause_before_tables<M: Machine>(
    machine: &M,
    types: &[Option<PageType>],
    marks: &mut [Option<bool>],
) -> Option<Unsound>
    requires marks { length types.now ≤ length marks.old }
    requires pv { (M.state machine.now).host.kind ≡ Pv }
    ensures { result ≡ first_cause (row_1 (standing_seen (M.state machine.now).host types.now) ∷ row_2 (standing_seen (M.state machine.now).host types.now) ∷ []) }
{
    if let Some(cause) = absent_needed(Kind::Pv, &HostParts { machine }) {
        return Some(cause);
    }
    misplaced(machine, types, marks)
}

/// The first cause that comes before those of the fields of contexts, where `tables` is what was found in the tables, and the
/// guest holds the host's contexts.
fn cause_before_fields<M: Machine>(
    machine: &M,
    guest: &Guest,
    types: &[Option<PageType>],
    marks: &mut [Option<bool>],
    tables: Option<Unsound>,
) -> Option<Unsound>
    requires marks { length types.now ≤ length marks.old }
    requires pv { (M.state machine.now).host.kind ≡ Pv }
    requires long { (key : PartKey) (context : List ℕ) → maps.get guest.now.parts key ≡ Some context → key.code ≡ 4 → length context ≡ 5168 }
    requires contexts { (key : PartKey) → key.code ≡ 4 → maps.get guest.now.parts key ≡ maps.get (M.state machine.now).host.parts key }
    ensures { result ≡ first_cause (row_1 (standing_seen (M.state machine.now).host types.now) ∷ row_2 (standing_seen (M.state machine.now).host types.now)
        ∷ tables ∷ row_5 (standing_seen (M.state machine.now).host types.now) ∷ []) }
{
    if let Some(cause) = cause_before_tables(machine, types, marks) {
        return Some(cause);
    }
    if tables.is_some() {
        return tables;
    }
    let (id, descriptors) = large_gdt(guest.parts())?;
    Some(Unsound::GdtEnts(u64::from(id), descriptors))
}

/// Judges the PV host of a paused machine, by the types that were seen last and what was found in its tables. Where
/// nothing is wrong with it, PFNs are put into the contexts that the guest holds, which are the host's. There is a mark
/// for each frame number, whatever it was before. The first cause is answered, and the contexts before it may be
/// renamed then. Takes no memory.
pub fn judge<M: Machine>(
    machine: &mut M,
    guest: &mut Guest,
    types: &[Option<PageType>],
    marks: &mut [Option<bool>],
    tables: Option<Unsound>,
) -> Result<Option<Unsound>, Failed>
    requires paused { (M.state machine.old).paused ≡ true }
    requires pv { (M.state machine.old).host.kind ≡ Pv }
    requires marks { length types.now ≤ length marks.old }
    requires contexts { (key : PartKey) → key.code ≡ 4 → maps.get guest.old.parts key ≡ maps.get (M.state machine.old).host.parts key }
    ensures first { IfOk result (λ found. found ≡ first_around tables (standing_seen (M.state machine.old).host types.now)) }
    ensures unsoundness { IfOk result (λ found. HasTypes (M.state machine.old).host types.now → tables ≡ first_in_tables (M.state machine.old).host → found ≡ unsoundness (M.state machine.old).host) }
    ensures renamed { IfOk result (λ found. found ≡ None → guest.new ≡ with_names (M.state machine.old).host guest.old) }
    ensures looks { OnlyLooksUp (M.state machine.old) (M.state machine.new) }
    ensures later { M.Later machine.old machine.new }
    ensures cause { FaultHasCause (M.faults machine.old) (M.faults machine.new) result }
{
    host_is_valid(machine);
    if let Some(cause) = cause_before_fields(machine, guest, types, marks, tables) {
        return Ok(Some(cause));
    }
    rename_contexts(machine, guest, types)
}
