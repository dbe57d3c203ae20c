ghost use Rattle.std.specs.Prelude.{◌≡◌, ◌≤◌, length, true, None, IfOk};
ghost use Rattle.mig_dirtysave.specs.Common.{FaultHasCause, Pv, unsoundness};
ghost use Rattle.mig_dirtysave.specs.Paused.{standing_seen, HasTypes, first_in_tables, HoldsOf, first_around, with_view, OnlyLooksUp};

use crate::judging::{host_is_valid, judge};
use mig_bytes::Failed;
use mig_guest::Guest;
use mig_guest::mig_machine_api::Machine;
use mig_headers::Unsound;
use mig_pagetypes::PageType;
use mig_pvtables::{blank_shared_info, blank_vcpus};

/// Judges the PV host of a paused machine, as `judge` does. Where nothing is wrong with it, the parts that the guest
/// holds, which are the host's, become those of the guest that the host is seen as. Takes no memory.
pub fn view_parts<M: Machine>(
    machine: &mut M,
    guest: &mut Guest,
    types: &[Option<PageType>],
    marks: &mut [Option<bool>],
    tables: Option<Unsound>,
) -> Result<Option<Unsound>, Failed>
    requires paused { (M.state machine.old).paused ≡ true }
    requires pv { (M.state machine.old).host.kind ≡ Pv }
    requires marks { length types.now ≤ length marks.old }
    requires held { HoldsOf (M.state machine.old).host guest.old }
    ensures first { IfOk result (λ found. found ≡ first_around tables (standing_seen (M.state machine.old).host types.now)) }
    ensures unsoundness { IfOk result (λ found. HasTypes (M.state machine.old).host types.now → tables ≡ first_in_tables (M.state machine.old).host → found ≡ unsoundness (M.state machine.old).host) }
    ensures seen { IfOk result (λ found. found ≡ None → guest.new ≡ with_view (M.state machine.old).host guest.old) }
    ensures looks { OnlyLooksUp (M.state machine.old) (M.state machine.new) }
    ensures later { M.Later machine.old machine.new }
    ensures cause { FaultHasCause (M.faults machine.old) (M.faults machine.new) result }
{
    host_is_valid(machine);
    let found = judge(machine, guest, types, marks, tables)?;
    if found.is_none() {
        blank_vcpus(guest);
        blank_shared_info(guest);
    }
    Ok(found)
}
