ghost use Rattle.std.specs.Prelude.{◌≡◌, ◌<◌, ◌≤◌, OnOk, IfOk, IsErrOf, Some};
ghost use Rattle.mig_dirtysave_rounds.specs.Common.{FaultHasCause, level_of, names_in};
ghost use Rattle.mig_guest.specs.Tables.{entry as what_is_said};
ghost use Rattle.mig_dirtysave_rounds.specs.Forms.{lost_at};
ghost use Rattle.mig_dirtysave_rounds.specs.Findings.{found_as, frame_sent, NamesWithin, ShowsOnly};
ghost use Rattle.mig_dirtysave_rounds.specs.Step.{Looks, IsRaw, IsRenamed, IsRight, NameIsInside, put_slot};
ghost use Rattle.mig_dirtysave_rounds.specs.declared.found.SendFault.TheVariants.{WriteFault};

use crate::found::{Found, SendFault};
use mig_bytes::put_u64_le;
use mig_guest::Entry;
use mig_guest::mig_machine_api::Machine;
use mig_pagetypes::PageType;
use mig_pvtables::{IsSuperpage, entry, first_slot, put_entry};

/// Brings the entry of a slot to its form in a stream; true where its machine frame has no frame number.
fn rename_slot<M: Machine>(
    machine: &mut M,
    level: u8,
    slot: usize,
    page: &mut [u8; 4096],
) -> Result<bool, SendFault>
    requires least { 1 ≤ level }
    requires most { level ≤ 4 }
    requires slot { slot < 512 }
    ensures looks { Looks 1 (M.state machine.old) (M.state machine.new) }
    ensures page { OnOk result (page.new ≡ put_slot page.old slot (what_is_said level page.old slot)
        (names_in (M.state machine.new).host.frames (Some (level, page.old)) slot)) }
    ensures lost { IfOk result (λ lost. lost ≡ lost_at level page.old (names_in (M.state machine.new).host.frames (Some (level, page.old))) slot) }
    ensures inside { OnOk result (NameIsInside (M.state machine.new) level page.old slot) }
    ensures later { M.Later machine.old machine.new }
    ensures cause { FaultHasCause (M.faults machine.old) (M.faults machine.new) result }
    ensures which { ¬ IsErrOf result WriteFault }
{
    match entry(page, level, slot) {
        Entry::Blank => {
            put_u64_le(page, 8 * slot, 0);
            Ok(false)
        }
        Entry::NotPresent | Entry::Superpage => Ok(false),
        Entry::Frame(mfn) => match machine.pfn_of(mfn) {
            Ok(Some(found)) => {
                put_entry(page, slot, found);
                Ok(false)
            }
            Ok(None) => Ok(true),
            Err(_) => Err(SendFault::MachineFault),
        },
    }
}

/// Brings a raw table to its form in a stream, slot by slot; the first slot whose machine frame has no frame number ends it.
fn rename<M: Machine>(
    machine: &mut M,
    pfn: u64,
    kind: PageType,
    level: u8,
    page: &mut [u8; 4096],
) -> Result<Option<usize>, SendFault>
    requires least { 1 ≤ level }
    requires most { level ≤ 4 }
    requires level { level_of kind ≡ Some level }
    requires raw { IsRaw (M.state machine.old) pfn kind level page.old }
    ensures looks { Looks 512 (M.state machine.old) (M.state machine.new) }
    ensures raw { IsRaw (M.state machine.new) pfn kind level page.old }
    ensures page { IfOk result (λ lost. IsRenamed (M.state machine.new) pfn level page.old page.new lost) }
    ensures later { M.Later machine.old machine.new }
    ensures cause { FaultHasCause (M.faults machine.old) (M.faults machine.new) result }
    ensures which { ¬ IsErrOf result WriteFault }
{
    for slot in 0..512 {
        if rename_slot(machine, level, slot, page)? {
            return Ok(Some(slot));
        }
    }
    Ok(None)
}

/// Reads on where the raw page of a table was left: superpages are looked for first, then the machine frames are looked up.
pub(crate) fn read_table<M: Machine>(
    machine: &mut M,
    pfn: u64,
    kind: PageType,
    level: u8,
    page: &mut [u8; 4096],
) -> Result<Found, SendFault>
    requires least { 1 ≤ level }
    requires most { level ≤ 4 }
    requires level { level_of kind ≡ Some level }
    requires raw { IsRaw (M.state machine.old) pfn kind level page.old }
    ensures looks { Looks 512 (M.state machine.old) (M.state machine.new) }
    ensures right { IfOk result (λ found. IsRight (M.state machine.new) pfn (found_as found page.new)) }
    ensures shows { IfOk result (ShowsOnly kind) }
    ensures within { IfOk result (λ found. NamesWithin (M.state machine.new).host.width (frame_sent (found_as found page.new))) }
    ensures later { M.Later machine.old machine.new }
    ensures cause { FaultHasCause (M.faults machine.old) (M.faults machine.new) result }
    ensures which { ¬ IsErrOf result WriteFault }
{
    match first_slot(page, level, &IsSuperpage) {
        Some(slot) => Ok(Found::Superpage(kind, slot)),
        None => match rename(machine, pfn, kind, level, page) {
            Ok(None) => Ok(Found::Shows(kind)),
            Ok(Some(slot)) => Ok(Found::NoFrame(kind, slot)),
            Err(answer) => Err(answer),
        },
    }
}
