ghost use Rattle.std.specs.Prelude.{◌≡◌, ℕ, ◌+◌, ◌/◌, ◌<◌, List, length, Option, Some, None, OnOk, OnErr, IfOk, IsErrOf, if◌then◌else◌};
ghost use Rattle.mig_dirtysave_rounds.specs.Common.{option_map, FaultHasCause, type_has_data, SendsOn, FallsBehind};
ghost use Rattle.mig_pagetypes.specs.Limits.{pfn_limit};
ghost use Rattle.mig_records_pages.specs.PageData.{most_entries};
ghost use Rattle.mig_dirtysave_rounds.specs.Causes.{FaultsHaveCauses};
ghost use Rattle.mig_dirtysave_rounds.specs.Findings.{found_as, frame_sent, is_deferred, type_found};
ghost use Rattle.mig_dirtysave_rounds.specs.Step.{ReadsOne, Strays};
ghost use Rattle.mig_dirtysave_rounds.specs.Entries.{entry_for};
ghost use Rattle.mig_dirtysave_rounds.specs.Current.{notes_of, noted};
ghost use Rattle.mig_dirtysave_rounds.specs.Live.{KeepsShape};
ghost use Rattle.mig_dirtysave_rounds.specs.declared.found.SendFault.TheVariants.{MachineFault, WriteFault};

use crate::found::{Found, SendFault};
use crate::step::read_one;
use mig_bytes::Sink;
use mig_guest::mig_machine_api::Machine;
use mig_guest::pfn_set::put;
use mig_pagetypes::PageType;
use mig_records_pages::{Batch, HeldFrame};

/// The type that the entry tells.
fn kind_sent(found: Found) -> Option<PageType>
    ensures { (page : List ℕ) → option_map (λ k. record { type = k; page = if type_has_data k then Some page else None }) result ≡ frame_sent (found_as found page) }
{
    match found {
        Found::Shows(kind) => Some(kind),
        Found::Gone | Found::Superpage(..) | Found::NoFrame(..) => None,
    }
}

/// The type that was seen, of a deferred table too.
fn kind_found(found: Found) -> Option<PageType>
    ensures { (page : List ℕ) → result ≡ type_found (found_as found page) }
{
    match found {
        Found::Gone => None,
        Found::Shows(kind) | Found::Superpage(kind, _) | Found::NoFrame(kind, _) => Some(kind),
    }
}

/// Whether the table is deferred.
fn is_left_out(found: Found) -> bool
    ensures { (page : List ℕ) → result ≡ is_deferred (found_as found page) }
{
    matches!(found, Found::Superpage(..) | Found::NoFrame(..))
}

/// Notes what was found at a frame number.
fn note(deferred: &mut [u64], types: &mut [Option<PageType>], pfn: u64, found: Found)
    requires room { pfn / 64 < length deferred.old }
    requires place { pfn < length types.old }
    ensures { (page : List ℕ) → notes_of deferred.new types.new ≡ noted pfn (found_as found page) (notes_of deferred.old types.old) }
{
    put(deferred, pfn, is_left_out(found));
    types[pfn as usize] = kind_found(found);
}

/// Sends the entry of what was found at a frame number; a table that no stream can have is told as no frame.
fn send_found<K: Sink>(
    sink: &mut K,
    batch: &mut Batch,
    pfn: u64,
    found: Found,
    page: &[u8; 4096],
) -> Result<(), SendFault>
    requires { pfn < pfn_limit }
    ensures sent { OnOk result (SendsOn (entry_for pfn (found_as found page.now)) (K.written sink.old) (K.written sink.new) batch.old batch.new) }
    ensures behind { OnErr result (FallsBehind 1 (K.written sink.old) (K.written sink.new) batch.old) }
    ensures few { length batch.new < most_entries }
    ensures cause { FaultHasCause (K.faults sink.old) (K.faults sink.new) result }
    ensures which { ¬ IsErrOf result MachineFault }
{
    let entry = HeldFrame {
        pfn,
        kind: kind_sent(found),
        page: *page,
    };
    batch.send(sink, entry)?;
    Ok(())
}

/// Reads one frame number, notes what was found, and sends its entry.
pub(crate) fn send_one<M: Machine, K: Sink>(
    machine: &mut M,
    sink: &mut K,
    batch: &mut Batch,
    deferred: &mut [u64],
    types: &mut [Option<PageType>],
    pfn: u64,
    page: &mut [u8; 4096],
) -> Result<Found, SendFault>
    requires inside { pfn < (M.state machine.old).host.width }
    requires small { pfn < pfn_limit }
    requires wide { length deferred.old ≡ ((M.state machine.old).host.width + 63) / 64 }
    requires long { length types.old ≡ (M.state machine.old).host.width }
    requires few { length batch.old < most_entries }
    ensures reads { IfOk result (λ found. ReadsOne pfn (M.state machine.old) (M.state machine.new) (found_as found page.new)) }
    ensures sent { IfOk result (λ found. SendsOn (entry_for pfn (found_as found page.new)) (K.written sink.old) (K.written sink.new) batch.old batch.new) }
    ensures notes { IfOk result (λ found. notes_of deferred.new types.new ≡ noted pfn (found_as found page.new) (notes_of deferred.old types.old)) }
    ensures few { length batch.new < most_entries }
    ensures asked { Strays pfn (M.state machine.old).history (M.state machine.new).history }
    ensures behind { OnErr result (FallsBehind 1 (K.written sink.old) (K.written sink.new) batch.old) }
    ensures kept { KeepsShape (M.state machine.old) (M.state machine.new) }
    ensures later { M.Later machine.old machine.new }
    ensures faults { FaultsHaveCauses MachineFault WriteFault (M.faults machine.old) (M.faults machine.new) (K.faults sink.old) (K.faults sink.new) result }
{
    let found = read_one(machine, pfn, page)?;
    note(deferred, types, pfn, found);
    send_found(sink, batch, pfn, found, page)?;
    Ok(found)
}
