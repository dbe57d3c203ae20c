ghost use Rattle.std.specs.Prelude.{◌≡◌, ◌+◌, ◌/◌, ◌≤◌, [], length, true, OnOk, OnErr, IfOk};
ghost use Rattle.mig_dirtysave_rounds.specs.Common.{most_saved_width, pfns_of_words, nothing_asked, IsBelow};
ghost use Rattle.mig_dirtysave_rounds.specs.Causes.{FaultsHaveCauses};
ghost use Rattle.mig_dirtysave_rounds.specs.Current.{notes_of};
ghost use Rattle.mig_dirtysave_rounds.specs.Sends.{ReadsFront, SendsSet, SetLeavesBehind, IsWorst};
ghost use Rattle.mig_dirtysave_rounds.specs.Live.{KeepsShape};
ghost use Rattle.mig_dirtysave_rounds.specs.declared.found.SendFault.TheVariants.{MachineFault, WriteFault};

use crate::found::{SendFault, Worst};
use crate::send::send_one;
use mig_bytes::Sink;
use mig_guest::mig_machine_api::Machine;
use mig_guest::pfn_set::next_from;
use mig_pagetypes::PageType;
use mig_records_pages::Batch;

/// Reads and sends each member of a set, ascending, and writes what is held then.
pub(crate) fn send_all<M: Machine, K: Sink>(
    machine: &mut M,
    sink: &mut K,
    batch: &mut Batch,
    set: &[u64],
    deferred: &mut [u64],
    types: &mut [Option<PageType>],
    page: &mut [u8; 4096],
) -> Result<Worst, SendFault>
    requires narrow { (M.state machine.old).host.width ≤ most_saved_width }
    requires words { length set.now ≡ ((M.state machine.old).host.width + 63) / 64 }
    requires wide { length deferred.old ≡ length set.now }
    requires long { length types.old ≡ (M.state machine.old).host.width }
    requires below { IsBelow (M.state machine.old).host.width (pfns_of_words set.now) }
    requires noted { IsBelow (M.state machine.old).host.width (pfns_of_words deferred.old) }
    requires fresh { (M.state machine.old).history.since ≡ nothing_asked }
    requires empty { batch.old ≡ [] }
    ensures reads { OnOk result (ReadsFront (M.state machine.old).host.width (pfns_of_words set.now) (M.state machine.old) (M.state machine.new)) }
    ensures sends { OnOk result (SendsSet (M.state machine.old).host.width (pfns_of_words set.now) (M.state machine.old) (M.state machine.new) (K.written sink.old) (K.written sink.new)
        (notes_of deferred.old types.old) (notes_of deferred.new types.new)) }
    ensures worst { IfOk result (λ worst. (M.state machine.old).paused ≡ true → IsWorst (M.state machine.old).host.width (pfns_of_words set.now) (M.state machine.new).host.frames worst) }
    ensures noted { OnOk result (IsBelow (M.state machine.old).host.width (pfns_of_words deferred.new)) }
    ensures empty { OnOk result (batch.new ≡ []) }
    ensures behind { OnErr result (SetLeavesBehind (M.state machine.old) (M.state machine.new) (K.written sink.old) (K.written sink.new)) }
    ensures kept { KeepsShape (M.state machine.old) (M.state machine.new) }
    ensures later { M.Later machine.old machine.new }
    ensures faults { FaultsHaveCauses MachineFault WriteFault (M.faults machine.old) (M.faults machine.new) (K.faults sink.old) (K.faults sink.new) result }
{
    let mut worst = Worst {
        superpage: None,
        lost: None,
    };
    let mut from = 0;
    'members: while let Some(pfn) = next_from(set, from) {
        let found = send_one(machine, sink, batch, deferred, types, pfn, page)?;
        worst = worst.with(pfn, found);
        from = pfn + 1;
    }
    batch.flush(sink)?;
    Ok(worst)
}
