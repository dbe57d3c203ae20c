ghost use Rattle.std.specs.Prelude.{◌≡◌, ◌+◌, ◌/◌, ◌<◌, length, OnOk, OnErr, IsErrOf};
ghost use Rattle.mig_dirtysave_rounds.specs.Common.{FaultHasCause, pfns_of_words, joined, LogTaken, Stays};
ghost use Rattle.mig_dirtysave_rounds.specs.declared.found.SendFault.TheVariants.{WriteFault};

use crate::found::SendFault;
use mig_guest::mig_machine_api::Machine;
use mig_guest::pfn_set::join;

/// Takes the log, and adds it to the set.
pub(crate) fn take_more<M: Machine>(
    machine: &mut M,
    log: &mut [u64],
    set: &mut [u64],
) -> Result<(), SendFault>
    requires words { length log.old ≡ ((M.state machine.old).host.width + 63) / 64 }
    requires wide { length log.old ≡ length set.old }
    requires few { length (M.state machine.old).history.taken < 8 }
    ensures ok { OnOk result (LogTaken (pfns_of_words log.new) (M.state machine.old) (M.state machine.new)) }
    ensures set { OnOk result (pfns_of_words set.new ≡ joined (pfns_of_words set.old) (pfns_of_words log.new)) }
    ensures later { M.Later machine.old machine.new }
    ensures cause { FaultHasCause (M.faults machine.old) (M.faults machine.new) result }
    ensures stays { OnErr result (Stays (M.state machine.old) (M.state machine.new)) }
    ensures which { ¬ IsErrOf result WriteFault }
{
    machine.take_log(log)?;
    join(set, log);
    Ok(())
}
