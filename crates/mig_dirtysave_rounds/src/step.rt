ghost use Rattle.std.specs.Prelude.{◌<◌, IfOk, IsErrOf};
ghost use Rattle.mig_dirtysave_rounds.specs.Common.{FaultHasCause};
ghost use Rattle.mig_dirtysave_rounds.specs.Findings.{found_as};
ghost use Rattle.mig_dirtysave_rounds.specs.Step.{ReadsOne, Strays};
ghost use Rattle.mig_dirtysave_rounds.specs.Live.{KeepsShape};
ghost use Rattle.mig_dirtysave_rounds.specs.declared.found.SendFault.TheVariants.{WriteFault};

use crate::found::{Found, SendFault};
use crate::table::read_table;
use mig_guest::mig_machine_api::{Machine, Seen};

/// Reads one frame number; the page is left as a stream has it, where a frame with data is shown.
pub(crate) fn read_one<M: Machine>(
    machine: &mut M,
    pfn: u64,
    page: &mut [u8; 4096],
) -> Result<Found, SendFault>
    requires { pfn < (M.state machine.old).host.width }
    ensures reads { IfOk result (λ found. ReadsOne pfn (M.state machine.old) (M.state machine.new) (found_as found page.new)) }
    ensures asked { Strays pfn (M.state machine.old).history (M.state machine.new).history }
    ensures kept { KeepsShape (M.state machine.old) (M.state machine.new) }
    ensures later { M.Later machine.old machine.new }
    ensures cause { FaultHasCause (M.faults machine.old) (M.faults machine.new) result }
    ensures which { ¬ IsErrOf result WriteFault }
{
    match machine.peek(pfn, page) {
        Ok(Seen::Absent) => Ok(Found::Gone),
        Ok(Seen::Frame(kind)) => match kind.table_level() {
            None => Ok(Found::Shows(kind)),
            Some(level) => read_table(machine, pfn, kind, level, page),
        },
        Err(_) => Err(SendFault::MachineFault),
    }
}
