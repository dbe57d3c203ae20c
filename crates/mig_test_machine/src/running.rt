ghost use Rattle.std.specs.Prelude.{◌≡◌};
ghost use Rattle.mig_test_machine.specs.Common.{no_history};

use crate::made::{looks_up, started};
use mig_bytes::Failed;
use mig_guest::mig_machine_api::Machine;
use std::process::Abort;
use std::test::Fail;

// The log that the second call takes of a machine of width 70.
fn second_log<M: Machine>(machine: &mut M) -> Result<[u64; 2], Failed>
    requires width { (M.state machine.old).host.width ≡ 70 }
    requires unread { (M.state machine.old).history ≡ no_history }
{
    let mut bits = [!0, !0];
    machine.take_log(&mut bits)?;
    machine.take_log(&mut bits)?;
    Ok(bits)
}

// The second log has frame 67 alone, and frames 66 and 67 have machine frames.
fn keeps<M: Machine>(rt: &impl Abort, machine: &mut M)
    requires width { (M.state machine.old).host.width ≡ 70 }
    requires unread { (M.state machine.old).history ≡ no_history }
{
    assert_eq!(rt; second_log(machine), Ok([0, 1 << 3]));
    let rows = [(8, Ok(Some(66))), (11, Ok(Some(67))), (12, Ok(None))];
    looks_up(rt, machine, &rows);
}

// The lines, about which a proof is to know nothing.
fn lines() -> &'static [u8] {
    b"a 65 7\na 66 8\na 67 9\nt 65 1\nw 65 0 0180000000000000\nw 65 4088 01c0000000000000\n.\nx 66 10\nr 66\nx 67 12\na 3 12\nx 67 11\n"
}

// Frame 65 is a table, which names machine frame 8 in its first slot and 12 in its last. So frame 66 keeps machine frame 8,
// and no frame gets 12; frame 67 gets another one.
#[test]
fn what_a_table_names_stays(rt: HostRuntime) -> Result<(), Fail> {
    let mut machine = started(rt.alloc(), lines())?;
    keeps(&rt, &mut machine);
    Ok(())
}
