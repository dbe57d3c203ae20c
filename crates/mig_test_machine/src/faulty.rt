ghost use Rattle.std.specs.Prelude.{◌≡◌};
ghost use Rattle.mig_test_machine.specs.Common.{no_history};

use crate::made::{log, looks_up, started};
use mig_bytes::Failed;
use mig_guest::mig_machine_api::Machine;
use mig_machine::{FailingMachine, ForgetfulMachine};
use std::process::Abort;
use std::test::Fail;

// Of its calls, numbered from 0, call 1 fails, and no other.
fn fails<M: Machine>(rt: &impl Abort, machine: &mut M) {
    let rows = [
        (7, Ok(Some(65))),
        (8, Err(Failed)),
        (9, Ok(None)),
        (9, Ok(Some(67))),
    ];
    looks_up(rt, machine, &rows);
    assert_eq!(rt; machine.pause(), Ok(()));
}

// Call 1 fails, and the lines up to the second dot run by call 2.
#[test]
fn a_listed_call_fails(rt: HostRuntime) -> Result<(), Fail> {
    let calls = vec![in rt.alloc(); 1; 1]?;
    let inner = started(rt.alloc(), b"a 65 7\n.\na 66 8\n.\na 67 9\n")?;
    let mut machine = FailingMachine::new(inner, calls);
    fails(&rt, &mut machine);
    Ok(())
}

// Frame 66 alone is in its log, and 65 has a frame.
fn forgets<M: Machine>(rt: &impl Abort, machine: &mut M)
    requires width { (M.state machine.old).host.width ≡ 70 }
    requires unread { (M.state machine.old).history ≡ no_history }
{
    assert_eq!(rt; log(machine), Ok([0, 1 << 2]));
    looks_up(rt, machine, &[(7, Ok(Some(65)))]);
}

// The lines touch 65 and 66, and 65 never reaches the log.
#[test]
fn a_listed_number_is_forgotten(rt: HostRuntime) -> Result<(), Fail> {
    let forgotten = Vec::from_slice(rt.alloc(), &[65, 4000])?;
    let inner = started(rt.alloc(), b"a 65 7\na 66 8\n")?;
    let mut machine = ForgetfulMachine::new(inner, forgotten);
    forgets(&rt, &mut machine);
    Ok(())
}
