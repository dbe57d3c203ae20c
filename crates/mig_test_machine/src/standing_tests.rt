ghost use Rattle.std.specs.Prelude.{◌≡◌, IfOk};
ghost use Rattle.mig_test_machine.specs.Common.{no_history};

use crate::made::{log, looks_up};
use crate::standing::StandingMachine;
use mig_guest::PartKey;
use mig_guest::mig_machine_api::{Machine, Seen};
use mig_headers::Kind;
use mig_host::Host;
use mig_pagetypes::PageType;
use std::alloc::Global;
use std::process::Abort;
use std::test::Fail;

// An HVM host of width 70 with frame 65, whose machine frame is 7.
fn host(alloc: Global) -> Result<Host, Fail>
    ensures { IfOk result (λ host. host.host.width ≡ 70) }
{
    let mut host = Host::new(alloc, Kind::Hvm, 70);
    if host
        .add_frame(65, PageType::Notab, 7, Some(&[0xaa; 4096]))
        .is_err()
    {
        return Err("no frame".into());
    }
    Ok(host)
}

// What the machine has there.
fn look<M: Machine>(machine: &mut M, pfn: u64, page: &mut [u8; 4096]) -> Option<Seen> {
    if pfn < machine.width() {
        machine.peek(pfn, page).ok()
    } else {
        None
    }
}

// What the machine has at two numbers.
fn looks<M: Machine>(rt: &impl Abort, machine: &mut M) {
    let mut page = [0; 4096];
    assert_eq!(rt; look(machine, 64, &mut page), Some(Seen::Absent));
    assert_eq!(rt; page[0], 0);
    assert_eq!(rt;
        look(machine, 65, &mut page),
        Some(Seen::Frame(PageType::Notab))
    );
    assert_eq!(rt; page[4095], 0xaa);
}

// What never changes of it.
fn stays<M: Machine>(rt: &impl Abort, machine: &M) {
    assert_eq!(rt; machine.width(), 70);
    assert_eq!(rt; machine.next_key(None), None);
    let key = PartKey {
        code: 8,
        key1: 0,
        key2: 0,
    };
    assert!(rt; machine.part(key).is_none() && machine.fixed_part(key).is_none());
}

// What it answers, call by call.
fn answers<M: Machine>(rt: &impl Abort, machine: &mut M)
    requires width { (M.state machine.old).host.width ≡ 70 }
    requires unread { (M.state machine.old).history ≡ no_history }
{
    assert_eq!(rt; log(machine), Ok([0, 0]));
    looks(rt, machine);
    looks_up(rt, machine, &[(7, Ok(Some(65))), (8, Ok(None))]);
    assert_eq!(rt; machine.pause(), Ok(()));
    stays(rt, machine);
}

#[test]
fn a_standing_machine_answers(rt: HostRuntime) -> Result<(), Fail> {
    let host = host(rt.alloc())?;
    let mut machine = StandingMachine::new(rt.alloc(), host);
    answers(&rt, &mut machine);
    Ok(())
}
