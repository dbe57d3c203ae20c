use crate::hosts::worked;
use mig_headers::Unsound;
use mig_image::{Host, SoundAnswer};
use std::alloc::Global;
use std::test::Fail;

// An entry that is present and names machine frame 0x7777, which no frame of the host has.
const ENTRY: [u8; 8] = [0x67, 0x70, 0x77, 0x07, 0, 0, 0, 0];

// The table of level 1, and where its entry of slot 2 is.
const TABLE: u64 = 4;

const SLOT_2: usize = 16;

// Whether a host has room for a frame more, and whether it is found that its table has such an entry.
fn room_and_fault(alloc: Global, host: &mut Host) -> Result<(bool, bool), Fail> {
    let room = host.reserve(1).is_ok();
    if host.page(TABLE).is_none() {
        return Err("there is no table".into());
    }
    host.write(TABLE, SLOT_2, &ENTRY);
    let found = matches!(
        host.sound(alloc),
        Err(SoundAnswer::Unsound(Unsound::NoFrame(4, 2)))
    );
    Ok((room, found))
}

fn room_and_fault_of_the_worked_host(alloc: Global) -> Result<(bool, bool), Fail> {
    let mut host = worked(alloc)?;
    room_and_fault(alloc, &mut host)
}

#[test]
fn a_host_has_room_and_its_fault_is_found(rt: HostRuntime) -> Result<(), Fail> {
    assert_eq!(rt;
        room_and_fault_of_the_worked_host(rt.alloc())?,
        (true, true)
    );
    Ok(())
}
