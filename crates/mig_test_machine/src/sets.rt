ghost use Rattle.std.specs.Prelude.{◌≡◌, length};

use mig_guest::pfn_set::{all, clear, contains, count, insert, join, next_from, none, put, remove};
use std::process::Abort;
use std::test::Fail;

// Numbers below 256 come into an empty set, and go.
fn come_and_go(rt: &impl Abort, set: &mut [u64])
    requires { length set.old ≡ 4 }
{
    insert(set, 3);
    insert(set, 199);
    put(set, 64, true);
    assert_eq!(rt;
        (contains(set, 199), contains(set, 64), contains(set, 65)),
        (true, true, false)
    );
    remove(set, 3);
    put(set, 64, false);
    assert_eq!(rt; &*set, [0, 0, 0, 1 << 7].as_slice());
}

#[test]
fn members_come_and_go(rt: HostRuntime) -> Result<(), Fail> {
    let mut set = none(rt.alloc(), 200)?;
    come_and_go(&rt, &mut set);
    Ok(())
}

#[test]
fn members_are_found_in_order(rt: HostRuntime) {
    let words = [1 << 5 | 1 << 9, 0, 0, 1 << 63];
    let rows = [
        (0, Some(5)),
        (6, Some(9)),
        (10, Some(255)),
        (255, Some(255)),
        (256, None),
        (u64::MAX, None),
    ];
    for (from, next) in rows {
        assert_eq!(rt; next_from(&words, from), next, "from {from}");
    }
    assert_eq!(rt; count(&words), 3);
}

#[test]
fn all_are_those_below_the_width(rt: HostRuntime) -> Result<(), Fail> {
    let full = all(rt.alloc(), 130)?;
    assert_eq!(rt; full.as_slice(), [u64::MAX, u64::MAX, 3].as_slice());
    Ok(())
}

#[test]
fn a_set_is_joined_and_cleared(rt: HostRuntime) {
    let mut set = [0, 4, 0];
    join(&mut set, &[1, 1, 0]);
    assert_eq!(rt; set, [1, 5, 0]);
    clear(&mut set);
    assert_eq!(rt; set, [0, 0, 0]);
}
