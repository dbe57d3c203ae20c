use mig_host_m2p::M2p;
use std::test::Fail;

// 5, 13 and 21 have the same lowest three bits, so one cell hangs below the other; 6 stands on the other side.
#[test]
fn m2p_finds_what_was_put(rt: HostRuntime) -> Result<(), Fail> {
    let mut m2p = M2p::with_capacity(rt.alloc(), 4)?;
    m2p.put_spare(5, 1);
    m2p.put_spare(13, 0);
    m2p.put_spare(21, 3);
    m2p.put_spare(6, (1 << 52) - 1);
    assert_eq!(rt;
        (m2p.get(5), m2p.get(13), m2p.get(21)),
        (Some(1), Some(0), Some(3))
    );
    assert_eq!(rt; (m2p.get(6), m2p.get(29)), (Some((1 << 52) - 1), None));
    assert_eq!(rt;
        (m2p.get(0), m2p.get(1 << 40), m2p.get(u64::MAX)),
        (None, None, None)
    );
    m2p.reserve(2)?;
    m2p.put_spare((1 << 40) - 1, 7);
    m2p.put_spare((1 << 39) - 1, 8);
    assert_eq!(rt;
        (m2p.get((1 << 40) - 1), m2p.get((1 << 39) - 1)),
        (Some(7), Some(8))
    );
    m2p.reserve(1)?;
    m2p.put_spare(13, 9);
    assert_eq!(rt;
        (m2p.get(5), m2p.get(13), m2p.get(21)),
        (Some(1), Some(9), Some(3))
    );
    Ok(())
}

// The first cell below the root, a cell between two others, and the last one that is left.
#[test]
fn m2p_forgets_what_was_removed(rt: HostRuntime) -> Result<(), Fail> {
    let mut m2p = M2p::with_capacity(rt.alloc(), 4)?;
    m2p.put_spare(5, 1);
    m2p.put_spare(13, 2);
    m2p.put_spare(21, 3);
    m2p.put_spare(29, 4);
    m2p.remove(13);
    assert_eq!(rt; (m2p.get(5), m2p.get(13)), (Some(1), None));
    assert_eq!(rt; (m2p.get(21), m2p.get(29)), (Some(3), Some(4)));
    m2p.remove(5);
    assert_eq!(rt;
        (m2p.get(5), m2p.get(21), m2p.get(29)),
        (None, Some(3), Some(4))
    );
    m2p.remove(5);
    m2p.remove(21);
    m2p.remove(29);
    assert_eq!(rt; (m2p.get(5), m2p.get(21), m2p.get(29)), (None, None, None));
    Ok(())
}

// Where nothing is spare, a machine frame that is removed leaves room for another.
#[test]
fn m2p_uses_a_cell_again(rt: HostRuntime) -> Result<(), Fail> {
    let mut m2p = M2p::with_capacity(rt.alloc(), 2)?;
    m2p.put_spare(1, 10);
    m2p.put_spare(2, 20);
    for machine in 2..1000 {
        let Some(pfn) = m2p.get(machine) else {
            return Err("nothing is there".into());
        };
        m2p.remove(machine);
        m2p.put_spare(machine + 1, 20);
        assert_eq!(rt; (pfn, m2p.get(machine), m2p.get(1)), (20, None, Some(10)));
    }
    Ok(())
}
