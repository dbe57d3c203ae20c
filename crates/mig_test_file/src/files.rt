use crate::made::{PAGES, bytes, place};
use mig_bytes::Failed;
use mig_file::{MemFile, PageFile};
use mig_placed::JoinedFiles;
use std::test::Fail;

// Whether these bytes, each of this value, stand at the place.
fn stands<P: PageFile>(file: &P, at: u64, value: u8) -> Result<bool, Failed> {
    let mut read = [0; 4096];
    file.read_at(at, &mut read)?;
    Ok(read == [value; 4096])
}

#[test]
fn a_file_is_read_as_far_as_it_goes(rt: HostRuntime) -> Result<(), Fail> {
    let file = MemFile::new(bytes(rt.alloc())?, Vec::new(rt.alloc()));
    assert_eq!(rt; file.size(), place(PAGES));
    assert_eq!(rt; stands(&file, place(0), 1), Ok(true));
    assert_eq!(rt; stands(&file, place(3), 4), Ok(true));
    assert_eq!(rt; stands(&file, place(3).wrapping_add(1), 4), Err(Failed));
    assert_eq!(rt; stands(&file, u64::MAX, 4), Err(Failed));
    assert_eq!(rt; file.read_at(file.size(), &mut []), Ok(()));
    Ok(())
}

#[test]
fn a_file_stands_behind_another(rt: HostRuntime) -> Result<(), Fail> {
    let alloc = rt.alloc();
    let first = MemFile::new(bytes(alloc)?, Vec::new(alloc));
    let second = MemFile::new(vec![in alloc; 4; 5000]?, Vec::new(alloc));
    let both = JoinedFiles::new(&first, &second);
    let end = first.size();
    assert_eq!(rt; both.size(), end.wrapping_add(5000));
    assert_eq!(rt; stands(&both, place(0), 1), Ok(true));
    for at in [
        place(3),
        place(3).wrapping_add(1),
        end.wrapping_sub(1),
        end,
        end.wrapping_add(904),
    ] {
        assert_eq!(rt; stands(&both, at, 4), Ok(true), "{at}");
    }
    assert_eq!(rt; stands(&both, end.wrapping_add(905), 4), Err(Failed));
    assert_eq!(rt; both.read_at(u64::MAX, &mut [0]), Err(Failed));
    Ok(())
}
