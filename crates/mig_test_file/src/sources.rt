use crate::made::{FailingFile, PAGES, place};
use mig_bytes::{Failed, Got, ReadFailed, Source, skip, take_exact};
use mig_file::{FileSource, MemFile, PageFile};
use std::test::Fail;

// A file is read on from a place, passed over without a read, and read again from there.
#[test]
fn a_file_is_read_on(rt: HostRuntime) -> Result<(), Fail> {
    let bytes = vec![in rt.alloc(); 10, 11, 12, 13, 14, 15, 16, 17, 18]?;
    let file = MemFile::new(bytes, vec![in rt.alloc(); 13, 14]?);
    let mut src = FileSource::new(&file, 1);
    let mut buf = [0; 2];
    assert_eq!(rt; take_exact(&mut src, &mut buf), Ok(Got::Whole));
    assert_eq!(rt; (buf, src.at()), ([11, 12], 3));
    let mut again = src.again();
    assert_eq!(rt; skip(&mut src, 2), Ok(true));
    assert_eq!(rt; take_exact(&mut src, &mut buf), Ok(Got::Whole));
    assert_eq!(rt; (buf, src.at()), ([15, 16], 7));
    assert_eq!(rt; skip(&mut again, 5), Ok(true));
    assert_eq!(rt; take_exact(&mut again, &mut buf), Ok(Got::Short(1)));
    assert_eq!(rt;
        (again.read(&mut buf), again.pass(3), again.at()),
        (Ok(0), Ok(0), 9)
    );
    Ok(())
}

// The third read of a file fails, as one of its bytes can't be read: what was read before is taken, and no more.
#[test]
fn a_read_of_a_file_fails(rt: HostRuntime) -> Result<(), Fail> {
    let bytes = vec![in rt.alloc(); 10, 11, 12, 13, 14, 15, 16]?;
    let file = MemFile::new(bytes, vec![in rt.alloc(); 5]?);
    let mut src = FileSource::new(&file, 0);
    let mut buf = [0; 2];
    assert_eq!(rt; take_exact(&mut src, &mut buf), Ok(Got::Whole));
    assert_eq!(rt; take_exact(&mut src, &mut buf), Ok(Got::Whole));
    assert_eq!(rt; take_exact(&mut src, &mut buf), Err(ReadFailed));
    assert_eq!(rt; src.at(), 4);
    Ok(())
}

// At the end of a file nothing is read, and nothing passed over.
#[test]
fn a_source_ends_with_its_file(rt: HostRuntime) -> Result<(), Fail> {
    let file = MemFile::new(vec![in rt.alloc(); 10, 11, 12]?, Vec::new(rt.alloc()));
    file.has_bytes();
    let mut buf = [0; 2];
    let mut src = FileSource::new(&file, 3);
    assert_eq!(rt; (src.read(&mut buf), src.pass(1)), (Ok(0), Ok(0)));
    Ok(())
}

// A file isn't asked for no bytes: not where none are asked for, and not where none are left.
#[test]
fn a_file_isnt_asked_for_nothing(rt: HostRuntime) -> Result<(), Fail> {
    let mut buf = [0; 2];
    let file = FailingFile::new(rt.alloc(), place(1))?;
    let mut src = FileSource::new(&file, place(1));
    assert_eq!(rt;
        (src.read(&mut []), src.read(&mut buf)),
        (Ok(0), Err(Failed))
    );
    let ended = FailingFile::new(rt.alloc(), place(PAGES))?;
    let mut src = FileSource::new(&ended, place(PAGES));
    assert_eq!(rt; (src.read(&mut buf), src.rest()), (Ok(0), 0));
    Ok(())
}
