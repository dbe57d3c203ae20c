use crate::placing::FRONT;
use mig_bytes::Answer;
use mig_file::{FileSource, MemFile};
use mig_libxl::{compare_any, read_any};
use std::alloc::Global;
use std::test::Fail;

// Frame 1 is sent twice, frame 3 is XALLOC, and frame 4 is taken away again. The pages are of the values 1, 2, 3 and 4.
const SENT: [u64; 6] = [1, 2, 0xE000_0000_0000_0003, 4, 0xF000_0000_0000_0004, 1];

// What is sent behind VERIFY, with pages of the values 4, 9, 5 and 2. Four entries differ: the first of frame 2, by its page;
// that of frame 5, which isn't there; XALLOC for frame 1, and XTAB for frame 2.
const CHECKED: [u64; 8] = [
    1,
    2,
    0xE000_0000_0000_0003,
    0xF000_0000_0000_0004,
    5,
    2,
    0xE000_0000_0000_0001,
    0xF000_0000_0000_0002,
];

// Where the pages of SENT stand: the first of frame 1, that of frame 2, and the last of frame 1, which counts.
const FIRST: u64 = 96 + 8 + 8 + 8 * 6;

const SECOND: u64 = FIRST + 4096;

const LAST: u64 = FIRST + 4096 * 3;

// An image of an HVM guest: the front, the PAGE_DATA of SENT, VERIFY, the PAGE_DATA of CHECKED, and END.
fn image(alloc: Global) -> Result<Vec<u8>, Fail> {
    let mut text = Vec::new(alloc);
    text.extend_from_slice(&FRONT)?;
    text.extend_from_slice(&1u32.to_le_bytes())?;
    text.extend_from_slice(&(8 + 8 * 6 + 4096 * 4u32).to_le_bytes())?;
    text.extend_from_slice(&6u64.to_le_bytes())?;
    for word in SENT {
        text.extend_from_slice(&word.to_le_bytes())?;
    }
    for value in [1, 2, 3, 4] {
        text.extend_from_slice(&[value; 4096])?;
    }
    text.extend_from_slice(&[13, 0, 0, 0, 0, 0, 0, 0])?;
    text.extend_from_slice(&1u32.to_le_bytes())?;
    text.extend_from_slice(&(8 + 8 * 8 + 4096 * 4u32).to_le_bytes())?;
    text.extend_from_slice(&8u64.to_le_bytes())?;
    for word in CHECKED {
        text.extend_from_slice(&word.to_le_bytes())?;
    }
    for value in [4, 9, 5, 2] {
        text.extend_from_slice(&[value; 4096])?;
    }
    text.extend_from_slice(&[0; 8])?;
    Ok(text)
}

// The same is said as where all pages are kept. A page that was sent and counts for nothing can't be read, and hasn't to be.
#[test]
fn as_many_differ_as_of_a_guest_that_is_kept(rt: HostRuntime) -> Result<(), Fail> {
    let alloc = rt.alloc();
    let file = MemFile::new(image(alloc)?, vec![in alloc; FIRST]?);
    let mut src = FileSource::new(&file, 0);
    let Ok(comparison) = compare_any(alloc, &mut src) else {
        return Err("it is refused".into());
    };
    assert_eq!(rt; src.rest(), 0);
    assert_eq!(rt; comparison.differs, Some(4));
    assert_eq!(rt; (comparison.tally.frames, comparison.tally.records), (3, 6));
    let whole = MemFile::new(image(alloc)?, Vec::new(alloc));
    let Ok(reading) = read_any(alloc, &mut FileSource::new(&whole, 0)) else {
        return Err("it isn't read".into());
    };
    assert_eq!(rt; reading.differs, comparison.differs);
    assert_eq!(rt; reading.guest.frames(), comparison.tally.frames);
    assert_eq!(rt; reading.records, comparison.tally.records);
    Ok(())
}

// Without VERIFY nothing is compared, and no page is read.
#[test]
fn nothing_is_compared_without_verify(rt: HostRuntime) -> Result<(), Fail> {
    let alloc = rt.alloc();
    let mut bytes = image(alloc)?;
    bytes.truncate((LAST + 4096) as usize);
    bytes.extend_from_slice(&[0; 8])?;
    let file = MemFile::new(bytes, vec![in alloc; FIRST, SECOND, LAST]?);
    let Ok(comparison) = compare_any(alloc, &mut FileSource::new(&file, 0)) else {
        return Err("it is refused".into());
    };
    assert_eq!(rt; comparison.differs, None);
    assert_eq!(rt; comparison.tally.frames, 3);
    Ok(())
}

// The page that the first entry is compared with can't be read, and then that of the second: it is a read fault.
#[test]
fn a_page_that_is_compared_cant_be_read(rt: HostRuntime) -> Result<(), Fail> {
    let alloc = rt.alloc();
    for bad in [LAST, SECOND] {
        let file = MemFile::new(image(alloc)?, vec![in alloc; bad]?);
        match compare_any(alloc, &mut FileSource::new(&file, 0)) {
            Ok(_) => return Err("it is accepted".into()),
            Err(answer) => assert_eq!(rt; answer, Answer::ReadFault),
        }
    }
    Ok(())
}
