use crate::blanked::{FRONT, context, copied, kept, shared};
use mig_bytes::MemSink;
use mig_file::MemFile;
use mig_records_pages::CopyFailed;
use std::alloc::Global;
use std::test::Fail;

// Frames 0 and 2 are plain, frame 1 is the table of level 4 that a vCPU names, frame 3 is plain, frame 4 holds P2M lists,
// frames 5 and 6 are plain, frame 7 is a table of level 1, and frames 8 and 9 are plain. Frame 3 has no page.
const WORDS: [u64; 10] = [
    0,
    0xC000_0000_0000_0001,
    2,
    0xD000_0000_0000_0003,
    4,
    5,
    6,
    0x1000_0000_0000_0007,
    8,
    9,
];

// Where the first page stands, behind the front and the head, the count and the words of PAGE_DATA.
const FIRST: u64 = 88 + 8 + 8 + 8 * 10;

// Where the last page stands, in a run with the page before it.
const LAST: u64 = FIRST + 4096 * 8;

// A page whose first 8 bytes say this, and whose other bytes are all of this value.
fn page(front: u64, value: u8) -> [u8; 4096] {
    let mut page = [value; 4096];
    page[0..8].copy_from_slice(&front.to_le_bytes());
    page
}

// A stream of a PV guest of frames 0 to 9, whose P2M lists stand in frame 4.
fn stream(alloc: Global) -> Result<Vec<u8>, Fail> {
    let mut front = FRONT;
    front[76] = 9;
    front[80] = 4;
    let mut text = Vec::new(alloc);
    text.extend_from_slice(&front)?;
    text.extend_from_slice(&1u32.to_le_bytes())?;
    text.extend_from_slice(&(8 + 8 * 10 + 4096 * 9u32).to_le_bytes())?;
    text.extend_from_slice(&10u64.to_le_bytes())?;
    for word in WORDS {
        text.extend_from_slice(&word.to_le_bytes())?;
    }
    text.extend_from_slice(&page(1, 1))?;
    text.extend_from_slice(&page(0x7067, 0))?;
    for value in [2, 4, 5, 6] {
        text.extend_from_slice(&page(1, value))?;
    }
    text.extend_from_slice(&page(0x2067, 0))?;
    for value in [8, 9] {
        text.extend_from_slice(&page(1, value))?;
    }
    text.extend_from_slice(&[7, 0, 0, 0, 0, 0x10, 0, 0])?;
    text.extend_from_slice(&shared())?;
    text.extend_from_slice(&[4, 0, 0, 0, 0x38, 0x14, 0, 0, 0, 0, 0, 0, 0, 0, 0, 0])?;
    text.extend_from_slice(&context())?;
    text.extend_from_slice(&[0; 8])?;
    Ok(text)
}

// Runs end before the tables and the P2M frame, whose pages aren't those in the file, and go over a frame without a page.
#[test]
fn runs_of_a_pv_guest_leave_out_what_is_changed(rt: HostRuntime) -> Result<(), Fail> {
    let alloc = rt.alloc();
    let file = MemFile::new(stream(alloc)?, Vec::new(alloc));
    let mut sink = MemSink::new(alloc, Vec::new(alloc));
    assert_eq!(rt; copied(alloc, &mut sink, &file, &file)?, Ok(()));
    assert!(rt; sink.bytes() == kept(alloc, stream(alloc)?)?.bytes());
    Ok(())
}

// The last of two pages that are read at once can't be read.
#[test]
fn a_pv_guest_ends_where_a_run_cant_be_read(rt: HostRuntime) -> Result<(), Fail> {
    let alloc = rt.alloc();
    let file = MemFile::new(stream(alloc)?, Vec::new(alloc));
    let again = MemFile::new(stream(alloc)?, vec![in alloc; LAST]?);
    let mut sink = MemSink::new(alloc, Vec::new(alloc));
    let whole = kept(alloc, stream(alloc)?)?;
    assert_eq!(rt;
        copied(alloc, &mut sink, &file, &again)?,
        Err(CopyFailed::Read)
    );
    assert!(rt; whole.bytes().starts_with(sink.bytes()));
    assert!(rt; sink.bytes().len() < whole.bytes().len());
    Ok(())
}
