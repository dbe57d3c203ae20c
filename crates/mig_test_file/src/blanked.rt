ghost use Rattle.std.specs.Prelude.{◌≡◌};
ghost use Rattle.mig_guest.specs.Formed.{IsFormed};

use mig_blanked::{PagesByNumber, blank_outline};
use mig_bytes::{MemSink, MemSource};
use mig_file::{FileSource, MemFile};
use mig_guest::Guest;
use mig_libxl::{place_any, read_any, write_any, write_any_with};
use mig_placing::PlacedGuest;
use mig_records_pages::{CopyFailed, FrameSequence, page_buffer};
use std::alloc::Global;
use std::test::Fail;

// Image header, domain header of a PV guest, X86_PV_INFO, STATIC_DATA_END, and X86_PV_P2M_FRAMES: frame 0 for the frame numbers
// from 0 to 4.
pub(crate) const FRONT: [u8; 88] = [
    0xff, 0xff, 0xff, 0xff, 0xff, 0xff, 0xff, 0xff, 0x58, 0x45, 0x4e, 0x46, 0, 0, 0, 3, 0, 0, 0, 0,
    0, 0, 0, 0, 1, 0, 0, 0, 0x0c, 0, 0, 0, 0, 0, 0, 0, 1, 0, 0, 0, 2, 0, 0, 0, 8, 0, 0, 0, 8, 4, 0,
    0, 0, 0, 0, 0, 0x10, 0, 0, 0, 0, 0, 0, 0, 3, 0, 0, 0, 0x10, 0, 0, 0, 0, 0, 0, 0, 4, 0, 0, 0, 0,
    0, 0, 0, 0, 0, 0, 0,
];

// Frame 2 is sent twice, frame 0 holds P2M lists, frame 1 is a table of level 4 that is pinned, frame 3 one of level 1, and
// frame 4 is BROKEN.
const WORDS: [u64; 6] = [
    2,
    0,
    0xC000_0000_0000_0001,
    0x1000_0000_0000_0003,
    0xD000_0000_0000_0004,
    2,
];

// Where the first page stands, behind the front and the head, the count and the words of PAGE_DATA, and where the others do.
const FIRST: u64 = 88 + 8 + 8 + 8 * 6;

const P2M: u64 = FIRST + 4096;

const LEVEL_4: u64 = FIRST + 4096 * 2;

const LEVEL_1: u64 = FIRST + 4096 * 3;

const LAST: u64 = FIRST + 4096 * 4;

// A table of level 4 whose slot 0 says frame 3, and whose slot 260, which is the hypervisor's, isn't 0.
fn level_4() -> [u8; 4096] {
    let mut page = [0; 4096];
    page[0..8].copy_from_slice(&0x3067u64.to_le_bytes());
    page[2080..2088].fill(0xff);
    page
}

// A table of level 1 whose slot 1 says frame 2.
fn level_1() -> [u8; 4096] {
    let mut page = [0; 4096];
    page[8..16].copy_from_slice(&0x2067u64.to_le_bytes());
    page
}

// The shared page, where the root of the P2M lists isn't 0.
pub(crate) fn shared() -> [u8; 4096] {
    let mut page = [0; 4096];
    page[3096] = 0x99;
    page
}

// The context of a vCPU: rdx says frame 2, and ctrlreg[3] frame 1, with bits below that the hypervisor set.
pub(crate) fn context() -> [u8; 5168] {
    let mut context = [0; 5168];
    context[616] = 2;
    context[5008..5016].copy_from_slice(&0x1067u64.to_le_bytes());
    context
}

// A stream of a PV guest that isn't in its blank form.
fn stream(alloc: Global) -> Result<Vec<u8>, Fail> {
    let mut text = Vec::new(alloc);
    text.extend_from_slice(&FRONT)?;
    text.extend_from_slice(&1u32.to_le_bytes())?;
    text.extend_from_slice(&(8 + 8 * 6 + 4096 * 5u32).to_le_bytes())?;
    text.extend_from_slice(&6u64.to_le_bytes())?;
    for word in WORDS {
        text.extend_from_slice(&word.to_le_bytes())?;
    }
    text.extend_from_slice(&[7; 4096])?;
    text.extend_from_slice(&[0xee; 4096])?;
    text.extend_from_slice(&level_4())?;
    text.extend_from_slice(&level_1())?;
    text.extend_from_slice(&[9; 4096])?;
    text.extend_from_slice(&[7, 0, 0, 0, 0, 0x10, 0, 0])?;
    text.extend_from_slice(&shared())?;
    text.extend_from_slice(&[4, 0, 0, 0, 0x38, 0x14, 0, 0, 0, 0, 0, 0, 0, 0, 0, 0])?;
    text.extend_from_slice(&context())?;
    text.extend_from_slice(&[0; 8])?;
    Ok(text)
}

// What is written of the guest of this stream with all its pages kept.
pub(crate) fn kept(alloc: Global, text: Vec<u8>) -> Result<MemSink, Fail> {
    let mut src = MemSource::new(text, Vec::new(alloc), Vec::new(alloc));
    let Ok(reading) = read_any(alloc, &mut src) else {
        return Err("it is refused".into());
    };
    let mut sink = MemSink::new(alloc, Vec::new(alloc));
    match write_any(&mut sink, &reading.guest) {
        Ok(()) => Ok(sink),
        Err(_) => Err("it isn't written".into()),
    }
}

// Writes these frames with the rest of the guest.
fn write_frames<F: FrameSequence>(
    sink: &mut MemSink,
    outline: &Guest,
    frames: &F,
) -> Result<(), CopyFailed>
    requires { IsFormed outline.now }
{
    let mut buffer = page_buffer();
    write_any_with(sink, outline, frames, &mut buffer)
}

// Writes the guest of the stream in a file, of which another reading of the same is given.
pub(crate) fn copied(
    alloc: Global,
    sink: &mut MemSink,
    file: &MemFile,
    again: &MemFile,
) -> Result<Result<(), CopyFailed>, Fail> {
    let mut src = FileSource::new(file, 0);
    let Ok(
        PlacedGuest {
            mut outline,
            places,
            ..
        },
    ) = place_any(alloc, &mut src)
    else {
        return Err("it is refused".into());
    };
    let Ok(marks) = blank_outline(alloc, &mut outline) else {
        return Err("no memory".into());
    };
    let frames = PagesByNumber::new(&outline, &marks, &places, again);
    Ok(write_frames(sink, &outline, &frames))
}

// No page is read again but that of frame 2: the page that it had before, that of the P2M frame and the tables can't be.
#[test]
fn a_pv_guest_out_of_a_file_is_that_out_of_memory(rt: HostRuntime) -> Result<(), Fail> {
    let alloc = rt.alloc();
    let bad = vec![in alloc; FIRST, P2M, LEVEL_4, LEVEL_1]?;
    let file = MemFile::new(stream(alloc)?, Vec::new(alloc));
    let again = MemFile::new(stream(alloc)?, bad);
    let mut sink = MemSink::new(alloc, Vec::new(alloc));
    assert_eq!(rt; copied(alloc, &mut sink, &file, &again)?, Ok(()));
    assert!(rt; sink.bytes() == kept(alloc, stream(alloc)?)?.bytes());
    Ok(())
}

#[test]
fn a_pv_guest_ends_where_a_page_cant_be_read(rt: HostRuntime) -> Result<(), Fail> {
    let alloc = rt.alloc();
    let file = MemFile::new(stream(alloc)?, Vec::new(alloc));
    let again = MemFile::new(stream(alloc)?, vec![in alloc; LAST]?);
    let mut sink = MemSink::new(alloc, Vec::new(alloc));
    let whole = kept(alloc, stream(alloc)?)?;
    assert_eq!(rt;
        copied(alloc, &mut sink, &file, &again)?,
        Err(CopyFailed::Read)
    );
    assert!(rt; whole.bytes().starts_with(sink.bytes()));
    assert!(rt; sink.bytes().len() < whole.bytes().len());
    Ok(())
}
