ghost use Rattle.std.specs.Prelude.{◌≡◌, ◌≤◌, ◌*◌, length};

use crate::made::{FailingFile, PAGES, THIRD, buffer, bytes, place, places, record};
use mig_bytes::MemSink;
use mig_file::MemFile;
use mig_placed::{PlacedFrames, Places};
use mig_records_pages::{CopyFailed, FrameSequence, write_page_data};
use std::test::Fail;

// Writes the record of all frames through a buffer for so many pages.
fn write_all<F: FrameSequence>(
    sink: &mut MemSink,
    frames: &F,
    buffer: &mut [u8],
) -> Result<(), CopyFailed>
    requires some { 4096 ≤ length buffer.old }
    requires most { length buffer.old ≤ 4096 * 1024 }
{
    let count = frames.frame_count();
    if count > 1024 {
        return Ok(());
    }
    match write_page_data(sink, frames, buffer, 0, count as u32) {
        Ok(_) => Ok(()),
        Err(failed) => Err(failed),
    }
}

#[test]
fn frames_come_out_of_a_file(rt: HostRuntime) -> Result<(), Fail> {
    let alloc = rt.alloc();
    let file = MemFile::new(bytes(alloc)?, Vec::new(alloc));
    let places = places(alloc)?;
    let want = record(alloc)?;
    for pages in 1..7 {
        let mut buffer = buffer(alloc, pages)?;
        let mut sink = MemSink::new(alloc, Vec::new(alloc));
        let frames = PlacedFrames::new(&places, &file);
        assert_eq!(rt;
            write_all(&mut sink, &frames, &mut buffer),
            Ok(()),
            "{pages}"
        );
        assert!(rt; sink.bytes() == want.as_slice(), "{pages}");
    }
    Ok(())
}

// Before the page of frame 4 that can't be read stand 64 bytes and three pages; what was gathered with it isn't written.
#[test]
fn a_page_that_cant_be_read_is_told(rt: HostRuntime) -> Result<(), Fail> {
    let alloc = rt.alloc();
    let file = FailingFile::new(alloc, place(THIRD))?;
    let places = places(alloc)?;
    let want = record(alloc)?;
    for (pages, written) in [(1, 12_352), (2, 8_256), (3, 12_352), (6, 64)] {
        let mut buffer = buffer(alloc, pages)?;
        let mut sink = MemSink::new(alloc, Vec::new(alloc));
        let frames = PlacedFrames::new(&places, &file);
        assert_eq!(rt;
            write_all(&mut sink, &frames, &mut buffer),
            Err(CopyFailed::Read),
            "{pages}"
        );
        assert!(rt; want.as_slice().starts_with(sink.bytes()), "{pages}");
        assert_eq!(rt; sink.bytes().len(), written, "{pages}");
    }
    Ok(())
}

// Through a buffer of one page the record takes eight writes: head, count, words and five pages. The last turn fails at none.
#[test]
fn a_write_that_fails_is_told(rt: HostRuntime) -> Result<(), Fail> {
    let alloc = rt.alloc();
    let file = MemFile::new(bytes(alloc)?, Vec::new(alloc));
    let places = places(alloc)?;
    let want = record(alloc)?;
    for fails in 0..9 {
        let mut buffer = buffer(alloc, 1)?;
        let mut sink = MemSink::new(alloc, vec![in alloc; fails]?);
        let frames = PlacedFrames::new(&places, &file);
        let wrote = write_all(&mut sink, &frames, &mut buffer);
        assert_eq!(rt; wrote.is_ok(), fails == 8, "{fails}");
        assert_eq!(rt; wrote == Err(CopyFailed::Write), fails < 8, "{fails}");
        assert!(rt; want.as_slice().starts_with(sink.bytes()), "{fails}");
        assert_eq!(rt; sink.bytes().len() == want.len(), fails == 8, "{fails}");
    }
    Ok(())
}

#[test]
fn places_end_with_the_file(rt: HostRuntime) -> Result<(), Fail> {
    let places = places(rt.alloc())?;
    let size = place(PAGES);
    assert_eq!(rt; places.len(), 6);
    assert!(rt; places.end_within(size));
    assert!(rt; !places.end_within(size.wrapping_sub(1)));
    assert!(rt; Places::new(rt.alloc()).end_within(0));
    Ok(())
}
