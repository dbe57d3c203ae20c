ghost use Rattle.std.specs.Prelude.{◌≡◌};
ghost use Rattle.mig_guest.specs.Formed.{IsFormed};

use crate::made::{FailingFile, SEEN, THIRD, bytes, place, places};
use mig_bytes::MemSink;
use mig_canon::write_canon_with;
use mig_file::MemFile;
use mig_guest::Guest;
use mig_headers::Kind;
use mig_placed::PlacedFrames;
use mig_records_pages::{CopyFailed, FrameSequence, page_buffer};
use std::alloc::Global;
use std::test::Fail;

// A guest without frames and parts.
fn empty(alloc: Global) -> Guest
    ensures { IsFormed result }
{
    Guest::new(alloc, Kind::Pv)
}

// The image of a guest that has these frames, and no parts.
fn write_image<F: FrameSequence>(
    alloc: Global,
    sink: &mut MemSink,
    frames: &F,
) -> Result<(), CopyFailed> {
    let guest = empty(alloc);
    let mut buffer = page_buffer();
    write_canon_with(sink, &guest, frames, &mut buffer)
}

// Puts the frames that stand in the file into a guest.
fn put_frames(guest: &mut Guest) -> Result<(), Fail> {
    for (word, kind, value) in SEEN {
        let pfn = word % (1 << 52);
        let page = [value; 4096];
        let set = if kind.has_data() {
            guest.set_frame(pfn, kind, Some(&page))
        } else {
            guest.set_frame(pfn, kind, None)
        };
        if set.is_err() {
            return Err("no memory".into());
        }
    }
    Ok(())
}

// What is written of the frames out of memory.
fn kept(alloc: Global) -> Result<MemSink, Fail> {
    let mut guest = Guest::new(alloc, Kind::Pv);
    put_frames(&mut guest)?;
    let mut sink = MemSink::new(alloc, Vec::new(alloc));
    match write_image(alloc, &mut sink, &guest) {
        Ok(()) => Ok(sink),
        Err(_) => Err("it isn't written".into()),
    }
}

#[test]
fn an_image_out_of_a_file_is_that_out_of_memory(rt: HostRuntime) -> Result<(), Fail> {
    let alloc = rt.alloc();
    let file = MemFile::new(bytes(alloc)?, Vec::new(alloc));
    let places = places(alloc)?;
    let mut sink = MemSink::new(alloc, Vec::new(alloc));
    let frames = PlacedFrames::new(&places, &file);
    assert_eq!(rt; write_image(alloc, &mut sink, &frames), Ok(()));
    assert!(rt; sink.bytes() == kept(alloc)?.bytes());
    Ok(())
}

#[test]
fn an_image_ends_where_a_page_cant_be_read(rt: HostRuntime) -> Result<(), Fail> {
    let alloc = rt.alloc();
    let file = FailingFile::new(alloc, place(THIRD))?;
    let places = places(alloc)?;
    let mut sink = MemSink::new(alloc, Vec::new(alloc));
    let frames = PlacedFrames::new(&places, &file);
    let whole = kept(alloc)?;
    assert_eq!(rt;
        write_image(alloc, &mut sink, &frames),
        Err(CopyFailed::Read)
    );
    assert!(rt; whole.bytes().starts_with(sink.bytes()));
    assert!(rt; sink.bytes().len() < whole.bytes().len());
    Ok(())
}
