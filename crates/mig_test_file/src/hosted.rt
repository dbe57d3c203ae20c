use crate::placing::FRONT;
use mig_bytes::MemSink;
use mig_file::{FileSource, MemFile};
use mig_headers::Kind;
use mig_image::{host_of, write_host, write_hosted};
use mig_libxl::{place_any, read_any};
use mig_placed::PlacedFrames;
use mig_records_pages::CopyFailed;
use std::alloc::Global;
use std::test::Fail;

// The first machine frame: 0x03E8.
const BASE: u64 = 1000;

// Frame 4 is sent twice, and frame 3 is XALLOC: six frames stand then, more than one write takes.
const WORDS: [u64; 7] = [9, 1, 4, 0xE000_0000_0000_0003, 2, 6, 4];

// The values of the pages that come with them; that of frame 1 is all zeros.
const PAGES: [u8; 6] = [5, 0, 2, 3, 4, 6];

// Where the first page stands, and where that of frame 6 does, which the second write takes.
const FIRST: u64 = 96 + 8 + 8 + 8 * 7;

const LATER: u64 = FIRST + 4096 * 4;

// An image of an HVM guest with these frames.
fn image(alloc: Global) -> Result<Vec<u8>, Fail> {
    let mut text = Vec::new(alloc);
    text.extend_from_slice(&FRONT)?;
    text.extend_from_slice(&1u32.to_le_bytes())?;
    text.extend_from_slice(&(8 + 8 * 7 + 4096 * 6u32).to_le_bytes())?;
    text.extend_from_slice(&7u64.to_le_bytes())?;
    for word in WORDS {
        text.extend_from_slice(&word.to_le_bytes())?;
    }
    for value in PAGES {
        text.extend_from_slice(&[value; 4096])?;
    }
    text.extend_from_slice(&[0; 8])?;
    Ok(text)
}

// An image of an HVM guest without frames.
fn empty_image(alloc: Global) -> Result<Vec<u8>, Fail> {
    let mut text = Vec::new(alloc);
    text.extend_from_slice(&FRONT)?;
    text.extend_from_slice(&[0; 8])?;
    Ok(text)
}

// What is written of the guest's host where all pages are kept.
fn kept(alloc: Global, text: Vec<u8>) -> Result<MemSink, Fail> {
    let file = MemFile::new(text, Vec::new(alloc));
    let mut src = FileSource::new(&file, 0);
    let Ok(reading) = read_any(alloc, &mut src) else {
        return Err("it is refused".into());
    };
    let Ok(host) = host_of(alloc, reading.guest, BASE) else {
        return Err("there is no host".into());
    };
    let mut sink = MemSink::new(alloc, Vec::new(alloc));
    match write_host(&mut sink, &host) {
        Ok(()) => Ok(sink),
        Err(_) => Err("it isn't written".into()),
    }
}

// Writes the same with the pages read at their places in the file.
fn write_placed(
    alloc: Global,
    sink: &mut MemSink,
    file: &MemFile,
) -> Result<Result<(), CopyFailed>, Fail> {
    let mut src = FileSource::new(file, 0);
    let Ok(placed) = place_any(alloc, &mut src) else {
        return Err("it is refused".into());
    };
    let frames = PlacedFrames::new(&placed.places, placed.file);
    match placed.outline.kind() {
        Kind::Hvm => Ok(write_hosted(sink, &placed.outline, &frames, BASE)),
        Kind::Pv => Err("it is a PV guest's".into()),
    }
}

#[test]
fn a_host_out_of_a_file_is_that_out_of_memory(rt: HostRuntime) -> Result<(), Fail> {
    let alloc = rt.alloc();
    let file = MemFile::new(image(alloc)?, Vec::new(alloc));
    let mut sink = MemSink::new(alloc, Vec::new(alloc));
    assert_eq!(rt; write_placed(alloc, &mut sink, &file)?, Ok(()));
    assert!(rt; sink.bytes() == kept(alloc, image(alloc)?)?.bytes());
    // The name and the number of frames; frame 1 with the flag of its zeros; frame 2, its page, and frame 3 behind it.
    for (place, byte) in [
        (0, b'X'),
        (7, b'2'),
        (16, 10),
        (24, 6),
        (32, 1),
        (38, 0x10),
        (40, 0xE8),
        (41, 3),
        (48, 2),
        (56, 0xE9),
        (64, 3),
        (4159, 3),
        (4160, 3),
        (4167, 0xE0),
        (4168, 0xEA),
    ] {
        assert_eq!(rt; sink.bytes().get(place).copied(), Some(byte), "{place}");
    }
    Ok(())
}

#[test]
fn a_host_without_frames_is_written(rt: HostRuntime) -> Result<(), Fail> {
    let alloc = rt.alloc();
    let file = MemFile::new(empty_image(alloc)?, Vec::new(alloc));
    let mut sink = MemSink::new(alloc, Vec::new(alloc));
    assert_eq!(rt; write_placed(alloc, &mut sink, &file)?, Ok(()));
    assert!(rt; sink.bytes() == kept(alloc, empty_image(alloc)?)?.bytes());
    assert_eq!(rt; sink.bytes().get(24).copied(), Some(0));
    Ok(())
}

// What is written then is a front of the image, with the frames of the first write.
#[test]
fn a_host_ends_where_a_page_cant_be_read(rt: HostRuntime) -> Result<(), Fail> {
    let alloc = rt.alloc();
    let file = MemFile::new(image(alloc)?, vec![in alloc; LATER]?);
    let mut sink = MemSink::new(alloc, Vec::new(alloc));
    assert_eq!(rt;
        write_placed(alloc, &mut sink, &file)?,
        Err(CopyFailed::Read)
    );
    let whole = kept(alloc, image(alloc)?)?;
    assert!(rt; whole.bytes().starts_with(sink.bytes()));
    assert!(rt; sink.bytes().len() > 4168);
    assert!(rt; sink.bytes().len() < whole.bytes().len());
    Ok(())
}

// Nothing of it is written where the write of the head fails.
#[test]
fn a_host_ends_where_a_write_fails(rt: HostRuntime) -> Result<(), Fail> {
    let alloc = rt.alloc();
    let file = MemFile::new(image(alloc)?, Vec::new(alloc));
    let mut sink = MemSink::new(alloc, vec![in alloc; 0]?);
    assert_eq!(rt;
        write_placed(alloc, &mut sink, &file)?,
        Err(CopyFailed::Write)
    );
    assert_eq!(rt; sink.bytes().len(), 0);
    Ok(())
}
