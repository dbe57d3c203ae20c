use mig_file::{FileSource, MemFile, PageFile};
use mig_headers::Kind;
use mig_legacy::place_legacy;
use mig_pagetypes::{FrameWord, PageType};
use mig_placing::place_image;
use std::alloc::Global;
use std::test::Fail;

// Image header, domain header, STATIC_DATA_END, and HVM_CONTEXT with a header of 24 bytes and its end.
pub(crate) const FRONT: [u8; 96] = [
    0xff, 0xff, 0xff, 0xff, 0xff, 0xff, 0xff, 0xff, 0x58, 0x45, 0x4e, 0x46, 0, 0, 0, 3, 0, 0, 0, 0,
    0, 0, 0, 0, 2, 0, 0, 0, 0x0c, 0, 0, 0, 0, 0, 0, 0, 1, 0, 0, 0, 0x10, 0, 0, 0, 0, 0, 0, 0, 9, 0,
    0, 0, 0x28, 0, 0, 0, 1, 0, 0, 0, 0x18, 0, 0, 0, 0x11, 0x11, 0x11, 0x11, 0x11, 0x11, 0x11, 0x11,
    0x11, 0x11, 0x11, 0x11, 0x11, 0x11, 0x11, 0x11, 0x11, 0x11, 0x11, 0x11, 0x11, 0x11, 0x11, 0x11,
    0, 0, 0, 0, 0, 0, 0, 0,
];

// Frame 1 is sent twice, frame 2 is taken away, and frame 3 is XALLOC.
const WORDS: [u64; 5] = [1, 2, 0xE000_0000_0000_0003, 0xF000_0000_0000_0002, 1];

// Where the first page stands, behind the front and the head, the count and the words of PAGE_DATA, and where the last does.
const FIRST: u64 = 96 + 8 + 8 + 8 * 5;

const LAST: u64 = FIRST + 4096 * 2;

// An image of an HVM guest: the front, a PAGE_DATA with pages of the values 1, 2 and 3, and END.
fn image(alloc: Global) -> Result<Vec<u8>, Fail> {
    let mut text = Vec::new(alloc);
    text.extend_from_slice(&FRONT)?;
    text.extend_from_slice(&1u32.to_le_bytes())?;
    text.extend_from_slice(&(8 + 8 * 5 + 4096 * 3u32).to_le_bytes())?;
    text.extend_from_slice(&5u64.to_le_bytes())?;
    for word in WORDS {
        text.extend_from_slice(&word.to_le_bytes())?;
    }
    for value in [1, 2, 3] {
        text.extend_from_slice(&[value; 4096])?;
    }
    text.extend_from_slice(&[0; 8])?;
    Ok(text)
}

// None of its pages can be read whole, and none has to be.
#[test]
fn an_image_is_placed(rt: HostRuntime) -> Result<(), Fail> {
    let alloc = rt.alloc();
    let bad = vec![in alloc; FIRST, FIRST + 4096, LAST]?;
    let file = MemFile::new(image(alloc)?, bad);
    let mut src = FileSource::new(&file, 0);
    let Ok(placed) = place_image(alloc, &mut src) else {
        return Err("it is refused".into());
    };
    assert_eq!(rt; (src.at(), src.rest()), (file.size(), 0));
    assert_eq!(rt; placed.outline.kind(), Kind::Hvm);
    assert_eq!(rt; (placed.outline.frames(), placed.places.len()), (2, 2));
    let first = FrameWord {
        pfn: LAST + 1,
        kind: PageType::Notab,
    };
    assert_eq!(rt; placed.places.next(0), Some((1, first)));
    let second = FrameWord {
        pfn: 0,
        kind: PageType::Xalloc,
    };
    assert_eq!(rt; placed.places.next(2), Some((3, second)));
    assert_eq!(rt; placed.places.next(4), None);
    Ok(())
}

// The place counts from the front of the file, and not from that of the image.
#[test]
fn an_image_is_placed_behind_other_bytes(rt: HostRuntime) -> Result<(), Fail> {
    let alloc = rt.alloc();
    let mut bytes = vec![in alloc; 0; 100]?;
    bytes.extend_from_slice(&image(alloc)?)?;
    let file = MemFile::new(bytes, Vec::new(alloc));
    let mut src = FileSource::new(&file, 100);
    let Ok(placed) = place_image(alloc, &mut src) else {
        return Err("it is refused".into());
    };
    let mut page = [0; 4096];
    match placed.places.next(1) {
        Some((1, word)) if word.pfn > 0 => {
            assert_eq!(rt; word.pfn - 1, 100 + LAST);
            assert_eq!(rt; placed.file.read_at(word.pfn - 1, &mut page), Ok(()));
        }
        _ => return Err("frame 1 isn't noted".into()),
    }
    assert!(rt; page == [3; 4096]);
    Ok(())
}

// The last page ends with the file before END comes: the image is refused, and nothing is answered.
#[test]
fn an_image_without_its_end_isnt_placed(rt: HostRuntime) -> Result<(), Fail> {
    let alloc = rt.alloc();
    let mut bytes = image(alloc)?;
    bytes.truncate((LAST + 4096) as usize);
    let file = MemFile::new(bytes, Vec::new(alloc));
    let mut src = FileSource::new(&file, 0);
    assert!(rt; place_image(alloc, &mut src).is_err());
    assert_eq!(rt; src.rest(), 0);
    Ok(())
}

// The width of the P2M, a batch of three words (one that stands for nothing, frame 5, and XTAB for frame 7), frame 5's page of
// the value 4, the end of the chunks, the tail, and a context with a header of 24 bytes and its end. No device model follows.
fn legacy(alloc: Global) -> Result<Vec<u8>, Fail> {
    let mut text = vec![in alloc; 0, 1, 0, 0, 0, 0, 0, 0]?;
    text.extend_from_slice(&3u32.to_le_bytes())?;
    for word in [0xF000_0000u64, 5, 0xF000_0007] {
        text.extend_from_slice(&word.to_le_bytes())?;
    }
    text.extend_from_slice(&[4; 4096])?;
    text.extend_from_slice(&[0; 4])?;
    text.extend_from_slice(&[7; 24])?;
    text.extend_from_slice(&40u32.to_le_bytes())?;
    text.extend_from_slice(&[1, 0, 0, 0, 24, 0, 0, 0])?;
    text.extend_from_slice(&[0x11; 24])?;
    text.extend_from_slice(&[0; 8])?;
    Ok(text)
}

// Its page stands behind 36 bytes, can't be read, and hasn't to be.
#[test]
fn a_legacy_stream_is_placed(rt: HostRuntime) -> Result<(), Fail> {
    let alloc = rt.alloc();
    let file = MemFile::new(legacy(alloc)?, vec![in alloc; 36]?);
    let mut src = FileSource::new(&file, 0);
    let Ok(placed) = place_legacy(alloc, &mut src) else {
        return Err("it is refused".into());
    };
    assert_eq!(rt; src.rest(), 0);
    assert_eq!(rt; (placed.outline.frames(), placed.places.len()), (1, 1));
    let word = FrameWord {
        pfn: 37,
        kind: PageType::Notab,
    };
    assert_eq!(rt; placed.places.next(0), Some((5, word)));
    Ok(())
}
