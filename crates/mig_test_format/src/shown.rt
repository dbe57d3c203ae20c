use crate::passing::smallest;
use mig_bytes::{MemSource, Source};
use mig_file::{FileSource, MemFile};
use mig_show::{Seen1, show, tree_of};
use std::alloc::Global;
use std::test::Fail;

// What is shown of the smallest stream.
const TEXT: &str =
    r#"{"kind":"hvm","records":[{"layer":"libxc","length":0,"name":"STATIC_DATA_END","type":16},{"layer":"libxc","length":40,"name":"HVM_CONTEXT","type":9},{"layer":"libxc","length":0,"name":"END","type":0}],"refused":null,"version":3,"wrapper":false}"#;

// What is shown of the END record of a libxl stream.
const END: &str =
    r#"{"kind":null,"records":[{"layer":"libxl","length":0,"name":"END","type":0}],"refused":null,"version":null,"wrapper":true}"#;

// The texts, about which a proof is to know nothing.
fn text() -> &'static str {
    TEXT
}

fn end() -> &'static str {
    END
}

// The text of what is shown of a stream that isn't refused.
fn shown_text<S: Source>(alloc: Global, src: &mut S) -> Result<String, Fail> {
    match show(alloc, src) {
        Ok(shown) if shown.refused.is_none() => Ok(shown.tree.to_string(alloc)?),
        _ => Err("it isn't shown".into()),
    }
}

// The text of a tree with one record.
fn tree_text(alloc: Global, record: Seen1) -> Result<String, Fail> {
    match tree_of(alloc, true, None, None, &[record], None) {
        Ok(tree) => Ok(tree.to_string(alloc)?),
        Err(_) => Err("no memory".into()),
    }
}

#[test]
fn the_smallest_stream_is_shown(rt: HostRuntime) -> Result<(), Fail> {
    let alloc = rt.alloc();
    let bytes = smallest().to_vec(alloc)?;
    let mut src = MemSource::new(bytes, Vec::new(alloc), Vec::new(alloc));
    assert_eq!(rt; shown_text(alloc, &mut src)?.as_str(), text());
    Ok(())
}

#[test]
fn a_tree_has_its_record(rt: HostRuntime) -> Result<(), Fail> {
    let record = Seen1 {
        wrapped: true,
        kind: 0,
        len: 0,
        words: 0,
        pages: 0,
    };
    assert_eq!(rt; tree_text(rt.alloc(), record)?.as_str(), end());
    Ok(())
}

// The head of a PAGE_DATA with one frame, its count and its word; the frame's page follows.
const ONE_FRAME: [u8; 24] = [
    1, 0, 0, 0, 16, 16, 0, 0, 1, 0, 0, 0, 0, 0, 0, 0, 7, 0, 0, 0, 0, 0, 0, 0,
];

// Where the first byte of that page is, behind the headers and STATIC_DATA_END.
const PAGE_AT: u64 = 48 + 24;

// The smallest stream with one frame.
fn with_a_frame(alloc: Global) -> Result<Vec<u8>, Fail> {
    let mut bytes = Vec::new(alloc);
    for byte in smallest().iter().take(48) {
        bytes.push(*byte)?;
    }
    for byte in ONE_FRAME {
        bytes.push(byte)?;
    }
    for _ in 0..4096 {
        bytes.push(1)?;
    }
    for byte in smallest().iter().skip(48) {
        bytes.push(*byte)?;
    }
    Ok(bytes)
}

#[test]
fn of_a_file_no_page_is_read(rt: HostRuntime) -> Result<(), Fail> {
    let alloc = rt.alloc();
    let bytes = with_a_frame(alloc)?;
    let mut whole = MemSource::new(bytes.clone()?, Vec::new(alloc), Vec::new(alloc));
    let file = MemFile::new(bytes, vec![in alloc; PAGE_AT; 1]?);
    let text = shown_text(alloc, &mut FileSource::new(&file, 0))?;
    assert!(rt; text.contains("\"pages\":1,"));
    assert_eq!(rt; text.as_str(), shown_text(alloc, &mut whole)?.as_str());
    Ok(())
}
