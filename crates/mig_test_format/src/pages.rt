ghost use Rattle.std.specs.Prelude.{◌≡◌};

use mig_bytes::{MemSink, WriteFailed};
use mig_pagetypes::PageType;
use mig_records_pages::{Batch, HeldFrame, write_batch, write_end, write_plain};
use std::test::Fail;

// What an entry says of frame 5: a page of sevens, or that there is none.
fn entry(kind: Option<PageType>) -> HeldFrame
    ensures { result.pfn ≡ 5 }
{
    HeldFrame {
        pfn: 5,
        kind,
        page: [7; 4096],
    }
}

// So many entries are sent, and then flushed.
fn send_all(
    sink: &mut MemSink,
    batch: &mut Batch,
    kind: Option<PageType>,
    count: u32,
) -> Result<(), WriteFailed> {
    for _ in 0..count {
        batch.send(sink, entry(kind))?;
    }
    batch.flush(sink)
}

// The PAGE_DATA record of so many entries, each with this word, without their pages.
fn put_words(text: &mut Vec<u8>, count: u32, pages: u32, word: u64) -> Result<(), Fail> {
    let len = count.wrapping_mul(8).wrapping_add(pages.wrapping_mul(4096));
    text.extend_from_slice(&1u32.to_le_bytes())?;
    text.extend_from_slice(&len.wrapping_add(8).to_le_bytes())?;
    text.extend_from_slice(&u64::from(count).to_le_bytes())?;
    for _ in 0..count {
        text.extend_from_slice(&word.to_le_bytes())?;
    }
    Ok(())
}

// Entries that are sent, the records of 1024 entries, and those in the record behind them, if there is one.
const SENT: [(u32, u32, u32); 4] = [(0, 0, 0), (1, 0, 1), (1024, 1, 0), (1025, 1, 1)];

#[test]
fn writes_entries_in_batches(rt: HostRuntime) -> Result<(), Fail> {
    let mut batch = Batch::new(rt.alloc())?;
    for (count, full, last) in SENT {
        let mut sink = MemSink::new(rt.alloc(), Vec::new(rt.alloc()));
        assert_eq!(rt; send_all(&mut sink, &mut batch, None, count), Ok(()));
        let mut want = Vec::new(rt.alloc());
        for _ in 0..full {
            put_words(&mut want, 1024, 0, 0xF000_0000_0000_0005)?;
        }
        if last > 0 {
            put_words(&mut want, last, 0, 0xF000_0000_0000_0005)?;
        }
        assert!(rt; sink.bytes() == want.as_slice(), "{count}");
    }
    Ok(())
}

// The record of 33 entries with pages takes five writes: head, count, words, 32 pages and one. The last turn fails at none.
#[test]
fn batches_fail_at_each_write(rt: HostRuntime) -> Result<(), Fail> {
    let mut want = Vec::new(rt.alloc());
    put_words(&mut want, 33, 33, 5)?;
    want.extend_from_slice(&vec![in rt.alloc(); 7; 135_168]?)?;
    let mut batch = Batch::new(rt.alloc())?;
    for fails in 0..6 {
        let mut sink = MemSink::new(rt.alloc(), vec![in rt.alloc(); fails]?);
        let sent = send_all(&mut sink, &mut batch, Some(PageType::Notab), 33);
        assert_eq!(rt; sent.is_ok(), fails == 5, "{fails}");
        assert!(rt; want.as_slice().starts_with(sink.bytes()), "{fails}");
        assert_eq!(rt; sink.bytes().len() == want.len(), fails == 5, "{fails}");
    }
    Ok(())
}

#[test]
fn writes_records_around_batches(rt: HostRuntime) -> Result<(), Fail> {
    let mut sink = MemSink::new(rt.alloc(), Vec::new(rt.alloc()));
    assert_eq!(rt; write_plain(&mut sink, 0x10, &[]), Ok(()));
    assert_eq!(rt; write_batch(&mut sink, &[entry(None)]), Ok(()));
    assert_eq!(rt; write_end(&mut sink), Ok(()));
    let want =
        b"\x10\0\0\0\0\0\0\0\x01\0\0\0\x10\0\0\0\x01\0\0\0\0\0\0\0\x05\0\0\0\0\0\0\xf0\0\0\0\0\0\0\0\0";
    assert_eq!(rt; sink.bytes(), want.as_slice());
    Ok(())
}
