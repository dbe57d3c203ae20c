use mig_bytes::{MemSink, MemSource};
use mig_headers::{Cause, ContextFault, Place};
use mig_relay::{Relay, RelayAnswer, Relayed, Step, relay};
use std::alloc::Global;
use std::test::Fail;

// Image header, domain header, STATIC_DATA_END, HVM_CONTEXT with a header of 24 bytes and its end, END.
const SMALLEST: [u8; 104] = [
    255, 255, 255, 255, 255, 255, 255, 255, 0x58, 0x45, 0x4E, 0x46, 0, 0, 0, 3, 0, 0, 0, 0, 0, 0,
    0, 0, 2, 0, 0, 0, 12, 0, 0, 0, 0, 0, 0, 0, 1, 0, 0, 0, 0x10, 0, 0, 0, 0, 0, 0, 0, 9, 0, 0, 0,
    40, 0, 0, 0, 1, 0, 0, 0, 24, 0, 0, 0, 17, 17, 17, 17, 17, 17, 17, 17, 17, 17, 17, 17, 17, 17,
    17, 17, 17, 17, 17, 17, 17, 17, 17, 17, 0, 0, 0, 0, 0, 0, 0, 0, 0, 0, 0, 0, 0, 0, 0, 0,
];

// The stream, about which a proof is to know nothing.
pub(crate) fn smallest() -> &'static [u8] {
    &SMALLEST
}

// A source that gives at most `cut` bytes a read, and none at read number `fails`.
fn source(alloc: Global, bytes: Vec<u8>, cut: usize, fails: u64) -> Result<MemSource, Fail> {
    let cuts = vec![in alloc; cut; 500]?;
    Ok(MemSource::new(bytes, cuts, vec![in alloc; fails; 1]?))
}

// A sink whose write number `fails` takes nothing.
fn sink(alloc: Global, fails: u64) -> Result<MemSink, Fail> {
    Ok(MemSink::new(alloc, vec![in alloc; fails; 1]?))
}

const NEVER: u64 = u64::MAX;

// The headers of an HVM image, and a PAGE_DATA of 1024 words, each of a frame that is taken away but those of the first
// pages; its length is 256 times `high`, and 8. Behind it the context and END.
fn thousand_words(alloc: Global, high: u8, pages: u64) -> Result<Vec<u8>, Fail> {
    let mut bytes = SMALLEST[..48].to_vec(alloc)?;
    bytes.extend_from_slice(&[1, 0, 0, 0, 8, high, 0, 0, 0, 4, 0, 0, 0, 0, 0, 0])?;
    for pfn in 0..1024u64 {
        let kind = if pfn < pages { 0 } else { 0xF0 };
        bytes.extend_from_slice(&[(pfn % 256) as u8, (pfn / 256) as u8, 0, 0, 0, 0, 0, kind])?;
    }
    for _ in 0..pages {
        bytes.extend_from_slice(&[7; 4096])?;
    }
    bytes.extend_from_slice(&SMALLEST[48..])?;
    Ok(bytes)
}

// What a relay holds behind each step over the bytes, at most; and how many steps there were.
fn most_kept(alloc: Global, src: &mut MemSource, sink: &mut MemSink) -> (u64, u64) {
    let mut relay = Relay::new(alloc);
    let mut most = relay.kept();
    for steps in 0..1000 {
        let Ok(step) = relay.step(src, sink) else {
            return (0, steps);
        };
        if step == Step::Done {
            return (most, steps);
        }
        most = most.max(relay.kept());
    }
    (0, 1000)
}

#[test]
fn few_bytes_are_kept_of_a_thousand_words(rt: HostRuntime) -> Result<(), Fail> {
    let bytes = thousand_words(rt.alloc(), 48, 1)?;
    let mut src = source(rt.alloc(), bytes, 4096, NEVER)?;
    let mut out = sink(rt.alloc(), NEVER)?;
    let fresh = Relay::new(rt.alloc());
    assert_eq!(rt; fresh.kept(), 512);
    let (most, steps) = most_kept(rt.alloc(), &mut src, &mut out);
    assert_eq!(rt; most, 8 * 1024 + 512);
    assert_eq!(rt; steps, 13);
    assert_eq!(rt; out.bytes().len(), 104 + 16 + 8192 + 4096);
    Ok(())
}

// The bytes behind END stay in the source.
#[test]
fn the_smallest_stream_is_passed_on(rt: HostRuntime) -> Result<(), Fail> {
    let mut bytes = SMALLEST.to_vec(rt.alloc())?;
    bytes.push(255)?;
    let mut src = source(rt.alloc(), bytes, 3, NEVER)?;
    let mut out = sink(rt.alloc(), NEVER)?;
    let relayed = relay(rt.alloc(), &mut src, &mut out);
    assert_eq!(rt;
        relayed,
        Ok(Relayed {
            records: 3,
            bytes: 104
        })
    );
    assert_eq!(rt; out.bytes(), SMALLEST.as_slice());
    let mut last = [0; 2];
    let left = mig_bytes::take_exact(&mut src, &mut last);
    assert_eq!(rt; left, Ok(mig_bytes::Got::Short(1)));
    assert_eq!(rt; last[0], 255);
    Ok(())
}

// Each read fails in turn: what was judged before it was written.
#[test]
fn reads_fail_in_turn(rt: HostRuntime) -> Result<(), Fail> {
    let mut least = 0;
    for fails in 0..8 {
        let mut src = source(rt.alloc(), SMALLEST.to_vec(rt.alloc())?, 4096, fails)?;
        let mut out = sink(rt.alloc(), NEVER)?;
        let read = relay(rt.alloc(), &mut src, &mut out);
        assert_eq!(rt; read, Err(RelayAnswer::ReadFault), "{fails}");
        assert!(rt; SMALLEST.starts_with(out.bytes()), "{fails}");
        assert_eq!(rt; out.bytes().is_empty(), fails == 0, "{fails}");
        assert!(rt; least <= out.bytes().len(), "{fails}");
        least = out.bytes().len();
    }
    assert_eq!(rt; least, 88);
    Ok(())
}

// Each write of 17 parts, of which 5 are pages, fails in turn, until none fails: they are written by 4 writes.
#[test]
fn writes_fail_in_turn(rt: HostRuntime) -> Result<(), Fail> {
    let stream = thousand_words(rt.alloc(), 112, 5)?;
    for fails in 0..5 {
        let mut src = source(
            rt.alloc(),
            stream.as_slice().to_vec(rt.alloc())?,
            4096,
            NEVER,
        )?;
        let mut out = sink(rt.alloc(), fails)?;
        let written = relay(rt.alloc(), &mut src, &mut out);
        assert_eq!(rt;
            written == Err(RelayAnswer::WriteFault),
            fails < 4,
            "{fails}"
        );
        assert!(rt; stream.starts_with(out.bytes()), "{fails}");
        assert_eq!(rt; out.bytes().len() == stream.len(), fails == 4, "{fails}");
    }
    Ok(())
}

// A read fails, and then the write of what waits: of the two failures the first is told.
#[test]
fn of_two_failures_the_first_is_told(rt: HostRuntime) -> Result<(), Fail> {
    let mut src = source(rt.alloc(), SMALLEST.to_vec(rt.alloc())?, 4096, 3)?;
    let mut out = sink(rt.alloc(), 0)?;
    let relayed = relay(rt.alloc(), &mut src, &mut out);
    assert_eq!(rt; relayed, Err(RelayAnswer::ReadFault));
    assert!(rt; out.bytes().is_empty());
    Ok(())
}

// A context whose last entry isn't whole: all pieces of it were written when it is refused.
#[test]
fn a_bad_context_is_refused_at_its_end(rt: HostRuntime) -> Result<(), Fail> {
    let mut bytes = SMALLEST.to_vec(rt.alloc())?;
    bytes[88] = 2;
    bytes[92] = 1;
    let mut src = source(rt.alloc(), bytes, 4096, NEVER)?;
    let mut out = sink(rt.alloc(), NEVER)?;
    let relayed = relay(rt.alloc(), &mut src, &mut out);
    let cause = Cause::BadContext(ContextFault::ShortEntry(32));
    assert_eq!(rt; relayed, Err(RelayAnswer::Refused(Place::Record(1), cause)));
    assert_eq!(rt; out.bytes().len(), 96);
    Ok(())
}
