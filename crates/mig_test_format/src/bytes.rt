use mig_bytes::{
    Got, InSource, MemSink, MemSource, OutSink, ReadFailed, TakeFault, WriteFailed, put_all, skip,
    take_exact, take_vec,
};
use mig_headers::Cause;
use mig_headers_text::put_cause;
use mig_records::write_record;
use std::io;
use std::io::{Read, Write};
use std::test::Fail;

// Each call below begins with two reads of a byte, and its third fails: what was read before is taken.
#[test]
fn reads_fail_in_mid_stream(rt: HostRuntime) -> Result<(), Fail> {
    let bytes = vec![in rt.alloc(); 10, 11, 12, 13, 14, 15, 16, 17, 18]?;
    let cuts = vec![in rt.alloc(); 1; 20]?;
    let mut src = MemSource::new(bytes, cuts, vec![in rt.alloc(); 2, 5, 8]?);
    let mut buf = [0; 3];
    assert_eq!(rt; take_exact(&mut src, &mut buf), Err(ReadFailed));
    assert_eq!(rt; skip(&mut src, 3), Err(ReadFailed));
    let mut to = vec![in rt.alloc(); 5; 1]?;
    assert_eq!(rt; take_vec(&mut src, 3, &mut to), Err(TakeFault::Read));
    assert!(rt; [5, 14, 15].starts_with(&to));
    assert_eq!(rt; take_exact(&mut src, &mut buf), Ok(Got::Whole));
    assert_eq!(rt; buf, [16, 17, 18]);
    let told = format!(in rt.alloc(); "{}, {}", TakeFault::Read, TakeFault::Memory)?;
    assert_eq!(rt; told.as_str(), "a read failed, no memory was found");
    Ok(())
}

// The second write of each call fails: what was written before stays, and what the call has to write yet isn't.
#[test]
fn writes_fail_in_mid_stream(rt: HostRuntime) -> Result<(), Fail> {
    let mut sink = MemSink::new(rt.alloc(), vec![in rt.alloc(); 1, 3]?);
    let body = [1, 2, 3, 4, 5];
    assert_eq!(rt; write_record(&mut sink, 7, &body), Err(WriteFailed));
    assert_eq!(rt; put_cause(&mut sink, Cause::BadKind(3)), Err(WriteFailed));
    assert_eq!(rt; sink.bytes(), b"\x07\0\0\0\x05\0\0\x006".as_slice());
    Ok(())
}

// Reads and writes one byte a call. A read fails at one call, where a write takes nothing, and the fourth flush fails.
#[derive(Drop)]
struct Wire {
    calls: usize,
    fails: usize,
    flushes: usize,
}

impl Read for Wire {
    fn read(&mut self, buf: &mut [u8]) -> io::Result<usize> {
        let call = self.calls;
        self.calls = call.saturating_add(1);
        if call == self.fails || buf.is_empty() {
            return Err(io::ErrorKind::Other.into());
        }
        buf[0] = 1;
        Ok(1)
    }
}

impl Write for Wire {
    fn write(&mut self, piece: &[u8]) -> io::Result<usize> {
        let call = self.calls;
        self.calls = call.saturating_add(1);
        Ok(if call == self.fails {
            0
        } else {
            piece.len().min(1)
        })
    }

    fn flush(&mut self) -> io::Result<()> {
        self.flushes = self.flushes.saturating_add(1);
        if self.flushes == 4 {
            return Err(io::ErrorKind::Other.into());
        }
        Ok(())
    }
}

fn failing_at(fails: usize) -> Wire {
    Wire {
        calls: 0,
        fails,
        flushes: 0,
    }
}

#[test]
fn adapters_fail(rt: HostRuntime) {
    let mut src = InSource::new(failing_at(2));
    assert_eq!(rt; take_exact(&mut src, &mut [0; 4]), Err(ReadFailed));
    assert_eq!(rt; take_exact(&mut src, &mut [0; 4]), Ok(Got::Whole));
    let mut wire = failing_at(1);
    let mut sink = OutSink::new(&mut wire);
    // the second write takes nothing, and the fourth flush fails
    assert_eq!(rt; put_all(&mut sink, b"ab"), Err(WriteFailed));
    assert_eq!(rt; put_all(&mut sink, b"cd"), Ok(()));
    assert_eq!(rt; put_all(&mut sink, b"e"), Err(WriteFailed));
    drop(sink);
    assert_eq!(rt; (wire.calls, wire.flushes), (5, 4));
}
