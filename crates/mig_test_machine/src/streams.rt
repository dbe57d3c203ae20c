use crate::hosts::context;
use mig_bytes::{Answer, MemSink, MemSource};
use mig_headers::{DomainHeader, ImageHeader, Kind};
use mig_libxl::{read_any, write_any};
use std::alloc::Global;
use std::test::Fail;

// The number of a call that isn't made.
const NEVER: u64 = u64::MAX;

// The smallest stream of an HVM guest in its canonical form: headers, STATIC_DATA_END, HVM_CONTEXT and END.
fn smallest(alloc: Global) -> Result<Vec<u8>, Fail> {
    let domain = DomainHeader {
        kind: Kind::Hvm,
        major: 0,
        minor: 1,
    };
    let mut bytes = ImageHeader { version: 3 }.encode().to_vec(alloc)?;
    bytes.extend_from_slice(&domain.encode())?;
    bytes.extend_from_slice(&[16, 0, 0, 0, 0, 0, 0, 0])?;
    bytes.extend_from_slice(&[9, 0, 0, 0, 40, 0, 0, 0])?;
    bytes.extend_from_slice(context())?;
    bytes.extend_from_slice(&[0; 8])?;
    Ok(bytes)
}

// The stream, of which read number `fails` gives nothing.
fn source(alloc: Global, fails: u64) -> Result<MemSource, Fail> {
    let failing = vec![in alloc; fails; 1]?;
    Ok(MemSource::new(smallest(alloc)?, Vec::new(alloc), failing))
}

// Reads the stream, and writes its guest; answers whether all was written.
fn rewrite(alloc: Global, sink: &mut MemSink) -> Result<bool, Fail> {
    let mut src = source(alloc, NEVER)?;
    match read_any(alloc, &mut src) {
        Ok(reading) => Ok(write_any(sink, &reading.guest).is_ok()),
        Err(_) => Err("it isn't read".into()),
    }
}

// Whether a failed read is what is answered.
fn is_told(alloc: Global, src: &mut MemSource) -> bool {
    matches!(read_any(alloc, src), Err(Answer::ReadFault))
}

#[test]
fn what_was_reserved_is_enough(rt: HostRuntime) -> Result<(), Fail> {
    let alloc = rt.alloc();
    let mut sink = MemSink::new(alloc, Vec::new(alloc));
    assert!(rt; sink.reserve(104).is_ok());
    assert!(rt; rewrite(alloc, &mut sink)?);
    assert_eq!(rt; sink.bytes(), smallest(alloc)?.as_slice());
    assert_eq!(rt; sink.starved(), 0);
    Ok(())
}

#[test]
fn a_failed_read_is_told(rt: HostRuntime) -> Result<(), Fail> {
    let mut src = source(rt.alloc(), 1)?;
    assert!(rt; is_told(rt.alloc(), &mut src));
    Ok(())
}

#[test]
fn nothing_is_behind_a_failed_write(rt: HostRuntime) -> Result<(), Fail> {
    let alloc = rt.alloc();
    let mut sink = MemSink::new(alloc, vec![in alloc; 0; 1]?);
    assert!(rt; !rewrite(alloc, &mut sink)?);
    assert_eq!(rt; sink.bytes().len(), 0);
    Ok(())
}
