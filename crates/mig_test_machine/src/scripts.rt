use mig_bytes::MemSource;
use mig_machine_script::{Line, Script, ScriptAnswer};
use std::alloc::Global;
use std::process::Abort;
use std::test::Fail;

// What is read of these bytes, which come in pieces of 3.
fn read(alloc: Global, text: &[u8]) -> Result<Result<Script, ScriptAnswer>, Fail> {
    let bytes = Vec::from_slice(alloc, text)?;
    let cuts = vec![in alloc; 3; 9]?;
    let mut src = MemSource::new(bytes, cuts, Vec::new(alloc));
    Ok(Script::read(alloc, &mut src))
}

// The script of these bytes.
pub(crate) fn script(alloc: Global, text: &[u8]) -> Result<Script, Fail> {
    match read(alloc, text)? {
        Ok(script) => Ok(script),
        Err(_) => Err("no script".into()),
    }
}

// What a line says: its letter, its numbers and zeros up to three, and its bytes.
type Said<'a> = (u8, [u64; 3], &'a [u8]);

fn said(line: &Line) -> Said<'_> {
    match line {
        Line::Write { pfn, at, bytes } => (b'w', [*pfn, *at, 0], bytes.as_slice()),
        Line::Retype { pfn, kind } => (b't', [*pfn, *kind, 0], &[]),
        Line::Add { pfn, mfn } => (b'a', [*pfn, *mfn, 0], &[]),
        Line::Remove { pfn } => (b'r', [*pfn, 0, 0], &[]),
        Line::Exchange { pfn, mfn } => (b'x', [*pfn, *mfn, 0], &[]),
        Line::Put {
            code,
            first,
            second,
            bytes,
        } => (b'p', [*code, *first, *second], bytes.as_slice()),
        Line::Dot => (b'.', [0; 3], &[]),
    }
}

const EACH_KIND: &[u8] =
    b"w 4 16 67F03a01\nt 7 9\na 0 1099511627775\nr 18446744073709551615\nx 9 6000\np 4 0 1 00\n.\n";

const EACH_SAID: [Said<'static>; 7] = [
    (b'w', [4, 16, 0], &[0x67, 0xf0, 0x3a, 0x01]),
    (b't', [7, 9, 0], &[]),
    (b'a', [0, 1099511627775, 0], &[]),
    (b'r', [18446744073709551615, 0, 0], &[]),
    (b'x', [9, 6000, 0], &[]),
    (b'p', [4, 0, 1], &[0]),
    (b'.', [0; 3], &[]),
];

const LAST_SAID: [Said<'static>; 2] = [(b'.', [0; 3], &[]), (b'r', [0; 3], &[])];

const BAD_LINES: [&[u8]; 16] = [
    b"",
    b"w 1",
    b"r 01",
    b"r  1",
    b" .",
    b". ",
    b"r 18446744073709551616",
    b"r +1",
    b"w 1 2 0",
    b"w 1 2 0g",
    b"w 1 2 ",
    b"w 1 2 00 00",
    b"q 1",
    b"r",
    b"t 1 2 3",
    b"r \xff",
];

// The tables, about which a proof is to know nothing.
fn each_kind() -> &'static [u8] {
    EACH_KIND
}

fn each_said() -> &'static [Said<'static>] {
    &EACH_SAID
}

fn last_said() -> &'static [Said<'static>] {
    &LAST_SAID
}

fn bad_lines() -> &'static [&'static [u8]] {
    &BAD_LINES
}

// The lines of a script say this, one after another.
fn says(rt: &impl Abort, script: &Script, lines: &[Said]) {
    assert_eq!(rt; script.len(), lines.len());
    for (number, line) in lines.iter().enumerate() {
        assert_eq!(rt; script.line(number).map(said), Some(*line), "line {number}");
    }
    assert!(rt; script.line(lines.len()).is_none());
}

fn is_read_as(rt: &impl Abort, alloc: Global, text: &[u8], lines: &[Said]) -> Result<(), Fail> {
    let script = script(alloc, text)?;
    says(rt, &script, lines);
    Ok(())
}

#[test]
fn each_kind_of_line_is_read(rt: HostRuntime) -> Result<(), Fail> {
    is_read_as(&rt, rt.alloc(), each_kind(), each_said())
}

#[test]
fn the_last_line_may_lack_its_end(rt: HostRuntime) -> Result<(), Fail> {
    is_read_as(&rt, rt.alloc(), b".\nr 0", last_said())
}

#[test]
fn nothing_is_an_empty_script(rt: HostRuntime) -> Result<(), Fail> {
    is_read_as(&rt, rt.alloc(), b"", &[])
}

// The answer to bytes of which the third line is this one.
fn answer_to(alloc: Global, line: &[u8]) -> Result<Option<ScriptAnswer>, Fail> {
    let mut text = Vec::from_slice(alloc, b".\nr 2\n")?;
    text.extend_from_slice(line)?;
    text.extend_from_slice(b"\n.\n\n")?;
    Ok(read(alloc, &text)?.err())
}

#[test]
fn bad_lines_are_named(rt: HostRuntime) -> Result<(), Fail> {
    for line in bad_lines() {
        let answer = answer_to(rt.alloc(), line)?;
        assert_eq!(rt; answer, Some(ScriptAnswer::BadLine(3)));
    }
    Ok(())
}

// What a source answers of which the second read fails.
fn answer_to_a_failure(alloc: Global) -> Result<Option<ScriptAnswer>, Fail> {
    let bytes = Vec::from_slice(alloc, b".\n")?;
    let fails = vec![in alloc; 1; 1]?;
    let mut src = MemSource::new(bytes, Vec::new(alloc), fails);
    Ok(Script::read(alloc, &mut src).err())
}

#[test]
fn a_failed_read_is_told(rt: HostRuntime) -> Result<(), Fail> {
    let answer = answer_to_a_failure(rt.alloc())?;
    assert_eq!(rt; answer, Some(ScriptAnswer::ReadFault));
    Ok(())
}
