//! The program `mig_check`: `run` judges what the words name, over any source and sink, and `main` gives it the standard streams.
//!
//! Reads a stream of a Xen guest, or a legacy stream, and says what it is, or where and why it is refused. It keeps page
//! tables and no other page of a stream, so that a stream is checked in little memory, and once: from a pipe too.
//!
//! `run` is the program but for its standard streams; its clauses say what is answered, taken and reported. It accepts and
//! refuses exactly what `verify` and `convert` do, the commands that keep a guest, with the same place and cause.
#![tactic(auto)]

mod law;
mod run;
mod words;

pub use crate::law::checked_as_verified;
use crate::run::run;
use mig_bytes::{BufferedSource, OutSink};
use mig_file::{FileSource, StandardFile};
use mig_tool_report::{INPUT_BUFFER, Outcome, Status, put_line, words_of};
use std::alloc::Global;
use std::env;
use std::io::{BufReader, Stderr, Stdin};
use std::process::ExitCode;

/// Checks the standard input as it comes.
fn run_as_it_comes(
    alloc: Global,
    words: &[String],
    stdin: Stdin,
    report: &mut OutSink<Stderr>,
) -> Status {
    match BufReader::with_capacity(alloc, INPUT_BUFFER, stdin) {
        Ok(reader) => run(alloc, words, &mut BufferedSource::new(reader), report),
        Err(_) => {
            let _ = put_line(report, Outcome::Memory);
            Status::Memory
        }
    }
}

/// Checks the standard input, which is this file, from a place on.
fn run_file(
    alloc: Global,
    words: &[String],
    file: &StandardFile,
    at: u64,
    report: &mut OutSink<Stderr>,
) -> Status {
    run(alloc, words, &mut FileSource::new(file, at), report)
}

fn main(rt: HostRuntime) -> ExitCode {
    let alloc = rt.alloc();
    let mut report = OutSink::new(rt.stderr());
    let Some(words) = words_of(alloc, env::args(&rt)) else {
        let _ = put_line(&mut report, Outcome::Memory);
        return ExitCode::from(Status::Memory.code());
    };
    let status = match StandardFile::of(&rt) {
        Some((file, at)) => run_file(alloc, &words, &file, at, &mut report),
        None => run_as_it_comes(alloc, &words, rt.stdin(), &mut report),
    };
    ExitCode::from(status.code())
}
