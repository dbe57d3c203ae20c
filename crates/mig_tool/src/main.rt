//! The program: `run` does the command that the words name, over any source and sinks, and `main` gives it the standard streams.
//!
//! Reads a stream of a Xen guest, and writes it in its one canonical form, writes the image of the restored guest, or says
//! what it is; or reads a legacy stream, and writes the canonical stream of its guest; or reads the image of a host and a
//! script, and saves the host live, while the script runs; or tries all of this on a host of its own; or says which frame an
//! address means in a stream's guest or in an image's host; or passes a stream on while it is judged; or shows the records of
//! a stream.
//!
//! `run` is the program but for its standard streams; its clauses say what is answered, taken, written and reported. `run_file`
//! does the same of a file, and has the same clauses.
#![tactic(auto)]

mod carry;
mod run;

use crate::run::{reads_by_place, run, run_file};
use mig_bytes::{InSource, OutSink};
use mig_file::{FileSource, StandardFile};
use mig_tool_report::{INPUT_BUFFER, Outcome, Status, put_line, words_of};
pub use mig_tool_save::{Exercised, exercise};
use std::alloc::Global;
use std::env;
use std::io::{BufReader, Stderr, Stdin, Stdout};
use std::process::ExitCode;

/// Does what the words say of the standard input as it comes.
fn run_as_it_comes(
    alloc: Global,
    words: &[String],
    stdin: Stdin,
    out: &mut OutSink<Stdout>,
    report: &mut OutSink<Stderr>,
) -> Status {
    match BufReader::with_capacity(alloc, INPUT_BUFFER, stdin) {
        Ok(reader) => run(alloc, words, &mut InSource::new(reader), out, report),
        Err(_) => {
            let _ = put_line(report, Outcome::Memory);
            Status::Memory
        }
    }
}

/// Does it of the standard input, which is this file, from a place on.
fn run_standard_file(
    alloc: Global,
    words: &[String],
    file: &StandardFile,
    at: u64,
    out: &mut OutSink<Stdout>,
    report: &mut OutSink<Stderr>,
) -> Status {
    let mut input = FileSource::new(file, at);
    run_file(alloc, words, &mut input, out, report)
}

fn main(rt: HostRuntime) -> ExitCode {
    let alloc = rt.alloc();
    let mut out = OutSink::new(rt.stdout());
    let mut report = OutSink::new(rt.stderr());
    let Some(words) = words_of(alloc, env::args(&rt)) else {
        let _ = put_line(&mut report, Outcome::Memory);
        return ExitCode::from(Status::Memory.code());
    };
    let file = if reads_by_place(&words) {
        StandardFile::of(&rt)
    } else {
        None
    };
    let status = match file {
        Some((file, at)) => run_standard_file(alloc, &words, &file, at, &mut out, &mut report),
        None => run_as_it_comes(alloc, &words, rt.stdin(), &mut out, &mut report),
    };
    ExitCode::from(status.code())
}
