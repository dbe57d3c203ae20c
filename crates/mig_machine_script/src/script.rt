ghost use Rattle.std.specs.Prelude.{◌≡◌, ◌==◌, ◌+◌, ◌<◌, ◌≤◌, [], IfOk, IsErrOf, length, map, slice_get, Some};
ghost use Rattle.mig_machine_script.specs.Common.{position, option_map, Rose};
ghost use Rattle.mig_bytes.specs.Bytes.{TakesBytes, TakesFew};
ghost use Rattle.mig_machine_script.specs.ScriptAnswers.{AnswersInput, ReadsScript, RisesOnScriptFault, IsJudgedScript};
ghost use Rattle.mig_machine_script.specs.ScriptLines.{line_said};
ghost use Rattle.mig_machine_script.specs.Scripts.{most_script_bytes, BeginsWithText};
ghost use Rattle.mig_machine_script.specs.declared.script.ScriptAnswer.TheVariants as answers;

use crate::line::line_in;
use mig_bytes::{Got, Memory, Source, TakeFault, take_vec};
use std::alloc::Global;
use std::marker::Model;

/// The most bytes that a script may have.
const MOST_BYTES: usize = 16777216;

/// A line of a script. Its numbers are any of 64 bits: whether it applies to a host is judged elsewhere.
#[derive(Drop)]
pub enum Line {
    /// Write bytes into a frame's page.
    Write {
        pfn: u64,
        at: u64,
        bytes: Vec<u8>,
    },
    /// Give a frame another type, by the type's number.
    Retype {
        pfn: u64,
        kind: u64,
    },
    /// Add a frame with this machine frame.
    Add {
        pfn: u64,
        mfn: u64,
    },
    /// Remove a frame.
    Remove {
        pfn: u64,
    },
    /// Give a frame another machine frame.
    Exchange {
        pfn: u64,
        mfn: u64,
    },
    /// Replace the bytes of a part.
    Put {
        code: u64,
        first: u64,
        second: u64,
        bytes: Vec<u8>,
    },
    /// End a group of lines.
    Dot,
}

/// A script that was read.
#[derive(Drop)]
pub struct Script {
    lines: Vec<Line>,
}

/// Its lines, and what each says.
impl Model for Script {
    ghost use Rattle.std.specs.Prelude.{List, map};
    ghost use Rattle.std.specs.Coded.{coded_list};
    ghost use Rattle.mig_machine_script.specs.ScriptLines.{LineOf, line_code, line_said};

    ghost Value = { List LineOf };

    ghost coded = { coded_list line_code };

    ghost view = { λ s. map line_said s.lines.items };
}

/// Why a script isn't read.
#[derive(Clone, Copy, Debug, PartialEq, Eq)]
pub enum ScriptAnswer {
    /// This line, counted from 1, is the first that is none.
    BadLine(u64),
    /// It has more than 16777216 bytes.
    TooLong,
    /// A read failed.
    ReadFault,
    /// No memory was found.
    Memory,
}

/// Where the first line ends.
fn line_end(bytes: &[u8]) -> Option<usize>
    ensures { result ≡ position (λ b. b == 10) bytes.now }
{
    bytes.iter().position(|byte| *byte == b'\n')
}

/// The first text, without its LF, and what is behind it.
fn first_text(bytes: &[u8]) -> (&[u8], &[u8])
    requires { 0 < length bytes.now }
    ensures begins { BeginsWithText bytes.now result.0.now result.1.now }
    ensures less { length result.1.now < length bytes.now }
{
    match line_end(bytes) {
        Some(end) => (&bytes[..end], &bytes[end + 1..]),
        None => (bytes, &bytes[bytes.len()..]),
    }
}

/// The script that bytes are.
fn script_in(alloc: Global, bytes: &[u8]) -> Result<Script, ScriptAnswer>
    requires { length bytes.now ≤ most_script_bytes }
    ensures read { AnswersInput bytes.now (Some []) result }
    ensures no_other { (¬ IsErrOf result answers.TooLong) × (¬ IsErrOf result answers.ReadFault) }
{
    let mut lines = Vec::new(alloc);
    let mut rest = bytes;
    while !rest.is_empty() {
        let (text, behind) = first_text(rest);
        let found = match line_in(alloc, text) {
            Ok(found) => found,
            Err(Memory) => return Err(ScriptAnswer::Memory),
        };
        let Some(line) = found else {
            return Err(ScriptAnswer::BadLine(lines.len() as u64 + 1));
        };
        if lines.push(line).is_err() {
            return Err(ScriptAnswer::Memory);
        }
        rest = behind;
    }
    Ok(Script { lines })
}

impl Script {
    /// The script of these lines.
    pub fn new(lines: Vec<Line>) -> Script
        ensures { result ≡ map line_said lines.items }
    {
        Script { lines }
    }

    /// Reads a script, to the end of the source, or, where it is too long, one byte past the limit. That it is too long is
    /// judged first, then the first bad line.
    pub fn read<S: Source>(alloc: Global, src: &mut S) -> Result<Script, ScriptAnswer>
        ensures read { ReadsScript (S.left src.old) (S.left src.new) result }
        ensures taken { TakesBytes (S.left src.old) (S.left src.new) }
        ensures few { TakesFew (most_script_bytes + 1) (S.left src.old) (S.left src.new) }
        ensures faults { RisesOnScriptFault (S.faults src.old) (S.faults src.new) result }
        ensures completeness { (¬ Rose (S.faults src.old) (S.faults src.new)) → (¬ IsErrOf result answers.Memory) → IsJudgedScript result }
    {
        let mut bytes = Vec::new(alloc);
        match take_vec(src, MOST_BYTES + 1, &mut bytes) {
            Ok(Got::Whole) => Err(ScriptAnswer::TooLong),
            Ok(Got::Short(_)) => script_in(alloc, &bytes),
            Err(TakeFault::Read) => Err(ScriptAnswer::ReadFault),
            Err(TakeFault::Memory) => Err(ScriptAnswer::Memory),
        }
    }

    /// How many lines it has.
    pub fn len(&self) -> usize
        ensures { result ≡ length self.now }
    {
        self.lines.len()
    }

    /// The line with this number, counted from 0.
    pub fn line(&self, number: usize) -> Option<&Line>
        ensures { option_map (λ line. line_said line.now) result ≡ slice_get self.now number }
    {
        self.lines.get(number)
    }
}
