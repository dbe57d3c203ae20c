//! What the program is told and what it tells: the words of its command line, its statuses, and the lines of its
//! report.
//!
//! Responsible for:
//!
//! - which command the words name
//! - which status and which line an outcome has
//! - what a status says, whichever the command is
//! - putting the line of an outcome, or the own line of a command that has one, on a sink
//!
//! Left to others: what a command does (mig_tool_guest, mig_tool_save), and how a place or a cause is printed
//! (mig_headers_text).
//!
//! What the layers above rely on:
//!
//! - A command is found exactly where the words name one, and words name one at most.
//! - Of a line exactly its bytes are put, or some first bytes where a write failed.
#![tactic(auto)]

mod command;
mod outcome;
mod status;
mod words;

pub use command::{Command, command_in};
pub use outcome::{
    CheckSummary, ExerciseSummary, Outcome, Refusal, RelaySummary, SaveSummary, Summary, WalkEnd,
    WalkSummary, finish, put_checked, put_checked_legacy, put_exercised, put_line, put_ok,
    put_relayed, put_saved, put_walked,
};
pub use status::Status;
pub use words::{INPUT_BUFFER, words_of};
