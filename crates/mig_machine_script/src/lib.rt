//! Scripts: lines that tell what becomes of a host while it is looked at.
//!
//! Responsible for:
//!
//! - what a line says and how it is written, reading a script from a source, and which line is the first bad one
//! - where each line applies, what it does to a host, and which frame number it puts into the log
//! - whether a table of a host names a machine frame
//! - the groups that dots end, and running one over a host
//!
//! Left to others: what an entry of a table says (mig_pvtables), the changes of a host themselves (mig_host), sets of
//! frame numbers (mig_guest), and when a group runs (mig_machine).
//!
//! What the layers above rely on:
//!
//! - A script that was read is all that the source had, and spells its lines.
//! - Else the first bad line is named, or that there are too many bytes.
//!
//! By laws bytes are the script of one list of lines at most, and they either are a script or have a first bad line,
//! and never both. A line that doesn't apply changes nothing, and none takes memory. By a law lines change no more of a
//! host's footprints than they put into the log, since a machine frame that a table names neither comes nor goes.
#![tactic(auto)]

mod change;
mod fields;
mod group;
mod law;
mod line;
mod lines_law;
mod named;
mod script;

pub use group::{room_in, run_logged};
pub use law::{one_line, one_script, script_or_bad_line};
pub use lines_law::{lines_log_what_they_change, ran_laws};
pub use script::{Line, Script, ScriptAnswer};
