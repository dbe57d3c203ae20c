//! Machines in memory: one whose guest is a host and a script of guest writes, and two for tests around it.
//!
//! Responsible for:
//!
//! - `ScriptMachine`, which is honest and meets the trait `Machine` for hosts of either kind of guest. Until it is
//!   paused, each call runs the lines up to the next dot before it answers. It never fails, and takes all its memory as
//!   it is made
//! - `FailingMachine`, whose listed calls fail and never reach the machine inside
//! - `ForgetfulMachine`, which isn't honest: the listed frame numbers never reach its log
//! - `Paced`, which says of a host and a script in how many rounds a save ends, at which call it pauses the machine,
//!   and which frame numbers it reads and sends again
//!
//! It passes on `Script` and `ScriptAnswer`. Left to others: what a line does (mig_machine_script), what may be asked
//! of a machine (mig_guest), and the saver (mig_tool_save puts it over a machine).
//!
//! What the layers above rely on:
//!
//! - Contracts see `ScriptMachine` as a value, `MachineSeen`.
//! - Its host is what the lines run so far make of the first one, and no line runs behind the pause.
//!
//! A call of `FailingMachine` fails exactly where its number is listed, and nothing of the machine inside changes
//! then; every other call is answered by it. A log that a forgetful machine hands over is that of the machine inside,
//! without the listed numbers. The paces of a save are the calls that were made and the logs that were taken.
#![tactic(auto)]

mod answers;
mod failing;
mod forgetful;
mod forgetful_law;
mod law;
mod machine;
mod notes;
mod paced_law;

pub use failing::FailingMachine;
pub use forgetful::ForgetfulMachine;
pub use forgetful_law::forgetful_machine_logs;
pub use law::script_machine_is_at;
pub use machine::ScriptMachine;
pub use mig_machine_script::{Script, ScriptAnswer};
pub use paced_law::rounds_are_paced;
