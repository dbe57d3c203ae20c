//! The commands that save nothing live, and what `mig_check` does, which judges and keeps no page that no judgement needs.
//!
//! Responsible for: each of them as one function that answers the status, writes of its input what is its own and puts its
//! line on the report, and what a status says of each. Left to others: which command the words name, and the lines
//! (mig_tool_report), how a stream, a legacy stream or an image is read and written (mig_libxl, mig_legacy, mig_image),
//! where an address leads (mig_walk), how a stream is judged part by part (mig_relay), its records as a tree (mig_show), and
//! which function does which command (mig_tool).
//!
//! What the layers above rely on: of an input that tells its bytes each status says of it, of what is left of it and of what
//! was written what specs/Says and specs/PassingSays tell; what `relay` wrote is what specs/Relays tells, whatever the
//! status, and of `show` specs/Shown; the line is that of the status, and of a refusal that of the input; and a fault is
//! answered only where a count rose.
#![tactic(auto)]

mod addresses;
mod blanked;
mod checks;
mod commands;
mod comparing;
mod files;
mod localised;
mod passing;
mod restoring;
mod shown;

pub use addresses::{walk, walk_file, walk_image};
pub use checks::{check, check_legacy};
pub use commands::{convert, normalise, restore, verify};
pub use files::{convert_file, normalise_file, verify_file};
pub use passing::relay;
pub use restoring::restore_file;
pub use shown::show;
