//! The commands that save a host live: `save`, of the image of a host and a script, and `exercise`, of a host of its
//! own.
//!
//! Responsible for:
//!
//! - each of the two as one function that answers the status, and what a status says of it
//! - the host and the machine that are saved, and that what an exercise wrote is read, restored and seen again
//!
//! Left to others:
//!
//! - how an image and a script are read (mig_image, mig_machine_script)
//! - how a machine runs its script, and that the rounds of its save are those that host and script tell (mig_machine)
//! - how it is saved (mig_dirtysave)
//! - the host and the script of an exercise (mig_exercise)
//! - which command the words name, and the lines (mig_tool_report)
//!
//! What the layers above rely on:
//!
//! - Of an input that tells its bytes each status of `save` says what specs/Saves tells.
//! - What `exercise` comes to is that of specs/Exercises.
//! - The line is that of the status, and of a refusal that of the input.
//! - A fault is answered only where a count rose.
#![tactic(auto)]

mod exercising;
mod saving;

pub use exercising::{Exercised, exercise, exercise_told};
pub use saving::save;
