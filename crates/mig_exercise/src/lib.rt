//! The host and the script with which the program tries itself.
//!
//! Responsible for:
//!
//! - the host of the exercise, a PV guest with one tree of page tables whose other frames hold numbers
//! - its script, which writes into these frames: both follow from a seed and the number of frames
//! - the law that this host stays one that can be seen as a guest
//! - the laws of the length of the guest's canonical stream, and of how many entries a save of it has at most
//!
//! Left to others: what a host is (mig_host), and what a line does (mig_machine_script).
//!
//! What the layers above rely on: the host and the script are exactly those of the definition, and a save of this
//! host is never refused.
#![tactic(auto)]

mod host;
mod law;
mod numbers;
mod pages;
mod parts;
mod script;

pub use host::exercise_host;
pub use law::exercise_is_saved;
pub use script::exercise_script;
