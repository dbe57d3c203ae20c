//! What a save has of a machine's host around the frames: what it keeps of the parts, and what it writes of them.
//!
//! Responsible for:
//!
//! - copying the parts that are before the frames and room for those behind them, and marks for judging P2M frames,
//!   while there may still be no memory
//! - writing the settings of the host as it is later over those that are held
//! - judging a paused HVM host
//! - the records before the frames and behind them, END the last
//!
//! Left to others:
//!
//! - what may be asked of a machine (mig_guest)
//! - the frames and what is found in tables meanwhile, judging a PV host and bringing its contexts to their form in a
//!   stream, what is around the image (mig_dirtysave)
//! - single records of parts (mig_canon)
//!
//! What the layers above rely on:
//!
//! - What is before the frames is what the canonical image has there of a guest with the early parts.
//! - What is behind them is what it has there of the host's view, where nothing is in the way of seeing it.
//! - Where a write stopped behind the frames, whole records and a part of one more are there, perhaps none.
//!
//! Only `copy_parts` and `make_marks` take memory.
#![tactic(auto)]

mod judging;
mod prepare;
mod settings;
mod write;

pub use judging::judge;
pub use prepare::{copy_parts, make_marks};
pub use settings::refresh;
pub use write::{write_before, write_last, write_pv_last};
