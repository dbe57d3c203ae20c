//! The frames of a machine, sent while its guest runs and after its pause.
//!
//! Responsible for:
//!
//! - reading one frame number of a machine whose guest may run on between any two calls, and bringing its table from
//!   machine frames to frame numbers
//! - which entry of the stream it becomes, and what is kept in mind of it
//! - the rounds of a save, its pause, and what is read after it
//!
//! Left to others:
//!
//! - what may be asked of a machine, and sets of frame numbers (mig_guest)
//! - what an entry of a table says (mig_pvtables)
//! - the records of entries (mig_records_pages)
//! - the parts of the host and the records around the frames (mig_dirtysave)
//!
//! What the layers above rely on:
//!
//! - In an honest machine, and in a paused one, a step answers what the frame number's footprint says when the step
//!   ends, wherever the frame number isn't in the log then.
//! - So over an honest machine the types that were seen last are those of the paused host's frames. The first table
//!   that can't be in a stream is answered; where there is none, the entries that were sent mean the frames.
//! - Over any machine the rounds are those of the definition, and the entries name what was read in that order.
//! - Entries, and the tables in them, name only frame numbers below the width.
//! - The host's kind and width, the keys and lengths of its parts and the bytes of fixed parts stay.
//! - After a fault at most 1024 frame numbers that were read have no whole record.
#![tactic(auto)]

mod found;
mod room;
mod round;
mod save;
mod send;
mod sets;
mod step;
mod table;

pub use found::SendFault;
pub use room::Room;
pub use save::{Sent, send_frames};
