//! PAGE_DATA records: the text of frames in batches, and a writer of entries that come one by one.
//!
//! Responsible for:
//!
//! - the words, pages and records of frames (libxc migration stream, "PAGE_DATA"), wherever the frames come from,
//!   also where their pages have to be got first, which may fail
//! - what an entry says of a frame number
//! - batches of 1024 entries, of which the last before a flush may have fewer
//! - what was written whole, and in part, since a start
//! - the END record
//!
//! Left to others: heads and padding (mig_records), the canonical stream (mig_canon), which entries are sent and what
//! they mean (mig_dirtysave_rounds), and whether what was written is a stream (mig_dirtysave).
//!
//! What the layers above rely on:
//!
//! - Exactly the record of a batch is appended, and after a failure a part of it that isn't all.
//! - A failed write is answered only where the count of the sink rose, and a failed read only of frames whose pages
//!   may not be got, which those in memory aren't.
//! - The entries that were sent stand in the records in their order, and at most 1024 of them in none.
//!
//! It takes memory only to make a batch.
#![tactic(auto)]

mod batch;
mod copy_failed;
mod gathered;
mod held_frame;
mod law;
mod pages;
mod sequence;
mod stream;

pub use batch::Batch;
pub use copy_failed::CopyFailed;
pub use gathered::{page_buffer, pages_with, put_page};
pub use held_frame::HeldFrame;
pub use law::{records_stand_behind_records, sent_entries_are_little_behind};
pub use pages::{MOST_ENTRIES, write_batch, write_page_data};
pub use sequence::FrameSequence;
pub use stream::{write_end, write_plain};
