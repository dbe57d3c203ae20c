//! Streams of either form read or judged, and a guest written as its canonical stream (libxl migration stream).
//!
//! Responsible for:
//!
//! - taking the header and the records around an image, one after another, and what is kept of the stream, which is
//!   the guest that it means, or a tally
//! - writing what is around the canonical image, which is the libxl header, the records of emulators in their
//!   order, and END
//! - the laws of the canonical stream
//!
//! Left to others:
//!
//! - what a stream is, and what the records of emulators mean (mig_libxl_form)
//! - what the canonical stream is, and its image (mig_canon)
//! - images read (mig_restore) and judged without their pages (mig_outline)
//! - pairs of texts (mig_policy)
//! - headers and record heads (mig_headers, mig_records)
//!
//! What the layers above rely on:
//!
//! - `read_any` answers the guest that the accepted front of the input means, or the first fault with its place. It has
//!   taken just that front, or all up to the end of the faulty part.
//! - `judge_any` accepts and refuses the same, and keeps no page but those of tables.
//! - `compare_any` keeps no other page either, and answers of a file how many entries behind a VERIFY differ, as
//!   `read_any` does.
//! - `write_any` appends exactly the canonical stream of a guest, which is accepted with this guest, and that of no
//!   other, and takes no memory.
#![tactic(auto)]

mod canon_law;
mod image;
mod read;
mod write;

pub use canon_law::{canon_is_accepted, canon_is_one_to_one, emulators_ascend, twice_is_once};
pub use read::{compare_any, judge_any, place_any, read_any};
pub use write::{
    close_wrapper, open_wrapper, write_any, write_any_with, write_closing, write_emulator,
    write_opening,
};
