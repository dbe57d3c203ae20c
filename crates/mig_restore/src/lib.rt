//! Reads the image of a guest from a stream (libxc migration stream).
//!
//! Responsible for: taking the headers and the records of an image, one after another, and the guest that they mean.
//! The caller says how much is kept of its frames (`KeepsFrames`).
//!
//! Left to others:
//!
//! - what an image is and means (mig_restore_form)
//! - bytes and fields (mig_bytes)
//! - headers (mig_headers)
//! - record heads, PAGE_DATA words and what bodies say (mig_records, mig_hvm)
//! - frames and parts (mig_guest)
//! - whole guests and blank forms (mig_pvtables)
//!
//! What the layers above rely on:
//!
//! - `read_image` answers the guest that the accepted front of the input means, or the first fault with its place. It
//!   has taken just that front, or all up to the end of the faulty part.
//! - Behind a VERIFY it compares frames with those of the guest, and answers how many entries differ.
//! - `take_image` does the same with whatever is kept of the frames. A second value may note more of each frame, and
//!   may compare the entries behind a VERIFY with what it noted.
//! - `take_entries` takes the pages of a batch of words, in a legacy stream too.
#![tactic(auto)]

mod answer;
mod body;
mod check;
mod compare;
mod keeps;
mod page;
mod read;

pub use answer::StreamAnswer;
pub use body::{skip_body, take_entries, take_list};
pub use check::take_placed;
pub use compare::is_same_page;
pub use keeps::{AllFrames, KeepsFrames};
pub use page::take_page;
pub use read::{
    Reading, TakenImage, read_head, read_headers, read_image, read_image_rest, read_opening,
    take_image, take_image_rest,
};
