//! Judges the image of a guest (libxc migration stream), and keeps no page of it that no judgement needs.
//!
//! Responsible for:
//!
//! - the outline of a guest, which is what stays of it without such pages: its parts, its page tables, and of each
//!   other frame whether it is NOTAB
//! - that this is all that the judgement of its end asks for
//! - how an entry of a PAGE_DATA is taken into an outline
//!
//! Left to others: what an image is and means (mig_restore_form), taking its records with an outline in place of the
//! guest (mig_restore), frames and parts (mig_guest), whole guests (mig_pvtables).
//!
//! What the layers above rely on:
//!
//! - `judge_image` answers Ok exactly where an image is in front of the input, with its tally, and else the first
//!   fault with its place, and has taken just what `read_image` takes.
//! - It keeps an index of the frames, the tables and the parts, and of a record in hand its words or its body.
//!
//! How many entries behind a VERIFY differ from the guest can't be told of an outline, and the tally says only that
//! one came. `Outlines` is what keeps outlines, for whoever takes entries, and `tally_of` the tally of what was taken
//! with them.
#![tactic(auto)]

mod judge;
mod keeps;
mod law;

pub use judge::{Tally, judge_image, judge_image_rest, tally_of};
pub use keeps::Outlines;
pub use law::{
    fault_needs_an_outline, fault_needs_no_pages, forgotten_goes_on, forgotten_goes_on_whole,
    outline_goes_on,
};
