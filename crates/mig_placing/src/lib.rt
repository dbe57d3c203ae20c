//! Reads images from a file, and keeps of each page only where in the file it is.
//!
//! Responsible for:
//!
//! - what is noted of an entry of a PAGE_DATA as an image is read, which is the place of its page
//! - that what was noted of an image reads in the file as the frames that its records send
//! - a guest whose pages stay in its file
//! - comparing an entry behind a VERIFY with the page that is at the place of its frame
//!
//! Left to others: the reader of images (mig_restore), what is kept of the guest, which is its outline (mig_outline),
//! the places and how they read (mig_placed), and files (mig_file).
//!
//! What the layers above rely on: `place_image` accepts and refuses what `judge_image` does, and leaves what it leaves.
//! It answers the outline of the guest that was sent, and places that read in the file as its frames. A page is read
//! where a table is judged, and passed over else. `Placing` does this for whoever takes entries. `compare_image`
//! accepts and refuses the same, and answers the tally and how many entries behind a VERIFY differ, as `read_image`
//! does, which keeps all pages.
#![tactic(auto)]

mod compares;
mod comparison;
mod guest;
mod image;
mod keeps;

pub use compares::Comparing;
pub use comparison::{Comparison, compare_image, compare_image_rest};
pub use guest::PlacedGuest;
pub use image::{place_image, place_image_rest};
pub use keeps::Placing;
