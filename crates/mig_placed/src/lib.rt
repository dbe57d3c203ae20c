//! Frames whose pages stay in the file that they are in.
//!
//! Responsible for:
//!
//! - where in a file each frame's page is, in 8 bytes for each frame
//! - which frames these places read as
//! - that they read as frames do which are set one after another
//! - these frames as a writer of PAGE_DATA records takes them, where pages that are one behind another in the file
//!   are read at once
//! - pages that are written in place of some in the file, which are in another behind it
//!
//! Left to others: what a file is (mig_file), where a page was found (a reader of streams), and which records are
//! written of frames (mig_records_pages).
//!
//! What the layers above rely on:
//!
//! - Places are a finite map from frame number to a cell, and each call says what it does to the whole map.
//! - A call that finds no memory leaves the map as it was.
//! - With any file the places read as the frames that were set, each with the page that is at its place, also
//!   where more bytes are behind the file.
//! - The frames that are written are these.
//!
//! A page that can't be read fails, and only where a frame has one.
#![tactic(auto)]

mod frames;
mod joined;
mod law;
mod places;
mod runs;

pub use frames::PlacedFrames;
pub use joined::JoinedFiles;
pub use law::{page_is_where_it_stands, places_read_as_frames, places_stay_where_more_is_behind};
pub use places::Places;
