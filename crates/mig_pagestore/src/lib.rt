//! Frames, and pages of 4096 bytes in slabs of raw memory, by frame number.
//!
//! Responsible for:
//!
//! - the type of each frame that is there, and its page where its type has data: in a slab, or by a mark where it is
//!   zeros
//! - the slabs, which grow from 64 pages to 16,384, and all pointers of the project
//! - room that is kept ready, for pages of zeros too, so that a frame can be put without asking for memory
//! - handing out pages without a copy
//!
//! It knows nothing of what types and pages mean, of guests or of streams.
//!
//! What the layers above rely on: a store is a finite map from frame number, and a number of spare pages. The map leads
//! to a type and a page or none, or to 4096 bytes alone. Each call says what it does to the whole map. A call that
//! finds no memory leaves the map as it was, and a put into a spare page can't be refused. Every frame number in a
//! store is below 2^52. The memory of a slab isn't touched until a page is put there.
#![tactic(auto)]

mod arena;
mod cells;
mod fill;
mod frame_store;
mod page_store;
mod slab;

pub use fill::Fill;
pub use frame_store::FrameStore;
pub use page_store::PageStore;
pub use slab::{MOST_PLACES, Slab};
