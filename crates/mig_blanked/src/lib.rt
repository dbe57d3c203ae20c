//! A PV guest whose pages stay in a file, in its blank form.
//!
//! Responsible for: bringing the outline of a guest to its blank form, whether it is whole or not; marks of the frames that
//! hold the guest's P2M lists; and its frames as a writer of PAGE_DATA records takes them: the pages of P2M frames are zeros,
//! those of page tables come from the outline, and all others from their places in the file, where those that stand one
//! behind another are read at once. Left to others: what the blank form is (mig_pvtables), the outline and the places
//! (mig_outline, mig_placed), and which records are written of frames (mig_records_pages).
//!
//! What the layers above rely on: the outline in its blank form, with these frames, is the blank form of the guest that was
//! sent. A page table is never read again: what is written of it was judged.
#![tactic(auto)]

mod blanking;
mod frames;
mod law;
mod listed;
mod plain;

pub use blanking::blank_outline;
pub use frames::PagesByNumber;
pub use law::outline_stands_for_its_guest;
