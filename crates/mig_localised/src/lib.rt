//! A PV guest whose pages stay in a file, as it stands in a machine.
//!
//! Responsible for: bringing the outline of a guest to the form in which it stands in a machine, with machine frames counted
//! up from a base and with pages for its P2M frames; and its frames as a writer takes them: the pages of page tables and of
//! P2M frames come from the outline, and all others from their places in the file. Left to others: what that form is
//! (mig_host_view), which machine frames there are (mig_host), and the outline and the places (mig_outline, mig_placed).
//!
//! What the layers above rely on: the outline in this form, with these frames, is the guest that was sent as it stands in the
//! machine. A page table is never read again: what is written of it was judged.
#![tactic(auto)]

mod frames;
mod law;
mod localising;

pub use frames::LocalisedFrames;
pub use law::localised_outline_stands_for_its_guest;
pub use localising::localise_outline;
