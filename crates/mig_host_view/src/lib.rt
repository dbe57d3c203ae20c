//! A guest as it is in a machine: its tables and the contexts of its vCPUs name machine frames.
//!
//! Responsible for:
//!
//! - bringing a whole guest to the form in which it is in a machine and, of a PV guest, back to its form in a
//!   stream
//! - what is in the way of seeing a guest that is in a machine
//! - as a definition with its laws, the guest that a host means
//!
//! Left to others: what keeps the frames and their machine frames (mig_host).
//!
//! What the layers above rely on:
//!
//! - A whole guest in blank form that is brought into a machine can be seen there, and comes back as it was.
//! - A valid host in which nothing is found that is in the way means a whole guest in blank form.
#![tactic(auto)]

mod localising;
mod normalising;
mod renaming;
mod soundness;
mod view_law;

pub use localising::localise_guest;
pub use normalising::normalise_guest;
pub use soundness::{absent_needed, large_gdt, unsoundness};
pub use view_law::{
    hvm_host_is_viewed, localised_guest_can_be_seen, localised_guest_comes_back,
    localised_p2m_frames_are_filled, renamed_context_comes_back, sound_host_has_no_unsoundness,
    view_is_of_bytes, view_is_whole,
};
