//! How a guest stands: in a stream, in a machine, or before a saver that looks names up one at a time.
//!
//! Responsible for:
//!
//! - what is wrong with a guest where it is, a line for each row, and which of it is named first
//! - what a vCPU's context says once its fields have other names
//! - worked examples of the smallest definitions that these laws share with the code
//!
//! Left to others: finding it (mig_pvtables, mig_host_view, mig_dirtysave), since here are laws alone.
//!
//! What the layers above rely on:
//!
//! - What is found in a host, and in a PV guest at the end of its stream, is the least of what is wrong, and no two
//!   causes are.
//! - The contexts of a host's view are the host's with PFNs for machine frames.
#![tactic(auto)]

mod field_law;
mod saver_law;
mod standing_law;
mod worked_law;

pub use field_law::{
    context_is_seen, field_keeps_what_is_put, fields_have_numbers, fields_say_values,
    renamed_context_says_names, worked_descriptors, worked_user_root,
};
pub use saver_law::saver_finds_unsoundness;
pub use standing_law::{
    first_row_is_least, guest_fault_is_least, nothing_is_wrong, one_row_is_named,
    unsoundness_is_least,
};
pub use worked_law::{listed_frames_are_numbers, worked_entries};
