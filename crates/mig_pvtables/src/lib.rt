//! Page tables and the contexts of vCPUs, whole guests and their blank form.
//!
//! Responsible for:
//!
//! - what an entry of a table says, and the frame that a field of a vCPU's context says
//! - what is wrong with a table in a stream, and with a guest at the end of its stream
//! - the walks over a guest's tables, its P2M frames and the contexts of its vCPUs
//! - bringing a guest to its blank form
//! - bringing a table from frame numbers to machine frames and back
//!
//! Left to others: a whole guest that is in a machine (mig_host_view).
//!
//! What the layers above rely on: a guest is whole exactly where no row of its faults finds anything, and its blank
//! form is whole then, and is its own blank form. The searches that are the same of a guest in a machine are here:
//! through the list of the P2M frames, through a table, and through the fields of a context.
#![tactic(auto)]

mod blanking;
mod fields;
mod frames;
mod law;
mod listing;
mod p2m;
mod rename;
mod renaming_law;
mod searching;
mod table;
mod testing;
mod vcpu;
mod walking;

pub use blanking::{blank, blank_shared_info, blank_table, blank_vcpus, zero_p2m_frames};
pub use fields::{FieldFrames, bad_field, is_type_of_field};
pub use frames::{FrameNames, Frames, ToMachine, ToStream};
pub use law::{
    blank_form_is_blank, blank_form_is_whole, faultless_table_is_within, hvm_guest_has_two_faults,
    hvm_guest_is_blank, hvm_guest_is_whole, pv_guest_is_whole, some_blank_pv_guest_is_whole,
    whole_as_its_blank_form, worked_pv_guest_is_whole,
};
pub use listing::{
    PartsByKey, TypedFrames, frame_type, is_misplaced, listed_pfn, misplaced_frame, missing_part,
    sole_key,
};
pub use mig_guest::Entry;
pub use p2m::p2m_page;
pub use rename::{BadEntry, NamesUnknown, Why, localise_table, normalise_table, rename_table};
pub use renaming_law::{
    localised_table_comes_back, normalise_table_refuses_the_first, renamed_table_says_the_same,
};
pub use searching::{EntryTest, first_entry, first_slot};
pub use table::{IsSuperpage, check_table, entry, put_entry};
pub use testing::{WholeAnswer, whole, whole_by};
pub use vcpu::{FIELDS, VCPU_BASIC, gdt_ents, host_frame, put_vcpu_frame, vcpu_frame};
pub use walking::{
    ContextStep, P2mStep, TableStep, each_context, each_p2m_frame, each_table, next_context,
};
