//! Which frame an address means to a vCPU.
//!
//! Responsible for: going down the four levels of page tables of a guest, or of a host, from the root that a vCPU's context
//! names to the frame that an address means, and telling where the way ends if it ends before; also where only the outline of
//! the guest and the places of its pages in a file are kept. Left to others: what an entry says, and what a field of a context
//! says (mig_pvtables), what an outline and places are (mig_outline, mig_placed), and how a guest stands where it is
//! (mig_host_laws).
//!
//! What the layers above rely on: each answer is what a relation over the levels says, exactly one answer holds, and where a
//! guest is restored the frame that an address means stays the same, with its machine frame for its number.
#![tactic(auto)]

mod law;
mod levels;
mod outlined;
mod walk;

pub use law::{
    address_is_its_slots, blank_slot_is_absent, canonical_address_is_low_or_high,
    hvm_guest_has_no_vcpu, one_answer_holds, one_page_has_one_answer,
    outline_has_levels_of_its_guest, translation_commutes,
};
pub use walk::{Walked, walk_guest, walk_host, walk_outlined};
