//! Reads the legacy stream of HVM guests, which Xen's 64-bit tools wrote up to Xen 4.5 (xg_save_restore.h).
//!
//! Responsible for:
//!
//! - which chunk a number is the type of, and what is wrong with a chunk by itself
//! - which words of a PAGE_DATA name the frames of a batch, and which pairs of texts a toolstack's data make
//! - judging a legacy stream part by part, in byte order, and the guest that its chunks and its tail mean
//! - the laws that join the judging with the spelling of the form, and those that say in its words what it means
//!
//! Left to others:
//!
//! - what a single word says (mig_pagetypes)
//! - the pages of a batch (mig_restore)
//! - outlines of guests (mig_outline)
//! - what pairs of texts mean (mig_policy)
//! - the device model (mig_libxl_form)
//! - contexts (mig_hvm)
//! - places in a file (mig_placing)
//! - how a refusal is printed (mig_tool_guest)
//!
//! What the layers above rely on:
//!
//! - `read_legacy` answers the guest that the accepted front of the input means, or the first fault with its place. It
//!   has taken just that front, or all up to the end of the faulty part.
//! - `judge_legacy` does the same without keeping pages, and answers how many frames the guest has.
//! - `place_legacy` does it of a file, where the pages stay, and answers the outline of the guest and where in the file
//!   they are.
//!
//! The tests of chunks read from no source and know no guest. Each answers the first cause of its rows, with the least
//! place. The data of a toolstack have no wrong field exactly where they are spelled as entries.
#![tactic(auto)]

mod batch;
mod body;
mod chunk;
mod chunk_law;
mod fault;
mod law;
mod placed;
mod read;
mod tail;
mod text;
mod toolstack;

pub use batch::{batch_fault, page_data_words};
pub use chunk::{ChunkKind, chunk_kind};
pub use chunk_law::{
    batches_are_judged, digits_spell_numbers, numbers_have_kinds, toolstack_is_spelled,
    words_say_frames,
};
pub use law::{
    accepted_is_legacy, accepted_legacy_is_whole, accepted_or_refused, device_record_decides,
    guest_is_hvm, last_entry_decides, last_pair_decides, last_part_decides, last_value_decides,
    legacy_is_accepted, never_both, one_front,
};
pub use placed::place_legacy;
pub use read::{LegacyAnswer, judge_legacy, read_legacy};
pub use text::put;
pub use toolstack::{physmap_pairs, toolstack_fault};
