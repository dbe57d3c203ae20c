//! A guest as a migration stream tells it, and what may be asked of a machine whose guest runs on.
//!
//! Responsible for:
//!
//! - the frames of a guest (their types and pages, by frame number), its parts (everything else that a stream
//!   carries, as bytes by a key), its kind and its top
//! - in `mig_machine_api` what a saver may ask of a machine, call by call
//! - what each call says: the host at its end, the log of the frame numbers that may have changed, and the history of
//!   what was asked
//! - in `pfn_set` sets of frame numbers in words of 64 bits
//!
//! It doesn't judge what a part's bytes say, and knows nothing of records. Left to others: what a paused host means
//! (mig_host_view), machines (mig_machine), and the saver (mig_dirtysave).
//!
//! What the layers above rely on: a guest is a kind, a number, a finite map of frames and a finite map of parts. Each
//! call says what it does to the whole guest, and a call that finds no memory leaves the guest as it was. Every frame
//! number is below 2^52, no frame has type XTAB, and a frame has a page of 4096 bytes exactly where its type has data.
//! In an honest machine a frame number that isn't in the log has the footprint that it had before the call: its type,
//! its raw page, and the frame numbers that a table names. A paused machine's host stays. Kind, width, keys and lengths
//! of parts, and the bytes of fixed parts, never change. Each call on a set says of every frame number whether it is in
//! the set then. The count is that of all members. The next member is the least one from a frame number on, found
//! without a look at each bit.
#![tactic(auto)]

mod guest;
mod law;
mod machine_law;
pub mod mig_machine_api;
mod part_code;
mod part_key;
mod parts;
pub mod pfn_set;
mod table;

pub use guest::Guest;
pub use law::{
    empty_guest_is_formed, setting_frames_keeps_formed, setting_parts_keeps_formed,
    setting_policies_keeps_formed,
};
pub use machine_law::{footprint_laws, members_laws, rounds_laws};
pub use mig_pagestore::{Fill, FrameStore};
pub use part_code::{
    EMULATOR_CONTEXT, EMULATOR_PAIRS, MOST_GDT_ENTRIES, MOST_PAIRS, PartCode, is_fixed,
};
pub use part_key::{CONTEXT_KEY, P2M_KEY, PartKey};
pub use parts::Parts;
pub use table::Entry;
