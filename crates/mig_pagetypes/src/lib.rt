//! Page types, and the frame words of PAGE_DATA records and of a legacy stream's batches.
//!
//! Responsible for:
//!
//! - which numbers name a page type, which types come with a page, and which are page tables of what level
//! - how a frame word holds a type and a frame number, also in a legacy stream
//!
//! It leaves to others how many words a record or a batch has, which frame numbers a guest may have, and what the page
//! of a table means.
//!
//! What the layers above rely on:
//!
//! - Each answer is the one of the tables in specs/PageTypes, for every number of the argument's type.
//! - A word is refused exactly where its type number is reserved.
//! - Reading undoes writing.
#![tactic(auto)]

mod frame_word;
mod laws;
mod legacy_word;
mod page_type;

pub use frame_word::{FrameWord, decode_word, encode_word};
pub use laws::{
    decoding_undoes_encoding, encoding_undoes_decoding, numbers_name_types, types_have_numbers,
};
pub use legacy_word::{LegacyWord, decode_legacy_word};
pub use page_type::PageType;

/// Frame numbers (PFN) are below this: a frame word has 52 bits for one.
pub const PFN_LIMIT: u64 = 1 << 52;

/// The last frame number of a PV guest is below this: X86_PV_P2M_FRAMES has 32 bits for it.
pub const TOP_LIMIT: u64 = 1 << 32;

/// The most frames that a guest or a host may have.
pub const MOST_FRAMES: u64 = 1 << 24;

/// Machine frames (MFN) are below this.
pub const MACHINE_LIMIT: u64 = 1 << 40;
