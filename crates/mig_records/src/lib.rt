//! Single records of the libxc migration stream: their heads, the frame words of PAGE_DATA, the bodies that set
//! parts, and records written out.
//!
//! Responsible for:
//!
//! - what a record's head says, and what is wrong with a head or with the words of a PAGE_DATA
//! - how long the body with these words is
//! - the bytes of a written record
//! - the layout of the bodies that set parts, a row for each code: tables of entries, single values and named parts
//! - the bodies of X86_PV_INFO, X86_PV_P2M_FRAMES and the records of vCPUs (libxc migration stream, "Records")
//!
//! The words for the chain of an HVM context are here too, so that the table is whole.
//!
//! Left to others:
//!
//! - where in a stream a record may stand (mig_restore_form)
//! - PAGE_DATA records of frames (mig_records_pages)
//! - the context's reader (mig_hvm)
//! - policies and an emulator's pairs (mig_policy)
//! - the pages behind the words (mig_restore)
//!
//! What the layers above rely on:
//!
//! - Each test answers the first cause of its rows in specs/Faults, and None exactly where no row holds.
//! - A test of words names the least place.
//! - A record that is written whole has the canonical spelling of specs/Records.
//! - A body is answered by its first fault.
//! - A contract says which parts of a guest a faultless body sets; all else stays.
#![tactic(auto)]

mod body_laws;
mod count;
mod framing;
mod head;
mod laws;
mod layout;
mod number;
mod pv;
mod read;
mod shape;
mod table;
mod words;
mod write;

pub use body_laws::{
    bodies_are_spelled_law, bodies_keep_formed_law, bodies_say_bytes_law, bodies_say_one_law,
    bodies_say_parts_law, canonical_bodies_law, p2m_keeps_formed_law, p2m_law, pv_info_law,
    vcpu_law,
};
pub use count::count_fault;
pub use framing::{take_head, take_padding};
pub use head::{RecordHead, length_fault, long_fault};
pub use laws::{
    faultless_words, heads_are_read_back, outside_place_is_first, pieces_spell_a_record,
    reserved_place_is_first, reserved_types_are_unknown, spelled_is_record,
};
pub use layout::Layout;
pub use pv::{p2m_fault, pv_info_fault, read_p2m, vcpu_fault};
pub use read::{GDT_ENTS, body_fault, read_body, read_single};
pub use shape::{Shape, shape_of};
pub use words::{data_len, words_fault};
pub use write::{write_count, write_head, write_numbers, write_padding, write_record};
