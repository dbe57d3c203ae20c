//! What the image of a guest in a stream is (libxc migration stream).
//!
//! Responsible for:
//!
//! - judging an image part by part, in byte order, and the guest that its records mean
//! - the laws that join the judging with the spelling of the format
//! - the test of a record's head behind the records before it, and what a PAGE_DATA word and its page say
//!
//! For HVM and PV guests, in version 2 and 3 of the format.
//!
//! Left to others:
//!
//! - bytes and fields (mig_bytes)
//! - headers and the table of record types (mig_headers)
//! - record heads, PAGE_DATA words and what bodies say (mig_records)
//! - the order of records (mig_order)
//! - frames and parts (mig_guest)
//! - page tables, whole guests and blank forms (mig_pvtables)
//! - an image read (mig_restore)
//!
//! What the layers above rely on:
//!
//! - An input either begins with one accepted image of one guest, or is refused at one place for one cause.
//! - `RecordsSeen::judge` answers what is wrong with the next head by what was kept of those before.
#![tactic(auto)]

mod head;
mod law;
mod word;

pub use head::{MOST_RECORDS, RecordsSeen};
pub use law::{
    accepted_is_image, accepted_is_whole, accepted_or_refused, entries_behind_verify_are_counted,
    entry_agrees, greatest_end_decides, image_is_accepted, last_content_decides,
    last_entry_decides, last_listing_decides, never_both, one_front, only_verify_is_counted,
    page_data_is_sent_or_compared, verify_parts_entries,
};
pub use word::{list_fault, page_fault, pfn_in, type_in, type_in_guest, words_of};
