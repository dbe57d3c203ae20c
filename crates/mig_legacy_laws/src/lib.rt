//! What the chunks and the tail of a legacy stream mean, worked through.
//!
//! Responsible for:
//!
//! - which number each chunk has
//! - the order of a clock's fields
//! - which parameters are in the tail
//! - the names under which the memory of a device model is in its store
//!
//! Left to others: to read them (mig_legacy), since here are laws alone.
#![tactic(auto)]

mod meaning_law;

pub use meaning_law::{worked_chunk_numbers, worked_clock, worked_memory_names, worked_tail};
