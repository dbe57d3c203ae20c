//! Passes a stream on while it judges it, part by part, and keeps no pages.
//!
//! Responsible for:
//!
//! - which bytes may be passed on: a stream judged with those causes left out that need the whole guest or all pairs
//!   of an emulator, and the laws of that
//! - which part of a stream comes next, and what is judged of it before it is written
//! - what is kept of it: a count, a few facts, the words of one PAGE_DATA and the small state of one body
//! - which parts wait to be written with those behind them
//!
//! In either form of stream (libxc migration stream; libxl migration stream). Left to others: what is wrong with a
//! part (mig_headers, mig_records, mig_order, mig_restore_form, mig_libxl_form, mig_pvtables), and bodies in pieces
//! (mig_relay_bodies).
//!
//! What the layers above rely on:
//!
//! - `relay` answers Ok exactly on a passable front, which it has taken and written then, and refuses with the open
//!   refusal.
//! - Whatever it answers, what was written is a front of what was taken. At most 4608 bytes, and 8 for each word of the
//!   PAGE_DATA in hand, were taken and not written.
//!
//! Where no write fails, all that was passed on is written before it answers.
#![tactic(auto)]

mod answer;
mod bodies;
mod heads;
mod held;
mod law;
mod looking;
mod nowhere;
mod opening;
mod pages;
mod pass;
mod passable_law;
mod state;

pub use answer::{RelayAnswer, Relayed, Step};
pub use law::{lists_are_fronts, worked_waiting};
pub use pass::relay;
pub use passable_law::{
    accepted_passes, fronts_pass, left_out_is_not_told, no_prefix_passes, nothing_else_is_left_out,
    refused_is_open_refused, unfinished_is_not_accepted,
};
pub use state::Relay;
