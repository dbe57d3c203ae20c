//! The printed texts of places and causes of refusals: of a stream, a legacy stream or a guest image, and of an unsound
//! host.
//!
//! Responsible for: the names and arguments of causes, how a place and a cause are printed, and numbers in decimal digits.
//! Left to others: which places and causes there are, and their numbers (mig_headers), and which line a text is part of
//! (mig_tool_report).
//!
//! What the layers above rely on: a text that is printed is exactly that of its place or cause, or after a failed write a
//! part of it that isn't all.
#![tactic(auto)]

mod image_text;
mod legacy_text;
mod text;
mod unsound_text;

pub use image_text::{put_image_cause, put_image_place};
pub use legacy_text::{put_legacy_cause, put_legacy_place};
pub use text::{Arguments, Printed, put_cause, put_number, put_place};
pub use unsound_text::put_unsound;
