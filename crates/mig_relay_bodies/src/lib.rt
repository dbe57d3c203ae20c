//! Bodies of records that come in pieces.
//!
//! Responsible for:
//!
//! - what is known of the body of a record behind its first pieces, in a small state that can be copied, so that
//!   nobody keeps the body
//! - how the body is cut
//! - its fault once it has come whole
//!
//! Left to others: PAGE_DATA and LIBXC_CONTEXT, whose parts are judged one after another (mig_restore_form,
//! mig_libxl_form), and what a body says (mig_records).
//!
//! What the layers above rely on:
//!
//! - The fault that is told of a body in pieces is the one that a reader of the whole body tells.
//! - No piece has more than 4096 bytes.
//! - Behind a head without fault each such body is a part of the input that is judged as a whole.
#![tactic(auto)]

mod body;
mod chain;
mod front;
mod known;
mod law;
mod pairs;

pub use body::BodySeen;
pub use known::{BodyForm, Knows};
pub use law::bodies_are_parts;
