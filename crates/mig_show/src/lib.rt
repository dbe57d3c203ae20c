//! A stream's records as a JSON tree.
//!
//! Responsible for:
//!
//! - which records are whole in front of the part that is refused, and what is shown of each
//! - the members of the tree, the names of record types in Xen's documents, and the text of a refusal as the tree has
//!   it
//!
//! Left to others:
//!
//! - why a stream is refused, and which part comes next (mig_relay)
//! - what is printed of a place and a cause (mig_headers_text)
//! - the JSON text of a tree (serde_json)
//!
//! What the layers above rely on: the records are exactly those of specs/Fronts, and the tree is that of specs/Tree.
#![tactic(auto)]

mod laws;
mod line;
mod names;
mod record;
mod refusal;
mod seen;
mod tree;
mod viewer;

pub use laws::{one_tree_is_shown, smallest_stream_is_shown, trees_have_no_float};
pub use record::Seen1;
pub use tree::tree_of;
pub use viewer::{ShowAnswer, Shown, ShownText, show, show_text};
