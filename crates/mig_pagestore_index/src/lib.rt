//! Values above 0 by numbers below 2^52, in leaves of 512 values that a table and a search tree lead to.
//!
//! Responsible for: the leaves, the way to each, the room for numbers that is kept ready, and the way to the next number. It knows nothing
//! of what numbers and values stand for.
//!
//! What the layers above rely on: an index is a finite map from number to value and a number of spare numbers. Each
//! call says what it does to the whole map. A call that finds no memory leaves the map as it was, and a value that is
//! set in spare room can't be refused.
#![tactic(auto)]

mod directory;
mod index;
mod level;
mod tree;

pub use index::Index;
