//! Sets of frame numbers in words of 64 bits: bit p mod 64 of word p / 64 is that of p.

mod make;
mod scan;
mod set;

pub use make::{all, none};
pub use scan::{count, next_from};
pub use set::{clear, contains, insert, join, put, remove};
