//! Files that are read by place: again and again, and only where they have to be.
//!
//! Responsible for:
//!
//! - the trait of a file that is read by place, such a file in memory, and the standard input where it is one
//! - reading a file on from a place as a `Source` that passes over bytes without reading them
//!
//! It knows nothing of streams.
//!
//! What the layers above rely on:
//!
//! - A source over a file gives just the file's bytes, and reads none of those that it passes over.
//! - A read fails only where the file couldn't be read.
//!
//! That nobody writes to the file meanwhile is taken as given: a file stands behind a shared reference, whose value
//! doesn't change. The file of the machine is the trusted edge: no contract says which bytes it has.
#![tactic(auto)]

mod file;
mod memory;
mod source;
mod standard;

pub use file::PageFile;
pub use memory::MemFile;
pub use source::FileSource;
pub use standard::StandardFile;
