//! Tests of the rooms that know bytes, streams, images and guests, and of no machine that runs.
//!
//! Responsible for:
//!
//! - each public call of these rooms that the program doesn't make where it does its work, which no contract says to
//!   do its work where memory is at hand
//! - each source and sink that fails
//! - what a relay keeps and what it writes where a read or a write fails
//! - what the formats say where no stream shows it to the built program
//!
//! They are in a crate of their own, since a crate with tests is proved twice. What a stream or an image says is
//! tested with the built program (tests/examples).
#![tactic(auto)]

#[cfg(test)]
mod bodies;
#[cfg(test)]
mod body_pieces;
#[cfg(test)]
mod bytes;
#[cfg(test)]
mod guest;
#[cfg(test)]
mod image;
#[cfg(test)]
mod m2p;
#[cfg(test)]
mod pages;
#[cfg(test)]
mod passing;
#[cfg(test)]
mod renaming;
#[cfg(test)]
mod shown;
#[cfg(test)]
mod store;
#[cfg(test)]
mod tables;
