//! The machine-to-physical map (M2P) of a host: of each machine frame the PFN that has it.
//!
//! Responsible for: the map, and the room that is kept ready for more machine frames. It knows nothing of what a frame
//! is, nor that two machine frames may not belong to one PFN.
//!
//! What the layers above rely on: an M2P is a finite map from machine frame to PFN and a number of spare machine frames.
//! Each call says what it does to the whole map; a machine frame that is put in spare room can't be refused, and one that
//! is removed leaves room for another. A call passes at most 41 cells for each way that it walks, whatever the numbers.
#![tactic(auto)]

mod cell;
mod m2p;
mod tree;

pub use m2p::M2p;
