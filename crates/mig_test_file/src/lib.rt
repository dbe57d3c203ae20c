//! Tests of files that are read by place, and of frames whose pages stay in one.
//!
//! Responsible for: each public call of mig_file and mig_placed at its work; frames that are written out of a file, in any
//! order of their places, as they are out of memory, also where a page ends with the file; what is written where a read or
//! a write fails; the places that mig_placing notes of an image; the entries behind a VERIFY, compared with the pages in the
//! file; and the image of a host, and a PV guest in its blank form, that are written out of a file, as they are out of memory.
//! They stand in a crate of their own, since a crate with tests is proved twice.
#![tactic(auto)]

#[cfg(test)]
mod blanked;
#[cfg(test)]
mod blanked_runs;
#[cfg(test)]
mod comparing;
#[cfg(test)]
mod files;
#[cfg(test)]
mod frames;
#[cfg(test)]
mod hosted;
#[cfg(test)]
mod images;
#[cfg(test)]
mod made;
#[cfg(test)]
mod placing;
#[cfg(test)]
mod sources;
