//! The canonical stream of a guest (libxc migration stream, version 3; libxl migration stream): what it is, its image
//! written, and the laws of the image.
//!
//! Responsible for:
//!
//! - the order of the records of a canonical stream
//! - frames in batches of 1024
//! - the parts of each code, written by its shape with everything that a reader ignores zero
//! - as definitions, what is around the image where a guest has emulators
//! - that the records of a guest, one after another in their canonical order, may each stand where they are and say
//!   the guest's parts and frames
//!
//! Left to others:
//!
//! - the bytes of PAGE_DATA records (mig_records_pages)
//! - the shapes of bodies (mig_records)
//! - whether a guest can be written (`IsWhole` of mig_pvtables)
//! - what an image is (mig_restore_form)
//! - what is written around the image (mig_libxl)
//!
//! What the layers above rely on:
//!
//! - For a whole guest the bytes that are appended are exactly `canon` of specs/Canon, and after a failed write a
//!   part of them that isn't all.
//! - A failure is answered only where the count of the sink rose.
//! - The canonical image of a bare guest is accepted with this guest, whatever follows it, and so is one with its
//!   frames in other records.
//!
//! It takes no memory. `write_canon_with` writes the frames of any `FrameSequence`, of a guest that need only be well
//! formed. A writer of other frames takes the pieces. `write_headers` appends the headers alone. `write_codes`
//! appends the records of the parts of some codes, of a guest that need only be well formed. `write_static` appends
//! the policies; `write_info`, `write_p2m_frames` and `write_vcpus` append what a PV guest alone has.
//!
//! The steps of these proofs serve for any image with a canonical front. `State` of proofs/CanonSteps says that so
//! many records are accepted, and what they mean. `more` and the lemmas behind it say that with the next records they
//! still are. proofs/CanonStages says which record may be next, and proofs/Canons what is said at each stage from the
//! headers to END. `batches_more` of proofs/Batched says that frames may come in any records.
#![tactic(auto)]

mod frames;
mod law;
mod parts;
mod pv;
mod writer;

pub use law::{canonical_image_is_accepted, frames_may_come_in_any_records};
pub use pv::{write_info, write_p2m_frames, write_vcpus};
pub use writer::{write_canon, write_canon_with, write_codes, write_headers, write_static};
