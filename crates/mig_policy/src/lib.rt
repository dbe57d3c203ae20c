//! What the bodies of policy and TSC records say, and what pairs of texts say.
//!
//! Responsible for:
//!
//! - X86_CPUID_POLICY, X86_MSR_POLICY and X86_TSC_INFO (libxc migration stream, the sections of these names)
//! - the pairs in an emulator's store (libxl migration stream, "EMULATOR_XENSTORE_DATA"): their canonical form, what is
//!   wrong with bytes that are to be pairs, and pairs that are added to earlier ones
//!
//! The meaning of a leaf, an MSR or a key is nobody's here.
//!
//! What the layers above rely on:
//!
//! - A contract says which parts of a guest a body sets; all else stays.
//! - A policy body that isn't empty replaces all entries of its policy.
//! - Bytes pass as pairs exactly where they spell pairs in canonical form.
//! - The first fault of bytes is told, and bytes without fault spell their pairs and no others.
//! - Of each key the last value decides.
//! - Pairs are written in canonical form, in 2^24 bytes at most.
#![tactic(auto)]

mod faults;
mod laws;
mod merge;
mod pair_map;
mod pairs;
mod policies;
mod texts;
mod tsc;

pub use faults::pairs_fault;
pub use laws::pairs_laws;
pub use merge::merge_pairs;
pub use pair_map::{PairMap, PairsAnswer};
pub use pairs::{canonical_pairs, may_be_in_key};
pub use policies::{read_cpuid, read_msr};
pub use tsc::read_tsc;
