//! What the bodies of records of HVM guests say.
//!
//! Responsible for: the HVM context, a chain of entries (Xen's public/arch-x86/hvm/save.h; libxc migration stream,
//! "HVM_CONTEXT"), and the HVM parameters ("HVM_PARAMS"). The meaning of an entry's data or of a parameter is
//! nobody's here; records and their order are left to the layers above.
//!
//! What the layers above rely on:
//!
//! - A chain is answered by the offset of the entry that ends it, or by its first fault.
//! - A body of parameters is answered by its first fault.
//! - A contract says which parts of a guest a faultless body sets; all else stays.
#![tactic(auto)]

mod context;
mod params;

pub use context::{read_context, scan_context};
pub use params::{params_fault, read_params};
