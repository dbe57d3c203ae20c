//! What a stream of either form is: a bare image, or an image inside a libxl stream (libxl migration stream).
//!
//! Responsible for:
//!
//! - the libxl header, the records around an image and their order, judged part by part in byte order
//! - what records say of emulators: the store and the context that they make of each, the parts that these are of a
//!   guest, and that such a guest is still whole
//! - the guest that a stream means
//! - the laws that join the judging with the spelling of the format
//! - the test of a record's head
//!
//! Left to others: images (mig_restore_form), pairs of texts (mig_policy), headers and record heads (mig_headers,
//! mig_records), a stream read and written (mig_libxl).
//!
//! What the layers above rely on:
//!
//! - An input either begins with one accepted stream of one guest, or is refused at one place for one cause.
//! - `libxl_head_fault` answers what is wrong with a record's head, by a count and two facts of the records before
//!   it.
//!
//! `Emulators` is seen as what the records say that were added to it. Of each emulator the last context decides, and of
//! each key of its store the last value. A guest without emulators that is whole, in its blank form and of bytes stays
//! so with the parts of well formed emulators. At each key it has what `part_there` says.
#![tactic(auto)]

mod emulator_law;
mod emulators;
mod head;
mod law;
mod numbers;

pub use emulator_law::{last_context_decides, last_value_decides};
pub use emulators::Emulators;
pub use head::{RecordsBehind, libxl_head_fault};
pub use law::{
    accepted_is_stream, accepted_or_refused, accepted_stream_is_whole, never_both, one_front,
    stream_is_accepted,
};
pub use numbers::{
    EMULATOR_CONTEXT, EMULATOR_IDS, EMULATOR_INDICES, EMULATOR_XENSTORE_DATA, LIBXC_CONTEXT,
    LIBXL_END,
};
