//! Saves a machine whose guest runs on.
//!
//! Responsible for:
//!
//! - what a save needs, made before it begins
//! - the order of its steps
//! - judging the host of a paused machine, a PV host by the types that were seen last, row by row
//! - putting PFNs into the contexts of its vCPUs on the way, since the machine frame of a field is looked up but once
//! - writing its settings as they are then
//! - which answer comes where the machine or the sink fails
//! - the law that the records which a saver sent, between the other records of a canonical image, make an image that
//!   is accepted, whose guest is what the host is seen as
//! - the law that bytes of a stream whose outermost END isn't whole are no accepted stream of either form, and begin
//!   with none
//!
//! Left to others:
//!
//! - what may be asked of a machine (mig_guest)
//! - the parts that are kept of its host, judging an HVM host, and what is written before the frames and behind them
//!   (mig_dirtysave_parts)
//! - the frames, their tables and the rounds in which they are sent (mig_dirtysave_rounds)
//! - what a host is seen as (mig_host_view)
//! - what a stream is (mig_libxl_form)
//! - what is around its image (mig_libxl)
//!
//! What the layers above rely on: over an honest machine what `run` wrote is accepted, whatever follows it, and its
//! guest is what the paused host is seen as. An HVM host is judged as it is in the end, over any machine; a PV host is,
//! over an honest machine. Over any machine an answer that doesn't speak of types is true of a PV host. The rounds are
//! those of the definition. After every answer but `Ok` no front of what was written is an accepted stream, and at most
//! 1024 of the frame numbers that were read have no whole record. `run` takes no memory.
#![tactic(auto)]

mod answer;
mod closing;
mod contexts;
mod judging;
mod listing;
mod lookup;
mod pause_law;
mod saver;
mod unended_law;
mod viewed_law;
mod viewing;

pub use answer::{SaveAnswer, SaveReport};
pub use contexts::rename_contexts;
pub use judging::judge;
pub use listing::misplaced_by_type;
pub use pause_law::{parts_of_codes_are_held, rounds_judge_tables};
pub use saver::Saver;
pub use unended_law::{
    unended_has_no_stream, unended_image_is_no_stream, unended_libxl_stream_is_no_stream,
    unended_wrapped_image_is_no_stream,
};
pub use viewed_law::saved_host_is_viewed;
pub use viewing::view_parts;
