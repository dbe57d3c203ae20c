//! Bytes: sources and sinks, taking and putting them whole, fields of fixed width, and judging an input part by part.
//!
//! Responsible for:
//!
//! - the traits of the outside (`Source`, `Sink`) and what taking and putting may come to
//! - the calls that take all bytes of a part or put all of a text
//! - sources and sinks over memory, and over std's readers and writers
//! - fields of fixed width in either byte order
//! - judging an input part by part
//!
//! It knows nothing of streams, records or guests.
//!
//! What the layers above rely on:
//!
//! - A field is the number that its bytes spell, and they spell it again.
//! - Each call says which bytes were taken or appended, also after a failure.
//! - A failure is answered only where the count of that source or sink rose.
//!
//! The source and the sink in memory say exactly which call fails, and the sink for how many bytes it has room. The
//! adapters over std are the trusted edge: no contract says what a file or a socket gives or takes.
#![tactic(auto)]

mod answer;
mod failure;
mod fields;
mod memory;
mod outside;
mod part;
mod put;
mod sink;
mod source;
mod stop;
mod take;

pub use answer::{Answer, answer_for, stop_for};
pub use failure::{Failed, Memory, ReadFailed, WriteFailed};
pub use fields::{
    pad_len, padding_is_least, put_u16_le, put_u32_be, put_u32_le, put_u64_be, put_u64_le, u16_be,
    u16_le, u32_be, u32_le, u64_be, u64_le,
};
pub use memory::{MemSink, MemSource};
pub use outside::{BufferedSource, InSource, OutSink};
pub use part::{take_long, take_part};
pub use put::put_all;
pub use sink::Sink;
pub use source::{Source, are_bytes};
pub use stop::{Got, Stop, TakeFault};
pub use take::{skip, take_exact, take_vec};
