#![tactic(auto, using(mig_bytes::proofs::Texts::puts_then, mig_bytes::proofs::Texts::puts_part))]

ghost use Rattle.std.specs.Prelude.{◌≡◌, string_bytes, IfOk};
ghost use Rattle.mig_bytes.specs.Bytes.{Puts};
ghost use Rattle.mig_show.specs.Refusals.{refused_text};

use mig_bytes::{MemSink, Sink, WriteFailed, put_all};
use mig_headers::{Cause, Place};
use mig_headers_text::{put_cause, put_place};
use std::alloc::{AllocError, Global};

/// Writes the text of a refusal: its place and its cause, as the refusal line has them.
fn put_refused<K: Sink>(sink: &mut K, place: Place, cause: Cause) -> Result<(), WriteFailed>
    ensures { Puts (refused_text place cause) (K.written sink.old) (K.written sink.new) result }
{
    put_place(sink, place)?;
    put_all(sink, b": ")?;
    put_cause(sink, cause)
}

/// The text of a refusal.
pub(crate) fn refused_text(alloc: Global, place: Place, cause: Cause) -> Result<String, AllocError>
    ensures { IfOk result (λ text. string_bytes text ≡ refused_text place cause) }
{
    let mut text = MemSink::new(alloc, Vec::new(alloc));
    if let Err(_) = put_refused(&mut text, place, cause) {
        return Err(AllocError);
    }
    // It is ASCII, so the second answer never comes.
    match str::from_utf8(text.bytes()) {
        Ok(text) => String::from_str(alloc, text),
        Err(_) => Err(AllocError),
    }
}
