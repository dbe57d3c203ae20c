#![tactic(auto, using(mig_bytes::proofs::Texts::puts_then, mig_bytes::proofs::Texts::puts_part), unfolding(crate::specs::Records::spelled))]

ghost use Rattle.std.specs.Prelude.{◌≡◌, ◌≤◌, ◌++◌, length, replicate};
ghost use Rattle.mig_records.specs.Common.{little_bytes, Puts, padding_len, FaultHasCause, most_body};
ghost use Rattle.mig_records.specs.Records.{head_of, spelled};

use crate::RecordHead;
use mig_bytes::{Sink, WriteFailed, pad_len, put_all, put_u64_le};

/// Appends the head of a record. After `WriteFailed` some first bytes are appended, but not all.
pub fn write_head<K: Sink>(sink: &mut K, kind: u32, len: u32) -> Result<(), WriteFailed>
    ensures bytes { Puts (head_of kind len) (K.written sink.old) (K.written sink.new) result }
    ensures cause { FaultHasCause (K.faults sink.old) (K.faults sink.new) result }
{
    put_all(sink, &RecordHead { kind, len }.encode())
}

/// Appends the padding behind a body of this length, in zeros. After `WriteFailed` some first bytes are appended, but not
/// all.
pub fn write_padding<K: Sink>(sink: &mut K, len: u32) -> Result<(), WriteFailed>
    ensures bytes { Puts (replicate (padding_len len) 0) (K.written sink.old) (K.written sink.new) result }
    ensures cause { FaultHasCause (K.faults sink.old) (K.faults sink.new) result }
{
    let zeros = [0; 8];
    put_all(sink, &zeros[..pad_len(len)])
}

/// Appends a record: head, body and padding in zeros. After `WriteFailed` some first bytes are appended, but not all.
pub fn write_record<K: Sink>(sink: &mut K, kind: u32, body: &[u8]) -> Result<(), WriteFailed>
    requires { length body.now ≤ most_body }
    ensures bytes { Puts (spelled kind body.now) (K.written sink.old) (K.written sink.new) result }
    ensures cause { FaultHasCause (K.faults sink.old) (K.faults sink.new) result }
{
    let len = body.len() as u32;
    write_head(sink, kind, len)?;
    put_all(sink, body)?;
    write_padding(sink, len)
}

/// Appends the lowest bytes of two numbers, of each the lowest first. After `WriteFailed` some first bytes are appended,
/// but not all.
#[tactic(auto, using(mig_bytes::proofs::Texts::puts_same, crate::proofs::RecordTexts::numbers_text))]
pub fn write_numbers<K: Sink>(
    sink: &mut K,
    first: usize,
    one: u32,
    second: usize,
    two: u32,
) -> Result<(), WriteFailed>
    requires first { first ≤ 8 }
    requires second { second ≤ 8 }
    ensures bytes { Puts (little_bytes first one ++ little_bytes second two) (K.written sink.old) (K.written sink.new) result }
    ensures cause { FaultHasCause (K.faults sink.old) (K.faults sink.new) result }
{
    let mut bytes = [0; 16];
    put_u64_le(&mut bytes, 0, u64::from(one));
    put_u64_le(&mut bytes, first, u64::from(two));
    put_all(sink, &bytes[..first + second])
}

/// Appends a count, and 4 zero bytes. After `WriteFailed` some first bytes are appended, but not all.
pub fn write_count<K: Sink>(sink: &mut K, count: u32) -> Result<(), WriteFailed>
    ensures bytes { Puts (little_bytes 4 count ++ replicate 4 0) (K.written sink.old) (K.written sink.new) result }
    ensures cause { FaultHasCause (K.faults sink.old) (K.faults sink.new) result }
{
    write_numbers(sink, 4, count, 4, 0)
}
