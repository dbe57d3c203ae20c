ghost use Rattle.std.specs.Prelude.{◌≡◌, ◌+◌, ◌≤◌, ◌<◌, ◌^◌, length, ◌++◌, replicate};
ghost use Rattle.std.specs.List.{flat_map};
ghost use Rattle.mig_canon.specs.Common.{little_bytes, Puts, FaultHasCause, most_body, IsFormed, spelled, text_of, code_number, front_text, shape_of, parts_at, IsRow};
ghost use Rattle.mig_records.specs.declared.shape.Shape.TheVariants as shapes;
ghost use Rattle.mig_canon.specs.Canon.{records_of};
ghost use Rattle.mig_canon.specs.Pieces.{piece, IsShortPart};

use mig_bytes::{Sink, WriteFailed, put_all};
use mig_guest::{Guest, PartCode, PartKey};
use mig_records::{
    Layout, Shape, shape_of, write_count, write_head, write_numbers, write_padding, write_record,
};

/// Appends so many zero bytes.
fn write_zeros<K: Sink>(sink: &mut K, count: usize) -> Result<(), WriteFailed>
    ensures bytes { Puts (replicate count 0) (K.written sink.old) (K.written sink.new) result }
    ensures cause { FaultHasCause (K.faults sink.old) (K.faults sink.new) result }
{
    for i in 0..count {
        put_all(sink, &[0])?;
    }
    Ok(())
}

/// Appends what is before the entries of a table: their number, where it has it.
fn write_front<K: Sink>(sink: &mut K, layout: Layout, count: u32) -> Result<(), WriteFailed>
    ensures bytes { Puts (front_text layout.counted count) (K.written sink.old) (K.written sink.new) result }
    ensures cause { FaultHasCause (K.faults sink.old) (K.faults sink.new) result }
{
    if layout.counted {
        write_count(sink, count)
    } else {
        Ok(())
    }
}

/// Appends the numbers of a key, each in so many bytes, so many zeros, and a value.
#[tactic(auto, using(mig_bytes::proofs::Texts::puts_then, mig_bytes::proofs::Texts::puts_stop, mig_bytes::proofs::Texts::puts_same, crate::proofs::Spelling::keyed_text))]
fn write_keyed<K: Sink>(
    sink: &mut K,
    first: usize,
    second: usize,
    ignored: usize,
    key: PartKey,
    value: &[u8],
) -> Result<(), WriteFailed>
    requires first { first ≤ 8 }
    requires second { second ≤ 8 }
    ensures bytes { Puts (little_bytes first key.key1 ++ (little_bytes second key.key2 ++ (replicate ignored 0 ++ value.now))) (K.written sink.old) (K.written sink.new) result }
    ensures cause { FaultHasCause (K.faults sink.old) (K.faults sink.new) result }
{
    write_numbers(sink, first, key.key1, second, key.key2)?;
    write_zeros(sink, ignored)?;
    put_all(sink, value)
}

/// Appends the record of a single part: its bytes, and zeros where bytes are ignored.
fn write_single<K: Sink>(
    sink: &mut K,
    number: u32,
    ignored: usize,
    value: &[u8],
) -> Result<(), WriteFailed>
    requires { length value.now + ignored ≤ most_body }
    ensures bytes { Puts (spelled number (value.now ++ replicate ignored 0)) (K.written sink.old) (K.written sink.new) result }
    ensures cause { FaultHasCause (K.faults sink.old) (K.faults sink.new) result }
{
    let len = (value.len() + ignored) as u32;
    write_head(sink, number, len)?;
    put_all(sink, value)?;
    write_zeros(sink, ignored)?;
    write_padding(sink, len)
}

/// Appends the record of a part with its key.
fn write_named<K: Sink>(
    sink: &mut K,
    number: u32,
    key: PartKey,
    second: usize,
    ignored: usize,
    value: &[u8],
) -> Result<(), WriteFailed>
    requires narrow { second ≤ 4 }
    requires short { 4 + second + ignored + length value.now ≤ most_body }
    ensures bytes { Puts (spelled number (little_bytes 4 key.key1 ++ (little_bytes second key.key2 ++ (replicate ignored 0 ++ value.now)))) (K.written sink.old) (K.written sink.new) result }
    ensures cause { FaultHasCause (K.faults sink.old) (K.faults sink.new) result }
{
    let len = (4 + second + ignored + value.len()) as u32;
    write_head(sink, number, len)?;
    write_keyed(sink, 4, second, ignored, key, value)?;
    write_padding(sink, len)
}

/// Appends a part as its code's shape says: an entry of a table, or a record.
pub(crate) fn write_piece<K: Sink>(
    sink: &mut K,
    code: PartCode,
    shape: Shape,
    key: PartKey,
    value: &[u8],
) -> Result<(), WriteFailed>
    requires row { IsRow code shape }
    requires short { IsShortPart shape (key, value.now) }
    ensures bytes { Puts (piece shape (code_number code) (key, value.now)) (K.written sink.old) (K.written sink.new) result }
    ensures cause { FaultHasCause (K.faults sink.old) (K.faults sink.new) result }
{
    let number = code.number();
    match shape {
        Shape::Table(layout) => write_keyed(
            sink,
            layout.key1_width,
            layout.key2_width,
            0,
            key,
            value,
        ),
        Shape::Single(_, ignored) => write_single(sink, number, ignored, value),
        Shape::Named(second, ignored, _) => write_named(sink, number, key, second, ignored, value),
        Shape::Chain => write_record(sink, number, value),
        Shape::Other => Ok(()),
    }
}

/// Appends all parts of the code, one after another.
fn write_pieces<K: Sink>(sink: &mut K, guest: &Guest, code: PartCode) -> Result<(), WriteFailed>
    requires { IsFormed guest.now }
    ensures bytes { Puts (flat_map (piece (shape_of code) (code_number code)) (parts_at code guest.now)) (K.written sink.old) (K.written sink.new) result }
    ensures cause { FaultHasCause (K.faults sink.old) (K.faults sink.new) result }
{
    let mut after = None;
    while let Some((key, value)) = guest.next_of_code(code.number(), after) {
        write_piece(sink, code, shape_of(code), key, value)?;
        after = Some(key);
    }
    Ok(())
}

/// How many parts of the code there are.
#[tactic(auto, using(crate::proofs::Wholes::next_part, crate::proofs::Wholes::code_next))]
fn count_parts(guest: &Guest, code: PartCode) -> u32
    requires { length (parts_at code guest.now) < 2 ^ 32 }
    ensures { result ≡ length (parts_at code guest.now) }
{
    let mut count = 0;
    let mut after = None;
    while let Some((key, _)) = guest.next_of_code(code.number(), after) {
        count += 1;
        after = Some(key);
    }
    count
}

/// Appends the record of a table, where it has entries.
#[tactic(auto, using(mig_bytes::proofs::Texts::puts_then, mig_bytes::proofs::Texts::puts_stop, mig_bytes::proofs::Texts::puts_same, crate::proofs::Spelling::code_table, crate::proofs::Wholes::few_rows, crate::proofs::Wholes::table_size, crate::proofs::Wholes::table_short))]
fn write_table<K: Sink>(
    sink: &mut K,
    guest: &Guest,
    code: PartCode,
    layout: Layout,
) -> Result<(), WriteFailed>
    requires formed { IsFormed guest.now }
    requires shape { shape_of code ≡ shapes.Table layout }
    ensures bytes { Puts (text_of (records_of code guest.now)) (K.written sink.old) (K.written sink.new) result }
    ensures cause { FaultHasCause (K.faults sink.old) (K.faults sink.new) result }
{
    let count = count_parts(guest, code);
    if count == 0 {
        return Ok(());
    }
    let len = (layout.front_width() + layout.entry_width() * count as usize) as u32;
    write_head(sink, code.number(), len)?;
    write_front(sink, layout, count)?;
    write_pieces(sink, guest, code)?;
    write_padding(sink, len)
}

/// Appends the records of the parts of one code.
#[tactic(auto, using(mig_bytes::proofs::Texts::puts_same, crate::proofs::Spelling::code_each, crate::proofs::Spelling::no_table_is))]
pub(crate) fn write_parts<K: Sink>(
    sink: &mut K,
    guest: &Guest,
    code: PartCode,
) -> Result<(), WriteFailed>
    requires { IsFormed guest.now }
    ensures bytes { Puts (text_of (records_of code guest.now)) (K.written sink.old) (K.written sink.new) result }
    ensures cause { FaultHasCause (K.faults sink.old) (K.faults sink.new) result }
{
    if let Shape::Table(layout) = shape_of(code) {
        return write_table(sink, guest, code, layout);
    }
    write_pieces(sink, guest, code)
}
