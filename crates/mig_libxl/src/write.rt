ghost use Rattle.std.specs.Prelude.{◌≡◌, ◌+◌, ◌≤◌, ◌==◌, ◌&&◌, ◌++◌, [], true, length, IfSome};
ghost use Rattle.mig_libxl.specs.Common.{option_map, FaultHasCause, most_body, IsWhole};
ghost use Rattle.std.specs.Ordering.{is_lt};
ghost use Rattle.std.specs.List.{list_any};
ghost use Rattle.std.specs.FinMap as maps;
ghost use Rattle.byteorder.specs.Endian.{little_bytes};
ghost use Rattle.mig_bytes.specs.Bytes.{Puts};
ghost use Rattle.mig_canon.specs.Elsewhere.{with_frames};
ghost use Rattle.mig_guest.specs.Formed.{IsFormed, is_emulator_code};
ghost use Rattle.mig_guest.specs.Frames.{FrameMap};
ghost use Rattle.mig_records.specs.Records.{spelled};
ghost use Rattle.mig_records_pages.specs.Copied.{Copies, CopyHasCause, IsPageBuffer};
ghost use Rattle.mig_canon.specs.CanonStream.{has_emulators as some_emulators, is_of_converter as from_converter, emulator_record, emulator_cmp, NextEmulator, emulators_in_order, text_of_emulators, opening_text, wrapper_opening, wrapper_closing, canon_any};

use mig_bytes::{Sink, WriteFailed, put_all, put_u32_le};
use mig_canon::{write_canon, write_canon_with};
use mig_guest::{EMULATOR_CONTEXT as CONTEXT, EMULATOR_PAIRS as PAIRS, Guest, PartKey};
use mig_headers::LibxlHeader;
use mig_libxl_form::{LIBXC_CONTEXT, LIBXL_END};
use mig_records::{write_head, write_padding, write_record};
use mig_records_pages::{CopyFailed, FrameSequence};

/// Appends the header of a libxl stream, and the record that an image follows. `legacy` says that the stream is made from a
/// legacy one. After `WriteFailed` some first bytes are appended, but not all.
#[tactic(auto, using(mig_bytes::proofs::Texts::puts_then, mig_bytes::proofs::Texts::puts_stop))]
pub fn open_wrapper<K: Sink>(sink: &mut K, legacy: bool) -> Result<(), WriteFailed>
    ensures bytes { Puts (opening_text legacy) (K.written sink.old) (K.written sink.new) result }
    ensures cause { FaultHasCause (K.faults sink.old) (K.faults sink.new) result }
{
    put_all(sink, &LibxlHeader { legacy }.encode())?;
    write_record(sink, LIBXC_CONTEXT, &[])
}

/// The id and the index of an emulator, as the body of its record begins.
fn front_of(key: PartKey) -> [u8; 8]
    ensures { result ≡ little_bytes 4 key.key1 ++ little_bytes 4 key.key2 }
{
    let mut front = [0; 8];
    put_u32_le(&mut front, 0, key.key1);
    put_u32_le(&mut front, 4, key.key2);
    front
}

/// Appends the record of an emulator's part: its id and its index, and the part's bytes. After `WriteFailed` some first
/// bytes are appended, but not all.
#[tactic(auto, using(mig_bytes::proofs::Texts::puts_then, mig_bytes::proofs::Texts::puts_stop, mig_bytes::proofs::Texts::puts_same, crate::proofs::EmulatorTexts::emulator_text))]
pub fn write_emulator<K: Sink>(sink: &mut K, key: PartKey, bytes: &[u8]) -> Result<(), WriteFailed>
    requires code { is_emulator_code key.code ≡ true }
    requires small { length bytes.now + 8 ≤ most_body }
    ensures bytes { Puts (emulator_record (key, bytes.now)) (K.written sink.old) (K.written sink.new) result }
    ensures cause { FaultHasCause (K.faults sink.old) (K.faults sink.new) result }
{
    let len = (8 + bytes.len()) as u32;
    write_head(sink, key.code - 256, len)?;
    put_all(sink, &front_of(key))?;
    put_all(sink, bytes)?;
    write_padding(sink, len)
}

/// Appends the record that ends a libxl stream. After `WriteFailed` some first bytes are appended, but not all.
pub fn close_wrapper<K: Sink>(sink: &mut K) -> Result<(), WriteFailed>
    ensures bytes { Puts (spelled 0 []) (K.written sink.old) (K.written sink.new) result }
    ensures cause { FaultHasCause (K.faults sink.old) (K.faults sink.new) result }
{
    write_record(sink, LIBXL_END, &[])
}

/// Whether a part of the first key is before one of the second: ids ascend, of an id indices, and of an index codes.
fn stands_before(first: PartKey, second: PartKey) -> bool
    ensures { result ≡ is_lt (emulator_cmp first second) }
{
    (first.key1, first.key2, first.code) < (second.key1, second.key2, second.code)
}

/// The first of the emulators' parts that are behind these keys, or of all.
fn next_emulator(
    guest: &Guest,
    pairs: Option<PartKey>,
    context: Option<PartKey>,
) -> Option<(PartKey, &[u8])>
    requires pairs { IfSome pairs (λ k. k.code ≡ 258) }
    requires context { IfSome context (λ k. k.code ≡ 259) }
    ensures next { NextEmulator guest.now.parts pairs context (option_map (λ e. (e.0, e.1.now)) result) }
{
    match guest.next_of_code(PAIRS, pairs) {
        Some((key, bytes)) => match guest.next_of_code(CONTEXT, context) {
            Some((other, content)) => {
                if stands_before(other, key) {
                    Some((other, content))
                } else {
                    Some((key, bytes))
                }
            }
            None => Some((key, bytes)),
        },
        None => guest.next_of_code(CONTEXT, context),
    }
}

/// Appends the records of all emulators: ids ascend, of an id indices, and of an index pairs are before a context.
fn write_emulators<K: Sink>(sink: &mut K, guest: &Guest) -> Result<(), WriteFailed>
    requires formed { IsFormed guest.now }
    ensures bytes { Puts (text_of_emulators (emulators_in_order guest.now.parts)) (K.written sink.old) (K.written sink.new) result }
    ensures cause { FaultHasCause (K.faults sink.old) (K.faults sink.new) result }
{
    let mut pairs = None;
    let mut context = None;
    while let Some((key, bytes)) = next_emulator(guest, pairs, context) {
        write_emulator(sink, key, bytes)?;
        if key.code == PAIRS {
            pairs = Some(key);
        } else {
            context = Some(key);
        }
    }
    Ok(())
}

/// Whether the guest has a part of this code.
#[tactic(auto, using(crate::proofs::FirstParts::some_of_code))]
fn has_code(guest: &Guest, code: u32) -> bool
    ensures { result ≡ list_any (λ e. e.0.code == code) (maps.entries guest.now.parts) }
{
    guest.next_of_code(code, None).is_some()
}

/// Whether the guest has a part of an emulator.
#[tactic(auto, using(crate::proofs::FirstParts::either_code))]
fn has_emulators(guest: &Guest) -> bool
    ensures { result ≡ some_emulators guest.now.parts }
{
    has_code(guest, PAIRS) || has_code(guest, CONTEXT)
}

/// Whether the least key of this code is that of an emulator of id 0.
#[tactic(auto, using(crate::proofs::FirstParts::zero_of_first, crate::proofs::FirstParts::zero_of_none))]
fn begins_with_0(guest: &Guest, code: u32) -> bool
    ensures { result ≡ list_any (λ e. (e.0.code == code) && (e.0.key1 == 0)) (maps.entries guest.now.parts) }
{
    match guest.next_of_code(code, None) {
        Some((key, _)) => key.key1 == 0,
        None => false,
    }
}

/// Whether the guest has an emulator of id 0.
#[tactic(auto, using(crate::proofs::FirstParts::either_zero))]
fn is_of_converter(guest: &Guest) -> bool
    ensures { result ≡ from_converter guest.now.parts }
{
    begins_with_0(guest, PAIRS) || begins_with_0(guest, CONTEXT)
}

/// Appends the records of a guest's emulators, and the record that ends a libxl stream.
#[tactic(auto, using(mig_bytes::proofs::Texts::puts_then, mig_bytes::proofs::Texts::puts_stop))]
fn write_behind<K: Sink>(sink: &mut K, guest: &Guest) -> Result<(), WriteFailed>
    requires formed { IsFormed guest.now }
    ensures bytes { Puts (text_of_emulators (emulators_in_order guest.now.parts) ++ spelled 0 []) (K.written sink.old) (K.written sink.new) result }
    ensures cause { FaultHasCause (K.faults sink.old) (K.faults sink.new) result }
{
    write_emulators(sink, guest)?;
    close_wrapper(sink)
}

/// Appends what is before the image of a guest with these parts. Where the guest has a part of an emulator, that is the
/// header of a libxl stream and the record that an image follows; else nothing. After `WriteFailed` some first bytes are
/// appended, but not all.
#[tactic(auto, using(mig_bytes::proofs::Texts::puts_same, crate::proofs::Around::opening_some, crate::proofs::Around::opening_none))]
pub fn write_opening<K: Sink>(sink: &mut K, guest: &Guest) -> Result<(), WriteFailed>
    ensures bytes { Puts (wrapper_opening guest.now.parts) (K.written sink.old) (K.written sink.new) result }
    ensures cause { FaultHasCause (K.faults sink.old) (K.faults sink.new) result }
{
    if has_emulators(guest) {
        open_wrapper(sink, is_of_converter(guest))
    } else {
        Ok(())
    }
}

/// Appends what is behind the image of a guest with these parts. Where it has a part of an emulator, that is the records of
/// its emulators and the record that ends a libxl stream; else nothing. After `WriteFailed` some first bytes are appended,
/// but not all.
#[tactic(auto, using(mig_bytes::proofs::Texts::puts_same, crate::proofs::Around::closing_some, crate::proofs::Around::closing_none))]
pub fn write_closing<K: Sink>(sink: &mut K, guest: &Guest) -> Result<(), WriteFailed>
    requires { IsFormed guest.now }
    ensures bytes { Puts (wrapper_closing guest.now.parts) (K.written sink.old) (K.written sink.new) result }
    ensures cause { FaultHasCause (K.faults sink.old) (K.faults sink.new) result }
{
    if has_emulators(guest) {
        write_behind(sink, guest)
    } else {
        Ok(())
    }
}

/// Appends the canonical stream of a whole guest in its blank form: its image, inside a libxl stream exactly where the
/// guest has a part of an emulator. After `WriteFailed` some first bytes of it are appended, but not all. Takes no memory.
#[tactic(auto, using(mig_bytes::proofs::Texts::puts_then, mig_bytes::proofs::Texts::puts_stop, mig_bytes::proofs::Texts::puts_same, crate::proofs::Around::canon_any_is))]
pub fn write_any<K: Sink>(sink: &mut K, guest: &Guest) -> Result<(), WriteFailed>
    requires { IsWhole guest.now }
    ensures bytes { Puts (canon_any guest.now) (K.written sink.old) (K.written sink.new) result }
    ensures cause { FaultHasCause (K.faults sink.old) (K.faults sink.new) result }
{
    write_opening(sink, guest)?;
    write_canon(sink, guest)?;
    write_closing(sink, guest)
}

/// Appends the canonical stream of a guest with frames that come from elsewhere, through a buffer of pages: all else is this
/// guest's, whose own frames don't count. After an error some first bytes of the stream are appended, but not all.
pub fn write_any_with<K: Sink, F: FrameSequence>(
    sink: &mut K,
    guest: &Guest,
    frames: &F,
    buffer: &mut [u8],
) -> Result<(), CopyFailed>
    requires formed { IsFormed guest.now }
    requires room { IsPageBuffer buffer.old }
    ensures bytes { (map : FrameMap) → F.frames_from frames.now 0 ≡ maps.entries map → F.told frames.now ≡ true → Copies (canon_any (with_frames guest.now map)) (K.written sink.old) (K.written sink.new) result }
    ensures cause { CopyHasCause (K.faults sink.old) (K.faults sink.new) (F.fails frames.now) result }
{
    let Ok(()) = write_opening(sink, guest) else {
        return Err(CopyFailed::Write);
    };
    match write_canon_with(sink, guest, frames, buffer) {
        Ok(()) => {}
        Err(failed) => return Err(failed),
    }
    match write_closing(sink, guest) {
        Ok(()) => Ok(()),
        Err(_) => Err(CopyFailed::Write),
    }
}
