ghost use Rattle.std.specs.Prelude.{◌≡◌, ◌+◌, ◌≤◌, ◌<◌, ◌^◌, ℕ, List, Option, ◌++◌, ◌*◌, length, take, drop, codes};
ghost use Rattle.mig_image.specs.Common.{flat_map, little_bytes, Puts, with_field, FaultHasCause, kind_number, pfn_limit, entries_from, number_of};
ghost use Rattle.std.specs.FinMap as maps;
ghost use Rattle.std.specs.Option.{option_copied};
ghost use Rattle.mig_image.specs.declared.version.GuestImageVersion.TheVariants.{Two};
ghost use Rattle.mig_image.specs.GuestImage.{frame_head_of, frame_text, is_left_out, part_head_of, part_text, guest_image, zero_flag};
ghost use Rattle.mig_image.specs.Behind.{HaveRoom, parts_text};

use crate::head::NAME_TWO;
use crate::zeros::is_all_zero;
use mig_bytes::{Sink, WriteFailed, pad_len, put_all, put_u32_le, put_u64_be, put_u64_le};
use mig_guest::{PartKey, Parts};
use mig_headers::Kind;
use mig_host::Host;
use mig_pagetypes::PageType;

/// The number of a kind of guest.
fn number_in_head(kind: Kind) -> u32
    ensures { result ≡ kind_number kind }
{
    match kind {
        Kind::Pv => 1,
        Kind::Hvm => 2,
    }
}

/// The head of an image of version 2 with these numbers.
pub(crate) fn head_bytes(kind: Kind, width: u64, frames: u64) -> [u8; 32]
    ensures { result ≡ codes "XGIMAGE2" ++ (little_bytes 4 (kind_number kind) ++ (little_bytes 4 0 ++ (little_bytes 8 width ++ little_bytes 8 frames))) }
{
    let mut head = [0; 32];
    put_u64_be(&mut head, 0, NAME_TWO);
    put_u32_le(&mut head, 8, number_in_head(kind));
    put_u64_le(&mut head, 16, width);
    put_u64_le(&mut head, 24, frames);
    head
}

/// Whether a page is left out.
fn is_left_out(page: Option<&[u8; 4096]>) -> bool
    ensures { result ≡ is_left_out Two (option_copied page.entry) }
{
    match page {
        Some(bytes) => is_all_zero(bytes),
        None => false,
    }
}

/// The word of a frame, whose page is left out or isn't.
fn word_of(pfn: u64, kind: PageType, left_out: bool) -> u64
    requires { pfn < pfn_limit }
    ensures { result ≡ number_of kind * 2 ^ 60 + (zero_flag left_out + pfn) }
{
    let flag = if left_out { 1 << 52 } else { 0 };
    u64::from(kind.nibble()) * (1 << 60) + (flag + pfn)
}

/// The head of a frame, whose page is left out or isn't.
#[tactic(auto, unfolding(crate::specs::GuestImage::frame_head_of))]
fn frame_head(pfn: u64, kind: PageType, machine: u64, left_out: bool) -> [u8; 16]
    requires { pfn < pfn_limit }
    ensures { (page : Option (List ℕ)) → left_out ≡ is_left_out Two page → result ≡ frame_head_of Two pfn (record { type = kind; machine = machine; page = page }) }
{
    let mut head = [0; 16];
    put_u64_le(&mut head, 0, word_of(pfn, kind, left_out));
    put_u64_le(&mut head, 8, machine);
    head
}

/// The head of a part with so many bytes.
#[tactic(auto, unfolding(crate::specs::GuestImage::part_head_of))]
fn part_head(key: PartKey, len: u32) -> [u8; 16]
    ensures { result ≡ part_head_of key len }
{
    let mut head = [0; 16];
    put_u32_le(&mut head, 0, key.code);
    put_u32_le(&mut head, 4, key.key1);
    put_u32_le(&mut head, 8, key.key2);
    put_u32_le(&mut head, 12, len);
    head
}

/// The most frames of one write.
pub(crate) const GATHERED: u64 = 32;

/// Room for the frames of one write, with their pages.
pub(crate) fn no_bytes() -> [u8; 131584] {
    [0; 131584]
}

/// Puts these bytes at a place of the buffer. All others stay.
fn put_bytes(buffer: &mut [u8], at: usize, bytes: &[u8])
    requires { at + length bytes.now ≤ length buffer.old }
    ensures { buffer.new ≡ with_field buffer.old at bytes.now }
{
    buffer[at..at + bytes.len()].copy_from_slice(bytes);
}

/// Puts a frame behind so many bytes; answers how many there are then.
pub(crate) fn put_frame(
    buffer: &mut [u8],
    used: usize,
    pfn: u64,
    kind: PageType,
    machine: u64,
    page: Option<&[u8; 4096]>,
) -> usize
    requires small { pfn < pfn_limit }
    requires space { used + 4112 ≤ length buffer.old }
    ensures bytes { take result buffer.new ≡ take used buffer.old ++ frame_text Two (pfn, record { type = kind; machine = machine; page = option_copied page.entry }) }
    ensures most { result ≤ used + 4112 }
    ensures room { length buffer.new ≡ length buffer.old }
{
    let left_out = is_left_out(page);
    put_bytes(buffer, used, &frame_head(pfn, kind, machine, left_out));
    match page {
        Some(bytes) if !left_out => {
            put_bytes(buffer, used + 16, bytes);
            used + 4112
        }
        _ => used + 16,
    }
}

/// Puts so many frames, from this number on, one behind the other; answers the number behind them, and how many bytes
/// they take.
fn fill_frames(buffer: &mut [u8], host: &Host, start: u64, count: u64) -> (u64, usize)
    requires space { 4112 * count ≤ length buffer.old }
    requires most { count ≤ 32 }
    requires has { count ≤ length (entries_from start (maps.entries host.now.host.frames)) }
    ensures bytes { take result.1 buffer.new ≡ flat_map (frame_text Two) (take count (entries_from start (maps.entries host.now.host.frames))) }
    ensures next { entries_from result.0 (maps.entries host.now.host.frames) ≡ drop count (entries_from start (maps.entries host.now.host.frames)) }
    ensures few { result.1 ≤ 4112 * count }
    ensures room { length buffer.new ≡ length buffer.old }
{
    let mut used = 0;
    let mut from = start;
    for i in 0..count {
        match host.next_entry(from) {
            Some((pfn, kind, machine, page)) => {
                used = put_frame(buffer, used, pfn, kind, machine, page);
                from = pfn + 1;
            }
            None => return (from, used),
        }
    }
    (from, used)
}

/// Appends all frames, some at a time.
fn write_frames<K: Sink>(sink: &mut K, host: &Host) -> Result<(), WriteFailed>
    ensures bytes { Puts (flat_map (frame_text Two) (maps.entries host.now.host.frames)) (K.written sink.old) (K.written sink.new) result }
    ensures cause { FaultHasCause (K.faults sink.old) (K.faults sink.new) result }
{
    let mut buffer = no_bytes();
    let total = host.frames();
    let mut from = 0;
    let mut done = 0;
    while done < total {
        let some = (total - done).min(GATHERED);
        let (next, used) = fill_frames(&mut buffer, host, from, some);
        put_all(sink, &buffer[..used])?;
        from = next;
        done += some;
    }
    Ok(())
}

/// The number of parts.
fn count_parts(parts: &Parts) -> u64
    requires { length (maps.entries parts.now) < 2 ^ 64 }
    ensures { result ≡ length (maps.entries parts.now) }
{
    let mut count = 0;
    let mut after = None;
    while let Some((key, _)) = parts.next_behind(after) {
        count += 1;
        after = Some(key);
    }
    count
}

/// Appends the number of parts.
fn write_count<K: Sink>(sink: &mut K, count: u64) -> Result<(), WriteFailed>
    ensures bytes { Puts (little_bytes 8 count) (K.written sink.old) (K.written sink.new) result }
    ensures cause { FaultHasCause (K.faults sink.old) (K.faults sink.new) result }
{
    put_all(sink, &count.to_le_bytes())
}

/// Appends a part: its key and length, its bytes, and zeros.
fn write_part<K: Sink>(sink: &mut K, key: PartKey, bytes: &[u8]) -> Result<(), WriteFailed>
    requires { length bytes.now < 2 ^ 32 }
    ensures bytes { Puts (part_text (key, bytes.now)) (K.written sink.old) (K.written sink.new) result }
    ensures cause { FaultHasCause (K.faults sink.old) (K.faults sink.new) result }
{
    let len = bytes.len() as u32;
    put_all(sink, &part_head(key, len))?;
    put_all(sink, bytes)?;
    put_all(sink, &[0; 8][..pad_len(len)])
}

/// Appends so many parts, which are all.
#[tactic(auto, using(crate::proofs::Writers::part_short, crate::proofs::Writers::not_ended))]
fn write_parts<K: Sink>(sink: &mut K, parts: &Parts, count: u64) -> Result<(), WriteFailed>
    requires room { HaveRoom parts.now }
    requires count { count ≡ length (maps.entries parts.now) }
    ensures bytes { Puts (flat_map part_text (maps.entries parts.now)) (K.written sink.old) (K.written sink.new) result }
    ensures cause { FaultHasCause (K.faults sink.old) (K.faults sink.new) result }
{
    let mut after = None;
    for _ in 0..count {
        match parts.next_behind(after) {
            Some((key, bytes)) => {
                write_part(sink, key, bytes)?;
                after = Some(key);
            }
            None => return Ok(()),
        }
    }
    Ok(())
}

/// Appends what stands behind the frames: the number of parts, and the parts.
pub(crate) fn write_behind<K: Sink>(sink: &mut K, parts: &Parts) -> Result<(), WriteFailed>
    requires { HaveRoom parts.now }
    ensures bytes { Puts (parts_text parts.now) (K.written sink.old) (K.written sink.new) result }
    ensures cause { FaultHasCause (K.faults sink.old) (K.faults sink.new) result }
{
    let count = count_parts(parts);
    write_count(sink, count)?;
    write_parts(sink, parts, count)
}

/// Appends the image of the host, of version 2. It takes no memory. After a failed write a part of the image is appended.
pub fn write_host<K: Sink>(sink: &mut K, host: &Host) -> Result<(), WriteFailed>
    ensures bytes { Puts (guest_image Two host.now.host) (K.written sink.old) (K.written sink.new) result }
    ensures cause { FaultHasCause (K.faults sink.old) (K.faults sink.new) result }
{
    put_all(sink, &head_bytes(host.kind(), host.width(), host.frames()))?;
    write_frames(sink, host)?;
    write_behind(sink, host.parts())
}
