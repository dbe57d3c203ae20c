ghost use Rattle.std.specs.Prelude.{◌≡◌, ◌*◌, ◌+◌, ◌<◌, ◌≤◌, ◌++◌, true, All, IfOk, OnErr, length, replicate, take, drop};
ghost use Rattle.byteorder.specs.Endian.{little_bytes};
ghost use Rattle.mig_records.specs.Records.{head_of};
ghost use Rattle.mig_records_pages.specs.Common.{Appends, AppendsPart, Puts, FaultHasCause, spelled};
ghost use Rattle.mig_records_pages.specs.PageData.{most_entries, words_of, pages_of, body_of};
ghost use Rattle.mig_records_pages.specs.Copied.{IsPageBuffer, Copies, CopyHasCause};
ghost use Rattle.mig_records_pages.specs.Told.{told_held, telling_frames, HasPfn};
ghost use Rattle.mig_records_pages.specs.Batches.{JoinsBatches};

use crate::HeldFrame;
use crate::copy_failed::CopyFailed;
use crate::gathered::{no_words, page_buffer};
use crate::sequence::{FrameSequence, HeldFrames};
use mig_bytes::{Failed, Sink, WriteFailed, put_all, put_u64_le};
use mig_headers::PAGE_DATA;
use mig_pagetypes::encode_word;
use mig_records::{write_count, write_head};

/// The most entries of a PAGE_DATA record that a writer makes.
pub const MOST_ENTRIES: usize = 1024;

/// As many pages that lie one behind another in memory are written from there; fewer are gathered.
const GATHERED: u32 = 4;

/// How many bytes a page has.
const PAGE: usize = 4096;

/// Writes the words of so many frames, from this place on; answers how many pages come with them.
fn fill_words<F: FrameSequence>(words: &mut [u8], frames: &F, start: u64, count: u32) -> u32
    requires room { 8 * count ≤ length words.old }
    requires most { count ≤ most_entries }
    requires has { count ≤ length (F.frames_from frames.now start) }
    ensures words { take (8 * count) words.new ≡ words_of (take count (F.frames_from frames.now start)) }
    ensures pages { length (pages_of (take count (F.frames_from frames.now start))) ≡ 4096 * result }
    ensures few { result ≤ count }
{
    let mut pages = 0;
    let mut place = start;
    for i in 0..count {
        match frames.frame_from(place) {
            Some((word, some, behind)) => {
                put_u64_le(words, 8 * i as usize, encode_word(word));
                pages += some;
                place = behind;
            }
            None => return pages,
        }
    }
    pages
}

/// Puts the pages of so many frames, from this place on, one behind the other; answers the place behind the frames, and
/// how many pages come with them.
fn gather_pages<F: FrameSequence>(
    buffer: &mut [u8],
    frames: &F,
    start: u64,
    count: u32,
) -> Result<(u64, u32), Failed>
    requires room { 4096 * count ≤ length buffer.old }
    requires most { count ≤ most_entries }
    requires has { count ≤ length (F.frames_from frames.now start) }
    ensures bytes { IfOk result (λ r. F.told frames.now ≡ true → take (4096 * r.1) buffer.new ≡ pages_of (take count (F.frames_from frames.now start))) }
    ensures next { IfOk result (λ r. F.frames_from frames.now r.0 ≡ drop count (F.frames_from frames.now start)) }
    ensures few { IfOk result (λ r. r.1 ≤ count) }
    ensures wanted { OnErr result (0 < length (pages_of (take count (F.frames_from frames.now start)))) }
    ensures fails { OnErr result (F.fails frames.now ≡ true) }
    ensures room { length buffer.new ≡ length buffer.old }
{
    let mut pages = 0;
    let mut place = start;
    let mut done = 0;
    while done < count {
        let at = PAGE * pages as usize;
        match frames.pages_from(&mut buffer[at..], place, count - done) {
            Ok((behind, some, more)) => {
                place = behind;
                done += some;
                pages += more;
            }
            Err(failed) => return Err(failed),
        }
    }
    Ok((place, pages))
}

/// Appends the pages of some frames, at most so many, from this place on: those that lie one behind another, or as many as
/// there is room for in the buffer. Answers the place behind the frames, and how many they are.
fn write_some<K: Sink, F: FrameSequence>(
    sink: &mut K,
    frames: &F,
    buffer: &mut [u8],
    place: u64,
    most: u32,
) -> Result<(u64, u32), CopyFailed>
    requires room { IsPageBuffer buffer.old }
    requires some { 0 < most }
    requires has { most ≤ length (F.frames_from frames.now place) }
    ensures ok { IfOk result (λ r. F.told frames.now ≡ true → Appends (K.written sink.old) (K.written sink.new) (pages_of (take r.1 (F.frames_from frames.now place)))) }
    ensures err { OnErr result (F.told frames.now ≡ true → AppendsPart (K.written sink.old) (K.written sink.new) (pages_of (take most (F.frames_from frames.now place)))) }
    ensures behind { IfOk result (λ r. F.frames_from frames.now r.0 ≡ drop r.1 (F.frames_from frames.now place)) }
    ensures few { IfOk result (λ r. (0 < r.1) × (r.1 ≤ most)) }
    ensures room { length buffer.new ≡ length buffer.old }
    ensures cause { CopyHasCause (K.faults sink.old) (K.faults sink.new) (F.fails frames.now) result }
{
    let (behind, count, run) = frames.run_from(place, most);
    if count >= GATHERED {
        return match put_all(sink, run) {
            Ok(()) => Ok((behind, count)),
            Err(_) => Err(CopyFailed::Write),
        };
    }
    let some = most.min((buffer.len() / PAGE) as u32);
    let Ok((next, pages)) = gather_pages(buffer, frames, place, some) else {
        return Err(CopyFailed::Read);
    };
    match put_all(sink, &buffer[..PAGE * pages as usize]) {
        Ok(()) => Ok((next, some)),
        Err(_) => Err(CopyFailed::Write),
    }
}

/// Appends the pages of so many frames, from this place on; answers the place behind the frames.
fn write_pages<K: Sink, F: FrameSequence>(
    sink: &mut K,
    frames: &F,
    buffer: &mut [u8],
    start: u64,
    count: u32,
) -> Result<u64, CopyFailed>
    requires has { count ≤ length (F.frames_from frames.now start) }
    requires room { IsPageBuffer buffer.old }
    ensures bytes { F.told frames.now ≡ true → Copies (pages_of (take count (F.frames_from frames.now start))) (K.written sink.old) (K.written sink.new) result }
    ensures next { IfOk result (λ next. F.frames_from frames.now next ≡ drop count (F.frames_from frames.now start)) }
    ensures room { length buffer.new ≡ length buffer.old }
    ensures cause { CopyHasCause (K.faults sink.old) (K.faults sink.new) (F.fails frames.now) result }
{
    let mut place = start;
    let mut done = 0;
    while done < count {
        match write_some(sink, frames, buffer, place, count - done) {
            Ok((behind, some)) => {
                place = behind;
                done += some;
            }
            Err(failed) => return Err(failed),
        }
    }
    Ok(place)
}

/// Appends all but the pages of a record of so many frames, with these words.
#[tactic(auto, using(mig_bytes::proofs::Texts::puts_then, mig_bytes::proofs::Texts::puts_stop))]
fn write_front<K: Sink>(
    sink: &mut K,
    words: &[u8],
    count: u32,
    pages: u32,
) -> Result<(), WriteFailed>
    requires most { count ≤ most_entries }
    requires few { pages ≤ count }
    ensures bytes { Puts (head_of 1 (8 + 8 * count + 4096 * pages) ++ ((little_bytes 4 count ++ replicate 4 0) ++ words.now)) (K.written sink.old) (K.written sink.new) result }
    ensures cause { FaultHasCause (K.faults sink.old) (K.faults sink.new) result }
{
    write_head(sink, PAGE_DATA, 8 + 8 * count + 4096 * pages)?;
    write_count(sink, count)?;
    put_all(sink, words)
}

/// Appends the PAGE_DATA record of so many frames, from this place on, through a buffer of pages; answers the place behind
/// them. After an error some first bytes of it are appended, but not all.
pub fn write_page_data<K: Sink, F: FrameSequence>(
    sink: &mut K,
    frames: &F,
    buffer: &mut [u8],
    start: u64,
    count: u32,
) -> Result<u64, CopyFailed>
    requires most { count ≤ most_entries }
    requires has { count ≤ length (F.frames_from frames.now start) }
    requires room { IsPageBuffer buffer.old }
    ensures bytes { F.told frames.now ≡ true → Copies (spelled 1 (body_of (take count (F.frames_from frames.now start)))) (K.written sink.old) (K.written sink.new) result }
    ensures next { IfOk result (λ next. F.frames_from frames.now next ≡ drop count (F.frames_from frames.now start)) }
    ensures cause { CopyHasCause (K.faults sink.old) (K.faults sink.new) (F.fails frames.now) result }
    ensures short { length (body_of (take count (F.frames_from frames.now start))) ≤ 8 + 4104 * count }
    ensures room { length buffer.new ≡ length buffer.old }
{
    let mut words = no_words();
    let pages = fill_words(&mut words, frames, start, count);
    let Ok(()) = write_front(sink, &words[..8 * count as usize], count, pages) else {
        return Err(CopyFailed::Write);
    };
    write_pages(sink, frames, buffer, start, count)
}

/// Appends the PAGE_DATA record of a batch: its entries in their order. After `WriteFailed` some first bytes of it are
/// appended, but not all.
pub fn write_batch<K: Sink>(sink: &mut K, entries: &[HeldFrame]) -> Result<(), WriteFailed>
    requires some { 0 < length entries.now }
    requires most { length entries.now ≤ most_entries }
    requires pfns { All HasPfn entries.now }
    ensures bytes { Puts (spelled 1 (body_of (telling_frames (told_held entries.now)))) (K.written sink.old) (K.written sink.new) result }
    ensures joins { JoinsBatches (told_held entries.now) (K.written sink.old) (K.written sink.new) result }
    ensures cause { FaultHasCause (K.faults sink.old) (K.faults sink.new) result }
{
    let frames = HeldFrames { entries };
    let mut buffer = page_buffer();
    match write_page_data(sink, &frames, &mut buffer, 0, entries.len() as u32) {
        Ok(_) => Ok(()),
        Err(_) => Err(WriteFailed),
    }
}
