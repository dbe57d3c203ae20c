ghost use Rattle.std.specs.Prelude.{◌≡◌, ◌+◌, ◌≤◌, ◌<◌, ◌*◌, ◌^◌, List, ℕ, Option, Some, None, length, take, drop, true};
ghost use Rattle.std.specs.FinMap as maps;
ghost use Rattle.std.specs.Option.{option_copied};
ghost use Rattle.mig_guest.specs.Formed.{IsFormed};
ghost use Rattle.mig_guest.specs.Frames.{FrameMap};
ghost use Rattle.mig_guest.specs.Guests.{GuestOf};
ghost use Rattle.mig_headers.specs.declared.kind.Kind.TheVariants.{Hvm, Pv};
ghost use Rattle.mig_host.specs.Hosted.{CanBeHosted, with_machines_from, hosted, least_width, mfn_in};
ghost use Rattle.mig_host_view.specs.Localised.{localised};
ghost use Rattle.mig_image.specs.Behind.{HaveRoom, counted_image};
ghost use Rattle.mig_image.specs.Common.{flat_map, top_limit};
ghost use Rattle.mig_image.specs.GuestImage.{frame_text, guest_image};
ghost use Rattle.mig_image.specs.PagesHeld.{AreFrames, HoldsPages};
ghost use Rattle.mig_image.specs.declared.version.GuestImageVersion.TheVariants.{Two};
ghost use Rattle.mig_records_pages.specs.Copied.{Copies, CopyHasCause};

use crate::write::{GATHERED, head_bytes, no_bytes, put_frame, write_behind};
use mig_bytes::{Sink, put_all};
use mig_guest::{Guest, Parts};
use mig_headers::Kind;
use mig_records_pages::{CopyFailed, FrameSequence, page_buffer};

/// One more than the greatest of the frame numbers; 0 where there is no frame.
fn width_for<F: FrameSequence>(frames: &F) -> u64
    ensures { result ≡ least_width (F.frames_from frames.now 0) }
{
    let mut width = 0;
    let mut place = 0;
    for i in 0..frames.frame_count() {
        match frames.frame_from(place) {
            Some((word, _, behind)) => {
                width = width.max(word.pfn + 1);
                place = behind;
            }
            None => return width,
        }
    }
    width
}

/// The page that stands at this place of the buffer, where one came with a frame.
fn page_at(pages: &[u8], at: usize, some: u32) -> Option<&[u8; 4096]>
    requires { at + 4096 ≤ length pages.now }
    ensures none { some ≡ 0 → option_copied result ≡ None }
    ensures page { 0 < some → option_copied result ≡ Some (take 4096 (drop at pages.now)) }
{
    if some == 0 {
        return None;
    }
    Some(pages[at..at + 4096].as_array::<4096>().unwrap())
}

/// Puts so many frames, from this place on, one behind the other, with their pages out of a buffer. The first gets this
/// machine frame, and each later one the next. Answers how many bytes they take.
fn fill_hosted<F: FrameSequence>(
    buffer: &mut [u8],
    pages: &[u8],
    frames: &F,
    start: u64,
    count: u32,
    machine: u64,
) -> usize
    requires space { 4112 * count ≤ length buffer.old }
    requires room { 4096 * count ≤ length pages.now }
    requires most { count ≤ 32 }
    requires has { count ≤ length (F.frames_from frames.now start) }
    ensures bytes { HoldsPages pages.now (take count (F.frames_from frames.now start)) → machine + count ≤ 2 ^ 64
        → take result buffer.new ≡ flat_map (frame_text Two) (take count (with_machines_from machine (F.frames_from frames.now start))) }
    ensures few { result ≤ 4112 * count }
    ensures room { length buffer.new ≡ length buffer.old }
{
    let mut used = 0;
    let mut taken = 0;
    let mut place = start;
    for i in 0..count {
        match frames.frame_from(place) {
            Some((word, some, behind)) => {
                let page = page_at(pages, taken, some);
                let mfn = machine.wrapping_add(u64::from(i));
                used = put_frame(buffer, used, word.pfn, word.kind, mfn, page);
                taken += 4096 * some as usize;
                place = behind;
            }
            None => return used,
        }
    }
    used
}

/// Appends all frames, some at a time. The first has this machine frame, and each later one the next.
fn write_frames<K: Sink, F: FrameSequence>(
    sink: &mut K,
    frames: &F,
    base: u64,
) -> Result<(), CopyFailed>
    ensures bytes { F.told frames.now ≡ true → AreFrames (F.frames_from frames.now 0) → base + length (F.frames_from frames.now 0) ≤ 2 ^ 64
        → Copies (flat_map (frame_text Two) (with_machines_from base (F.frames_from frames.now 0))) (K.written sink.old) (K.written sink.new) result }
    ensures cause { CopyHasCause (K.faults sink.old) (K.faults sink.new) (F.fails frames.now) result }
{
    let mut pages = page_buffer();
    let mut buffer = no_bytes();
    let total = frames.frame_count();
    let mut place = 0;
    let mut done = 0;
    while done < total {
        let most = (total - done).min(GATHERED);
        let Ok((behind, some, _)) = frames.pages_from(&mut pages, place, most as u32) else {
            return Err(CopyFailed::Read);
        };
        let machine = base.wrapping_add(done);
        let used = fill_hosted(&mut buffer, &pages, frames, place, some, machine);
        let Ok(()) = put_all(sink, &buffer[..used]) else {
            return Err(CopyFailed::Write);
        };
        place = behind;
        done += u64::from(some);
    }
    Ok(())
}

/// Appends the image, of version 2, of a host of this kind and width with these parts, whose frames come from elsewhere. The
/// first has this machine frame, and each later one the next.
fn write_counted<K: Sink, F: FrameSequence>(
    sink: &mut K,
    kind: Kind,
    width: u64,
    frames: &F,
    base: u64,
    parts: &Parts,
) -> Result<(), CopyFailed>
    requires room { HaveRoom parts.now }
    ensures bytes { F.told frames.now ≡ true → AreFrames (F.frames_from frames.now 0) → base + length (F.frames_from frames.now 0) ≤ 2 ^ 64
        → Copies (counted_image kind width base (F.frames_from frames.now 0) parts.now) (K.written sink.old) (K.written sink.new) result }
    ensures cause { CopyHasCause (K.faults sink.old) (K.faults sink.new) (F.fails frames.now) result }
{
    let head = head_bytes(kind, width, frames.frame_count());
    let Ok(()) = put_all(sink, &head) else {
        return Err(CopyFailed::Write);
    };
    match write_frames(sink, frames, base) {
        Ok(()) => {}
        Err(failed) => return Err(failed),
    }
    match write_behind(sink, parts) {
        Ok(()) => Ok(()),
        Err(_) => Err(CopyFailed::Write),
    }
}

/// Appends the image, of version 2, of the host that an HVM guest becomes whose frames come from elsewhere: it is the image
/// that `write_host` appends of what `host_of` makes of the guest with these frames. All else is this guest's, whose own
/// frames don't count. It takes no memory. After an error some first bytes of the image are appended, but not all.
pub fn write_hosted<K: Sink, F: FrameSequence>(
    sink: &mut K,
    guest: &Guest,
    frames: &F,
    base: u64,
) -> Result<(), CopyFailed>
    requires kind { guest.now.kind ≡ Hvm }
    requires formed { IsFormed guest.now }
    ensures bytes { (map : FrameMap) → F.frames_from frames.now 0 ≡ maps.entries map → F.told frames.now ≡ true → CanBeHosted base (record guest.now { frames = map })
        → Copies (guest_image Two (hosted (record guest.now { frames = map }) base)) (K.written sink.old) (K.written sink.new) result }
    ensures cause { CopyHasCause (K.faults sink.old) (K.faults sink.new) (F.fails frames.now) result }
{
    let width = width_for(frames);
    write_counted(sink, Kind::Hvm, width, frames, base, guest.parts())
}

/// Appends the image, of version 2, of the host that a PV guest becomes, where this guest is that one as it stands in the
/// machine, but that its frames come from elsewhere: they hold machine frames already. It takes no memory. After an error
/// some first bytes of the image are appended, but not all.
pub fn write_localised<K: Sink, F: FrameSequence>(
    sink: &mut K,
    guest: &Guest,
    frames: &F,
    base: u64,
) -> Result<(), CopyFailed>
    requires top { guest.now.top < top_limit }
    requires room { HaveRoom guest.now.parts }
    ensures bytes { (meant : GuestOf) (map : FrameMap) → F.frames_from frames.now 0 ≡ maps.entries map → F.told frames.now ≡ true → meant.kind ≡ Pv → CanBeHosted base meant
        → record guest.now { frames = map } ≡ localised (mfn_in meant.frames base) meant
        → Copies (guest_image Two (hosted meant base)) (K.written sink.old) (K.written sink.new) result }
    ensures cause { CopyHasCause (K.faults sink.old) (K.faults sink.new) (F.fails frames.now) result }
{
    let width = guest.top() + 1;
    write_counted(sink, Kind::Pv, width, frames, base, guest.parts())
}
