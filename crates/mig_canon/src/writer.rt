ghost use Rattle.std.specs.Prelude.{◌≡◌, true};
ghost use Rattle.std.specs.FinMap as maps;
ghost use Rattle.mig_canon.specs.Common.{Puts, FaultHasCause, IsFormed, IsWhole, text_of, FrameMap, IsPageBuffer, Copies, CopyHasCause};
ghost use Rattle.std.specs.List.{flat_map};
ghost use Rattle.mig_canon.specs.Canon.{headers, records_of, static_bodies, last_records, canon};
ghost use Rattle.mig_canon.specs.Elsewhere.{with_frames, before_the_frames, behind_the_frames};

use crate::frames::write_frames;
use crate::parts::write_parts;
use crate::pv::{write_info, write_p2m_frames, write_vcpus};
use mig_bytes::{Sink, WriteFailed, put_all};
use mig_guest::{Guest, PartCode};
use mig_headers::{DomainHeader, ImageHeader, Kind, STATIC_DATA_END};
use mig_records::write_record;
use mig_records_pages::{CopyFailed, FrameSequence, page_buffer, write_end};

/// Appends the headers of a canonical image of a guest of this kind. After `WriteFailed` some first bytes are appended, but
/// not all.
#[tactic(auto, using(mig_bytes::proofs::Texts::puts_then))]
pub fn write_headers<K: Sink>(sink: &mut K, kind: Kind) -> Result<(), WriteFailed>
    ensures bytes { Puts (headers kind) (K.written sink.old) (K.written sink.new) result }
    ensures cause { FaultHasCause (K.faults sink.old) (K.faults sink.new) result }
{
    let domain = DomainHeader {
        kind,
        major: 0,
        minor: 1,
    };
    put_all(sink, &ImageHeader { version: 3 }.encode())?;
    put_all(sink, &domain.encode())
}

/// Appends the headers of the guest's canonical image.
fn write_opening<K: Sink>(sink: &mut K, guest: &Guest) -> Result<(), WriteFailed>
    ensures bytes { Puts (headers guest.now.kind) (K.written sink.old) (K.written sink.new) result }
    ensures cause { FaultHasCause (K.faults sink.old) (K.faults sink.new) result }
{
    write_headers(sink, guest.kind())
}

/// Appends the records of the parts of these codes, one code after another. After `WriteFailed` some first bytes are
/// appended, but not all.
pub fn write_codes<K: Sink>(
    sink: &mut K,
    guest: &Guest,
    codes: &[PartCode],
) -> Result<(), WriteFailed>
    requires { IsFormed guest.now }
    ensures bytes { Puts (flat_map (λ code. text_of (records_of code guest.now)) codes.now) (K.written sink.old) (K.written sink.new) result }
    ensures cause { FaultHasCause (K.faults sink.old) (K.faults sink.new) result }
{
    for code in codes {
        write_parts(sink, guest, *code)?;
    }
    Ok(())
}

/// Appends the policies, where they have entries, and STATIC_DATA_END. After `WriteFailed` some first bytes are appended,
/// but not all.
#[tactic(auto, using(mig_bytes::proofs::Texts::puts_then, mig_bytes::proofs::Texts::puts_stop, mig_bytes::proofs::Texts::puts_same, crate::proofs::Spelling::codes_text))]
pub fn write_static<K: Sink>(sink: &mut K, guest: &Guest) -> Result<(), WriteFailed>
    requires { IsFormed guest.now }
    ensures bytes { Puts (text_of (static_bodies guest.now)) (K.written sink.old) (K.written sink.new) result }
    ensures cause { FaultHasCause (K.faults sink.old) (K.faults sink.new) result }
{
    write_codes(sink, guest, &[PartCode::CpuidLeaf, PartCode::Msr])?;
    write_record(sink, STATIC_DATA_END, &[])
}

/// Appends the records behind the frames, up to END.
#[tactic(auto, using(mig_bytes::proofs::Texts::puts_then, mig_bytes::proofs::Texts::puts_stop, mig_bytes::proofs::Texts::puts_same, crate::proofs::Spelling::codes_alone, crate::proofs::Spelling::pv_last_text))]
fn write_last<K: Sink>(sink: &mut K, guest: &Guest) -> Result<(), WriteFailed>
    requires { IsFormed guest.now }
    ensures bytes { Puts (text_of (last_records guest.now.kind guest.now)) (K.written sink.old) (K.written sink.new) result }
    ensures cause { FaultHasCause (K.faults sink.old) (K.faults sink.new) result }
{
    match guest.kind() {
        Kind::Pv => {
            write_codes(sink, guest, &[PartCode::Tsc, PartCode::SharedInfo])?;
            write_vcpus(sink, guest)
        }
        Kind::Hvm => write_codes(
            sink,
            guest,
            &[PartCode::Tsc, PartCode::HvmParam, PartCode::HvmContext],
        ),
    }
}

/// Appends what is before the frames.
#[tactic(auto, using(mig_bytes::proofs::Texts::puts_then, mig_bytes::proofs::Texts::puts_stop, mig_bytes::proofs::Texts::puts_same))]
fn write_before<K: Sink>(sink: &mut K, guest: &Guest) -> Result<(), WriteFailed>
    requires { IsFormed guest.now }
    ensures bytes { Puts (before_the_frames guest.now) (K.written sink.old) (K.written sink.new) result }
    ensures cause { FaultHasCause (K.faults sink.old) (K.faults sink.new) result }
{
    write_opening(sink, guest)?;
    write_info(sink, guest)?;
    write_static(sink, guest)?;
    write_p2m_frames(sink, guest)
}

/// Appends what is behind the frames.
#[tactic(auto, using(mig_bytes::proofs::Texts::puts_then, mig_bytes::proofs::Texts::puts_stop, mig_bytes::proofs::Texts::puts_same))]
fn write_behind<K: Sink>(sink: &mut K, guest: &Guest) -> Result<(), WriteFailed>
    requires { IsFormed guest.now }
    ensures bytes { Puts (behind_the_frames guest.now) (K.written sink.old) (K.written sink.new) result }
    ensures cause { FaultHasCause (K.faults sink.old) (K.faults sink.new) result }
{
    write_last(sink, guest)?;
    write_end(sink)
}

/// Appends the canonical image of a guest with frames that come from elsewhere, through a buffer of pages: all else is this
/// guest's, whose own frames don't count. After an error some first bytes of the image are appended, but not all.
pub fn write_canon_with<K: Sink, F: FrameSequence>(
    sink: &mut K,
    guest: &Guest,
    frames: &F,
    buffer: &mut [u8],
) -> Result<(), CopyFailed>
    requires formed { IsFormed guest.now }
    requires room { IsPageBuffer buffer.old }
    ensures bytes { (map : FrameMap) → F.frames_from frames.now 0 ≡ maps.entries map → F.told frames.now ≡ true → Copies (canon (with_frames guest.now map)) (K.written sink.old) (K.written sink.new) result }
    ensures cause { CopyHasCause (K.faults sink.old) (K.faults sink.new) (F.fails frames.now) result }
{
    let Ok(()) = write_before(sink, guest) else {
        return Err(CopyFailed::Write);
    };
    match write_frames(sink, frames, buffer) {
        Ok(()) => {}
        Err(failed) => return Err(failed),
    }
    match write_behind(sink, guest) {
        Ok(()) => Ok(()),
        Err(_) => Err(CopyFailed::Write),
    }
}

/// Appends the canonical image of the guest, which has nothing of emulators. After `WriteFailed` some first bytes of
/// it are appended, but not all.
pub fn write_canon<K: Sink>(sink: &mut K, guest: &Guest) -> Result<(), WriteFailed>
    requires { IsWhole guest.now }
    ensures bytes { Puts (canon guest.now) (K.written sink.old) (K.written sink.new) result }
    ensures cause { FaultHasCause (K.faults sink.old) (K.faults sink.new) result }
{
    let mut buffer = page_buffer();
    match write_canon_with(sink, guest, guest, &mut buffer) {
        Ok(()) => Ok(()),
        Err(_) => Err(WriteFailed),
    }
}
