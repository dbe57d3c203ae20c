ghost use Rattle.std.specs.Prelude.{◌≡◌, ◌+◌, ◌≤◌, ◌^◌, length};
ghost use Rattle.mig_canon.specs.Common.{Puts, FaultHasCause, shape_of, of_vcpu, IsFormed, spelled, text_of};
ghost use Rattle.mig_canon.specs.Canon.{info_records, p2m_body, p2m_records, vcpu_record, records_of_vcpu, all_vcpus};

use crate::parts::write_piece;
use mig_bytes::{Sink, WriteFailed, put_all};
use mig_guest::{Guest, P2M_KEY, PartCode, PartKey};
use mig_headers::{Kind, VCPU_LIMIT, X86_PV_INFO};
use mig_records::{shape_of, write_head, write_numbers, write_padding, write_record};

/// Appends the X86_PV_INFO of a PV guest; nothing for HVM. After `WriteFailed` some first bytes are appended, but not all.
#[tactic(auto, using(mig_bytes::proofs::Texts::puts_same, mig_records::proofs::RecordTexts::text_one))]
pub fn write_info<K: Sink>(sink: &mut K, guest: &Guest) -> Result<(), WriteFailed>
    ensures bytes { Puts (text_of (info_records guest.now.kind)) (K.written sink.old) (K.written sink.new) result }
    ensures cause { FaultHasCause (K.faults sink.old) (K.faults sink.new) result }
{
    match guest.kind() {
        Kind::Pv => write_record(sink, X86_PV_INFO, &[8, 4, 0, 0, 0, 0, 0, 0]),
        Kind::Hvm => Ok(()),
    }
}

/// Appends the record of the P2M frames of all frame numbers up to `top`.
#[tactic(auto, using(mig_bytes::proofs::Texts::puts_then, mig_bytes::proofs::Texts::puts_stop, mig_bytes::proofs::Texts::puts_same, crate::proofs::PvRecords::p2m_text))]
fn write_p2m_list<K: Sink>(sink: &mut K, top: u32, frames: &[u8]) -> Result<(), WriteFailed>
    requires { length frames.now ≤ 2 ^ 26 }
    ensures bytes { Puts (spelled 3 (p2m_body top frames.now)) (K.written sink.old) (K.written sink.new) result }
    ensures cause { FaultHasCause (K.faults sink.old) (K.faults sink.new) result }
{
    let len = (8 + frames.len()) as u32;
    write_head(sink, PartCode::P2mFrames.number(), len)?;
    write_numbers(sink, 4, 0, 4, top)?;
    put_all(sink, frames)?;
    write_padding(sink, len)
}

/// Appends the record of a PV guest's P2M frames; nothing for HVM. After `WriteFailed` some first bytes are appended, but
/// not all.
#[tactic(auto, using(mig_bytes::proofs::Texts::puts_same, mig_records::proofs::RecordTexts::text_one, crate::proofs::PvRecords::top_small, crate::proofs::PvRecords::p2m_short))]
pub fn write_p2m_frames<K: Sink>(sink: &mut K, guest: &Guest) -> Result<(), WriteFailed>
    requires { IsFormed guest.now }
    ensures bytes { Puts (text_of (p2m_records guest.now.kind guest.now)) (K.written sink.old) (K.written sink.new) result }
    ensures cause { FaultHasCause (K.faults sink.old) (K.faults sink.new) result }
{
    match guest.kind() {
        Kind::Pv => match guest.part(P2M_KEY) {
            Some(frames) => write_p2m_list(sink, guest.top() as u32, frames),
            None => Ok(()),
        },
        Kind::Hvm => Ok(()),
    }
}

/// Appends the record of this part of a vCPU, where the guest has it.
#[tactic(auto, using(mig_bytes::proofs::Texts::puts_same, crate::proofs::PvRecords::part_text, crate::proofs::PvRecords::short_part))]
fn write_vcpu_part<K: Sink>(
    sink: &mut K,
    guest: &Guest,
    id: u32,
    code: PartCode,
) -> Result<(), WriteFailed>
    requires formed { IsFormed guest.now }
    requires shape { shape_of code ≡ of_vcpu }
    ensures bytes { Puts (text_of (vcpu_record guest.now id code)) (K.written sink.old) (K.written sink.new) result }
    ensures cause { FaultHasCause (K.faults sink.old) (K.faults sink.new) result }
{
    let key = PartKey {
        code: code.number(),
        key1: id,
        key2: 0,
    };
    match guest.part(key) {
        Some(value) => write_piece(sink, code, shape_of(code), key, value),
        None => Ok(()),
    }
}

/// Appends the records of the parts of a vCPU.
#[tactic(auto, using(mig_bytes::proofs::Texts::puts_then, mig_bytes::proofs::Texts::puts_stop, mig_bytes::proofs::Texts::puts_same, crate::proofs::PvRecords::vcpu_text))]
fn write_vcpu<K: Sink>(sink: &mut K, guest: &Guest, id: u32) -> Result<(), WriteFailed>
    requires { IsFormed guest.now }
    ensures bytes { Puts (text_of (records_of_vcpu guest.now id)) (K.written sink.old) (K.written sink.new) result }
    ensures cause { FaultHasCause (K.faults sink.old) (K.faults sink.new) result }
{
    write_vcpu_part(sink, guest, id, PartCode::VcpuBasic)?;
    write_vcpu_part(sink, guest, id, PartCode::VcpuExtended)?;
    write_vcpu_part(sink, guest, id, PartCode::VcpuXsave)?;
    write_vcpu_part(sink, guest, id, PartCode::VcpuMsrs)
}

/// Appends the records of all vCPUs, by ascending id. After `WriteFailed` some first bytes are appended, but not all.
#[tactic(auto, using(mig_bytes::proofs::Texts::puts_same, crate::proofs::PvRecords::vcpu_next, crate::proofs::PvRecords::vcpu_stop, crate::proofs::PvRecords::vcpus_end))]
pub fn write_vcpus<K: Sink>(sink: &mut K, guest: &Guest) -> Result<(), WriteFailed>
    requires { IsFormed guest.now }
    ensures bytes { Puts (text_of (all_vcpus guest.now)) (K.written sink.old) (K.written sink.new) result }
    ensures cause { FaultHasCause (K.faults sink.old) (K.faults sink.new) result }
{
    for id in 0..VCPU_LIMIT {
        write_vcpu(sink, guest, id)?;
    }
    Ok(())
}
