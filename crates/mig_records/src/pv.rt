ghost use Rattle.std.specs.Prelude.{◌≡◌, ◌≤◌, true, length, drop, None, OnOk, OnErr};
ghost use Rattle.mig_records.specs.Common.{le32};
ghost use Rattle.mig_records.specs.PvBodies.{fault_of_pv_info, fault_of_p2m, set_p2m, fault_of_vcpu_record};
ghost use Rattle.mig_records.specs.Faults.{fault_of_length};

use crate::read::body_fault;
use mig_bytes::{Memory, u32_le};
use mig_guest::{Guest, P2M_KEY, PartCode};
use mig_headers::{
    Cause, X86_PV_VCPU_BASIC, X86_PV_VCPU_EXTENDED, X86_PV_VCPU_MSRS, X86_PV_VCPU_XSAVE,
};

/// A P2M frame holds the machine frames of so many frame numbers.
const IN_P2M_FRAME: u64 = 512;

/// What is wrong with the body of an X86_PV_INFO: `Pv32` for a guest of width 4, `BadPvInfo` for any other but one of
/// width 8 and 4 levels of page tables.
pub fn pv_info_fault(body: &[u8; 8]) -> Option<Cause>
    ensures { result ≡ fault_of_pv_info body.now }
{
    match (body[0], body[1]) {
        (4, _) => Some(Cause::Pv32),
        (8, 4) => None,
        _ => Some(Cause::BadPvInfo),
    }
}

/// What is wrong with the body of an X86_PV_P2M_FRAMES: `BadLength` where it isn't as long as its two frame numbers ask,
/// `P2mStart` where the first isn't 0.
pub fn p2m_fault(body: &[u8]) -> Option<Cause>
    requires { 8 ≤ length body.now }
    ensures { result ≡ fault_of_p2m body.now }
{
    let first = u64::from(u32_le(body, 0));
    let last = u64::from(u32_le(body, 4));
    if first <= last {
        let frames = last / IN_P2M_FRAME - first / IN_P2M_FRAME + 1;
        if body.len() as u64 != 8 + 8 * frames {
            return Some(Cause::BadLength(body.len() as u64));
        }
    }
    if first != 0 {
        return Some(Cause::P2mStart(first));
    }
    None
}

/// Sets the list of P2M frames: those of the body replace the first of them, and those behind stay. The guest's top is the
/// greatest frame number that was listed. Where no memory is found, the guest stays.
pub fn read_p2m(guest: &mut Guest, body: &[u8]) -> Result<(), Memory>
    requires front { 8 ≤ length body.now }
    requires faultless { fault_of_p2m body.now ≡ None }
    ensures ok { OnOk result (guest.new ≡ set_p2m (le32 body.now 4) (drop 8 body.now) guest.old) }
    ensures err { OnErr result (guest.new ≡ guest.old) }
{
    let last = u64::from(u32_le(body, 4));
    let frames = &body[8..];
    let before = match guest.part(P2M_KEY) {
        Some(before) => before.len(),
        None => 0,
    };
    if frames.len() < before {
        guest.write_part(P2M_KEY, 0, frames);
    } else {
        guest.set_part(P2M_KEY, frames)?;
    }
    guest.set_top(guest.top().max(last));
    Ok(())
}

/// What is wrong with the body of a vCPU's record (libxc migration stream, "X86_PV_VCPU_BASIC, EXTENDED, XSAVE, MSRS"),
/// of a length that its type has. It is `VcpuId` where its id is no vCPU's, and `GdtEnts` where it is a whole context
/// with too many descriptors. A record of another type has neither.
#[tactic(auto, using(crate::proofs::PvLaws::basic_rows, crate::proofs::PvLaws::extended_rows, crate::proofs::PvLaws::xsave_rows, crate::proofs::PvLaws::msrs_rows, crate::proofs::PvLaws::other_rows))]
pub fn vcpu_fault(kind: u32, body: &[u8]) -> Option<Cause>
    requires { fault_of_length kind (length body.now) ≡ None }
    ensures { result ≡ fault_of_vcpu_record kind body.now }
{
    match kind {
        X86_PV_VCPU_BASIC => body_fault(PartCode::VcpuBasic, body),
        X86_PV_VCPU_EXTENDED => body_fault(PartCode::VcpuExtended, body),
        X86_PV_VCPU_XSAVE => body_fault(PartCode::VcpuXsave, body),
        X86_PV_VCPU_MSRS => body_fault(PartCode::VcpuMsrs, body),
        _ => None,
    }
}
