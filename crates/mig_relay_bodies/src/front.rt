ghost use Rattle.std.specs.Prelude.{◌≡◌, ◌≤◌, ◌*◌, false, ◌++◌, List, ℕ, length, take, drop};
ghost use Rattle.mig_relay_bodies.specs.Common.{le32, fault_of_entry, fault_of_entries, fault_of_pv_info, fault_of_p2m, fault_of_body, fault_of_content, is_chain, shape_of, VcpuBasic, HvmParam, fault_of_context};
ghost use Rattle.mig_relay_bodies.specs.Begun.{FitsForm, IsKnown, fault_of_form, params, piece_of};
ghost use Rattle.mig_relay_bodies.specs.declared.known.Knows.TheVariants.{Nothing};
ghost use Rattle.mig_relay_bodies.specs.declared.known.BodyForm.TheVariants.{HvmParams};

use crate::known::{BodyForm, FRONT, Knows, PARAM, PIECE};
use crate::pairs::no_pairs;
use mig_bytes::{u32_le, u64_le};
use mig_guest::{MOST_GDT_ENTRIES, PartCode};
use mig_headers::{Cause, VCPU_LIMIT};
use mig_libxl_form::{EMULATOR_IDS, EMULATOR_INDICES};
use mig_records::{GDT_ENTS, body_fault, pv_info_fault};

/// Frame numbers whose machine frames one P2M frame holds.
const IN_P2M_FRAME: u64 = 512;

/// What is wrong with the body of an X86_PV_INFO.
fn info_fault(front: &[u8]) -> Option<Cause>
    requires { 8 ≤ length front.now }
    ensures { result ≡ fault_of_pv_info (take 8 front.now) }
{
    let mut body = [0; FRONT];
    body.copy_from_slice(&front[..FRONT]);
    pv_info_fault(&body)
}

/// What is wrong with an X86_PV_P2M_FRAMES of so many bytes: its first and its last frame number ask for a length, and the
/// first has to be 0.
fn p2m_fault(len: u32, front: &[u8]) -> Option<Cause>
    requires { 8 ≤ length front.now }
    ensures { (body : List ℕ) → length body ≡ len → le32 body 0 ≡ le32 front.now 0 → le32 body 4 ≡ le32 front.now 4 → result ≡ fault_of_p2m body }
{
    let first = u64::from(u32_le(front, 0));
    let last = u64::from(u32_le(front, 4));
    if first <= last {
        let frames = last / IN_P2M_FRAME - first / IN_P2M_FRAME + 1;
        if u64::from(len) != 8 + 8 * frames {
            return Some(Cause::BadLength(u64::from(len)));
        }
    }
    if first != 0 {
        return Some(Cause::P2mStart(first));
    }
    None
}

/// What the id of a vCPU's record tells: what is wrong with the record where nothing is behind its id.
fn id_fault(code: PartCode, front: &[u8]) -> Option<Cause>
    requires front { 8 ≤ length front.now }
    requires no_chain { is_chain (shape_of code) ≡ false }
    ensures { result ≡ fault_of_body code (take 8 front.now) }
{
    body_fault(code, &front[..FRONT])
}

/// What is wrong with an emulator's id and its index, which an emulator's records begin with.
#[tactic(auto, unfolding(mig_libxl_form::specs::Judging::fault_of_context))]
fn emulator_fault(front: &[u8]) -> Option<Cause>
    requires { 8 ≤ length front.now }
    ensures { (body : List ℕ) → le32 body 0 ≡ le32 front.now 0 → le32 body 4 ≡ le32 front.now 4 → result ≡ fault_of_context body }
{
    let id = u32_le(front, 0);
    if id >= EMULATOR_IDS {
        return Some(Cause::BadEmulator(u64::from(id)));
    }
    let index = u32_le(front, 4);
    if index >= EMULATOR_INDICES {
        return Some(Cause::EmulatorIndex(u64::from(index)));
    }
    None
}

/// What is wrong with the index of the first of some HVM parameters.
#[tactic(auto, using(crate::proofs::Fronts::first64))]
fn param_fault(bytes: &[u8]) -> Option<Cause>
    requires { 16 ≤ length bytes.now }
    ensures { result ≡ fault_of_entry HvmParam params bytes.now }
{
    let index = u64_le(bytes, 0);
    if index >= u64::from(VCPU_LIMIT) {
        return Some(Cause::ParamIndex(index));
    }
    None
}

/// The first fault of whole HVM parameters, an index and a value each.
pub(crate) fn params_fault(bytes: &[u8]) -> Option<Cause>
    ensures { (n : ℕ) → length bytes.now ≡ 16 * n → result ≡ fault_of_entries HvmParam params n bytes.now }
{
    let mut rest = bytes;
    for i in 0..bytes.len() / PARAM {
        if let Some(cause) = param_fault(rest) {
            return Some(cause);
        }
        rest = rest.split_at(PARAM).1;
    }
    None
}

/// What is wrong with the number of GDT entries of a vCPU's basic context, which is in the second of its pieces.
#[tactic(auto, using(crate::proofs::Fronts::many_entries, crate::proofs::Fronts::few_entries))]
pub(crate) fn gdt_fault(piece: &[u8]) -> Option<Cause>
    ensures { (front : List ℕ) → length front ≡ 4096 → length piece.now ≡ 1080 → result ≡ fault_of_content VcpuBasic (drop 8 (front ++ piece.now)) }
{
    let at = FRONT + GDT_ENTS - PIECE;
    if piece.len() < at + 8 {
        return None;
    }
    let entries = u64_le(piece, at);
    if entries > MOST_GDT_ENTRIES {
        return Some(Cause::GdtEnts(entries));
    }
    None
}

/// What is known behind the first piece of an HVM_PARAMS of so many bytes. It has as many parameters as its first 4
/// bytes say, or another length than these ask for.
fn behind_params(len: u32, piece: &[u8]) -> Knows
    requires { 8 ≤ length piece.now }
    ensures { length piece.now ≡ piece_of (Nothing HvmParams) 0 len → IsKnown result len (fault_of_form HvmParams) piece.now }
{
    let count = u32_le(piece, 0) as usize;
    if len as usize != FRONT + PARAM * count {
        return Knows::Verdict(Some(Cause::BadLength(u64::from(len))));
    }
    let (_, entries) = piece.split_at(FRONT);
    Knows::Params(params_fault(entries))
}

/// What is known behind the first piece of a body of this form and of so many bytes.
pub(crate) fn behind_first(form: BodyForm, len: u32, piece: &[u8]) -> Knows
    ensures { FitsForm form len → length piece.now ≡ piece_of (Nothing form) 0 len → IsKnown result len (fault_of_form form) piece.now }
{
    // Each body of a form has 8 bytes, and its first piece has them.
    if piece.len() < FRONT {
        return Knows::Verdict(None);
    }
    match form {
        BodyForm::PvInfo => Knows::Verdict(info_fault(piece)),
        BodyForm::P2mFrames => Knows::Verdict(p2m_fault(len, piece)),
        BodyForm::BasicVcpu => Knows::Basic(id_fault(PartCode::VcpuBasic, piece)),
        BodyForm::OtherVcpu => Knows::Verdict(id_fault(PartCode::VcpuExtended, piece)),
        BodyForm::HvmParams => behind_params(len, piece),
        BodyForm::EmulatorPairs => Knows::Texts(emulator_fault(piece), no_pairs()),
        BodyForm::EmulatorContext => Knows::Verdict(emulator_fault(piece)),
    }
}
