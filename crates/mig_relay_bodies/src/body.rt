ghost use Rattle.std.specs.Prelude.{min, ◌≡◌, ◌≢◌, ◌≤◌, ◌<◌, ◌+◌, ◌++◌, List, ℕ, length, true, None, [], Some};
ghost use Rattle.std.specs.declared.option.Option.{Option};
ghost use Rattle.mig_relay_bodies.specs.Common.{Cause, most_body, record_row_of, scan, fault_of_scan, X86PvP2mFrames};
ghost use Rattle.mig_libxl_form.specs.Judging.{allows_length};
ghost use Rattle.mig_records.specs.Faults.{fault_of_length};
ghost use Rattle.mig_relay_bodies.specs.Bodies.{fault_of_record_body, fault_of_typed, fault_of_libxl_body};
ghost use Rattle.mig_relay_bodies.specs.Begun.{IsBegunBody, IsKnown, piece_len};
ghost use Rattle.mig_relay_bodies.specs.ContextChain.{IsBegunContext};
ghost use Rattle.mig_relay_bodies.specs.declared.known.BodyForm.TheVariants.{P2mFrames};
ghost use Rattle.mig_relay_bodies.specs.declared.known.Knows.TheVariants.{Nothing};

use crate::chain::{Chain, behind_piece, context_fault, next_piece};
use crate::front::{behind_first, gdt_fault, params_fault};
use crate::known::{BodyForm, FRONT, Knows, PIECE};
use crate::pairs::{behind_bytes, pairs_fault};
use mig_headers::{Cause, RecordType, is_optional};
use mig_libxl_form::{EMULATOR_CONTEXT, EMULATOR_XENSTORE_DATA};

/// What is known of a body once some first bytes of it were taken.
#[derive(Clone, Copy, Debug, PartialEq, Eq)]
pub struct BodySeen {
    /// How many bytes the body has.
    pub len: u32,
    /// How many of them were taken.
    pub taken: u32,
    /// What is known of these.
    pub knows: Knows,
}

/// What is known before the first byte of the body of a record of a known type. A body of which only the length is asked
/// has no fault.
fn known_of_type(this: RecordType, len: u32) -> Knows
    requires { (record_row_of this).allows len ≡ true }
    ensures known { IsKnown result len (fault_of_typed (Some this)) [] }
    ensures p2m { this ≡ X86PvP2mFrames → result ≡ Nothing P2mFrames }
{
    match this {
        RecordType::X86PvInfo => Knows::Nothing(BodyForm::PvInfo),
        RecordType::X86PvP2mFrames => Knows::Nothing(BodyForm::P2mFrames),
        RecordType::X86PvVcpuBasic => {
            // Without its context a vCPU's record has an id alone.
            if len as usize == FRONT {
                Knows::Nothing(BodyForm::OtherVcpu)
            } else {
                Knows::Nothing(BodyForm::BasicVcpu)
            }
        }
        RecordType::X86PvVcpuExtended | RecordType::X86PvVcpuXsave | RecordType::X86PvVcpuMsrs =>
            Knows::Nothing(BodyForm::OtherVcpu),
        RecordType::HvmContext => Knows::Entries(Chain::Entry(0)),
        RecordType::HvmParams => Knows::Nothing(BodyForm::HvmParams),
        _ => Knows::Verdict(None),
    }
}

/// What is known before the first byte of the body of a record of an image.
fn known_of_record(kind: u32, len: u32) -> Knows
    requires { fault_of_length kind len ≡ None }
    ensures known { IsKnown result len (fault_of_record_body kind) [] }
    ensures p2m { kind ≡ 3 → result ≡ Nothing P2mFrames }
{
    if is_optional(kind) {
        return Knows::Verdict(None);
    }
    match RecordType::from_number(kind) {
        Some(this) => known_of_type(this, len),
        None => Knows::Verdict(None),
    }
}

/// What is known before the first byte of the body of a record of a libxl stream.
fn known_of_libxl_record(kind: u32, len: u32) -> Knows
    requires { allows_length kind len ≡ true }
    ensures { IsKnown result len (fault_of_libxl_body kind) [] }
{
    match kind {
        EMULATOR_XENSTORE_DATA => Knows::Nothing(BodyForm::EmulatorPairs),
        EMULATOR_CONTEXT => Knows::Nothing(BodyForm::EmulatorContext),
        _ => Knows::Verdict(None),
    }
}

/// What is known behind the next piece.
fn behind(seen: BodySeen, piece: &[u8]) -> Knows
    requires some { seen.taken < seen.len }
    requires whole { length piece.now ≡ piece_len seen }
    ensures { (fault : List ℕ → Option Cause) (begun : List ℕ) → IsBegunBody seen fault begun → IsKnown result seen.len fault (begun ++ piece.now) }
{
    match seen.knows {
        Knows::Nothing(form) => behind_first(form, seen.len, piece),
        Knows::Entries(chain) => Knows::Entries(behind_piece(
            chain,
            u64::from(seen.taken),
            u64::from(seen.len),
            piece,
        )),
        Knows::Texts(named, pairs) => Knows::Texts(named, behind_bytes(pairs, piece)),
        Knows::Params(first) => Knows::Params(first.or(params_fault(piece))),
        Knows::Basic(named) => Knows::Verdict(named.or(gdt_fault(piece))),
        Knows::Verdict(fault) => Knows::Verdict(fault),
    }
}

/// The fault of an HVM context that was taken whole.
fn chain_fault(chain: Chain, len: u32) -> Option<Cause>
    ensures { (body : List ℕ) → length body ≡ len → IsBegunContext chain len body → result ≡ fault_of_scan (scan body) }
{
    match context_fault(chain, u64::from(len)) {
        Some(fault) => Some(Cause::BadContext(fault)),
        None => None,
    }
}

impl BodySeen {
    /// The body of a record of an image that isn't a PAGE_DATA, before its first byte: of this type and of so many bytes
    /// (libxc migration stream, "Records").
    pub fn of_record(kind: u32, len: u32) -> BodySeen
        requires other { kind ≢ 1 }
        requires small { len ≤ most_body }
        requires allowed { fault_of_length kind len ≡ None }
        ensures begun { IsBegunBody result (fault_of_record_body kind) [] }
        ensures len { result.len ≡ len }
        ensures taken { result.taken ≡ 0 }

        // Both frame numbers of an X86_PV_P2M_FRAMES are in its first piece.
        ensures p2m { kind ≡ 3 → piece_len result ≡ min len 4096 }
    {
        BodySeen {
            len,
            taken: 0,
            knows: known_of_record(kind, len),
        }
    }

    /// The body of a record of a libxl stream that isn't LIBXC_CONTEXT, before its first byte: of this type and of so many
    /// bytes (libxl migration stream, "Records").
    pub fn of_libxl_record(kind: u32, len: u32) -> BodySeen
        requires small { len ≤ most_body }
        requires allowed { allows_length kind len ≡ true }
        ensures begun { IsBegunBody result (fault_of_libxl_body kind) [] }
        ensures len { result.len ≡ len }
        ensures taken { result.taken ≡ 0 }
    {
        BodySeen {
            len,
            taken: 0,
            knows: known_of_libxl_record(kind, len),
        }
    }

    /// How many bytes the next piece has: some, and 4096 at most.
    pub fn next_piece(&self) -> usize
        requires { self.now.taken < self.now.len }
        ensures value { result ≡ piece_len self.now }
        ensures some { 0 < result }
        ensures most { result ≤ 4096 }
        ensures within { self.now.taken + result ≤ self.now.len }
    {
        let left = (self.len - self.taken) as usize;
        match self.knows {
            Knows::Nothing(form) => left.min(form.first_piece()),
            Knows::Entries(chain) => {
                next_piece(chain, u64::from(self.taken), u64::from(self.len)) as usize
            }
            _ => left.min(PIECE),
        }
    }

    /// Takes in the next piece, which has just `piece_len` bytes.
    pub fn pass(&mut self, piece: &[u8])
        requires some { self.old.taken < self.old.len }
        requires whole { length piece.now ≡ piece_len self.old }
        ensures begun { (fault : List ℕ → Option Cause) (begun : List ℕ) → IsBegunBody self.old fault begun → IsBegunBody self.new fault (begun ++ piece.now) }
        ensures len { self.new.len ≡ self.old.len }
        ensures taken { self.new.taken ≡ self.old.taken + length piece.now }
    {
        self.knows = behind(*self, piece);
        self.taken += piece.len() as u32;
    }

    /// The fault of the body, which has come whole: the one that a reader of the whole body tells.
    pub fn fault(&self) -> Option<Cause>
        requires { self.now.taken ≡ self.now.len }
        ensures { (fault : List ℕ → Option Cause) (body : List ℕ) → IsBegunBody self.now fault body → result ≡ fault body }
    {
        match self.knows {
            Knows::Entries(chain) => chain_fault(chain, self.len),
            Knows::Texts(named, pairs) => pairs_fault(pairs).or(named),
            Knows::Params(first) => first,
            Knows::Verdict(fault) => fault,

            // A body of a form has some bytes, and a basic context a second piece.
            Knows::Nothing(_) | Knows::Basic(_) => None,
        }
    }
}
