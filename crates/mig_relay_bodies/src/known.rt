ghost use Rattle.std.specs.Prelude.{◌≡◌, ◌≤◌};
ghost use Rattle.mig_relay_bodies.specs.Begun.{first_piece};

use crate::chain::Chain;
use crate::pairs::Pairs;
use mig_headers::Cause;

/// The most bytes of a piece.
pub(crate) const PIECE: usize = 4096;

/// The bytes that each body of a form begins with.
pub(crate) const FRONT: usize = 8;

/// The bytes of an HVM parameter: its index and its value, of 8 bytes each.
pub(crate) const PARAM: usize = 16;

/// A body whose first 8 bytes are judged, by its record (libxc migration stream, "Records"; libxl migration stream, the
/// emulator records): what is in them and behind them.
#[derive(Clone, Copy, Debug, PartialEq, Eq)]
pub enum BodyForm {
    /// X86_PV_INFO: the guest's width in bytes and the levels of its page tables, a byte each, and nothing behind.
    PvInfo,
    /// X86_PV_P2M_FRAMES: the first and the last frame number, of 4 bytes each; and 8 bytes for each P2M frame.
    P2mFrames,
    /// X86_PV_VCPU_BASIC with its context: a vCPU's id in 4 bytes, and 4 that are ignored; and 5168 bytes, which have the
    /// number of GDT entries.
    BasicVcpu,
    /// X86_PV_VCPU_BASIC without a context, and the other records of a vCPU: its id in the same way, and bytes of which
    /// nothing is asked.
    OtherVcpu,
    /// HVM_PARAMS: the number of parameters in 4 bytes, and 4 that are ignored; and 16 bytes for each parameter.
    HvmParams,
    /// EMULATOR_XENSTORE_DATA: the emulator's id and its index, of 4 bytes each; and pairs of texts.
    EmulatorPairs,
    /// EMULATOR_CONTEXT: the same two numbers, and bytes that aren't judged.
    EmulatorContext,
}

impl BodyForm {
    /// The most bytes of the first piece. What is before an emulator's pairs is a piece of its own, and HVM parameters
    /// are cut between two of them, so that no number lies across two pieces.
    pub(crate) fn first_piece(self) -> usize
        ensures { result ≡ first_piece self }
    {
        match self {
            BodyForm::EmulatorPairs => FRONT,
            BodyForm::HvmParams => PIECE - PARAM + FRONT,
            _ => PIECE,
        }
    }
}

/// What is known of a body once some first bytes of it were taken.
#[derive(Clone, Copy, Debug, PartialEq, Eq)]
pub enum Knows {
    /// Nothing, before the first byte of a body of this form.
    Nothing(BodyForm),
    /// How far the entries of an HVM context were followed.
    Entries(Chain),
    /// What an emulator's id and index tell, and what is known of its pairs.
    Texts(Option<Cause>, Pairs),
    /// The first fault of the HVM parameters so far.
    Params(Option<Cause>),
    /// What a vCPU's id tells; the number of its GDT entries is still to come.
    Basic(Option<Cause>),
    /// The fault of the whole body, whatever comes.
    Verdict(Option<Cause>),
}
