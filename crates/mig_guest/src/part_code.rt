ghost use Rattle.std.specs.Prelude.{◌≡◌, ◌≤◌};
ghost use Rattle.mig_guest.specs.PartCodes.{is_fixed as is_fixed_code};
ghost use Rattle.mig_guest.specs.declared.part_code.PartCode.TheVariants.{P2mFrames};

use mig_headers::{Kind, MOST_BODY, VCPU_LIMIT};

/// The bytes of a vCPU's basic context and of an MSR of a vCPU.
const VCPU_CONTEXT: u32 = 5168;

const VCPU_MSR: u32 = 16;

/// Frame numbers in a page of P2M.
const P2M_SLOTS: u64 = 512;

/// The most bytes of an emulator's pairs.
pub const MOST_PAIRS: u32 = 1 << 24;

/// The most descriptors of a vCPU's GDT: those of 14 frames.
pub const MOST_GDT_ENTRIES: u64 = 7168;

/// The number of the parts that are an emulator's pairs.
pub const EMULATOR_PAIRS: u32 = 258;

/// The number of the parts that are an emulator's context.
pub const EMULATOR_CONTEXT: u32 = 259;

/// What a part is. The number of each is the type of the record that sets it, and for the parts of an emulator 256 more
/// than the type of the libxl record.
#[derive(Clone, Copy, Debug, PartialEq, Eq)]
pub enum PartCode {
    /// The PFNs of the P2M frames, 8 bytes each.
    P2mFrames,
    VcpuBasic,
    VcpuExtended,
    VcpuXsave,
    SharedInfo,
    Tsc,
    HvmContext,
    HvmParam,
    VcpuMsrs,
    CpuidLeaf,
    Msr,
    /// Pairs of texts, in canonical form.
    EmulatorPairs,
    EmulatorContext,
}

impl PartCode {
    ghost use Rattle.mig_guest.specs.PartCodes.{code_number, code_of_number, row_of};

    /// The code that has this number.
    pub fn from_number(number: u32) -> Option<PartCode>
        ensures { result ≡ code_of_number number }
    {
        match number {
            3 => Some(PartCode::P2mFrames),
            4 => Some(PartCode::VcpuBasic),
            5 => Some(PartCode::VcpuExtended),
            6 => Some(PartCode::VcpuXsave),
            7 => Some(PartCode::SharedInfo),
            8 => Some(PartCode::Tsc),
            9 => Some(PartCode::HvmContext),
            10 => Some(PartCode::HvmParam),
            12 => Some(PartCode::VcpuMsrs),
            17 => Some(PartCode::CpuidLeaf),
            18 => Some(PartCode::Msr),
            EMULATOR_PAIRS => Some(PartCode::EmulatorPairs),
            EMULATOR_CONTEXT => Some(PartCode::EmulatorContext),
            _ => None,
        }
    }

    /// The number of this code.
    pub fn number(self) -> u32
        ensures { result ≡ code_number self }
    {
        match self {
            PartCode::P2mFrames => 3,
            PartCode::VcpuBasic => 4,
            PartCode::VcpuExtended => 5,
            PartCode::VcpuXsave => 6,
            PartCode::SharedInfo => 7,
            PartCode::Tsc => 8,
            PartCode::HvmContext => 9,
            PartCode::HvmParam => 10,
            PartCode::VcpuMsrs => 12,
            PartCode::CpuidLeaf => 17,
            PartCode::Msr => 18,
            PartCode::EmulatorPairs => EMULATOR_PAIRS,
            PartCode::EmulatorContext => EMULATOR_CONTEXT,
        }
    }

    /// Whether guests of this kind have such parts.
    pub fn is_of(self, kind: Kind) -> bool
        ensures { result ≡ (row_of self).of_kind kind }
    {
        match self {
            PartCode::Tsc | PartCode::CpuidLeaf | PartCode::Msr => true,
            PartCode::HvmContext
            | PartCode::HvmParam
            | PartCode::EmulatorPairs
            | PartCode::EmulatorContext => kind == Kind::Hvm,
            _ => kind == Kind::Pv,
        }
    }

    /// Whether a part of this code may have these keys.
    pub fn has_keys(self, key1: u32, key2: u32) -> bool
        ensures { result ≡ (row_of self).keys key1 key2 }
    {
        match self {
            PartCode::CpuidLeaf => true,
            PartCode::Msr => key2 == 0,
            PartCode::P2mFrames | PartCode::SharedInfo | PartCode::Tsc | PartCode::HvmContext => {
                key1 == 0 && key2 == 0
            }
            PartCode::EmulatorPairs | PartCode::EmulatorContext => key1 < 3 && key2 < 256,
            _ => key1 < VCPU_LIMIT && key2 == 0,
        }
    }

    /// Whether a part of this code may have so many bytes, in a host with this many frame numbers.
    pub fn allows(self, width: u64, len: u32) -> bool
        requires { self ≡ P2mFrames → 1 ≤ width }
        ensures { result ≡ (row_of self).allows width len }
    {
        match self {
            PartCode::P2mFrames => u64::from(len) == 8 * ((width - 1) / P2M_SLOTS + 1),
            PartCode::VcpuBasic => len == VCPU_CONTEXT,
            PartCode::VcpuExtended | PartCode::VcpuXsave => 1 <= len && len <= MOST_BODY - 8,
            PartCode::SharedInfo => len == 4096,
            PartCode::Tsc => len == 20,
            PartCode::HvmContext => len <= MOST_BODY,
            PartCode::HvmParam => len == 8,
            PartCode::VcpuMsrs => {
                len % VCPU_MSR == 0 && VCPU_MSR <= len && len <= MOST_BODY - VCPU_MSR
            }
            PartCode::CpuidLeaf => len == 16,
            PartCode::Msr => len == 12,
            PartCode::EmulatorPairs => 1 <= len && len <= MOST_PAIRS,
            PartCode::EmulatorContext => len <= MOST_BODY - 8,
        }
    }
}

/// Whether parts of the code of this number never change while a guest runs: P2M frames, CPUID leaves, MSRs of the policy, and
/// an emulator's pairs.
pub fn is_fixed(code: u32) -> bool
    ensures { result ≡ is_fixed_code code }
{
    code == 3 || code == 17 || code == 18 || code == EMULATOR_PAIRS
}
