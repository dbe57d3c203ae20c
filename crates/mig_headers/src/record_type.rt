ghost use Rattle.std.specs.Prelude.{◌≡◌, ◌<◌, ◌↔◌, IsTrue, IsNone, IsBitSet};
ghost use Rattle.mig_headers.specs.RecordTypes.{is_optional};

use crate::Kind;

/// The most bytes that the body of a record may have, as in Xen's reader.
pub const MOST_BODY: u32 = 1 << 27;

/// The bytes of a vCPU's basic context, of an MSR and of a CPUID leaf.
const VCPU_CONTEXT: u32 = 5168;

const MSR_ENTRY: u32 = 16;

const CPUID_LEAF: u32 = 24;

/// The most entries of a policy.
pub const MOST_POLICY_ENTRIES: u32 = 65536;

/// vCPU ids are below this, and indices of HVM parameters.
pub const VCPU_LIMIT: u32 = 4096;

/// The record types of a libxc stream (libxc migration stream, "Records"), in the order of their numbers, from 0.
#[derive(Clone, Copy, Debug, PartialEq, Eq)]
pub enum RecordType {
    End,
    PageData,
    X86PvInfo,
    X86PvP2mFrames,
    X86PvVcpuBasic,
    X86PvVcpuExtended,
    X86PvVcpuXsave,
    SharedInfo,
    X86TscInfo,
    HvmContext,
    HvmParams,
    Toolstack,
    X86PvVcpuMsrs,
    Verify,
    Checkpoint,
    CheckpointDirtyPfnList,
    StaticDataEnd,
    X86CpuidPolicy,
    X86MsrPolicy,
}

/// The numbers of the types that are named in other crates.
pub const END: u32 = RecordType::End as u32;

pub const PAGE_DATA: u32 = RecordType::PageData as u32;

pub const X86_PV_INFO: u32 = RecordType::X86PvInfo as u32;

pub const X86_PV_P2M_FRAMES: u32 = RecordType::X86PvP2mFrames as u32;

pub const X86_PV_VCPU_BASIC: u32 = RecordType::X86PvVcpuBasic as u32;

pub const X86_PV_VCPU_EXTENDED: u32 = RecordType::X86PvVcpuExtended as u32;

pub const X86_PV_VCPU_XSAVE: u32 = RecordType::X86PvVcpuXsave as u32;

pub const HVM_CONTEXT: u32 = RecordType::HvmContext as u32;

pub const X86_PV_VCPU_MSRS: u32 = RecordType::X86PvVcpuMsrs as u32;

pub const VERIFY: u32 = RecordType::Verify as u32;

pub const STATIC_DATA_END: u32 = RecordType::StaticDataEnd as u32;

impl RecordType {
    ghost use Rattle.mig_headers.specs.RecordTypes.{type_number, type_of_number, record_row_of};

    /// The type of this number, or `None` above 0x12 (libxc migration stream, "Records").
    pub fn from_number(number: u32) -> Option<RecordType>
        ensures value { result ≡ type_of_number number }
        ensures none { IsNone result ↔ (0x12 < number) }
    {
        match number {
            0x0 => Some(RecordType::End),
            0x1 => Some(RecordType::PageData),
            0x2 => Some(RecordType::X86PvInfo),
            0x3 => Some(RecordType::X86PvP2mFrames),
            0x4 => Some(RecordType::X86PvVcpuBasic),
            0x5 => Some(RecordType::X86PvVcpuExtended),
            0x6 => Some(RecordType::X86PvVcpuXsave),
            0x7 => Some(RecordType::SharedInfo),
            0x8 => Some(RecordType::X86TscInfo),
            0x9 => Some(RecordType::HvmContext),
            0xA => Some(RecordType::HvmParams),
            0xB => Some(RecordType::Toolstack),
            0xC => Some(RecordType::X86PvVcpuMsrs),
            0xD => Some(RecordType::Verify),
            0xE => Some(RecordType::Checkpoint),
            0xF => Some(RecordType::CheckpointDirtyPfnList),
            0x10 => Some(RecordType::StaticDataEnd),
            0x11 => Some(RecordType::X86CpuidPolicy),
            0x12 => Some(RecordType::X86MsrPolicy),
            _ => None,
        }
    }

    /// The number of this type.
    pub fn number(self) -> u32
        ensures { result ≡ type_number self }
    {
        self as u32
    }

    /// Whether records of this type are read at all.
    pub fn is_supported(self) -> bool
        ensures { result ≡ (record_row_of self).supported }
    {
        !matches!(
            self,
            RecordType::Toolstack | RecordType::Checkpoint | RecordType::CheckpointDirtyPfnList
        )
    }

    /// Whether a stream of this kind of guest may have such a record.
    pub fn is_of(self, kind: Kind) -> bool
        ensures { result ≡ (record_row_of self).of_kind kind }
    {
        match self {
            RecordType::X86PvInfo
            | RecordType::X86PvP2mFrames
            | RecordType::X86PvVcpuBasic
            | RecordType::X86PvVcpuExtended
            | RecordType::X86PvVcpuXsave
            | RecordType::SharedInfo
            | RecordType::X86PvVcpuMsrs => kind == Kind::Pv,
            RecordType::HvmContext | RecordType::HvmParams => kind == Kind::Hvm,
            _ => true,
        }
    }

    /// Whether the body of such a record may have this length.
    pub fn allows_length(self, len: u32) -> bool
        ensures { result ≡ (record_row_of self).allows len }
    {
        match self {
            RecordType::End | RecordType::Verify | RecordType::StaticDataEnd => len == 0,
            RecordType::X86PvInfo => len == 8,
            RecordType::PageData
            | RecordType::X86PvP2mFrames
            | RecordType::X86PvVcpuExtended
            | RecordType::X86PvVcpuXsave
            | RecordType::HvmParams => len >= 8,
            RecordType::X86PvVcpuBasic => len == 8 || len == 8 + VCPU_CONTEXT,
            RecordType::SharedInfo => len == 4096,
            RecordType::X86TscInfo => len == 24,
            RecordType::X86PvVcpuMsrs => len >= 8 && (len - 8) % MSR_ENTRY == 0,
            RecordType::X86CpuidPolicy => len % CPUID_LEAF == 0
                && len <= MOST_POLICY_ENTRIES * CPUID_LEAF,
            RecordType::X86MsrPolicy => len % MSR_ENTRY == 0
                && len <= MOST_POLICY_ENTRIES * MSR_ENTRY,
            RecordType::HvmContext
            | RecordType::Toolstack
            | RecordType::Checkpoint
            | RecordType::CheckpointDirtyPfnList => true,
        }
    }
}

/// Whether a record of this type may be ignored: bit 31 is set.
pub fn is_optional(number: u32) -> bool
    ensures value { result ≡ is_optional number }
    ensures bit { IsTrue result ↔ IsBitSet number 31 }
{
    number >= 1 << 31
}
