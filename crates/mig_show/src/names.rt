ghost use Rattle.std.specs.Prelude.{◌≡◌, unwrap_or, option_map, [], slice_get};
ghost use Rattle.mig_show.specs.Common.{type_of_number};
ghost use Rattle.mig_show.specs.Names.{libxc_name, libxl_names, shown_name};

use mig_headers::{RecordType, is_optional};

/// The name of a libxc record type (libxc migration stream, "Records").
fn libxc_name(kind: RecordType) -> &'static str
    ensures { result.now ≡ libxc_name kind }
{
    match kind {
        RecordType::End => "END",
        RecordType::PageData => "PAGE_DATA",
        RecordType::X86PvInfo => "X86_PV_INFO",
        RecordType::X86PvP2mFrames => "X86_PV_P2M_FRAMES",
        RecordType::X86PvVcpuBasic => "X86_PV_VCPU_BASIC",
        RecordType::X86PvVcpuExtended => "X86_PV_VCPU_EXTENDED",
        RecordType::X86PvVcpuXsave => "X86_PV_VCPU_XSAVE",
        RecordType::SharedInfo => "SHARED_INFO",
        RecordType::X86TscInfo => "X86_TSC_INFO",
        RecordType::HvmContext => "HVM_CONTEXT",
        RecordType::HvmParams => "HVM_PARAMS",
        RecordType::Toolstack => "TOOLSTACK",
        RecordType::X86PvVcpuMsrs => "X86_PV_VCPU_MSRS",
        RecordType::Verify => "VERIFY",
        RecordType::Checkpoint => "CHECKPOINT",
        RecordType::CheckpointDirtyPfnList => "CHECKPOINT_DIRTY_PFN_LIST",
        RecordType::StaticDataEnd => "STATIC_DATA_END",
        RecordType::X86CpuidPolicy => "X86_CPUID_POLICY",
        RecordType::X86MsrPolicy => "X86_MSR_POLICY",
    }
}

/// The name of the libxc record type with this number; empty where there is none.
fn libxc_number_name(kind: u32) -> &'static str
    ensures { result.now ≡ unwrap_or (option_map libxc_name (type_of_number kind)) [] }
{
    match RecordType::from_number(kind) {
        Some(kind) => libxc_name(kind),
        None => "",
    }
}

/// The name of the libxl record type with this number (libxl migration stream, "Records"); empty where there is none.
fn libxl_number_name(kind: u32) -> &'static str
    ensures { result.now ≡ unwrap_or (slice_get libxl_names kind) [] }
{
    match kind {
        0 => "END",
        1 => "LIBXC_CONTEXT",
        2 => "EMULATOR_XENSTORE_DATA",
        3 => "EMULATOR_CONTEXT",
        4 => "CHECKPOINT_END",
        5 => "CHECKPOINT_STATE",
        _ => "",
    }
}

/// The name that is shown of a record of this type, of a libxl stream where `wrapped`, else of a libxc stream.
pub(crate) fn shown_name(wrapped: bool, kind: u32) -> &'static str
    ensures { result.now ≡ shown_name wrapped kind }
{
    if is_optional(kind) {
        return "optional";
    }
    if wrapped {
        return libxl_number_name(kind);
    }
    libxc_number_name(kind)
}
