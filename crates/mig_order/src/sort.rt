ghost use Rattle.std.specs.Prelude.{◌≡◌, ◌∷◌, []};
ghost use Rattle.mig_headers.specs.RecordTypes.{type_number};
ghost use Rattle.mig_order.specs.Order.{among, static_records, content_records, vcpu_records};

use mig_headers::RecordType;

/// Whether both are the same type.
pub fn is_same(this: RecordType, other: RecordType) -> bool
    ensures { result ≡ among (other ∷ []) (type_number this) }
{
    this.number() == other.number()
}

/// Whether the type is static data.
pub fn is_static(this: RecordType) -> bool
    ensures { result ≡ among static_records (type_number this) }
{
    matches!(
        this,
        RecordType::X86PvInfo | RecordType::X86CpuidPolicy | RecordType::X86MsrPolicy
    )
}

/// Whether the type is content.
pub fn is_content(this: RecordType) -> bool
    ensures { result ≡ among content_records (type_number this) }
{
    matches!(
        this,
        RecordType::End
            | RecordType::PageData
            | RecordType::X86PvP2mFrames
            | RecordType::X86PvVcpuBasic
            | RecordType::X86PvVcpuExtended
            | RecordType::X86PvVcpuXsave
            | RecordType::SharedInfo
            | RecordType::HvmContext
            | RecordType::HvmParams
            | RecordType::X86PvVcpuMsrs
            | RecordType::Verify
    )
}

/// Whether the type is a vCPU's.
pub fn is_vcpu(this: RecordType) -> bool
    ensures { result ≡ among vcpu_records (type_number this) }
{
    matches!(
        this,
        RecordType::X86PvVcpuBasic
            | RecordType::X86PvVcpuExtended
            | RecordType::X86PvVcpuXsave
            | RecordType::X86PvVcpuMsrs
    )
}
