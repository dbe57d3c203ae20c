use crate::ContextFault;

/// Why a guest that is in a machine can't be seen as a guest. The variants are in the order of their numbers, from
/// 1.
#[derive(Clone, Copy, Debug, PartialEq, Eq)]
pub enum Unsound {
    /// The part that this record type sets isn't there.
    Missing(u64),
    /// The P2M frame listed at this index is no frame that may be listed there.
    P2mFrame(u64),
    /// In the table of this frame, this slot is a superpage.
    Superpage(u64, u64),
    /// In the table of this frame, this slot names a machine frame that no frame has.
    NoFrame(u64, u64),
    /// The GDT of this vCPU has so many descriptors.
    GdtEnts(u64, u64),
    /// In the context of this vCPU, this field says no machine frame of its type.
    VcpuFrame(u64, u64),
    /// The context of an HVM guest isn't a chain of entries.
    BadContext(ContextFault),
}
