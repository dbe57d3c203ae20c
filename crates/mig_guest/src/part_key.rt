use mig_headers::{HVM_CONTEXT, X86_PV_P2M_FRAMES};

/// Names a part of a guest: what it is, and for which vCPU or table row.
///
/// Keys are ordered by their code, then by key1, then by key2.
#[derive(Clone, Copy, Debug, PartialEq, Eq, PartialOrd, Ord)]
pub struct PartKey {
    pub code: u32,
    pub key1: u32,
    pub key2: u32,
}

/// The key of the HVM context.
pub const CONTEXT_KEY: PartKey = PartKey {
    code: HVM_CONTEXT,
    key1: 0,
    key2: 0,
};

/// The key of the list of P2M frames.
pub const P2M_KEY: PartKey = PartKey {
    code: X86_PV_P2M_FRAMES,
    key1: 0,
    key2: 0,
};
