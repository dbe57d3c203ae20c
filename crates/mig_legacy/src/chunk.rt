ghost use Rattle.std.specs.Prelude.{◌≡◌, IfOk};
ghost use Rattle.mig_legacy.specs.Common.{first_named};
ghost use Rattle.mig_legacy.specs.Chunks.{negative_causes, negative_kind as kind_below, unless_caused, kind_of, negative, IsNumberOf};

use mig_headers::LegacyCause;

/// What a chunk of a legacy stream is, by its type (Xen's xg_save_restore.h).
#[derive(Clone, Copy, Debug, PartialEq, Eq)]
pub enum ChunkKind {
    /// The last: the tail follows.
    End,
    /// So many words, from 1 to 1024, and the pages of those that have one.
    Batch(u32),
    /// Which vCPUs there are.
    VcpuMap,
    Tsc,
    /// That no further checkpoint comes.
    LastCheckpoint,
    /// The data of the toolstack.
    Toolstack,
    /// The value of the HVM parameter of this index.
    Param(u32),
}

/// The most words of a batch.
const MOST_BATCH: u32 = 1024;

/// What the chunk −n is.
fn negative_kind(n: u64) -> Result<ChunkKind, LegacyCause>
    ensures value { result ≡ unless_caused (first_named (negative_causes n)) (kind_below n) }
    ensures said { IfOk result (λ kind. IsNumberOf kind (negative n)) }
{
    match n {
        1 => Err(LegacyCause::VerifyOrPv),
        2 => Ok(ChunkKind::VcpuMap),
        3 => Ok(ChunkKind::Param(12)),
        4 => Ok(ChunkKind::Param(15)),
        5 | 6 => Err(LegacyCause::Tmem),
        7 => Ok(ChunkKind::Tsc),
        8 => Ok(ChunkKind::Param(17)),
        9 => Ok(ChunkKind::LastCheckpoint),
        10 => Ok(ChunkKind::Param(19)),
        11 => Ok(ChunkKind::Param(9)),
        12 | 13 => Err(LegacyCause::Compressed),
        14 => Ok(ChunkKind::Param(34)),
        15 => Ok(ChunkKind::Param(27)),
        16 => Ok(ChunkKind::Param(28)),
        17 => Ok(ChunkKind::Param(29)),
        18 => Ok(ChunkKind::Toolstack),
        19 => Ok(ChunkKind::Param(32)),
        20 => Ok(ChunkKind::Param(33)),
        _ => Err(LegacyCause::UnknownChunk(n)),
    }
}

/// What the chunk of this type is; its number has 32 bits, and the upper half of them are negative, −1 being the
/// greatest. Else the cause that no chunk of an HVM guest that 64-bit tools saved has this type, or that a batch has too
/// many words.
#[tactic(auto, unfolding(crate::specs::Chunks::kind_of))]
pub fn chunk_kind(number: u32) -> Result<ChunkKind, LegacyCause>
    ensures value { result ≡ kind_of number }
    ensures said { IfOk result (λ kind. IsNumberOf kind number) }
{
    if number == 0 {
        return Ok(ChunkKind::End);
    }
    if number < 1 << 31 {
        return if number <= MOST_BATCH {
            Ok(ChunkKind::Batch(number))
        } else {
            Err(LegacyCause::BatchTooLarge(u64::from(number)))
        };
    }
    negative_kind((1 << 32) - u64::from(number))
}
