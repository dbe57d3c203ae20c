ghost use Rattle.std.specs.Prelude.{◌≡◌, ◌≤◌, ◌<◌, ◌+◌, ◌-◌, ◌++◌, List, ℕ, length, IfSome, IfNone as OnNone};
ghost use Rattle.mig_relay_bodies.specs.Common.{le16, le32, ContextFault, ChainTo, scan};
ghost use Rattle.std.specs.declared.option.Option.{Option};
ghost use Rattle.mig_relay_bodies.specs.declared.chain.Chain.TheVariants.{Judged};
ghost use Rattle.mig_relay_bodies.specs.ContextChain.{ChainSays, IsAhead, IsHeaderFault, IsBegunContext, fault_of_scanned, chain_piece};

use mig_bytes::{u16_le, u32_le};
use mig_headers::ContextFault;

/// What is known of an HVM context once some first bytes of it were taken. It is a chain of entries (Xen's
/// public/arch-x86/hvm/save.h; libxc migration stream, "HVM_CONTEXT"). Each has a head of 8 bytes with the entry's
/// typecode and length, and its data.
#[derive(Clone, Copy, Debug, PartialEq, Eq)]
pub enum Chain {
    /// Whole entries are before this offset.
    Entry(u64),
    /// The chain ended, or a fault was found.
    Judged(Option<ContextFault>),
}

/// The most bytes of a piece.
const PIECE: u64 = 4096;

/// The bytes of an entry's head.
const HEAD: u64 = 8;

/// What is wrong with the head of the first entry.
fn header_fault(at: u64, typecode: u16, size: u32) -> Option<ContextFault>
    ensures fine { OnNone result ((at ≡ 0 → typecode ≡ 1) × (at ≡ 0 → size ≡ 24)) }
    ensures faulty { IfSome result (λ fault. IsHeaderFault at typecode size fault) }
{
    if at != 0 {
        return None;
    }
    if typecode != 1 {
        return Some(ContextFault::NoHeader);
    }
    if size != 24 {
        return Some(ContextFault::HeaderSize(u64::from(size)));
    }
    None
}

/// What is known behind an entry's head at this offset of a context of so many bytes.
fn behind_head(at: u64, len: u64, typecode: u16, size: u32) -> Chain
    requires head { at + 8 ≤ len }
    ensures says { (bytes : List ℕ) → length bytes ≡ len → ChainTo bytes at → typecode ≡ le16 bytes at → size ≡ le32 bytes (at + 4) → ChainSays result bytes }
    ensures ahead { IsAhead result (at + 8) len }
{
    if let Some(fault) = header_fault(at, typecode, size) {
        return Chain::Judged(Some(fault));
    }
    if typecode == 0 {
        return Chain::Judged(None);
    }
    if len - at - HEAD < u64::from(size) {
        return Chain::Judged(Some(ContextFault::ShortEntry(at)));
    }
    Chain::Entry(at + HEAD + u64::from(size))
}

/// How many bytes the next piece has: a head, or what is before the next one.
pub(crate) fn next_piece(chain: Chain, taken: u64, len: u64) -> u64
    requires { taken < len }
    ensures value { result ≡ chain_piece chain taken len }
    ensures some { 0 < result }
    ensures most { result ≤ 4096 }
    ensures within { taken + result ≤ len }
{
    let left = len - taken;
    match chain {
        Chain::Entry(at) => {
            if at > taken {
                (at - taken).min(left).min(PIECE)
            } else {
                left.min(HEAD)
            }
        }
        Chain::Judged(_) => left.min(PIECE),
    }
}

/// What is known behind the next piece.
pub(crate) fn behind_piece(chain: Chain, taken: u64, len: u64, piece: &[u8]) -> Chain
    requires whole { length piece.now ≡ chain_piece chain taken len }
    requires some { taken < len }
    ensures { (begun : List ℕ) → length begun ≡ taken → IsBegunContext chain len begun → IsBegunContext result len (begun ++ piece.now) }
{
    match chain {
        Chain::Entry(at) => {
            if at == taken && piece.len() == 8 {
                behind_head(at, len, u16_le(piece, 0), u32_le(piece, 4))
            } else {
                chain
            }
        }
        Chain::Judged(_) => chain,
    }
}

/// The first fault of a context that was taken whole.
pub(crate) fn context_fault(chain: Chain, len: u64) -> Option<ContextFault>
    ensures { (body : List ℕ) → length body ≡ len → IsBegunContext chain len body → result ≡ fault_of_scanned (scan body) }
{
    match chain {
        Chain::Entry(at) => {
            if at == len {
                Some(if at == 0 {
                    ContextFault::NoHeader
                } else {
                    ContextFault::NoEnd
                })
            } else {
                Some(ContextFault::ShortEntry(at))
            }
        }
        Chain::Judged(fault) => fault,
    }
}
