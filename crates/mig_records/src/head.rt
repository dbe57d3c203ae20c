ghost use Rattle.std.specs.Prelude.{◌≡◌};
ghost use Rattle.mig_records.specs.Faults.{fault_of_long, fault_of_length};
ghost use Rattle.mig_records.specs.Records.{head_of};

use mig_bytes::{put_u32_le, u32_le};
use mig_headers::{Cause, MOST_BODY, RecordType};

/// The head of a record (libxc migration stream, "Records").
#[derive(Clone, Copy, Debug, PartialEq, Eq)]
pub struct RecordHead {
    /// The number of the record's type, known or not.
    pub kind: u32,
    /// The length of the body, without its padding.
    pub len: u32,
}

impl RecordHead {
    ghost use Rattle.mig_records.specs.Heads.{head_in};

    /// Reads a head: the type in 4 bytes and the body's length in 4, both with the lowest byte first (libxc migration stream,
    /// "Records").
    pub fn decode(bytes: &[u8; 8]) -> RecordHead
        ensures value { result ≡ head_in bytes.now }
    {
        RecordHead {
            kind: u32_le(bytes, 0),
            len: u32_le(bytes, 4),
        }
    }

    /// The head's 8 bytes: type and length, both with the lowest byte first.
    #[tactic(auto, unfolding(crate::specs::Records::head_of))]
    pub fn encode(&self) -> [u8; 8]
        ensures bytes { result ≡ head_of self.now.kind self.now.len }
    {
        let mut bytes = [0; 8];
        put_u32_le(&mut bytes, 0, self.kind);
        put_u32_le(&mut bytes, 4, self.len);
        bytes
    }
}

/// BodyTooLong where the body has more than MOST_BODY bytes.
pub fn long_fault(head: RecordHead) -> Option<Cause>
    ensures fault { result ≡ fault_of_long head.len }
{
    if head.len > MOST_BODY {
        return Some(Cause::BodyTooLong(u64::from(head.len)));
    }
    None
}

/// BadLength where the type is known and its row doesn't allow a body of this length.
pub fn length_fault(head: RecordHead) -> Option<Cause>
    ensures fault { result ≡ fault_of_length head.kind head.len }
{
    let Some(kind) = RecordType::from_number(head.kind) else {
        return None;
    };
    if !kind.allows_length(head.len) {
        return Some(Cause::BadLength(u64::from(head.len)));
    }
    None
}
