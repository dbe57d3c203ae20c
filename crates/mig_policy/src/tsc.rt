ghost use Rattle.std.specs.Prelude.{◌≡◌, OnOk, OnErr};
ghost use Rattle.mig_policy.specs.Common.{put_parts, Tsc, parts_of_body};

use mig_bytes::Memory;
use mig_guest::{Guest, PartCode};
use mig_records::read_single;

/// Sets the part of the TSC: the first 20 bytes of the body. Where no memory is found, the guest stays.
pub fn read_tsc(guest: &mut Guest, body: &[u8; 24]) -> Result<(), Memory>
    ensures ok { OnOk result (guest.new ≡ record guest.old { parts = put_parts guest.old.parts (parts_of_body Tsc body.now) }) }
    ensures err { OnErr result (guest.new ≡ guest.old) }
{
    read_single(guest, PartCode::Tsc, 20, body)
}
