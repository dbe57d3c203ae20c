ghost use Rattle.std.specs.Prelude.{◌≡◌, ◌≢◌, [], None, IsOk, OnOk};
ghost use Rattle.std.specs.List.{AllByRecursion};
ghost use Rattle.std.specs.FinMap as maps;
ghost use Rattle.mig_guest.specs.Parts.{put_parts};
ghost use Rattle.mig_guest.specs.declared.part_key.PartKey.{PartKey};
ghost use Rattle.mig_guest.specs.declared.part_code.PartCode.TheVariants.{HvmParam};
ghost use Rattle.mig_records.specs.Layouts.{IsSmallKey};
ghost use Rattle.mig_records.specs.Shapes.{fault_of_body, parts_of_body};

use mig_bytes::Memory;
use mig_guest::{Guest, PartCode};
use mig_headers::Cause;
use mig_records::{body_fault, read_body};

/// What is wrong with the body of an HVM_PARAMS record: `BadLength` where its count asks for another length, else
/// `ParamIndex` of the first index of 4096 or more.
pub fn params_fault(body: &[u8]) -> Option<Cause>
    ensures fault { result ≡ fault_of_body HvmParam body.now }
{
    body_fault(PartCode::HvmParam, body)
}

/// Sets the parts of the parameters in a body without fault; of each index the last value decides. Where no memory is
/// found, some parameters may be set.
pub fn read_params(guest: &mut Guest, body: &[u8]) -> Result<(), Memory>
    requires faultless { fault_of_body HvmParam body.now ≡ None }
    ensures ok { OnOk result (guest.new ≡ record guest.old { parts = put_parts guest.old.parts (parts_of_body HvmParam body.now) }) }
    ensures small { AllByRecursion (λ p. IsSmallKey p.0) (parts_of_body HvmParam body.now) }
    ensures others { (key : PartKey) → key.code ≢ 10 → maps.get guest.new.parts key ≡ maps.get guest.old.parts key }
    ensures frames { guest.new ≡ record guest.old { parts = guest.new.parts } }

    // A body of no pairs asks for no memory.
    ensures empty { parts_of_body HvmParam body.now ≡ [] → IsOk result }
{
    read_body(guest, PartCode::HvmParam, body)
}
