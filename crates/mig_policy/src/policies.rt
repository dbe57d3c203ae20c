ghost use Rattle.std.specs.Prelude.{◌≡◌, ◌≢◌, ◌%◌, length, IsOk, OnOk};
ghost use Rattle.mig_policy.specs.Common.{AllByRecursion, replace_code, PartKey, CpuidLeaf, Msr, parts_of_body};
ghost use Rattle.std.specs.FinMap as maps;
ghost use Rattle.mig_records.specs.Layouts.{IsSmallKey};

use mig_bytes::Memory;
use mig_guest::{Guest, PartCode};
use mig_records::read_body;

/// Sets the parts of a CPUID policy in place of all earlier ones; of each leaf and subleaf the last entry decides. An
/// empty body changes nothing. Where no memory is found, some of these parts may be set or gone.
#[tactic(auto, using(mig_records::proofs::Rows::whole_leaves))]
pub fn read_cpuid(guest: &mut Guest, body: &[u8]) -> Result<(), Memory>
    requires { length body.now % 24 ≡ 0 }
    ensures ok { OnOk result (guest.new ≡ record guest.old { parts = replace_code 17 guest.old.parts (parts_of_body CpuidLeaf body.now) }) }
    ensures small { AllByRecursion (λ p. IsSmallKey p.0) (parts_of_body CpuidLeaf body.now) }
    ensures others { (key : PartKey) → key.code ≢ 17 → maps.get guest.new.parts key ≡ maps.get guest.old.parts key }
    ensures frames { guest.new ≡ record guest.old { parts = guest.new.parts } }

    // An empty body asks for no memory.
    ensures empty { length body.now ≡ 0 → IsOk result }
{
    read_body(guest, PartCode::CpuidLeaf, body)
}

/// Sets the parts of an MSR policy in place of all earlier ones; of each index the last entry decides. An empty body
/// changes nothing. Where no memory is found, some of these parts may be set or gone.
#[tactic(auto, using(mig_records::proofs::Rows::whole_msrs))]
pub fn read_msr(guest: &mut Guest, body: &[u8]) -> Result<(), Memory>
    requires { length body.now % 16 ≡ 0 }
    ensures ok { OnOk result (guest.new ≡ record guest.old { parts = replace_code 18 guest.old.parts (parts_of_body Msr body.now) }) }
    ensures small { AllByRecursion (λ p. IsSmallKey p.0) (parts_of_body Msr body.now) }
    ensures others { (key : PartKey) → key.code ≢ 18 → maps.get guest.new.parts key ≡ maps.get guest.old.parts key }
    ensures frames { guest.new ≡ record guest.old { parts = guest.new.parts } }

    // An empty body asks for no memory.
    ensures empty { length body.now ≡ 0 → IsOk result }
{
    read_body(guest, PartCode::Msr, body)
}
