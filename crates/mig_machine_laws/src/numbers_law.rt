ghost use Rattle.std.specs.Prelude.{◌≡◌, ◌-◌, ◌^◌, ◌∷◌, [], map};
ghost use Rattle.mig_machine_laws.specs.Common.{Hvm};
ghost use Rattle.mig_machine_laws.specs.WorkedHeaders.{hvm_headers};
ghost use Rattle.mig_canon.specs.Canon.{headers};
ghost use Rattle.mig_guest.specs.History.{one_more};
ghost use Rattle.mig_headers.specs.RecordTypes.{type_number};
ghost use Rattle.mig_machine_script.specs.Scripts.{most_script_bytes};
ghost use Rattle.mig_order.specs.Order.{content_records, static_records, vcpu_records};

/// A canonical stream of an HVM guest begins with these 40 bytes.
#[tactic(auto, using(crate::proofs::WorkedHeaders::hvm))]
pub fn worked_headers()
    ensures { headers Hvm ≡ hvm_headers }
{}

/// The records of content, those of static data and those of a vCPU have these types.
pub fn worked_record_lists()
    ensures content { map type_number content_records ≡ 0 ∷ 1 ∷ 3 ∷ 4 ∷ 5 ∷ 6 ∷ 7 ∷ 9 ∷ 10 ∷ 12 ∷ 13 ∷ [] }
    ensures static_data { map type_number static_records ≡ 2 ∷ 17 ∷ 18 ∷ [] }
    ensures vcpus { map type_number vcpu_records ≡ 4 ∷ 5 ∷ 6 ∷ 12 ∷ [] }
{}

/// A script has at most 16777216 bytes. A number of calls goes up by one, and stays at 2^64 - 1.
pub fn worked_counts()
    ensures script { most_script_bytes ≡ 16777216 }
    ensures calls { (one_more 0 ≡ 1) × (one_more (2 ^ 64 - 2) ≡ 2 ^ 64 - 1) × (one_more (2 ^ 64 - 1) ≡ 2 ^ 64 - 1) }
{}
