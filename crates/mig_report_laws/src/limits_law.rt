ghost use Rattle.std.specs.Prelude.{◌≡◌};
ghost use Rattle.mig_guest.specs.Hosts.{most_saved_width};
ghost use Rattle.mig_guest.specs.Limits.{most_gdt_entries, most_pairs};
ghost use Rattle.mig_headers.specs.RecordTypes.{most_body, most_policy_entries, vcpu_limit};
ghost use Rattle.mig_legacy.specs.LegacyForm.{most_chunks};
ghost use Rattle.mig_pagetypes.specs.Limits.{machine_limit, most_frames, pfn_limit, top_limit};
ghost use Rattle.mig_restore_form.specs.Judging.{most_records};
ghost use Rattle.mig_tool_report.specs.Words.{least_exercise_frames, most_exercise_frames};

/// Each limit is this number.
pub fn worked_limits()
    ensures body { most_body ≡ 134217728 }
    ensures policy { most_policy_entries ≡ 65536 }
    ensures vcpus { vcpu_limit ≡ 4096 }
    ensures descriptors { most_gdt_entries ≡ 7168 }
    ensures pairs { most_pairs ≡ 16777216 }
    ensures records { most_records ≡ 268435456 }
    ensures chunks { most_chunks ≡ 268435456 }
    ensures frames { most_frames ≡ 16777216 }
    ensures pfns { pfn_limit ≡ 4503599627370496 }
    ensures top { top_limit ≡ 4294967296 }
    ensures machine { machine_limit ≡ 1099511627776 }
    ensures width { most_saved_width ≡ 268435456 }
    ensures exercise { (least_exercise_frames ≡ 8) × (most_exercise_frames ≡ 65536) }
{}
