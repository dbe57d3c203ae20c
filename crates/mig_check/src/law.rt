ghost use Rattle.std.specs.Prelude.{◌≡◌, None};
ghost use Rattle.mig_tool_report.specs.Report.{checked_line, ok_line, uncompared};
ghost use Rattle.mig_tool_report.specs.declared.outcome.Summary.{Summary};

/// Of a stream without a VERIFY, in which there is nothing to compare, the line of a check is that of `mig_tool verify`.
#[tactic(auto, using(crate::proofs::Checking::same_line))]
pub fn checked_as_verified()
    ensures { (s : Summary) → s.differs ≡ None → checked_line (uncompared s) ≡ ok_line s }
{}
