ghost use Rattle.std.specs.Prelude.{◌≡◌, ◌-◌, ◌^◌, ◌<◌, ◌≤◌, true, false};
ghost use Rattle.mig_machine.specs.Common.{ran, after, no_history, no_pfns};
ghost use Rattle.mig_machine.specs.MachineSeen.{MachineSeen, calls_of, is_paused, log_of, history_of};
ghost use Rattle.mig_machine.specs.Exact.{IsLaterMachine, IsExactFrom};
ghost use Rattle.mig_machine.specs.Histories.{IsLaterHistory};

/// A machine that is later than one that was asked nothing has the same script. Its host is what the lines run by the
/// calls up to the pause make of the first host. These are all calls, unless it is paused. Where the first has no log
/// and no history either, each log of the later one is exactly what its lines touched since the log before. The later
/// history goes on from the earlier one, and where the later machine alone is paused, the call that paused it ran lines
/// too.
pub fn script_machine_is_at()
    ensures host { (first now : MachineSeen) → calls_of first ≡ 0 → IsLaterMachine first now → now.host ≡ after first.host (ran first.lines now.runs) }
    ensures lines { (first now : MachineSeen) → IsLaterMachine first now → now.lines ≡ first.lines }
    ensures running { (now : MachineSeen) → is_paused now ≡ false → now.runs ≡ calls_of now }
    ensures exact { (first now : MachineSeen) → calls_of first ≡ 0 → log_of first ≡ no_pfns → history_of first ≡ no_history → IsLaterMachine first now → IsExactFrom first.host now }
    ensures counted { (now : MachineSeen) → now.runs ≤ calls_of now }
    ensures history { (first now : MachineSeen) → IsLaterMachine first now → IsLaterHistory (history_of first) (history_of now) }
    ensures pause { (first now : MachineSeen) → is_paused first ≡ false → is_paused now ≡ true → first.runs < 2 ^ 64 - 1 → IsLaterMachine first now → first.runs < now.runs }
{}
