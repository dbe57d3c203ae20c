ghost use Rattle.std.specs.Prelude.{◌≡◌, ◌≤◌, ◌⊎◌, ◌+◌, ◌∷◌, ◌++◌, ℕ, List, [], false};
ghost use Rattle.mig_machine_script.specs.Common.{HostOf, IsValid, footprint, Pfns};
ghost use Rattle.mig_guest.specs.MachineStates.{IsSameShape};
ghost use Rattle.mig_machine_script.specs.ScriptLines.{LineOf};
ghost use Rattle.mig_machine_script.specs.ScriptLines.LineOf.{Dot};
ghost use Rattle.mig_machine_script.specs.Groups.{ran, dots_in};
ghost use Rattle.mig_machine_script.specs.HostLines.{after, logged_after};

/// Lines change no more of a host's footprints than they put into the log. What was in the log stays there. They log
/// frame numbers below the width alone. Kind, width, keys and lengths of parts, and the bytes of fixed parts, stay.
pub fn lines_log_what_they_change()
    ensures changed { (h : HostOf) (lines : List LineOf) (log : Pfns) (pfn : ℕ) → IsValid h → logged_after h lines log pfn ≡ false → footprint (after h lines).frames pfn ≡ footprint h.frames pfn }
    ensures kept { (h : HostOf) (lines : List LineOf) (log : Pfns) (pfn : ℕ) → IsValid h → logged_after h lines log pfn ≡ false → log pfn ≡ false }
    ensures inside { (h : HostOf) (lines : List LineOf) (log : Pfns) → IsValid h → ((pfn : ℕ) → h.width ≤ pfn → log pfn ≡ false) → (pfn : ℕ) → h.width ≤ pfn → logged_after h lines log pfn ≡ false }
    ensures shape { (h : HostOf) (lines : List LineOf) → IsValid h → IsSameShape h (after h lines) }
{}

/// The lines before a dot, counting dots from 1: so many dots but one are among them and one follows, or they are all lines,
/// and these have fewer dots.
pub fn ran_laws()
    ensures none { (lines : List LineOf) → ran lines 0 ≡ [] }
    ensures before { (lines : List LineOf) (c : ℕ) → ((rest : List LineOf) × (lines ≡ ran lines (c + 1) ++ Dot ∷ rest) × (dots_in (ran lines (c + 1)) ≡ c)) ⊎ ((lines ≡ ran lines (c + 1)) × (dots_in lines ≤ c)) }
{}
