ghost use Rattle.std.specs.Prelude.{◌≡◌, ◌+◌, ◌≤◌, ℕ, List, length, true};
ghost use Rattle.mig_headers.specs.declared.kind.Kind.TheVariants.{Hvm};
ghost use Rattle.mig_machine.specs.Common.{HostOf, most_saved_width, LineOf, Rounds, Tight, all_read};
ghost use Rattle.mig_machine.specs.MachineSeen.{MachineSeen, is_paused, history_of};
ghost use Rattle.mig_machine.specs.Exact.{IsExactFrom};
ghost use Rattle.mig_machine.specs.Paced.{Paced, HasPaces, pfns_paced};

/// The rounds of a save of a machine that runs a script are those that the script tells: the paces are the calls that were made
/// and the logs that were taken. In a tight history what was read is what the paces name, in that order. However a save is
/// paced, so many frame numbers are named, beside those of the first round.
pub fn rounds_are_paced()
    ensures paced { (h : HostOf) (m : MachineSeen) → IsExactFrom h m → is_paused m ≡ true → h.width ≤ most_saved_width → (r : Rounds h.kind h.width (history_of m)) → HasPaces h m r }
    ensures order { (h : HostOf) (m : MachineSeen) (t : Tight h.kind h.width (history_of m)) → (p : HasPaces h m t.rounds) → all_read h.width (history_of m) ≡ pfns_paced p.paced }
    ensures counted { (h : HostOf) (lines : List LineOf) (n c e : ℕ) → (p : Paced h lines n c e) → length (pfns_paced p) ≡ e + h.width }
    ensures fixed { (h : HostOf) (lines : List LineOf) (n c e m d f : ℕ) → h.kind ≡ Hvm → (p : Paced h lines n c e) → (q : Paced h lines m d f) → (n ≡ m) × (c ≡ d) × (e ≡ f) }
{}
