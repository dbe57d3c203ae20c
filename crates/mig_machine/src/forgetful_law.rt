ghost use Rattle.std.specs.Prelude.{◌≡◌, ℕ, false, Contains};
ghost use Rattle.mig_machine.specs.Common.{All};
ghost use Rattle.mig_machine.specs.Forgetful.{ForgetfulSeen, forgetful_state};
ghost use Rattle.mig_machine.specs.MachineSeen.{log_of};

/// A number that a machine forgets is in no log of it; and each other number is in its log exactly where the machine inside has
/// it there.
pub fn forgetful_machine_logs()
    ensures listed { (m : ForgetfulSeen) (p : ℕ) → Contains m.forgets p → (forgetful_state m).log p ≡ false }
    ensures others { (m : ForgetfulSeen) (p : ℕ) → ¬ Contains m.forgets p → (forgetful_state m).log p ≡ log_of m.inner p }
    ensures taken { (m : ForgetfulSeen) (p : ℕ) → Contains m.forgets p → All (λ took. took.log p ≡ false) (forgetful_state m).history.taken }
{}
