ghost use Rattle.std.specs.Prelude.{◌≡◌, ◌⊎◌, ◌↔◌, ◌≤◌, ℕ, List, true};
ghost use Rattle.mig_bytes.specs.Judged.Judged.{Passes, Faulty};
ghost use Rattle.mig_bytes_form.specs.Tests.{Test, HasIn, NamedIn, is_ascending};
ghost use Rattle.mig_bytes_form.specs.Form.{FormOf, ◌>>>◌, judged_as, judged_then, RefusedAs, BeginsAs};

/// Judging passes exactly where a front of the input spells the form.
pub fn passes_spelled<C, X>()
    ensures { (f : FormOf C X) (input : List ℕ) (x : X) (rest : List ℕ) → (judged_as f input ≡ Passes x rest) ↔ BeginsAs f input x rest }
{}

/// Judging refuses exactly where the form is refused in words.
#[tactic(auto, using(crate::proofs::Verdicts::refused_so))]
pub fn refused_so<C, X>()
    ensures { (f : FormOf C X) (input : List ℕ) (c : C) (rest : List ℕ) → (judged_as f input ≡ Faulty c rest) ↔ RefusedAs f input c rest }
{}

/// A front of an input spells a form, or there is a refusal.
pub fn accepted_or_refused<C, X>()
    ensures { (f : FormOf C X) (input : List ℕ) → ((x : X) × (rest : List ℕ) × BeginsAs f input x rest) ⊎ ((c : C) × (rest : List ℕ) × RefusedAs f input c rest) }
{}

/// An input that begins as the form has no refusal.
pub fn never_both<C, X>()
    ensures { (f : FormOf C X) (input : List ℕ) (x : X) (rest : List ℕ) (c : C) (more : List ℕ) → BeginsAs f input x rest → RefusedAs f input c more → ⊥ }
{}

/// An input has at most one refusal.
#[tactic(auto, using(crate::proofs::Verdicts::one_refusal))]
pub fn one_refusal<C, X>()
    ensures { (f : FormOf C X) (input : List ℕ) (c d : C) (rest more : List ℕ) → RefusedAs f input c rest → RefusedAs f input d more → (c ≡ d) × (rest ≡ more) }
{}

/// One form behind another is judged as the first, and then the other.
#[tactic(auto, using(crate::proofs::Joined::then_judged))]
pub fn then_judged<C, X, Y>()
    ensures { (f : FormOf C X) (g : X → FormOf C Y) (input : List ℕ) → judged_as (f >>> g) input ≡ judged_then (judged_as f input) g }
{}

/// In a table in the order of the causes' numbers the cause that is named has the least number of those that stand.
#[tactic(auto, using(crate::proofs::Tests::least_named))]
pub fn named_is_least<C>()
    ensures { (number : C → ℕ) (rows : List (Test × C)) (c d : C) → is_ascending number rows ≡ true → NamedIn rows c → HasIn rows d → number c ≤ number d }
{}
