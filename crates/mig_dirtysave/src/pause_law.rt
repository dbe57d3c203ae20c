ghost use Rattle.std.specs.Prelude.{◌≡◌, ℕ, Bool, true};
ghost use Rattle.std.specs.FinMap as maps;
ghost use Rattle.mig_dirtysave.specs.Common.{Pv, GuestOf, HostOf, view, tables_unsound};
ghost use Rattle.mig_dirtysave.specs.Paused.{HoldsOf, first_in_tables, with_view};

/// The parts of some codes, contexts of vCPUs among them, are held of a host. The guest that holds them gets the parts
/// of these codes of the guest that a PV host is seen as.
pub fn parts_of_codes_are_held()
    ensures held { (h : HostOf) (g : GuestOf) (codes : ℕ → Bool) → codes 4 ≡ true → g.parts ≡ maps.retain_keys h.parts (λ key. codes key.code) → HoldsOf h g }
    ensures seen { (h : HostOf) (g : GuestOf) (codes : ℕ → Bool) → h.kind ≡ Pv → g.parts ≡ maps.retain_keys h.parts (λ key. codes key.code)
        → (with_view h g).parts ≡ maps.retain_keys (view h).parts (λ key. codes key.code) }
{}

/// What the rounds of a save answer of an honest machine's tables is what is found first in the tables of its host, row
/// by row. That is a superpage anywhere; where there is none, an entry that names no frame.
#[tactic(auto, using(crate::proofs::TableRows::rounds_find_rows))]
pub fn rounds_judge_tables()
    ensures { (h : HostOf) → tables_unsound h.frames h.width ≡ first_in_tables h }
{}
