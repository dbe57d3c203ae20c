ghost use Rattle.std.specs.Prelude.{◌≡◌, ℕ, List};
ghost use Rattle.std.specs.FinMap as maps;
ghost use Rattle.mig_libxl_form.specs.Common.{PartKey, last_pair_value};
ghost use Rattle.mig_libxl_form.specs.Content.{LibxlRecord};
ghost use Rattle.mig_libxl_form.specs.Emulators.{emulators_of, last_context, pairs_said, value_in_store};

/// An emulator's context is that of the last record that says one.
#[tactic(auto, using(crate::proofs::EmulatorMeaning::last_context_is))]
pub fn last_context_decides()
    ensures { (records : List LibxlRecord) (key : PartKey) → maps.get (emulators_of records).contexts key ≡ last_context key records }
{}

/// A value in an emulator's store is that of the last pair with its key, whatever record says it.
#[tactic(auto, using(crate::proofs::EmulatorMeaning::last_value_is))]
pub fn last_value_decides()
    ensures { (records : List LibxlRecord) (key : PartKey) (k : List ℕ) → value_in_store (emulators_of records) key k ≡ last_pair_value k (pairs_said key records) }
{}
