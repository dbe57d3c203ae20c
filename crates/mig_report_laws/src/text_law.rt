ghost use Rattle.std.specs.Prelude.{◌≡◌, ◌<◌, ◌≤◌, ◌^◌, ℕ, List, [], ◌∷◌, codes, decimal};
ghost use Rattle.mig_report_laws.specs.Common.{exit_code, refusal_place, text_of_cause, text_of_image_cause, text_of_legacy_cause, text_of_unsound, text_of_walk_end};
ghost use Rattle.mig_report_laws.specs.CauseTexts.{cause_texts, image_cause_texts, legacy_cause_texts, unsound_texts, walk_end_texts};
ghost use Rattle.mig_report_laws.specs.OtherTexts.{exit_codes, place_texts, record_names, name_of_type};
ghost use Rattle.mig_report_laws.specs.Rows.{Answers};
ghost use Rattle.mig_tool_report.specs.Words.{Names};
ghost use Rattle.mig_tool_report.specs.declared.command.Command.TheVariants.{Exercise};

/// Each cause of a stream is printed with this number, this name and these arguments.
#[tactic(auto, using(crate::proofs::Texts::causes))]
pub fn worked_cause_texts()
    ensures { Answers text_of_cause cause_texts }
{}

/// Each cause of a legacy stream is printed so.
#[tactic(auto, using(crate::proofs::Texts::legacy_causes))]
pub fn worked_legacy_cause_texts()
    ensures { Answers text_of_legacy_cause legacy_cause_texts }
{}

/// Each cause of a guest image is printed so.
#[tactic(auto, using(crate::proofs::Texts::image_causes))]
pub fn worked_image_cause_texts()
    ensures { Answers text_of_image_cause image_cause_texts }
{}

/// Each cause for which a host can't be seen as a guest is printed so.
#[tactic(auto, using(crate::proofs::Texts::unsounds))]
pub fn worked_unsound_texts()
    ensures { Answers text_of_unsound unsound_texts }
{}

/// Each reason for which an address means no frame is printed so.
#[tactic(auto, using(crate::proofs::Texts::walk_ends))]
pub fn worked_walk_end_texts()
    ensures { Answers text_of_walk_end walk_end_texts }
{}

/// Each place of a refusal is printed so.
#[tactic(auto, using(crate::proofs::Texts::places))]
pub fn worked_place_texts()
    ensures { Answers refusal_place place_texts }
{}

/// `show` gives each type of record this name, in a bare image and in the wrapper of libxl.
#[tactic(auto, using(crate::proofs::Texts::names))]
pub fn worked_record_names()
    ensures { Answers name_of_type record_names }
{}

/// Each status ends the program with this exit code.
pub fn worked_exit_codes()
    ensures { Answers exit_code exit_codes }
{}

/// `exercise` takes a seed of 64 bits and from 8 to 65536 frames, both in decimal digits, and no other words name it.
pub fn worked_exercise_words()
    ensures taken { (seed frames : ℕ) → seed < 2 ^ 64 → 8 ≤ frames → frames ≤ 65536 → Names (codes "exercise" ∷ decimal seed ∷ decimal frames ∷ []) (Exercise seed frames) }
    ensures alone { (words : List (List ℕ)) (seed frames : ℕ) → Names words (Exercise seed frames) → (words ≡ codes "exercise" ∷ decimal seed ∷ decimal frames ∷ []) × (seed < 2 ^ 64) × (8 ≤ frames) × (frames ≤ 65536) }
{}
