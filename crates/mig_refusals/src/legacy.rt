ghost use Rattle.mig_refusals.specs.Common.{AcceptedLegacy};
ghost use Rattle.mig_legacy.specs.Stream.{IsLegacyRefused};
ghost use Rattle.mig_refusals.specs.Refusals.{AreAllAcceptedOrRefused, AreJudged, HasOneRefusal, IsNeverBoth};
ghost use Rattle.mig_refusals.specs.LegacyTables.{LegacyTablesSay};
ghost use Rattle.mig_refusals.specs.Legacy.{ComputedCausesStand, LegacyCausesAscend, LegacyTestsSay, RefusedLegacy};

/// Judging refuses an input as a legacy stream for a cause at a place exactly where a form that is refused follows a
/// faultless front, as a legacy stream spells it. That form is of the start, of a chunk, of the tail, or of a device
/// model's record. What is left is what follows the faulty part.
#[tactic(auto, using(crate::proofs::LegacyVerdicts::agree))]
pub fn legacy_refusals_agree()
    ensures { AreJudged RefusedLegacy IsLegacyRefused }
{}

/// An input has at most one refusal as a legacy stream.
#[tactic(auto, using(crate::proofs::LegacyVerdicts::one))]
pub fn legacy_one_refusal()
    ensures { HasOneRefusal RefusedLegacy }
{}

/// For every input either a front is an accepted legacy stream, or there is a refusal.
#[tactic(auto, using(crate::proofs::LegacyVerdicts::either))]
pub fn legacy_accepted_or_refused()
    ensures { AreAllAcceptedOrRefused RefusedLegacy AcceptedLegacy }
{}

/// An input with an accepted front has no refusal.
#[tactic(auto, using(crate::proofs::LegacyVerdicts::never))]
pub fn legacy_never_both()
    ensures { IsNeverBoth RefusedLegacy AcceptedLegacy }
{}

/// The tables of causes are in the order of the causes' numbers: of several causes that stand in a part the least is named.
#[tactic(auto, using(crate::proofs::LegacyCauses::ascend))]
pub fn legacy_causes_ascend()
    ensures { LegacyCausesAscend }
{}

/// A cause that is computed stands in words. Of the words of a batch it is that of the least number, and of one cause
/// its least word. Of the data of a toolstack it is the first wrong field; of a context the first wrong entry.
#[tactic(auto, using(crate::proofs::LegacyCauses::computed_stand))]
pub fn legacy_computed_causes_stand()
    ensures { ComputedCausesStand }
{}

/// What else is computed in conditions: that one of two values is told and the other isn't, how many frames the chunks leave, and
/// that bytes are the signature.
#[tactic(auto, using(crate::proofs::LegacyCauses::tests_say))]
pub fn legacy_tests_say()
    ensures { LegacyTestsSay }
{}

/// The tables of causes say what the format says of a start, a chunk's type and place, a greatest vCPU id, a length,
/// the data of a toolstack and a signature. Some condition that holds has a cause exactly where the cause stands in
/// words.
#[tactic(auto, using(crate::proofs::LegacyTables::tables_say))]
pub fn legacy_tables_say()
    ensures { LegacyTablesSay }
{}
