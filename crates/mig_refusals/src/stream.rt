ghost use Rattle.mig_refusals.specs.Common.{AcceptedStream};
ghost use Rattle.mig_libxl_form.specs.Stream.{IsStreamRefused};
ghost use Rattle.mig_refusals.specs.Refusals.{AreAllAcceptedOrRefused, AreJudged, HasOneRefusal, IsNeverBoth};
ghost use Rattle.mig_refusals.specs.Stream.{RefusedStream, StoresAreMerged, WrapperCausesAscend, WrapperTestsSay};

/// Judging refuses an input as a stream of either form for a cause at a place exactly in two cases. It is no libxl
/// stream, and is refused as an image. Or behind a faultless front of a libxl stream a form is refused: that of its
/// header, of a record, or of the image behind the head of LIBXC_CONTEXT. What is left is what follows the faulty part.
#[tactic(auto, using(crate::proofs::StreamVerdicts::agree))]
pub fn stream_refusals_agree()
    ensures { AreJudged RefusedStream IsStreamRefused }
{}

/// An input has at most one refusal as a stream.
#[tactic(auto, using(crate::proofs::StreamVerdicts::one))]
pub fn stream_one_refusal()
    ensures { HasOneRefusal RefusedStream }
{}

/// For every input either a front is an accepted stream, or there is a refusal.
#[tactic(auto, using(crate::proofs::StreamVerdicts::either))]
pub fn stream_accepted_or_refused()
    ensures { AreAllAcceptedOrRefused RefusedStream AcceptedStream }
{}

/// An input with an accepted front has no refusal.
#[tactic(auto, using(crate::proofs::StreamVerdicts::never))]
pub fn stream_never_both()
    ensures { IsNeverBoth RefusedStream AcceptedStream }
{}

/// The tables of causes of a libxl stream are in the order of the causes' numbers: of several causes that stand in a part the
/// least is named.
#[tactic(auto, using(crate::proofs::StreamCauses::ascend))]
pub fn stream_causes_ascend()
    ensures { WrapperCausesAscend }
{}

/// A store becomes as long as what all its pairs come to: their keys in ascending order, each once, with the value of the last
/// pair that has it.
#[tactic(auto, using(crate::proofs::StreamCauses::stores_are_merged))]
pub fn stream_stores_are_merged()
    ensures { StoresAreMerged }
{}

/// What the truth values in the conditions of a record's head say: which lengths a type doesn't allow, and that the image is that
/// of a PV guest.
#[tactic(auto, using(crate::proofs::StreamCauses::tests_say))]
pub fn stream_tests_say()
    ensures { WrapperTestsSay }
{}
