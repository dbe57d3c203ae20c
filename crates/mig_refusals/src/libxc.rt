ghost use Rattle.std.specs.Prelude.{ℕ, List};
ghost use Rattle.mig_refusals.specs.Common.{Kind, GuestOf, fault_of_guest, fault_of_page, Accepted, IsRefused};
ghost use Rattle.mig_pvtables.specs.Tables.{fault_of_page_table};
ghost use Rattle.mig_refusals.specs.Refusals.{AreAllAcceptedOrRefused, AreJudged, HasOneRefusal, IsNeverBoth};
ghost use Rattle.mig_refusals.specs.Libxc.{AnswersFirstCause, GuestHas, LibxcCausesStand, PageHas, RefusedLibxc};
ghost use Rattle.mig_refusals.specs.LibxcPv.{TableHas};

/// Judging refuses an input as an image for a cause at a place exactly where a form is refused behind a faultless
/// front. That form is of the marker, of the rest of the image header, of the domain header, or of a record. What is
/// left is what follows the faulty part.
#[tactic(auto, using(crate::proofs::LibxcVerdicts::agree))]
pub fn libxc_refusals_agree()
    ensures { AreJudged RefusedLibxc IsRefused }
{}

/// An input has at most one refusal as an image.
#[tactic(auto, using(crate::proofs::LibxcVerdicts::one))]
pub fn libxc_one_refusal()
    ensures { HasOneRefusal RefusedLibxc }
{}

/// For every input either a front is an accepted image, or there is a refusal.
#[tactic(auto, using(crate::proofs::LibxcVerdicts::either))]
pub fn libxc_accepted_or_refused()
    ensures { AreAllAcceptedOrRefused RefusedLibxc Accepted }
{}

/// An input with an accepted front has no refusal.
#[tactic(auto, using(crate::proofs::LibxcVerdicts::never))]
pub fn libxc_never_both()
    ensures { IsNeverBoth RefusedLibxc Accepted }
{}

/// What is computed of each part of an image is a cause that stands in it in words: that of the least number, at its
/// least place. It is nothing exactly where none stands. Of a page and of a whole guest the next two say it.
#[tactic(auto, using(crate::proofs::LibxcCauses::causes_stand))]
pub fn libxc_causes_stand()
    ensures { LibxcCausesStand }
{}

/// What is answered of a guest at its END, and by `whole` of mig_pvtables, is a cause that stands in the guest: that of
/// the least number, at its least place. There is no answer exactly where none stands.
#[tactic(auto, using(crate::proofs::FirstAnswers::guest_answers))]
pub fn whole_answers_the_least_fault()
    ensures { (guest : GuestOf) → AnswersFirstCause (GuestHas guest) (fault_of_guest guest) }
{}

/// The same of the page behind a word of a PAGE_DATA, in a stream of this kind with frame numbers up to `top`, and of a table
/// of a level by itself, as `check_table` of mig_pvtables answers. `place` is the word's place in its record.
#[tactic(auto, using(crate::proofs::FirstAnswers::page_answers, crate::proofs::FirstAnswers::table_answers))]
pub fn page_answers_the_least_fault()
    ensures page { (kind : Kind) (top place word : ℕ) (page : List ℕ) → AnswersFirstCause (PageHas kind top place word page) (fault_of_page kind top (place, word) page) }
    ensures table { (top place level : ℕ) (page : List ℕ) → AnswersFirstCause (TableHas top place level page) (fault_of_page_table place top level page) }
{}
