ghost use Rattle.std.specs.Prelude.{◌≡◌, ◌<◌, ◌≤◌, ◌^◌, true, false, None, Some, [], List, ℕ, length, Ok};
ghost use Rattle.mig_bytes.specs.Faults.{RisesOnReadFault};
ghost use Rattle.mig_relay.specs.Common.{padding_len, Opening, before, StreamRecord, FrameEntry, StreamOf};
ghost use Rattle.mig_relay.specs.Keeping.{Keeps, KeepsHead, KeepsOuter, KeepsWords, IsPages, Stands};
ghost use Rattle.mig_relay.specs.Looking.{TakesUnseenPage};
ghost use Rattle.mig_relay.specs.Parts.{AtPages};
ghost use Rattle.mig_relay.specs.Spots.{Spot, Outer, InImage, begins_with_ident};
ghost use Rattle.mig_relay.specs.Standing.{StandsForBytes, StepSays, is_over, is_at_end, is_at_start, goes_on, IsNotRefused};
ghost use Rattle.mig_relay.specs.Steps.{LeavesWords, StepMoved, RisesOnFault};
ghost use Rattle.mig_relay.specs.Streams.{IsPassable};
ghost use Rattle.mig_relay.specs.declared.answer.Step.TheVariants.{Done};

use crate::answer::{RelayAnswer, Step};
use crate::nowhere::Nowhere;
use crate::state::{Coming, Relay, answer};
use mig_bytes::{Failed, Source, Stop};
use mig_headers::{Cause, Place};
use mig_records::RecordHead;
use mig_restore_form::{type_in, type_in_guest};

/// How many bytes a page has.
const PAGE: usize = 4096;

/// Takes a page, and no byte more. A source that needn't read it doesn't.
fn take_unseen_page<S: Source>(src: &mut S) -> Result<(), Stop<Cause>>
    ensures page { TakesUnseenPage (S.left src.old) (S.left src.new) result }
    ensures faults { RisesOnReadFault (S.faults src.old) (S.faults src.new) result }
{
    let mut left = PAGE;
    while left > 0 {
        match src.pass(left) {
            Ok(0) => return Err(Stop::Refused(Cause::Truncated)),
            Ok(count) => left -= count,
            Err(Failed) => return Err(Stop::ReadFault),
        }
    }
    Ok(())
}

impl Relay {
    /// Takes the next page as `pass_page` does, and writes it nowhere; it looks at a table of a PV guest alone.
    fn look_at_page<S: Source>(
        &mut self,
        src: &mut S,
        head: RecordHead,
    ) -> Result<Step, RelayAnswer>
        requires count { 0 < self.old.seen.records }
        requires some { self.old.page < length self.old.words.items }
        requires few { length self.old.words.items ≤ 2 ^ 24 }
        ensures moved { (outer : Outer) (o : Opening) (records : List StreamRecord) (coming : List (ℕ × ℕ)) (stood : List FrameEntry) → KeepsOuter self.old outer → KeepsHead self.old o records head (before o records).top → IsPages head → padding_len head.len ≡ 0 → KeepsWords self.old coming stood
            → StepMoved (InImage outer (AtPages o records head coming stood)) [] self.old self.new (S.left src.old) (S.left src.new) None None result }
        ensures words { LeavesWords result self.old self.new }
        ensures faults { RisesOnFault (S.faults src.old) (S.faults src.new) 0 0 result }
    {
        let kind = type_in_guest(self.seen.kind, type_in(self.words[self.page]));
        if kind.table_level().is_some() {
            return self.pass_page(src, &mut Nowhere, head);
        }
        let place = Place::Record(u64::from(self.seen.records - 1));
        match take_unseen_page(src) {
            Ok(()) => {
                self.passed = self.passed.saturating_add(PAGE as u64);
                self.turn_to(head, self.page + 1);
                Ok(Step::Piece)
            }
            Err(stop) => Err(answer(stop, place)),
        }
    }

    /// Takes the next part, or a piece of it, as `pass_part` does, and writes it nowhere.
    fn look_at_part<S: Source>(&mut self, src: &mut S) -> Result<Step, RelayAnswer>
        requires { Stands self.old }
        ensures moved { (here : Spot) (begun : List ℕ) → Keeps self.old here begun → StepMoved here begun self.old self.new (S.left src.old) (S.left src.new) None None result }
        ensures ident { (left : List ℕ) → is_at_start self.old.coming ≡ true → S.left src.old ≡ Some left → begins_with_ident left ≡ true → IsNotRefused result }
        ensures over { is_at_end self.old.coming ≡ true → result ≡ Ok Done }
        ensures stays { is_at_end self.old.coming ≡ true → self.new ≡ self.old }
        ensures words { LeavesWords result self.old self.new }
        ensures faults { RisesOnFault (S.faults src.old) (S.faults src.new) 0 0 result }
    {
        match self.coming {
            Coming::Page(head) => self.look_at_page(src, head),
            _ => self.pass_part(src, &mut Nowhere),
        }
    }

    /// Takes the next part, or a piece of it, as `step` does, and writes it nowhere. A page that no judgement asks for is
    /// passed over: a source that needn't read it doesn't.
    pub fn look<S: Source>(&mut self, src: &mut S) -> Result<Step, RelayAnswer>
        requires { Stands self.old }
        ensures says { (bytes : List ℕ) (stands : StandsForBytes self.old bytes) → StepSays stands.here stands.begun bytes self.old self.new (S.left src.old) (S.left src.new) None None result }
        ensures done { (bytes : List ℕ) (s : StreamOf) → StandsForBytes self.old bytes → IsPassable bytes s → result ≡ Ok Done }
        ensures ident { (left : List ℕ) → is_at_start self.old.coming ≡ true → S.left src.old ≡ Some left → begins_with_ident left ≡ true → IsNotRefused result }
        ensures stands { goes_on result ≡ true → Stands self.new }
        ensures over { goes_on result ≡ false → is_over self.new ≡ true }
        ensures words { LeavesWords result self.old self.new }
        ensures faults { RisesOnFault (S.faults src.old) (S.faults src.new) 0 0 result }
    {
        let result = self.look_at_part(src);
        self.end_behind(result);
        result
    }
}
