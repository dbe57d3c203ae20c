ghost use Rattle.std.specs.Prelude.{◌≡◌, ◌<◌, ◌≤◌, ◌+◌, ◌*◌, ◌^◌, [], List, ℕ, true, false, length, slice_index};
ghost use Rattle.mig_relay.specs.Common.{padding_len, most_body, word_has_data, Opening, before, StreamRecord, FrameEntry};
ghost use Rattle.mig_relay.specs.Keeping.{KeepsHead, KeepsOuter, KeepsWords, IsPages};
ghost use Rattle.mig_relay.specs.Parts.{AtFront, AtWords, AtPages};
ghost use Rattle.mig_relay.specs.Spots.{Outer, InImage};
ghost use Rattle.mig_relay.specs.Steps.{LeavesWords, StepMoved, RisesOnFault};
ghost use Rattle.mig_relay.specs.declared.state.Coming.TheVariants as comes;

use crate::answer::{RelayAnswer, Step};
use crate::state::{Coming, Relay, answer};
use mig_bytes::{Sink, Source, take_long, take_part, u32_le};
use mig_headers::{Cause, Place};
use mig_records::{RecordHead, count_fault};
use mig_restore_form::{list_fault, page_fault, type_in, type_in_guest, words_of};

/// The place of the next word with a page, from this one on, or how many words there are.
fn next_page(words: &[u64], from: usize) -> usize
    requires { from ≤ length words.now }
    ensures within { from ≤ result × result ≤ length words.now }
    ensures data { result < length words.now → word_has_data (slice_index words.now result) ≡ true }
    ensures none { (place : ℕ) → from ≤ place → place < result → word_has_data (slice_index words.now place) ≡ false }
{
    let mut place = from;
    while place < words.len() && !type_in(words[place]).has_data() {
        place += 1;
    }
    place
}

impl Relay {
    /// Passes on the count of a PAGE_DATA's words.
    pub(crate) fn pass_front<S: Source, K: Sink>(
        &mut self,
        src: &mut S,
        sink: &mut K,
        head: RecordHead,
    ) -> Result<Step, RelayAnswer>
        requires count { 0 < self.old.seen.records }
        ensures moved { (outer : Outer) (o : Opening) (records : List StreamRecord) → KeepsOuter self.old outer → KeepsHead self.old o records head (before o records).top → IsPages head
            → StepMoved (InImage outer (AtFront o records head)) [] self.old self.new (S.left src.old) (S.left src.new) (K.written sink.old) (K.written sink.new) result }
        ensures words { LeavesWords result self.old self.new }
        ensures faults { RisesOnFault (S.faults src.old) (S.faults src.new) (K.faults sink.old) (K.faults sink.new) result }
    {
        let place = Place::Record(u64::from(self.seen.records - 1));
        let mut bytes = [0; 8];
        if let Err(stop) = take_part(src, &mut bytes, Cause::Truncated) {
            return Err(answer(stop, place));
        }
        let count = u32_le(&bytes, 0);
        if let Some(cause) = count_fault(head.len, count) {
            return Err(RelayAnswer::Refused(place, cause));
        }
        if let Err(_) = self.put(sink, &bytes) {
            return Err(RelayAnswer::WriteFault);
        }
        self.coming = Coming::Words(head, count);
        Ok(Step::Piece)
    }

    /// Goes on to the next page of the words, from this one on, or behind the record.
    pub(crate) fn turn_to(&mut self, head: RecordHead, from: usize)
        requires { from ≤ length self.old.words.items }
        ensures within { from ≤ self.new.page × self.new.page ≤ length self.old.words.items }
        ensures data { self.new.page < length self.old.words.items → word_has_data (slice_index self.old.words.items self.new.page) ≡ true }
        ensures none { (place : ℕ) → from ≤ place → place < self.new.page → word_has_data (slice_index self.old.words.items place) ≡ false }
        ensures page { self.new.page < length self.old.words.items → self.new ≡ record self.old { page = self.new.page; coming = comes.Page head } }
        ensures over { self.new.page ≡ length self.old.words.items → self.new ≡ record self.old { page = self.new.page; coming = comes.Head } }
    {
        self.page = next_page(&self.words, from);
        self.coming = if self.page < self.words.len() {
            Coming::Page(head)
        } else {
            Coming::Head
        };
    }

    /// Passes on the words of a PAGE_DATA, once they and the length that they ask for are judged, and keeps them.
    pub(crate) fn pass_words<S: Source, K: Sink>(
        &mut self,
        src: &mut S,
        sink: &mut K,
        head: RecordHead,
        count: u32,
    ) -> Result<Step, RelayAnswer>
        requires count { 0 < self.old.seen.records }
        requires small { head.len ≤ most_body }
        requires some { 0 < count }
        requires within { 8 + 8 * count ≤ head.len }
        ensures moved { (outer : Outer) (o : Opening) (records : List StreamRecord) → KeepsOuter self.old outer → KeepsHead self.old o records head (before o records).top → IsPages head
            → StepMoved (InImage outer (AtWords o records head count)) [] self.old self.new (S.left src.old) (S.left src.new) (K.written sink.old) (K.written sink.new) result }
        ensures words { LeavesWords result self.old self.new }
        ensures faults { RisesOnFault (S.faults src.old) (S.faults src.new) (K.faults sink.old) (K.faults sink.new) result }
    {
        let place = Place::Record(u64::from(self.seen.records - 1));
        let spelled = match take_long(self.alloc, src, 8 * count, Cause::Truncated) {
            Ok(bytes) => bytes,
            Err(stop) => return Err(answer(stop, place)),
        };
        let words = match words_of(self.alloc, &spelled, count as usize) {
            Ok(words) => words,
            Err(_) => return Err(RelayAnswer::Memory),
        };
        if let Some(cause) = list_fault(self.seen.kind, self.top, head.len, &words) {
            return Err(RelayAnswer::Refused(place, cause));
        }
        if let Err(_) = self.put(sink, &spelled) {
            return Err(RelayAnswer::WriteFault);
        }
        self.words = words;
        self.turn_to(head, 0);
        Ok(Step::Words)
    }

    /// Passes on the next page; a table of a PV guest is judged before it is written.
    pub(crate) fn pass_page<S: Source, K: Sink>(
        &mut self,
        src: &mut S,
        sink: &mut K,
        head: RecordHead,
    ) -> Result<Step, RelayAnswer>
        requires count { 0 < self.old.seen.records }
        requires some { self.old.page < length self.old.words.items }
        requires few { length self.old.words.items ≤ 2 ^ 24 }
        ensures moved { (outer : Outer) (o : Opening) (records : List StreamRecord) (coming : List (ℕ × ℕ)) (stood : List FrameEntry) → KeepsOuter self.old outer → KeepsHead self.old o records head (before o records).top → IsPages head → padding_len head.len ≡ 0 → KeepsWords self.old coming stood
            → StepMoved (InImage outer (AtPages o records head coming stood)) [] self.old self.new (S.left src.old) (S.left src.new) (K.written sink.old) (K.written sink.new) result }
        ensures words { LeavesWords result self.old self.new }
        ensures faults { RisesOnFault (S.faults src.old) (S.faults src.new) (K.faults sink.old) (K.faults sink.new) result }
    {
        let place = Place::Record(u64::from(self.seen.records - 1));
        let kind = type_in_guest(self.seen.kind, type_in(self.words[self.page]));
        let mut page = [0; 4096];
        if let Err(stop) = take_part(src, &mut page, Cause::Truncated) {
            return Err(answer(stop, place));
        }
        if let Some(cause) = page_fault(kind, &page, self.page as u32, self.top) {
            return Err(RelayAnswer::Refused(place, cause));
        }
        if let Err(_) = self.put(sink, &page) {
            return Err(RelayAnswer::WriteFault);
        }
        self.turn_to(head, self.page + 1);
        Ok(Step::Piece)
    }
}
