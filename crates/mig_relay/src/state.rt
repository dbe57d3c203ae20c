ghost use Rattle.std.specs.Prelude.{true, false, ◌≡◌, ◌*◌, ◌+◌, ◌-◌, ◌^◌, min, [], List, ℕ, length, is_ok, is_some, Some, if◌then◌else◌, Ok};
ghost use Rattle.mig_relay.specs.Common.{Puts, FaultHasCause, StreamOf};
ghost use Rattle.mig_relay.specs.Streams.{IsPassable};
ghost use Rattle.mig_relay.specs.Following.{in_hand};
ghost use Rattle.mig_relay.specs.Keeping.{Keeps, Stands, words_in_hand};
ghost use Rattle.mig_relay.specs.Spots.{Spot, AtStart, begins_with_ident};
ghost use Rattle.mig_relay.specs.Standing.{StandsForBytes, StepSays, is_over, is_at_end, is_at_start, is_within, behind_step, goes_on, IsNotRefused};
ghost use Rattle.mig_relay.specs.Steps.{LeavesWords, StepMoved, RisesOnFault, answer_of, counted};
ghost use Rattle.mig_relay.specs.Waiting.{may_wait};
ghost use Rattle.mig_relay.specs.declared.answer.Step.TheVariants.{Done};

use crate::answer::{RelayAnswer, Relayed, Step};
use mig_bytes::{Sink, Source, Stop, WriteFailed, put_all};
use mig_headers::{Cause, Kind, Place};
use mig_libxl_form::RecordsBehind;
use mig_records::RecordHead;
use mig_relay_bodies::BodySeen;
use mig_restore_form::RecordsSeen;
use std::alloc::Global;

/// Which part comes next.
#[derive(Clone, Copy, Debug, PartialEq, Eq)]
pub(crate) enum Coming {
    Start,
    LibxlHeader,
    LibxlHead,
    LibxlBody(RecordHead),
    LibxlPadding(RecordHead),
    Marker,
    Version,
    Kind(u32),
    Head,
    Body(RecordHead),
    Front(RecordHead),
    /// So many words of a PAGE_DATA.
    Words(RecordHead, u32),
    Page(RecordHead),
    Padding(RecordHead),
    /// Nothing: the stream is over.
    End,
    /// A step has answered Done or an error.
    Over,
}

/// The bytes that a relay holds beside the words in hand, at most: its own fields.
const OWN: u64 = 512;

/// How many judged bytes may wait in front of any part.
const WAITING: usize = 512;

/// Passes a stream on, part by part, and keeps no pages.
#[derive(Drop)]
pub struct Relay {
    pub(crate) alloc: Global,
    pub(crate) coming: Coming,
    /// What is known of the records of a libxl stream; nothing where an image is alone.
    pub(crate) wrapper: Option<RecordsBehind>,
    /// What is known of the image's records.
    pub(crate) seen: RecordsSeen,
    /// The greatest frame number of a PV guest so far.
    pub(crate) top: u64,
    /// What is known of the body in hand.
    pub(crate) body: BodySeen,
    /// The words of the PAGE_DATA in hand.
    pub(crate) words: Vec<u64>,
    /// Which of them has the next page.
    pub(crate) page: usize,
    /// How many bytes were passed on.
    pub(crate) passed: u64,
}

/// The answer for what stopped the reading of a part at this place.
pub(crate) fn answer(stop: Stop<Cause>, place: Place) -> RelayAnswer
    ensures { result ≡ answer_of place stop }
{
    match stop {
        Stop::Refused(cause) => RelayAnswer::Refused(place, cause),
        Stop::ReadFault => RelayAnswer::ReadFault,
        Stop::Memory => RelayAnswer::Memory,
    }
}

/// Whether what comes next is a part of a record behind its head.
fn is_within(coming: Coming) -> bool
    ensures { result ≡ is_within coming }
{
    match coming {
        Coming::LibxlBody(_)
        | Coming::LibxlPadding(_)
        | Coming::Body(_)
        | Coming::Front(_)
        | Coming::Words(_, _)
        | Coming::Page(_)
        | Coming::Padding(_) => true,
        _ => false,
    }
}

/// Whether a step leaves a relay that goes on.
pub(crate) fn goes_on(step: Result<Step, RelayAnswer>) -> bool
    ensures { result ≡ goes_on step }
{
    match step {
        Ok(step) => step != Step::Done,
        Err(_) => false,
    }
}

impl Relay {
    /// Nothing was taken yet. No memory is taken.
    pub fn new(alloc: Global) -> Relay
        ensures keeps { Keeps result AtStart [] }
        ensures empty { StandsForBytes result [] }
        ensures stands { Stands result }
        ensures words { words_in_hand result ≡ [] }
    {
        Relay {
            alloc,
            coming: Coming::Start,
            wrapper: None,
            seen: RecordsSeen::new(0, Kind::Hvm),
            top: 0,
            body: BodySeen::of_record(0, 0),
            words: Vec::new(alloc),
            page: 0,
            passed: 0,
        }
    }

    /// Whether a step has answered Done or an error.
    pub fn is_over(&self) -> bool
        ensures over { result ≡ is_over self.now }
        ensures stands { Stands self.now → result ≡ false }
    {
        self.coming == Coming::Over
    }

    /// The words of the PAGE_DATA in hand, from the step that answers Words to the next Head.
    pub fn words(&self) -> &[u64]
        ensures { result.now ≡ words_in_hand self.now }
    {
        self.words.as_slice()
    }

    /// How many bytes the relay holds, at most: 8 for each word in hand, and 512 of its own. While a step runs, it also
    /// holds the piece that it passes on.
    pub fn kept(&self) -> u64
        ensures { result ≡ min (8 * length (words_in_hand self.now) + 512) (2 ^ 64 - 1) }
    {
        let words = (self.words.len() as u64).saturating_mul(8);
        words.saturating_add(OWN)
    }

    /// How many judged bytes may wait while the next part is taken: 8 for each word of a PAGE_DATA whose page comes, and 512.
    pub(crate) fn may_wait(&self) -> usize
        ensures { result ≡ min (may_wait self.now.coming (length self.now.words.items)) (2 ^ 64 - 1) }
    {
        match self.coming {
            Coming::Page(_) => self.words.len().saturating_mul(8).saturating_add(WAITING),
            _ => WAITING,
        }
    }

    /// Whether some bytes of a record whose head was passed on are still to come.
    pub fn is_in_record(&self) -> bool
        ensures { (here : Spot) (begun : List ℕ) → Keeps self.now here begun → result ≡ is_some (in_hand here) }
    {
        is_within(self.coming)
    }

    /// Whether the stream is over: the next step answers Done.
    pub(crate) fn is_at_end(&self) -> bool
        ensures { result ≡ is_at_end self.now.coming }
    {
        self.coming == Coming::End
    }

    /// How many records the image has, and how many bytes were written.
    pub(crate) fn relayed(&self) -> Relayed
        ensures records { result.records ≡ self.now.seen.records }
        ensures bytes { result.bytes ≡ self.now.passed }
    {
        Relayed {
            records: self.seen.records,
            bytes: self.passed,
        }
    }

    /// Writes a piece, and counts its bytes.
    pub(crate) fn put<K: Sink>(&mut self, sink: &mut K, piece: &[u8]) -> Result<(), WriteFailed>
        ensures bytes { Puts piece.now (K.written sink.old) (K.written sink.new) result }
        ensures cause { FaultHasCause (K.faults sink.old) (K.faults sink.new) result }
        ensures kept { self.new ≡ record self.old { passed = if is_ok result then counted self.old.passed (length piece.now) else self.old.passed } }
    {
        put_all(sink, piece)?;
        self.passed = self.passed.saturating_add(piece.len() as u64);
        Ok(())
    }

    /// Takes the next part, or a piece of it, and writes it.
    pub(crate) fn pass_part<S: Source, K: Sink>(
        &mut self,
        src: &mut S,
        sink: &mut K,
    ) -> Result<Step, RelayAnswer>
        requires { Stands self.old }
        ensures moved { (here : Spot) (begun : List ℕ) → Keeps self.old here begun → StepMoved here begun self.old self.new (S.left src.old) (S.left src.new) (K.written sink.old) (K.written sink.new) result }
        ensures ident { (left : List ℕ) → is_at_start self.old.coming ≡ true → S.left src.old ≡ Some left → begins_with_ident left ≡ true → IsNotRefused result }
        ensures over { is_at_end self.old.coming ≡ true → result ≡ Ok Done }
        ensures stays { is_at_end self.old.coming ≡ true → self.new ≡ self.old }
        ensures words { LeavesWords result self.old self.new }
        ensures faults { RisesOnFault (S.faults src.old) (S.faults src.new) (K.faults sink.old) (K.faults sink.new) result }
    {
        match self.coming {
            Coming::Start => self.pass_start(src, sink),
            Coming::LibxlHeader => self.pass_libxl_header(src, sink),
            Coming::LibxlHead => self.pass_libxl_head(src, sink),
            Coming::LibxlBody(head) => self.pass_libxl_body(src, sink, head),
            Coming::LibxlPadding(head) => self.pass_libxl_padding(src, sink, head),
            Coming::Marker => self.pass_marker(src, sink),
            Coming::Version => self.pass_version(src, sink),
            Coming::Kind(version) => self.pass_kind(src, sink, version),
            Coming::Head => self.pass_head(src, sink),
            Coming::Body(head) => self.pass_body(src, sink, head),
            Coming::Front(head) => self.pass_front(src, sink, head),
            Coming::Words(head, count) => self.pass_words(src, sink, head, count),
            Coming::Page(head) => self.pass_page(src, sink, head),
            Coming::Padding(head) => self.pass_padding(src, sink, head),
            Coming::End => Ok(Step::Done),
            Coming::Over => unreachable!(),
        }
    }

    /// The relay is over behind the last step: Done or an error.
    pub(crate) fn end_behind(&mut self, step: Result<Step, RelayAnswer>)
        ensures { self.new ≡ behind_step step self.old }
    {
        if !goes_on(step) {
            self.coming = Coming::Over;
        }
    }

    /// Takes the next part, or a piece of it, and writes it. Headers, heads, words and table pages are written only
    /// once they are judged. A body is written piece by piece, and then judged. `Done` behind the last part, with
    /// nothing taken; the relay is over then, as behind an error. `Refused` has the place and the cause of the first
    /// fault, and then the source was read up to the end of the faulty part.
    pub fn step<S: Source, K: Sink>(
        &mut self,
        src: &mut S,
        sink: &mut K,
    ) -> Result<Step, RelayAnswer>
        requires { Stands self.old }

        // For each list of bytes that the relay stands for, one of four holds. A piece was taken and written, and the
        // relay stands for the list with it at its end. The list is passable. The list and the bytes left are refused.
        // Or it stopped.
        ensures says { (bytes : List ℕ) (stands : StandsForBytes self.old bytes) → StepSays stands.here stands.begun bytes self.old self.new (S.left src.old) (S.left src.new) (K.written sink.old) (K.written sink.new) result }
        ensures done { (bytes : List ℕ) (s : StreamOf) → StandsForBytes self.old bytes → IsPassable bytes s → result ≡ Ok Done }
        // At its start an input with the ident of a libxl stream isn't refused.
        ensures ident { (left : List ℕ) → is_at_start self.old.coming ≡ true → S.left src.old ≡ Some left → begins_with_ident left ≡ true → IsNotRefused result }
        ensures stands { goes_on result ≡ true → Stands self.new }
        ensures over { goes_on result ≡ false → is_over self.new ≡ true }
        // No words are in hand behind a head; behind words these are, and else those of before.
        ensures words { LeavesWords result self.old self.new }
        ensures faults { RisesOnFault (S.faults src.old) (S.faults src.new) (K.faults sink.old) (K.faults sink.new) result }
    {
        let result = self.pass_part(src, sink);
        self.end_behind(result);
        result
    }
}
