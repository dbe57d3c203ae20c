ghost use Rattle.std.specs.Prelude.{◌≡◌, ◌≢◌, ◌<◌, ◌≤◌, ◌+◌, [], ◌∷◌, ◌++◌, List, ℕ, None, Some, length, IfSome, IsSome};
ghost use Rattle.mig_relay.specs.Common.{End, type_number, padding_len, LibxlRecord, LibxlContent, image_in, piece_len, fault_of_record_body, fault_of_libxl_body, Opening, before, most_records, StreamRecord, Content};
ghost use Rattle.mig_relay.specs.Keeping.{KeepsBody, KeepsHead, KeepsOpen, KeepsOuter, KeepsFirst, IsBodied, IsOther, top_with, with_one};
ghost use Rattle.mig_relay.specs.Parts.{AtBody, AtPadding, record_with};
ghost use Rattle.mig_relay.specs.Spots.{Outer, AtLibxlBody, AtLibxlPadding, InImage};
ghost use Rattle.mig_relay.specs.Steps.{LeavesWords, StepMoved, RisesOnFault};
ghost use Rattle.mig_relay.specs.declared.state.Coming.TheVariants as comes;

use crate::answer::{RelayAnswer, Step};
use crate::state::{Coming, Relay, answer};
use mig_bytes::{Sink, Source, pad_len, take_part, u32_le};
use mig_headers::{Cause, Place, X86_PV_P2M_FRAMES};
use mig_libxl_form::RecordsBehind;
use mig_records::RecordHead;

/// The most bytes of a piece.
const PIECE: usize = 4096;

/// What comes next behind the body of an image's record that isn't END.
fn behind_body(head: RecordHead) -> Coming
    ensures padding { 0 < padding_len head.len → result ≡ comes.Padding head }
    ensures none { padding_len head.len ≡ 0 → result ≡ comes.Head }
{
    if pad_len(head.len) > 0 {
        Coming::Padding(head)
    } else {
        Coming::Head
    }
}

/// The greatest frame number behind the first piece of a body, which has the last frame number of a list of P2M frames.
fn top_behind(top: u64, head: RecordHead, taken: u32, piece: &[u8]) -> u64
    requires { head.kind ≡ X86_PV_P2M_FRAMES → taken ≡ 0 → 8 ≤ length piece.now }
    ensures first { taken ≡ 0 → 0 < length piece.now → result ≡ top_with head.kind piece.now top }
    ensures later { 0 < taken → result ≡ top }
{
    if head.kind == X86_PV_P2M_FRAMES && taken == 0 {
        top.max(u64::from(u32_le(piece, 4)))
    } else {
        top
    }
}

impl Relay {
    /// Passes on the next piece of the body of an image's record, and judges the body where it is whole.
    pub(crate) fn pass_body<S: Source, K: Sink>(
        &mut self,
        src: &mut S,
        sink: &mut K,
        head: RecordHead,
    ) -> Result<Step, RelayAnswer>
        requires coming { self.old.coming ≡ comes.Body head }
        requires less { self.old.body.taken < self.old.body.len }
        requires len { self.old.body.len ≡ head.len }
        requires front { head.kind ≡ X86_PV_P2M_FRAMES → self.old.body.taken ≡ 0 → 8 ≤ piece_len self.old.body }
        requires count { 0 < self.old.seen.records }
        ensures moved { (outer : Outer) (o : Opening) (records : List StreamRecord) (begun : List ℕ) → KeepsOuter self.old outer → KeepsHead self.old o records head (top_with head.kind begun (before o records).top) → IsOther o records head → KeepsFirst self.old head begun
            → KeepsBody self.old head (fault_of_record_body head.kind) begun
            → StepMoved (InImage outer (AtBody o records head)) begun self.old self.new (S.left src.old) (S.left src.new) (K.written sink.old) (K.written sink.new) result }
        ensures words { LeavesWords result self.old self.new }
        ensures faults { RisesOnFault (S.faults src.old) (S.faults src.new) (K.faults sink.old) (K.faults sink.new) result }
    {
        let place = Place::Record(u64::from(self.seen.records - 1));
        let count = self.body.next_piece();
        let mut bytes = [0; PIECE];
        let piece = &mut bytes[..count];
        if let Err(stop) = take_part(src, piece, Cause::Truncated) {
            return Err(answer(stop, place));
        }
        if let Err(_) = self.put(sink, piece) {
            return Err(RelayAnswer::WriteFault);
        }
        self.top = top_behind(self.top, head, self.body.taken, piece);
        self.body.pass(piece);
        if self.body.taken < self.body.len {
            return Ok(Step::Piece);
        }
        if let Some(cause) = self.body.fault() {
            return Err(RelayAnswer::Refused(place, cause));
        }
        self.coming = behind_body(head);
        Ok(Step::Piece)
    }

    /// Passes on the padding of an image's record.
    pub(crate) fn pass_padding<S: Source, K: Sink>(
        &mut self,
        src: &mut S,
        sink: &mut K,
        head: RecordHead,
    ) -> Result<Step, RelayAnswer>
        requires some { 0 < padding_len head.len }
        requires count { 0 < self.old.seen.records }
        ensures moved { (outer : Outer) (o : Opening) (records : List StreamRecord) (content : Content) → KeepsOuter self.old outer → KeepsHead self.old o records head (before o (records ++ record_with records head content ∷ [])).top → head.kind ≢ type_number End
            → StepMoved (InImage outer (AtPadding o records head content)) [] self.old self.new (S.left src.old) (S.left src.new) (K.written sink.old) (K.written sink.new) result }
        ensures words { LeavesWords result self.old self.new }
        ensures faults { RisesOnFault (S.faults src.old) (S.faults src.new) (K.faults sink.old) (K.faults sink.new) result }
    {
        let mut bytes = [0; 8];
        let padding = &mut bytes[..pad_len(head.len)];
        if let Err(stop) = take_part(src, padding, Cause::Truncated) {
            return Err(answer(stop, Place::Record(u64::from(self.seen.records - 1))));
        }
        if let Err(_) = self.put(sink, padding) {
            return Err(RelayAnswer::WriteFault);
        }
        self.coming = Coming::Head;
        Ok(Step::Piece)
    }

    /// Passes on the next piece of the body of a libxl record, and judges the body where it is whole.
    pub(crate) fn pass_libxl_body<S: Source, K: Sink>(
        &mut self,
        src: &mut S,
        sink: &mut K,
        head: RecordHead,
    ) -> Result<Step, RelayAnswer>
        requires coming { self.old.coming ≡ comes.LibxlBody head }
        requires less { self.old.body.taken < self.old.body.len }
        requires len { self.old.body.len ≡ head.len }
        requires wrapper { IsSome self.old.wrapper }
        requires room { IfSome self.old.wrapper (λ behind. behind.records < most_records) }
        ensures moved { (records : List LibxlRecord) (begun : List ℕ) → KeepsOpen self.old records → IsBodied head → KeepsBody self.old head (fault_of_libxl_body head.kind) begun
            → StepMoved (AtLibxlBody records head) begun self.old self.new (S.left src.old) (S.left src.new) (K.written sink.old) (K.written sink.new) result }
        ensures words { LeavesWords result self.old self.new }
        ensures faults { RisesOnFault (S.faults src.old) (S.faults src.new) (K.faults sink.old) (K.faults sink.new) result }
    {
        let Some(behind) = self.wrapper else {
            unreachable!()
        };
        let place = Place::LibxlRecord(u64::from(behind.records));
        let count = self.body.next_piece();
        let mut bytes = [0; PIECE];
        let piece = &mut bytes[..count];
        if let Err(stop) = take_part(src, piece, Cause::Truncated) {
            return Err(answer(stop, place));
        }
        if let Err(_) = self.put(sink, piece) {
            return Err(RelayAnswer::WriteFault);
        }
        self.body.pass(piece);
        if self.body.taken < self.body.len {
            return Ok(Step::Piece);
        }
        if let Some(cause) = self.body.fault() {
            return Err(RelayAnswer::Refused(place, cause));
        }
        self.end_libxl_body(head, behind);
        Ok(Step::Piece)
    }

    /// Behind the body of a libxl record.
    fn end_libxl_body(&mut self, head: RecordHead, behind: RecordsBehind)
        requires { behind.records < most_records }
        ensures padding { 0 < padding_len head.len → self.new ≡ record self.old { coming = comes.LibxlPadding head } }
        ensures none { padding_len head.len ≡ 0 → self.new ≡ record self.old { coming = comes.LibxlHead; wrapper = Some (with_one head.kind behind) } }
    {
        if pad_len(head.len) > 0 {
            self.coming = Coming::LibxlPadding(head);
        } else {
            self.end_libxl_record(head.kind, behind);
        }
    }

    /// Passes on the padding of a libxl record.
    pub(crate) fn pass_libxl_padding<S: Source, K: Sink>(
        &mut self,
        src: &mut S,
        sink: &mut K,
        head: RecordHead,
    ) -> Result<Step, RelayAnswer>
        requires some { 0 < padding_len head.len }
        requires wrapper { IsSome self.old.wrapper }
        requires room { IfSome self.old.wrapper (λ behind. behind.records < most_records) }
        ensures moved { (records : List LibxlRecord) (content : LibxlContent) → KeepsOpen self.old records → IsBodied head → image_in content ≡ None
            → StepMoved (AtLibxlPadding records head content) [] self.old self.new (S.left src.old) (S.left src.new) (K.written sink.old) (K.written sink.new) result }
        ensures words { LeavesWords result self.old self.new }
        ensures faults { RisesOnFault (S.faults src.old) (S.faults src.new) (K.faults sink.old) (K.faults sink.new) result }
    {
        let Some(behind) = self.wrapper else {
            unreachable!()
        };
        let mut bytes = [0; 8];
        let padding = &mut bytes[..pad_len(head.len)];
        if let Err(stop) = take_part(src, padding, Cause::Truncated) {
            return Err(answer(stop, Place::LibxlRecord(u64::from(behind.records))));
        }
        if let Err(_) = self.put(sink, padding) {
            return Err(RelayAnswer::WriteFault);
        }
        self.end_libxl_record(head.kind, behind);
        Ok(Step::Piece)
    }
}
