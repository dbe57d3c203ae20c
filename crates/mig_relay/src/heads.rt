ghost use Rattle.std.specs.Prelude.{min, ◌≡◌, ◌≢◌, ◌<◌, ◌≤◌, ◌+◌, [], List, false, true, None, Some, IfSome, IsSome};
ghost use Rattle.mig_relay.specs.Common.{LibxlRecord, X86PvP2mFrames, most_body, type_number, IsBegunBody, piece_len, fault_of_record_body, fault_of_libxl_body, Opening, before, most_records, StreamRecord, types_of};
ghost use Rattle.mig_libxl_form.specs.Judging.{allows_length as length_allowed};
ghost use Rattle.mig_records.specs.Faults.{fault_of_length};
ghost use Rattle.mig_relay.specs.Keeping.{HasBegun, HasBegunLibxl, KeepsOuter, KeepsGoing, KeepsRecords, fault_of_empty, with_one};
ghost use Rattle.mig_relay.specs.Parts.{AtHead};
ghost use Rattle.mig_relay.specs.Spots.{Outer, AtLibxlHead, InImage};
ghost use Rattle.mig_relay.specs.Steps.{LeavesWords, StepMoved, RisesOnFault};
ghost use Rattle.mig_relay.specs.declared.state.Coming.TheVariants as comes;

use crate::answer::{RelayAnswer, Step};
use crate::state::{Coming, Relay, answer};
use mig_bytes::{Sink, Source, take_part};
use mig_headers::{Cause, END, PAGE_DATA, Place};
use mig_libxl_form::{
    EMULATOR_CONTEXT, EMULATOR_XENSTORE_DATA, LIBXC_CONTEXT, LIBXL_END, RecordsBehind,
    libxl_head_fault,
};
use mig_records::RecordHead;
use mig_relay_bodies::BodySeen;

/// What is wrong with the body behind this head, where it is empty.
fn empty_fault(head: RecordHead) -> Option<Cause>
    requires small { head.len ≤ most_body }
    requires allowed { fault_of_length head.kind head.len ≡ None }
    ensures { result ≡ fault_of_empty head }
{
    if head.len > 0 || head.kind == PAGE_DATA {
        return None;
    }
    BodySeen::of_record(head.kind, 0).fault()
}

impl Relay {
    /// Behind the last record of an image: the stream is over, or a libxl stream goes on.
    fn end_image(&mut self)
        requires room { IfSome self.old.wrapper (λ behind. behind.records < most_records) }
        ensures alone { self.old.wrapper ≡ None → self.new ≡ record self.old { coming = comes.End } }
        ensures wrapped { IfSome self.old.wrapper (λ behind. self.new ≡ record self.old {
          coming = comes.LibxlHead;
          wrapper = Some (record { records = behind.records + 1; emulated = behind.emulated; image = Some self.old.seen.kind });
        }) }
    {
        match self.wrapper {
            None => self.coming = Coming::End,
            Some(behind) => {
                self.wrapper = Some(RecordsBehind {
                    records: behind.records + 1,
                    emulated: behind.emulated,
                    image: Some(self.seen.kind),
                });
                self.coming = Coming::LibxlHead;
            }
        }
    }

    /// Behind the head of an image's record.
    fn begin(&mut self, head: RecordHead)
        requires room { IfSome self.old.wrapper (λ behind. behind.records < most_records) }
        requires small { head.len ≤ most_body }
        requires allowed { fault_of_length head.kind head.len ≡ None }
        ensures words { self.new.words.items ≡ [] }
        ensures passed { self.new.passed ≡ self.old.passed }
        ensures begun { HasBegun self.old self.new head }
    {
        self.words = Vec::new(self.alloc);
        if head.kind == PAGE_DATA {
            self.coming = Coming::Front(head);
        } else if head.len > 0 {
            self.body = BodySeen::of_record(head.kind, head.len);
            self.coming = Coming::Body(head);
        } else if head.kind == END {
            self.end_image();
        } else {
            self.coming = Coming::Head;
        }
    }

    /// Passes on the head of an image's record. A record whose body is empty and wrong is refused with its head.
    pub(crate) fn pass_head<S: Source, K: Sink>(
        &mut self,
        src: &mut S,
        sink: &mut K,
    ) -> Result<Step, RelayAnswer>
        requires room { IfSome self.old.wrapper (λ behind. behind.records < most_records) }
        ensures moved { (outer : Outer) (o : Opening) (records : List StreamRecord) → KeepsOuter self.old outer → KeepsRecords self.old o records (types_of records) (before o records).top
            → StepMoved (InImage outer (AtHead o records)) [] self.old self.new (S.left src.old) (S.left src.new) (K.written sink.old) (K.written sink.new) result }
        ensures words { LeavesWords result self.old self.new }
        ensures faults { RisesOnFault (S.faults src.old) (S.faults src.new) (K.faults sink.old) (K.faults sink.new) result }
    {
        let place = Place::Record(u64::from(self.seen.records));
        let mut bytes = [0; 8];
        if let Err(stop) = take_part(src, &mut bytes, Cause::Truncated) {
            return Err(answer(stop, place));
        }
        let head = RecordHead::decode(&bytes);
        if let Err(cause) = self.seen.judge(head) {
            return Err(RelayAnswer::Refused(place, cause));
        }
        if let Some(cause) = empty_fault(head) {
            return Err(RelayAnswer::Refused(place, cause));
        }
        if let Err(_) = self.put(sink, &bytes) {
            return Err(RelayAnswer::WriteFault);
        }
        self.begin(head);
        Ok(Step::Head {
            wrapped: false,
            head,
        })
    }

    /// Behind a record of a libxl stream that isn't LIBXC_CONTEXT.
    pub(crate) fn end_libxl_record(&mut self, kind: u32, behind: RecordsBehind)
        requires { behind.records < most_records }
        ensures { self.new ≡ record self.old { coming = comes.LibxlHead; wrapper = Some (with_one kind behind) } }
    {
        self.wrapper = Some(RecordsBehind {
            records: behind.records + 1,
            emulated: behind.emulated || kind == EMULATOR_XENSTORE_DATA || kind == EMULATOR_CONTEXT,
            image: behind.image,
        });
        self.coming = Coming::LibxlHead;
    }

    /// Behind the head of a record of a libxl stream.
    fn begin_libxl(&mut self, head: RecordHead, behind: RecordsBehind)
        requires room { behind.records < most_records }
        requires small { head.len ≤ most_body }
        requires allowed { length_allowed head.kind head.len ≡ true }
        ensures words { self.new.words.items ≡ [] }
        ensures passed { self.new.passed ≡ self.old.passed }
        ensures begun { HasBegunLibxl self.old self.new behind head }
    {
        self.words = Vec::new(self.alloc);
        if head.kind == LIBXC_CONTEXT {
            self.coming = Coming::Marker;
        } else if head.kind == LIBXL_END {
            self.coming = Coming::End;
        } else if head.len > 0 {
            self.body = BodySeen::of_libxl_record(head.kind, head.len);
            self.coming = Coming::LibxlBody(head);
        } else {
            self.end_libxl_record(head.kind, behind);
        }
    }

    /// Passes on the head of a record of a libxl stream.
    pub(crate) fn pass_libxl_head<S: Source, K: Sink>(
        &mut self,
        src: &mut S,
        sink: &mut K,
    ) -> Result<Step, RelayAnswer>
        requires { IsSome self.old.wrapper }
        ensures moved { (records : List LibxlRecord) → KeepsGoing self.old records → StepMoved (AtLibxlHead records) [] self.old self.new (S.left src.old) (S.left src.new) (K.written sink.old) (K.written sink.new) result }
        ensures words { LeavesWords result self.old self.new }
        ensures faults { RisesOnFault (S.faults src.old) (S.faults src.new) (K.faults sink.old) (K.faults sink.new) result }
    {
        let Some(behind) = self.wrapper else {
            unreachable!()
        };
        let place = Place::LibxlRecord(u64::from(behind.records));
        let mut bytes = [0; 8];
        if let Err(stop) = take_part(src, &mut bytes, Cause::Truncated) {
            return Err(answer(stop, place));
        }
        let head = RecordHead::decode(&bytes);
        if let Some(cause) = libxl_head_fault(head, behind) {
            return Err(RelayAnswer::Refused(place, cause));
        }
        if let Err(_) = self.put(sink, &bytes) {
            return Err(RelayAnswer::WriteFault);
        }
        self.begin_libxl(head, behind);
        Ok(Step::Head {
            wrapped: true,
            head,
        })
    }
}
