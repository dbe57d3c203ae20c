ghost use Rattle.std.specs.Prelude.{◌≡◌, [], List, ℕ, None, Some, true};
ghost use Rattle.mig_relay.specs.Keeping.{KeepsOuter, KeepsWrapper};
ghost use Rattle.mig_relay.specs.Parts.{AtMarker, AtVersion, AtKind};
ghost use Rattle.mig_relay.specs.Spots.{Outer, AtStart, AtLibxlHeader, InImage, begins_with_ident, fault_of_first};
ghost use Rattle.mig_relay.specs.Standing.{IsNotRefused};
ghost use Rattle.mig_relay.specs.Steps.{LeavesWords, StepMoved, RisesOnFault};

use crate::answer::{RelayAnswer, Step};
use crate::state::{Coming, Relay, answer};
use mig_bytes::{Sink, Source, take_part};
use mig_headers::{Cause, DomainHeader, ImageHeader, LibxlHeader, Place};
use mig_libxl_form::RecordsBehind;
use mig_restore_form::RecordsSeen;

/// Before the first record of a libxl stream.
const NONE_BEHIND: RecordsBehind = RecordsBehind {
    records: 0,
    emulated: false,
    image: None,
};

/// What is wrong with the first 8 bytes of a stream: where they aren't the ident of a libxl stream, they are a marker.
fn start_fault(bytes: &[u8; 8]) -> Option<Cause>
    ensures { result ≡ fault_of_first bytes.now }
{
    if LibxlHeader::is_ident(bytes) {
        None
    } else {
        ImageHeader::marker_fault(bytes)
    }
}

impl Relay {
    /// Passes on the first 8 bytes: the ident of a libxl stream, or an image's marker.
    pub(crate) fn pass_start<S: Source, K: Sink>(
        &mut self,
        src: &mut S,
        sink: &mut K,
    ) -> Result<Step, RelayAnswer>
        requires { self.old.wrapper ≡ None }
        ensures ident { (left : List ℕ) → S.left src.old ≡ Some left → begins_with_ident left ≡ true → IsNotRefused result }
        ensures moved { StepMoved AtStart [] self.old self.new (S.left src.old) (S.left src.new) (K.written sink.old) (K.written sink.new) result }
        ensures words { LeavesWords result self.old self.new }
        ensures faults { RisesOnFault (S.faults src.old) (S.faults src.new) (K.faults sink.old) (K.faults sink.new) result }
    {
        let mut bytes = [0; 8];
        if let Err(stop) = take_part(src, &mut bytes, Cause::Truncated) {
            return Err(answer(stop, Place::ImageHeader));
        }
        if let Some(cause) = start_fault(&bytes) {
            return Err(RelayAnswer::Refused(Place::ImageHeader, cause));
        }
        let wrapped = LibxlHeader::is_ident(&bytes);
        if let Err(_) = self.put(sink, &bytes) {
            return Err(RelayAnswer::WriteFault);
        }
        if wrapped {
            self.wrapper = Some(NONE_BEHIND);
            self.coming = Coming::LibxlHeader;
        } else {
            self.coming = Coming::Version;
        }
        Ok(Step::Marker { wrapped })
    }

    /// Passes on the header behind the ident of a libxl stream.
    pub(crate) fn pass_libxl_header<S: Source, K: Sink>(
        &mut self,
        src: &mut S,
        sink: &mut K,
    ) -> Result<Step, RelayAnswer>
        requires { KeepsWrapper self.old [] }
        ensures moved { StepMoved AtLibxlHeader [] self.old self.new (S.left src.old) (S.left src.new) (K.written sink.old) (K.written sink.new) result }
        ensures words { LeavesWords result self.old self.new }
        ensures faults { RisesOnFault (S.faults src.old) (S.faults src.new) (K.faults sink.old) (K.faults sink.new) result }
    {
        let mut bytes = [0; 8];
        if let Err(stop) = take_part(src, &mut bytes, Cause::Truncated) {
            return Err(answer(stop, Place::LibxlHeader));
        }
        match LibxlHeader::decode(&bytes) {
            Err(cause) => Err(RelayAnswer::Refused(Place::LibxlHeader, cause)),
            Ok(_) => {
                if let Err(_) = self.put(sink, &bytes) {
                    return Err(RelayAnswer::WriteFault);
                }
                self.coming = Coming::LibxlHead;
                Ok(Step::Piece)
            }
        }
    }

    /// Passes on the marker of an image inside a wrapper.
    pub(crate) fn pass_marker<S: Source, K: Sink>(
        &mut self,
        src: &mut S,
        sink: &mut K,
    ) -> Result<Step, RelayAnswer>
        ensures moved { (outer : Outer) → KeepsOuter self.old outer → StepMoved (InImage outer AtMarker) [] self.old self.new (S.left src.old) (S.left src.new) (K.written sink.old) (K.written sink.new) result }
        ensures words { LeavesWords result self.old self.new }
        ensures faults { RisesOnFault (S.faults src.old) (S.faults src.new) (K.faults sink.old) (K.faults sink.new) result }
    {
        let mut bytes = [0; 8];
        if let Err(stop) = take_part(src, &mut bytes, Cause::Truncated) {
            return Err(answer(stop, Place::ImageHeader));
        }
        if let Some(cause) = ImageHeader::marker_fault(&bytes) {
            return Err(RelayAnswer::Refused(Place::ImageHeader, cause));
        }
        if let Err(_) = self.put(sink, &bytes) {
            return Err(RelayAnswer::WriteFault);
        }
        self.coming = Coming::Version;
        Ok(Step::Marker { wrapped: false })
    }

    /// Passes on the rest of an image header.
    pub(crate) fn pass_version<S: Source, K: Sink>(
        &mut self,
        src: &mut S,
        sink: &mut K,
    ) -> Result<Step, RelayAnswer>
        ensures moved { (outer : Outer) → KeepsOuter self.old outer → StepMoved (InImage outer AtVersion) [] self.old self.new (S.left src.old) (S.left src.new) (K.written sink.old) (K.written sink.new) result }
        ensures words { LeavesWords result self.old self.new }
        ensures faults { RisesOnFault (S.faults src.old) (S.faults src.new) (K.faults sink.old) (K.faults sink.new) result }
    {
        let mut bytes = [0; 16];
        if let Err(stop) = take_part(src, &mut bytes, Cause::Truncated) {
            return Err(answer(stop, Place::ImageHeader));
        }
        match ImageHeader::decode(&bytes) {
            Err(cause) => Err(RelayAnswer::Refused(Place::ImageHeader, cause)),
            Ok(header) => {
                if let Err(_) = self.put(sink, &bytes) {
                    return Err(RelayAnswer::WriteFault);
                }
                self.coming = Coming::Kind(header.version);
                Ok(Step::Version(header.version))
            }
        }
    }

    /// Passes on a domain header.
    pub(crate) fn pass_kind<S: Source, K: Sink>(
        &mut self,
        src: &mut S,
        sink: &mut K,
        version: u32,
    ) -> Result<Step, RelayAnswer>
        ensures moved { (outer : Outer) → KeepsOuter self.old outer → StepMoved (InImage outer (AtKind version)) [] self.old self.new (S.left src.old) (S.left src.new) (K.written sink.old) (K.written sink.new) result }
        ensures words { LeavesWords result self.old self.new }
        ensures faults { RisesOnFault (S.faults src.old) (S.faults src.new) (K.faults sink.old) (K.faults sink.new) result }
    {
        let mut bytes = [0; 16];
        if let Err(stop) = take_part(src, &mut bytes, Cause::Truncated) {
            return Err(answer(stop, Place::DomainHeader));
        }
        match DomainHeader::decode(&bytes) {
            Err(cause) => Err(RelayAnswer::Refused(Place::DomainHeader, cause)),
            Ok(header) => {
                if let Err(_) = self.put(sink, &bytes) {
                    return Err(RelayAnswer::WriteFault);
                }
                self.seen = RecordsSeen::new(version, header.kind);
                self.top = 0;
                self.coming = Coming::Head;
                Ok(Step::Kind(header.kind))
            }
        }
    }
}
