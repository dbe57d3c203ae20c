ghost use Rattle.std.specs.Prelude.{◌≡◌, ℕ, ◌≤◌, ◌<◌, ◌+◌, ◌==◌, ◌||◌, ◌∷◌, [], ◌++◌, List, Option, ⊤, true, None, Some, is_some, IfOk, OnOk, IsErrOf};
ghost use Rattle.mig_restore.specs.Common.{or_stop, RisesOnReadFault, AgreesWithJudging, Memory, record_row_of, type_of_number, most_body, RecordType, fault_of_length, ImageOf, sent, put_content_by, IsBegun, GrewByRecord, StreamRecord, types_of, is_verified, Opening, Before, most_records, opening_of, head_at, record_at, next_at, image_at, image_behind, records_at, opening_at, opening_behind, marker_at, version_at, kind_at};
ghost use Rattle.mig_records.specs.Heads.{head_in};
ghost use Rattle.mig_pvtables.specs.Whole.{IsStreamedBare};
ghost use Rattle.mig_restore.specs.Compared.{IsCompared, IsImageCompared, IsWithinRecords, differs_behind};
ghost use Rattle.mig_restore_form.specs.Seen.{IsSeen};
ghost use Rattle.mig_restore.specs.Kept.{IsOfFaultless, NotesImage, NotesOn, kept_guest, put_frames};
ghost use Rattle.mig_restore.specs.Reads.{ReadsImage, ReadsRest, IsTaken, IsTakenAndCompared, IsReading};
ghost use Rattle.mig_bytes.specs.Judged.{Judged};

use crate::answer::StreamAnswer;
use crate::check::{counted, take_placed};
use crate::keeps::{AllFrames, KeepsFrames};
use mig_bytes::{Source, Stop, answer_for, take_part};
use mig_guest::Guest;
use mig_headers::{Cause, DomainHeader, END, ImageHeader, Kind, Place};
use mig_pvtables::{WholeAnswer, blank};
use mig_records::{RecordHead, take_head, take_padding};
use mig_restore_form::RecordsSeen;
use std::alloc::Global;

/// What was taken of an image.
#[derive(Drop)]
pub struct TakenImage {
    /// Of the guest that the records send, what is kept.
    pub guest: Guest,
    /// The version in the image header.
    pub version: u32,
    /// How many records the image has, with END and optional ones.
    pub records: u32,
    /// How many of the entries behind VERIFY differ from the frames that were sent, where the keeper compares; none without a
    /// VERIFY.
    pub differs: Option<u64>,
}

/// What was read of an image.
#[derive(Drop)]
pub struct Reading {
    /// The guest that the records mean.
    pub guest: Guest,
    /// The version in the image header.
    pub version: u32,
    /// How many records the image has, with END and optional ones.
    pub records: u32,
    /// How many of the entries behind VERIFY differ from the frames that were sent; none without a VERIFY.
    pub differs: Option<u64>,
}

/// Takes the next record's head.
pub fn read_head<S: Source>(src: &mut S, seen: &mut RecordsSeen) -> Result<RecordHead, Stop<Cause>>
    ensures read { (b : Before) → IsSeen seen.old b.opening b.types →
        AgreesWithJudging (λ h head. h ≡ head_in head) (S.left src.old) (S.left src.new) (head_at b) result }
    ensures seen { IfOk result (λ h. (o : Opening) (types : List ℕ) → IsSeen seen.old o types → IsSeen seen.new o (types ++ h.kind ∷ [])) }
    ensures len { IfOk result (λ h. h.len ≤ most_body) }
    ensures allowed { IfOk result (λ h. fault_of_length h.kind h.len ≡ None) }
    ensures count { OnOk result ((seen.new.records ≡ seen.old.records + 1) × (seen.old.records < most_records)) }
    ensures of_kind { IfOk result (λ h. (this : RecordType) → type_of_number h.kind ≡ Some this → (record_row_of this).of_kind seen.old.kind ≡ true) }
    ensures kind { seen.new.kind ≡ seen.old.kind }
    ensures faults { RisesOnReadFault (S.faults src.old) (S.faults src.new) result }
    ensures takes_no_memory { ¬ IsErrOf result Memory }
{
    let head = take_head(src)?;
    match seen.judge(head) {
        Ok(()) => Ok(head),
        Err(cause) => Err(Stop::Refused(cause)),
    }
}

/// Takes a record, and keeps what it says; behind a VERIFY it counts the entries that differ. Answers its type.
fn take_record<S: Source, F: KeepsFrames<S>>(
    alloc: Global,
    src: &mut S,
    keeper: &mut F,
    seen: &mut RecordsSeen,
    guest: &mut Guest,
    differs: &mut Option<u64>,
) -> Result<u32, Stop<Cause>>
    requires kind { seen.old.kind ≡ guest.old.kind }
    requires few { IsWithinRecords seen.old.records differs.old }
    ensures read { (b : Before) → IsSeen seen.old b.opening b.types → guest.old.kind ≡ b.opening.kind → guest.old.top ≡ b.top → is_some differs.old ≡ is_verified b.types →
        AgreesWithJudging (λ type r. (guest.new ≡ put_content_by F.put guest.old r.content) × (type ≡ r.type) × (is_some differs.new ≡ (is_some differs.old || (r.type == 0xD)))) (S.left src.old) (S.left src.new) (record_at b) result }
    ensures noted { (b : Before) → IsSeen seen.old b.opening b.types → guest.old.kind ≡ b.opening.kind → guest.old.top ≡ b.top → is_some differs.old ≡ is_verified b.types →
        AgreesWithJudging (λ _ r. NotesOn F.notes keeper.old keeper.new (S.left src.old) (S.left src.new) (put_frames guest.old.kind r.content)) (S.left src.old) (S.left src.new) (record_at b) result }
    ensures compared { (b : Before) → IsSeen seen.old b.opening b.types → guest.old.kind ≡ b.opening.kind → guest.old.top ≡ b.top → is_some differs.old ≡ is_verified b.types →
        AgreesWithJudging (λ _ r. IsCompared F.compares F.notes F.kept keeper.old (S.left src.old) guest.old.frames (λ frames. differs.new ≡ differs_behind guest.old.kind frames differs.old r)) (S.left src.old) (S.left src.new) (record_at b) result }
    ensures few { OnOk result (IsWithinRecords seen.new.records differs.new) }
    ensures seen { IfOk result (λ type. (o : Opening) (types : List ℕ) → IsSeen seen.old o types → IsSeen seen.new o (types ++ type ∷ [])) }
    ensures grown { OnOk result (GrewByRecord guest.old guest.new) }
    ensures counted { OnOk result ((seen.new.records ≡ seen.old.records + 1) × (seen.old.records < most_records)) }
    ensures kind { seen.new.kind ≡ seen.old.kind }
    ensures faults { RisesOnReadFault (S.faults src.old) (S.faults src.new) result }
{
    F::goes_on();
    let head = read_head(src, seen)?;
    let differ = take_placed(alloc, src, keeper, head, differs.is_some(), guest)?;
    take_padding(src, head.len)?;
    *differs = counted(*differs, head.kind, differ);
    Ok(head.kind)
}

/// Takes the next record, and judges the whole guest where it ends the image. Says whether it does.
pub(crate) fn read_next<S: Source, F: KeepsFrames<S>>(
    alloc: Global,
    src: &mut S,
    keeper: &mut F,
    seen: &mut RecordsSeen,
    guest: &mut Guest,
    differs: &mut Option<u64>,
) -> Result<bool, Stop<Cause>>
    requires kind { seen.old.kind ≡ guest.old.kind }
    requires begun { IsBegun guest.old }
    requires few { IsWithinRecords seen.old.records differs.old }
    ensures read { (o : Opening) (records : List StreamRecord) → IsSeen seen.old o (types_of records) → guest.old ≡ kept_guest F.kept (sent o.kind records) → is_some differs.old ≡ is_verified (types_of records) →
        AgreesWithJudging (λ over r. (guest.new ≡ kept_guest F.kept (sent o.kind (records ++ r ∷ []))) × IsSeen seen.new o (types_of (records ++ r ∷ [])) × (over ≡ (r.type == 0)) × (is_some differs.new ≡ (is_some differs.old || (r.type == 0xD))))
        (S.left src.old) (S.left src.new) (next_at o records) result }
    ensures noted { (o : Opening) (records : List StreamRecord) → IsSeen seen.old o (types_of records) → guest.old ≡ kept_guest F.kept (sent o.kind records) → is_some differs.old ≡ is_verified (types_of records) →
        AgreesWithJudging (λ _ r. NotesOn F.notes keeper.old keeper.new (S.left src.old) (S.left src.new) (put_frames o.kind r.content)) (S.left src.old) (S.left src.new) (next_at o records) result }
    ensures compared { (o : Opening) (records : List StreamRecord) → IsSeen seen.old o (types_of records) → guest.old ≡ kept_guest F.kept (sent o.kind records) → is_some differs.old ≡ is_verified (types_of records) →
        AgreesWithJudging (λ _ r. IsCompared F.compares F.notes F.kept keeper.old (S.left src.old) guest.old.frames (λ frames. differs.new ≡ differs_behind o.kind frames differs.old r)) (S.left src.old) (S.left src.new) (next_at o records) result }
    ensures few { OnOk result (IsWithinRecords seen.new.records differs.new) }
    ensures grown { OnOk result (GrewByRecord guest.old guest.new) }
    ensures faultless { IfOk result (λ over. over ≡ true → IsOfFaultless F.kept guest.new) }
    ensures counted { OnOk result ((seen.new.records ≡ seen.old.records + 1) × (seen.old.records < most_records)) }
    ensures kind { seen.new.kind ≡ seen.old.kind }
    ensures faults { RisesOnReadFault (S.faults src.old) (S.faults src.new) result }
{
    F::goes_on();
    if take_record(alloc, src, keeper, seen, guest, differs)? != END {
        return Ok(false);
    }
    match F::fault_at_end(alloc, guest) {
        Ok(()) => Ok(true),
        Err(WholeAnswer::Fault(cause)) => Err(Stop::Refused(cause)),
        Err(WholeAnswer::Memory) => Err(Stop::Memory),
    }
}

/// Takes records up to the one that ends the image.
fn take_records<S: Source, F: KeepsFrames<S>>(
    alloc: Global,
    src: &mut S,
    keeper: &mut F,
    version: u32,
    kind: Kind,
) -> Result<TakenImage, Stop<(Place, Cause)>>
    ensures read { AgreesWithJudging (IsTaken F.kept) (S.left src.old) (S.left src.new) (records_at (opening_of version kind)) result }
    ensures noted { AgreesWithJudging (λ _ image. NotesImage F.notes keeper.old keeper.new (S.left src.old) (S.left src.new) image) (S.left src.old) (S.left src.new) (records_at (opening_of version kind)) result }
    ensures compared { AgreesWithJudging (λ taken image. IsImageCompared F.compares F.notes keeper.old (S.left src.old) taken.differs image) (S.left src.old) (S.left src.new) (records_at (opening_of version kind)) result }
    ensures begun { IfOk result (λ taken. IsBegun taken.guest) }
    ensures faultless { IfOk result (λ taken. IsOfFaultless F.kept taken.guest) }
    ensures faults { RisesOnReadFault (S.faults src.old) (S.faults src.new) result }
{
    F::goes_on();
    let mut seen = RecordsSeen::new(version, kind);
    let mut guest = Guest::new(alloc, kind);
    let mut differs = None;
    'records: loop {
        let number = seen.records;
        match read_next(alloc, src, keeper, &mut seen, &mut guest, &mut differs) {
            Ok(over) => {
                if over {
                    return Ok(TakenImage {
                        guest,
                        version,
                        records: seen.records,
                        differs,
                    });
                }
            }
            Err(stop) => return Err(stop.at(Place::Record(u64::from(number)))),
        }
    }
}

/// Takes the marker.
fn read_marker<S: Source>(src: &mut S) -> Result<(), Stop<Cause>>
    ensures read { AgreesWithJudging (λ _ _. ⊤) (S.left src.old) (S.left src.new) marker_at result }
    ensures faults { RisesOnReadFault (S.faults src.old) (S.faults src.new) result }
    ensures takes_no_memory { ¬ IsErrOf result Memory }
{
    let mut marker = [0; 8];
    take_part(src, &mut marker, Cause::Truncated)?;
    match ImageHeader::marker_fault(&marker) {
        None => Ok(()),
        Some(cause) => Err(Stop::Refused(cause)),
    }
}

/// Takes the image header behind its marker: the version.
fn read_version<S: Source>(src: &mut S) -> Result<u32, Stop<Cause>>
    ensures read { AgreesWithJudging (λ v version. version ≡ v) (S.left src.old) (S.left src.new) version_at result }
    ensures faults { RisesOnReadFault (S.faults src.old) (S.faults src.new) result }
    ensures takes_no_memory { ¬ IsErrOf result Memory }
{
    let mut header = [0; 16];
    take_part(src, &mut header, Cause::Truncated)?;
    match ImageHeader::decode(&header) {
        Ok(image) => Ok(image.version),
        Err(cause) => Err(Stop::Refused(cause)),
    }
}

/// Takes the domain header: the kind of guest.
fn read_kind<S: Source>(src: &mut S) -> Result<Kind, Stop<Cause>>
    ensures read { AgreesWithJudging (λ k kind. kind ≡ k) (S.left src.old) (S.left src.new) kind_at result }
    ensures faults { RisesOnReadFault (S.faults src.old) (S.faults src.new) result }
    ensures takes_no_memory { ¬ IsErrOf result Memory }
{
    let mut header = [0; 16];
    take_part(src, &mut header, Cause::Truncated)?;
    match DomainHeader::decode(&header) {
        Ok(domain) => Ok(domain.kind),
        Err(cause) => Err(Stop::Refused(cause)),
    }
}

/// Takes both headers behind the marker: the version and the kind.
pub fn read_headers<S: Source>(src: &mut S) -> Result<(u32, Kind), Stop<(Place, Cause)>>
    ensures read { AgreesWithJudging (λ read opening. opening ≡ opening_of read.0 read.1) (S.left src.old) (S.left src.new) opening_behind result }
    ensures faults { RisesOnReadFault (S.faults src.old) (S.faults src.new) result }
    ensures takes_no_memory { ¬ IsErrOf result Memory }
{
    let version = match read_version(src) {
        Ok(version) => version,
        Err(stop) => return Err(stop.at(Place::ImageHeader)),
    };
    match read_kind(src) {
        Ok(kind) => Ok((version, kind)),
        Err(stop) => Err(stop.at(Place::DomainHeader)),
    }
}

/// Takes both headers: the version and the kind.
pub fn read_opening<S: Source>(src: &mut S) -> Result<(u32, Kind), Stop<(Place, Cause)>>
    ensures read { AgreesWithJudging (λ read opening. opening ≡ opening_of read.0 read.1) (S.left src.old) (S.left src.new) opening_at result }
    ensures faults { RisesOnReadFault (S.faults src.old) (S.faults src.new) result }
    ensures takes_no_memory { ¬ IsErrOf result Memory }
{
    if let Err(stop) = read_marker(src) {
        return Err(stop.at(Place::ImageHeader));
    }
    read_headers(src)
}

/// Takes an image from its marker to its END record, and leaves what follows it unread. What is kept of the guest is whole,
/// and not in its blank form. The keeper notes what it notes of the frames that are sent, and compares the entries behind a
/// VERIFY with them.
pub fn take_image<S: Source, F: KeepsFrames<S>>(
    alloc: Global,
    src: &mut S,
    keeper: &mut F,
) -> Result<TakenImage, Stop<(Place, Cause)>>
    ensures read { AgreesWithJudging (IsTaken F.kept) (S.left src.old) (S.left src.new) image_at result }
    ensures noted { AgreesWithJudging (λ _ image. NotesImage F.notes keeper.old keeper.new (S.left src.old) (S.left src.new) image) (S.left src.old) (S.left src.new) image_at result }
    ensures compared { AgreesWithJudging (λ taken image. IsImageCompared F.compares F.notes keeper.old (S.left src.old) taken.differs image) (S.left src.old) (S.left src.new) image_at result }
    ensures begun { IfOk result (λ taken. IsBegun taken.guest) }
    ensures faultless { IfOk result (λ taken. IsOfFaultless F.kept taken.guest) }
    ensures faults { RisesOnReadFault (S.faults src.old) (S.faults src.new) result }
{
    F::goes_on();
    let (version, kind) = read_opening(src)?;
    take_records(alloc, src, keeper, version, kind)
}

/// Takes an image whose marker was taken before and found right; the same else.
pub fn take_image_rest<S: Source, F: KeepsFrames<S>>(
    alloc: Global,
    src: &mut S,
    keeper: &mut F,
) -> Result<TakenImage, Stop<(Place, Cause)>>
    ensures read { AgreesWithJudging (IsTaken F.kept) (S.left src.old) (S.left src.new) image_behind result }
    ensures noted { AgreesWithJudging (λ _ image. NotesImage F.notes keeper.old keeper.new (S.left src.old) (S.left src.new) image) (S.left src.old) (S.left src.new) image_behind result }
    ensures compared { AgreesWithJudging (λ taken image. IsImageCompared F.compares F.notes keeper.old (S.left src.old) taken.differs image) (S.left src.old) (S.left src.new) image_behind result }
    ensures begun { IfOk result (λ taken. IsBegun taken.guest) }
    ensures faultless { IfOk result (λ taken. IsOfFaultless F.kept taken.guest) }
    ensures faults { RisesOnReadFault (S.faults src.old) (S.faults src.new) result }
{
    F::goes_on();
    let (version, kind) = read_headers(src)?;
    take_records(alloc, src, keeper, version, kind)
}

/// The reading of an image that was taken with all frames.
fn reading_of(taken: Result<TakenImage, Stop<(Place, Cause)>>) -> Result<Reading, StreamAnswer>
    requires begun { IfOk taken (λ image. IsBegun image.guest) }
    requires faultless { IfOk taken (λ image. IsOfFaultless (λ frames. frames) image.guest) }
    ensures read { (before after : Option (List ℕ)) (judging : List ℕ → Judged (Place × Cause) ImageOf) →
        AgreesWithJudging (IsTakenAndCompared (λ frames. frames)) before after judging taken → AgreesWithJudging IsReading before after judging (or_stop result) }
    ensures streamed { IfOk result (λ reading. IsStreamedBare reading.guest) }
    ensures faults { (before after : ℕ) → RisesOnReadFault before after taken → RisesOnReadFault before after (or_stop result) }
{
    match taken {
        Ok(image) => {
            let mut guest = image.guest;
            blank(&mut guest);
            Ok(Reading {
                guest,
                version: image.version,
                records: image.records,
                differs: image.differs,
            })
        }
        Err(stop) => Err(answer_for(stop)),
    }
}

/// Reads an image from its marker to its END record, and leaves what follows it unread. The guest is in its blank form.
/// `Refused` has the place and the cause of the first fault, and then the source was read up to the end of the faulty
/// part. `ReadFault` comes only where a read failed.
pub fn read_image<S: Source>(alloc: Global, src: &mut S) -> Result<Reading, StreamAnswer>
    ensures read { ReadsImage (S.left src.old) (S.left src.new) result }
    ensures streamed { IfOk result (λ reading. IsStreamedBare reading.guest) }
    ensures faults { RisesOnReadFault (S.faults src.old) (S.faults src.new) (or_stop result) }
{
    reading_of(take_image(alloc, src, &mut AllFrames))
}

/// Reads an image whose marker was taken before and found right; the same else.
pub fn read_image_rest<S: Source>(alloc: Global, src: &mut S) -> Result<Reading, StreamAnswer>
    ensures read { ReadsRest (S.left src.old) (S.left src.new) result }
    ensures streamed { IfOk result (λ reading. IsStreamedBare reading.guest) }
    ensures faults { RisesOnReadFault (S.faults src.old) (S.faults src.new) (or_stop result) }
{
    reading_of(take_image_rest(alloc, src, &mut AllFrames))
}
