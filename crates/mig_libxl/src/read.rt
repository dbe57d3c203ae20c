ghost use Rattle.std.specs.Prelude.{Option, ◌≡◌, ◌≤◌, ◌+◌, ◌==◌, ◌∷◌, [], ◌++◌, ⊤, ◌≢◌, ◌<◌, List, true, None, IfOk, IfNone, OnOk, IsErrOf};
ghost use Rattle.mig_libxl.specs.Common.{or_stop, RisesOnReadFault, AgreesWithJudging, most_body, IsStreamed, LibxlRecord, ImageOf, option_map, Wrapped, header_at, libxl_records_at, wrapped_at, bare_at, stream_at};
ghost use Rattle.mig_bytes.specs.declared.stop.Stop.TheVariants.{Memory as NoMemory};
ghost use Rattle.mig_headers.specs.declared.fault.Cause.TheVariants.{Truncated};
ghost use Rattle.mig_records.specs.Heads.{head_in};
ghost use Rattle.mig_restore_form.specs.Judging.{most_records};
ghost use Rattle.mig_libxl_form.specs.Behind.{AreBehind, MayFollow, kind_of_image};
ghost use Rattle.mig_libxl.specs.Seen.{Holds, behind_of};
ghost use Rattle.mig_libxl_form.specs.Content.LibxlContent.{Nothing};
ghost use Rattle.mig_libxl_form.specs.Judging.{fault_of_libxl_head, libxl_head_at, pairs_at, context_at, skipped_at, inner_at, body_of_type, libxl_content_at, libxl_record_at, allows_length as length_allowed};
ghost use Rattle.mig_libxl.specs.Seen.{IsLibxlSeen, IsLibxlBegun, IsClosed};
ghost use Rattle.mig_file.specs.Files.{failed_in, left_in};
ghost use Rattle.mig_guest.specs.Formed.{IsFormed};
ghost use Rattle.mig_libxl.specs.Placed.{IsPlacedStream};
ghost use Rattle.mig_libxl.specs.Reads.{IsStreamComparison, ReadsStream, JudgesStream};

use crate::image::{KeptImage, TakesImage};
use mig_bytes::{
    Memory, ReadFailed, Source, Stop, answer_for, are_bytes, skip, stop_for, take_long, take_part,
    u32_le,
};
use mig_file::{FileSource, PageFile};
use mig_guest::{EMULATOR_CONTEXT as CONTEXT, EMULATOR_PAIRS as PAIRS, PartKey};
use mig_headers::{Cause, ImageHeader, Kind, LibxlHeader, Place};
use mig_libxl_form::{
    EMULATOR_CONTEXT, EMULATOR_IDS, EMULATOR_INDICES, EMULATOR_XENSTORE_DATA, Emulators,
    LIBXC_CONTEXT, LIBXL_END, RecordsBehind, libxl_head_fault,
};
use mig_outline::Tally;
use mig_placing::{Comparison, PlacedGuest};
use mig_policy::{PairsAnswer, pairs_fault};
use mig_records::{RecordHead, take_head, take_padding};
use mig_restore::{Reading, StreamAnswer};
use std::alloc::Global;

/// Takes a body that isn't kept.
fn skip_body<S: Source>(src: &mut S, len: u32) -> Result<(), Stop<Cause>>
    ensures read { AgreesWithJudging (λ _ c. c ≡ Nothing) (S.left src.old) (S.left src.new) (skipped_at len) result }
    ensures faults { RisesOnReadFault (S.faults src.old) (S.faults src.new) result }
    ensures takes_no_memory { ¬ IsErrOf result NoMemory }
{
    match skip(src, u64::from(len)) {
        Ok(true) => Ok(()),
        Ok(false) => Err(Stop::Refused(Cause::Truncated)),
        Err(ReadFailed) => Err(Stop::ReadFault),
    }
}

/// What the reader keeps of the records before.
#[derive(Drop)]
pub(crate) struct WrapperSeen<I> {
    pub(crate) emulators: Emulators,
    /// What is kept of the image.
    pub(crate) image: Option<I>,
    /// Whether some record was an emulator's.
    pub(crate) emulated: bool,
    pub(crate) records: u32,
}

impl<I: KeptImage> WrapperSeen<I> {
    ghost use Rattle.mig_libxl.specs.Seen.{IsLibxlSeen, IsLibxlBegun, IsClosed, TakesLibxl};

    /// Before the first record.
    #[tactic(auto, unfolding(mig_libxl_form::specs::Emulators::emulators_of))]
    fn new(alloc: Global) -> WrapperSeen<I>
        ensures seen { IsLibxlSeen I.is_of result [] }
        ensures begun { IsLibxlBegun I.kept result }
    {
        WrapperSeen {
            emulators: Emulators::new(alloc),
            image: None,
            emulated: false,
            records: 0,
        }
    }

    /// The kind of guest of the image, where there was one.
    fn kind(&self) -> Option<Kind>
        ensures value { result ≡ option_map I.kind_of self.now.image }
        ensures same { (image : Option ImageOf) → Holds I.is_of self.now.image image → result ≡ kind_of_image image }
    {
        match &self.image {
            Some(kept) => Some(kept.kind()),
            None => None,
        }
    }

    /// What a head is judged by, of these records.
    fn behind(&self) -> RecordsBehind
        ensures kept { result ≡ behind_of I.kind_of self.now }
        ensures behind { (records : List LibxlRecord) → IsLibxlSeen I.is_of self.now records → AreBehind result records }
    {
        RecordsBehind {
            records: self.records,
            emulated: self.emulated,
            image: self.kind(),
        }
    }

    /// What is wrong with a head behind these records.
    fn head_fault(&self, head: RecordHead) -> Option<Cause>
        ensures fault { (records : List LibxlRecord) → IsLibxlSeen I.is_of self.now records → result ≡ fault_of_libxl_head records head.kind head.len }
        ensures may { IfNone result (MayFollow (behind_of I.kind_of self.now) head.kind head.len) }
    {
        libxl_head_fault(head, self.behind())
    }

    /// Takes the next record's head.
    fn take_head<S: Source>(&self, src: &mut S) -> Result<RecordHead, Stop<Cause>>
        ensures read { (records : List LibxlRecord) → IsLibxlSeen I.is_of self.now records → AgreesWithJudging (λ h head. h ≡ head_in head) (S.left src.old) (S.left src.new) (libxl_head_at records) result }
        ensures may { IfOk result (λ h. MayFollow (behind_of I.kind_of self.now) h.kind h.len) }
        ensures faults { RisesOnReadFault (S.faults src.old) (S.faults src.new) result }
        ensures takes_no_memory { ¬ IsErrOf result NoMemory }
    {
        let head = take_head(src)?;
        match self.head_fault(head) {
            Some(cause) => Err(Stop::Refused(cause)),
            None => Ok(head),
        }
    }

    /// Takes the body of an EMULATOR_XENSTORE_DATA, and adds its pairs to the store that it names.
    fn take_pairs<S: Source>(
        &mut self,
        alloc: Global,
        src: &mut S,
        len: u32,
    ) -> Result<(), Stop<Cause>>
        requires front { 8 ≤ len }
        requires small { len ≤ most_body }
        requires begun { IsLibxlBegun I.kept self.old }
        ensures read { AgreesWithJudging (λ _ c. TakesLibxl I.is_of self.old self.new 2 c) (S.left src.old) (S.left src.new) (pairs_at self.old.emulators len) result }
        ensures begun { OnOk result (IsLibxlBegun I.kept self.new) }
        ensures others { OnOk result ((self.new.records ≡ self.old.records) × (self.new.image ≡ self.old.image)) }
        ensures faults { RisesOnReadFault (S.faults src.old) (S.faults src.new) result }
    {
        let body = take_long(alloc, src, len, Cause::Truncated)?;
        are_bytes(&body);
        let id = u32_le(&body, 0);
        let index = u32_le(&body, 4);
        let pairs = &body[8..];
        if let Some(cause) = pairs_fault(pairs) {
            return Err(Stop::Refused(cause));
        }
        if id >= EMULATOR_IDS {
            return Err(Stop::Refused(Cause::BadEmulator(u64::from(id))));
        }
        let key = PartKey {
            code: PAIRS,
            key1: id,
            key2: index,
        };
        match self.emulators.add_pairs(key, pairs) {
            Ok(()) => {}
            Err(PairsAnswer::TooMany) => return Err(Stop::Refused(Cause::TooManyPairs)),
            Err(PairsAnswer::Memory) => return Err(Stop::Memory),
        }
        if index >= EMULATOR_INDICES {
            return Err(Stop::Refused(Cause::EmulatorIndex(u64::from(index))));
        }
        self.emulated = true;
        Ok(())
    }

    /// Takes the body of an EMULATOR_CONTEXT, and keeps the context.
    fn take_context<S: Source>(
        &mut self,
        alloc: Global,
        src: &mut S,
        len: u32,
    ) -> Result<(), Stop<Cause>>
        requires front { 8 ≤ len }
        requires small { len ≤ most_body }
        requires begun { IsLibxlBegun I.kept self.old }
        ensures read { AgreesWithJudging (λ _ c. TakesLibxl I.is_of self.old self.new 3 c) (S.left src.old) (S.left src.new) (context_at len) result }
        ensures begun { OnOk result (IsLibxlBegun I.kept self.new) }
        ensures others { OnOk result ((self.new.records ≡ self.old.records) × (self.new.image ≡ self.old.image)) }
        ensures faults { RisesOnReadFault (S.faults src.old) (S.faults src.new) result }
    {
        let body = take_long(alloc, src, len, Cause::Truncated)?;
        are_bytes(&body);
        let id = u32_le(&body, 0);
        let index = u32_le(&body, 4);
        if id >= EMULATOR_IDS {
            return Err(Stop::Refused(Cause::BadEmulator(u64::from(id))));
        }
        if index >= EMULATOR_INDICES {
            return Err(Stop::Refused(Cause::EmulatorIndex(u64::from(index))));
        }
        let key = PartKey {
            code: CONTEXT,
            key1: id,
            key2: index,
        };
        match self.emulators.set_context(key, &body[8..]) {
            Ok(()) => {
                self.emulated = true;
                Ok(())
            }
            Err(_) => Err(Stop::Memory),
        }
    }

    /// Takes the body of a record that isn't LIBXC_CONTEXT, and keeps what it says.
    fn take_body<S: Source>(
        &mut self,
        alloc: Global,
        src: &mut S,
        head: RecordHead,
    ) -> Result<(), Stop<Cause>>
        requires small { head.len ≤ most_body }
        requires allowed { length_allowed head.kind head.len ≡ true }
        requires no_image { head.kind ≢ 1 }
        requires begun { IsLibxlBegun I.kept self.old }
        ensures read { AgreesWithJudging (λ _ c. TakesLibxl I.is_of self.old self.new head.kind c) (S.left src.old) (S.left src.new) (body_of_type self.old.emulators head.kind head.len) result }
        ensures begun { OnOk result (IsLibxlBegun I.kept self.new) }
        ensures others { OnOk result ((self.new.records ≡ self.old.records) × (self.new.image ≡ self.old.image)) }
        ensures end { OnOk result (head.kind ≡ 0 → self.new ≡ self.old) }
        ensures faults { RisesOnReadFault (S.faults src.old) (S.faults src.new) result }
    {
        match head.kind {
            EMULATOR_XENSTORE_DATA => self.take_pairs(alloc, src, head.len),
            EMULATOR_CONTEXT => self.take_context(alloc, src, head.len),
            _ => skip_body(src, head.len),
        }
    }

    /// What is kept of the whole stream.
    fn finish(self) -> Result<I, Memory>
        requires begun { IsLibxlBegun I.kept self }
        requires closed { IsClosed I.kind_of self }
        ensures read { IfOk result (λ whole. (records : List LibxlRecord) → IsLibxlSeen I.is_of self records → I.is_of_stream whole (Wrapped records)) }
        ensures finished { IfOk result (λ whole. I.finished whole) }
    {
        let WrapperSeen {
            emulators,
            image,
            ..
        } = self;
        let Some(kept) = image else { unreachable!() };
        kept.finish(emulators)
    }
}

impl<I> WrapperSeen<I> {
    ghost use Rattle.mig_libxl.specs.Seen.{IsLibxlSeen, IsLibxlBegun, IsClosed, TakesLibxl};

    /// Takes the image behind LIBXC_CONTEXT.
    fn take_image<S: Source>(
        &mut self,
        alloc: Global,
        src: &mut S,
    ) -> Result<(), Stop<(Place, Cause)>>
    where
        I: TakesImage<S>,
        requires first { self.old.image ≡ None }
        requires begun { IsLibxlBegun I.kept self.old }
        ensures read { AgreesWithJudging (λ _ c. TakesLibxl I.is_of self.old self.new 1 c) (S.left src.old) (S.left src.new) inner_at result }
        ensures begun { OnOk result (IsLibxlBegun I.kept self.new) }
        ensures others { OnOk result ((self.new.records ≡ self.old.records) × (self.new.emulated ≡ self.old.emulated)) }
        ensures faults { RisesOnReadFault (S.faults src.old) (S.faults src.new) result }
    {
        match I::take(alloc, src) {
            Ok(kept) => {
                self.image = Some(kept);
                Ok(())
            }
            Err(answer) => Err(stop_for(answer)),
        }
    }

    /// Takes what is behind a head: a body, or the image behind LIBXC_CONTEXT.
    fn take_content<S: Source>(
        &mut self,
        alloc: Global,
        src: &mut S,
        head: RecordHead,
    ) -> Result<(), Stop<(Place, Cause)>>
    where
        I: TakesImage<S>,
        requires may { MayFollow (behind_of I.kind_of self.old) head.kind head.len }
        requires begun { IsLibxlBegun I.kept self.old }
        ensures read { (records : List LibxlRecord) → IsLibxlSeen I.is_of self.old records → AgreesWithJudging (λ _ c. TakesLibxl I.is_of self.old self.new head.kind c) (S.left src.old) (S.left src.new) (libxl_content_at records head.kind head.len) result }
        ensures begun { OnOk result (IsLibxlBegun I.kept self.new) }
        ensures others { OnOk result (self.new.records ≡ self.old.records) }
        ensures end { OnOk result (head.kind ≡ 0 → self.new ≡ self.old) }
        ensures faults { RisesOnReadFault (S.faults src.old) (S.faults src.new) result }
    {
        if head.kind == LIBXC_CONTEXT {
            return self.take_image(alloc, src);
        }
        let place = Place::LibxlRecord(u64::from(self.records));
        match self.take_body(alloc, src, head) {
            Ok(()) => Ok(()),
            Err(stop) => Err(stop.at(place)),
        }
    }

    /// Takes the next record, and keeps what it says. Says whether it ends the stream.
    fn take_record<S: Source>(
        &mut self,
        alloc: Global,
        src: &mut S,
    ) -> Result<bool, Stop<(Place, Cause)>>
    where
        I: TakesImage<S>,
        requires begun { IsLibxlBegun I.kept self.old }
        ensures read { (records : List LibxlRecord) → IsLibxlSeen I.is_of self.old records →
            AgreesWithJudging (λ over r. IsLibxlSeen I.is_of self.new (records ++ r ∷ []) × (over ≡ (r.type == 0))) (S.left src.old) (S.left src.new) (libxl_record_at records) result }
        ensures begun { OnOk result (IsLibxlBegun I.kept self.new) }
        ensures closed { IfOk result (λ over. over ≡ true → IsClosed I.kind_of self.new) }
        ensures counted { OnOk result ((self.new.records ≡ self.old.records + 1) × (self.old.records < most_records)) }
        ensures faults { RisesOnReadFault (S.faults src.old) (S.faults src.new) result }
    {
        let place = Place::LibxlRecord(u64::from(self.records));
        let head = match self.take_head(src) {
            Ok(head) => head,
            Err(stop) => return Err(stop.at(place)),
        };
        self.take_content(alloc, src, head)?;
        match take_padding(src, head.len) {
            Ok(()) => {}
            Err(stop) => return Err(stop.at(place)),
        }
        self.records += 1;
        Ok(head.kind == LIBXL_END)
    }
}

/// Takes records up to the one that ends the stream.
fn take_records<S: Source, I: TakesImage<S>>(
    alloc: Global,
    src: &mut S,
) -> Result<WrapperSeen<I>, Stop<(Place, Cause)>>
    ensures read { AgreesWithJudging (IsLibxlSeen I.is_of) (S.left src.old) (S.left src.new) libxl_records_at result }
    ensures begun { IfOk result (λ seen. IsLibxlBegun I.kept seen) }
    ensures closed { IfOk result (λ seen. IsClosed I.kind_of seen) }
    ensures faults { RisesOnReadFault (S.faults src.old) (S.faults src.new) result }
{
    let mut seen = WrapperSeen::new(alloc);
    while !seen.take_record(alloc, src)? {}
    Ok(seen)
}

/// Takes the header behind the ident of a libxl stream.
fn take_header<S: Source>(src: &mut S) -> Result<(), Stop<Cause>>
    ensures read { AgreesWithJudging (λ _ _. ⊤) (S.left src.old) (S.left src.new) header_at result }
    ensures faults { RisesOnReadFault (S.faults src.old) (S.faults src.new) result }
    ensures takes_no_memory { ¬ IsErrOf result NoMemory }
{
    let mut header = [0; 8];
    take_part(src, &mut header, Cause::Truncated)?;
    match LibxlHeader::decode(&header) {
        Ok(_) => Ok(()),
        Err(cause) => Err(Stop::Refused(cause)),
    }
}

/// Takes a libxl stream behind its ident.
fn read_wrapped<S: Source, I: TakesImage<S>>(
    alloc: Global,
    src: &mut S,
) -> Result<I, Stop<(Place, Cause)>>
    ensures read { AgreesWithJudging I.is_of_stream (S.left src.old) (S.left src.new) wrapped_at result }
    ensures finished { IfOk result (λ kept. I.finished kept) }
    ensures faults { RisesOnReadFault (S.faults src.old) (S.faults src.new) result }
{
    if let Err(stop) = take_header(src) {
        return Err(stop.at(Place::LibxlHeader));
    }
    let seen = take_records::<S, I>(alloc, src)?;
    match seen.finish() {
        Ok(kept) => Ok(kept),
        Err(Memory) => Err(Stop::Memory),
    }
}

/// Takes an image behind its first 8 bytes.
fn read_bare<S: Source, I: TakesImage<S>>(
    alloc: Global,
    src: &mut S,
    first: &[u8; 8],
) -> Result<I, Stop<(Place, Cause)>>
    ensures read { AgreesWithJudging I.is_of_stream (S.left src.old) (S.left src.new) (λ rest. bare_at (first.now ++ rest)) result }
    ensures finished { IfOk result (λ kept. I.finished kept) }
    ensures faults { RisesOnReadFault (S.faults src.old) (S.faults src.new) result }
{
    if let Some(cause) = ImageHeader::marker_fault(first) {
        return Err(Stop::Refused((Place::ImageHeader, cause)));
    }
    match I::take_bare(alloc, src) {
        Ok(kept) => Ok(kept),
        Err(answer) => Err(stop_for(answer)),
    }
}

/// Takes a stream of either form.
fn read_form<S: Source, I: TakesImage<S>>(
    alloc: Global,
    src: &mut S,
) -> Result<I, Stop<(Place, Cause)>>
    ensures read { AgreesWithJudging I.is_of_stream (S.left src.old) (S.left src.new) stream_at result }
    ensures finished { IfOk result (λ kept. I.finished kept) }
    ensures faults { RisesOnReadFault (S.faults src.old) (S.faults src.new) result }
{
    let mut first = [0; 8];
    if let Err(stop) = take_part(src, &mut first, Cause::Truncated) {
        return Err(stop.at(Place::ImageHeader));
    }
    if LibxlHeader::is_ident(&first) {
        read_wrapped(alloc, src)
    } else {
        read_bare(alloc, src, &first)
    }
}

/// Reads a stream of either form from its first byte to its last END, and leaves what follows it unread; the first 8
/// bytes tell the form. The guest is in its blank form, with the parts of its emulators. Version, number of records and
/// how many entries behind a VERIFY differ are those of the image. `Refused` has the place and the cause of the first
/// fault, and then the source was read up to the end of the faulty part. `ReadFault` comes only where a read failed.
pub fn read_any<S: Source>(alloc: Global, src: &mut S) -> Result<Reading, StreamAnswer>
    ensures read { ReadsStream (S.left src.old) (S.left src.new) result }
    ensures streamed { IfOk result (λ reading. IsStreamed reading.guest) }
    ensures faults { RisesOnReadFault (S.faults src.old) (S.faults src.new) (or_stop result) }
{
    match read_form::<S, Reading>(alloc, src) {
        Ok(reading) => Ok(reading),
        Err(stop) => Err(answer_for(stop)),
    }
}

/// Judges a stream of either form, and leaves unread what `read_any` leaves. It keeps emulators and page tables, and no
/// other page; it compares nothing behind a VERIFY, and says in the tally that one came.
pub fn judge_any<S: Source>(alloc: Global, src: &mut S) -> Result<Tally, StreamAnswer>
    ensures read { JudgesStream (S.left src.old) (S.left src.new) result }
    ensures faults { RisesOnReadFault (S.faults src.old) (S.faults src.new) (or_stop result) }
{
    match read_form::<S, Tally>(alloc, src) {
        Ok(tally) => Ok(tally),
        Err(stop) => Err(answer_for(stop)),
    }
}

/// Judges a stream of either form in a file, and leaves unread what `read_any` leaves. It answers the outline of the
/// guest that was sent, and the place of each frame's page in the file. No page but a table's is read.
pub fn place_any<'a, P: PageFile>(
    alloc: Global,
    src: &mut FileSource<'a, P>,
) -> Result<PlacedGuest<'a, P>, StreamAnswer>
    ensures read { AgreesWithJudging (IsPlacedStream P.bytes) (left_in P.bytes src.old) (left_in P.bytes src.new) stream_at (or_stop result) }
    ensures formed { IfOk result (λ placed. IsFormed placed.outline) }
    ensures faults { RisesOnReadFault (failed_in src.old) (failed_in src.new) (or_stop result) }
{
    match read_form::<FileSource<'a, P>, PlacedGuest<'a, P>>(alloc, src) {
        Ok(placed) => Ok(placed),
        Err(stop) => Err(answer_for(stop)),
    }
}

/// Judges a stream of either form in a file, and leaves unread what `read_any` leaves. It keeps emulators and page tables, and
/// no other page: an entry behind a VERIFY is compared with the page of its frame where that is in the file. A page that
/// can't be read there is a read fault.
pub fn compare_any<'a, P: PageFile>(
    alloc: Global,
    src: &mut FileSource<'a, P>,
) -> Result<Comparison, StreamAnswer>
    ensures read { AgreesWithJudging IsStreamComparison (left_in P.bytes src.old) (left_in P.bytes src.new) stream_at (or_stop result) }
    ensures faults { RisesOnReadFault (failed_in src.old) (failed_in src.new) (or_stop result) }
{
    match read_form::<FileSource<'a, P>, Comparison>(alloc, src) {
        Ok(comparison) => Ok(comparison),
        Err(stop) => Err(answer_for(stop)),
    }
}
