ghost use Rattle.std.specs.Prelude.{◌≡◌, ◌≤◌, ◌+◌, ◌||◌, ◌<◌, ◌∷◌, [], ◌++◌, ⊤, List, true, IfNone, IfOk, OnOk, IsErrOf, Some, None};
ghost use Rattle.std.specs.FinMap as maps;
ghost use Rattle.mig_legacy.specs.Common.{or_stop, RisesOnReadFault, AgreesWithJudging, FrameMap, first_named, Hvm, most_frames, IsStreamed, IsStreamedBare, with_emulators, AreEmulators, judged_as, NotesOn};
ghost use Rattle.mig_bytes.specs.declared.stop.Stop.TheVariants.{Memory as NoMemory};
ghost use Rattle.mig_legacy.specs.declared.chunk.ChunkKind.TheVariants as kinds;
ghost use Rattle.mig_legacy.specs.LegacyForm.{most_chunks, start_causes, place_causes, start_form, type_form, content_form, chunk_form};
ghost use Rattle.mig_legacy.specs.Legacy.{LegacyChunk, is_end, is_value_of};
ghost use Rattle.mig_legacy.specs.Seen.{NotesChunks, put_chunk_frames};
ghost use Rattle.mig_legacy.specs.Seen.{IsLegacySeen, IsLegacyBegun, IsLegacyTaken, TakesLegacy};
ghost use Rattle.mig_legacy.specs.Chunks.{IsWithinLimits};
ghost use Rattle.mig_legacy.specs.Stream.{chunks_at, legacy_at, JudgesLegacy, ReadsLegacy};

use crate::body::{take_batch, take_clock, take_toolstack, take_value, take_vcpus};
use crate::chunk::{ChunkKind, chunk_kind};
use crate::tail::{take_device, take_tail};
use mig_bytes::{Answer, Memory, Source, Stop, answer_for, take_part, u32_le};
use mig_guest::Guest;
use mig_headers::{ImageHeader, Kind, LegacyCause, LegacyPlace, LibxlHeader};
use mig_libxl_form::Emulators;
use mig_outline::Outlines;
use mig_pagetypes::MOST_FRAMES;
use mig_restore::{AllFrames, KeepsFrames};
use std::alloc::Global;

/// The most chunks of a stream.
const MOST_CHUNKS: u32 = 1 << 28;

/// Why a legacy stream isn't read.
pub type LegacyAnswer = Answer<LegacyPlace, LegacyCause>;

/// What is wrong with the first 8 bytes.
fn start_fault(width: &[u8; 8]) -> Option<LegacyCause>
    ensures { result ≡ first_named (start_causes width.now) }
{
    if ImageHeader::marker_fault(width).is_none() || LibxlHeader::is_ident(width) {
        return Some(LegacyCause::Modern);
    }
    if u32_le(width, 4) != 0 {
        return Some(LegacyCause::Tools32);
    }
    None
}

/// Takes the width of the P2M, and keeps nothing of it.
#[tactic(auto, unfolding(mig_bytes_form::specs::Form::judged_as))]
fn take_start<S: Source>(src: &mut S) -> Result<(), Stop<LegacyCause>>
    ensures read { AgreesWithJudging (λ _ _. ⊤) (S.left src.old) (S.left src.new) (judged_as start_form) result }
    ensures faults { RisesOnReadFault (S.faults src.old) (S.faults src.new) result }
    ensures takes_no_memory { ¬ IsErrOf result NoMemory }
{
    let mut width = [0; 8];
    take_part(src, &mut width, LegacyCause::Truncated)?;
    match start_fault(&width) {
        Some(cause) => Err(Stop::Refused(cause)),
        None => Ok(()),
    }
}

/// Whether a chunk that is this is the last.
fn ends_chunks(kind: ChunkKind) -> bool
    ensures { result ≡ is_end kind }
{
    match kind {
        ChunkKind::End => true,
        _ => false,
    }
}

/// What the reader keeps of the chunks before.
#[derive(Drop)]
pub(crate) struct ChunksSeen {
    pub(crate) guest: Guest,
    pub(crate) emulators: Emulators,
    pub(crate) chunks: u32,
    /// Whether the frame of I/O requests was told, and that of buffered ones.
    pub(crate) requests: bool,
    pub(crate) buffered: bool,
}

impl ChunksSeen {
    /// Before the first chunk.
    fn new<S: Source, F: KeepsFrames<S>>(alloc: Global) -> ChunksSeen
        ensures seen { IsLegacySeen F.kept result [] }
        ensures begun { IsLegacyBegun result }
    {
        F::goes_on();
        ChunksSeen {
            guest: Guest::new(alloc, Kind::Hvm),
            emulators: Emulators::new(alloc),
            chunks: 0,
            requests: false,
            buffered: false,
        }
    }

    /// What is wrong with a chunk that is this, behind those before.
    fn kind_fault(&self, kind: ChunkKind) -> Option<LegacyCause>
        ensures fault { (kept : FrameMap → FrameMap) (chunks : List LegacyChunk) → IsLegacySeen kept self.now chunks → result ≡ first_named (place_causes chunks kind) }
        ensures room { IfNone result (self.now.chunks < most_chunks) }
        ensures few { IfNone result (is_end kind ≡ true → maps.len self.now.guest.frames ≤ most_frames) }
    {
        let ends = ends_chunks(kind);
        if ends && self.requests != self.buffered {
            return Some(LegacyCause::UnpairedIoreq);
        }
        if self.chunks >= MOST_CHUNKS {
            return Some(LegacyCause::TooManyChunks);
        }
        if ends && self.guest.frames() > MOST_FRAMES {
            return Some(LegacyCause::TooManyFrames);
        }
        None
    }

    /// Takes the type of the next chunk.
    #[tactic(auto, using(crate::proofs::ChunkNumbers::sound_kind), unfolding(mig_bytes_form::specs::Form::judged_as))]
    fn take_kind<S: Source>(&self, src: &mut S) -> Result<ChunkKind, Stop<LegacyCause>>
        ensures read { (kept : FrameMap → FrameMap) (chunks : List LegacyChunk) → IsLegacySeen kept self.now chunks → AgreesWithJudging (λ kind k. k ≡ kind) (S.left src.old) (S.left src.new) (judged_as (type_form chunks)) result }
        ensures sound { IfOk result (λ kind. IsWithinLimits kind) }
        ensures room { OnOk result (self.now.chunks < most_chunks) }
        ensures few { IfOk result (λ kind. is_end kind ≡ true → maps.len self.now.guest.frames ≤ most_frames) }
        ensures faults { RisesOnReadFault (S.faults src.old) (S.faults src.new) result }
        ensures takes_no_memory { ¬ IsErrOf result NoMemory }
    {
        let mut number = [0; 4];
        take_part(src, &mut number, LegacyCause::Truncated)?;
        let kind = match chunk_kind(u32_le(&number, 0)) {
            Ok(kind) => kind,
            Err(cause) => return Err(Stop::Refused(cause)),
        };
        match self.kind_fault(kind) {
            Some(cause) => Err(Stop::Refused(cause)),
            None => Ok(kind),
        }
    }

    /// Takes the body of a chunk that is this, and keeps what it says.
    #[tactic(auto, unfolding(mig_bytes_form::specs::Form::judged_as))]
    fn take_content<S: Source, F: KeepsFrames<S>>(
        &mut self,
        alloc: Global,
        src: &mut S,
        keeper: &mut F,
        kind: ChunkKind,
    ) -> Result<(), Stop<LegacyCause>>
        requires begun { IsLegacyBegun self.old }
        requires sound { IsWithinLimits kind }
        ensures read { (chunks : List LegacyChunk) → IsLegacySeen F.kept self.old chunks → AgreesWithJudging (λ _ c. TakesLegacy F.put self.old self.new c) (S.left src.old) (S.left src.new) (judged_as (content_form chunks kind)) result }
        ensures noted { (chunks : List LegacyChunk) → IsLegacySeen F.kept self.old chunks → AgreesWithJudging (λ _ c. NotesOn F.notes keeper.old keeper.new (S.left src.old) (S.left src.new) (put_chunk_frames c)) (S.left src.old) (S.left src.new) (judged_as (content_form chunks kind)) result }
        ensures begun { OnOk result (IsLegacyBegun self.new) }
        ensures chunks { OnOk result (self.new.chunks ≡ self.old.chunks) }
        ensures end { OnOk result (is_end kind ≡ true → self.new ≡ self.old) }
        ensures faults { RisesOnReadFault (S.faults src.old) (S.faults src.new) result }
    {
        F::goes_on();
        match kind {
            ChunkKind::Batch(count) => take_batch(alloc, src, keeper, count, &mut self.guest),
            ChunkKind::VcpuMap => take_vcpus(src),
            ChunkKind::Tsc => take_clock(alloc, src, &mut self.guest),
            ChunkKind::Toolstack => take_toolstack(alloc, src, &mut self.emulators),
            ChunkKind::Param(index) => take_value(src, index, &mut self.guest),
            ChunkKind::End | ChunkKind::LastCheckpoint => Ok(()),
        }
    }

    /// Counts a chunk that was taken.
    fn count(&mut self, kind: ChunkKind)
        requires room { self.old.chunks < most_chunks }
        ensures guest { self.new.guest ≡ self.old.guest }
        ensures emulators { self.new.emulators ≡ self.old.emulators }
        ensures chunks { self.new.chunks ≡ self.old.chunks + 1 }
        ensures requests { self.new.requests ≡ (self.old.requests || is_value_of 32 kind) }
        ensures buffered { self.new.buffered ≡ (self.old.buffered || is_value_of 33 kind) }
    {
        self.chunks += 1;
        match kind {
            ChunkKind::Param(32) => self.requests = true,
            ChunkKind::Param(33) => self.buffered = true,
            _ => {}
        }
    }

    /// Takes the next chunk, and keeps what it says. Says whether it is the last.
    fn take_chunk<S: Source, F: KeepsFrames<S>>(
        &mut self,
        alloc: Global,
        src: &mut S,
        keeper: &mut F,
    ) -> Result<bool, Stop<LegacyCause>>
        requires begun { IsLegacyBegun self.old }
        ensures read { (chunks : List LegacyChunk) → IsLegacySeen F.kept self.old chunks →
            AgreesWithJudging (λ over c. IsLegacySeen F.kept self.new (chunks ++ c ∷ []) × (over ≡ is_end c.kind)) (S.left src.old) (S.left src.new) (judged_as (chunk_form chunks)) result }
        ensures noted { (chunks : List LegacyChunk) → IsLegacySeen F.kept self.old chunks →
            AgreesWithJudging (λ _ c. NotesOn F.notes keeper.old keeper.new (S.left src.old) (S.left src.new) (put_chunk_frames c.content)) (S.left src.old) (S.left src.new) (judged_as (chunk_form chunks)) result }
        ensures begun { OnOk result (IsLegacyBegun self.new) }
        ensures few { IfOk result (λ over. over ≡ true → maps.len self.new.guest.frames ≤ most_frames) }
        ensures counted { OnOk result ((self.new.chunks ≡ self.old.chunks + 1) × (self.old.chunks < most_chunks)) }
        ensures faults { RisesOnReadFault (S.faults src.old) (S.faults src.new) result }
    {
        F::goes_on();
        let kind = self.take_kind(src)?;
        self.take_content(alloc, src, keeper, kind)?;
        self.count(kind);
        Ok(ends_chunks(kind))
    }

    /// The guest, with the device model put into it.
    pub(crate) fn finish(self) -> Result<Guest, Memory>
        requires plain { IsStreamedBare self.guest }
        requires hvm { self.guest.kind ≡ Hvm }
        requires emulators { AreEmulators self.emulators }
        ensures ok { IfOk result (λ guest. guest ≡ with_emulators self.guest self.emulators) }
        ensures streamed { IfOk result (λ guest. IsStreamed guest) }
    {
        let ChunksSeen {
            mut guest,
            emulators,
            ..
        } = self;
        emulators.put_into(&mut guest)?;
        Ok(guest)
    }
}

/// Takes chunks up to the last.
fn take_chunks<S: Source, F: KeepsFrames<S>>(
    alloc: Global,
    src: &mut S,
    keeper: &mut F,
) -> Result<ChunksSeen, Stop<(LegacyPlace, LegacyCause)>>
    ensures read { AgreesWithJudging (IsLegacySeen F.kept) (S.left src.old) (S.left src.new) chunks_at result }
    ensures noted { AgreesWithJudging (λ _ chunks. NotesChunks F.notes keeper.old keeper.new (S.left src.old) (S.left src.new) chunks) (S.left src.old) (S.left src.new) chunks_at result }
    ensures begun { IfOk result (λ seen. IsLegacyBegun seen) }
    ensures few { IfOk result (λ seen. maps.len seen.guest.frames ≤ most_frames) }
    ensures faults { RisesOnReadFault (S.faults src.old) (S.faults src.new) result }
{
    let mut seen = ChunksSeen::new::<S, F>(alloc);
    'chunks: loop {
        let number = seen.chunks;
        match seen.take_chunk(alloc, src, keeper) {
            Ok(true) => return Ok(seen),
            Ok(false) => {}
            Err(stop) => return Err(stop.at(LegacyPlace::Chunk(u64::from(number)))),
        }
    }
}

/// Takes a whole stream, part after part.
pub(crate) fn take_parts<S: Source, F: KeepsFrames<S>>(
    alloc: Global,
    src: &mut S,
    keeper: &mut F,
) -> Result<ChunksSeen, Stop<(LegacyPlace, LegacyCause)>>
    ensures read { AgreesWithJudging (IsLegacyTaken F.kept) (S.left src.old) (S.left src.new) legacy_at result }
    ensures noted { AgreesWithJudging (λ _ s. NotesChunks F.notes keeper.old keeper.new (S.left src.old) (S.left src.new) s.chunks) (S.left src.old) (S.left src.new) legacy_at result }
    ensures plain { IfOk result (λ seen. IsStreamedBare seen.guest) }
    ensures hvm { IfOk result (λ seen. seen.guest.kind ≡ Hvm) }
    ensures emulators { IfOk result (λ seen. AreEmulators seen.emulators) }
    ensures faults { RisesOnReadFault (S.faults src.old) (S.faults src.new) result }
{
    F::goes_on();
    if let Err(stop) = take_start(src) {
        return Err(stop.at(LegacyPlace::Start));
    }
    let mut seen = take_chunks(alloc, src, keeper)?;
    if let Err(stop) = take_tail(alloc, src, &mut seen.guest) {
        return Err(stop.at(LegacyPlace::Tail));
    }
    match take_device(alloc, src, &mut seen.emulators) {
        Ok(()) => Ok(seen),
        Err(stop) => Err(stop.at(LegacyPlace::Device)),
    }
}

/// Reads a legacy stream of an HVM guest from its first byte to the end of the device model's record, and leaves what
/// follows it unread. Without such a record the stream ends where the input does. The guest is in its blank form, with
/// the parts of its device model. `Refused` has the place and the cause of the first fault, and then the source was
/// read up to the end of the faulty part. `ReadFault` comes only where a read failed (Xen's xg_save_restore.h).
pub fn read_legacy<S: Source>(alloc: Global, src: &mut S) -> Result<Guest, LegacyAnswer>
    ensures read { ReadsLegacy (S.left src.old) (S.left src.new) result }
    ensures streamed { IfOk result (λ guest. IsStreamed guest) }
    ensures faults { RisesOnReadFault (S.faults src.old) (S.faults src.new) (or_stop result) }
{
    match take_parts(alloc, src, &mut AllFrames) {
        Ok(seen) => match seen.finish() {
            Ok(guest) => Ok(guest),
            Err(Memory) => Err(Answer::Memory),
        },
        Err(stop) => Err(answer_for(stop)),
    }
}

/// Judges a legacy stream as `read_legacy` does, and keeps no page of it. Answers how many frames the guest has.
pub fn judge_legacy<S: Source>(alloc: Global, src: &mut S) -> Result<u64, LegacyAnswer>
    ensures read { JudgesLegacy (S.left src.old) (S.left src.new) result }
    ensures faults { RisesOnReadFault (S.faults src.old) (S.faults src.new) (or_stop result) }
{
    match take_parts(alloc, src, &mut Outlines) {
        Ok(seen) => Ok(seen.guest.frames()),
        Err(stop) => Err(answer_for(stop)),
    }
}
