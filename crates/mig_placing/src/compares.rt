ghost use Rattle.std.specs.Prelude.{◌≡◌, ◌<◌, ℕ, List, Bool, IfOk, IfSome, IfNone, None, Some, true, if◌then◌else◌, ◌&&◌};
ghost use Rattle.std.specs.FinMap as maps;
ghost use Rattle.std.specs.declared.option.Option.{Option};
ghost use Rattle.mig_file.specs.Files.{left_at};
ghost use Rattle.mig_outline.specs.Outline.{outline_frames, put_outline_entry};
ghost use Rattle.mig_placed.specs.InFile.{frames_in_file, page_in_file};
ghost use Rattle.mig_placing.specs.Compared.{frame_there};
ghost use Rattle.mig_placing.specs.Places.{ArePlaced};
ghost use Rattle.mig_restore_form.specs.Mean.{is_same_frame, is_same_page as same_page, some_frame};

use crate::keeps::Placing;
use mig_bytes::{Failed, Stop};
use mig_file::{FileSource, PageFile};
use mig_guest::Guest;
use mig_headers::Cause;
use mig_pagetypes::{FrameWord, PageType};
use mig_placed::Places;
use mig_pvtables::WholeAnswer;
use mig_restore::{KeepsFrames, is_same_page, take_page};
use mig_restore_form::{pfn_in, type_in, type_in_guest};
use std::alloc::Global;

/// What the places say of the frame of this number.
fn cell_of(places: &Places, pfn: u64) -> Option<FrameWord>
    ensures some { IfSome result (λ cell. (file : Option (List ℕ)) → maps.get (frames_in_file file places.now) pfn ≡ Some (frame_there file cell)) }
    ensures none { IfNone result ((file : Option (List ℕ)) → maps.get (frames_in_file file places.now) pfn ≡ None) }
{
    match places.next(pfn) {
        Some((first, cell)) => { if first == pfn { Some(cell) } else { None } }
        None => None,
    }
}

/// Whether this is the page at a place of the file, counted from 1.
fn has_page<P: PageFile>(file: &P, place: u64, page: &[u8; 4096]) -> Result<bool, Failed>
    requires { 0 < place }
    ensures { IfOk result (λ same. (all : List ℕ) → P.bytes file.now ≡ Some all → same ≡ same_page (page_in_file (Some all) place) (Some page.now)) }
{
    let mut there = [0; 4096];
    match file.read_at(place - 1, &mut there) {
        Ok(()) => Ok(is_same_page(Some(&there), Some(page))),
        Err(failed) => Err(failed),
    }
}

/// Whether a frame of this type is there, where one of the other is sent.
fn is_of_type(there: PageType, kind: PageType) -> bool
    ensures { (page sent : Option (List ℕ)) → is_same_frame (Some (record { type = there; page = page })) (some_frame kind sent) ≡ (result && same_page page sent) }
{
    kind != PageType::Xtab && there == kind
}

/// Whether no frame is sent, as it is with XTAB.
fn is_no_frame(kind: PageType) -> bool
    ensures { (sent : Option (List ℕ)) → result ≡ is_same_frame None (some_frame kind sent) }
{
    kind == PageType::Xtab
}

/// Whether the frame that a cell says has this type, and this page where there is some.
fn has_cell<P: PageFile>(
    file: &P,
    cell: FrameWord,
    kind: PageType,
    some: bool,
    page: &[u8; 4096],
) -> Result<bool, Failed>
    ensures { IfOk result (λ same. (all : List ℕ) → P.bytes file.now ≡ Some all → same ≡ is_same_frame (Some (frame_there (Some all) cell)) (some_frame kind (if some then Some page.now else None))) }
{
    if !is_of_type(cell.kind, kind) {
        return Ok(false);
    }
    if !some {
        return Ok(cell.pfn == 0);
    }
    if cell.pfn == 0 {
        return Ok(false);
    }
    has_page(file, cell.pfn, page)
}

/// The places of pages are noted as `Placing` does, and the entries behind a VERIFY are compared with the pages in the file.
#[derive(Drop)]
pub struct Comparing<'a, P: PageFile> {
    placing: Placing<'a, P>,
}

impl<'a, P: PageFile> Comparing<'a, P> {
    /// No frames are noted.
    pub fn new(alloc: Global, file: &'a P) -> Comparing<'a, P>
        ensures begun { (all : List ℕ) (at : ℕ) → P.bytes file.now ≡ Some all → ArePlaced (P.bytes result.placing.file.now) result.placing.places all (left_at (P.bytes file.now) at) maps.empty }
    {
        Comparing {
            placing: Placing::new(alloc, file),
        }
    }

    /// Whether the frame of this number has this type, and this page where there is some; whether there is no frame, for XTAB.
    fn has_frame(
        &self,
        pfn: u64,
        kind: PageType,
        some: bool,
        page: &[u8; 4096],
    ) -> Result<bool, Failed>
        ensures { IfOk result (λ same. (all : List ℕ) → P.bytes self.now.placing.file.now ≡ Some all → same ≡ is_same_frame (maps.get (frames_in_file (Some all) self.now.placing.places) pfn) (some_frame kind (if some then Some page.now else None))) }
    {
        match cell_of(&self.placing.places, pfn) {
            Some(cell) => has_cell(self.placing.file, cell, kind, some, page),
            None => Ok(is_no_frame(kind)),
        }
    }
}

impl<'a, P: PageFile> KeepsFrames<FileSource<'a, P>> for Comparing<'a, P> {
    ghost kept = { outline_frames };

    ghost put = { put_outline_entry };

    ghost notes = { λ keeper all left frames. ArePlaced (P.bytes keeper.placing.file.now) keeper.placing.places all left frames };

    ghost compares = { true };

    fn goes_on() {
        <Placing<'a, P> as KeepsFrames<FileSource<'a, P>>>::goes_on()
    }

    fn take_entry(
        &mut self,
        src: &mut FileSource<'a, P>,
        place: u32,
        word: u64,
        guest: &mut Guest,
    ) -> Result<(), Stop<Cause>> {
        self.placing.take_entry(src, place, word, guest)
    }

    fn check_entry(
        &self,
        src: &mut FileSource<'a, P>,
        place: u32,
        word: u64,
        guest: &Guest,
    ) -> Result<bool, Stop<Cause>> {
        let kind = type_in_guest(guest.kind(), type_in(word));
        let mut page = [0; 4096];
        let some = take_page(src, place, word, guest, &mut page)?;
        match self.has_frame(pfn_in(word), kind, some, &page) {
            Ok(same) => Ok(!same),
            Err(_) => {
                src.note_fault();
                Err(Stop::ReadFault)
            }
        }
    }

    fn fault_at_end(alloc: Global, guest: &Guest) -> Result<(), WholeAnswer> {
        <Placing<'a, P> as KeepsFrames<FileSource<'a, P>>>::fault_at_end(alloc, guest)
    }
}
