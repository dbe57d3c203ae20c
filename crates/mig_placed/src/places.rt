ghost use Rattle.std.specs.Prelude.{◌≡◌, ◌≢◌, ℕ, ◌+◌, ◌<◌, ◌≤◌, ◌^◌, OnOk, OnErr, IfSome, IfNone, Some, None, true};
ghost use Rattle.std.specs.FinMap as maps;
ghost use Rattle.mig_placed.specs.Common.{type_has_data, pfn_limit, Xtab, cell_type, cell_mark, IsCell};
ghost use Rattle.mig_placed.specs.InFile.{place_limit, place_for, cell_for, with_place};
ghost use Rattle.mig_placed.specs.Runs.{IsFirstCell};
ghost use Rattle.mig_placed.specs.Joined.{EndAllWithin};

use mig_bytes::Memory;
use mig_pagestore_index::Index;
use mig_pagetypes::{FrameWord, PageType, decode_word, encode_word};
use std::alloc::Global;
use std::marker::Model;

/// How many bytes a page has.
pub(crate) const PAGE: u64 = 4096;

/// The cells of frames, by frame number (PFN): the type of each, and where in a file its page is.
#[derive(Drop)]
pub struct Places {
    index: Index,
}

impl Model for Places {
    ghost use Rattle.std.specs.Coded.{coded_ℕ};
    ghost use Rattle.std.specs.FinMap as maps;
    ghost use Rattle.mig_placed.specs.Common.{ValueMap, AreCells};

    ghost Value = { ValueMap };

    ghost coded = { maps.code coded_ℕ coded_ℕ };

    ghost view = { λ s. s.index.values };

    ghost invariant = { λ s. AreCells s.index.values };
}

/// What a cell says.
#[tactic(auto, unfolding(mig_pagestore::specs::FrameView::cell_type, mig_pagestore::specs::FrameView::cell_mark))]
fn read_cell(cell: u64) -> FrameWord
    requires { IsCell cell }
    ensures kind { result.kind ≡ cell_type cell }
    ensures place { result.pfn ≡ cell_mark cell }
{
    decode_word(cell).unwrap()
}

/// Where a page is, counted from 1, where the type has data; else 0.
fn place_for(kind: PageType, at: u64) -> u64
    requires { at < place_limit }
    ensures is { result ≡ place_for (type_has_data kind) at }
    ensures small { result ≤ place_limit }
{
    if kind.has_data() { at + 1 } else { 0 }
}

/// The cell of a frame of this type with its page at this place of the file.
fn write_cell(kind: PageType, at: u64) -> u64
    requires there { kind ≢ Xtab }
    requires small { at < place_limit }
    ensures is { result ≡ cell_for kind at }
    ensures cell { IsCell result }
    ensures some { 0 < result }
{
    let pfn = place_for(kind, at);
    encode_word(FrameWord { pfn, kind })
}

impl Places {
    /// No frames; it has taken no memory.
    pub fn new(alloc: Global) -> Places
        ensures { result ≡ maps.empty }
    {
        Places {
            index: Index::new(alloc),
        }
    }

    /// The number of frames.
    pub fn len(&self) -> u64
        ensures { result ≡ maps.len self.now }
    {
        self.index.len()
    }

    /// Sets the type of a frame, and the place in bytes of its page, which counts only where the type has data; XTAB takes the
    /// frame away. Where no memory is found, all stays.
    pub fn set(&mut self, pfn: u64, kind: PageType, at: u64) -> Result<(), Memory>
        requires pfn { pfn < pfn_limit }
        requires place { at < place_limit }
        ensures ok { OnOk result (self.new ≡ with_place self.old pfn kind at) }
        ensures err { OnErr result (self.new ≡ self.old) }
    {
        if kind == PageType::Xtab {
            self.index.remove(pfn);
            return Ok(());
        }
        let Ok(()) = self.index.reserve(1) else {
            return Err(Memory);
        };
        self.index.put_spare(pfn, write_cell(kind, at));
        Ok(())
    }

    /// The first frame from this number on, which may be any number: its number, its type, and for its PFN the place of its
    /// page, counted from 1; 0 is none.
    pub fn next(&self, from: u64) -> Option<(u64, FrameWord)>
        ensures none { IfNone result ((k : ℕ) → from ≤ k → maps.get self.now k ≡ None) }
        ensures first { IfSome result (λ e. IsFirstCell self.now from e) }
        ensures small { IfSome result (λ e. (e.0 < pfn_limit) × (e.1.pfn ≤ place_limit)) }
    {
        match self.index.next(from) {
            Some((pfn, cell)) => Some((pfn, read_cell(cell))),
            None => None,
        }
    }

    /// Whether the pages of all frames end within so many bytes.
    pub fn end_within(&self, size: u64) -> bool
        ensures { result ≡ true → EndAllWithin size self.now }
    {
        let mut from = 0;
        while let Some((pfn, cell)) = self.next(from) {
            if cell.pfn > 0 && cell.pfn - 1 + PAGE > size {
                return false;
            }
            from = pfn + 1;
        }
        true
    }
}
