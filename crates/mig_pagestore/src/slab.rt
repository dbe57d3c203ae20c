ghost use Rattle.std.specs.Prelude.{◌≡◌, ◌+◌, ◌<◌, ◌≤◌, [], ◌∷◌, ◌++◌, length, take, drop, flat_map, slice_get, IfOk, Some};
ghost use Rattle.mig_pagestore.specs.Common.{sem};

use crate::cells::{Base, Cells, Deed, allocate, deallocate};
use std::alloc::{AllocError, Global};
use std::marker::Model;

/// A slab has room for so many pages at the most.
pub const MOST_PLACES: usize = 16384;

/// Pages, in one block of raw memory that has places for so many.
pub struct Slab {
    base: Base,
    places: usize,
    len: usize,
    cells: Cells,
    deed: Deed<Global>,
    alloc: Global,
}

impl Model for Slab {
    ghost use Rattle.std.specs.Prelude.{◌≡◌, ◌≤◌, length};
    ghost use Rattle.mig_pagestore.specs.Slab.{Pages, pages_code};

    ghost Value = { Pages };

    ghost coded = { pages_code };

    ghost view = { λ s. record { pages = s.cells.pages; places = s.places } };

    ghost invariant = { λ s. (s.cells.at ≡ s.base.ptr) × (s.cells.places ≡ s.places) × (s.deed.at ≡ s.base.ptr) × (s.deed.places ≡ s.places) × (s.deed.alloc ≡ s.alloc) × (s.len ≡ length s.cells.pages) × (s.len ≤ s.places) × (s.places ≤ 16384) };
}

impl Slab {
    ghost use Rattle.mig_pagestore.specs.SlabLends.{lends_slab_page};

    /// A slab with no page in it.
    pub fn new(alloc: Global, places: usize) -> Result<Slab, AllocError>
        requires { places ≤ 16384 }
        ensures { IfOk result (λ s. (s.pages ≡ []) × (s.places ≡ places)) }
    {
        let (base, cells, deed) = allocate(&alloc, places)?;
        Ok(Slab {
            base,
            places,
            len: 0,
            cells,
            deed,
            alloc,
        })
    }

    /// How many pages are in it.
    pub fn len(&self) -> usize
        ensures len { result ≡ length self.now.pages }
        ensures most { result ≤ self.now.places }
    {
        self.len
    }

    /// Puts a page behind the others, and takes no memory.
    pub fn push(&mut self, page: &[u8; 4096])
        requires { length self.old.pages < self.old.places }
        ensures pages { self.new.pages ≡ self.old.pages ++ page.now ∷ [] }
        ensures places { self.new.places ≡ self.old.places }
    {
        self.cells.push(self.base, self.len, *page);
        self.len += 1;
    }

    /// Takes the last page out.
    pub fn pop(&mut self) -> [u8; 4096]
        requires { 0 < length self.old.pages }
        ensures pages { self.old.pages ≡ self.new.pages ++ result ∷ [] }
        ensures places { self.new.places ≡ self.old.places }
    {
        self.len -= 1;
        self.cells.pop(self.base, self.len)
    }

    /// The page at this place.
    pub fn get(&self, at: usize) -> &[u8; 4096]
        requires { at < length self.now.pages }
        ensures { slice_get self.now.pages at ≡ Some result.now }
    {
        &self.cells.pages(self.base, self.len)[at]
    }

    /// So many pages from this place on, as one piece of bytes.
    pub fn page_run(&self, at: usize, count: usize) -> &[u8]
        requires { at + count ≤ length self.now.pages }
        ensures { result.now ≡ flat_map (λ page. page) (take count (drop at self.now.pages)) }
    {
        self.cells.pages(self.base, self.len)[at..at + count].as_flattened()
    }

    /// Lends the page at this place for writing.
    pub fn lend(&mut self, at: usize) -> &mut [u8; 4096]
        requires { at < length self.old.pages }
        ensures* writes_back { sem 𝓛 (lends_slab_page self.entry at result) }
        ensures value { slice_get self.old.pages at ≡ Some result.now }
    {
        self.cells.page_mut(self.base, at)
    }
}

impl Drop for Slab {
    fn drop(self) {
        let Slab {
            base,
            places,
            len: _,
            cells,
            deed,
            alloc,
        } = self;
        deallocate(&alloc, base, places, cells, deed);
    }
}
