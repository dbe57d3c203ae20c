//! The block of raw memory in which a slab's pages lie one behind another. All pointers are here.
ghost use Rattle.std.specs.Prelude.{◌≡◌, ℕ, ◌+◌, ◌<◌, ◌≤◌, List, [], ◌∷◌, ◌++◌, length, slice_index_or, IfOk};
ghost use Rattle.mig_pagestore.specs.Common.{sem, Ptr};
ghost use Rattle.mig_pagestore.specs.Ownership.{cells_own, cells_lent, deed_owns};

use std::alloc::{AllocError, Allocator};
use std::marker::{Model, PhantomData};
use std::slice;

/// Where the block begins. It owns nothing.
#[derive(Clone, Copy)]
pub struct Base {
    ptr: *mut [u8; 4096],
}

/// The owner of the pages and of the room behind them. It takes no space: the slab holds the pointer.
pub struct Cells {
    mark: PhantomData<*const u8>,
    ghost at: { Ptr },
    ghost places: { ℕ },
    ghost pages: { List (List ℕ) },
}

impl Model for Cells {
    ghost also_owns = { λ c. cells_own c.places c.at c.pages };

    ghost also_shares = { λ c _ κ. cells_lent c.at c.pages κ };
}

/// The right to give the block of `places` pages at `at` back to `alloc`. It takes no space.
pub struct Deed<A: Allocator> {
    mark: PhantomData<A>,
    ghost at: { Ptr },
    ghost places: { ℕ },
    ghost alloc: { A },
}

impl<A: Allocator> Model for Deed<A> {
    ghost also_owns = { λ d. deed_owns (A.dealloc_token d.alloc) d.at d.places };
}

/// Raw memory for a slab, with no page written yet.
pub(crate) fn allocate<A: Allocator>(
    alloc: &A,
    places: usize,
) -> Result<(Base, Cells, Deed<A>), AllocError>
    requires { places ≤ 16384 }
    ensures { IfOk result (λ r. (r.1.at ≡ r.0.ptr) × (r.1.places ≡ places) × (r.1.pages ≡ []) × (r.2.at ≡ r.0.ptr) × (r.2.places ≡ places) × (r.2.alloc ≡ alloc.now)) }
{
    match alloc.allocate(places * 4096, 1) {
        Ok(block) => {
            let ptr = block as *mut [u8; 4096];
            Ok((
                Base { ptr },
                Cells { mark: PhantomData },
                Deed { mark: PhantomData },
            ))
        }
        Err(error) => Err(error),
    }
}

/// Gives back the memory of a slab.
pub(crate) fn deallocate<A: Allocator>(
    alloc: &A,
    base: Base,
    places: usize,
    cells: Cells,
    deed: Deed<A>,
)
    requires { (cells.at ≡ base.ptr) × (cells.places ≡ places) × (length cells.pages ≤ places) × (places ≤ 16384) × (deed.at ≡ base.ptr) × (deed.places ≡ places) × (deed.alloc ≡ alloc.now) }
{
    let Cells { mark: _ } = cells;
    let Deed { mark: _ } = deed;
    unsafe {
        alloc.deallocate(base.ptr as *mut u8, places * 4096, 1);
    }
}

impl Cells {
    ghost use Rattle.mig_pagestore.specs.Lends.{lends_cell};

    /// Writes a page behind the `len` that are there.
    pub(crate) fn push(&mut self, base: Base, len: usize, page: [u8; 4096])
        requires { (base.ptr ≡ self.old.at) × (len ≡ length self.old.pages) × (len < self.old.places) × (self.old.places ≤ 16384) }
        ensures { (self.new.at ≡ self.old.at) × (self.new.places ≡ self.old.places) × (self.new.pages ≡ self.old.pages ++ page ∷ []) }
    {
        unsafe { base.ptr.add(len).write(page) }
    }

    /// Leaves `len` pages.
    pub(crate) fn pop(&mut self, base: Base, len: usize) -> [u8; 4096]
        requires { (base.ptr ≡ self.old.at) × (length self.old.pages ≡ len + 1) × (len < self.old.places) × (self.old.places ≤ 16384) }
        ensures { (self.new.at ≡ self.old.at) × (self.new.places ≡ self.old.places) × (self.old.pages ≡ self.new.pages ++ result ∷ []) }
    {
        unsafe { base.ptr.add(len).read() }
    }

    /// The pages, `len` of them.
    pub(crate) fn pages(&self, base: Base, len: usize) -> &[[u8; 4096]]
        requires { (base.ptr ≡ self.now.at) × (len ≡ length self.now.pages) × (len ≤ 16384) }
        ensures { result.now ≡ self.now.pages }
    {
        unsafe { slice::from_raw_parts(base.ptr, len) }
    }

    /// Lends a page.
    pub(crate) fn page_mut(&mut self, base: Base, at: usize) -> &mut [u8; 4096]
        requires { (base.ptr ≡ self.old.at) × (at < length self.old.pages) × (length self.old.pages ≤ 16384) }
        ensures* writes_back { sem 𝓛 (lends_cell self.entry at result) }
        ensures value { result.now ≡ slice_index_or self.old.pages at [] }
    {
        unsafe { &mut *base.ptr.add(at) }
    }
}
