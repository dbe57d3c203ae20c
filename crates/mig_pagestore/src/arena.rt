//! Pages one behind another, in slabs. Each slab has room for 64 pages more than all before it, up to 16,384 (64 MiB).
//! So a small store takes little, a large one is in few blocks, and memory which isn't used stays untouched.
ghost use Rattle.std.specs.Prelude.{◌≡◌, ◌<◌, ◌≤◌, ◌+◌, ◌*◌, ◌^◌, min, [], ◌∷◌, ◌++◌, length, take, drop, flat_map, slice_get, slice_set, OnOk, OnErr, Some};
ghost use Rattle.mig_pagestore.specs.Common.{sem};
ghost use Rattle.mig_pagestore.specs.Packed.{IsFound, LieInOne, places_after};

use crate::slab::{MOST_PLACES, Slab};
use std::alloc::{AllocError, Global};
use std::marker::Model;

/// The first slab has room for 2^6 pages.
const FIRST_POWER: usize = 6;

const FIRST_PLACES: usize = 1 << FIRST_POWER;

/// How many slabs are smaller than the largest, and how many places they have.
const GROWING_SLABS: usize = 8;

const GROWING_PLACES: usize = MOST_PLACES - FIRST_PLACES;

/// No slab is added once there are so many places.
const ENOUGH_PLACES: usize = 1 << 30;

/// Pages by place: 0, 1, 2 and so on.
#[derive(Drop)]
pub(crate) struct Arena {
    slabs: Vec<Slab>,
    count: usize,
    /// How many pages there is room for in all.
    places: usize,
}

impl Model for Arena {
    ghost use Rattle.std.specs.Prelude.{◌-◌};
    ghost use Rattle.mig_pagestore.specs.Packed.{Placed, arena_code, all_pages, IsArena};

    ghost Value = { Placed };

    ghost coded = { arena_code };

    ghost view = { λ a. record { pages = all_pages a.slabs.items; room = a.places - a.count } };

    ghost invariant = { λ a. IsArena a.slabs.items a.count a.places };
}

/// One more slab, behind the others.
fn add(slabs: &mut Vec<Slab>, slab: Slab) -> Result<(), AllocError>
    ensures ok { OnOk result (slabs.new.items ≡ slabs.old.items ++ slab ∷ []) }
    ensures err { OnErr result (slabs.new.items ≡ slabs.old.items) }
{
    match slabs.push(slab) {
        Ok(()) => Ok(()),
        Err(_) => Err(AllocError),
    }
}

/// Which slab the page at this place is in, and at which place there.
fn find(place: usize) -> (usize, usize)
    ensures { IsFound place result.0 result.1 }
{
    if place >= GROWING_PLACES {
        let behind = place - GROWING_PLACES;
        return (behind / MOST_PLACES + GROWING_SLABS, behind % MOST_PLACES);
    }
    let number = place + FIRST_PLACES;
    let power = number.ilog2();
    (power as usize - FIRST_POWER, number - (1 << power))
}

/// How many places from this one on lie in its slab.
pub(crate) fn places_in_slab(place: usize) -> usize
    requires { place < 2 ^ 52 }
    ensures { LieInOne place result }
{
    let (_, at) = find(place);
    (place - at + FIRST_PLACES).min(MOST_PLACES) - at
}

impl Arena {
    ghost use Rattle.mig_pagestore.specs.ArenaLends.{lends_page};

    /// No pages.
    #[tactic(auto, using(crate::proofs::Packing::arena_none, crate::proofs::Packing::pages_none))]
    pub(crate) fn new(alloc: Global) -> Arena
        ensures pages { result.pages ≡ [] }
        ensures room { result.room ≡ 0 }
    {
        Arena {
            slabs: Vec::new(alloc),
            count: 0,
            places: 0,
        }
    }

    /// How many pages there are.
    #[tactic(auto, using(crate::proofs::Packing::arena_len))]
    pub(crate) fn len(&self) -> usize
        ensures { result ≡ length self.now.pages }
    {
        self.count
    }

    /// How many more pages there is room for.
    #[tactic(auto, using(crate::proofs::Packing::arena_room))]
    pub(crate) fn room(&self) -> usize
        ensures { result ≡ self.now.room }
    {
        self.places - self.count
    }

    /// The page at this place.
    pub(crate) fn get(&self, place: usize) -> &[u8; 4096]
        requires { place < length self.now.pages }
        ensures { slice_get self.now.pages place ≡ Some result.now }
    {
        let (slab, at) = find(place);
        self.slabs[slab].get(at)
    }

    /// So many pages from this place on, all in one slab, as one piece of bytes.
    pub(crate) fn page_run(&self, place: usize, count: usize) -> &[u8]
        requires some { 0 < count }
        requires within { place + count ≤ length self.now.pages }
        requires one_slab { LieInOne place count }
        ensures { result.now ≡ flat_map (λ page. page) (take count (drop place self.now.pages)) }
    {
        let (slab, at) = find(place);
        self.slabs[slab].page_run(at, count)
    }

    /// Lends the page at this place for writing.
    pub(crate) fn lend(&mut self, place: usize) -> &mut [u8; 4096]
        requires { place < length self.old.pages }
        ensures* writes_back { sem 𝓛 (lends_page self.entry place result) }
        ensures value { slice_get self.old.pages place ≡ Some result.now }
    {
        let (slab, at) = find(place);
        self.slabs[slab].lend(at)
    }

    /// Puts a page behind the others, and takes no memory.
    pub(crate) fn push(&mut self, page: &[u8; 4096])
        requires { 1 ≤ self.old.room }
        ensures pages { self.new.pages ≡ self.old.pages ++ page.now ∷ [] }
        ensures room { self.new.room + 1 ≡ self.old.room }
    {
        let (slab, _) = find(self.count);
        self.slabs[slab].push(page);
        self.count += 1;
    }

    /// Takes the last page out; its place is spare again.
    #[tactic(auto, using(crate::proofs::Packing::arena_len))]
    pub(crate) fn pop(&mut self) -> [u8; 4096]
        requires { 0 < length self.old.pages }
        ensures pages { self.old.pages ≡ self.new.pages ++ result ∷ [] }
        ensures room { self.new.room ≡ self.old.room + 1 }
    {
        self.count -= 1;
        let (slab, _) = find(self.count);
        self.slabs[slab].pop()
    }

    /// Makes room for 64 more pages at least.
    #[tactic(auto, using(crate::proofs::Packing::pages_more, crate::proofs::Packing::arena_room))]
    pub(crate) fn grow(&mut self, alloc: Global) -> Result<(), AllocError>
        ensures pages { self.new.pages ≡ self.old.pages }
        ensures ok { OnOk result (self.old.room + 64 ≤ self.new.room) }
        ensures err { OnErr result (self.new ≡ self.old) }
    {
        if self.places >= ENOUGH_PLACES {
            return Err(AllocError);
        }
        let places = (self.places + FIRST_PLACES).min(MOST_PLACES);
        let slab = Slab::new(alloc, places)?;
        add(&mut self.slabs, slab)?;
        self.places += places;
        Ok(())
    }
}
