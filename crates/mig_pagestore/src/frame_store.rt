ghost use Rattle.std.specs.Prelude.{◌≡◌, ◌≢◌, ℕ, ◌+◌, ◌-◌, ◌%◌, ◌^◌, ◌<◌, ◌≤◌, ◌⊎◌, List, [], ◌∷◌, ◌++◌, length, flat_map, slice_get, slice_index_or, vec_capacity, IsTrue, IsSome, IsOk, OnOk, OnErr, IfSome, IfNone, Some, None, Err, true, false, is_some};
ghost use Rattle.mig_pagestore.specs.Common.{option_copied, option_copied_mut, option_map, sem, type_has_data, pfn_limit, Xtab};
ghost use Rattle.std.specs.FinMap as maps;
ghost use Rattle.mig_pagestore.specs.Frames.{FrameOf, frame_page, IsRun, IsSized, framed};
ghost use Rattle.mig_pagestore.specs.FrameView.{zero_bytes, is_zeros, zeros_in, cell_type, cell_mark, cell_place, IsCell, AreCells, place_of_mark, page_of_mark, frame_at, frames_seen, mark_of_page, place_of_page, IsLed, LieInRun, SameBut, Moved, CountsZeros};
ghost use Rattle.mig_pagestore.specs.Packed.{LieInOne};
ghost use Rattle.mig_pagestore.specs.FrameLending.{LendsFramePage};
ghost use Rattle.mig_pagestore.specs.Filling.{PushesFilled, PlacesLast, PutsFilled};
ghost use Rattle.mig_bytes.specs.declared.stop.Stop.TheVariants as stops;

use crate::arena::{Arena, places_in_slab};
use crate::fill::Fill;
use mig_bytes::{Memory, Stop};
use mig_pagestore_index::Index;
use mig_pagetypes::{FrameWord, PageType, decode_word, encode_word};
use std::alloc::{AllocError, Global};
use std::marker::Model;

/// Places are counted in 32 bits.
const MOST_PAGES: usize = 1 << 31;

/// The mark of a frame whose page is zeros, which takes no place.
const ZEROS: u64 = 1 << 51;

static ZERO_PAGE: [u8; 4096] = [0; 4096];

/// Frames by number (PFN): the type of each, a page where its type has data, and room for spare ones.
///
/// The pages lie in slabs, in the order in which they came; the index leads from a PFN to the type of its frame and
/// the place of its page. A page of zeros has no place, but room is kept for it, so that it can be lent.
#[derive(Drop)]
pub struct FrameStore {
    alloc: Global,
    /// The type of each PFN's frame and its mark: the place of its page, counted from 1; 0 where it has none, and
    /// `ZEROS` where it is zeros.
    index: Index,
    /// The PFN of the page at each place.
    pfns: Vec<u64>,
    arena: Arena,
    spare: usize,
    /// How many frames have a page of zeros.
    zeros: usize,
}

impl Model for FrameStore {
    ghost use Rattle.mig_pagestore.specs.Frames.{Framed, framed_code};
    ghost use Rattle.mig_pagestore.specs.FrameView.{frames_seen, IsLed, HasFrameRoom, CountsZeros};
    ghost use Rattle.std.specs.Prelude.{length, vec_capacity};

    ghost Value = { Framed };

    ghost coded = { framed_code };

    ghost view = { λ s. record { frames = frames_seen s.arena.pages s.index.values; spare = s.spare } };

    ghost invariant = { λ s. IsLed s.index.values s.pfns.items s.arena.pages × HasFrameRoom s.index.spare (length s.pfns.items) (vec_capacity s.pfns) s.arena.room s.spare s.zeros × CountsZeros s.index.values s.zeros };
}

/// Puts a number behind the others, in room that is there; the answer is its place, counted from 1.
fn push_spare(list: &mut Vec<u64>, number: u64) -> u64
    requires { length list.old.items < vec_capacity list.old }
    ensures items { list.new.items ≡ list.old.items ++ number ∷ [] }
    ensures place { result ≡ length list.new.items }
    ensures capacity { vec_capacity list.old ≤ vec_capacity list.new }
{
    list.push(number).unwrap();
    list.len() as u64
}

/// Takes the last number out.
fn take_last(list: &mut Vec<u64>) -> u64
    requires { 0 < length list.old.items }
    ensures items { list.old.items ≡ list.new.items ++ result ∷ [] }
    ensures capacity { vec_capacity list.old ≤ vec_capacity list.new }
{
    list.pop().unwrap()
}

/// Sees to it that there is room for so many more pages and their PFNs.
fn make_room(
    alloc: Global,
    arena: &mut Arena,
    pfns: &mut Vec<u64>,
    more: usize,
) -> Result<(), AllocError>
    ensures pages { arena.new.pages ≡ arena.old.pages }
    ensures pfns { pfns.new.items ≡ pfns.old.items }
    ensures kept { (arena.old.room ≤ arena.new.room) × (vec_capacity pfns.old ≤ vec_capacity pfns.new) }
    ensures ready { OnOk result ((more ≤ arena.new.room) × (length pfns.new.items + more ≤ vec_capacity pfns.new)) }
{
    while arena.room() < more {
        arena.grow(alloc)?;
    }
    pfns.reserve(more)?;
    Ok(())
}

/// A page, which has as many bytes as its type says.
pub(crate) fn whole(page: &[u8; 4096]) -> &[u8; 4096]
    ensures same { result.now ≡ page.now }
    ensures size { length result.now ≡ 4096 }
{
    page
}

/// The page of zeros.
fn zero_page() -> &'static [u8; 4096]
    ensures { result.now ≡ zero_bytes }
{
    &ZERO_PAGE
}

/// Whether a page is zeros.
fn is_zero(page: &[u8; 4096]) -> bool
    ensures zeros { IsTrue result → page.now ≡ zero_bytes }
    ensures other { result ≡ false → page.now ≢ zero_bytes }
{
    *page == ZERO_PAGE
}

/// What a cell of the index says: a frame's type, and for its PFN its mark.
#[tactic(auto, unfolding(crate::specs::FrameView::cell_type, crate::specs::FrameView::cell_mark))]
fn read_cell(cell: u64) -> FrameWord
    requires { cell_type cell ≢ Xtab }
    ensures kind { result.kind ≡ cell_type cell }
    ensures mark { result.pfn ≡ cell_mark cell }
{
    decode_word(cell).unwrap()
}

/// The cell of a frame of this type with this mark.
#[tactic(auto, using(crate::proofs::FrameCells::type_of_cell, crate::proofs::FrameCells::mark_of_cell))]
fn write_cell(kind: PageType, mark: u64) -> u64
    requires { mark < 2 ^ 52 }
    ensures kind { cell_type result ≡ kind }
    ensures mark { cell_mark result ≡ mark }
{
    encode_word(FrameWord { pfn: mark, kind })
}

/// The mark of a frame; 0 where there is none.
fn mark_of(index: &Index, pfn: u64) -> u64
    requires { AreCells index.now.values }
    ensures { result ≡ mark_of_page index.now.values pfn }
{
    match index.get(pfn) {
        Some(cell) => read_cell(cell).pfn,
        None => 0,
    }
}

/// The place that a mark tells, counted from 1; 0 where it tells none.
#[tactic(auto, unfolding(crate::specs::FrameView::is_zeros))]
fn place_of(mark: u64) -> u64
    ensures { result ≡ place_of_mark mark }
{
    if mark == ZEROS { 0 } else { mark }
}

/// The place of a frame's page, counted from 1; 0 where it has none.
#[tactic(auto, using(crate::proofs::Marks::mark_place))]
fn place_in(index: &Index, pfn: u64) -> u64
    requires { AreCells index.now.values }
    ensures { result ≡ place_of_page index.now.values pfn }
{
    place_of(mark_of(index, pfn))
}

/// How many pages of zeros a mark stands for: 1 or 0.
#[tactic(auto, unfolding(crate::specs::FrameView::is_zeros))]
fn zeros_of(mark: u64) -> usize
    ensures { result ≡ zeros_in mark }
{
    usize::from(mark == ZEROS)
}

/// The page that a mark stands for; none at 0.
#[tactic(auto, unfolding(crate::specs::FrameView::is_zeros), using(crate::proofs::Places::no_page, crate::proofs::Places::page_found))]
fn page_of(arena: &Arena, mark: u64) -> Option<&[u8; 4096]>
    requires { place_of_mark mark ≤ length arena.now.pages }
    ensures { option_copied result ≡ page_of_mark arena.now.pages mark }
{
    if mark == ZEROS {
        return Some(zero_page());
    }
    if mark == 0 {
        return None;
    }
    Some(whole(arena.get(mark as usize - 1)))
}

/// Whether the page of this PFN is at this place.
fn is_at(index: &Index, arena: &Arena, pfn: u64, place: u64) -> bool
    requires typed { AreCells index.now.values }
    requires within { (q : ℕ) → place_of_page index.now.values q ≤ length arena.now.pages }
    requires some { 0 < place }
    ensures { IsTrue result → (place_of_page index.now.values pfn ≡ place) × (length (slice_index_or arena.now.pages (place - 1) []) ≡ 4096) }
{
    if place_in(index, pfn) != place {
        return false;
    }
    // To the proof a page that is read tells its size.
    let _page = whole(arena.get(place as usize - 1));
    true
}

/// For how many PFNs from this one on, at most so many, the pages lie one behind another in one slab from this place on.
fn run_len(index: &Index, arena: &Arena, pfn: u64, place: u64, most: u32) -> u32
    requires typed { AreCells index.now.values }
    requires within { (q : ℕ) → place_of_page index.now.values q ≤ length arena.now.pages }
    requires some { 0 < place }
    requires small { (pfn < 2 ^ 52) × (place < 2 ^ 52) }
    ensures lie { LieInRun index.now.values arena.now.pages pfn place result }
    ensures one_slab { LieInOne (place - 1) result }
    ensures most { result ≤ most }
{
    let most = most.min(places_in_slab(place as usize - 1) as u32);
    let mut count = 0;
    while count < most
        && is_at(
            index,
            arena,
            pfn + u64::from(count),
            place + u64::from(count),
        )
    {
        count += 1;
    }
    count
}

/// The frame that a cell stands for.
#[tactic(auto, using(crate::proofs::Places::frame_paged))]
fn frame_of(arena: &Arena, cell: u64) -> (PageType, Option<&[u8; 4096]>)
    requires cell { IsCell cell }
    requires place { cell_place cell ≤ length arena.now.pages }
    ensures value { record { type = result.0; page = option_copied result.1 } ≡ frame_at arena.now.pages cell }
    ensures paged { is_some result.1 ≡ type_has_data result.0 }
{
    let word = read_cell(cell);
    (word.kind, page_of(arena, word.pfn))
}

/// Has the cell of a frame lead to another place.
fn move_page(index: &mut Index, pfn: u64, place: u64)
    requires small { (0 < place) × (place < 2 ^ 51) }
    requires there { 0 < mark_of_page index.old.values pfn }
    requires typed { AreCells index.old.values }
    ensures moved { Moved index.old.values index.new.values pfn place }
    ensures spare { index.new.spare ≡ index.old.spare }
{
    let cell = index.get(pfn).unwrap();
    index.put_spare(pfn, write_cell(read_cell(cell).kind, place));
}

/// Takes the page at this place out, which is the frame's; its cell stays as it is. The last page comes to the place.
#[tactic(auto, using(crate::proofs::Led::same_popped, crate::proofs::Led::last_is_there, crate::proofs::Led::in_both, crate::proofs::Led::same_swapped, crate::proofs::Led::cell_kept))]
fn take_page(index: &mut Index, pfns: &mut Vec<u64>, arena: &mut Arena, pfn: u64, place: u64)
    requires led { IsLed index.old.values pfns.old.items arena.old.pages }
    requires place { place ≡ place_of_page index.old.values pfn }
    requires few { length pfns.old.items < 2 ^ 31 }
    ensures led { IsLed (maps.remove index.new.values pfn) pfns.new.items arena.new.pages }
    ensures others { SameBut pfn arena.old.pages index.old.values arena.new.pages index.new.values }
    ensures cell { maps.get index.new.values pfn ≡ maps.get index.old.values pfn }
    ensures zeros { (n : ℕ) → CountsZeros index.old.values n → CountsZeros index.new.values n }
    ensures numbers { index.new.spare ≡ index.old.spare }
    ensures pages { arena.old.room ≤ arena.new.room }
    ensures places { length pfns.new.items ≤ length pfns.old.items }
    ensures capacity { vec_capacity pfns.old ≤ vec_capacity pfns.new }
{
    if place == 0 {
        return;
    }
    let page = arena.pop();
    let last = take_last(pfns);
    if last != pfn {
        *arena.lend(place as usize - 1) = page;
        pfns[place as usize - 1] = last;
        move_page(index, last, place);
    }
}

/// Sets the page of a frame that has its page at this place, or takes it out; the answer is its mark from now on. The
/// frame's cell stays as it is. Zeros are written over a page that has a place, and else take none.
#[tactic(auto, using(crate::proofs::Places::no_mark, crate::proofs::Led::same_over, crate::proofs::Led::here_over))]
fn set_page(
    index: &mut Index,
    pfns: &mut Vec<u64>,
    arena: &mut Arena,
    pfn: u64,
    place: u64,
    page: Option<&[u8; 4096]>,
) -> u64
    requires led { IsLed index.old.values pfns.old.items arena.old.pages }
    requires place { place ≡ place_of_page index.old.values pfn }
    requires few { length pfns.old.items < 2 ^ 31 }
    requires room { place ≡ 0 → (1 ≤ arena.old.room) × (length pfns.old.items < vec_capacity pfns.old) }
    ensures led { (c : ℕ) → IsCell c → cell_mark c ≡ result → IsLed (maps.insert index.new.values pfn c) pfns.new.items arena.new.pages }
    ensures here { page_of_mark arena.new.pages result ≡ option_copied page.entry }
    ensures placeless { place ≡ 0 → option_copied page.entry ≡ Some zero_bytes → is_zeros result ≡ true }
    ensures others { SameBut pfn arena.old.pages index.old.values arena.new.pages index.new.values }
    ensures cell { maps.get index.new.values pfn ≡ maps.get index.old.values pfn }
    ensures zeros { (n : ℕ) → CountsZeros index.old.values n → CountsZeros index.new.values n }
    ensures small { result < 2 ^ 52 }
    ensures numbers { index.new.spare ≡ index.old.spare }
    ensures pages { arena.old.room + zeros_in result ≤ arena.new.room + (1 - place) }
    ensures places { length pfns.new.items + zeros_in result ≤ length pfns.old.items + (1 - place) }
    ensures capacity { vec_capacity pfns.old ≤ vec_capacity pfns.new }
{
    let Some(page) = page else {
        take_page(index, pfns, arena, pfn, place);
        return 0;
    };
    if place > 0 {
        *arena.lend(place as usize - 1) = *whole(page);
        return place;
    }
    if is_zero(page) {
        return ZEROS;
    }
    arena.push(whole(page));
    push_spare(pfns, pfn)
}

/// Fills a page behind the others; where that fails, they stay.
fn push_filled<S, F: Fill<S>>(
    arena: &mut Arena,
    src: &mut S,
    fill: &F,
) -> Result<(), Stop<F::Cause>>
    requires { 1 ≤ arena.old.room }
    ensures { (page : List ℕ) × F.fills fill.now src.old src.new page result × PushesFilled arena.old arena.new page result }
{
    let place = arena.len();
    arena.push(&[0; 4096]);
    match fill.fill(src, arena.lend(place)) {
        Ok(()) => {
            // To the proof a page that is read tells its size, one that is lent doesn't.
            let _page = whole(arena.get(place));
            Ok(())
        }
        Err(stop) => {
            let _page = arena.pop();
            Err(stop)
        }
    }
}

/// Makes the last page, which no frame has, that of a frame with its page at this place; the answer is its mark from now
/// on. The frame's cell stays as it is. Zeros go over a page that has a place, and else give back the place they were
/// filled in.
fn place_last(pfns: &mut Vec<u64>, arena: &mut Arena, pfn: u64, place: u64) -> u64
    requires place { place < length arena.old.pages }
    requires few { (place < 2 ^ 51) × (length pfns.old.items < 2 ^ 31) }
    requires room { place ≡ 0 → length pfns.old.items < vec_capacity pfns.old }
    ensures placed { (pages : List (List ℕ)) (page : List ℕ) → arena.old.pages ≡ pages ++ page ∷ [] → PlacesLast place pfn page pfns.old.items pages pfns.new.items arena.new.pages result }
    ensures placeless { place ≡ 0 → slice_get arena.old.pages (length arena.old.pages - 1) ≡ Some zero_bytes → is_zeros result ≡ true }
    ensures small { result < 2 ^ 52 }
    ensures pages { arena.old.room + 1 + zeros_in result ≤ arena.new.room + (1 - place) }
    ensures capacity { vec_capacity pfns.old ≤ vec_capacity pfns.new }
{
    if place > 0 {
        let filled = arena.pop();
        *arena.lend(place as usize - 1) = filled;
        return place;
    }
    if is_zero(arena.get(arena.len() - 1)) {
        let _page = arena.pop();
        return ZEROS;
    }
    push_spare(pfns, pfn)
}

/// Gives a frame's page a place, where it is zeros and has none. The answer is the place, counted from 1; 0 where the
/// frame has no page.
fn open_page(
    index: &mut Index,
    pfns: &mut Vec<u64>,
    arena: &mut Arena,
    zeros: &mut usize,
    pfn: u64,
) -> u64
    requires led { IsLed index.old.values pfns.old.items arena.old.pages }
    requires count { CountsZeros index.old.values zeros.old }
    requires room { zeros.old ≤ arena.old.room }
    requires places { length pfns.old.items + zeros.old ≤ vec_capacity pfns.old }
    requires few { length pfns.old.items + zeros.old < 2 ^ 31 }
    ensures led { IsLed index.new.values pfns.new.items arena.new.pages }
    ensures count { CountsZeros index.new.values zeros.new }
    ensures frames { frames_seen arena.new.pages index.new.values ≡ frames_seen arena.old.pages index.old.values }
    ensures mark { result ≡ mark_of_page index.new.values pfn }
    ensures place { result ≡ place_of_page index.new.values pfn }
    ensures numbers { index.new.spare ≡ index.old.spare }
    ensures pages { arena.new.room + zeros.old ≡ arena.old.room + zeros.new }
    ensures pfns { length pfns.new.items + zeros.new ≡ length pfns.old.items + zeros.old }
    ensures capacity { vec_capacity pfns.old ≤ vec_capacity pfns.new }
{
    let mark = mark_of(index, pfn);
    if mark != ZEROS {
        return mark;
    }
    *zeros -= 1;
    arena.push(whole(zero_page()));
    let place = push_spare(pfns, pfn);
    move_page(index, pfn, place);
    place
}

/// How many spare pages a frame with this mark takes, when its page is set.
fn pages_taken(mark: u64) -> usize
    ensures { result ≡ 1 - mark }
{
    usize::from(mark == 0)
}

impl FrameStore {
    /// No frames; it has taken no memory.
    #[tactic(auto, using(crate::proofs::Seen::led_empty, crate::proofs::Seen::none_seen))]
    pub fn new(alloc: Global) -> FrameStore
        ensures frames { result.frames ≡ maps.empty }
        ensures spare { result.spare ≡ 0 }
    {
        FrameStore {
            alloc,
            index: Index::new(alloc),
            pfns: Vec::new(alloc),
            arena: Arena::new(alloc),
            spare: 0,
            zeros: 0,
        }
    }

    /// The number of frames.
    #[tactic(auto, using(crate::proofs::Seen::len_seen))]
    pub fn len(&self) -> u64
        ensures count { result ≡ maps.len self.now.frames }
        ensures sized { IsSized self.now.frames }
    {
        self.index.len()
    }

    /// The frame of this PFN, which may be any number: its type, and its page where the type has data.
    #[tactic(auto, using(crate::proofs::Seen::get_none, crate::proofs::Seen::get_some))]
    pub fn get(&self, pfn: u64) -> Option<(PageType, Option<&[u8; 4096]>)>
        ensures value { option_map (λ f. record { type = f.0; page = option_copied f.1 }) result ≡ maps.get self.now.frames pfn }
        ensures paged { IfSome result (λ f. is_some f.1 ≡ type_has_data f.0) }
        ensures small { IsSome result → pfn < pfn_limit }
    {
        let cell = self.index.get(pfn)?;
        Some(frame_of(&self.arena, cell))
    }

    /// The pages of the frames from this PFN on that lie one behind another, at most so many: how many they are, and their
    /// bytes. None need lie so.
    pub fn page_run(&self, pfn: u64, most: u32) -> (u32, &[u8])
        requires { pfn < pfn_limit }
        ensures run { (pages : List (List ℕ)) × (length pages ≡ result.0) × (result.1.now ≡ flat_map (λ page. page) pages) × IsRun self.now.frames pfn pages }
        ensures most { result.0 ≤ most }
    {
        let place = place_in(&self.index, pfn);
        if place == 0 {
            return (0, &[]);
        }
        let count = run_len(&self.index, &self.arena, pfn, place, most);
        if count == 0 {
            return (0, &[]);
        }
        (
            count,
            self.arena.page_run(place as usize - 1, count as usize),
        )
    }

    /// Lends the page of this PFN for writing; none where there is no frame, or its type has no data.
    pub fn lend(&mut self, pfn: u64) -> Option<&mut [u8; 4096]>
        ensures* writes_back { sem 𝓛 (LendsFramePage self.entry pfn result) }
        ensures value { option_copied_mut result ≡ frame_page self.old.frames pfn }
    {
        let place = open_page(
            &mut self.index,
            &mut self.pfns,
            &mut self.arena,
            &mut self.zeros,
            pfn,
        );
        if place == 0 {
            return None;
        }
        // To the proof a page that is read tells its size, one that is lent doesn't.
        let _page = whole(self.arena.get(place as usize - 1));
        Some(self.arena.lend(place as usize - 1))
    }

    /// The frame with the least PFN that is at least `from`, which may be any number.
    #[tactic(auto, using(crate::proofs::Seen::get_none, crate::proofs::Seen::get_some))]
    pub fn next(&self, from: u64) -> Option<(u64, PageType, Option<&[u8; 4096]>)>
        ensures none { IfNone result ((k : ℕ) → from ≤ k → maps.get self.now.frames k ≡ None) }
        ensures there { IfSome result (λ e. maps.get self.now.frames e.0 ≡ Some (record { type = e.1; page = option_copied e.2 })) }
        ensures least { IfSome result (λ e. (from ≤ e.0) × ((k : ℕ) → from ≤ k → k < e.0 → maps.get self.now.frames k ≡ None)) }
        ensures paged { IfSome result (λ e. is_some e.2 ≡ type_has_data e.1) }
        ensures small { IfSome result (λ e. e.0 < pfn_limit) }
    {
        let (pfn, cell) = self.index.next(from)?;
        let (kind, page) = frame_of(&self.arena, cell);
        Some((pfn, kind, page))
    }

    /// Makes ready room for at least `more` frames with pages, those included that are spare already. Where no memory is
    /// found, all stays, and nothing that was spare is lost.
    pub fn reserve(&mut self, more: usize) -> Result<(), Memory>
        ensures frames { self.new.frames ≡ self.old.frames }
        ensures ready { OnOk result (more ≤ self.new.spare) }
        ensures kept { self.old.spare ≤ self.new.spare }
        ensures enough { more ≤ self.old.spare → IsOk result }
    {
        if more <= self.spare {
            return Ok(());
        }
        if more >= MOST_PAGES - self.pfns.len() - self.zeros {
            return Err(Memory);
        }
        let Ok(()) = self.index.reserve(more) else {
            return Err(Memory);
        };
        let room = more + self.zeros;
        match make_room(self.alloc, &mut self.arena, &mut self.pfns, room) {
            Ok(()) => {
                self.spare = more;
                Ok(())
            }
            Err(AllocError) => Err(Memory),
        }
    }

    /// Sets the type of a frame, and its page where the type has data, and takes no memory: a frame that had no page
    /// takes a spare one.
    pub fn put_spare(&mut self, pfn: u64, kind: PageType, page: Option<&[u8; 4096]>)
        requires small { pfn < pfn_limit }
        requires there { kind ≢ Xtab }
        requires paged { is_some page ≡ type_has_data kind }
        requires room { frame_page self.old.frames pfn ≡ None → 1 ≤ self.old.spare }
        ensures frames { self.new.frames ≡ maps.insert self.old.frames pfn (record { type = kind; page = option_copied page.entry }) }
        ensures taken { self.old.spare ≤ self.new.spare + 1 }
        ensures in_place { IsSome (frame_page self.old.frames pfn) → self.new.spare ≡ self.old.spare }
    {
        let old = mark_of(&self.index, pfn);
        self.spare -= pages_taken(old);
        self.zeros -= zeros_of(old);
        let mark = set_page(
            &mut self.index,
            &mut self.pfns,
            &mut self.arena,
            pfn,
            place_of(old),
            page,
        );
        self.zeros += zeros_of(mark);
        self.index.put_spare(pfn, write_cell(kind, mark));
    }

    /// Sets the type of a frame with data, and has its page filled in its place; takes no memory. Behind an error the
    /// frames are as they were.
    fn put_filled<S, F: Fill<S>>(
        &mut self,
        pfn: u64,
        kind: PageType,
        src: &mut S,
        fill: &F,
    ) -> Result<(), Stop<F::Cause>>
        requires small { pfn < pfn_limit }
        requires paged { type_has_data kind ≡ true }
        requires room { 1 ≤ self.old.spare }
        ensures filled { (page : List ℕ) × F.fills fill.now src.old src.new page result × PutsFilled self.old self.new pfn kind page result }
        ensures taken { self.old.spare ≤ self.new.spare + 1 }
    {
        push_filled(&mut self.arena, src, fill)?;
        let before = mark_of(&self.index, pfn);
        self.spare -= pages_taken(before);
        self.zeros -= zeros_of(before);
        let place = place_of(before);
        let after = place_last(&mut self.pfns, &mut self.arena, pfn, place);
        self.zeros += zeros_of(after);
        let cell = write_cell(kind, after);
        self.index.put_spare(pfn, cell);
        Ok(())
    }

    /// The same, where no page need be spare: `Memory` where none is found, with nothing taken from the source.
    pub fn set_filled<S, F: Fill<S>>(
        &mut self,
        pfn: u64,
        kind: PageType,
        src: &mut S,
        fill: &F,
    ) -> Result<(), Stop<F::Cause>>
        requires small { pfn < pfn_limit }
        requires paged { type_has_data kind ≡ true }
        ensures ok { OnOk result ((page : List ℕ) × F.fills fill.now src.old src.new page result × (self.new.frames ≡ framed self.old.frames pfn kind (Some page))) }
        ensures err { OnErr result (self.new.frames ≡ self.old.frames) }
        ensures stopped { OnErr result (((page : List ℕ) × F.fills fill.now src.old src.new page result) ⊎ ((result ≡ Err stops.Memory) × (src.new ≡ src.old))) }
        ensures spare { self.old.spare ≤ self.new.spare + 1 }
    {
        match self.reserve(1) {
            Ok(()) => self.put_filled(pfn, kind, src, fill),
            Err(Memory) => Err(Stop::Memory),
        }
    }

    /// Takes a frame away, where it is there.
    #[tactic(auto, using(crate::proofs::Seen::out_seen))]
    pub fn remove(&mut self, pfn: u64)
        requires { pfn < pfn_limit }
        ensures frames { self.new.frames ≡ maps.remove self.old.frames pfn }
        ensures spare { self.old.spare ≤ self.new.spare }
    {
        let mark = mark_of(&self.index, pfn);
        self.zeros -= zeros_of(mark);
        let place = place_of(mark);
        take_page(&mut self.index, &mut self.pfns, &mut self.arena, pfn, place);
        self.index.remove(pfn);
    }

    /// Sets the type of a frame, and its page where the type has data; XTAB takes the frame away. Where no memory is
    /// found, the frames stay.
    pub fn set(&mut self, pfn: u64, kind: PageType, page: Option<&[u8; 4096]>) -> Result<(), Memory>
        requires small { pfn < pfn_limit }
        requires paged { is_some page ≡ type_has_data kind }
        ensures ok { OnOk result (self.new.frames ≡ framed self.old.frames pfn kind (option_copied page.entry)) }
        ensures err { OnErr result (self.new.frames ≡ self.old.frames) }
        ensures taken { kind ≡ Xtab → IsOk result }
        ensures ready { 1 ≤ self.old.spare → IsOk result }
        ensures spare { self.old.spare ≤ self.new.spare + 1 }
    {
        if let PageType::Xtab = kind {
            self.remove(pfn);
            return Ok(());
        }
        self.reserve(1)?;
        self.put_spare(pfn, kind, page);
        Ok(())
    }
}
