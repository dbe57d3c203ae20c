ghost use Rattle.std.specs.Prelude.{◌≡◌, ◌≢◌, ◌+◌, ◌-◌, ◌^◌, ◌<◌, ◌≤◌, ℕ, true, false, IsSome, IsOk, None, OnOk, slice_index, length, max};
ghost use Rattle.std.specs.FinMap as maps;
ghost use Rattle.mig_host_m2p.specs.Cells.{Agree, next_cell};
ghost use Rattle.mig_host_m2p.specs.Trees.{IsStandingTree, IsGrown, AreFree, kept, cell_of};
ghost use Rattle.mig_pagetypes.specs.Limits.{machine_limit};

use crate::cell::Cell;
use mig_pagetypes::MACHINE_LIMIT;
use std::alloc::{AllocError, Global};

/// There are no more cells than their numbers of 32 bits tell apart.
const MOST_CELLS: usize = 1 << 32;

/// A cell that isn't in use.
const FREE: Cell = Cell {
    machine: 0,
    pfn: 0,
    zero: 0,
    one: 0,
    depth: 0,
    used: false,
};

/// The root of a tree, which has no machine frame.
const ROOT: Cell = Cell {
    machine: MACHINE_LIMIT,
    pfn: 0,
    zero: 0,
    one: 0,
    depth: 0,
    used: true,
};

/// PFNs by machine frame, as a tree of cells. From the root on the bits of a machine frame lead to its cell. The lowest
/// bit is first, so that machine frames that are counted up spread over the tree. Cells that are free are named by the
/// first `spare` numbers of `free`.
#[derive(Drop)]
pub(crate) struct Tree {
    pub(crate) cells: Vec<Cell>,
    pub(crate) free: Vec<u32>,
    pub(crate) spare: usize,
}

impl Tree {
    /// A tree without cells, which has taken no memory.
    pub(crate) fn new(alloc: Global) -> Tree
        ensures sound { IsStandingTree result }
        ensures empty { kept result ≡ maps.empty }
        ensures spare { result.spare ≡ 0 }
    {
        Tree {
            cells: Vec::new(alloc),
            free: Vec::new(alloc),
            spare: 0,
        }
    }

    /// A cell by its number.
    fn cell(&self, at: usize) -> &Cell
        requires { at < length self.now.cells.items }
        ensures { result.now ≡ cell_of self.now at }
    {
        &self.cells[at]
    }

    /// The cell that has this machine frame, or the one where the way to it ends.
    fn seek(&self, machine: u64) -> usize
        requires sound { IsStandingTree self.now }
        requires begun { 0 < length self.now.cells.items }
        ensures used { (cell_of self.now result).used ≡ true }
        ensures agrees { Agree (cell_of self.now result).depth (cell_of self.now result).machine machine }
        ensures ends { (cell_of self.now result).machine ≢ machine → next_cell (cell_of self.now result) machine ≡ 0 }
        ensures none { (cell_of self.now result).machine ≢ machine → (j : ℕ) → (cell_of self.now j).used ≡ true → (cell_of self.now j).machine ≢ machine }
    {
        let mut at = 0;
        while self.cell(at).machine != machine {
            let next = self.cell(at).towards(machine);
            if next == 0 {
                return at;
            }
            at = next as usize;
        }
        at
    }

    /// A cell below this one, or itself, with no cell below it.
    fn leaf_below(&self, from: usize) -> usize
        requires sound { IsStandingTree self.now }
        requires used { (cell_of self.now from).used ≡ true }
        ensures used { (cell_of self.now result).used ≡ true }
        ensures agrees { Agree (cell_of self.now from).depth (cell_of self.now result).machine (cell_of self.now from).machine }
        ensures ends { (machine : ℕ) → next_cell (cell_of self.now result) machine ≡ 0 }
        ensures there { 0 < from → 0 < result }
    {
        let mut at = from;
        while self.cell(at).any_below() != 0 {
            at = self.cell(at).any_below() as usize;
        }
        at
    }

    /// The cell from which the way to this one leads to it.
    fn above(&self, cell: usize) -> usize
        requires sound { IsStandingTree self.now }
        requires some { 0 < cell }
        requires used { (cell_of self.now cell).used ≡ true }
        ensures used { (cell_of self.now result).used ≡ true }
        ensures leads { next_cell (cell_of self.now result) (cell_of self.now cell).machine ≡ cell }
    {
        let machine = self.cell(cell).machine;
        let mut at = 0;
        while self.cell(at).towards(machine) as usize != cell {
            at = self.cell(at).towards(machine) as usize;
        }
        at
    }

    /// The PFN of this machine frame, which may be any number.
    pub(crate) fn get(&self, machine: u64) -> Option<u64>
        requires { IsStandingTree self.now }
        ensures { result ≡ maps.get (kept self.now) machine }
    {
        if self.cells.is_empty() {
            return None;
        }
        if machine >= MACHINE_LIMIT {
            return None;
        }
        let at = self.seek(machine);
        if self.cell(at).machine != machine {
            return None;
        }
        Some(self.cell(at).pfn)
    }

    /// Hangs a free cell with this machine frame below the cell where the way to it ends.
    fn hang(&mut self, at: usize, machine: u64, pfn: u64)
        requires sound { IsStandingTree self.old }
        requires below { machine < machine_limit }
        requires used { (cell_of self.old at).used ≡ true }
        requires agrees { Agree (cell_of self.old at).depth (cell_of self.old at).machine machine }
        requires ends { next_cell (cell_of self.old at) machine ≡ 0 }
        requires none { (j : ℕ) → (cell_of self.old j).used ≡ true → (cell_of self.old j).machine ≢ machine }
        requires room { 1 ≤ self.old.spare }
        ensures sound { IsStandingTree self.new }
        ensures kept { kept self.new ≡ maps.insert (kept self.old) machine pfn }
        ensures spare { self.new.spare + 1 ≡ self.old.spare }
    {
        self.spare -= 1;
        let cell = self.free[self.spare];
        self.cells[cell as usize] = Cell {
            machine,
            pfn,
            zero: 0,
            one: 0,
            depth: self.cell(at).depth + 1,
            used: true,
        };
        self.cells[at] = self.cell(at).leading(machine, cell);
    }

    /// Gives a machine frame this PFN, and takes no memory.
    pub(crate) fn put_spare(&mut self, machine: u64, pfn: u64)
        requires sound { IsStandingTree self.old }
        requires below { machine < machine_limit }
        requires room { maps.get (kept self.old) machine ≡ None → 1 ≤ self.old.spare }
        ensures sound { IsStandingTree self.new }
        ensures kept { kept self.new ≡ maps.insert (kept self.old) machine pfn }
        ensures taken { self.old.spare ≤ self.new.spare + 1 }
        ensures in_place { IsSome (maps.get (kept self.old) machine) → self.new.spare ≡ self.old.spare }
    {
        let at = self.seek(machine);
        if self.cell(at).machine == machine {
            self.cells[at] = self.cell(at).having(machine, pfn);
            return;
        }
        self.hang(at, machine, pfn);
    }

    /// Takes a leaf out of the tree, whose machine frame and PFN then stand in this cell, in place of those that it had.
    fn lift(&mut self, at: usize, leaf: usize)
        requires sound { IsStandingTree self.old }
        requires some { 0 < at }
        requires used { (cell_of self.old at).used ≡ true }
        requires leaf { 0 < leaf }
        requires leaf_used { (cell_of self.old leaf).used ≡ true }
        requires ends { (machine : ℕ) → next_cell (cell_of self.old leaf) machine ≡ 0 }
        requires agrees { Agree (cell_of self.old at).depth (cell_of self.old leaf).machine (cell_of self.old at).machine }
        ensures sound { IsStandingTree self.new }
        ensures kept { kept self.new ≡ maps.remove (kept self.old) (cell_of self.old at).machine }
        ensures spare { self.new.spare ≡ self.old.spare + 1 }
    {
        let above = self.above(leaf);
        let moved = *self.cell(leaf);
        self.cells[above] = self.cell(above).leading(moved.machine, 0);
        self.cells[at] = self.cell(at).having(moved.machine, moved.pfn);
        self.cells[leaf] = FREE;
        self.free[self.spare] = leaf as u32;
        self.spare += 1;
    }

    /// Takes away the PFN of a machine frame, where it has one; its cell is free then.
    pub(crate) fn remove(&mut self, machine: u64)
        requires { IsStandingTree self.old }
        ensures sound { IsStandingTree self.new }
        ensures kept { kept self.new ≡ maps.remove (kept self.old) machine }
        ensures spare { self.old.spare ≤ self.new.spare }
        ensures freed { IsSome (maps.get (kept self.old) machine) → self.old.spare + 1 ≤ self.new.spare }
    {
        if self.get(machine).is_none() {
            return;
        }
        let at = self.seek(machine);
        let leaf = self.leaf_below(at);
        self.lift(at, leaf);
    }

    /// Sees to it that there is place for the numbers of so many free cells.
    fn lengthen(&mut self, wanted: usize) -> Result<(), AllocError>
        requires { IsStandingTree self.old }
        ensures sound { IsStandingTree self.new }
        ensures cells { self.new.cells ≡ self.old.cells }
        ensures spare { self.new.spare ≡ self.old.spare }
        ensures wide { OnOk result (wanted ≤ length self.new.free.items) }
    {
        if self.free.len() < wanted {
            self.free.resize(wanted, 0)?;
        }
        Ok(())
    }

    /// Sees to it that there is a root.
    fn begin(&mut self) -> Result<(), AllocError>
        requires sound { IsStandingTree self.old }
        requires wide { 1 ≤ length self.old.free.items }
        ensures sound { IsStandingTree self.new }
        ensures kept { kept self.new ≡ kept self.old }
        ensures free { self.new.free ≡ self.old.free }
        ensures spare { self.new.spare ≡ self.old.spare }
        ensures begun { OnOk result (length self.new.cells.items ≡ max (length self.old.cells.items) 1) }
    {
        if self.cells.is_empty() {
            self.cells.resize(1, ROOT)?;
        }
        Ok(())
    }

    /// Notes the cells from this one on as free.
    fn note_free(&mut self, from: usize)
        requires sound { IsStandingTree self.old }
        requires some { 1 ≤ from }
        requires from { from ≤ length self.old.cells.items }
        requires free { (a : ℕ) → a < self.old.spare → slice_index self.old.free.items a < from }
        requires unused { (i : ℕ) → from ≤ i → (cell_of self.old i).used ≡ false }
        requires room { self.old.spare + maps.len (kept self.old) ≤ from }
        ensures sound { IsStandingTree self.new }
        ensures kept { kept self.new ≡ kept self.old }
        ensures spare { self.new.spare + from ≡ self.old.spare + length self.old.cells.items }
    {
        for cell in from..self.cells.len() {
            self.free[self.spare] = cell as u32;
            self.spare += 1;
        }
    }

    /// Sees to it that there are so many cells; those that come new are free.
    fn extend(&mut self, wanted: usize) -> Result<(), AllocError>
        requires sound { IsStandingTree self.old }
        requires begun { 1 ≤ length self.old.cells.items }
        requires more { length self.old.cells.items ≤ wanted }
        requires wide { wanted ≤ length self.old.free.items }
        requires few { wanted ≤ 2 ^ 32 }
        ensures sound { IsStandingTree self.new }
        ensures kept { kept self.new ≡ kept self.old }
        ensures spare { self.old.spare ≤ self.new.spare }
        ensures ready { OnOk result (self.new.spare + length self.old.cells.items ≡ self.old.spare + wanted) }
    {
        let from = self.cells.len();
        self.cells.resize(wanted, FREE)?;
        self.note_free(from);
        Ok(())
    }

    /// Makes ready room for at least `more` machine frames, those included that are spare already.
    pub(crate) fn reserve(&mut self, more: usize) -> Result<(), AllocError>
        requires { IsStandingTree self.old }
        ensures sound { IsStandingTree self.new }
        ensures kept { kept self.new ≡ kept self.old }
        ensures spare { self.old.spare ≤ self.new.spare }
        ensures ready { OnOk result (more ≤ self.new.spare) }
        ensures enough { more ≤ self.old.spare → IsOk result }
    {
        if more <= self.spare {
            return Ok(());
        }
        let from = self.cells.len().max(1);
        if more - self.spare > MOST_CELLS - from {
            return Err(AllocError);
        }
        let wanted = from + (more - self.spare);
        self.lengthen(wanted)?;
        self.begin()?;
        self.extend(wanted)
    }
}
