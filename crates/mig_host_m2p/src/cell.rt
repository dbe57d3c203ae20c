ghost use Rattle.std.specs.Prelude.{◌≡◌, ◌≤◌};
ghost use Rattle.mig_host_m2p.specs.Cells.{next_cell, either_below, led};

/// A machine frame with its PFN, and the cells below it. The lowest `depth` bits of the machine frame, the lowest first,
/// lead to the cell, and the next bit leads on from it.
#[derive(Clone, Copy, Drop)]
pub(crate) struct Cell {
    pub(crate) machine: u64,
    pub(crate) pfn: u64,
    /// The cell below for a bit that is 0; 0 where there is none.
    pub(crate) zero: u32,
    /// The cell below for a bit that is 1; 0 where there is none.
    pub(crate) one: u32,
    pub(crate) depth: u8,
    pub(crate) used: bool,
}

impl Cell {
    /// The next cell on the way to this machine frame; 0 where the way ends.
    pub(crate) fn towards(&self, machine: u64) -> u32
        requires { self.now.depth ≤ 40 }
        ensures { result ≡ next_cell self.now machine }
    {
        if (machine >> self.depth) % 2 == 0 {
            self.zero
        } else {
            self.one
        }
    }

    /// Some cell below; 0 where there is none.
    pub(crate) fn any_below(&self) -> u32
        ensures { result ≡ either_below self.now }
    {
        if self.zero == 0 { self.one } else { self.zero }
    }

    /// The way to this machine frame goes on to this cell; with 0 it ends.
    pub(crate) fn leading(&self, machine: u64, to: u32) -> Cell
        requires { self.now.depth ≤ 40 }
        ensures { result ≡ led self.now machine to }
    {
        let mut cell = *self;
        if (machine >> self.depth) % 2 == 0 {
            cell.zero = to;
        } else {
            cell.one = to;
        }
        cell
    }

    /// The cell at the same place, with this machine frame and this PFN.
    pub(crate) fn having(&self, machine: u64, pfn: u64) -> Cell
        ensures { result ≡ record self.now { machine = machine; pfn = pfn } }
    {
        let mut cell = *self;
        cell.machine = machine;
        cell.pfn = pfn;
        cell
    }
}
