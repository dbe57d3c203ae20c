ghost use Rattle.std.specs.Prelude.{◌≡◌};
ghost use Rattle.mig_records.specs.Shapes.{shape_of};

use crate::layout::Layout;
use mig_guest::PartCode;

/// The shape of a body that says parts of one code.
#[derive(Clone, Copy)]
pub enum Shape {
    /// A table of parts.
    Table(Layout),
    /// So many bytes of the part, and so many that are ignored.
    Single(usize, usize),
    /// The numbers of a key, in 4 bytes and so many; so many bytes that are ignored; and the part, or, where the test
    /// holds, nothing if it were empty.
    Named(usize, usize, bool),
    /// The entries of an HVM context.
    Chain,
    /// A body of its own.
    Other,
}

/// How the body is spelled that sets parts of this code.
pub fn shape_of(code: PartCode) -> Shape
    ensures { result ≡ shape_of code }
{
    match code {
        PartCode::VcpuBasic | PartCode::VcpuExtended | PartCode::VcpuXsave | PartCode::VcpuMsrs =>
            Shape::Named(0, 4, true),
        PartCode::SharedInfo => Shape::Single(4096, 0),
        PartCode::Tsc => Shape::Single(20, 4),
        PartCode::HvmContext => Shape::Chain,
        PartCode::HvmParam => Shape::Table(Layout::new(true, 8, 0, 8)),
        PartCode::CpuidLeaf => Shape::Table(Layout::new(false, 4, 4, 16)),
        PartCode::Msr => Shape::Table(Layout::new(false, 4, 0, 12)),
        PartCode::P2mFrames | PartCode::EmulatorPairs | PartCode::EmulatorContext => Shape::Other,
    }
}
