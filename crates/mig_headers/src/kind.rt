/// What kind of guest a stream has: the type of its domain header (libxc migration stream, "Domain Header").
#[derive(Clone, Copy, Debug, PartialEq, Eq)]
pub enum Kind {
    /// x86 PV, type 1.
    Pv,
    /// x86 HVM, type 2.
    Hvm,
}
