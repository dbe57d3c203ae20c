/// Why frames weren't written.
#[derive(Clone, Copy, Debug, PartialEq, Eq)]
pub enum CopyFailed {
    /// A page couldn't be got.
    Read,
    /// A write of the sink failed.
    Write,
}
