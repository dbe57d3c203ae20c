/// The version of a guest image. They differ in the name that they begin with and in a frame's word; and version 2 leaves
/// out the pages that are all zero.
#[derive(Clone, Copy, Debug, PartialEq, Eq)]
pub enum GuestImageVersion {
    One,
    Two,
}
