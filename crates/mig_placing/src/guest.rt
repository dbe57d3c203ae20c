use mig_file::PageFile;
use mig_guest::Guest;
use mig_placed::Places;

/// A guest whose pages stay in the file that its stream stands in.
#[derive(Drop)]
pub struct PlacedGuest<'a, P: PageFile> {
    /// The outline of the guest that was sent; of a stream that has them with the parts of its emulators.
    pub outline: Guest,
    /// Where in the file each frame's page is.
    pub places: Places,
    /// The file.
    pub file: &'a P,
}
