use mig_pagetypes::PageType;

/// An entry that is held until its record is written: no type says that the number has no frame, and the page counts
/// only where the type has data.
#[derive(Clone, Copy)]
pub struct HeldFrame {
    pub pfn: u64,
    pub kind: Option<PageType>,
    pub page: [u8; 4096],
}
