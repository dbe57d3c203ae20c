ghost use Rattle.std.specs.Prelude.{◌≡◌, ◌≤◌, ◌↔◌, ◌⊎◌, IsNone};

/// The type of a frame in a stream (libxc migration stream, "PAGE_DATA", the page types 0 to 0xF without the reserved
/// ones from 5 to 8).
#[derive(Clone, Copy, Debug, PartialEq, Eq)]
pub enum PageType {
    Notab,
    L1Tab,
    L2Tab,
    L3Tab,
    L4Tab,
    L1Pinned,
    L2Pinned,
    L3Pinned,
    L4Pinned,
    Broken,
    Xalloc,
    Xtab,
}

impl PageType {
    ghost use Rattle.mig_pagetypes.specs.PageTypes.{number_of, type_of, type_has_data, level_of};

    /// The type that has this number; none has a reserved one.
    pub fn from_nibble(n: u8) -> Option<PageType>
        ensures value { result ≡ type_of n }
        ensures reserved { IsNone result ↔ ((5 ≤ n) × (n ≤ 8) ⊎ 16 ≤ n) }
    {
        match n {
            0 => Some(PageType::Notab),
            1 => Some(PageType::L1Tab),
            2 => Some(PageType::L2Tab),
            3 => Some(PageType::L3Tab),
            4 => Some(PageType::L4Tab),
            9 => Some(PageType::L1Pinned),
            0xA => Some(PageType::L2Pinned),
            0xB => Some(PageType::L3Pinned),
            0xC => Some(PageType::L4Pinned),
            0xD => Some(PageType::Broken),
            0xE => Some(PageType::Xalloc),
            0xF => Some(PageType::Xtab),
            _ => None,
        }
    }

    /// The number that the type has in a stream.
    pub fn nibble(self) -> u8
        ensures value { result ≡ number_of self }
        ensures small { result ≤ 15 }
    {
        match self {
            PageType::Notab => 0,
            PageType::L1Tab => 1,
            PageType::L2Tab => 2,
            PageType::L3Tab => 3,
            PageType::L4Tab => 4,
            PageType::L1Pinned => 9,
            PageType::L2Pinned => 0xA,
            PageType::L3Pinned => 0xB,
            PageType::L4Pinned => 0xC,
            PageType::Broken => 0xD,
            PageType::Xalloc => 0xE,
            PageType::Xtab => 0xF,
        }
    }

    /// Whether a page comes with a frame of this type.
    pub fn has_data(self) -> bool
        ensures { result ≡ type_has_data self }
    {
        !matches!(self, PageType::Broken | PageType::Xalloc | PageType::Xtab)
    }

    /// The level of a page table, pinned or not.
    pub fn table_level(self) -> Option<u8>
        ensures { result ≡ level_of self }
    {
        match self {
            PageType::L1Tab | PageType::L1Pinned => Some(1),
            PageType::L2Tab | PageType::L2Pinned => Some(2),
            PageType::L3Tab | PageType::L3Pinned => Some(3),
            PageType::L4Tab | PageType::L4Pinned => Some(4),
            _ => None,
        }
    }
}
