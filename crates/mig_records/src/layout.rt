ghost use Rattle.std.specs.Prelude.{◌≡◌, ◌≤◌};

/// How a table spells parts of one code, an entry behind the other: the numbers of a key, the lowest byte first, and the
/// bytes of the part.
#[derive(Clone, Copy)]
pub struct Layout {
    /// Whether the number of entries, and 4 bytes that are ignored, stand before them.
    pub counted: bool,
    /// The bytes of a key's first number.
    pub key1_width: usize,
    /// The bytes of its second; 0 where there is none.
    pub key2_width: usize,
    /// The bytes of a part.
    pub value_width: usize,
}

impl Layout {
    ghost use Rattle.mig_records.specs.Layouts.{AreWidths, layout, entry_width, front_width};

    /// A layout of these widths; one that is counted has the number of its entries before them.
    pub fn new(counted: bool, key1_width: usize, key2_width: usize, value_width: usize) -> Layout
        ensures { result ≡ layout counted key1_width key2_width value_width }
    {
        Layout {
            counted,
            key1_width,
            key2_width,
            value_width,
        }
    }

    /// The bytes of an entry.
    pub fn entry_width(self) -> usize
        requires { AreWidths self }
        ensures value { result ≡ entry_width self }
        ensures small { result ≤ 32 }
    {
        self.key1_width + self.key2_width + self.value_width
    }

    /// The bytes before the entries.
    pub fn front_width(self) -> usize
        ensures { result ≡ front_width self }
    {
        if self.counted { 8 } else { 0 }
    }
}
