ghost use Rattle.std.specs.Prelude.{◌≡◌, ◌≤◌, ◌<◌, ◌^◌, length, drop};
ghost use Rattle.mig_records.specs.Common.{little_number};

use byteorder::{ByteOrder, LittleEndian};

/// The number in the first `width` bytes, the lowest byte first.
pub(crate) fn number(bytes: &[u8], width: usize) -> u64
    requires narrow { width ≤ 8 }
    requires room { width ≤ length bytes.now }
    ensures value { result ≡ little_number width bytes.now }
    ensures fits { result < 256 ^ width }
{
    if width == 0 {
        return 0;
    }
    LittleEndian::read_uint(bytes, width)
}

/// What is behind the first `n` bytes.
pub(crate) fn behind(bytes: &[u8], n: usize) -> &[u8]
    requires { n ≤ length bytes.now }
    ensures { result.now ≡ drop n bytes.now }
{
    bytes.split_at(n).1
}
