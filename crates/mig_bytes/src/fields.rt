ghost use Rattle.std.specs.Prelude.{◌≡◌, ℕ, ◌+◌, ◌≤◌, ◌<◌, length};
ghost use Rattle.mig_bytes.specs.Common.{little_bytes, big_bytes};
ghost use Rattle.mig_bytes.specs.Bytes.{padding_len, IsLeastPadding};
ghost use Rattle.mig_bytes.specs.Fields.{le16, le32, le64, be16, be32, be64, with_field};

use byteorder::{BigEndian, ByteOrder, LittleEndian};

/// How many bytes make a length a multiple of 8.
pub fn pad_len(len: u32) -> usize
    ensures value { result ≡ padding_len len }
    ensures small { result < 8 }
{
    ((8 - len % 8) % 8) as usize
}

/// The padding of a length is the least number that makes it a multiple of 8.
pub fn padding_is_least()
    ensures { (len : ℕ) → IsLeastPadding len (padding_len len) }
{}

/// The 16-bit number at `at`, the lowest byte first.
#[tactic(auto, unfolding(crate::specs::Fields::le16))]
pub fn u16_le(bytes: &[u8], at: usize) -> u16
    requires { at + 2 ≤ length bytes.now }
    ensures { result ≡ le16 bytes.now at }
{
    LittleEndian::read_u16(&bytes[at..])
}

/// The 32-bit number at `at`, the lowest byte first.
#[tactic(auto, unfolding(crate::specs::Fields::le32))]
pub fn u32_le(bytes: &[u8], at: usize) -> u32
    requires { at + 4 ≤ length bytes.now }
    ensures { result ≡ le32 bytes.now at }
{
    LittleEndian::read_u32(&bytes[at..])
}

/// The 64-bit number at `at`, the lowest byte first.
#[tactic(auto, unfolding(crate::specs::Fields::le64))]
pub fn u64_le(bytes: &[u8], at: usize) -> u64
    requires { at + 8 ≤ length bytes.now }
    ensures { result ≡ le64 bytes.now at }
{
    LittleEndian::read_u64(&bytes[at..])
}

/// The 16-bit number at `at`, the highest byte first.
#[tactic(auto, unfolding(crate::specs::Fields::be16))]
pub fn u16_be(bytes: &[u8], at: usize) -> u16
    requires { at + 2 ≤ length bytes.now }
    ensures { result ≡ be16 bytes.now at }
{
    BigEndian::read_u16(&bytes[at..])
}

/// The 32-bit number at `at`, the highest byte first.
#[tactic(auto, unfolding(crate::specs::Fields::be32))]
pub fn u32_be(bytes: &[u8], at: usize) -> u32
    requires { at + 4 ≤ length bytes.now }
    ensures { result ≡ be32 bytes.now at }
{
    BigEndian::read_u32(&bytes[at..])
}

/// The 64-bit number at `at`, the highest byte first.
#[tactic(auto, unfolding(crate::specs::Fields::be64))]
pub fn u64_be(bytes: &[u8], at: usize) -> u64
    requires { at + 8 ≤ length bytes.now }
    ensures { result ≡ be64 bytes.now at }
{
    BigEndian::read_u64(&bytes[at..])
}

/// Writes a 16-bit number at `at`, the lowest byte first. All other bytes stay.
pub fn put_u16_le(bytes: &mut [u8], at: usize, v: u16)
    requires { at + 2 ≤ length bytes.old }
    ensures { bytes.new ≡ with_field bytes.old at (little_bytes 2 v) }
{
    LittleEndian::write_u16(&mut bytes[at..], v);
}

/// Writes a 32-bit number at `at`, the lowest byte first. All other bytes stay.
pub fn put_u32_le(bytes: &mut [u8], at: usize, v: u32)
    requires { at + 4 ≤ length bytes.old }
    ensures { bytes.new ≡ with_field bytes.old at (little_bytes 4 v) }
{
    LittleEndian::write_u32(&mut bytes[at..], v);
}

/// Writes a 64-bit number at `at`, the lowest byte first. All other bytes stay.
pub fn put_u64_le(bytes: &mut [u8], at: usize, v: u64)
    requires { at + 8 ≤ length bytes.old }
    ensures { bytes.new ≡ with_field bytes.old at (little_bytes 8 v) }
{
    LittleEndian::write_u64(&mut bytes[at..], v);
}

/// Writes a 32-bit number at `at`, the highest byte first. All other bytes stay.
pub fn put_u32_be(bytes: &mut [u8], at: usize, v: u32)
    requires { at + 4 ≤ length bytes.old }
    ensures { bytes.new ≡ with_field bytes.old at (big_bytes 4 v) }
{
    BigEndian::write_u32(&mut bytes[at..], v);
}

/// Writes a 64-bit number at `at`, the highest byte first. All other bytes stay.
pub fn put_u64_be(bytes: &mut [u8], at: usize, v: u64)
    requires { at + 8 ≤ length bytes.old }
    ensures { bytes.new ≡ with_field bytes.old at (big_bytes 8 v) }
{
    BigEndian::write_u64(&mut bytes[at..], v);
}
