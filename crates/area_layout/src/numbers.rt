//! The numbers at the front of bytes.

ghost use Rattle.std.specs.Prelude.{◌≡◌, ◌≤◌, length, take};
ghost use Rattle.byteorder.specs.Endian.{big_bytes};

use byteorder::{BigEndian, ByteOrder};

pub(crate) fn u32_at(bytes: &[u8]) -> u32
    requires { 4 ≤ length bytes.now }
    ensures { big_bytes 4 result ≡ take 4 bytes.now }
{
    BigEndian::read_u32(bytes)
}

pub(crate) fn u64_at(bytes: &[u8]) -> u64
    requires { 8 ≤ length bytes.now }
    ensures { big_bytes 8 result ≡ take 8 bytes.now }
{
    BigEndian::read_u64(bytes)
}
