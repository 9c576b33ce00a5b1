//! The header of an area, behind its gate.

ghost use Rattle.std.specs.Prelude.{◌≡◌};
ghost use Rattle.area_layout.specs.Layout.{header_bytes, HeaderAt};

use crate::LayoutError;
use crate::numbers::{u32_at, u64_at};
use byteorder::{BigEndian, ByteOrder};

/// The fields of a header.
#[derive(Clone, Copy, Debug, PartialEq, Eq)]
pub struct Header {
    /// The version of the log's format.
    pub version: u32,
    /// How often the area was written anew.
    pub epoch: u64,
}

/// The header's bytes: the magic `OBDA`, the version and the epoch.
pub fn write_header(h: &Header) -> [u8; 16]
    ensures { result ≡ header_bytes h.now }
{
    let mut out = [b'O', b'B', b'D', b'A', 0, 0, 0, 0, 0, 0, 0, 0, 0, 0, 0, 0];
    BigEndian::write_u32(&mut out[4..], h.version);
    BigEndian::write_u64(&mut out[8..], h.epoch);
    out
}

/// The header that the first 16 bytes are. It judges the magic alone: every version and every epoch is read. `Short`
/// comes exactly where there are fewer than 16 bytes, and `Bad` where they are there, at the first wrong byte of the magic.
pub fn read_header(bytes: &[u8]) -> Result<Header, LayoutError>
    ensures { HeaderAt bytes.now result }
{
    if bytes.len() < 16 {
        return Err(LayoutError::Short(bytes.len() as u64));
    }
    if bytes[0] != b'O' {
        return Err(LayoutError::Bad(0));
    }
    if bytes[1] != b'B' {
        return Err(LayoutError::Bad(1));
    }
    if bytes[2] != b'D' {
        return Err(LayoutError::Bad(2));
    }
    if bytes[3] != b'A' {
        return Err(LayoutError::Bad(3));
    }
    Ok(Header {
        version: u32_at(&bytes[4..]),
        epoch: u64_at(&bytes[8..]),
    })
}
