//! What stands before an entry's payload, behind its gate.

ghost use Rattle.std.specs.Prelude.{◌≡◌};
ghost use Rattle.area_layout.specs.Layout.{head_bytes, IsHead, HeadAt};

use crate::LayoutError;
use crate::numbers::u32_at;
use byteorder::{BigEndian, ByteOrder};

/// The kind of an entry, and how many bytes its payload has.
#[derive(Clone, Copy, Debug, PartialEq, Eq)]
pub struct EntryHead {
    /// From 1 to 4.
    pub kind: u8,
    /// At most 8,388,608.
    pub len: u32,
}

/// The most bytes that a payload has.
pub const MAX_PAYLOAD: u32 = 8_388_608;

/// The head's bytes: the kind and the length.
pub fn write_head(h: &EntryHead) -> [u8; 5]
    requires { IsHead h.now }
    ensures { result ≡ head_bytes h.now }
{
    let mut out = [h.kind, 0, 0, 0, 0];
    BigEndian::write_u32(&mut out[1..], h.len);
    out
}

/// The head that the first 5 bytes are. `Short` comes exactly where there are fewer than 5 bytes. `Bad` comes where they
/// are there and the kind isn't from 1 to 4, at 0, or else where the length is above 8,388,608, at 1.
pub fn read_head(bytes: &[u8]) -> Result<EntryHead, LayoutError>
    ensures { HeadAt bytes.now result }
{
    if bytes.len() < 5 {
        return Err(LayoutError::Short(bytes.len() as u64));
    }
    let head = EntryHead {
        kind: bytes[0],
        len: u32_at(&bytes[1..]),
    };
    if head.kind < 1 || head.kind > 4 {
        return Err(LayoutError::Bad(0));
    }
    if head.len > MAX_PAYLOAD {
        return Err(LayoutError::Bad(1));
    }
    Ok(head)
}
