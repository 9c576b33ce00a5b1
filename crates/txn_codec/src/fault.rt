//! Why bytes are not read.

use thiserror::Error;

/// Why bytes are no payload.
#[derive(Clone, Copy, Debug, PartialEq, Eq, Error)]
pub enum CodecError {
    /// No payload has the bytes up to this place, counted from 0, as its first ones; the number of bytes, where they
    /// are the first ones of a longer payload.
    #[error("no payload, from byte {0}")]
    Bad(u64),
    /// Memory ran out. This may come at any bytes.
    #[error("no memory")]
    NoMemory,
}
