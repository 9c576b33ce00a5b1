//! Why bytes are not read.

use thiserror::Error;

/// Why bytes are no header, or no head of an entry.
#[derive(Clone, Copy, Debug, PartialEq, Eq, Error)]
pub enum LayoutError {
    /// There are only so many bytes.
    #[error("only {0} bytes are there")]
    Short(u64),
    /// The first wrong byte of the magic; or the place of the field of a head that is out of range. Counted from 0.
    #[error("byte {0} is wrong")]
    Bad(u64),
}
