//! Handles, and why one names nothing.

use thiserror::Error;

/// Names a value of an arena: the number of its slot, counted from 0, and which of the values given there it is, counted from 1.
#[derive(Clone, Copy, Debug, PartialEq, Eq, Hash)]
pub struct Handle {
    pub slot: u32,
    pub generation: u64,
}

/// Why a handle names nothing.
#[derive(Clone, Copy, Debug, PartialEq, Eq, Error)]
pub enum Gone {
    /// The arena hasn't given it.
    #[error("the handle was never given")]
    Never,
    /// Its value was removed; this is the last generation of its slot.
    #[error("the value was dropped, and the last generation of its slot is {0}")]
    Dropped(u64),
}
