// The calls on a host in memory.
use crate::Bytes;

/// One call on a host in memory. `done` says whether it was done; a call that wasn't changed nothing that a read gives.
#[derive(Debug, Drop)]
pub enum Call {
    /// It asked for a length, or read.
    Quiet,

    /// It wrote these bytes into an area, from a place on.
    Write {
        area: u8,
        at: u64,
        bytes: Bytes,
        done: bool,
    },

    /// It cut an area to a length.
    Cut {
        area: u8,
        len: u64,
        done: bool,
    },

    /// It put both areas on the disk.
    Sync {
        done: bool,
    },

    /// It printed these bytes.
    Print {
        bytes: Bytes,
        done: bool,
    },
}
