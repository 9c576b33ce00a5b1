//! What a program reads, where it prints and what it keeps on its disk, as traits, with hosts in memory and over std.
//!
//! A source and a host count their failures, so that a caller can tell a failure of theirs from its own.
//! Where their bytes are told, contracts say which bytes were taken and printed, what an area reads as, and what a stop at
//! any moment may leave.
#![tactic(auto)]

mod area_file;
mod areas;
mod call;
mod counts;
mod even_host;
mod folder;
mod host;
pub mod laws;
mod memory_host;
mod memory_source;
mod source;
mod stop;
#[cfg(test)]
mod tests;

pub use areas::Areas;
pub use call::Call;
pub use even_host::EvenHost;
pub use folder::FolderHost;
pub use host::Host;
pub use memory_host::MemHost;
pub use memory_source::{EvenSource, MemSource};
pub use plain_list::Items;
pub use source::{Source, StdSource};

/// Bytes, in order.
pub type Bytes = Items<u8>;

/// Numbers of calls, the first call being number 1.
pub type Calls = Items<u64>;

/// A call failed, and the count of its kind rose.
#[derive(Clone, Copy, Debug, PartialEq, Eq)]
pub struct Failed;
