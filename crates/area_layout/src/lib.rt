//! The fixed fields of an area of the log: its header, and the head of an entry.
//!
//! A value has one spelling, and a spelling means one value (`specs/Layout.antt`; the laws are in `laws`). Numbers are
//! unsigned and stand with their most significant byte first. No call takes memory.
#![tactic(auto)]

mod entry_head;
mod fault;
mod header;
pub mod laws;
mod numbers;

pub use entry_head::{EntryHead, MAX_PAYLOAD, read_head, write_head};
pub use fault::LayoutError;
pub use header::{Header, read_header, write_header};

#[cfg(test)]
mod tests;
