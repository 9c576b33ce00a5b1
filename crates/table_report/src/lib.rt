//! The lines of the completed tables of a base.
#![tactic(auto)]

mod entry;
mod gather;
pub mod laws;
mod lookup;
mod order;
mod report;
#[cfg(test)]
mod tests;
mod writing;

pub use report::table_lines;
