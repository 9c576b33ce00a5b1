//! The rows that a base asserts, by number, found by row and by individual.
#![tactic(auto)]

mod assertions;
mod gathered;
mod listing;
mod naming;
mod order;
mod row_set;
#[cfg(test)]
mod tests;

pub use assertions::Assertions;
pub use gathered::GatheredRows;
pub use listing::listed;
pub use naming::RowsNaming;
pub use order::in_order;
