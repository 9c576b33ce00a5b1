//! What changes make of rows by number: which rows come and go, and which individuals a book lacks.
//!
//! The rows are changed in place, and can be put back as they were. The book stays as it is.
#![tactic(auto)]

mod changes;
mod difference;
mod numbers;

pub use changes::{Made, make_changes};
pub use difference::Difference;
pub use numbers::take_newcomers;
