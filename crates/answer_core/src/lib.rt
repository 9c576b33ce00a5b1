//! The certain answers of a query, from completed tables.
#![tactic(auto)]

mod answer_list;
mod bound;
mod fixed;
mod key_store;
pub mod laws;
mod number_keys;
mod ranks;
mod rows;

pub use answer_list::answers;
pub use bound::{Bound, bind};

#[cfg(test)]
mod tests;
