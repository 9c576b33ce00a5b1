//! The first clash of a base.
#![tactic(auto)]

mod at;
mod found;
mod order;
mod report;
#[cfg(test)]
mod tests;

pub use report::first_clash;
