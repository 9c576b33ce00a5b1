//! The matches of a shape in completed tables, one after another, by a plan.
#![tactic(auto)]

mod by_levels;
mod condition;
mod level;
mod matches;
mod order;
mod search;
mod source;
mod twins;

pub use matches::Matches;

#[cfg(test)]
mod tests;
