//! Which matches of completed tables come from placings on the short unfolding.
#![tactic(auto)]

mod classes;
mod grounding;
mod lifting;
mod link;

pub use lifting::lifts;

#[cfg(test)]
mod tests;
