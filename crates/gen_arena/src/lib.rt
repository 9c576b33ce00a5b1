//! Values behind handles. A handle names the value that it was given for until that is removed, and never another one.
#![tactic(auto)]

mod arena;
mod handle;
pub mod laws;
mod places;
#[cfg(test)]
mod tests;

pub use arena::Arena;
pub use handle::{Gone, Handle};
