//! How many replies a whole script has, how many answers they hold, and how many bytes their texts have.
//!
//! It is generic over the engine that answers, and nothing is printed. `specs/Tallying.antt` says what is counted.
#![tactic(auto)]

mod counting;
mod gathering;
pub mod laws;
mod tallying;

pub use counting::Tally;
pub use tallying::tally;

#[cfg(test)]
mod tests;
