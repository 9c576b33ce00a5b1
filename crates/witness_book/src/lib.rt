//! The generations of witnesses: how often each role has become live, and which witnesses are current.
#![tactic(auto)]

mod book;
mod generations;
#[cfg(test)]
mod tests;

pub use book::WitnessBook;
