//! The top call of the ontology database.
#![tactic(auto)]

mod command;
mod sample;
#[cfg(test)]
mod scripts;
mod serving;
mod status;
#[cfg(test)]
mod tests;

pub use serving::serve;
pub use status::Status;
