//! Reading conjunctive queries.
#![tactic(auto)]

mod atoms;
mod limits;
mod query;

pub use query::{Draft, QueryError, fitting, read_draft, read_query};

#[cfg(test)]
mod tests;
