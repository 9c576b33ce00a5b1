//! What the roles of an ontology lead to: what is derived behind each, and which roles point to which.
#![tactic(auto)]

mod clash;
mod closures;
mod graph;
mod levels;
mod order;
mod points;
#[cfg(test)]
mod tests;

pub use clash::RoleClash;
pub use closures::role_at;
pub use graph::RoleGraph;
