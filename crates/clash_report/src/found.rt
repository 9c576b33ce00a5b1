//! A clash by numbers.
use role_graph::RoleClash;

/// A clash, by the number of its individual.
#[derive(Drop)]
pub(crate) struct Found {
    pub(crate) individual: u32,
    pub(crate) clash: RoleClash,
}
