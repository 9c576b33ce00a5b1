//! Clashes behind roles.
use dl_base::RolePath;

/// A list of roles, and an inclusion to nothing the whole body of which is derived at the end of the list.
#[derive(Debug, Drop)]
pub struct RoleClash {
    /// The number of the inclusion, counted from 1.
    pub inclusion: u32,
    /// The roles.
    pub path: RolePath,
}
