//! Steps from one list of roles to another.
ghost use Rattle.std.specs.Prelude.{◌≡◌, ◌↔◌, ◌∷◌, IfOk, IsTrue};
ghost use Rattle.tree_witness.specs.Trees.{CanStep, IsStep};

use dl_base::{Items, Role, RolePath};
use std::alloc::{AllocError, Global};

/// Whether an atom of this role leads on from these roles.
pub(crate) fn can_step(root: Role, roles: &[Role], by: Role) -> bool
    ensures { IsTrue result ↔ CanStep root roles.now by }
{
    !roles.is_empty() || by == root
}

/// Whether an atom of this role leads from these roles to those.
pub(crate) fn is_step(root: Role, roles: &[Role], by: Role, found: &[Role]) -> bool
    ensures { IsTrue result ↔ IsStep root roles.now by found.now }
{
    match roles {
        [] => by == root && is_behind(by, roles, found),
        [last, before @ ..] => {
            if by == last.inverted() {
                found == before
            } else {
                is_behind(by, roles, found)
            }
        }
    }
}

/// Whether the list is that role and then these.
fn is_behind(first: Role, roles: &[Role], found: &[Role]) -> bool
    ensures { IsTrue result ↔ (found.now ≡ first ∷ roles.now) }
{
    match found {
        [] => false,
        [last, before @ ..] => *last == first && before == roles,
    }
}

/// The roles to which an atom of this role leads from these.
pub(crate) fn stepped(
    alloc: Global,
    root: Role,
    roles: &[Role],
    by: Role,
) -> Result<RolePath, AllocError>
    requires { CanStep root roles.now by }
    ensures { IfOk result (IsStep root roles.now by) }
{
    match roles {
        [last, before @ ..] if by == last.inverted() => Items::from_slice(alloc, before),
        _ => behind(alloc, by, roles),
    }
}

/// That role and then these.
fn behind(alloc: Global, first: Role, roles: &[Role]) -> Result<RolePath, AllocError>
    ensures { IfOk result (λ found. found ≡ first ∷ roles.now) }
{
    let mut found = Vec::with_capacity(alloc, roles.len().saturating_add(1))?;
    found.push(first)?;
    found.extend_from_slice(roles)?;
    Ok(Items::from_vec(found))
}
