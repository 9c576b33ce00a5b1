//! The roles to whose witnesses an individual points.
ghost use Rattle.std.specs.Prelude.{◌≡◌, ◌≤◌, ◌<◌, ◌⊎◌, ◌↔◌, IsTrue};
ghost use Rattle.completion.specs.Points.{IsNeeded, IsNeededBelow};
ghost use Rattle.dl_base.specs.Sets.{HasRole};
ghost use Rattle.dl_base.specs.declared.concept.Role.{Role as AnyRole};

use dl_base::{Basic, BasicSet, Role, RoleSet};
use horn_closure::Closed;

/// Adds the roles among so many names by which something is derived and nothing is held, to both sets.
pub(crate) fn add_needed(
    closed: &Closed,
    held: &BasicSet,
    roles: u32,
    one: &mut RoleSet,
    other: &mut RoleSet,
)
    requires { roles ≤ 256 }
    ensures one { (r : AnyRole) → HasRole one.new r ↔ (IsNeededBelow closed.now.derived held.now roles r ⊎ HasRole one.old r) }
    ensures other { (r : AnyRole) → HasRole other.new r ↔ (IsNeededBelow closed.now.derived held.now roles r ⊎ HasRole other.old r) }
{
    for name in 0..roles {
        let direct = Role {
            name,
            inverse: false,
        };
        add_if_needed(closed, held, direct, one, other);
        add_if_needed(closed, held, direct.inverted(), one, other);
    }
}

/// Adds the role to both sets where something is derived by it and nothing is held.
fn add_if_needed(closed: &Closed, held: &BasicSet, r: Role, one: &mut RoleSet, other: &mut RoleSet)
    requires { r.name < 256 }
    ensures one { (s : AnyRole) → HasRole one.new s ↔ (((s ≡ r) × IsNeeded closed.now.derived held.now r) ⊎ HasRole one.old s) }
    ensures other { (s : AnyRole) → HasRole other.new s ↔ (((s ≡ r) × IsNeeded closed.now.derived held.now r) ⊎ HasRole other.old s) }
{
    if is_needed(closed, held, r) {
        one.add(r);
        other.add(r);
    }
}

/// Whether something is derived by the role and nothing is held.
fn is_needed(closed: &Closed, held: &BasicSet, r: Role) -> bool
    requires { r.name < 256 }
    ensures { IsTrue result ↔ IsNeeded closed.now.derived held.now r }
{
    closed.has(Basic::Exists(r)) && !held.has(Basic::Exists(r))
}
