//! The least of some roles, in role order.
ghost use Rattle.std.specs.Prelude.{◌<◌, All, Contains, MatchOption, length};
ghost use Rattle.dl_base.specs.Sets.{HasBasic};
ghost use Rattle.dl_base.specs.declared.concept.Basic.TheVariants as basic;
ghost use Rattle.role_graph.specs.Order.{IsLeastRole, IsLesser};

use dl_base::{Basic, Role};
use horn_closure::{Closed, Rules};
use std::cmp::Ordering;

/// The least in role order of the roles of the list of which a successor was derived.
pub(crate) fn least_derived(rules: &Rules, closed: &Closed, roles: &[Role]) -> Option<Role>
    requires { All (λ s. s.name < length rules.now.roles) roles.now }
    ensures { IsLeastRole rules.now (λ s. Contains roles.now s × HasBasic closed.now.derived (basic.Exists s)) result }
{
    let mut least = None;
    for s in roles {
        if closed.has(Basic::Exists(*s)) {
            least = Some(lesser(rules, least, *s));
        }
    }
    least
}

/// The lesser in role order of the role that is known and another.
fn lesser(rules: &Rules, known: Option<Role>, s: Role) -> Role
    requires known { MatchOption known (Unit {0}) (λ r. r.name < length rules.now.roles) }
    requires other { s.name < length rules.now.roles }
    ensures { IsLesser rules.now known s result }
{
    match known {
        None => s,
        Some(r) => match rules.compared(s, r) {
            Ordering::Less => s,
            _ => r,
        },
    }
}
