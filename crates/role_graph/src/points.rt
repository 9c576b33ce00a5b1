//! One step on the way to the live roles.
ghost use Rattle.std.specs.Prelude.{◌≡◌, ◌<◌, ◌↔◌, ◌⊎◌, false, MatchBool, MatchOption};
ghost use Rattle.dl_base.specs.Completion.{RolePoints};
ghost use Rattle.dl_base.specs.Ontology.{Terminology};
ghost use Rattle.dl_base.specs.Sets.{HasRole};
ghost use Rattle.dl_base.specs.declared.concept.Role.{Role as AnyRole};
ghost use Rattle.role_graph.specs.Graph.{HasNode, IsGraphOf};

use crate::graph::RoleGraph;
use dl_base::{Role, RoleSet};

/// The role of the name at a place.
fn named(name: u32) -> Role
    ensures { result ≡ record { name = name; inverse = false } }
{
    Role {
        name,
        inverse: false,
    }
}

/// Whether the role is live and its points are not added yet.
fn waits(r: Role, live: &RoleSet, done: &RoleSet) -> bool
    requires { r.name < 256 }
    ensures { MatchBool result (HasRole live.now r × (HasRole done.now r → ⊥)) (HasRole live.now r → HasRole done.now r) }
{
    live.has(r) && !done.has(r)
}

impl RoleGraph {
    /// A role that is live and not done, or `None`, where each live role of the graph is done.
    pub(crate) fn waiting(&self, live: &RoleSet, done: &RoleSet) -> Option<Role>
        ensures { MatchOption result
            ((r : AnyRole) → HasNode self.now r → HasRole live.now r → HasRole done.now r)
            (λ r. HasRole live.now r × (HasRole done.now r → ⊥)) }
    {
        for name in 0..self.names() {
            let direct = named(name);
            if waits(direct, live, done) {
                return Some(direct);
            }
            if waits(direct.inverted(), live, done) {
                return Some(direct.inverted());
            }
        }
        None
    }

    /// Adds the roles to which s points.
    pub(crate) fn add_points(&self, s: Role, live: &mut RoleSet)
        ensures { (o : Terminology) → IsGraphOf o self.now → (r : AnyRole) → HasRole live.new r ↔ (RolePoints o s r ⊎ HasRole live.old r) }
    {
        for name in 0..self.names() {
            let direct = named(name);
            self.add_point(s, direct, live);
            self.add_point(s, direct.inverted(), live);
        }
    }

    /// Adds r where s points to it.
    fn add_point(&self, s: Role, r: Role, live: &mut RoleSet)
        requires { r.name < 256 }
        ensures { (o : Terminology) → IsGraphOf o self.now → (t : AnyRole) → HasRole live.new t ↔ (((t ≡ r) × RolePoints o s r) ⊎ HasRole live.old t) }
    {
        if self.spawns(s, r) {
            live.add(r);
        }
    }
}
