//! How often roles have become live.
ghost use Rattle.std.specs.Prelude.{◌≡◌, ◌<◌, ◌≤◌, ◌↔◌, IsTrue, All, Bool, length};
ghost use Rattle.dl_base.specs.declared.concept.Role.{Role as AnyRole};
ghost use Rattle.witness_book.specs.Rising.{AreSmall, BecomesLive, Rises, generation_at, generation_in};

use dl_base::{Role, RoleSet};

/// How often a role name and its inverse have become live.
#[derive(Clone, Copy)]
pub(crate) struct Generations {
    pub(crate) direct: u64,
    pub(crate) inverse: u64,
}

impl Generations {
    /// That of the direct role or of its inverse.
    pub(crate) fn of(&self, inverse: bool) -> u64
        ensures { result ≡ generation_in self.now inverse }
    {
        if inverse { self.inverse } else { self.direct }
    }
}

/// Raises by one the generation of each role that is live now and was not before. The generations stand by the places of
/// the role names.
pub(crate) fn raise(generations: &mut [Generations], before: &RoleSet, now: &RoleSet)
    requires few { length generations.old ≤ 256 }
    requires small { All AreSmall generations.old }
    ensures { (r : AnyRole) → r.name < length generations.old → Rises before.now now.now r (generation_at generations.old r) (generation_at generations.new r) }
{
    for name in 0..generations.len() {
        generations[name] = raised(generations[name], name as u32, before, now);
    }
}

/// The generations of the role name at a place and of its inverse, each raised by one where the role is live now and was
/// not before.
fn raised(old: Generations, name: u32, before: &RoleSet, now: &RoleSet) -> Generations
    requires placed { name < 256 }
    requires small { AreSmall old }
    ensures { (inverse : Bool) → Rises before.now now.now (record { name = name; inverse = inverse }) (generation_in old inverse) (generation_in result inverse) }
{
    let direct = Role {
        name,
        inverse: false,
    };
    Generations {
        direct: old.direct + u64::from(becomes_live(direct, before, now)),
        inverse: old.inverse + u64::from(becomes_live(direct.inverted(), before, now)),
    }
}

/// Whether the role is live now and was not before.
fn becomes_live(r: Role, before: &RoleSet, now: &RoleSet) -> bool
    requires { r.name < 256 }
    ensures { IsTrue result ↔ BecomesLive before.now now.now r }
{
    now.has(r) && !before.has(r)
}
