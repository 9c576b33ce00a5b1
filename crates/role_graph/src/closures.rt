//! What is derived behind each role.
ghost use Rattle.std.specs.Prelude.{◌≡◌, ◌<◌, ◌≤◌, ◌+◌, ◌*◌, ℕ, List, false, IfOk, OnOk, Bool, length};
ghost use Rattle.dl_base.specs.Ontology.{IsTerminology};
ghost use Rattle.dl_base.specs.Sets.{role_place};
ghost use Rattle.dl_base.specs.declared.concept.Inclusion.{Inclusion};
ghost use Rattle.horn_closure.specs.Closure.{IsClosure, IsScratchOf};
ghost use Rattle.dl_base.specs.Derivation.{HeldBehind};
ghost use Rattle.role_graph.specs.Behind.{AreClosures, side};

use dl_base::{Basic, BasicSet, Role};
use horn_closure::{Closed, Rules, Scratch, Steps};
use std::alloc::{AllocError, Global};
use std::sync::ledger::Ledger;

/// What is derived behind a role name, and behind its inverse.
#[derive(Drop)]
pub(crate) struct BothWays {
    pub(crate) direct: Closed,
    pub(crate) inverse: Closed,
}

impl BothWays {
    /// What is derived behind the direct role or behind its inverse.
    pub(crate) fn of(&self, inverse: bool) -> &Closed
        ensures { result.now ≡ side self.now inverse }
    {
        if inverse { &self.inverse } else { &self.direct }
    }
}

/// The closure of what is held behind the role, among those of its name.
pub(crate) fn closed_behind_of(closed: &[BothWays], r: Role) -> &Closed
    requires placed { r.name < length closed.now }
    ensures { (inclusions : List Inclusion) (names : ℕ) → AreClosures inclusions names closed.now → IsClosure inclusions (HeldBehind r) result.now }
{
    closed[r.name as usize].of(r.inverse)
}

/// The place of a role among all.
pub(crate) fn place_of(r: Role) -> usize
    requires { r.name < 256 }
    ensures { result ≡ role_place r }
{
    2 * r.name as usize + r.inverse as usize
}

/// The role at a place among all.
pub fn role_at(place: usize) -> Role
    requires { place < 512 }
    ensures place { role_place result ≡ place }
    ensures placed { 2 * result.name ≤ place }
{
    Role {
        name: (place / 2) as u32,
        inverse: place % 2 == 1,
    }
}

/// For each role name of the ontology, by its place, the closures of what is held behind it and behind its inverse.
pub(crate) fn closures<L: Ledger>(
    alloc: Global,
    rules: &Rules,
    scratch: &mut Scratch,
    steps: &mut Steps<L>,
) -> Result<Vec<BothWays>, AllocError>
    requires scratch { IsScratchOf rules.now scratch.old }
    ensures closures { IfOk result (λ v. AreClosures rules.now.inclusions (length rules.now.roles) v.items) }
    ensures within { IsTerminology rules.now }
    ensures scratch { scratch.new ≡ scratch.old }
    ensures cost { OnOk result (steps.new ≡ steps.old + 2 * length rules.now.roles) }
    ensures most { steps.new ≤ steps.old + 2 * length rules.now.roles }
{
    let mut closed = Vec::new(alloc);
    for name in 0..rules.roles().len() as u32 {
        closed.push(closed_both_ways(name, rules, scratch, steps))?;
    }
    Ok(closed)
}

/// The closures behind the role name at a place and behind its inverse.
fn closed_both_ways<L: Ledger>(
    name: u32,
    rules: &Rules,
    scratch: &mut Scratch,
    steps: &mut Steps<L>,
) -> BothWays
    requires placed { name < 256 }
    requires scratch { IsScratchOf rules.now scratch.old }
    ensures closures { (inverse : Bool) → IsClosure rules.now.inclusions (HeldBehind (record { name = name; inverse = inverse })) (side result inverse) }
    ensures scratch { scratch.new ≡ scratch.old }
    ensures cost { steps.new ≡ steps.old + 2 }
{
    let role = Role {
        name,
        inverse: false,
    };
    let direct = closed_behind(role, rules, scratch, steps);
    let inverse = closed_behind(role.inverted(), rules, scratch, steps);
    BothWays { direct, inverse }
}

/// The closure of what is held behind the role.
fn closed_behind<L: Ledger>(
    r: Role,
    rules: &Rules,
    scratch: &mut Scratch,
    steps: &mut Steps<L>,
) -> Closed
    requires placed { r.name < 256 }
    requires scratch { IsScratchOf rules.now scratch.old }
    ensures closure { IsClosure rules.now.inclusions (HeldBehind r) result }
    ensures scratch { scratch.new ≡ scratch.old }
    ensures cost { steps.new ≡ steps.old + 1 }
{
    let mut held = BasicSet::new();
    held.add(Basic::Exists(r.inverted()));
    rules.close(&held, scratch, steps)
}
