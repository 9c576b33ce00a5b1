//! The graph of the roles of an ontology.
ghost use Rattle.std.specs.Prelude.{◌≡◌, ◌↔◌, ◌≤◌, ◌+◌, ◌*◌, IfOk, OnOk, IsTrue, List, MatchOption, None, Some, length};
ghost use Rattle.dl_base.specs.Completion.{IsLive, RolePoints};
ghost use Rattle.dl_base.specs.Ontology.{Terminology};
ghost use Rattle.dl_base.specs.Sets.{HasRole};
ghost use Rattle.dl_base.specs.declared.concept.Role.{Role as AnyRole};
ghost use Rattle.dl_base.specs.declared.row.NamedRow.{NamedRow};
ghost use Rattle.horn_closure.specs.Closure.{IsClosure, IsScratchOf};
ghost use Rattle.dl_base.specs.Derivation.{HeldBehind};
ghost use Rattle.role_graph.specs.FirstClashes.{IsFirstFrom};
ghost use Rattle.role_graph.specs.Graph.{HasNode, IsGraphOf};
ghost use Rattle.role_graph.specs.Reached.{ArePointedTo, IsReached};

use crate::clash::RoleClash;
use crate::closures::{BothWays, closed_behind_of, closures, place_of};
use crate::levels::first_clashes;
use dl_base::{Basic, Role, RoleSet};
use horn_closure::{Closed, Rules, Scratch, Steps};
use std::alloc::{AllocError, Global};
use std::marker::Model;
use std::sync::ledger::Ledger;

/// What is derived behind each role of an ontology, and the first clash from it. Contracts see it by the places of the role
/// names, and of the roles.
#[derive(Drop)]
pub struct RoleGraph {
    closed: Vec<BothWays>,
    clashes: Vec<Option<RoleClash>>,
}

impl Model for RoleGraph {
    ghost use Rattle.role_graph.specs.Graph.{Graph, IsPaired};

    ghost Value = { Graph };

    ghost view = { λ g. record { closed = g.closed.items; clashes = g.clashes.items } };

    ghost invariant = { λ g. IsPaired g.closed.items g.clashes.items };
}

impl RoleGraph {
    /// The graph of the ontology's roles. It takes two steps for each role name, also where it finds no memory at most so
    /// many. The first clashes are found level by level, those with the shortest lists first.
    pub fn new<L: Ledger>(
        alloc: Global,
        rules: &Rules,
        scratch: &mut Scratch,
        steps: &mut Steps<L>,
    ) -> Result<RoleGraph, AllocError>
        requires { IsScratchOf rules.now scratch.old }
        ensures graph { IfOk result (IsGraphOf rules.now) }
        ensures scratch { scratch.new ≡ scratch.old }
        ensures cost { OnOk result (steps.new ≡ steps.old + 2 * length rules.now.roles) }
        ensures most { steps.new ≤ steps.old + 2 * length rules.now.roles }
    {
        let closed = closures(alloc, rules, scratch, steps)?;
        let clashes = first_clashes(alloc, rules, closed.as_slice())?;
        Ok(RoleGraph { closed, clashes })
    }

    /// Whether the role is one of the ontology. It takes no memory, nor do the calls below.
    pub fn has_role(&self, r: Role) -> bool
        ensures { IsTrue result ↔ HasNode self.now r }
    {
        (r.name as usize) < self.closed.len()
    }

    /// The closure of what is held behind the role.
    pub fn closed_of(&self, r: Role) -> &Closed
        requires { HasNode self.now r }
        ensures { (o : Terminology) → IsGraphOf o self.now → IsClosure o.inclusions (HeldBehind r) result.now }
    {
        closed_behind_of(self.closed.as_slice(), r)
    }

    /// Whether the witness of s points to that of r.
    pub fn spawns(&self, s: Role, r: Role) -> bool
        ensures { (o : Terminology) → IsGraphOf o self.now → IsTrue result ↔ RolePoints o s r }
    {
        self.has_role(s) && self.closed_of(s).has(Basic::Exists(r)) && r != s.inverted()
    }

    /// The first clash among the lists of roles that begin with the role: the shortest list, then the least in role order, then
    /// the least inclusion; `None` exactly where there is none. A list may go back along a role.
    pub fn clash_from(&self, r: Role) -> Option<&RoleClash>
        ensures { (o : Terminology) → IsGraphOf o self.now → MatchOption result (IsFirstFrom o r None) (λ c. IsFirstFrom o r (Some c.now)) }
    {
        if !self.has_role(r) {
            return None;
        }
        self.clashes[place_of(r)].as_ref()
    }

    /// The roles to which a chain of points leads from one of these, and these themselves. From the roles to which
    /// individuals point these are the live roles.
    pub fn live(&self, from: &RoleSet) -> RoleSet
        ensures reached { (o : Terminology) → IsGraphOf o self.now → (r : AnyRole) → HasRole result r ↔ IsReached o (HasRole from.now) r }
        ensures live { (o : Terminology) (rows : List NamedRow) → IsGraphOf o self.now → ArePointedTo o rows (HasRole from.now)
            → (r : AnyRole) → HasRole result r ↔ IsLive o rows r }
        ensures inside { (o : Terminology) → IsGraphOf o self.now → ((r : AnyRole) → HasRole from.now r → HasNode self.now r)
            → (r : AnyRole) → HasRole result r → HasNode self.now r }
    {
        let mut live = *from;
        let mut done = RoleSet::new();
        while let Some(s) = self.waiting(&live, &done) {
            done.add(s);
            self.add_points(s, &mut live);
        }
        live
    }

    /// How many role names the ontology has.
    pub(crate) fn names(&self) -> u32
        ensures names { result ≡ length self.now.closed }
        ensures few { result ≤ 256 }
    {
        self.closed.len() as u32
    }
}
