//! Rows of roles among individuals.
ghost use Rattle.std.specs.Prelude.{◌≡◌, ◌↔◌, IsTrue, IfOk, Contains, map};
ghost use Rattle.std.specs.List.Sorted.{IsStrictlySortedBy};
ghost use Rattle.completion.specs.EdgeLists.{IsReadFrom, IsTarget, edge_cmp, is_above, target_passed, turned};
ghost use Rattle.completion.specs.Members.{IsFirstPast, is_number_passed};
ghost use Rattle.completion.specs.declared.edges.Edge.{Edge as AnyEdge};
ghost use Rattle.dl_base.specs.Tables.{IsLeastAbove};

use crate::search::first_near;
use assert_tables::in_order;
use dl_base::{Elem, Hint, Role};
use std::alloc::{AllocError, Global};
use std::marker::Model;

/// A row of a role name, from one individual to another. The order is by the role, then by where it leads from, then by
/// where it leads to.
#[derive(Clone, Copy, Debug, PartialEq, Eq, PartialOrd, Ord)]
pub(crate) struct Edge {
    pub(crate) role: u32,
    pub(crate) from: u32,
    pub(crate) to: u32,
}

/// Rows of roles among individuals, each once, and these read from where they lead. Contracts see the rising list of the
/// rows.
#[derive(Drop)]
pub(crate) struct Edges {
    forth: Vec<Edge>,
    back: Vec<Edge>,
}

impl Model for Edges {
    ghost use Rattle.std.specs.Prelude.{List};
    ghost use Rattle.completion.specs.declared.edges.Edge.{Edge as AnyEdge};
    ghost use Rattle.completion.specs.EdgeLists.{AreBothWays};

    ghost Value = { List AnyEdge };

    ghost view = { λ e. e.forth.items };

    ghost invariant = { λ e. AreBothWays e.forth.items e.back.items };
}

impl Edges {
    /// These rows, which may come in any order and repeatedly.
    pub(crate) fn new(alloc: Global, rows: Vec<Edge>) -> Result<Edges, AllocError>
        ensures { IfOk result (λ edges. (x : AnyEdge) → Contains edges x ↔ Contains rows.items x) }
    {
        let back = in_order(turned_all(alloc, rows.as_slice())?);
        let forth = in_order(rows);
        Ok(Edges { forth, back })
    }

    /// Whether the row is there.
    pub(crate) fn has(&self, edge: Edge) -> bool
        ensures { IsTrue result ↔ Contains self.now edge }
    {
        has_edge(self.forth.as_slice(), edge)
    }

    /// The rows, each from where its role leads, or where the inverse does.
    fn read(&self, inverse: bool) -> &[Edge]
        ensures { IsReadFrom inverse self.now result.now }
    {
        if inverse {
            self.back.as_slice()
        } else {
            self.forth.as_slice()
        }
    }

    /// The least individual above `after`, or of all, to which a row of the role leads from this one, with a look at the hint
    /// first.
    pub(crate) fn next_near(
        &self,
        role: Role,
        from: u32,
        after: Option<Elem>,
        hint: &mut Hint,
    ) -> Option<Elem>
        ensures { IsLeastAbove (IsTarget self.now role from) after result }
    {
        match first_target(self.read(role.inverse), role.name, from, after, hint) {
            Some(edge) => {
                if edge.role == role.name && edge.from == from {
                    Some(Elem::Named(edge.to))
                } else {
                    // The row is the first one behind those of the role from here, so the next search may begin at it.
                    hint.place = hint.place.saturating_sub(1);
                    None
                }
            }
            None => None,
        }
    }
}

/// The rows read from where they lead.
fn turned_all(alloc: Global, edges: &[Edge]) -> Result<Vec<Edge>, AllocError>
    ensures { IfOk result (λ list. list.items ≡ map turned edges.now) }
{
    edges.iter().map(|edge| turned(edge)).collect(alloc)
}

fn turned(edge: &Edge) -> Edge
    ensures { result ≡ turned edge.now }
{
    Edge {
        role: edge.role,
        from: edge.to,
        to: edge.from,
    }
}

fn has_edge(edges: &[Edge], edge: Edge) -> bool
    requires { IsStrictlySortedBy edge_cmp edges.now }
    ensures { IsTrue result ↔ Contains edges.now edge }
{
    edges.binary_search(&edge).is_ok()
}

/// The first row of this role name that leads from this individual to one above `after`, or what comes behind these.
fn first_target(
    edges: &[Edge],
    role: u32,
    from: u32,
    after: Option<Elem>,
    hint: &mut Hint,
) -> Option<Edge>
    requires { IsStrictlySortedBy edge_cmp edges.now }
    ensures { IsFirstPast edge_cmp (target_passed role from after) edges.now result }
{
    first_near(edges, hint, |e| is_target_passed(e, role, from, after))
}

fn is_target_passed(e: &Edge, role: u32, from: u32, after: Option<Elem>) -> bool
    ensures { result ≡ target_passed role from after e.now }
{
    e.role < role || e.role == role && (e.from < from || e.from == from && !is_above(e.to, after))
}

/// Whether the individual is above the element, or there is none that it has to be above.
fn is_above(individual: u32, after: Option<Elem>) -> bool
    ensures { result ≡ is_above after individual }
{
    match after {
        None => true,
        Some(Elem::Named(number)) => number < individual,
        Some(Elem::Shared(_)) => false,
    }
}
