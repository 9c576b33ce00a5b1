//! The rows of completed tables.
ghost use Rattle.std.specs.Prelude.{◌≡◌, ◌↔◌, IsTrue, false, [], Contains, MatchOption};
ghost use Rattle.completion.specs.TableRows.{AreListedSources, IsRowFrom, PointsHere, lists_at, elements_at, no_lists, one_way, table_of, witness_at};
ghost use Rattle.dl_base.specs.Tables.{HasEdge, IsAbove, IsLeastAbove};
ghost use Rattle.dl_base.specs.declared.element.Elem.{Elem as AnyElem};

use crate::edges::{Edge, Edges};
use crate::members::Members;
use dl_base::{Elem, Hint, Role, Witness};
use std::marker::Model;

/// The elements from which a role leads, those that point to its witness, and the generation of the witness.
#[derive(Drop)]
pub(crate) struct RoleLists {
    pub(crate) sources: Members,
    pub(crate) pointing: Members,
    pub(crate) generation: u64,
}

/// The lists of a role name and of its inverse.
#[derive(Drop)]
pub(crate) struct BothWays {
    pub(crate) direct: RoleLists,
    pub(crate) inverse: RoleLists,
}

/// Rows of completed tables. For each concept the elements at which it is derived, and for each role the elements from
/// which it leads and those that point to its witness; and the rows among individuals. All stand in order, so that
/// whatever is asked is searched for.
#[derive(Drop)]
pub(crate) struct TableRows {
    concepts: Vec<Members>,
    roles: Vec<BothWays>,
    edges: Edges,
}

impl Model for TableRows {
    ghost use Rattle.completion.specs.TableRows.{AreListedSources, KeptRows};

    ghost Value = { KeptRows };

    ghost view = { λ t. record { concepts = t.concepts.items; roles = t.roles.items; edges = t.edges } };

    ghost invariant = { λ t. AreListedSources (record { concepts = t.concepts.items; roles = t.roles.items; edges = t.edges }) };
}

impl BothWays {
    /// The lists of the direct role or of its inverse.
    fn of(&self, inverse: bool) -> &RoleLists
        ensures { result.now ≡ one_way inverse self.now }
    {
        if inverse { &self.inverse } else { &self.direct }
    }
}

impl TableRows {
    /// These lists and rows.
    pub(crate) fn new(concepts: Vec<Members>, roles: Vec<BothWays>, edges: Edges) -> TableRows
        requires { AreListedSources (record { concepts = concepts.items; roles = roles.items; edges = edges }) }
        ensures { result ≡ record { concepts = concepts.items; roles = roles.items; edges = edges } }
    {
        TableRows {
            concepts,
            roles,
            edges,
        }
    }

    /// The elements at which the concept at this place is derived; none past the last.
    pub(crate) fn members(&self, concept: u32) -> Option<&Members>
        ensures { MatchOption result (elements_at self.now.concepts concept ≡ []) (λ m. m.now ≡ elements_at self.now.concepts concept) }
    {
        self.concepts.get(concept as usize)
    }

    /// The elements from which the role leads; none past the last name.
    pub(crate) fn sources(&self, role: Role) -> Option<&Members>
        ensures { MatchOption result
            ((e : AnyElem) → HasEdge (table_of self.now) role e → ⊥)
            (λ m. (e : AnyElem) → HasEdge (table_of self.now) role e ↔ Contains m.now e) }
    {
        let _ = &self.roles;
        match self.lists(role) {
            Some(lists) => Some(&lists.sources),
            None => None,
        }
    }

    /// The lists of the role; none past the last name.
    fn lists(&self, role: Role) -> Option<&RoleLists>
        ensures { MatchOption result (lists_at self.now.roles role ≡ no_lists) (λ x. x.now ≡ lists_at self.now.roles role) }
    {
        match self.roles.get(role.name as usize) {
            Some(both) => Some(both.of(role.inverse)),
            None => None,
        }
    }

    /// Whether the first element points to the witness of the role, and the second is this witness.
    pub(crate) fn points(&self, role: Role, from: Elem, to: Elem) -> bool
        ensures { IsTrue result ↔ PointsHere self.now role from to }
    {
        match self.lists(role) {
            Some(lists) => to == witness_at(role, lists.generation) && lists.pointing.has(from),
            None => false,
        }
    }

    /// Whether the row is among individuals.
    pub(crate) fn has_edge(&self, role: u32, from: Elem, to: Elem) -> bool
        ensures { IsTrue result ↔ IsRowFrom self.now (record { name = role; inverse = false }) from to }
    {
        match (from, to) {
            (Elem::Named(from), Elem::Named(to)) => self.edges.has(Edge { role, from, to }),
            _ => false,
        }
    }

    /// The least individual above `after`, or of all, to which a row among individuals leads from here by the role.
    pub(crate) fn next_target(
        &self,
        role: Role,
        from: Elem,
        after: Option<Elem>,
        hint: &mut Hint,
    ) -> Option<Elem>
        ensures { IsLeastAbove (IsRowFrom self.now role from) after result }
    {
        match from {
            Elem::Named(from) => self.edges.next_near(role, from, after, hint),
            Elem::Shared(_) => None,
        }
    }

    /// The witness of the role, where the element points to it and it is above `after`.
    pub(crate) fn next_witness(&self, role: Role, from: Elem, after: Option<Elem>) -> Option<Elem>
        ensures { IsLeastAbove (PointsHere self.now role from) after result }
    {
        match self.lists(role) {
            Some(lists) => {
                let witness = witness_at(role, lists.generation);
                if is_past(witness, after) && lists.pointing.has(from) {
                    Some(witness)
                } else {
                    None
                }
            }
            None => None,
        }
    }

    /// The least element above `after`, or of all, that points to the witness of the role, where this is the witness.
    pub(crate) fn next_pointing(
        &self,
        role: Role,
        to: Elem,
        after: Option<Elem>,
        hint: &mut Hint,
    ) -> Option<Elem>
        ensures { IsLeastAbove (λ (e : AnyElem). PointsHere self.now role e to) after result }
    {
        match self.lists(role) {
            Some(lists) => {
                if to == witness_at(role, lists.generation) {
                    lists.pointing.next_near(after, hint)
                } else {
                    None
                }
            }
            None => None,
        }
    }
}

/// The witness of the role in this generation.
fn witness_at(role: Role, generation: u64) -> Elem
    ensures { result ≡ witness_at role generation }
{
    Elem::Shared(Witness { role, generation })
}

/// Whether the element is above `after`, or there is none that it has to be above.
fn is_past(e: Elem, after: Option<Elem>) -> bool
    ensures { IsTrue result ↔ IsAbove after e }
{
    match after {
        Some(after) => after < e,
        None => true,
    }
}
