//! What the elements of a search have to meet.
ghost use Rattle.std.specs.Prelude.{◌≡◌, ◌↔◌, ◌<◌, ◌++◌, [], ◌∷◌, suc, length, slice_get, Contains, IsTrue, Some};
ghost use Rattle.dl_base.specs.Tables.{IsWitnessOf, edge_row};
ghost use Rattle.query_shape.specs.Shape.{HoldsAt, IsBelow, IsTermOf};
ghost use Rattle.join_ops.specs.Conditions.{AreTwins, IsLevelOf, IsUnder, Meets};

use dl_base::{Elem, Role, Tables};
use query_shape::ShapeAtom;

/// What the elements of the levels have to meet.
#[derive(Clone, Copy, Debug)]
pub(crate) enum Condition {
    /// The atom, by the levels of its terms, is a row.
    Atom(ShapeAtom),
    /// Where the element of the child is a witness of the role, parent and twin have one element.
    Twins(Twins),
}

/// The levels of two terms that have one element as soon as the role leads from the first to its witness.
#[derive(Clone, Copy, Debug, PartialEq, Eq)]
pub(crate) struct Twins {
    pub(crate) role: Role,
    pub(crate) parent: u32,
    pub(crate) child: u32,
    pub(crate) twin: u32,
}

impl Condition {
    /// Whether the condition speaks of this level.
    pub(crate) fn speaks_of(&self, level: usize) -> bool
        ensures { IsTrue result ↔ IsLevelOf level self.now }
    {
        match *self {
            Condition::Atom(atom) => has_term(atom, level),
            Condition::Twins(twins) => {
                twins.parent as usize == level
                    || twins.child as usize == level
                    || twins.twin as usize == level
            }
        }
    }

    /// Whether it speaks of no level above this one.
    pub(crate) fn is_up_to(&self, level: usize) -> bool
        ensures { IsTrue result ↔ IsUnder (suc level) self.now }
    {
        match *self {
            Condition::Atom(atom) => has_none_above(atom, level),
            Condition::Twins(twins) => {
                twins.parent as usize <= level
                    && twins.child as usize <= level
                    && twins.twin as usize <= level
            }
        }
    }

    /// Whether the elements in front and the next one meet it.
    pub(crate) fn is_met<T: Tables>(&self, t: &T, front: &[Elem], e: Elem) -> bool
        requires { IsUnder (suc (length front.now)) self.now }
        ensures { IsTrue result ↔ Meets (T.rows t.now) (front.now ++ e ∷ []) self.now }
    {
        match *self {
            Condition::Atom(atom) => holds(t, atom, front, e),
            Condition::Twins(twins) => are_twins(twins, front, e),
        }
    }
}

fn has_term(atom: ShapeAtom, number: usize) -> bool
    ensures { IsTrue result ↔ IsTermOf number atom }
{
    match atom {
        ShapeAtom::Concept { term, .. } => term as usize == number,
        ShapeAtom::Role { from, to, .. } => from as usize == number || to as usize == number,
    }
}

fn has_none_above(atom: ShapeAtom, number: usize) -> bool
    ensures { IsTrue result ↔ IsBelow (suc number) atom }
{
    match atom {
        ShapeAtom::Concept { term, .. } => term as usize <= number,
        ShapeAtom::Role { from, to, .. } => from as usize <= number && to as usize <= number,
    }
}

fn holds<T: Tables>(t: &T, atom: ShapeAtom, front: &[Elem], e: Elem) -> bool
    requires { IsBelow (suc (length front.now)) atom }
    ensures { IsTrue result ↔ HoldsAt (T.rows t.now) (front.now ++ e ∷ []) atom }
{
    match atom {
        ShapeAtom::Concept { concept, term } => t.has_concept(concept, element(front, e, term)),
        ShapeAtom::Role { role, from, to } => {
            has_edge(t, role, element(front, e, from), element(front, e, to))
        }
    }
}

fn are_twins(twins: Twins, front: &[Elem], e: Elem) -> bool
    requires parent { twins.parent < suc (length front.now) }
    requires child { twins.child < suc (length front.now) }
    requires twin { twins.twin < suc (length front.now) }
    ensures { IsTrue result ↔ AreTwins twins (front.now ++ e ∷ []) }
{
    !element(front, e, twins.child).is_witness_of(twins.role)
        || is_same(
            element(front, e, twins.twin),
            element(front, e, twins.parent),
        )
}

fn is_same(e: Elem, f: Elem) -> bool
    ensures { IsTrue result ↔ (e ≡ f) }
{
    e == f
}

/// The element of a level: of one of those in front, or the next one.
fn element(front: &[Elem], e: Elem, level: u32) -> Elem
    requires { level < suc (length front.now) }
    ensures { slice_get (front.now ++ e ∷ []) level ≡ Some result }
{
    let level = level as usize;
    if level == front.len() {
        e
    } else {
        front[level]
    }
}

/// Whether the role leads from the one element to the other.
pub(crate) fn has_edge<T: Tables>(t: &T, role: Role, from: Elem, to: Elem) -> bool
    ensures { IsTrue result ↔ Contains (T.rows t.now) (edge_row role from to) }
{
    if role.inverse {
        t.has_role(role.name, to, from)
    } else {
        t.has_role(role.name, from, to)
    }
}
