//! From where a term gets its elements.
ghost use Rattle.std.specs.Prelude.{◌≡◌, None, IfSome, MatchOption, Contains};
ghost use Rattle.std.specs.Bool.{OnTrue};
ghost use Rattle.query_shape.specs.Shape.{IsTermOf};
ghost use Rattle.query_shape.specs.declared.layout.ShapeAtom.{ShapeAtom as AnyAtom};
ghost use Rattle.join_ops.specs.declared.condition.Condition.TheVariants.{Atom as OfAtom};
ghost use Rattle.join_ops.specs.declared.source.Source.TheVariants as sources;
ghost use Rattle.join_ops.specs.Levels.{HoldsByOffer, IsAlong, IsEdgeOf, IsSource, IsTwinAt, IsTwinBy, Serves, fixed_of};

use crate::condition::{Condition, Twins};
use dl_base::Role;
use query_shape::ShapeAtom;

/// From where a term gets its elements.
#[derive(Clone, Copy, Debug)]
pub(crate) enum Source {
    /// The individual of this number.
    Named(u32),
    /// The members of this concept.
    Concept(u32),
    /// The elements from which the role leads.
    Outgoing(Role),
    /// Where the edge leads.
    Edge(Edge),
    /// Where the edge leads; and where the twins share a witness, the parent's element alone.
    Twin(Edge, Twins),
}

/// The edges of a role from the element of a level.
#[derive(Clone, Copy, Debug, PartialEq, Eq)]
pub(crate) struct Edge {
    pub(crate) role: Role,
    pub(crate) from: u32,
}

impl Source {
    /// Whether the condition holds with whatever is offered for the term of this level.
    pub(crate) fn gives(self, condition: &Condition, level: usize) -> bool
        ensures { OnTrue result (HoldsByOffer self level condition.now) }
    {
        match *condition {
            Condition::Atom(atom) => self.gives_atom(atom, level),
            Condition::Twins(twins) => twins.twin as usize == level && self.is_twin(twins),
        }
    }

    /// Whether the atom holds with whatever is offered for the term of this level.
    fn gives_atom(self, atom: ShapeAtom, level: usize) -> bool
        ensures { OnTrue result (HoldsByOffer self level (OfAtom atom)) }
    {
        match atom {
            ShapeAtom::Concept { concept, term } => {
                term as usize == level && self.is_concept(concept)
            }
            ShapeAtom::Role { role, from, to } => {
                to as usize == level && self.is_along(Edge { role, from })
                    || from as usize == level
                        && self.is_along(Edge {
                            role: role.inverted(),
                            from: to,
                        })
            }
        }
    }

    /// Whether it offers the members of that concept.
    fn is_concept(self, concept: u32) -> bool
        ensures { OnTrue result (self ≡ sources.Concept concept) }
    {
        match self {
            Source::Concept(known) => known == concept,
            _ => false,
        }
    }

    /// Whether it offers nothing but where that edge leads.
    fn is_along(self, edge: Edge) -> bool
        ensures { OnTrue result (IsAlong edge self) }
    {
        match self {
            Source::Edge(known) => known == edge,
            Source::Twin(known, _) => known == edge,
            _ => false,
        }
    }

    /// Whether these are its twins.
    fn is_twin(self, twins: Twins) -> bool
        ensures { OnTrue result (IsTwinBy twins self) }
    {
        match self {
            Source::Twin(_, known) => known == twins,
            _ => false,
        }
    }
}

/// From where the term of this level gets its elements: its individual, where it is fixed, else the edge from an earlier term,
/// if there is one.
pub(crate) fn source_of(conditions: &[Condition], level: usize, fixed: Option<u32>) -> Source
    requires { (a : AnyAtom) × Contains conditions.now (OfAtom a) × IsTermOf level a }
    ensures fixed { fixed_of result ≡ fixed }
    ensures source { IsSource conditions.now level result }
{
    if let Some(individual) = fixed {
        return Source::Named(individual);
    }
    match edge_source(conditions, level) {
        Some(edge) => edge_or_twin(conditions, level, edge),
        None => any_source(conditions, level),
    }
}

/// The edge, with the first twins whose twin has this level and whose other terms come before.
fn edge_or_twin(conditions: &[Condition], level: usize, edge: Edge) -> Source
    requires { IsEdgeOf conditions.now level edge }
    ensures fixed { fixed_of result ≡ None }
    ensures source { IsSource conditions.now level result }
{
    for condition in conditions {
        if let Condition::Twins(twins) = *condition {
            if is_twin_at(twins, level) {
                return Source::Twin(edge, twins);
            }
        }
    }
    Source::Edge(edge)
}

/// Whether the twin has this level, and parent and child come before.
fn is_twin_at(twins: Twins, level: usize) -> bool
    ensures { OnTrue result (IsTwinAt level twins) }
{
    twins.twin as usize == level
        && (twins.parent as usize) < level
        && (twins.child as usize) < level
}

/// The edge of the first role atom that leads to the term from an earlier one.
fn edge_source(conditions: &[Condition], level: usize) -> Option<Edge>
    ensures { IfSome result (IsEdgeOf conditions.now level) }
{
    for condition in conditions {
        if let Condition::Atom(atom) = *condition {
            if let Some(edge) = edge_of(atom, level) {
                return Some(edge);
            }
        }
    }
    None
}

/// The edge of a role atom that leads to the term from an earlier one.
fn edge_of(atom: ShapeAtom, level: usize) -> Option<Edge>
    ensures { IfSome result (λ edge. Serves level (sources.Edge edge) atom) }
{
    let ShapeAtom::Role { role, from, to } = atom else {
        return None;
    };
    if to as usize == level && (from as usize) < level {
        return Some(Edge { role, from });
    }
    if from as usize == level && (to as usize) < level {
        return Some(Edge {
            role: role.inverted(),
            from: to,
        });
    }
    None
}

/// What the first atom with this term offers.
fn any_source(conditions: &[Condition], level: usize) -> Source
    requires { (a : AnyAtom) × Contains conditions.now (OfAtom a) × IsTermOf level a }
    ensures { (a : AnyAtom) × Contains conditions.now (OfAtom a) × Serves level result a }
{
    for condition in conditions {
        if let Condition::Atom(atom) = *condition {
            if let Some(source) = offer(atom, level) {
                return source;
            }
        }
    }
    unreachable!()
}

/// What the atom offers for the term, if it has it.
fn offer(atom: ShapeAtom, level: usize) -> Option<Source>
    ensures { MatchOption result (IsTermOf level atom → ⊥) (λ s. Serves level s atom) }
{
    match atom {
        ShapeAtom::Concept { concept, term } if term as usize == level => {
            Some(Source::Concept(concept))
        }
        ShapeAtom::Role { role, from, .. } if from as usize == level => {
            Some(Source::Outgoing(role))
        }
        ShapeAtom::Role { role, to, .. } if to as usize == level => {
            Some(Source::Outgoing(role.inverted()))
        }
        _ => None,
    }
}
