//! The levels of a search: each offers the elements of one term.
ghost use Rattle.std.specs.Prelude.{◌≡◌, ◌↔◌, ◌<◌, ◌++◌, [], ◌∷◌, ℕ, Some, suc, length, map, slice_get, Contains, IfOk, IsTrue};
ghost use Rattle.std.specs.Bool.{OnTrue, OnFalse};
ghost use Rattle.dl_base.specs.Tables.{IsLeastAbove};
ghost use Rattle.dl_base.specs.declared.element.Elem.{Elem as AnyElem};
ghost use Rattle.query_shape.specs.Shape.{IsTermOf};
ghost use Rattle.query_shape.specs.declared.layout.ShapeAtom.{ShapeAtom as AnyAtom};
ghost use Rattle.join_ops.specs.declared.condition.Condition.TheVariants.{Atom as OfAtom};
ghost use Rattle.join_ops.specs.Conditions.{IsLevelOf, IsUnder};
ghost use Rattle.join_ops.specs.Levels.{AreChecks, AreLevels, AreUnder, Fits, HoldsByOffer, IsFromFront, IsWellPlaced, IsTwin, EdgeLeadsTo, MeetsAll, Offers, fixed_on};

use crate::condition::{Condition, Twins, has_edge};
use crate::source::{Edge, Source, source_of};
use dl_base::{Elem, Hint, Tables};
use std::alloc::{AllocError, Global};
use std::cmp::Ordering;

/// From where the term of a level gets its elements, and the conditions, by their places, that are tested for each: those whose
/// last term it is and that don't hold already by what is offered.
#[derive(Debug, Drop)]
pub(crate) struct Level {
    pub(crate) source: Source,
    pub(crate) checks: Vec<usize>,
}

/// The levels of a search for elements that meet these conditions, where these terms are fixed.
pub(crate) fn levels(
    alloc: Global,
    conditions: &[Condition],
    fixed: &[Option<u32>],
) -> Result<Vec<Level>, AllocError>
    requires { (k : ℕ) → k < length fixed.now → (a : AnyAtom) × Contains conditions.now (OfAtom a) × IsTermOf k a }
    ensures fixed { IfOk result (λ levels. map fixed_on levels.items ≡ fixed.now) }
    ensures each { IfOk result (λ levels. AreLevels conditions.now levels.items) }
{
    let mut levels = Vec::with_capacity(alloc, fixed.len())?;
    for (level, individual) in fixed.iter().enumerate() {
        let source = source_of(conditions, level, *individual);
        let checks = checks(alloc, conditions, source, level)?;
        levels.push(Level { source, checks })?;
    }
    Ok(levels)
}

/// The places of the conditions that are tested on this level.
fn checks(
    alloc: Global,
    conditions: &[Condition],
    source: Source,
    level: usize,
) -> Result<Vec<usize>, AllocError>
    ensures { IfOk result (λ checks. AreChecks conditions.now source level checks.items) }
{
    let mut checks = Vec::new(alloc);
    for (place, condition) in conditions.iter().enumerate() {
        if is_checked(condition, source, level) {
            checks.push(place)?;
        }
    }
    Ok(checks)
}

/// Whether the condition is tested on this level: it speaks of it and of none above, and what is offered doesn't give it.
fn is_checked(condition: &Condition, source: Source, level: usize) -> bool
    ensures under { OnTrue result (IsUnder (suc level) condition.now) }
    ensures given { OnFalse result (IsLevelOf level condition.now → IsUnder (suc level) condition.now → HoldsByOffer source level condition.now) }
{
    condition.speaks_of(level) && condition.is_up_to(level) && !source.gives(condition, level)
}

/// The least element above `after`, or of all, that the level offers and that meets all that is tested with it. `hint` is
/// where the tables look first.
pub(crate) fn candidate<T: Tables>(
    t: &T,
    conditions: &[Condition],
    level: &Level,
    front: &[Elem],
    after: Option<Elem>,
    hint: &mut Hint,
) -> Option<Elem>
    requires { IsWellPlaced conditions.now (length front.now) level.now }
    ensures { IsLeastAbove (Fits (T.rows t.now) conditions.now level.now front.now) after result }
{
    let mut above = after;
    'offers: loop {
        let Some(e) = offered(t, level.source, front, above, hint) else {
            return None;
        };
        if passes(t, conditions, level.checks.as_slice(), front, e) {
            return Some(e);
        }
        above = Some(e);
    }
}

/// The least element above `after`, or of all, that the source offers.
fn offered<T: Tables>(
    t: &T,
    source: Source,
    front: &[Elem],
    after: Option<Elem>,
    hint: &mut Hint,
) -> Option<Elem>
    requires { IsFromFront (length front.now) source }
    ensures { IsLeastAbove (Offers (T.rows t.now) source front.now) after result }
{
    match source {
        Source::Named(individual) => only(Elem::Named(individual), after),
        Source::Concept(concept) => t.next_concept_near(concept, after, hint),
        Source::Outgoing(role) => t.next_source_near(role, after, hint),
        Source::Edge(edge) => next_along(t, edge, front, after, hint),
        Source::Twin(edge, twins) => {
            if front[twins.child as usize].is_witness_of(twins.role) {
                twin_along(t, edge, twins, front, after)
            } else {
                next_along(t, edge, front, after, hint)
            }
        }
    }
}

/// The least element above `after`, or of all, to which the edge leads.
fn next_along<T: Tables>(
    t: &T,
    edge: Edge,
    front: &[Elem],
    after: Option<Elem>,
    hint: &mut Hint,
) -> Option<Elem>
    requires { edge.from < length front.now }
    ensures { IsLeastAbove (EdgeLeadsTo (T.rows t.now) edge front.now) after result }
{
    t.next_edge_near(edge.role, front[edge.from as usize], after, hint)
}

/// The parent's element, where the edge leads to it and it is above `after`.
fn twin_along<T: Tables>(
    t: &T,
    edge: Edge,
    twins: Twins,
    front: &[Elem],
    after: Option<Elem>,
) -> Option<Elem>
    requires from { edge.from < length front.now }
    requires parent { twins.parent < length front.now }
    ensures { IsLeastAbove (λ (e : AnyElem). EdgeLeadsTo (T.rows t.now) edge front.now e × (slice_get front.now twins.parent ≡ Some e)) after result }
{
    let parent = front[twins.parent as usize];
    if has_edge(t, edge.role, front[edge.from as usize], parent) {
        only(parent, after)
    } else {
        None
    }
}

/// The element, where it is above `after`.
fn only(e: Elem, after: Option<Elem>) -> Option<Elem>
    ensures { IsLeastAbove (λ (f : AnyElem). f ≡ e) after result }
{
    match after {
        Some(below) if below.compared(&e) != Ordering::Less => None,
        _ => Some(e),
    }
}

/// Whether the element, behind those in front, meets what is tested with it.
fn passes<T: Tables>(
    t: &T,
    conditions: &[Condition],
    checks: &[usize],
    front: &[Elem],
    e: Elem,
) -> bool
    requires { AreUnder conditions.now (suc (length front.now)) checks.now }
    ensures { IsTrue result ↔ MeetsAll (T.rows t.now) conditions.now checks.now (front.now ++ e ∷ []) }
{
    for place in checks {
        if !conditions[*place].is_met(t, front, e) {
            return false;
        }
    }
    true
}
