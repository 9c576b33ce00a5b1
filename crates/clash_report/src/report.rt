//! The first clash among all individuals.
ghost use Rattle.std.specs.Prelude.{◌≡◌, ◌≢◌, ◌<◌, ◌+◌, ◌↔◌, Contains, IfOk, IsTrue, MatchOption, All, List, ℕ, Some, length, slice_get};
ghost use Rattle.std.specs.Bool.{OnFalse};
ghost use Rattle.completion.specs.Individuals.{IsKept};
ghost use Rattle.completion.specs.Named.{IsNamedCompletion};
ghost use Rattle.dl_base.specs.Rows.{Held, IsIndividual};
ghost use Rattle.dl_base.specs.declared.concept.Head.TheVariants as head;
ghost use Rattle.dl_base.specs.declared.concept.Inclusion.{Inclusion as AnyInclusion};
ghost use Rattle.dl_base.specs.declared.row.NamedRow.{NamedRow};
ghost use Rattle.role_graph.specs.Graph.{IsGraphOf};
ghost use Rattle.clash_report.specs.After.{ArePlaced, IsFirstAfter};
ghost use Rattle.clash_report.specs.Report.{AreNamedRoles, AreWithinNames, ComesFirst, IsInside, IsLeastFound, IsReported};

use crate::at::first_at;
use crate::found::Found;
use completion::Completed;
use dl_base::{Clash, Head, Items, NameBook, NamedRole, Ontology, Path, Role};
use role_graph::{RoleClash, RoleGraph};
use std::alloc::{AllocError, Global};

/// The first clash of the base of which the tables are completed: the individuals in the order of their names, and at each the
/// shortest list of roles, then the least in role order, then the least inclusion. None exactly where there is no clash.
///
/// A base without a clash costs one look at each individual and at each of its roles; and none where no inclusion is to nothing.
pub fn first_clash(
    alloc: Global,
    t: &Completed,
    g: &RoleGraph,
    o: &Ontology,
    individuals: &NameBook,
) -> Result<Option<Clash>, AllocError>
    requires graph { IsGraphOf o.now g.now }
    requires numbered { AreWithinNames t.now individuals.now }
    ensures { (rows : List NamedRow) → IsNamedCompletion o.now individuals.now rows t.now → IfOk result (IsReported o.now rows) }
{
    if !has_inclusion_to_nothing(o) {
        return Ok(None);
    }
    match least_found(alloc, t, g, o, individuals)? {
        None => Ok(None),
        Some(found) => {
            let name = individuals.name(found.individual).copy(alloc)?;
            let path = named_path(alloc, o, found.clash.path.items())?;
            Ok(Some(Clash {
                inclusion: found.clash.inclusion,
                name,
                path,
            }))
        }
    }
}

/// Whether an inclusion of the ontology is to nothing.
fn has_inclusion_to_nothing(o: &Ontology) -> bool
    ensures { OnFalse result ((i : AnyInclusion) → Contains o.now.inclusions i → i.head ≢ head.Nothing) }
{
    o.inclusions().iter().any(|i| i.head == Head::Nothing)
}

/// The first clash, by the number of its individual.
fn least_found(
    alloc: Global,
    t: &Completed,
    g: &RoleGraph,
    o: &Ontology,
    individuals: &NameBook,
) -> Result<Option<Found>, AllocError>
    requires graph { IsGraphOf o.now g.now }
    requires numbered { AreWithinNames t.now individuals.now }
    ensures inside { IfOk result (IsInside o.now individuals.now) }
    ensures least { (rows : List NamedRow) → IsNamedCompletion o.now individuals.now rows t.now
        → IfOk result (IsLeastFound o.now rows individuals.now (length individuals.now)) }
{
    let mut found = None;
    let mut last = None;
    while let Some(n) = t.next_individual(last) {
        found = with_individual(alloc, t, g, o, individuals, found, n)?;
        last = Some(n);
    }
    Ok(found)
}

/// What was found, or the first clash at the individual, where it has one and comes before that of what was found.
fn with_individual(
    alloc: Global,
    t: &Completed,
    g: &RoleGraph,
    o: &Ontology,
    individuals: &NameBook,
    found: Option<Found>,
    n: u32,
) -> Result<Option<Found>, AllocError>
    requires graph { IsGraphOf o.now g.now }
    requires numbered { n < length individuals.now }
    requires found { IsInside o.now individuals.now found }
    ensures inside { IfOk result (IsInside o.now individuals.now) }
    ensures least { (rows : List NamedRow) → IsNamedCompletion o.now individuals.now rows t.now → IsKept t.now.individuals n
        → IsLeastFound o.now rows individuals.now n found → IfOk result (IsLeastFound o.now rows individuals.now (n + 1)) }
{
    if !comes_first(individuals, n, &found) {
        return Ok(found);
    }
    match clash_at(alloc, t, g, o, n)? {
        Some(clash) => Ok(Some(Found {
            individual: n,
            clash,
        })),
        None => Ok(found),
    }
}

/// The first clash at the individual of this number.
fn clash_at(
    alloc: Global,
    t: &Completed,
    g: &RoleGraph,
    o: &Ontology,
    n: u32,
) -> Result<Option<RoleClash>, AllocError>
    requires { IsGraphOf o.now g.now }
    ensures placed { IfOk result (ArePlaced o.now) }
    ensures first { (names : List (List ℕ)) (rows : List NamedRow) (a : List ℕ) → IsNamedCompletion o.now names rows t.now → slice_get names n ≡ Some a
        → IsIndividual rows a → IfOk result (IsFirstAfter o.now (Held o.now rows a)) }
{
    match t.closed_of(n) {
        Some(closed) => first_at(alloc, o, g, closed),
        None => Ok(None),
    }
}

/// Whether nothing was found yet, or the individual comes before that of what was found.
fn comes_first(individuals: &NameBook, n: u32, found: &Option<Found>) -> bool
    requires inside { n < length individuals.now }
    requires found { MatchOption found.now (Unit {0}) (λ f. f.individual < length individuals.now) }
    ensures { IsTrue result ↔ ComesFirst individuals.now n found.now }
{
    match found {
        None => true,
        Some(known) => individuals.name(n) < individuals.name(known.individual),
    }
}

/// The roles by their names.
fn named_path(alloc: Global, o: &Ontology, path: &[Role]) -> Result<Path, AllocError>
    requires { All (λ r. r.name < length o.now.roles) path.now }
    ensures { IfOk result (AreNamedRoles o.now path.now) }
{
    let mut named = Items::new(alloc);
    for r in path {
        let name = o.roles().name(r.name).copy(alloc)?;
        named.push(NamedRole {
            name,
            inverse: r.inverse,
        })?;
    }
    Ok(named)
}
