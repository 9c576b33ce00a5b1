//! The first clash at an individual.
ghost use Rattle.std.specs.Prelude.{◌≡◌, ◌<◌, ◌*◌, IfOk, List, ℕ, length};
ghost use Rattle.std.specs.Option.{option_copied};
ghost use Rattle.dl_base.specs.Rows.{Held};
ghost use Rattle.dl_base.specs.Sets.{HasBasic};
ghost use Rattle.dl_base.specs.declared.row.NamedRow.{NamedRow};
ghost use Rattle.horn_closure.specs.Closure.{IsClosure};
ghost use Rattle.role_graph.specs.Graph.{IsGraphOf};
ghost use Rattle.clash_report.specs.After.{ArePlaced, IsFirstAfter, IsLeastBehind};

use crate::order::lesser;
use dl_base::{Basic, Items, Ontology};
use horn_closure::Closed;
use role_graph::{RoleClash, RoleGraph, role_at};
use std::alloc::{AllocError, Global};

/// The first clash at an individual, by the closure of what it holds.
pub(crate) fn first_at(
    alloc: Global,
    o: &Ontology,
    g: &RoleGraph,
    closed: &Closed,
) -> Result<Option<RoleClash>, AllocError>
    requires { IsGraphOf o.now g.now }
    ensures placed { IfOk result (ArePlaced o.now) }
    ensures first { (rows : List NamedRow) (a : List ℕ) → IsClosure o.now.inclusions (Held o.now rows a) closed.now → IfOk result (IsFirstAfter o.now (Held o.now rows a)) }
{
    if let Some(inclusion) = closed.violated() {
        let path = Items::new(alloc);
        return Ok(Some(RoleClash { inclusion, path }));
    }
    match least_behind(o, g, closed) {
        None => Ok(None),
        Some(clash) => Ok(Some(copy(alloc, clash)?)),
    }
}

/// The first of the clashes from the roles of which a successor was derived, whether or not a row gives one.
fn least_behind<'a>(o: &Ontology, g: &'a RoleGraph, closed: &Closed) -> Option<&'a RoleClash>
    requires { IsGraphOf o.now g.now }
    ensures { IsLeastBehind o.now (HasBasic closed.now.derived) (2 * length o.now.roles) (option_copied result) }
{
    let mut least = None;
    for place in 0..2 * o.roles().len() {
        let r = role_at(place);
        if closed.has(Basic::Exists(r)) {
            least = lesser(o, least, g.clash_from(r));
        }
    }
    least
}

fn copy(alloc: Global, clash: &RoleClash) -> Result<RoleClash, AllocError>
    ensures { IfOk result (λ c. c ≡ clash.now) }
{
    let path = Items::from_slice(alloc, clash.path.items())?;
    Ok(RoleClash {
        inclusion: clash.inclusion,
        path,
    })
}
