//! What is derived at each individual.
ghost use Rattle.std.specs.Prelude.{◌≡◌, ◌≤◌, ◌+◌, ◌↔◌, ◌⊎◌, All, IfOk, OnOk, length};
ghost use Rattle.assert_tables.specs.Rows.{individuals_of};
ghost use Rattle.completion.specs.Individuals.{AreAtIndividuals, IsAt, found_at, IsKept, IsLeastNumber};
ghost use Rattle.completion.specs.Numbered.{IsPointedTo, IsRowOf, PointsTo};
ghost use Rattle.dl_base.specs.Sets.{HasRole};
ghost use Rattle.dl_base.specs.declared.concept.Role.{Role as AnyRole};
ghost use Rattle.horn_closure.specs.Closure.{IsScratchOf};

use crate::held::held_by;
use crate::points::add_needed;
use assert_tables::Assertions;
use dl_base::RoleSet;
use horn_closure::{Closed, Rules, Scratch, Steps};
use std::alloc::{AllocError, Global};
use std::collections::BTreeMap;
use std::ops::Bound;
use std::sync::ledger::Ledger;

/// What is derived at an individual, and the roles to whose witnesses it points.
#[derive(Drop)]
pub(crate) struct AtIndividual {
    pub(crate) closed: Closed,
    pub(crate) points: RoleSet,
}

/// What is derived at each individual that a row names. The roles to whose witnesses one of them points are added to
/// `pointed`. It costs a step for each individual.
pub(crate) fn at_individuals<L: Ledger>(
    alloc: Global,
    rules: &Rules,
    rows: &Assertions,
    pointed: &mut RoleSet,
    scratch: &mut Scratch,
    steps: &mut Steps<L>,
) -> Result<BTreeMap<u32, AtIndividual>, AllocError>
    requires scratch { IsScratchOf rules.now scratch.old }
    requires within { All (IsRowOf rules.now) rows.now }
    ensures each { IfOk result (λ map. AreAtIndividuals rules.now rows.now map.entries) }
    ensures pointed { OnOk result ((r : AnyRole) → HasRole pointed.new r ↔ (IsPointedTo rules.now rows.now r ⊎ HasRole pointed.old r)) }
    ensures scratch { scratch.new ≡ scratch.old }
    ensures most { steps.new ≤ steps.old + length (individuals_of rows.now) }
    ensures least { steps.old ≤ steps.new }
{
    let mut map = BTreeMap::new(alloc);
    let mut after = None;
    while let Some(individual) = rows.next_individual(after) {
        let at = at_individual(rules, rows, individual, pointed, scratch, steps);
        map.insert(individual, at)?;
        after = Some(individual);
    }
    Ok(map)
}

/// What is derived at the individual of this number. The roles to whose witnesses it points are added to `pointed` too.
fn at_individual<L: Ledger>(
    rules: &Rules,
    rows: &Assertions,
    individual: u32,
    pointed: &mut RoleSet,
    scratch: &mut Scratch,
    steps: &mut Steps<L>,
) -> AtIndividual
    requires scratch { IsScratchOf rules.now scratch.old }
    requires within { All (IsRowOf rules.now) rows.now }
    ensures at { IsAt rules.now rows.now individual result }
    ensures pointed { (r : AnyRole) → HasRole pointed.new r ↔ (PointsTo rules.now rows.now individual r ⊎ HasRole pointed.old r) }
    ensures scratch { scratch.new ≡ scratch.old }
    ensures cost { steps.new ≡ steps.old + 1 }
{
    let roles = rules.roles().len() as u32;
    let held = held_by(rows, individual);
    let closed = rules.close(&held, scratch, steps);
    let mut points = RoleSet::new();
    add_needed(&closed, &held, roles, &mut points, pointed);
    AtIndividual { closed, points }
}

/// The least individual above `after`, or of all. It takes no memory.
pub(crate) fn next_in(map: &BTreeMap<u32, AtIndividual>, after: Option<u32>) -> Option<u32>
    ensures { IsLeastNumber (IsKept map.now.entries) after result }
{
    let start = match after {
        Some(individual) => Bound::Excluded(individual),
        None => Bound::Unbounded,
    };
    let (individual, _) = map.range((start, Bound::Unbounded)).next()?;
    Some(*individual)
}
