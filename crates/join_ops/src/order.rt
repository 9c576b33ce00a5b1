//! The order in which terms get their elements by a plan.
ghost use Rattle.std.specs.Prelude.{◌≡◌, ◌≢◌, ◌<◌, ◌++◌, ◌^◌, ◌∷◌, [], ℕ, List, All, AllPairs, Contains, IfOk, OnOk, length, map, slice_get, slice_index, Some};
ghost use Rattle.query_shape.specs.Shape.{AreFirsts, IsBelow, IsLayout};
ghost use Rattle.query_shape.specs.declared.layout.ShapeAtom.TheVariants as shape;
ghost use Rattle.join_plan.specs.PlanLaws.{atom_of};
ghost use Rattle.join_plan.specs.Plans.{IsPlanOf};
ghost use Rattle.join_ops.specs.Orders.{AreLevelsIn, fixed_in, leveled, path_terms, plan_terms};
ghost use Rattle.join_ops.specs.Planned.{AreLeveled, leveled_atoms};

use crate::condition::Condition;
use dl_base::{Items, Role};
use join_plan::{AccessPath, Plan, Step};
use query_shape::{Shape, ShapeAtom};
use std::alloc::{AllocError, Global};

/// What a search by a plan is told, by the levels of terms: the level of each term by its number, what the elements have to meet,
/// and the individual of each fixed level.
#[derive(Debug, Drop)]
pub(crate) struct Leveled {
    pub(crate) levels: Items<u32>,
    pub(crate) conditions: Vec<Condition>,
    pub(crate) fixed: Vec<Option<u32>>,
}

/// By the levels of terms, in the order of the plan: the atoms of the shape, and what is fixed.
pub(crate) fn leveled_by(
    alloc: Global,
    s: &Shape,
    p: &Plan,
    fixed: &[Option<u32>],
) -> Result<Leveled, AllocError>
    requires plan { IsPlanOf s.now p.now }
    requires fixed { length fixed.now ≡ length s.now.terms }
    ensures layout { IsLayout s.now }
    ensures by_level { IfOk result (AreLeveled p.now fixed.now) }
{
    let order = order_of(alloc, s.terms(), p.steps())?;
    let levels = levels_in(alloc, order.as_slice())?;
    let conditions = atoms_by_level(alloc, p.steps(), levels.items())?;
    let fixed = fixed_by_level(alloc, order.as_slice(), fixed)?;
    Ok(Leveled {
        levels,
        conditions,
        fixed,
    })
}

/// The terms, so many, in the order in which the paths of the steps first come to them.
fn order_of(alloc: Global, terms: usize, steps: &[Step]) -> Result<Vec<u32>, AllocError>
    ensures { IfOk result (λ order. AreFirsts (plan_terms steps.now) order.items) }
{
    let mut order = Vec::with_capacity(alloc, terms)?;
    for step in steps {
        add_path(&mut order, step.path)?;
    }
    Ok(order)
}

/// Adds the terms of the path that aren't there.
fn add_path(order: &mut Vec<u32>, path: AccessPath) -> Result<(), AllocError>
    ensures { (all : List ℕ) → AreFirsts all order.old.items → OnOk result (AreFirsts (all ++ path_terms path) order.new.items) }
{
    match path {
        AccessPath::ScanConcept { term, .. } => add(order, term),
        AccessPath::ProbeConcept { term, .. } => add(order, term),
        AccessPath::ScanRole { from, to, .. } => add_both(order, from, to),
        AccessPath::WalkEdges { from, to, .. } => add_both(order, from, to),
        AccessPath::CheckPair { from, to, .. } => add_both(order, from, to),
    }
}

/// Adds the one term and then the other, each if it isn't there.
fn add_both(order: &mut Vec<u32>, first: u32, last: u32) -> Result<(), AllocError>
    ensures { (all : List ℕ) → AreFirsts all order.old.items → OnOk result (AreFirsts (all ++ first ∷ last ∷ []) order.new.items) }
{
    add(order, first)?;
    add(order, last)
}

/// Adds the term if it isn't there.
fn add(order: &mut Vec<u32>, term: u32) -> Result<(), AllocError>
    ensures { (all : List ℕ) → AreFirsts all order.old.items → OnOk result (AreFirsts (all ++ term ∷ []) order.new.items) }
{
    if order.contains(&term) {
        return Ok(());
    }
    order.push(term)?;
    Ok(())
}

/// By number, the level that each term has in the order.
fn levels_in(alloc: Global, order: &[u32]) -> Result<Items<u32>, AllocError>
    requires each { (term : ℕ) → term < length order.now → Contains order.now term }
    requires within { All (λ term. term < length order.now) order.now }
    requires distinct { AllPairs (λ x y. x ≢ y) order.now }
    requires few { length order.now < 2 ^ 32 }
    ensures { IfOk result (AreLevelsIn order.now) }
{
    let mut levels = Vec::with_capacity(alloc, order.len())?;
    for term in 0..order.len() {
        levels.push(level_in(order, term as u32))?;
    }
    Ok(Items::from_vec(levels))
}

/// The level of a term that is in the order.
fn level_in(order: &[u32], term: u32) -> u32
    requires there { Contains order.now term }
    requires few { length order.now < 2 ^ 32 }
    ensures { slice_get order.now result ≡ Some term }
{
    for (level, known) in order.iter().enumerate() {
        if *known == term {
            return level as u32;
        }
    }
    unreachable!()
}

/// For the terms in this order, the individual of each fixed one.
fn fixed_by_level(
    alloc: Global,
    order: &[u32],
    fixed: &[Option<u32>],
) -> Result<Vec<Option<u32>>, AllocError>
    requires { All (λ term. term < length fixed.now) order.now }
    ensures { IfOk result (λ leveled. leveled.items ≡ fixed_in order.now fixed.now) }
{
    let mut leveled = Vec::with_capacity(alloc, order.len())?;
    for term in order {
        leveled.push(fixed[*term as usize])?;
    }
    Ok(leveled)
}

/// What the paths of the steps go through, by the levels of terms.
fn atoms_by_level(
    alloc: Global,
    steps: &[Step],
    levels: &[u32],
) -> Result<Vec<Condition>, AllocError>
    requires { All (λ step. IsBelow (length levels.now) (atom_of step.path)) steps.now }
    ensures { IfOk result (λ atoms. atoms.items ≡ leveled_atoms levels.now steps.now) }
{
    let mut atoms = Vec::with_capacity(alloc, steps.len())?;
    for step in steps {
        atoms.push(Condition::Atom(atom_by_level(step.path, levels)))?;
    }
    Ok(atoms)
}

/// What the path goes through, by the levels of terms.
fn atom_by_level(path: AccessPath, levels: &[u32]) -> ShapeAtom
    requires { IsBelow (length levels.now) (atom_of path) }
    ensures { result ≡ leveled levels.now (atom_of path) }
{
    match path {
        AccessPath::ScanConcept { concept, term } => concept_by_level(concept, term, levels),
        AccessPath::ProbeConcept { concept, term } => concept_by_level(concept, term, levels),
        AccessPath::ScanRole { role, from, to } => role_by_level(role, from, to, levels),
        AccessPath::WalkEdges { role, from, to } => role_by_level(role, from, to, levels),
        AccessPath::CheckPair { role, from, to } => role_by_level(role, from, to, levels),
    }
}

/// The atom of a concept.
fn concept_by_level(concept: u32, term: u32, levels: &[u32]) -> ShapeAtom
    requires { term < length levels.now }
    ensures { result ≡ shape.Concept concept (slice_index levels.now term) }
{
    let term = levels[term as usize];
    ShapeAtom::Concept { concept, term }
}

/// The atom of a role.
fn role_by_level(role: Role, from: u32, to: u32, levels: &[u32]) -> ShapeAtom
    requires from { from < length levels.now }
    requires to { to < length levels.now }
    ensures { result ≡ shape.Role role (slice_index levels.now from) (slice_index levels.now to) }
{
    let from = levels[from as usize];
    let to = levels[to as usize];
    ShapeAtom::Role { role, from, to }
}
