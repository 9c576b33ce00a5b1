//! Elements with a property, gathered in order.
ghost use Rattle.std.specs.Prelude.{◌≡◌, ◌<◌, ◌↔◌, ◌⊎◌, ℕ, IsTrue, IfOk, OnOk, Contains, List, length};
ghost use Rattle.completion.specs.Gathered.{AreElemsWith, AreLiveWithin, IsHad, IsHadBehind, IsWitnessWith};
ghost use Rattle.completion.specs.Numbers.{AreNumbersWith};
ghost use Rattle.completion.specs.declared.individuals.AtIndividual.{AtIndividual as AnyAt};
ghost use Rattle.dl_base.specs.Ontology.{Terminology};
ghost use Rattle.dl_base.specs.declared.element.Witness.{Witness as AnyWitness};
ghost use Rattle.role_graph.specs.Graph.{HasNode, IsGraphOf};

use crate::individuals::AtIndividual;
use crate::members::Members;
use crate::numbers::Numbers;
use assert_tables::in_order;
use dl_base::{Basic, Role, Witness};
use horn_closure::Rules;
use role_graph::RoleGraph;
use std::alloc::{AllocError, Global};
use witness_book::WitnessBook;

/// What elements are gathered by.
#[derive(Clone, Copy)]
pub(crate) enum Property {
    /// Something is derived there.
    Derived(Basic),
    /// They point to the witness of the role.
    Pointing(Role),
}

impl Property {
    /// Whether the individual has it.
    pub(crate) fn is_had(self, at: &AtIndividual) -> bool
        ensures { IsTrue result ↔ IsHad self at.now }
    {
        match self {
            Property::Derived(b) => at.closed.has(b),
            Property::Pointing(r) => r.name < 256 && at.points.has(r),
        }
    }

    /// Whether what is behind the role has it.
    fn is_had_behind(self, graph: &RoleGraph, s: Role) -> bool
        requires { HasNode graph.now s }
        ensures { (o : Terminology) → IsGraphOf o graph.now → IsTrue result ↔ IsHadBehind o self s }
    {
        match self {
            Property::Derived(b) => graph.closed_of(s).has(b),
            Property::Pointing(r) => graph.spawns(s, r),
        }
    }
}

/// The individuals with these numbers, and the current witnesses that have the property.
pub(crate) fn elements_with(
    alloc: Global,
    property: Property,
    numbers: Numbers,
    rules: &Rules,
    graph: &RoleGraph,
    book: &WitnessBook,
) -> Result<Members, AllocError>
    requires graph { IsGraphOf rules.now graph.now }
    requires live { AreLiveWithin (length rules.now.roles) book.now }
    ensures { (list : List (ℕ × AnyAt)) → AreNumbersWith list property numbers → IfOk result (AreElemsWith rules.now list book.now property) }
{
    let witnesses = witnesses_with(alloc, property, rules, graph, book)?;
    Ok(Members::new(numbers.into_list(), in_order(witnesses)))
}

/// The current witnesses that have the property.
fn witnesses_with(
    alloc: Global,
    property: Property,
    rules: &Rules,
    graph: &RoleGraph,
    book: &WitnessBook,
) -> Result<Vec<Witness>, AllocError>
    requires graph { IsGraphOf rules.now graph.now }
    requires live { AreLiveWithin (length rules.now.roles) book.now }
    ensures { IfOk result (λ v. (w : AnyWitness) → Contains v.items w ↔ IsWitnessWith rules.now book.now property w) }
{
    let mut witnesses = Vec::new(alloc);
    for name in 0..rules.roles().len() as u32 {
        let direct = Role {
            name,
            inverse: false,
        };
        push_with(&mut witnesses, property, rules, graph, book, direct)?;
        push_with(
            &mut witnesses,
            property,
            rules,
            graph,
            book,
            direct.inverted(),
        )?;
    }
    Ok(witnesses)
}

/// Adds the witness of the role where it has the property.
fn push_with(
    witnesses: &mut Vec<Witness>,
    property: Property,
    rules: &Rules,
    graph: &RoleGraph,
    book: &WitnessBook,
    s: Role,
) -> Result<(), AllocError>
    requires graph { IsGraphOf rules.now graph.now }
    requires node { HasNode graph.now s }
    ensures { OnOk result ((w : AnyWitness) → Contains witnesses.new.items w
        ↔ (((w.role ≡ s) × IsWitnessWith rules.now book.now property w) ⊎ Contains witnesses.old.items w)) }
{
    if let Some(witness) = book.current(s) {
        if property.is_had_behind(graph, s) {
            witnesses.push(witness)?;
        }
    }
    Ok(())
}
