//! How the rows of completed tables are found.
ghost use Rattle.std.specs.Prelude.{◌≡◌, ◌↔◌, ◌<◌, ◌+◌, ℕ, List, All, IfOk, OnOk, Contains, false, true, length};
ghost use Rattle.completion.specs.Edges.{IsTableRow};
ghost use Rattle.completion.specs.Gathered.{AreConceptLists, AreListsOfNames, AreLiveWithin, AreRoleLists};
ghost use Rattle.completion.specs.Individuals.{AreAtIndividuals};
ghost use Rattle.completion.specs.Numbered.{IsLiveRole, IsRowOf};
ghost use Rattle.completion.specs.Numbers.{AreNumberLists, AreOfRole};
ghost use Rattle.completion.specs.TableRows.{table_of};
ghost use Rattle.completion.specs.declared.gather.Property.{Property as AnyProperty};
ghost use Rattle.completion.specs.declared.individuals.AtIndividual.{AtIndividual as AnyAt};
ghost use Rattle.dl_base.specs.Tables.{TableRow};
ghost use Rattle.dl_base.specs.Sets.{HasRole};
ghost use Rattle.dl_base.specs.declared.concept.Role.{Role as AnyRole};
ghost use Rattle.role_graph.specs.Graph.{IsGraphOf};
ghost use Rattle.witness_book.specs.Witnesses.{generation_of};

use crate::asserted::role_rows;
use crate::edges::Edges;
use crate::gather::{Property, elements_with};
use crate::individuals::AtIndividual;
use crate::members::Members;
use crate::numbers::{Numbers, number_lists, take_list};
use crate::properties::{concept_properties, role_properties};
use crate::rows::{BothWays, RoleLists, TableRows};
use assert_tables::Assertions;
use dl_base::{Basic, Role};
use horn_closure::Rules;
use role_graph::RoleGraph;
use std::alloc::{AllocError, Global};
use std::collections::BTreeMap;
use witness_book::WitnessBook;

/// The rows of the tables, from what is derived at individuals and behind live roles.
pub(crate) fn table_rows(
    alloc: Global,
    rules: &Rules,
    graph: &RoleGraph,
    rows: &Assertions,
    individuals: &BTreeMap<u32, AtIndividual>,
    book: &WitnessBook,
) -> Result<TableRows, AllocError>
    requires graph { IsGraphOf rules.now graph.now }
    requires within { All (IsRowOf rules.now) rows.now }
    requires individuals { AreAtIndividuals rules.now rows.now individuals.now.entries }
    requires live { (r : AnyRole) → HasRole book.now.live r ↔ IsLiveRole rules.now rows.now r }
    ensures { IfOk result (λ t. (row : TableRow) → Contains (table_of t) row ↔ IsTableRow rules.now rows.now (generation_of book.now) row) }
{
    let concepts = concept_lists(alloc, rules, graph, individuals, book)?;
    let roles = lists_of_names(alloc, rules, graph, individuals, book)?;
    let edges = Edges::new(alloc, role_rows(alloc, rows)?)?;
    Ok(TableRows::new(concepts, roles, edges))
}

/// For each concept of the ontology, by its place, the elements at which it is derived.
fn concept_lists(
    alloc: Global,
    rules: &Rules,
    graph: &RoleGraph,
    individuals: &BTreeMap<u32, AtIndividual>,
    book: &WitnessBook,
) -> Result<Vec<Members>, AllocError>
    requires graph { IsGraphOf rules.now graph.now }
    requires live { AreLiveWithin (length rules.now.roles) book.now }
    ensures { IfOk result (λ v. AreConceptLists rules.now individuals.now.entries book.now (length rules.now.concepts) v.items) }
{
    let concepts = rules.concepts().len() as u32;
    let properties = concept_properties(alloc, concepts)?;
    let mut numbers = number_lists(alloc, &properties, individuals)?;
    let mut lists = Vec::with_capacity(alloc, concepts as usize)?;
    for concept in 0..concepts {
        let property = Property::Derived(Basic::Concept(concept));
        let with_it = take_list(alloc, &mut numbers, concept as usize);
        lists.push(elements_with(alloc, property, with_it, rules, graph, book)?)?;
    }
    Ok(lists)
}

/// For each role name of the ontology, by its place, what the tables keep of the role and of its inverse.
fn lists_of_names(
    alloc: Global,
    rules: &Rules,
    graph: &RoleGraph,
    individuals: &BTreeMap<u32, AtIndividual>,
    book: &WitnessBook,
) -> Result<Vec<BothWays>, AllocError>
    requires graph { IsGraphOf rules.now graph.now }
    requires live { AreLiveWithin (length rules.now.roles) book.now }
    ensures { IfOk result (λ v. AreListsOfNames rules.now individuals.now.entries book.now (length rules.now.roles) v.items) }
{
    let names = rules.roles().len() as u32;
    let properties = role_properties(alloc, names)?;
    let mut numbers = number_lists(alloc, &properties, individuals)?;
    let mut lists = Vec::with_capacity(alloc, names as usize)?;
    for name in 0..names {
        let direct = Role {
            name,
            inverse: false,
        };
        let place = 4 * name as usize;
        lists.push(BothWays {
            direct: lists_of(alloc, direct, &mut numbers, place, rules, graph, book)?,
            inverse: lists_of(
                alloc,
                direct.inverted(),
                &mut numbers,
                place + 2,
                rules,
                graph,
                book,
            )?,
        })?;
    }
    Ok(lists)
}

/// What the tables keep of the role: of the elements from which it leads the numbers stand at the place, and of those that
/// point to its witness at the next one.
fn lists_of(
    alloc: Global,
    role: Role,
    numbers: &mut Vec<Numbers>,
    place: usize,
    rules: &Rules,
    graph: &RoleGraph,
    book: &WitnessBook,
) -> Result<RoleLists, AllocError>
    requires graph { IsGraphOf rules.now graph.now }
    requires live { AreLiveWithin (length rules.now.roles) book.now }
    requires place { place + 1 < length numbers.old.items }
    ensures lists { (list : List (ℕ × AnyAt)) (properties : List AnyProperty) → AreNumberLists list properties place numbers.old.items → AreOfRole properties place role
        → IfOk result (AreRoleLists rules.now list book.now role) }
    ensures left { (list : List (ℕ × AnyAt)) (properties : List AnyProperty) → AreNumberLists list properties place numbers.old.items
        → OnOk result (AreNumberLists list properties (place + 2) numbers.new.items) }
{
    let with_edge = take_list(alloc, numbers, place);
    let pointing = take_list(alloc, numbers, place + 1);
    let derived = Property::Derived(Basic::Exists(role));
    Ok(RoleLists {
        sources: elements_with(alloc, derived, with_edge, rules, graph, book)?,
        pointing: elements_with(
            alloc,
            Property::Pointing(role),
            pointing,
            rules,
            graph,
            book,
        )?,
        generation: generation(book, role),
    })
}

/// The generation of the role's witness, or 0 where the role isn't live.
fn generation(book: &WitnessBook, role: Role) -> u64
    ensures { HasRole book.now.live role → result ≡ generation_of book.now role }
{
    match book.current(role) {
        Some(witness) => witness.generation,
        None => 0,
    }
}
