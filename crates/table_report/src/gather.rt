//! What the completed tables say, gathered.
ghost use Rattle.std.specs.Prelude.{◌≡◌, ◌<◌, ◌↔◌, ℕ, IfOk, OnOk, Some, Contains, map, option_map, length};
ghost use Rattle.dl_base.specs.declared.concept.Role.{Role as AnyRole};
ghost use Rattle.table_report.specs.Gathered.{AddsAll, IsGathered, IsOfConcept, IsOfLive, IsOfRole, IsOfSource, entry_of};
ghost use Rattle.table_report.specs.TableLines.{Entry};

use crate::entry::EntryRef;
use crate::lookup::{concept_entry, role_entry, witness_entry};
use completion::Completed;
use dl_base::{Elem, NameBook, Ontology, Role, Tables};
use role_graph::role_at;
use std::alloc::{AllocError, Global};

/// What the tables say, in no order.
pub(crate) fn gathered<'a>(
    alloc: Global,
    tables: &Completed,
    ontology: &'a Ontology,
    individuals: &'a NameBook,
) -> Result<Vec<EntryRef<'a>>, AllocError>
    ensures { IfOk result (λ v. (x : Entry) → Contains (map entry_of v.items) x ↔ IsGathered ontology.now individuals.now tables.now.book tables.now.rows x) }
{
    let mut entries = Vec::new(alloc);
    add_witnesses(&mut entries, tables, ontology)?;
    add_concepts(&mut entries, tables, ontology, individuals)?;
    add_roles(&mut entries, tables, ontology, individuals)?;
    Ok(entries)
}

/// Adds which roles are live, and their generations.
fn add_witnesses<'a>(
    entries: &mut Vec<EntryRef<'a>>,
    tables: &Completed,
    ontology: &'a Ontology,
) -> Result<(), AllocError>
    ensures { OnOk result (AddsAll (λ x. (r : AnyRole) × IsOfLive ontology.now tables.now.book r x) entries.old.items entries.new.items) }
{
    for place in 0..2 * ontology.roles().len() {
        let found = witness_entry(ontology, tables.book(), role_at(place));
        push_found(entries, found)?;
    }
    Ok(())
}

/// Adds what is in the concepts.
fn add_concepts<'a>(
    entries: &mut Vec<EntryRef<'a>>,
    tables: &Completed,
    ontology: &'a Ontology,
    individuals: &'a NameBook,
) -> Result<(), AllocError>
    ensures { OnOk result (AddsAll (λ x. (c : ℕ) × IsOfConcept ontology.now individuals.now tables.now.rows c x) entries.old.items entries.new.items) }
{
    for concept in 0..ontology.concepts().len() as u32 {
        add_members(entries, tables, ontology, individuals, concept)?;
    }
    Ok(())
}

/// Adds what is in the concept.
fn add_members<'a>(
    entries: &mut Vec<EntryRef<'a>>,
    tables: &Completed,
    ontology: &'a Ontology,
    individuals: &'a NameBook,
    concept: u32,
) -> Result<(), AllocError>
    ensures { OnOk result (AddsAll (IsOfConcept ontology.now individuals.now tables.now.rows concept) entries.old.items entries.new.items) }
{
    let mut last = None;
    while let Some(e) = tables.next_concept(concept, last) {
        let found = concept_entry(ontology, individuals, concept, e);
        push_found(entries, found)?;
        last = Some(e);
    }
    Ok(())
}

/// Adds between what the roles lead.
fn add_roles<'a>(
    entries: &mut Vec<EntryRef<'a>>,
    tables: &Completed,
    ontology: &'a Ontology,
    individuals: &'a NameBook,
) -> Result<(), AllocError>
    ensures { OnOk result (AddsAll (λ x. (p : ℕ) × IsOfRole ontology.now individuals.now tables.now.rows p x) entries.old.items entries.new.items) }
{
    for role in 0..ontology.roles().len() as u32 {
        add_links(entries, tables, ontology, individuals, role)?;
    }
    Ok(())
}

/// Adds between what the role leads.
fn add_links<'a>(
    entries: &mut Vec<EntryRef<'a>>,
    tables: &Completed,
    ontology: &'a Ontology,
    individuals: &'a NameBook,
    role: u32,
) -> Result<(), AllocError>
    ensures { OnOk result (AddsAll (IsOfRole ontology.now individuals.now tables.now.rows role) entries.old.items entries.new.items) }
{
    let direct = Role {
        name: role,
        inverse: false,
    };
    let mut last = None;
    while let Some(from) = tables.next_source(direct, last) {
        add_targets(entries, tables, ontology, individuals, role, from)?;
        last = Some(from);
    }
    Ok(())
}

/// Adds to what the role leads from the element.
fn add_targets<'a>(
    entries: &mut Vec<EntryRef<'a>>,
    tables: &Completed,
    ontology: &'a Ontology,
    individuals: &'a NameBook,
    role: u32,
    from: Elem,
) -> Result<(), AllocError>
    ensures { OnOk result (AddsAll (IsOfSource ontology.now individuals.now tables.now.rows role from) entries.old.items entries.new.items) }
{
    let direct = Role {
        name: role,
        inverse: false,
    };
    let mut last = None;
    while let Some(to) = tables.next_edge(direct, from, last) {
        let found = role_entry(ontology, individuals, role, from, to);
        push_found(entries, found)?;
        last = Some(to);
    }
    Ok(())
}

/// Adds what was found.
fn push_found<'a>(
    entries: &mut Vec<EntryRef<'a>>,
    found: Option<EntryRef<'a>>,
) -> Result<(), AllocError>
    ensures { OnOk result (AddsAll (λ x. option_map entry_of found.entry ≡ Some x) entries.old.items entries.new.items) }
{
    if let Some(entry) = found {
        entries.push(entry)?;
    }
    Ok(())
}
