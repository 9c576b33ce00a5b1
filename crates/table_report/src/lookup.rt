//! The names that numbers stand for.
ghost use Rattle.std.specs.Prelude.{◌≡◌, ◌↔◌, Some, slice_get, option_map};
ghost use Rattle.std.specs.Option.{option_copied};
ghost use Rattle.dl_base.specs.Tables.{ConceptRow, RoleRow};
ghost use Rattle.table_report.specs.Gathered.{IsOfLive, elem_member, entry_of, member_of, role_read, row_entry};
ghost use Rattle.table_report.specs.TableLines.{Entry, role_by_name};

use crate::entry::{EntryRef, MemberRef, RoleRef};
use dl_base::{Elem, Name, NameBook, Ontology, Role};
use witness_book::WitnessBook;

/// The name at a place, where there is one.
fn name_at(book: &NameBook, id: u32) -> Option<&Name>
    ensures { option_copied result ≡ slice_get book.now id }
{
    if (id as usize) < book.len() {
        Some(book.name(id))
    } else {
        None
    }
}

/// The role by its name, where the ontology has it.
fn role_ref(ontology: &Ontology, role: Role) -> Option<RoleRef<'_>>
    ensures { option_map role_read result ≡ role_by_name ontology.now role }
{
    let name = name_at(ontology.roles(), role.name)?;
    Some(RoleRef {
        name,
        inverse: role.inverse,
    })
}

/// The element by its name: an individual by that of the book, a witness by its role's.
fn member_ref<'a>(
    ontology: &'a Ontology,
    individuals: &'a NameBook,
    e: Elem,
) -> Option<MemberRef<'a>>
    ensures { option_map member_of result ≡ elem_member ontology.now individuals.now e }
{
    match e {
        Elem::Named(number) => Some(MemberRef::Individual(name_at(individuals, number)?)),
        Elem::Shared(witness) => Some(MemberRef::Witness(role_ref(ontology, witness.role)?)),
    }
}

/// That the role is live, in its generation, where it is and the ontology has its name.
pub(crate) fn witness_entry<'a>(
    ontology: &'a Ontology,
    book: &WitnessBook,
    role: Role,
) -> Option<EntryRef<'a>>
    ensures { (x : Entry) → (option_map entry_of result ≡ Some x) ↔ IsOfLive ontology.now book.now role x }
{
    let witness = book.current(role)?;
    let role = role_ref(ontology, role)?;
    Some(EntryRef::Witness {
        role,
        generation: witness.generation,
    })
}

/// That the element is in the concept.
pub(crate) fn concept_entry<'a>(
    ontology: &'a Ontology,
    individuals: &'a NameBook,
    concept: u32,
    e: Elem,
) -> Option<EntryRef<'a>>
    ensures { option_map entry_of result ≡ row_entry ontology.now individuals.now (ConceptRow concept e) }
{
    let concept = name_at(ontology.concepts(), concept)?;
    let member = member_ref(ontology, individuals, e)?;
    Some(EntryRef::Concept { concept, member })
}

/// That the role leads from one element to another.
pub(crate) fn role_entry<'a>(
    ontology: &'a Ontology,
    individuals: &'a NameBook,
    role: u32,
    from: Elem,
    to: Elem,
) -> Option<EntryRef<'a>>
    ensures { option_map entry_of result ≡ row_entry ontology.now individuals.now (RoleRow role from to) }
{
    let role = name_at(ontology.roles(), role)?;
    let from = member_ref(ontology, individuals, from)?;
    let to = member_ref(ontology, individuals, to)?;
    Some(EntryRef::Role { role, from, to })
}
