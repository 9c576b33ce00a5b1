//! That copies are made where there is memory, by the first document of the format.

use super::*;
use std::alloc::{AllocError, Global};
use std::test::Fail;

/// Who is staff?
fn staff_query(alloc: Global) -> Result<Query, AllocError> {
    let x = Name::from_word(alloc, b"x")?;
    let mut answers = Items::new(alloc);
    answers.push(x.copy(alloc)?)?;
    let name = Name::from_word(alloc, b"Staff")?;
    let mut atoms = Items::new(alloc);
    atoms.push(Atom::Concept {
        name,
        term: Term::Var(x),
    })?;
    Ok(Query::new(answers, atoms))
}

#[test]
fn the_first_document_is_copied(rt: HostRuntime) -> Result<(), Fail> {
    let alloc = rt.alloc();
    let concept = Name::new(alloc, b"Prof")?;
    let individual = Name::new(alloc, b"ann")?.copy(alloc)?;
    let fact = NamedRow::Concept {
        concept,
        individual,
    };
    assert!(rt; fact.copy(alloc)? == fact);
    let inclusion = Inclusion {
        body: Items::from_slice(alloc, &[Basic::Concept(0)])?,
        head: Head::Basic(Basic::Concept(1)),
    };
    assert_eq!(rt; inclusion.copy(alloc)?.head, inclusion.head);
    let query = staff_query(alloc)?.copy(alloc)?;
    match query.answers() {
        [var] => assert_eq!(rt; var.bytes(), b"x".as_slice()),
        _ => assert!(rt; false),
    }
    match query.atoms() {
        [Atom::Concept { name, .. }] => assert_eq!(rt; name.bytes(), b"Staff".as_slice()),
        _ => assert!(rt; false),
    }
    Ok(())
}
