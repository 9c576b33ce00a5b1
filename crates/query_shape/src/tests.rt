//! Queries of two atoms beside their shapes and the names that they lack.

ghost use Rattle.std.specs.Prelude.{◌≡◌, ℕ, List, IfOk};
ghost use Rattle.dl_base.specs.Names.{IsVariableName};

use super::*;
use dl_base::{Atom, Axiom, Items, Name, NameError, Names, Ontology, Query, Term};
use std::alloc::{AllocError, Global};
use std::test::Fail;

fn name(alloc: Global, text: &[u8]) -> Result<Name, AllocError> {
    match Name::new(alloc, text) {
        Ok(name) => Ok(name),
        Err(NameError::Bad(_)) => Err(AllocError),
        Err(NameError::NoMemory) => Err(AllocError),
    }
}

fn one_name(alloc: Global, text: &[u8]) -> Result<Names, AllocError> {
    let mut names = Items::new(alloc);
    names.push(name(alloc, text)?)?;
    Ok(names)
}

/// The ontology of the concept A and the role r.
fn a_and_r(alloc: Global) -> Result<Ontology, AllocError> {
    let axiom = Axiom::new(
        one_name(alloc, b"A")?,
        one_name(alloc, b"r")?,
        Items::new(alloc),
    );
    match Ontology::new(alloc)?.extend(alloc, &axiom) {
        Ok(ontology) => Ok(ontology),
        Err(_) => Err(AllocError),
    }
}

/// What the role of the second atom leads from.
#[derive(Clone, Copy)]
enum Start {
    /// The variable y.
    Another,
    /// The individual x.
    Named,
    /// The variable x, to which it leads.
    Same,
}

fn start_term(alloc: Global, start: Start) -> Result<Term, AllocError>
    ensures { IfOk result (λ t. (v : List ℕ) → t ≡ Term.Var v → IsVariableName v) }
{
    match start {
        Start::Another => Ok(Term::Var(Name::from_word(alloc, b"y")?)),
        Start::Named => Ok(Term::Named(Name::from_word(alloc, b"x")?)),
        Start::Same => Ok(Term::Var(Name::from_word(alloc, b"x")?)),
    }
}

/// The query of `concept(?x)` and `role(start, ?x)`.
fn two_atoms(
    alloc: Global,
    concept: &[u8],
    role: &[u8],
    start: Start,
) -> Result<Query, AllocError> {
    let from = start_term(alloc, start)?;
    let x = Name::from_word(alloc, b"x")?;
    let mut atoms = Items::new(alloc);
    atoms.push(Atom::Concept {
        name: name(alloc, concept)?,
        term: Term::Var(x.copy(alloc)?),
    })?;
    atoms.push(Atom::Role {
        name: name(alloc, role)?,
        from,
        to: Term::Var(x),
    })?;
    Ok(Query::new(Items::new(alloc), atoms))
}

fn first_byte(name: &Name) -> u8 {
    match name.bytes().first() {
        Some(byte) => *byte,
        None => 0,
    }
}

/// What is found of a query: the first byte of the name that is told, or how many terms the shape has, and the numbers
/// of its last role atom's terms.
#[derive(Debug, PartialEq, Eq, Clone, Copy)]
enum Found {
    Unknown(u8),
    Numbers(usize, u32, u32),
}

fn numbers(shape: &Shape) -> Found {
    let mut ends = (0, 0);
    for atom in shape.atoms() {
        if let ShapeAtom::Role { from, to, .. } = atom {
            ends = (*from, *to);
        }
    }
    Found::Numbers(shape.terms(), ends.0, ends.1)
}

/// What is found of a query of two atoms in the ontology of A and r.
fn found_of(alloc: Global, concept: &[u8], role: &[u8], start: Start) -> Result<Found, AllocError> {
    let ontology = a_and_r(alloc)?;
    let query = two_atoms(alloc, concept, role, start)?;
    match shape(alloc, &query, &ontology) {
        Ok(shape) => Ok(numbers(&shape)),
        Err(ShapeError::UnknownConcept(name)) => Ok(Found::Unknown(first_byte(&name))),
        Err(ShapeError::UnknownRole(name)) => Ok(Found::Unknown(first_byte(&name))),
        Err(ShapeError::NoMemory) => Err(AllocError),
    }
}

#[test]
fn terms_are_numbered_and_the_first_unknown_name_is_told(rt: HostRuntime) -> Result<(), Fail> {
    let alloc = rt.alloc();
    assert_eq!(rt;
        found_of(alloc, b"A", b"r", Start::Another)?,
        Found::Numbers(2, 1, 0)
    );
    assert_eq!(rt;
        found_of(alloc, b"A", b"r", Start::Named)?,
        Found::Numbers(2, 1, 0)
    );
    assert_eq!(rt;
        found_of(alloc, b"A", b"r", Start::Same)?,
        Found::Numbers(1, 0, 0)
    );
    assert_eq!(rt;
        found_of(alloc, b"A", b"s", Start::Another)?,
        Found::Unknown(b's')
    );
    assert_eq!(rt;
        found_of(alloc, b"r", b"A", Start::Another)?,
        Found::Unknown(b'r')
    );
    Ok(())
}
