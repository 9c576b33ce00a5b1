//! The shape of a query in an ontology.
ghost use Rattle.std.specs.Prelude.{◌≡◌, ◌<◌, ◌+◌, ◌^◌, false, length, slice_get, Some, Contains, IfOk, IfErr, MatchOption};
ghost use Rattle.query_shape.specs.Shape.{IsShapeOf};
ghost use Rattle.query_shape.specs.ShapeFault.{IsAtomFault, IsConceptFault, IsRoleFault, IsShapeFault};
ghost use Rattle.query_shape.specs.Numbering.{NumbersTerm, IsNumberedAtom};

use crate::{Shape, ShapeAtom};
use dl_base::{Atom, Items, Name, Ontology, Query, Role, Term};
use std::alloc::{AllocError, Global};
use thiserror::Error;

/// Why a query has no shape in an ontology.
#[derive(Debug, Drop, Error)]
pub enum ShapeError {
    /// The ontology hasn't got this concept name. It is that of the first atom whose name the ontology lacks.
    #[error("unknown concept {0:?}")]
    UnknownConcept(Name),
    /// The ontology hasn't got this role name. It is that of the first atom whose name the ontology lacks.
    #[error("unknown role {0:?}")]
    UnknownRole(Name),
    /// There is no memory left.
    #[error("no memory")]
    NoMemory,
}

/// The shape of the query in the ontology: its terms are numbered in the order in which they first occur, and no role
/// is read as an inverse. There is one exactly where the ontology has the names of all atoms; else `UnknownConcept` or
/// `UnknownRole` tells the name of the first atom whose name it lacks.
pub fn shape(alloc: Global, q: &Query, o: &Ontology) -> Result<Shape, ShapeError>
    ensures ok { IfOk result (IsShapeOf o.now q.now) }
    ensures err { IfErr result (IsShapeFault o.now q.now) }
{
    let mut terms = Items::new(alloc);
    let mut atoms = Items::new(alloc);
    for atom in q.atoms() {
        let numbered = numbered_atom(alloc, &mut terms, o, atom)?;
        atoms.push(numbered)?;
    }
    Ok(Shape { terms, atoms })
}

/// The atom by numbers. Its new terms go last.
fn numbered_atom(
    alloc: Global,
    terms: &mut Items<Term>,
    o: &Ontology,
    atom: &Atom,
) -> Result<ShapeAtom, ShapeError>
    requires { length terms.old + 2 < 2 ^ 32 }
    ensures ok { IfOk result (IsNumberedAtom o.now terms.old atom.now terms.new) }
    ensures err { IfErr result (IsAtomFault o.now atom.now) }
{
    match atom {
        Atom::Concept { name, term } => {
            let concept = concept_place(alloc, o, name)?;
            let term = number(alloc, terms, term)?;
            Ok(ShapeAtom::Concept { concept, term })
        }
        Atom::Role { name, from, to } => {
            let role = role_place(alloc, o, name)?;
            let from = number(alloc, terms, from)?;
            let to = number(alloc, terms, to)?;
            Ok(ShapeAtom::Role { role, from, to })
        }
    }
}

/// The place of a concept name.
fn concept_place(alloc: Global, o: &Ontology, name: &Name) -> Result<u32, ShapeError>
    ensures ok { IfOk result (λ place. slice_get o.now.concepts place ≡ Some name.now) }
    ensures err { IfErr result (IsConceptFault o.now.concepts name.now) }
{
    match o.concepts().find(name.bytes()) {
        Some(place) => Ok(place),
        None => Err(ShapeError::UnknownConcept(name.copy(alloc)?)),
    }
}

/// The role of a name, not inverted.
fn role_place(alloc: Global, o: &Ontology, name: &Name) -> Result<Role, ShapeError>
    ensures ok { IfOk result (λ r. (slice_get o.now.roles r.name ≡ Some name.now) × (r.inverse ≡ false)) }
    ensures err { IfErr result (IsRoleFault o.now.roles name.now) }
{
    match o.roles().find(name.bytes()) {
        Some(place) => Ok(Role {
            name: place,
            inverse: false,
        }),
        None => Err(ShapeError::UnknownRole(name.copy(alloc)?)),
    }
}

/// The number of a term, which goes last where it is new.
fn number(alloc: Global, terms: &mut Items<Term>, term: &Term) -> Result<u32, AllocError>
    requires { length terms.old < 2 ^ 32 }
    ensures { IfOk result (NumbersTerm terms.old term.now terms.new) }
{
    if let Some(number) = known_number(terms.items(), term) {
        return Ok(number);
    }
    let number = terms.items().len() as u32;
    terms.push(term.copy(alloc)?)?;
    Ok(number)
}

/// The number of a term that is one of these, or `None` exactly where it isn't.
fn known_number(terms: &[Term], term: &Term) -> Option<u32>
    requires { length terms.now < 2 ^ 32 }
    ensures { MatchOption result (Contains terms.now term.now → ⊥) (λ number. slice_get terms.now number ≡ Some term.now) }
{
    for (number, known) in terms.iter().enumerate() {
        if known == term {
            return Some(number as u32);
        }
    }
    None
}

impl From<AllocError> for ShapeError {
    ghost use Rattle.std.specs.Prelude.{◌≡◌};
    ghost use Rattle.query_shape.specs.declared.numbering.ShapeError.TheVariants.{NoMemory};

    ghost from_gives = { λ _ e. e ≡ NoMemory };

    fn from(_error: AllocError) -> ShapeError {
        ShapeError::NoMemory
    }
}
