//! Conjunctive queries and the keys that answer them.
ghost use Rattle.std.specs.Prelude.{◌≡◌, ◌<◌, ◌≤◌, length, IfOk, take};
ghost use Rattle.dl_base.specs.Query.{IsQuery};

use crate::Name;
use plain_list::Items;
use std::alloc::{AllocError, Global};
use std::marker::Model;

/// A variable, by its name without the mark, or the name of an individual.
#[derive(Debug, Drop, PartialEq, Eq)]
pub enum Term {
    /// A variable.
    Var(Name),
    /// An individual.
    Named(Name),
}

impl Term {
    /// A term that equals this one.
    pub fn copy(&self, alloc: Global) -> Result<Term, AllocError>
        ensures { IfOk result (λ t. t ≡ self.now) }
    {
        match self {
            Term::Var(name) => Ok(Term::Var(name.copy(alloc)?)),
            Term::Named(name) => Ok(Term::Named(name.copy(alloc)?)),
        }
    }
}

/// A condition on one term or on two.
#[derive(Debug, Drop)]
pub enum Atom {
    /// The term is in the concept of this name.
    Concept { name: Name, term: Term },
    /// The role of this name leads from one term to the other.
    Role { name: Name, from: Term, to: Term },
}

impl Atom {
    /// An atom that equals this one.
    pub fn copy(&self, alloc: Global) -> Result<Atom, AllocError>
        ensures { IfOk result (λ a. a ≡ self.now) }
    {
        match self {
            Atom::Concept { name, term } => Ok(Atom::Concept {
                name: name.copy(alloc)?,
                term: term.copy(alloc)?,
            }),
            Atom::Role { name, from, to } => Ok(Atom::Role {
                name: name.copy(alloc)?,
                from: from.copy(alloc)?,
                to: to.copy(alloc)?,
            }),
        }
    }
}

/// The names of the variables at a query's answer places.
pub type Vars = Items<Name>;

/// The atoms of a query, in order of the text.
pub type Atoms = Items<Atom>;

/// A conjunctive query: 1 to 24 atoms over at most 24 distinct terms, and at most 24 answer places, each of whose
/// variables is in an atom. Each variable has a bare name of at most 254 bytes.
#[derive(Debug, Drop)]
pub struct Query {
    answers: Vars,
    atoms: Atoms,
}

impl Model for Query {
    ghost use Rattle.dl_base.specs.Query.{Question, IsQuery};

    ghost Value = { Question };

    ghost view = { λ q. record { answers = q.answers; atoms = q.atoms } };

    ghost invariant = { λ q. IsQuery (record { answers = q.answers; atoms = q.atoms }) };
}

impl Query {
    /// The query of these lists. It takes no memory. That they are a query is for the caller to know, which has read
    /// them from a text or copied them.
    pub fn new(answers: Vars, atoms: Atoms) -> Query
        requires { IsQuery (record { answers = answers; atoms = atoms }) }
        ensures { result ≡ record { answers = answers; atoms = atoms } }
    {
        Query { answers, atoms }
    }

    /// The variables at the answer places.
    pub fn answers(&self) -> &[Name]
        ensures places { result.now ≡ self.now.answers }
        ensures query { IsQuery self.now }
    {
        self.answers.items()
    }

    /// The atoms, in order.
    pub fn atoms(&self) -> &[Atom]
        ensures atoms { result.now ≡ self.now.atoms }
        ensures query { IsQuery self.now }
    {
        self.atoms.items()
    }

    /// A query that equals this one.
    pub fn copy(&self, alloc: Global) -> Result<Query, AllocError>
        ensures { IfOk result (λ q. q ≡ self.now) }
    {
        let answers = copy_vars(alloc, self.answers.items())?;
        let atoms = copy_atoms(alloc, self.atoms.items())?;
        Ok(Query { answers, atoms })
    }
}

fn copy_vars(alloc: Global, vars: &[Name]) -> Result<Vars, AllocError>
    ensures { IfOk result (λ copies. copies ≡ vars.now) }
{
    let mut copies = Items::new(alloc);
    for var in vars {
        copies.push(var.copy(alloc)?)?;
    }
    Ok(copies)
}

fn copy_atoms(alloc: Global, atoms: &[Atom]) -> Result<Atoms, AllocError>
    ensures { IfOk result (λ copies. copies ≡ atoms.now) }
{
    let mut copies = Items::new(alloc);
    for atom in atoms {
        copies.push(atom.copy(alloc)?)?;
    }
    Ok(copies)
}

/// A name for each answer place.
pub type Key = Items<Name>;

/// A list of keys.
pub type Keys = Items<Key>;
