//! The rules of an ontology, made ready for closures.
ghost use Rattle.std.specs.Prelude.{◌≡◌, ◌<◌, ◌≤◌, ◌+◌, IfOk, All, length};
ghost use Rattle.dl_base.specs.Clashes.{role_cmp};
ghost use Rattle.dl_base.specs.Ontology.{IsTerminology, IsWithin};
ghost use Rattle.dl_base.specs.Sets.{HasBasic};
ghost use Rattle.horn_closure.specs.Closure.{IsClosure, IsScratchOf, body_lengths};

use crate::closed::Closed;
use crate::queue::Queue;
use crate::run::closure;
use crate::steps::Steps;
use crate::uses::all_uses;
use dl_base::{BasicSet, Inclusion, Items, Name, NameBook, Ontology, Role};
use std::alloc::{AllocError, Global};
use std::cmp::Ordering;
use std::marker::Model;
use std::sync::ledger::Ledger;

/// An ontology made ready for closures: its names and inclusions, and for each basic concept the inclusions with it in
/// the body. Contracts see it as the ontology.
#[derive(Drop)]
pub struct Rules {
    concepts: Items<Name>,
    roles: Items<Name>,
    inclusions: Vec<Inclusion>,
    uses: Vec<Items<u32>>,
}

impl Model for Rules {
    ghost use Rattle.dl_base.specs.Ontology.{Terminology};
    ghost use Rattle.horn_closure.specs.Run.{IsReady};

    ghost Value = { Terminology };

    ghost view = { λ r. record { concepts = r.concepts; roles = r.roles; inclusions = r.inclusions.items } };

    ghost invariant = { λ r. IsReady (record { concepts = r.concepts; roles = r.roles; inclusions = r.inclusions.items }) r.uses.items };
}

/// Room to compute closures in, one after another. Contracts see it as the number of body members of each of the
/// inclusions that it was made for.
#[derive(Drop)]
pub struct Scratch {
    left: Vec<u32>,
    queue: Queue,
}

impl Model for Scratch {
    ghost use Rattle.std.specs.Prelude.{ℕ, List};

    ghost Value = { List ℕ };

    ghost view = { λ s. s.left.items };
}

impl Rules {
    /// The rules of the ontology.
    pub fn new(alloc: Global, o: &Ontology) -> Result<Rules, AllocError>
        ensures { IfOk result (λ r. r ≡ o.now) }
    {
        let concepts = copy_names(alloc, o.concepts())?;
        let roles = copy_names(alloc, o.roles())?;
        let inclusions = copy_all(alloc, o.inclusions())?;
        let uses = all_uses(alloc, o.inclusions())?;
        Ok(Rules {
            concepts,
            roles,
            inclusions,
            uses,
        })
    }

    /// The concept names, by their places. It takes no memory.
    pub fn concepts(&self) -> &[Name]
        ensures names { result.now ≡ self.now.concepts }
        ensures within { IsTerminology self.now }
    {
        self.concepts.items()
    }

    /// The role names, by their places. It takes no memory.
    pub fn roles(&self) -> &[Name]
        ensures names { result.now ≡ self.now.roles }
        ensures within { IsTerminology self.now }
    {
        self.roles.items()
    }

    /// How two roles stand to each other in role order: by the bytes of their names, direct before inverse. It takes no
    /// memory.
    pub fn compared(&self, r: Role, s: Role) -> Ordering
        requires first { r.name < length self.now.roles }
        requires second { s.name < length self.now.roles }
        ensures { result ≡ role_cmp self.now r s }
    {
        let names = self.roles.items();
        names[r.name as usize]
            .cmp(&names[s.name as usize])
            .then(r.inverse.cmp(&s.inverse))
    }

    /// Room for closures under these rules.
    pub fn scratch(&self, alloc: Global) -> Result<Scratch, AllocError>
        ensures { IfOk result (IsScratchOf self.now) }
    {
        let left = body_lengths(alloc, self.inclusions.as_slice())?;
        Ok(Scratch {
            left,
            queue: Queue::new(),
        })
    }

    /// What is derived from what is held, and the first inclusion to nothing that is violated. It costs one step and
    /// takes no memory. Its time grows with what is derived and where that stands in bodies, and not with the
    /// ontology.
    pub fn close<L: Ledger>(
        &self,
        held: &BasicSet,
        scratch: &mut Scratch,
        steps: &mut Steps<L>,
    ) -> Closed
        requires { IsScratchOf self.now scratch.old }
        ensures closure { IsClosure self.now.inclusions (HasBasic held.now) result }
        ensures scratch { scratch.new ≡ scratch.old }
        ensures cost { steps.new ≡ steps.old + 1 }
    {
        steps.tick();
        let found = closure(
            self.inclusions.as_slice(),
            self.uses.as_slice(),
            held,
            scratch.left.as_mut_slice(),
            &mut scratch.queue,
        );
        Closed {
            derived: found.derived,
            violated: found.violated,
        }
    }
}

/// The names of the book, by their places.
fn copy_names(alloc: Global, book: &NameBook) -> Result<Items<Name>, AllocError>
    ensures { IfOk result (λ names. names ≡ book.now) }
{
    let mut names = Items::new(alloc);
    for id in 0..book.len() as u32 {
        names.push(book.name(id).copy(alloc)?)?;
    }
    Ok(names)
}

/// The same inclusions.
fn copy_all(alloc: Global, inclusions: &[Inclusion]) -> Result<Vec<Inclusion>, AllocError>
    ensures { IfOk result (λ v. v.items ≡ inclusions.now) }
{
    let mut copies = Vec::new(alloc);
    for inclusion in inclusions {
        copies.push(inclusion.copy(alloc)?)?;
    }
    Ok(copies)
}

/// How many members the body of each inclusion has.
fn body_lengths(alloc: Global, inclusions: &[Inclusion]) -> Result<Vec<u32>, AllocError>
    requires { All (IsWithin 512 256) inclusions.now }
    ensures { IfOk result (λ v. v.items ≡ body_lengths inclusions.now) }
{
    let mut lengths = Vec::new(alloc);
    for inclusion in inclusions {
        lengths.push(inclusion.body.items().len() as u32)?;
    }
    Ok(lengths)
}
