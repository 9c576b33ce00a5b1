//! Ontologies: their names and inclusions, within the limits.
ghost use Rattle.std.specs.Prelude.{◌≡◌, ◌≢◌, ◌<◌, ◌≤◌, ◌↔◌, ◌∷◌, [], IfOk, IfErr, OnOk, IsTrue, MatchBool, MatchOption, All, AllPairs, Contains, slice_get, Some, length};
ghost use Rattle.dl_base.specs.Axiom.{Extends, Adds, IsStatement, AddsInclusions, AreNamed, IsNamed, Numbers, NumbersInclusion, with_names};
ghost use Rattle.dl_base.specs.Numbers.{IsNamedBy, IsPlaceOf};
ghost use Rattle.dl_base.specs.Ontology.{IsTerminology};

use crate::{
    Axiom, Basic, Head, Inclusion, Name, NameBook, NamedBasic, NamedHead, NamedInclusion, NamedRow,
    Role,
};
use plain_list::Items;
use std::alloc::{AllocError, Global};
use std::marker::Model;
use thiserror::Error;

/// A limit of an ontology, in the order in which they are tried.
#[derive(Clone, Copy, Debug, PartialEq, Eq)]
pub enum Which {
    /// 8 members in a body.
    Conjuncts,
    /// 512 concept names.
    Concepts,
    /// 256 role names.
    Roles,
    /// 4,096 inclusions.
    Inclusions,
}

/// Why an ontology is not extended.
#[derive(Debug, Drop, Error)]
pub enum ExtendError {
    /// It would pass this limit, and none before it.
    #[error("too many {0:?}")]
    TooMany(Which),
    /// There is no memory left.
    #[error("no memory")]
    NoMemory,
}

/// At most 512 distinct concept names, 256 distinct role names and 4,096 inclusions, each with 1 to 8 members in its
/// body. Contracts see it as these three lists.
#[derive(Drop)]
pub struct Ontology {
    concepts: NameBook,
    roles: NameBook,
    inclusions: Items<Inclusion>,
}

impl Model for Ontology {
    ghost use Rattle.dl_base.specs.Ontology.{Terminology, IsTerminology};

    ghost Value = { Terminology };

    ghost view = { λ o. record { concepts = o.concepts; roles = o.roles; inclusions = o.inclusions } };

    ghost invariant = { λ o. IsTerminology (record { concepts = o.concepts; roles = o.roles; inclusions = o.inclusions }) };
}

impl Ontology {
    /// The ontology without names and inclusions.
    pub fn new(alloc: Global) -> Result<Ontology, AllocError>
        ensures { IfOk result (λ o. o ≡ record { concepts = []; roles = []; inclusions = [] }) }
    {
        Ok(Ontology {
            concepts: NameBook::new(alloc),
            roles: NameBook::new(alloc),
            inclusions: Items::new(alloc),
        })
    }

    /// The concept names. It takes no memory.
    pub fn concepts(&self) -> &NameBook
        ensures names { result.now ≡ self.now.concepts }
        ensures within { IsTerminology self.now }
    {
        &self.concepts
    }

    /// The role names. It takes no memory.
    pub fn roles(&self) -> &NameBook
        ensures names { result.now ≡ self.now.roles }
        ensures within { IsTerminology self.now }
    {
        &self.roles
    }

    /// The place of the row's concept or role; none where the ontology hasn't got it. It takes no memory.
    pub fn place_of(&self, row: &NamedRow) -> Option<u32>
        ensures place { MatchOption result (IsNamedBy self.now row.now → ⊥) (IsPlaceOf self.now row.now) }
        ensures within { IsTerminology self.now }
    {
        match row {
            NamedRow::Concept { concept, .. } => self.concepts.find(concept.bytes()),
            NamedRow::Role { role, .. } => self.roles.find(role.bytes()),
        }
    }

    /// The inclusions, numbered from 1. It takes no memory.
    pub fn inclusions(&self) -> &[Inclusion]
        ensures list { result.now ≡ self.now.inclusions }
        ensures within { IsTerminology self.now }
    {
        self.inclusions.items()
    }
}

impl Ontology {
    /// The ontology with the axiom's new names and its inclusions at the ends of the lists. `TooMany` names the first
    /// limit that would be passed, in the order of `Which`, and comes exactly where one would be.
    pub fn extend(self, alloc: Global, added: &Axiom) -> Result<Ontology, ExtendError>
        ensures { Extends self added.now result }
    {
        let Ontology {
            mut concepts,
            mut roles,
            mut inclusions,
        } = self;
        let done = add_statement(
            alloc,
            &mut concepts,
            &mut roles,
            &mut inclusions,
            added.concepts(),
            added.roles(),
            added.inclusions(),
        );
        match done {
            Ok(()) => Ok(Ontology {
                concepts,
                roles,
                inclusions,
            }),
            Err(error) => Err(error),
        }
    }
}

mod parts;

/// Adds names and inclusions to the three lists of an ontology, or tells the first limit that they pass.
fn add_statement(
    alloc: Global,
    concepts: &mut NameBook,
    roles: &mut NameBook,
    inclusions: &mut Items<Inclusion>,
    concept_names: &[Name],
    role_names: &[Name],
    more: &[NamedInclusion],
) -> Result<(), ExtendError>
    requires old { IsTerminology (record { concepts = concepts.old; roles = roles.old; inclusions = inclusions.old }) }
    requires added { IsStatement (record { concepts = concept_names.now; roles = role_names.now; inclusions = more.now }) }
    ensures { Adds (record { concepts = concepts.old; roles = roles.old; inclusions = inclusions.old })
        (record { concepts = concept_names.now; roles = role_names.now; inclusions = more.now }) result
        (record { concepts = concepts.new; roles = roles.new; inclusions = inclusions.new }) }
{
    if !are_short(more) {
        return Err(ExtendError::TooMany(Which::Conjuncts));
    }
    if !add_names(concepts, concept_names, 512)? {
        return Err(ExtendError::TooMany(Which::Concepts));
    }
    if !add_names(roles, role_names, 256)? {
        return Err(ExtendError::TooMany(Which::Roles));
    }
    if more.len() > 4096 - inclusions.items().len() {
        return Err(ExtendError::TooMany(Which::Inclusions));
    }
    add_inclusions(alloc, concepts, roles, inclusions, more)?;
    Ok(())
}

/// Whether no body has more than 8 members.
fn are_short(inclusions: &[NamedInclusion]) -> bool
    ensures { IsTrue result ↔ All (λ i. length i.body ≤ 8) inclusions.now }
{
    inclusions.iter().all(|i| i.body.items().len() <= 8)
}

/// Adds the new ones of the names, or tells that there are too many.
fn add_names(book: &mut NameBook, names: &[Name], most: usize) -> Result<bool, ExtendError>
    requires few { most < 4000000000 }
    requires within { length book.old ≤ most }
    ensures ok { IfOk result (λ fits. MatchBool fits
        ((book.new ≡ with_names book.old names.now) × (length book.new ≤ most) × AllPairs (λ x y. x ≢ y) book.new)
        (most < length (with_names book.old names.now))) }
    ensures memory { IfErr result (λ e. e ≡ ExtendError.NoMemory) }
{
    for name in names {
        book.intern(name)?;
        if book.len() > most {
            return Ok(false);
        }
    }
    let _ = book.len();
    Ok(true)
}

/// Adds the inclusions by the places of their names.
fn add_inclusions(
    alloc: Global,
    concepts: &NameBook,
    roles: &NameBook,
    inclusions: &mut Items<Inclusion>,
    more: &[NamedInclusion],
) -> Result<(), AllocError>
    requires { All (AreNamed concepts.now roles.now) more.now }
    ensures { OnOk result (AddsInclusions concepts.now roles.now inclusions.old more.now inclusions.new) }
{
    for inclusion in more {
        inclusions.push(numbered(alloc, concepts, roles, inclusion)?)?;
    }
    Ok(())
}

/// The inclusion by the places of its names.
fn numbered(
    alloc: Global,
    concepts: &NameBook,
    roles: &NameBook,
    inclusion: &NamedInclusion,
) -> Result<Inclusion, AllocError>
    requires { AreNamed concepts.now roles.now inclusion.now }
    ensures { IfOk result (NumbersInclusion concepts.now roles.now inclusion.now) }
{
    let mut body = Items::new(alloc);
    for b in inclusion.body.items() {
        body.push(numbered_basic(concepts, roles, b))?;
    }
    let head = match &inclusion.head {
        NamedHead::Basic(b) => Head::Basic(numbered_basic(concepts, roles, b)),
        NamedHead::Nothing => Head::Nothing,
    };
    Ok(Inclusion { body, head })
}

/// The basic concept by the place of its name.
fn numbered_basic(concepts: &NameBook, roles: &NameBook, b: &NamedBasic) -> Basic
    requires { IsNamed concepts.now roles.now b.now }
    ensures { Numbers concepts.now roles.now b.now result }
{
    match b {
        NamedBasic::Concept(name) => Basic::Concept(known(concepts, name)),
        NamedBasic::Exists(r) => Basic::Exists(Role {
            name: known(roles, &r.name),
            inverse: r.inverse,
        }),
    }
}

/// The place of a name that is in the book.
fn known(book: &NameBook, name: &Name) -> u32
    requires { Contains book.now name.now }
    ensures { slice_get book.now result ≡ Some name.now }
{
    match book.find(name.bytes()) {
        Some(id) => id,
        None => unreachable!(),
    }
}

impl From<AllocError> for ExtendError {
    ghost use Rattle.std.specs.Prelude.{◌≡◌};
    ghost use Rattle.dl_base.specs.declared.ontology.ExtendError.TheVariants.{NoMemory};

    ghost from_gives = { λ _ e. e ≡ NoMemory };

    fn from(_error: AllocError) -> ExtendError {
        ExtendError::NoMemory
    }
}
