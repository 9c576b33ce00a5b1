//! The numbers of individuals by a book and by the newcomers behind it.
ghost use Rattle.std.specs.Prelude.{◌≡◌, ◌≢◌, ◌<◌, ◌≤◌, ◌+◌, ◌++◌, AllPairs, Contains, IfOk, MatchOption, OnOk, Some, length, slice_get};
ghost use Rattle.dl_base.specs.Axiom.{with_names};
ghost use Rattle.dl_base.specs.Book.{Interns};
ghost use Rattle.dl_base.specs.Numbers.{IsPlaceOf, NumbersRow, names_in};
ghost use Rattle.dl_base.specs.Ontology.{Terminology};
ghost use Rattle.dl_base.specs.declared.row.Row.{Row as AnyRow};

use dl_base::{Name, NameBook, NamedRow, Row};
use std::alloc::AllocError;

/// The row by numbers, of which individuals that neither has get the next ones.
pub(crate) fn number(
    place: u32,
    individuals: &NameBook,
    newcomers: &mut NameBook,
    row: &NamedRow,
) -> Result<Row, AllocError>
    requires room { length individuals.now + length newcomers.old ≤ 3900000000 }
    requires distinct { AllPairs (λ x y. x ≢ y) (individuals.now ++ newcomers.old) }
    ensures names { OnOk result (individuals.now ++ newcomers.new ≡ with_names (individuals.now ++ newcomers.old) (names_in row.now)) }
    ensures few { OnOk result (length newcomers.new ≤ 2 + length newcomers.old) }
    ensures distinct { OnOk result (AllPairs (λ x y. x ≢ y) (individuals.now ++ newcomers.new)) }
    ensures numbers { (o : Terminology) → IsPlaceOf o row.now place → IfOk result (NumbersRow o (individuals.now ++ newcomers.new) row.now) }
{
    match row {
        NamedRow::Concept { individual, .. } => Ok(Row::Concept {
            concept: place,
            individual: intern(individuals, newcomers, individual)?,
        }),
        NamedRow::Role { from, to, .. } => Ok(Row::Role {
            role: place,
            from: intern(individuals, newcomers, from)?,
            to: intern(individuals, newcomers, to)?,
        }),
    }
}

/// The row by numbers, where its individuals have some.
pub(crate) fn known(
    place: u32,
    individuals: &NameBook,
    newcomers: &NameBook,
    row: &NamedRow,
) -> Option<Row>
    requires room { length individuals.now + length newcomers.now ≤ 3900000000 }
    ensures { (o : Terminology) → IsPlaceOf o row.now place → MatchOption result
        ((n : AnyRow) → NumbersRow o (individuals.now ++ newcomers.now) row.now n → ⊥)
        (λ n. NumbersRow o (individuals.now ++ newcomers.now) row.now n) }
{
    match row {
        NamedRow::Concept { individual, .. } => Some(Row::Concept {
            concept: place,
            individual: find(individuals, newcomers, individual)?,
        }),
        NamedRow::Role { from, to, .. } => Some(Row::Role {
            role: place,
            from: find(individuals, newcomers, from)?,
            to: find(individuals, newcomers, to)?,
        }),
    }
}

/// The number of the individual, where it has one.
fn find(individuals: &NameBook, newcomers: &NameBook, name: &Name) -> Option<u32>
    requires { length individuals.now + length newcomers.now ≤ 4000000000 }
    ensures { MatchOption result
        (Contains (individuals.now ++ newcomers.now) name.now → ⊥)
        (λ n. slice_get (individuals.now ++ newcomers.now) n ≡ Some name.now) }
{
    match individuals.find(name.bytes()) {
        Some(number) => Some(number),
        None => {
            let behind = newcomers.find(name.bytes())?;
            Some(individuals.len() as u32 + behind)
        }
    }
}

/// The number of the individual, which goes behind the newcomers where it has none.
fn intern(individuals: &NameBook, newcomers: &mut NameBook, name: &Name) -> Result<u32, AllocError>
    requires room { length individuals.now + length newcomers.old < 4000000000 }
    requires distinct { AllPairs (λ x y. x ≢ y) (individuals.now ++ newcomers.old) }
    ensures interns { IfOk result (Interns (individuals.now ++ newcomers.old) name.now (individuals.now ++ newcomers.new)) }
    ensures few { OnOk result (length newcomers.new ≤ 1 + length newcomers.old) }
    ensures distinct { OnOk result (AllPairs (λ x y. x ≢ y) (individuals.now ++ newcomers.new)) }
{
    match individuals.find(name.bytes()) {
        Some(number) => Ok(number),
        None => {
            let behind = newcomers.intern(name)?;
            Ok(individuals.len() as u32 + behind)
        }
    }
}

/// Adds the newcomers to the book, each at its number. After `AllocError` the book has some of them.
pub fn take_newcomers(individuals: &mut NameBook, newcomers: &NameBook) -> Result<(), AllocError>
    requires room { length individuals.old + length newcomers.now < 4000000000 }
    requires distinct { AllPairs (λ x y. x ≢ y) (individuals.old ++ newcomers.now) }
    ensures { OnOk result (individuals.new ≡ individuals.old ++ newcomers.now) }
{
    for number in 0..newcomers.len() {
        individuals.intern(newcomers.name(number as u32))?;
    }
    Ok(())
}
