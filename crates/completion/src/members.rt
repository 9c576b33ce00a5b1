//! Elements in order.
ghost use Rattle.std.specs.Prelude.{◌≡◌, ◌↔◌, IsTrue, Contains};
ghost use Rattle.std.specs.Ordering.{nat_cmp};
ghost use Rattle.completion.specs.Members.{AreMembers, IsFirstPast, is_number_passed, is_witness_passed, members_of};
ghost use Rattle.dl_base.specs.Tables.{AreCounted, IsLeastAbove, witness_cmp};
ghost use Rattle.std.specs.List.Sorted.{IsStrictlySortedBy};

use crate::search::first_near;
use dl_base::{Elem, Hint, Witness};
use std::marker::Model;

/// Elements, each once: individuals by their numbers, then witnesses. Contracts see it as the rising list of them.
#[derive(Drop)]
pub(crate) struct Members {
    individuals: Vec<u32>,
    witnesses: Vec<Witness>,
}

impl Model for Members {
    ghost use Rattle.std.specs.Prelude.{List};
    ghost use Rattle.dl_base.specs.declared.element.Elem.{Elem as AnyElem};
    ghost use Rattle.completion.specs.Members.{members_of, AreMembers};

    ghost Value = { List AnyElem };

    ghost view = { λ m. members_of m.individuals.items m.witnesses.items };

    ghost invariant = { λ m. AreMembers m.individuals.items m.witnesses.items };
}

impl Members {
    /// These individuals and witnesses, which come in order.
    pub(crate) fn new(individuals: Vec<u32>, witnesses: Vec<Witness>) -> Members
        requires { AreMembers individuals.items witnesses.items }
        ensures { result ≡ members_of individuals.items witnesses.items }
    {
        Members {
            individuals,
            witnesses,
        }
    }

    /// Whether the element is there.
    pub(crate) fn has(&self, e: Elem) -> bool
        ensures { IsTrue result ↔ Contains self.now e }
    {
        match e {
            Elem::Named(individual) => has_number(self.individuals.as_slice(), individual),
            Elem::Shared(witness) => has_witness(self.witnesses.as_slice(), witness),
        }
    }

    /// The least element above `after`, or of all, with a look at the hint first. It counts the individuals, then the
    /// witnesses.
    pub(crate) fn next_near(&self, after: Option<Elem>, hint: &mut Hint) -> Option<Elem>
        ensures { IsLeastAbove (Contains self.now) after result }
    {
        let individuals = self.individuals.len();
        let mut behind = Hint {
            place: hint.place.saturating_sub(individuals),
        };
        match next_number(self.individuals.as_slice(), after, hint) {
            Some(individual) => Some(Elem::Named(individual)),
            None => {
                let witness = next_witness(self.witnesses.as_slice(), after, &mut behind);
                hint.place = individuals.saturating_add(behind.place);
                match witness {
                    Some(witness) => Some(Elem::Shared(witness)),
                    None => None,
                }
            }
        }
    }

    /// How many elements there are.
    pub(crate) fn count(&self) -> u64
        ensures { AreCounted (Contains self.now) result }
    {
        self.individuals.len() as u64 + self.witnesses.len() as u64
    }
}

fn has_number(individuals: &[u32], individual: u32) -> bool
    requires { IsStrictlySortedBy nat_cmp individuals.now }
    ensures { IsTrue result ↔ Contains individuals.now individual }
{
    individuals.binary_search(&individual).is_ok()
}

fn has_witness(witnesses: &[Witness], witness: Witness) -> bool
    requires { IsStrictlySortedBy witness_cmp witnesses.now }
    ensures { IsTrue result ↔ Contains witnesses.now witness }
{
    witnesses.binary_search(&witness).is_ok()
}

/// The first of the individuals that is above `after`.
fn next_number(individuals: &[u32], after: Option<Elem>, hint: &mut Hint) -> Option<u32>
    requires { IsStrictlySortedBy nat_cmp individuals.now }
    ensures { IsFirstPast nat_cmp (is_number_passed after) individuals.now result }
{
    first_near(individuals, hint, |n| is_number_passed(*n, after))
}

/// The first of the witnesses that is above `after`.
fn next_witness(witnesses: &[Witness], after: Option<Elem>, hint: &mut Hint) -> Option<Witness>
    requires { IsStrictlySortedBy witness_cmp witnesses.now }
    ensures { IsFirstPast witness_cmp (is_witness_passed after) witnesses.now result }
{
    first_near(witnesses, hint, |w| is_witness_passed(*w, after))
}

/// Whether the individual isn't above the element.
fn is_number_passed(individual: u32, after: Option<Elem>) -> bool
    ensures { result ≡ is_number_passed after individual }
{
    match after {
        None => false,
        Some(Elem::Named(number)) => !(number < individual),
        Some(Elem::Shared(_)) => true,
    }
}

/// Whether the witness isn't above the element.
fn is_witness_passed(witness: Witness, after: Option<Elem>) -> bool
    ensures { result ≡ is_witness_passed after witness }
{
    match after {
        None => false,
        Some(Elem::Named(_)) => false,
        Some(Elem::Shared(other)) => !(other < witness),
    }
}
