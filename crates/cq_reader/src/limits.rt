//! The distinct terms of a query, and its answer variables that are in no atom.

ghost use Rattle.std.specs.Prelude.{◌≡◌, ◌↔◌, IfOk, IsTrue, All, Contains, HoldsAt, ◌++◌, ◌∷◌, [], length, ◌<◌, MatchOption, take, List, flat_map};
ghost use Rattle.dl_base.specs.Query.{terms_of};
ghost use Rattle.dl_base.specs.declared.query.Term.{Term};
ghost use Rattle.dl_base.specs.declared.query.Term.TheVariants.{Var};
ghost use Rattle.cq_reader.specs.QueryLimits.{AreDistinctOf};

use dl_base::{Atom, Name, Term};
use plain_list::Items;
use std::alloc::{AllocError, Global};

/// Whether the term is one of these.
fn has_term(terms: &[Term], term: &Term) -> bool
    ensures { IsTrue result ↔ Contains terms.now term.now }
{
    terms.iter().any(|other| other == term)
}

/// Appends the term where the list lacks it.
fn add_term(alloc: Global, found: &mut Items<Term>, term: &Term) -> Result<(), AllocError>
    ensures { IfOk result (λ _. (all : List Term) → AreDistinctOf all found.old → AreDistinctOf (all ++ term.now ∷ []) found.new) }
{
    if has_term(found.items(), term) {
        return Ok(());
    }
    found.push(term.copy(alloc)?)?;
    Ok(())
}

/// Appends the terms of the atom that the list lacks.
#[tactic(auto, using(crate::proofs::LimitRules::adding))]
fn add_terms(alloc: Global, found: &mut Items<Term>, atom: &Atom) -> Result<(), AllocError>
    ensures { IfOk result (λ _. (all : List Term) → AreDistinctOf all found.old → AreDistinctOf (all ++ terms_of atom.now) found.new) }
{
    match atom {
        Atom::Concept { term, .. } => add_term(alloc, found, term),
        Atom::Role { from, to, .. } => {
            add_term(alloc, found, from)?;
            add_term(alloc, found, to)
        }
    }
}

/// The distinct terms of the atoms, in order of the first time that each of them stands there.
#[tactic(auto, using(crate::proofs::LimitRules::adding))]
pub fn distinct_terms(alloc: Global, atoms: &[Atom]) -> Result<Items<Term>, AllocError>
    ensures { IfOk result (λ found. AreDistinctOf (flat_map terms_of atoms.now) found) }
{
    let mut found = Items::new(alloc);
    for atom in atoms {
        add_terms(alloc, &mut found, atom)?;
    }
    Ok(found)
}

/// Whether the variable is one of these terms.
fn is_bound(terms: &[Term], var: &Name) -> bool
    ensures { IsTrue result ↔ Contains terms.now (Var var.now) }
{
    terms.iter().any(|term| match term {
        Term::Var(other) => other == var,
        Term::Named(_) => false,
    })
}

/// The first place whose variable is none of these terms.
pub fn first_unbound(answers: &[Name], terms: &[Term]) -> Option<usize>
    ensures { MatchOption result (All (λ v. Contains terms.now (Var v)) answers.now)
        (λ i. (i < length answers.now) × All (λ v. Contains terms.now (Var v)) (take i answers.now) × HoldsAt (λ v. Contains terms.now (Var v) → ⊥) answers.now i) }
{
    for (place, var) in answers.iter().enumerate() {
        if !is_bound(terms, var) {
            return Some(place);
        }
    }
    None
}
