//! The terms of a query that are names.
ghost use Rattle.std.specs.Prelude.{◌≡◌, ◌↔◌, ℕ, List, Contains, IfOk, IsTrue};
ghost use Rattle.std.specs.List.{AllZip};
ghost use Rattle.dl_base.specs.declared.query.Term.TheVariants as term;
ghost use Rattle.answer_core.specs.Binding.{IsFixedTerm, IsKnownTerm};

use dl_base::{NameBook, Term};
use query_shape::Shape;
use std::alloc::{AllocError, Global};

/// Whether each term that is a name is in the book.
pub(crate) fn has_names(individuals: &NameBook, shape: &Shape) -> bool
    ensures { IsTrue result ↔ ((a : List ℕ) → Contains shape.now.terms (term.Named a) → Contains individuals.now a) }
{
    for number in 0..shape.terms() as u32 {
        if !has_name(individuals, shape.term(number)) {
            return false;
        }
    }
    true
}

/// Whether the term is a variable, or a name that is in the book.
fn has_name(individuals: &NameBook, term: &Term) -> bool
    ensures { IsTrue result ↔ IsKnownTerm individuals.now term.now }
{
    match term {
        Term::Var(_) => true,
        Term::Named(name) => individuals.find(name.bytes()).is_some(),
    }
}

/// The number of each term that is a name, in order of the terms.
pub(crate) fn fixed_numbers(
    alloc: Global,
    individuals: &NameBook,
    shape: &Shape,
) -> Result<Vec<Option<u32>>, AllocError>
    ensures { IfOk result (λ fixed. AllZip (IsFixedTerm individuals.now) shape.now.terms fixed.items) }
{
    let mut fixed = Vec::new(alloc);
    for number in 0..shape.terms() as u32 {
        fixed.push(fixed_number(individuals, shape.term(number)))?;
    }
    Ok(fixed)
}

/// The number of a term that is a name.
fn fixed_number(individuals: &NameBook, term: &Term) -> Option<u32>
    ensures { IsFixedTerm individuals.now term.now result }
{
    match term {
        Term::Var(_) => None,
        Term::Named(name) => individuals.find(name.bytes()),
    }
}
