//! Which terms are known, and which are to have an element early, as a mark for each.
ghost use Rattle.std.specs.Prelude.{◌≡◌, ◌⊎◌, ◌↔◌, ◌<◌, ℕ, List, All, IfOk, IsTrue, length};
ghost use Rattle.dl_base.specs.declared.query.Term.TheVariants as term;
ghost use Rattle.query_shape.specs.Shape.{IsBelow, IsTermOf};
ghost use Rattle.join_plan.specs.Plans.{IsNameTerm};
ghost use Rattle.join_plan.specs.Choice.{IsMarked};

use dl_base::Term;
use query_shape::{Shape, ShapeAtom};
use std::alloc::{AllocError, Global};

/// A mark for each term, which is set where the term is a name.
pub(crate) fn marked_names(alloc: Global, s: &Shape) -> Result<Vec<bool>, AllocError>
    ensures len { IfOk result (λ known. length known.items ≡ length s.now.terms) }
    ensures each { IfOk result (λ known. (k : ℕ) → IsMarked known.items k ↔ IsNameTerm s.now k) }
{
    let mut known = Vec::with_capacity(alloc, s.terms())?;
    for number in 0..s.terms() {
        known.push(is_named(s.term(number as u32)))?;
    }
    Ok(known)
}

/// A mark for each of so many terms, which is set where the term is among these.
pub(crate) fn marked(alloc: Global, terms: usize, numbers: &[u32]) -> Result<Vec<bool>, AllocError>
    requires { All (λ number. number < terms) numbers.now }
    ensures { IfOk result (λ marks. length marks.items ≡ terms) }
{
    let mut marks = vec![in alloc; false; terms]?;
    for number in numbers {
        marks[*number as usize] = true;
    }
    Ok(marks)
}

/// Whether the term is a name.
fn is_named(t: &Term) -> bool
    ensures { IsTrue result ↔ ((name : List ℕ) × (t.now ≡ term.Named name)) }
{
    matches!(t, Term::Named(_))
}

/// Marks the terms of the atom too.
pub(crate) fn mark(known: &mut [bool], atom: &ShapeAtom)
    requires { IsBelow (length known.old) atom.now }
    ensures len { length known.new ≡ length known.old }
    ensures each { (k : ℕ) → IsMarked known.new k ↔ (IsMarked known.old k ⊎ IsTermOf k atom.now) }
{
    match *atom {
        ShapeAtom::Concept { term, .. } => {
            known[term as usize] = true;
        }
        ShapeAtom::Role { from, to, .. } => {
            known[from as usize] = true;
            known[to as usize] = true;
        }
    }
}
