//! Queries by numbers, with the terms at their answer places.
ghost use Rattle.std.specs.Prelude.{◌≡◌, ◌↔◌, All, Contains, IfOk, IfErr, IsTrue, Some, slice_get};
ghost use Rattle.std.specs.List.{AllZip};
ghost use Rattle.dl_base.specs.declared.query.Term.TheVariants as term;
ghost use Rattle.query_shape.specs.ShapeFault.{IsShapeFault};
ghost use Rattle.answer_core.specs.Binding.{IsBoundTo};

use dl_base::{Items, Name, Ontology, Query, Tables, Term};
use join_plan::{Plan, plan};
use query_shape::{Shape, ShapeError, shape};
use std::alloc::{AllocError, Global};
use std::marker::Model;
use tree_witness::TreeWitnesses;

/// The shape of a query, with the numbers of the terms at its answer places, a plan for the search for its matches, and the
/// tree witnesses by which a match is tested.
#[derive(Debug, Drop)]
pub struct Bound {
    pub(crate) shape: Shape,
    pub(crate) answers: Items<u32>,
    pub(crate) plan: Plan,
    pub(crate) trees: TreeWitnesses,
}

impl Model for Bound {
    ghost use Rattle.answer_core.specs.Binding.{BoundQuery};

    ghost Value = { BoundQuery };

    ghost use Rattle.answer_core.specs.Binding.{IsPlanned};

    ghost view = { λ b. record { shape = b.shape; answers = b.answers } };

    ghost invariant = { λ b. IsPlanned (record { shape = b.shape; answers = b.answers }) b.plan b.trees };
}

/// The query by the numbers of its terms and by the places of the ontology's names, with a plan by the sizes of these tables,
/// in which answer terms come early where that costs no more.
/// `UnknownConcept` and `UnknownRole` tell the name of the first atom whose name the ontology lacks, and come exactly where
/// there is one.
pub fn bind<T: Tables>(alloc: Global, q: &Query, o: &Ontology, t: &T) -> Result<Bound, ShapeError>
    ensures ok { IfOk result (IsBoundTo o.now q.now) }
    ensures err { IfErr result (IsShapeFault o.now q.now) }
{
    let shape = shape(alloc, q, o)?;
    let answers = variable_numbers(alloc, &shape, q.answers())?;
    let plan = plan(alloc, &shape, answers.items(), t)?;
    let trees = TreeWitnesses::build(alloc, &shape)?;
    Ok(Bound {
        shape,
        answers,
        plan,
        trees,
    })
}

/// The numbers of these variables among the terms.
fn variable_numbers(alloc: Global, shape: &Shape, vars: &[Name]) -> Result<Items<u32>, AllocError>
    requires { All (λ v. Contains shape.now.terms (term.Var v)) vars.now }
    ensures { IfOk result (AllZip (λ v n. slice_get shape.now.terms n ≡ Some (term.Var v)) vars.now) }
{
    let mut numbers = Items::new(alloc);
    for var in vars {
        numbers.push(variable_number(shape, var))?;
    }
    Ok(numbers)
}

/// The number of a variable that is among the terms.
fn variable_number(shape: &Shape, var: &Name) -> u32
    requires { Contains shape.now.terms (term.Var var.now) }
    ensures { slice_get shape.now.terms result ≡ Some (term.Var var.now) }
{
    for number in 0..shape.terms() as u32 {
        if is_variable(shape.term(number), var) {
            return number;
        }
    }
    unreachable!()
}

/// Whether the candidate is the variable of this name.
fn is_variable(candidate: &Term, name: &Name) -> bool
    ensures { IsTrue result ↔ (candidate.now ≡ term.Var name.now) }
{
    match candidate {
        Term::Var(known) => known == name,
        Term::Named(_) => false,
    }
}
