//! The choice of an order, one atom after another.
ghost use Rattle.std.specs.Prelude.{◌<◌, All, IfOk, length};
ghost use Rattle.join_plan.specs.Plans.{BeginsLeast, IsPlanOf};

use crate::candidates::candidates;
use crate::known::{mark, marked, marked_names};
use crate::offers::cheapest;
use crate::steps::{Plan, Step};
use dl_base::{Items, Tables};
use query_shape::Shape;
use std::alloc::{AllocError, Global};

/// An order of the shape's atoms, and a path for each. What is cheapest comes first: a look at known terms, then a walk
/// along a role from a known term, and where no atom has a known term, a scan of the fewest elements. Names are known from
/// the start. Among paths that cost as much, one that gives an element to one of the terms `early` comes first; no contract sees
/// this. The tables are asked for one or two counts for each atom.
pub fn plan<T: Tables>(alloc: Global, s: &Shape, early: &[u32], t: &T) -> Result<Plan, AllocError>
    requires { All (λ number. number < length s.now.terms) early.now }
    ensures plan { IfOk result (IsPlanOf s.now) }
    ensures least { IfOk result (BeginsLeast (T.rows t.now) s.now) }
{
    let mut known = marked_names(alloc, s)?;
    let early = marked(alloc, s.terms(), early)?;
    let mut left = candidates(alloc, s.atoms(), t)?;
    let mut steps = Vec::with_capacity(alloc, left.len())?;
    while !left.is_empty() {
        let choice = cheapest(left.as_slice(), known.as_slice(), early.as_slice());
        let chosen = left.remove(choice.index);
        mark(known.as_mut_slice(), &chosen.atom);
        steps.push(Step {
            atom: chosen.place,
            path: choice.offer.path,
        })?;
    }
    Ok(Plan {
        steps: Items::from_vec(steps),
    })
}
