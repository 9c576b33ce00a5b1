//! Plans beside the orders that a small table has by hand.
ghost use Rattle.std.specs.Prelude.{◌<◌, All, length};

use crate::{AccessPath, Step, plan};
use cq_reader::read_query;
use dl_base::{Axiom, Elem, Items, Name, Names, Ontology};
use listed_tables::{ListedRow, ListedTables};
use query_shape::{Shape, shape};
use std::alloc::{AllocError, Global};
use std::process::Abort;
use std::test::Fail;

/// A(1), A(2), A(3), B(1), r(1,2), r(1,3), s(1,5), s(2,5), s(3,5).
const CONCEPTS: [(u32, u32); 4] = [(0, 1), (0, 2), (0, 3), (1, 1)];

const ROLES: [(u32, u32, u32); 5] = [(0, 1, 2), (0, 1, 3), (1, 1, 5), (1, 2, 5), (1, 3, 5)];

/// What is done with an atom when its turn comes.
#[derive(Clone, Copy, Debug, PartialEq, Eq)]
enum Turn {
    Scan,
    Probe,
    Walk,
    Check,
}

/// The place of an atom, what is done with it, and from which term to which.
type Told = (usize, Turn, u32, u32);

/// A query, and its atoms in the order in which they have their turns.
const ORDERS: [(&[u8], &[Told]); 11] = [
    (
        b"q(?x) :- A(?x), A(?y), B(?x)",
        &[
            (2, Turn::Scan, 0, 0),
            (0, Turn::Probe, 0, 0),
            (1, Turn::Scan, 1, 1),
        ],
    ),
    (
        b"q(?x) :- r(?x, ?y), r(?y, c)",
        &[(1, Turn::Walk, 2, 1), (0, Turn::Walk, 1, 0)],
    ),
    (
        b"q() :- A(?z), r(?x, ?y), A(?x), B(?u), A(?u)",
        &[
            (1, Turn::Scan, 1, 2),
            (2, Turn::Probe, 1, 1),
            (3, Turn::Scan, 3, 3),
            (4, Turn::Probe, 3, 3),
            (0, Turn::Scan, 0, 0),
        ],
    ),
    (
        b"q() :- r(?x, ?y), r(?y, ?z), r(?z, ?x)",
        &[
            (0, Turn::Scan, 0, 1),
            (2, Turn::Walk, 0, 2),
            (1, Turn::Check, 1, 2),
        ],
    ),
    (
        b"q() :- A(?x), A(?x)",
        &[(0, Turn::Scan, 0, 0), (1, Turn::Probe, 0, 0)],
    ),
    (b"q() :- r(?x, ?x)", &[(0, Turn::Scan, 0, 0)]),
    (b"q() :- r(c, c)", &[(0, Turn::Check, 0, 0)]),
    (
        b"q() :- B(?x), r(?x, ?x)",
        &[(0, Turn::Scan, 0, 0), (1, Turn::Check, 0, 0)],
    ),
    (b"q() :- s(?x, ?y)", &[(0, Turn::Scan, 1, 0)]),
    (
        b"q() :- A(?x), A(c), r(c, d)",
        &[
            (2, Turn::Check, 1, 2),
            (1, Turn::Probe, 1, 1),
            (0, Turn::Scan, 0, 0),
        ],
    ),
    (
        b"q() :- r(c, ?x), s(c, ?y)",
        &[(1, Turn::Walk, 0, 2), (0, Turn::Walk, 0, 1)],
    ),
];

/// A query, a term that is to have an element early, and its atoms in the order in which they have their turns.
const EARLY: [(&[u8], u32, &[Told]); 4] = [
    (
        b"q() :- A(?x), A(?y)",
        1,
        &[(1, Turn::Scan, 1, 1), (0, Turn::Scan, 0, 0)],
    ),
    (
        b"q() :- r(c, ?x), r(c, ?y)",
        2,
        &[(1, Turn::Walk, 0, 2), (0, Turn::Walk, 0, 1)],
    ),
    (
        b"q() :- A(?x), B(?y)",
        0,
        &[(1, Turn::Scan, 1, 1), (0, Turn::Scan, 0, 0)],
    ),
    (b"q() :- s(?x, ?y)", 0, &[(0, Turn::Scan, 1, 0)]),
];

fn tables(alloc: Global) -> Result<ListedTables, AllocError> {
    let mut rows = Vec::new(alloc);
    for (concept, individual) in CONCEPTS {
        rows.push(ListedRow::Concept {
            concept,
            element: Elem::Named(individual),
        })?;
    }
    for (role, from, to) in ROLES {
        rows.push(ListedRow::Role {
            role,
            from: Elem::Named(from),
            to: Elem::Named(to),
        })?;
    }
    Ok(ListedTables::new(rows))
}

fn names(alloc: Global, first: &[u8], second: &[u8]) -> Result<Names, Fail> {
    let mut names = Items::new(alloc);
    names.push(Name::new(alloc, first)?)?;
    names.push(Name::new(alloc, second)?)?;
    Ok(names)
}

fn ontology(alloc: Global) -> Result<Ontology, Fail> {
    let axiom = Axiom::new(
        names(alloc, b"A", b"B")?,
        names(alloc, b"r", b"s")?,
        Items::new(alloc),
    );
    Ok(Ontology::new(alloc)?.extend(alloc, &axiom)?)
}

fn shape_of(alloc: Global, o: &Ontology, text: &[u8]) -> Result<Shape, Fail> {
    let query = read_query(alloc, text)?;
    Ok(shape(alloc, &query, o)?)
}

fn told(step: &Step) -> Told {
    match step.path {
        AccessPath::ScanConcept { term, .. } => (step.atom, Turn::Scan, term, term),
        AccessPath::ProbeConcept { term, .. } => (step.atom, Turn::Probe, term, term),
        AccessPath::ScanRole { from, to, .. } => (step.atom, Turn::Scan, from, to),
        AccessPath::WalkEdges { from, to, .. } => (step.atom, Turn::Walk, from, to),
        AccessPath::CheckPair { from, to, .. } => (step.atom, Turn::Check, from, to),
    }
}

fn order(alloc: Global, s: &Shape, early: &[u32], t: &ListedTables) -> Result<Vec<Told>, AllocError>
    requires { All (λ number. number < length s.now.terms) early.now }
{
    let mut order = Vec::new(alloc);
    for step in plan(alloc, s, early, t)?.steps() {
        order.push(told(step))?;
    }
    Ok(order)
}

fn assert_order(
    rt: &impl Abort,
    alloc: Global,
    s: &Shape,
    early: Option<u32>,
    t: &ListedTables,
    wanted: &[Told],
) -> Result<(), AllocError> {
    let found = match early {
        Some(number) => {
            assert!(rt; (number as usize) < s.terms());
            order(alloc, s, &[number], t)?
        }
        None => order(alloc, s, &[], t)?,
    };
    assert_eq!(rt; found.as_slice(), wanted);
    Ok(())
}

#[test]
fn what_is_cheapest_comes_first(rt: HostRuntime) -> Result<(), Fail> {
    let t = tables(rt.alloc())?;
    let o = ontology(rt.alloc())?;
    for (text, wanted) in ORDERS {
        let s = shape_of(rt.alloc(), &o, text)?;
        assert_order(&rt, rt.alloc(), &s, None, &t, wanted)?;
    }
    Ok(())
}

#[test]
fn what_is_to_come_early_breaks_ties(rt: HostRuntime) -> Result<(), Fail> {
    let t = tables(rt.alloc())?;
    let o = ontology(rt.alloc())?;
    for (text, early, wanted) in EARLY {
        let s = shape_of(rt.alloc(), &o, text)?;
        assert_order(&rt, rt.alloc(), &s, Some(early), &t, wanted)?;
    }
    Ok(())
}
