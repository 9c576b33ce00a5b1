//! Matches beside those that a small table has by hand.
ghost use Rattle.std.specs.Prelude.{◌≡◌, ◌≤◌, ◌<◌, length};

use crate::Matches;
use cq_reader::read_query;
use dl_base::{Axiom, Elem, Items, Name, Names, Ontology, Role, Witness};
use join_plan::plan;
use listed_tables::{ListedRow, ListedTables};
use match_filter::lifts;
use query_shape::{Shape, shape};
use std::alloc::{AllocError, Global};
use std::process::Abort;
use std::test::Fail;
use tree_witness::TreeWitnesses;

/// A(1), A(2), A(4), B(3), r(1,1), r(1,2), r(2,3), r(3,1), r(4,4), s(2,5), s(2,6).
const CONCEPTS: [(u32, u32); 4] = [(0, 1), (0, 2), (0, 4), (1, 3)];

const ROLES: [(u32, u32, u32); 7] = [
    (0, 1, 1),
    (0, 1, 2),
    (0, 2, 3),
    (0, 3, 1),
    (0, 4, 4),
    (1, 2, 5),
    (1, 2, 6),
];

/// A query, the numbers of its fixed terms, and the images of its matches, one match behind another.
const MATCHES: [(&[u8], &[Option<u32>], &[u32]); 12] = [
    (b"q() :- r(?x, ?x)", &[None], &[1, 4]),
    (b"q() :- A(?x), A(?x)", &[None], &[1, 2, 4]),
    (
        b"q() :- r(?x, ?y), r(?y, ?z), r(?z, ?x)",
        &[None, None, None],
        &[1, 1, 1, 1, 2, 3, 2, 3, 1, 3, 1, 2, 4, 4, 4],
    ),
    (
        b"q() :- A(?x), r(?x, ?y), s(?x, ?z)",
        &[None, None, None],
        &[2, 3, 5, 2, 3, 6],
    ),
    (
        b"q() :- B(?x), s(?y, ?z)",
        &[None, None, None],
        &[3, 2, 5, 3, 2, 6],
    ),
    (
        b"q() :- s(?x, ?y), r(?z, ?x)",
        &[None, None, None],
        &[2, 5, 1, 2, 6, 1],
    ),
    (b"q() :- r(?x, c)", &[None, Some(3)], &[2, 3]),
    (b"q() :- r(c, ?x)", &[Some(1), None], &[1, 1, 1, 2]),
    (b"q() :- r(c, d)", &[Some(2), Some(3)], &[2, 3]),
    (b"q() :- r(c, d)", &[Some(3), Some(2)], &[]),
    (b"q() :- A(c)", &[Some(9)], &[]),
    (b"q() :- A(?x), B(?x)", &[None], &[]),
];

/// A query, the numbers of its fixed terms, so many levels, and the images of its matches where behind each one those that
/// agree with it on so many first levels are skipped.
const SKIPS: [(&[u8], &[Option<u32>], usize, &[u32]); 7] = [
    (b"q() :- r(?x, ?y)", &[None, None], 0, &[1, 1]),
    (
        b"q() :- r(?x, ?y)",
        &[None, None],
        1,
        &[1, 1, 2, 3, 3, 1, 4, 4],
    ),
    (
        b"q() :- r(?x, ?y)",
        &[None, None],
        2,
        &[1, 1, 1, 2, 2, 3, 3, 1, 4, 4],
    ),
    (b"q() :- s(?x, ?y)", &[None, None], 9, &[2, 5, 2, 6]),
    (
        b"q() :- A(?x), r(?x, ?y), s(?x, ?z)",
        &[None, None, None],
        2,
        &[2, 3, 5, 2, 3, 6],
    ),
    (
        b"q() :- A(?x), r(?x, ?y), s(?x, ?z)",
        &[None, None, None],
        1,
        &[2, 3, 5],
    ),
    (b"q() :- r(c, ?x)", &[Some(1), None], 1, &[1, 1]),
];

fn tables(alloc: Global) -> Result<ListedTables, AllocError> {
    let mut rows = Vec::new(alloc);
    for (concept, individual) in CONCEPTS {
        rows.push(ListedRow::Concept {
            concept,
            element: Elem::Named(individual),
        })?;
    }
    for (role, from, to) in ROLES {
        rows.push(ListedRow::Role {
            role,
            from: Elem::Named(from),
            to: Elem::Named(to),
        })?;
    }
    Ok(ListedTables::new(rows))
}

fn names(alloc: Global, first: &[u8], second: &[u8]) -> Result<Names, Fail> {
    let mut names = Items::new(alloc);
    names.push(Name::new(alloc, first)?)?;
    names.push(Name::new(alloc, second)?)?;
    Ok(names)
}

fn ontology(alloc: Global) -> Result<Ontology, Fail> {
    let axiom = Axiom::new(
        names(alloc, b"A", b"B")?,
        names(alloc, b"r", b"s")?,
        Items::new(alloc),
    );
    Ok(Ontology::new(alloc)?.extend(alloc, &axiom)?)
}

/// The number of an individual, and of a witness one that no individual has here.
fn number(e: &Elem) -> u32 {
    match *e {
        Elem::Named(individual) => individual,
        Elem::Shared(_) => 99,
    }
}

/// Of the first role, which is not inverted.
const WITNESS: Elem = Elem::Shared(Witness {
    role: Role {
        name: 0,
        inverse: false,
    },
    generation: 1,
});

/// A query, and how many matches a search gives that knows the trees, where twelve individuals share a witness of the first
/// role.
const BY_TREES: [(&[u8], &[Option<u32>], usize); 6] = [
    (b"q() :- r(?x, ?z), r(?y, ?z)", &[None, None, None], 12),
    (b"q() :- r(?y, ?z), r(?x, ?z)", &[None, None, None], 12),
    (
        b"q() :- r(?x, ?z), r(?y, ?z), r(?v, ?z), r(?w, ?z)",
        &[None, None, None, None, None],
        12,
    ),
    (b"q() :- r(c, ?z), r(?y, ?z)", &[Some(3), None, None], 1),
    (b"q() :- r(c, ?z), r(d, ?z)", &[Some(3), Some(4), None], 0),
    (
        b"q() :- r(?x, ?z), r(?y, ?v)",
        &[None, None, None, None],
        144,
    ),
];

/// Tables in which the first role leads from twelve individuals to its witness.
fn sharing_tables(alloc: Global) -> Result<ListedTables, AllocError> {
    let mut rows = Vec::new(alloc);
    for individual in 0..12 {
        rows.push(ListedRow::Role {
            role: 0,
            from: Elem::Named(individual),
            to: WITNESS,
        })?;
    }
    Ok(ListedTables::new(rows))
}

/// How many matches the search gives that knows the trees of the shape; at most 200.
fn count_by_trees(
    alloc: Global,
    t: &ListedTables,
    s: &Shape,
    fixed: &[Option<u32>],
) -> Result<usize, AllocError>
    requires { length fixed.now ≡ length s.now.terms }
{
    let p = plan(alloc, s, &[], t)?;
    let trees = TreeWitnesses::build(alloc, s)?;
    let mut matches = Matches::with_trees(alloc, s, &p, fixed, &trees)?;
    for count in 0..200 {
        if !matches.advance(t) {
            return Ok(count);
        }
    }
    Ok(200)
}

/// Individuals 0, 1 and 2, where the second and the third are A: what follows of r(0,1) by A ⊑ ∃r, ∃r⁻ ⊑ ∃s and ∃s⁻ ⊑ ∃r⁻. So the
/// witness of s leads to itself by s, and the witness of the inverse of r leads to it by r.
const FOLLOWS: [(u32, Elem, Elem); 7] = [
    (0, Elem::Named(0), Elem::Named(1)),
    (0, Elem::Named(1), WITNESS),
    (0, Elem::Named(2), WITNESS),
    (0, WITNESS_BACK, WITNESS_OF_S),
    (1, Elem::Named(1), WITNESS_OF_S),
    (1, WITNESS, WITNESS_OF_S),
    (1, WITNESS_OF_S, WITNESS_OF_S),
];

const WITNESS_BACK: Elem = Elem::Shared(Witness {
    role: Role {
        name: 0,
        inverse: true,
    },
    generation: 1,
});

const WITNESS_OF_S: Elem = Elem::Shared(Witness {
    role: Role {
        name: 1,
        inverse: false,
    },
    generation: 1,
});

const ROLE_TEXTS: [&[u8]; 2] = [b"r(", b"s("];

const VARIABLES: [&[u8]; 4] = [b"?a", b"?b", b"?c", b"?d"];

/// The images of up to 20 matches in rising order, one match behind another. Where `skip` is given, those that agree with
/// a match on so many first levels are skipped.
fn found(
    alloc: Global,
    t: &ListedTables,
    s: &Shape,
    fixed: &[Option<u32>],
    skip: Option<usize>,
) -> Result<Vec<u32>, AllocError>
    requires { length fixed.now ≡ length s.now.terms }
{
    let p = plan(alloc, s, &[], t)?;
    let mut matches = Matches::new(alloc, s, &p, fixed)?;
    let mut lists = Vec::new(alloc);
    for _ in 0..20 {
        if !matches.advance(t) {
            break;
        }
        lists.push(numbers(alloc, matches.images())?)?;
        if let Some(levels) = skip {
            matches.skip_agreeing(levels);
        }
    }
    lists.sort()?;
    let mut flat = Vec::new(alloc);
    for list in &lists {
        flat.extend_from_slice(list.as_slice())?;
    }
    Ok(flat)
}

fn numbers(alloc: Global, images: &[Elem]) -> Result<Vec<u32>, AllocError> {
    let mut numbers = Vec::with_capacity(alloc, images.len())?;
    for e in images {
        numbers.push(number(e))?;
    }
    Ok(numbers)
}

fn shape_of(alloc: Global, o: &Ontology, text: &[u8]) -> Result<Shape, Fail> {
    let query = read_query(alloc, text)?;
    Ok(shape(alloc, &query, o)?)
}

fn assert_found(
    rt: &impl Abort,
    alloc: Global,
    t: &ListedTables,
    s: &Shape,
    fixed: &[Option<u32>],
    skip: Option<usize>,
    wanted: &[u32],
) -> Result<(), AllocError> {
    assert!(rt; fixed.len() == s.terms());
    let images = found(alloc, t, s, fixed, skip)?;
    assert_eq!(rt; images.as_slice(), wanted);
    Ok(())
}

#[test]
fn gives_each_match_once(rt: HostRuntime) -> Result<(), Fail> {
    let t = tables(rt.alloc())?;
    let o = ontology(rt.alloc())?;
    for (text, fixed, wanted) in MATCHES {
        let s = shape_of(rt.alloc(), &o, text)?;
        assert_found(&rt, rt.alloc(), &t, &s, fixed, None, wanted)?;
    }
    Ok(())
}

#[test]
fn skips_what_agrees(rt: HostRuntime) -> Result<(), Fail> {
    let t = tables(rt.alloc())?;
    let o = ontology(rt.alloc())?;
    for (text, fixed, terms, wanted) in SKIPS {
        let s = shape_of(rt.alloc(), &o, text)?;
        assert_found(&rt, rt.alloc(), &t, &s, fixed, Some(terms), wanted)?;
    }
    Ok(())
}

#[test]
fn gives_one_match_for_each_that_shares(rt: HostRuntime) -> Result<(), Fail> {
    let t = sharing_tables(rt.alloc())?;
    let o = ontology(rt.alloc())?;
    for (text, fixed, wanted) in BY_TREES {
        let s = shape_of(rt.alloc(), &o, text)?;
        assert!(&rt; fixed.len() == s.terms());
        assert_eq!(&rt; count_by_trees(rt.alloc(), &t, &s, fixed)?, wanted);
    }
    Ok(())
}

fn completed_tables(alloc: Global) -> Result<ListedTables, AllocError> {
    let mut rows = Vec::new(alloc);
    for (role, from, to) in FOLLOWS {
        rows.push(ListedRow::Role { role, from, to })?;
    }
    Ok(ListedTables::new(rows))
}

/// The next of a sequence of numbers that look random.
fn draw(seed: &mut u64, bound: u64) -> u64
    requires { 1 ≤ bound }
    ensures { result < bound }
{
    *seed = seed
        .wrapping_mul(6364136223846793005)
        .wrapping_add(1442695040888963407);
    (*seed >> 33) % bound
}

fn add_atom(text: &mut Vec<u8>, seed: &mut u64) -> Result<(), AllocError> {
    text.extend_from_slice(ROLE_TEXTS[draw(seed, 2) as usize])?;
    text.extend_from_slice(VARIABLES[draw(seed, 4) as usize])?;
    text.extend_from_slice(b", ")?;
    text.extend_from_slice(VARIABLES[draw(seed, 4) as usize])?;
    text.extend_from_slice(b")")
}

/// A query of one to six role atoms.
fn random_query(alloc: Global, seed: &mut u64) -> Result<Vec<u8>, AllocError> {
    let mut text = Vec::new(alloc);
    text.extend_from_slice(b"q() :- ")?;
    for _ in 0..draw(seed, 6) {
        add_atom(&mut text, seed)?;
        text.extend_from_slice(b", ")?;
    }
    add_atom(&mut text, seed)?;
    Ok(text)
}

/// Asserts that each match passes where it lifts, and that a search that knows the trees gives, of up to 3,000 matches in their
/// order, some alone, and all that pass.
fn assert_passes_where_it_lifts(
    rt: &impl Abort,
    alloc: Global,
    t: &ListedTables,
    s: &Shape,
) -> Result<(), AllocError> {
    let p = plan(alloc, s, &[], t)?;
    let trees = TreeWitnesses::build(alloc, s)?;
    let fixed = vec![in alloc; None; s.terms()]?;
    let mut all = Matches::new(alloc, s, &p, fixed.as_slice())?;
    let mut by_trees = Matches::with_trees(alloc, s, &p, fixed.as_slice(), &trees)?;
    let mut is_left = by_trees.advance(t);
    for _ in 0..3000 {
        if !all.advance(t) {
            break;
        }
        let images = all.images();
        assert!(rt; images.len() == s.terms());
        let passes = trees.passes(images);
        assert!(rt; passes == lifts(s, images));
        let is_given = is_left && by_trees.images() == images;
        assert!(rt; is_given || !passes);
        if is_given {
            is_left = by_trees.advance(t);
        }
    }
    assert!(rt; !is_left);
    Ok(())
}

#[test]
fn random_matches_pass_where_they_lift(rt: HostRuntime) -> Result<(), Fail> {
    let t = completed_tables(rt.alloc())?;
    let o = ontology(rt.alloc())?;
    let mut seed = 27;
    for _ in 0..300 {
        let text = random_query(rt.alloc(), &mut seed)?;
        let s = shape_of(rt.alloc(), &o, text.as_slice())?;
        assert_passes_where_it_lifts(&rt, rt.alloc(), &t, &s)?;
    }
    Ok(())
}
