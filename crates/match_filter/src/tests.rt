//! Images beside the queries for which they lift, and for which they don't.

use crate::lifts;
use cq_reader::read_query;
use dl_base::{Axiom, Elem, Items, Name, Names, Ontology, Role, Witness};
use query_shape::{Shape, shape};
use std::alloc::Global;
use std::process::Abort;
use std::test::Fail;

/// A query, and the images of its terms, one letter each: a and b are individuals, r and s the witnesses of these roles, and v
/// the witness of the inverse of r.
const LIFT: [(&[u8], &[u8]); 12] = [
    (b"q() :- r(?x, ?z), r(?y, ?z)", b"ara"),
    (b"q() :- r(?x, ?x)", b"a"),
    (b"q() :- r(?x, ?y), r(?y, ?z), r(?z, ?u)", b"arrr"),
    (
        b"q() :- r(?x, ?u), s(?u, ?v), s(?w, ?v), r(?y, ?w)",
        b"arsra",
    ),
    (b"q() :- r(?x, ?y)", b"va"),
    (b"q() :- r(a, ?z), r(?y, ?z)", b"ara"),
    (b"q() :- r(?x, ?z), r(?y, ?z), s(?x, ?y)", b"ara"),
    (b"q() :- r(?x, ?y), s(?x, ?z), A(?y)", b"ars"),
    (b"q() :- r(?y, ?x), r(?z, ?y)", b"vav"),
    (DOWN_AND_UP, b"arrrrrrrrrrrrrrrrrrrrrrr"),
    (b"q() :- A(?x), A(?y)", b"rr"),
    (b"q() :- r(?x, ?y)", b"ab"),
];

/// The same of images that don't lift.
const DONT: [(&[u8], &[u8]); 9] = [
    (b"q() :- r(?x, ?z), r(?y, ?z)", b"arb"),
    (b"q() :- r(?x, ?x)", b"r"),
    (b"q() :- r(?x, ?y), r(?y, ?x)", b"rr"),
    (
        b"q() :- r(?x, ?u), s(?u, ?v), s(?w, ?v), r(?y, ?w)",
        b"arsrb",
    ),
    (b"q() :- r(?x, ?y), r(?x, ?z)", b"vab"),
    (b"q() :- r(a, ?z), r(?y, ?z)", b"arb"),
    (b"q() :- r(?x, ?z), r(?y, ?z), s(?x, ?y)", b"arb"),
    (b"q() :- r(?y, ?v), r(?z, ?v), r(?z, ?y)", b"rrr"),
    (DOWN_AND_UP, b"arrrrrrrrrrrrrrrrrrrrrrb"),
];

/// Twelve steps down, and twelve up again to where they began.
const DOWN_AND_UP: &[u8] =
    b"q() :- r(?a, ?b), r(?b, ?c), r(?c, ?d), r(?d, ?e), r(?e, ?f), r(?f, ?g), r(?g, ?h), r(?h, ?i), r(?i, ?j), r(?j, ?k), r(?k, ?l), r(?l, ?m), r(?n, ?m), r(?o, ?n), r(?p, ?o), r(?q, ?p), r(?r, ?q), r(?s, ?r), r(?t, ?s), r(?u, ?t), r(?v, ?u), r(?w, ?v), r(?x, ?w), r(?a, ?x)";

fn witness(name: u32, inverse: bool) -> Elem {
    Elem::Shared(Witness {
        role: Role { name, inverse },
        generation: 1,
    })
}

fn element(letter: u8) -> Elem {
    match letter {
        b'a' => Elem::Named(0),
        b'b' => Elem::Named(1),
        b's' => witness(1, false),
        b'v' => witness(0, true),
        _ => witness(0, false),
    }
}

fn images(alloc: Global, letters: &[u8]) -> Result<Vec<Elem>, Fail> {
    let mut images = Vec::new(alloc);
    for letter in letters {
        images.push(element(*letter))?;
    }
    Ok(images)
}

fn names(alloc: Global, first: &[u8], second: &[u8]) -> Result<Names, Fail> {
    let mut names = Items::new(alloc);
    names.push(Name::new(alloc, first)?)?;
    names.push(Name::new(alloc, second)?)?;
    Ok(names)
}

fn ontology(alloc: Global) -> Result<Ontology, Fail> {
    let axiom = Axiom::new(
        names(alloc, b"A", b"B")?,
        names(alloc, b"r", b"s")?,
        Items::new(alloc),
    );
    Ok(Ontology::new(alloc)?.extend(alloc, &axiom)?)
}

/// Whether there is an image for each term, and the images lift.
fn do_lift(s: &Shape, images: &[Elem]) -> Option<bool> {
    if images.len() == s.terms() {
        Some(lifts(s, images))
    } else {
        None
    }
}

fn reply(alloc: Global, o: &Ontology, text: &[u8], letters: &[u8]) -> Result<Option<bool>, Fail> {
    let query = read_query(alloc, text)?;
    let s = shape(alloc, &query, o)?;
    let images = images(alloc, letters)?;
    Ok(do_lift(&s, images.as_slice()))
}

fn assert_each(
    alloc: Global,
    rt: &impl Abort,
    cases: &[(&[u8], &[u8])],
    wanted: bool,
) -> Result<(), Fail> {
    let o = ontology(alloc)?;
    for (text, letters) in cases {
        let answer = reply(alloc, &o, text, letters)?;
        assert!(rt; answer == Some(wanted), "at {text:?}");
    }
    Ok(())
}

#[test]
fn matches_of_the_unfolding_lift(rt: HostRuntime) -> Result<(), Fail> {
    assert_each(rt.alloc(), &rt, &LIFT, true)
}

#[test]
fn other_matches_do_not(rt: HostRuntime) -> Result<(), Fail> {
    assert_each(rt.alloc(), &rt, &DONT, false)
}
