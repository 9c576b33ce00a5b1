//! Tree witnesses of small queries, and images that pass by them or don't.

use crate::TreeWitnesses;
use cq_reader::read_query;
use dl_base::{Axiom, Elem, Items, Name, Names, Ontology, Role, Witness};
use match_filter::lifts;
use query_shape::{Shape, shape};
use std::alloc::Global;
use std::process::Abort;
use std::test::Fail;

const TWO_PARENTS: &[u8] = b"q() :- r(?x, ?y), r(?z, ?y)";

const DOWN_AND_BACK: &[u8] = b"q() :- r(?x, ?u), s(?u, ?v), s(?w, ?v), r(?y, ?w)";

const LOOP: &[u8] = b"q() :- r(?x, ?x)";

/// A query, the images of its terms, and whether they pass. The images are one letter each: a and b are individuals, r and s
/// the witnesses of these roles, and v the witness of the inverse of r.
const IMAGES: [(&[u8], &[u8], bool); 11] = [
    (TWO_PARENTS, b"ara", true),
    (TWO_PARENTS, b"arb", false),
    (TWO_PARENTS, b"asb", true),
    (LOOP, b"r", false),
    (LOOP, b"a", true),
    (b"q() :- r(?x, ?y), r(?y, ?z), r(?z, ?u)", b"arrr", true),
    (b"q() :- r(?x, ?y), r(?y, ?x)", b"rr", false),
    (DOWN_AND_BACK, b"arsra", true),
    (DOWN_AND_BACK, b"arsrb", false),
    (b"q() :- r(?x, ?y)", b"va", true),
    (b"q() :- r(?x, ?y), r(?x, ?z)", b"vab", false),
];

fn witness(name: u32, inverse: bool) -> Elem {
    Elem::Shared(Witness {
        role: Role { name, inverse },
        generation: 1,
    })
}

fn element(letter: u8) -> Elem {
    match letter {
        b'a' => Elem::Named(0),
        b'b' => Elem::Named(1),
        b's' => witness(1, false),
        b'v' => witness(0, true),
        _ => witness(0, false),
    }
}

fn elements(alloc: Global, letters: &[u8]) -> Result<Vec<Elem>, Fail> {
    let mut elements = Vec::new(alloc);
    for letter in letters {
        elements.push(element(*letter))?;
    }
    Ok(elements)
}

fn names(alloc: Global, first: &[u8], second: &[u8]) -> Result<Names, Fail> {
    let mut names = Items::new(alloc);
    names.push(Name::new(alloc, first)?)?;
    names.push(Name::new(alloc, second)?)?;
    Ok(names)
}

fn ontology(alloc: Global) -> Result<Ontology, Fail> {
    let axiom = Axiom::new(
        names(alloc, b"A", b"B")?,
        names(alloc, b"r", b"s")?,
        Items::new(alloc),
    );
    Ok(Ontology::new(alloc)?.extend(alloc, &axiom)?)
}

fn shape_of(alloc: Global, text: &[u8]) -> Result<Shape, Fail> {
    let o = ontology(alloc)?;
    let query = read_query(alloc, text)?;
    Ok(shape(alloc, &query, &o)?)
}

fn assert_passes(rt: &impl Abort, s: &Shape, trees: &TreeWitnesses, images: &[Elem], wanted: bool) {
    assert!(rt; images.len() == trees.terms && images.len() == s.terms());
    assert!(rt; trees.passes(images) == wanted, "at {images:?}");
    assert!(rt; lifts(s, images) == wanted, "at {images:?}");
}

#[test]
fn images_pass_where_they_lift(rt: HostRuntime) -> Result<(), Fail> {
    for (text, letters, wanted) in IMAGES {
        let s = shape_of(rt.alloc(), text)?;
        let trees = TreeWitnesses::build(rt.alloc(), &s)?;
        let images = elements(rt.alloc(), letters)?;
        assert_passes(&rt, &s, &trees, images.as_slice(), wanted);
    }
    Ok(())
}

#[test]
fn a_loop_has_no_tree_witness(rt: HostRuntime) -> Result<(), Fail> {
    let s = shape_of(rt.alloc(), LOOP)?;
    let trees = TreeWitnesses::build(rt.alloc(), &s)?;
    assert_eq!(rt; trees.entries.items().len(), 2);
    for entry in trees.entries.items() {
        assert!(rt; entry.tree.is_none());
    }
    Ok(())
}

#[test]
fn both_ends_stand_at_the_top(rt: HostRuntime) -> Result<(), Fail> {
    let s = shape_of(rt.alloc(), DOWN_AND_BACK)?;
    let trees = TreeWitnesses::build(rt.alloc(), &s)?;
    let Some(entry) = trees.entries.items().first() else {
        panic!(rt; "no oriented atom");
    };
    let Some(tree) = &entry.tree else {
        panic!(rt; "no tree witness");
    };
    let mut tops = Items::new(rt.alloc());
    for reached in tree.items() {
        if reached.roles.items().is_empty() {
            tops.push(reached.term)?;
        }
    }
    assert_eq!(rt; tops.items(), [0, 4].as_slice());
    Ok(())
}
