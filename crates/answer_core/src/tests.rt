//! Answers beside those that a small table has by hand.

use super::*;
use cq_reader::read_query;
use dl_base::{
    Axiom, Elem, Items, Key, Keys, Name, NameBook, Names, Ontology, Role, Tables, Witness,
};
use listed_tables::{ListedRow, ListedTables};
use std::alloc::{AllocError, Global};
use std::process::Abort;
use std::test::Fail;

/// The individuals in the order of their numbers.
const INDIVIDUALS: [&[u8]; 3] = [b"c", b"a", b"b"];

/// A(c), A(a), A(7), r(c,c), r(a,b), r(a,c), s(7,a), where 7 is the number of no individual.
const CONCEPTS: [(u32, u32); 3] = [(0, 0), (0, 1), (0, 7)];

const ROLES: [(u32, u32, u32); 4] = [(0, 0, 0), (0, 1, 2), (0, 1, 0), (1, 7, 1)];

/// A query, and its keys: behind each name a comma, and behind each key a semicolon.
const ANSWERS: [(&[u8], &[u8]); 15] = [
    (b"q(?x) :- A(?x)", b"a,;c,;"),
    (b"q(?x) :- r(?x, ?x)", b"c,;"),
    (b"q(?x) :- r(?x, ?y)", b"a,;c,;"),
    (b"q(?y, ?x) :- r(?x, ?y)", b"b,a,;c,a,;c,c,;"),
    (b"q(?x, ?x) :- A(?x)", b"a,a,;c,c,;"),
    (b"q() :- A(?x)", b";"),
    (b"q() :- B(?x)", b""),
    (b"q(?x) :- r(a, ?x)", b"b,;c,;"),
    (b"q(?x) :- r(?x, c), A(c)", b"a,;c,;"),
    (b"q(?x) :- A(?x), r(?y, d)", b""),
    (b"q(?x) :- s(?x, ?y)", b""),
    (b"q(?y) :- s(?x, ?y)", b"a,;"),
    (b"q(?z) :- r(?x, ?y), r(?x, ?z)", b"b,;c,;"),
    (b"q(?x, ?x) :- r(?x, ?y)", b"a,a,;c,c,;"),
    (b"q() :- r(?x, ?y), r(?x, ?z)", b";"),
];

/// Whatever is in A has a successor by r, and whatever r leads to has one by s. All three are in A, and r leads from c to a.
const SUCCESSORS: &[u8] = b"Aa.Ab.Ac.raR.rbR.rca.sRS.saS.";

const BY_SUCCESSORS: [(&[u8], &[u8]); 10] = [
    (b"q(?x, ?y) :- r(?x, ?z), r(?y, ?z)", b"a,a,;b,b,;c,c,;"),
    (b"q(?x) :- r(?x, ?z)", b"a,;b,;c,;"),
    (b"q(?z) :- r(?x, ?z)", b"a,;"),
    (
        b"q(?x, ?y) :- r(?x, ?u), s(?u, ?v), s(?w, ?v), r(?y, ?w)",
        b"a,a,;b,b,;c,c,;",
    ),
    (b"q(?y) :- r(c, ?y)", b"a,;"),
    (b"q(?y) :- r(?y, ?z), r(a, ?z)", b"a,;"),
    (b"q() :- s(?x, ?y), s(?y, ?z)", b""),
    (b"q() :- s(?y, ?z), r(?x, ?y), A(?x)", b";"),
    (b"q(?x) :- s(?x, ?y)", b"a,;"),
    (b"q(?x) :- r(?x, ?z), r(?y, ?z)", b"a,;b,;c,;"),
];

/// Whatever is in A has a successor by r, and so has whatever r leads to. a is in A.
const REPEATED: &[u8] = b"Aa.raR.rRR.";

const BY_REPEATED: [(&[u8], &[u8]); 6] = [
    (b"q() :- r(?x, ?x)", b""),
    (b"q() :- r(?x, ?y), r(?y, ?z), r(?z, ?u)", b";"),
    (b"q() :- r(?y, ?v), r(?z, ?v), r(?z, ?y)", b""),
    (b"q(?x) :- r(?x, ?z), r(?y, ?z), A(?x), A(?y)", b"a,;"),
    (
        b"q(?a) :- r(?a, ?b), r(?b, ?c), r(?c, ?d), r(?d, ?e), r(?e, ?f), r(?f, ?g), r(?g, ?h), r(?h, ?i), r(?i, ?j), r(?j, ?k), r(?k, ?l), r(?l, ?m), r(?n, ?m), r(?o, ?n), r(?p, ?o), r(?q, ?p), r(?r, ?q), r(?s, ?r), r(?t, ?s), r(?u, ?t), r(?v, ?u), r(?w, ?v), r(?x, ?w), r(?a, ?x)",
        b"a,;",
    ),
    (b"q() :- A(?x), r(?y, ?x)", b""),
];

/// A cycle of r with a mark at its first term, over tables that have three such cycles and one more without the mark.
const CYCLE: [&[u8]; 4] = [b"r(?x, ?y)", b"r(?y, ?z)", b"r(?z, ?x)", b"A(?x)"];

const CYCLES: &[u8] = b"raa.rab.rbc.rca.Aa.Ac.";

const BY_CYCLE: &[u8] = b"a,a,;a,c,;c,b,;";

/// How many individuals share a witness.
const CROWD: u32 = 500;

const SHARED: &[u8] = b"q(?x, ?y) :- r(?x, ?z), r(?y, ?z)";

/// The orders of four atoms.
const ORDERS: [[usize; 4]; 24] = [
    [0, 1, 2, 3],
    [0, 1, 3, 2],
    [0, 2, 1, 3],
    [0, 2, 3, 1],
    [0, 3, 1, 2],
    [0, 3, 2, 1],
    [1, 0, 2, 3],
    [1, 0, 3, 2],
    [1, 2, 0, 3],
    [1, 2, 3, 0],
    [1, 3, 0, 2],
    [1, 3, 2, 0],
    [2, 0, 1, 3],
    [2, 0, 3, 1],
    [2, 1, 0, 3],
    [2, 1, 3, 0],
    [2, 3, 0, 1],
    [2, 3, 1, 0],
    [3, 0, 1, 2],
    [3, 0, 2, 1],
    [3, 1, 0, 2],
    [3, 1, 2, 0],
    [3, 2, 0, 1],
    [3, 2, 1, 0],
];

fn tables(alloc: Global) -> Result<ListedTables, AllocError> {
    let mut rows = Vec::new(alloc);
    for (concept, individual) in CONCEPTS {
        rows.push(ListedRow::Concept {
            concept,
            element: Elem::Named(individual),
        })?;
    }
    for (role, from, to) in ROLES {
        rows.push(ListedRow::Role {
            role,
            from: Elem::Named(from),
            to: Elem::Named(to),
        })?;
    }
    Ok(ListedTables::new(rows))
}

fn names(alloc: Global, first: &[u8], second: &[u8]) -> Result<Names, Fail> {
    let mut names = Items::new(alloc);
    names.push(Name::new(alloc, first)?)?;
    names.push(Name::new(alloc, second)?)?;
    Ok(names)
}

fn ontology(alloc: Global) -> Result<Ontology, Fail> {
    let axiom = Axiom::new(
        names(alloc, b"A", b"B")?,
        names(alloc, b"r", b"s")?,
        Items::new(alloc),
    );
    Ok(Ontology::new(alloc)?.extend(alloc, &axiom)?)
}

fn add_name(alloc: Global, book: &mut NameBook, name: &[u8]) -> Result<(), Fail> {
    if book.len() < CROWD as usize {
        book.intern(&Name::new(alloc, name)?)?;
    }
    Ok(())
}

fn individuals(alloc: Global) -> Result<NameBook, Fail> {
    let mut book = NameBook::new(alloc);
    for name in INDIVIDUALS {
        add_name(alloc, &mut book, name)?;
    }
    Ok(book)
}

fn write_key(text: &mut Vec<u8>, key: &Key) -> Result<(), AllocError> {
    for name in key.items() {
        text.extend_from_slice(name.bytes())?;
        text.push(b',')?;
    }
    text.push(b';')?;
    Ok(())
}

fn text_of(alloc: Global, keys: &Keys) -> Result<Vec<u8>, AllocError> {
    let mut text = Vec::new(alloc);
    for key in keys.items() {
        write_key(&mut text, key)?;
    }
    Ok(text)
}

/// The keys of a query in the tables.
fn reply<T: Tables>(
    alloc: Global,
    t: &T,
    o: &Ontology,
    book: &NameBook,
    text: &[u8],
) -> Result<Vec<u8>, Fail> {
    let q = read_query(alloc, text)?;
    let b = bind(alloc, &q, o, t)?;
    let keys = answers(alloc, t, book, &b)?;
    Ok(text_of(alloc, &keys)?)
}

fn assert_answers<T: Tables>(
    alloc: Global,
    rt: &impl Abort,
    t: &T,
    cases: &[(&[u8], &[u8])],
) -> Result<(), Fail> {
    let o = ontology(alloc)?;
    let book = individuals(alloc)?;
    for (text, wanted) in cases {
        let keys = reply(alloc, t, &o, &book, text)?;
        assert_eq!(rt; keys.as_slice(), *wanted, "at {text:?}");
    }
    Ok(())
}

/// An individual, or the witness of r or s.
fn element(letter: u8) -> Elem {
    match letter {
        b'c' => Elem::Named(0),
        b'a' => Elem::Named(1),
        b'b' => Elem::Named(2),
        _ => Elem::Shared(Witness {
            role: Role {
                name: place(letter),
                inverse: false,
            },
            generation: 1,
        }),
    }
}

fn place(letter: u8) -> u32 {
    if letter == b's' || letter == b'S' {
        1
    } else {
        0
    }
}

/// The row that two or three letters spell.
fn row_of(letters: &[u8]) -> Option<ListedRow> {
    match letters.len() {
        2 => Some(ListedRow::Concept {
            concept: 0,
            element: element(letters[1]),
        }),
        3 => Some(ListedRow::Role {
            role: place(letters[0]),
            from: element(letters[1]),
            to: element(letters[2]),
        }),
        _ => None,
    }
}

fn listed(alloc: Global, text: &[u8]) -> Result<ListedTables, AllocError> {
    let mut rows = Vec::new(alloc);
    let mut start = 0;
    for i in 0..text.len() {
        if text[i] == b'.' {
            if start <= i {
                if let Some(row) = row_of(&text[start..i]) {
                    rows.push(row)?;
                }
            }
            start = i + 1;
        }
    }
    Ok(ListedTables::new(rows))
}

#[test]
fn each_key_once_in_order(rt: HostRuntime) -> Result<(), Fail> {
    let t = tables(rt.alloc())?;
    assert_answers(rt.alloc(), &rt, &t, &ANSWERS)
}

#[test]
fn witnesses_serve_and_do_not_join(rt: HostRuntime) -> Result<(), Fail> {
    let t = listed(rt.alloc(), SUCCESSORS)?;
    assert_answers(rt.alloc(), &rt, &t, &BY_SUCCESSORS)
}

#[test]
fn no_loop_through_a_witness(rt: HostRuntime) -> Result<(), Fail> {
    let t = listed(rt.alloc(), REPEATED)?;
    assert_answers(rt.alloc(), &rt, &t, &BY_REPEATED)
}

/// The query of the cycle with its atoms in this order.
fn cycle_in(alloc: Global, order: [usize; 4]) -> Result<Vec<u8>, AllocError> {
    let mut text = Vec::new(alloc);
    text.extend_from_slice(b"q(?x, ?z) :- ")?;
    for i in 0..4 {
        if i > 0 {
            text.extend_from_slice(b", ")?;
        }
        text.extend_from_slice(CYCLE[order[i].min(3)])?;
    }
    Ok(text)
}

#[test]
fn every_order_of_atoms_has_the_same_answers(rt: HostRuntime) -> Result<(), Fail> {
    let t = listed(rt.alloc(), CYCLES)?;
    for order in ORDERS {
        let text = cycle_in(rt.alloc(), order)?;
        assert_answers(rt.alloc(), &rt, &t, &[(text.as_slice(), BY_CYCLE)])?;
    }
    Ok(())
}

/// The individuals of the crowd.
fn crowd(alloc: Global) -> Result<NameBook, Fail> {
    let mut book = NameBook::new(alloc);
    for number in 0..CROWD {
        let name = format!(in alloc; "i{number}")?;
        add_name(alloc, &mut book, name.as_bytes())?;
    }
    Ok(book)
}

/// Tables in which r leads from each of the crowd to its witness.
fn sharing(alloc: Global) -> Result<ListedTables, AllocError> {
    let mut rows = Vec::new(alloc);
    for number in 0..CROWD {
        rows.push(ListedRow::Role {
            role: 0,
            from: Elem::Named(number),
            to: element(b'R'),
        })?;
    }
    Ok(ListedTables::new(rows))
}

/// Whether the key is one name twice.
fn is_double(key: &Key) -> bool {
    match key.items() {
        [first, second] => first == second,
        _ => false,
    }
}

#[test]
fn a_crowd_that_shares_a_witness_joins_with_itself_alone(rt: HostRuntime) -> Result<(), Fail> {
    let t = sharing(rt.alloc())?;
    let book = crowd(rt.alloc())?;
    let q = read_query(rt.alloc(), SHARED)?;
    let b = bind(rt.alloc(), &q, &ontology(rt.alloc())?, &t)?;
    let keys = answers(rt.alloc(), &t, &book, &b)?;
    assert_eq!(rt; keys.items().len(), CROWD as usize);
    assert!(rt; keys.items().iter().all(is_double));
    Ok(())
}
