//! Texts beside what the format of queries says of them.

use super::*;
use dl_base::{Atom, Name, Term};
use std::alloc::{AllocError, Global};
use std::test::Fail;

/// What is compared of an answer.
#[derive(Clone, Copy, Debug, PartialEq, Eq)]
enum Seen {
    Read,
    Syntax(u64),
    TooLarge,
    Unsafe,
}

fn answer(alloc: Global, text: &[u8]) -> Result<Seen, AllocError> {
    match read_query(alloc, text) {
        Ok(_) => Ok(Seen::Read),
        Err(QueryError::Syntax(place)) => Ok(Seen::Syntax(place)),
        Err(QueryError::TooLarge) => Ok(Seen::TooLarge),
        Err(QueryError::Unsafe(_)) => Ok(Seen::Unsafe),
        Err(QueryError::NoMemory) => Err(AllocError),
    }
}

/// Texts that are queries.
const QUERIES: [&[u8]; 12] = [
    b"q() :- A(a)",
    b"q():-A(a)",
    b"q(?x) :- A(?x)",
    b"q(?x, ?x) :- A(?x)",
    b"q(?Andy) :- A(?Andy)",
    b"q() :- <a>(<b>, ?x)",
    b"q() :- <\xc3\xa9>(a)",
    b"q() :- A-1(a.b), A_2(_)",
    b"q( ?x , ?y\t):-A(?x),R( ?x,?y )",
    b"q(\t?x\t,\t?y\t)\t:-\tR(\t?x\t,\t?y\t)\t,\tA(?x)",
    b"q(?y) :- R(?x, ?y), R(?y, ?x), R(?x, ?x)",
    b"q(?q) :- q(?q)",
];

#[test]
fn queries_are_read(rt: HostRuntime) -> Result<(), Fail> {
    for text in QUERIES {
        assert_eq!(rt; answer(rt.alloc(), text)?, Seen::Read, "at {text:?}");
    }
    Ok(())
}

/// Texts that are no queries, each with the place of its fault.
const FAULTS: [(&[u8], u64); 20] = [
    (b"", 1),
    (b"Q(", 1),
    (b" q() :- A(a)", 1),
    (b"q(x) :-", 3),
    (b"q(?x,) :- A(?x)", 6),
    (b"q(?<x>) :- A(?x)", 4),
    (b"q(?And) :- A(a)", 7),
    (b"q(?x) : - A(?x)", 8),
    (b"q(?x) :- ", 10),
    (b"q() :- A (a)", 9),
    (b"q() :- A()", 10),
    (b"q() :- A(a,b,c)", 13),
    (b"q() :- A(a) B(b)", 13),
    (b"q() :- A(a),", 13),
    (b"q() :- A(a) ", 13),
    (b"q() :- nothing(a)", 15),
    (b"q() :- A(Inv, a)", 13),
    (b"q() :- <a b>(a)", 10),
    (b"q(?y, ?x) :- teaches(?x, <a b>), A(?y)", 28),
    (b"q() :- A\xc3\xa9(a)", 9),
];

#[test]
fn other_texts_have_the_place_of_their_fault(rt: HostRuntime) -> Result<(), Fail> {
    for (text, place) in FAULTS {
        assert_eq!(rt;
            answer(rt.alloc(), text)?,
            Seen::Syntax(place),
            "at {text:?}"
        );
    }
    Ok(())
}

/// The text with so many copies of a piece between these.
fn filled(
    alloc: Global,
    front: &[u8],
    piece: &[u8],
    count: usize,
    back: &[u8],
) -> Result<Vec<u8>, AllocError> {
    let mut text = Vec::from_slice(alloc, front)?;
    for _ in 0..count {
        text.extend_from_slice(piece)?;
    }
    text.extend_from_slice(back)?;
    Ok(text)
}

/// A front, a piece, how many pieces, and a back, and what is seen of the whole.
const LIMITS: [(&[u8], &[u8], usize, &[u8], Seen); 12] = [
    (b"q() :- ", b"A(a),", 23, b"A(a)", Seen::Read),
    (b"q() :- ", b"A(a),", 24, b"A(a)", Seen::TooLarge),
    (b"q(?y) :- ", b"A(a),", 24, b"A(a)", Seen::TooLarge),
    (b"q() :- ", b"A(a),", 24, b"A(a),", Seen::Syntax(133)),
    (b"q(", b"?x,", 23, b"?x) :- A(?x)", Seen::Read),
    (b"q(", b"?x,", 24, b"?x) :- A(?x)", Seen::TooLarge),
    (b"q() :- ", b"a", 255, b"(a)", Seen::Read),
    (b"q() :- ", b"a", 256, b"(a)", Seen::Syntax(263)),
    (b"q() :- A(<", b"a", 253, b">)", Seen::Read),
    (b"q() :- A(<", b"a", 254, b">)", Seen::Syntax(264)),
    (b"q() :- A(?", b"a", 254, b")", Seen::Read),
    (b"q() :- A(?", b"a", 255, b")", Seen::Syntax(265)),
];

#[test]
fn limits(rt: HostRuntime) -> Result<(), Fail> {
    for (front, piece, count, back, want) in LIMITS {
        let text = filled(rt.alloc(), front, piece, count, back)?;
        assert_eq!(rt; answer(rt.alloc(), text.as_slice())?, want);
    }
    Ok(())
}

#[test]
fn distinct_terms_are_counted(rt: HostRuntime) -> Result<(), Fail> {
    let mut text = Vec::from_slice(rt.alloc(), b"q() :- ")?;
    for letter in b"abcdefghijkl" {
        text.extend_from_slice(b"R(?")?;
        text.push(*letter)?;
        text.push(b',')?;
        text.push(*letter)?;
        text.extend_from_slice(b"), ")?;
    }
    let known = filled(rt.alloc(), text.as_slice(), b"A(a)", 1, b"")?;
    assert_eq!(rt; answer(rt.alloc(), known.as_slice())?, Seen::Read);
    let one_more = filled(rt.alloc(), text.as_slice(), b"A(m)", 1, b"")?;
    assert_eq!(rt; answer(rt.alloc(), one_more.as_slice())?, Seen::TooLarge);
    Ok(())
}

/// The variable for which the query is unsafe.
fn unsafe_variable(alloc: Global, text: &[u8]) -> Result<Option<Name>, AllocError> {
    match read_query(alloc, text) {
        Err(QueryError::Unsafe(var)) => Ok(Some(var)),
        Err(QueryError::NoMemory) => Err(AllocError),
        _ => Ok(None),
    }
}

/// Unsafe queries, each with its first unbound variable.
const UNBOUND: [(&[u8], &[u8]); 4] = [
    (b"q(?x, ?y, ?z) :- A(?x)", b"y"),
    (b"q(?a) :- A(a)", b"a"),
    (b"q(?x, ?x, ?w, ?x) :- R(a, ?x)", b"w"),
    (b"q(?x, ?y) :- R(?z, ?z)", b"x"),
];

#[test]
fn the_first_unbound_variable_is_named(rt: HostRuntime) -> Result<(), Fail> {
    for (text, want) in UNBOUND {
        match unsafe_variable(rt.alloc(), text)? {
            Some(var) => assert_eq!(rt; var.bytes(), want),
            None => assert!(rt; false, "at {text:?}"),
        }
    }
    Ok(())
}

#[test]
fn a_query_is_what_its_text_says(rt: HostRuntime) -> Result<(), Fail> {
    match read_query(rt.alloc(), b"q(?y, ?x) :- teaches(?x, ?y), <A>(ann)") {
        Ok(query) => {
            for (var, want) in query.answers().iter().zip([b"y".as_slice(), b"x"]) {
                assert_eq!(rt; var.bytes(), want);
            }
            match query.atoms() {
                [
                    Atom::Role { name, from, to },
                    Atom::Concept { name: other, term },
                ] => {
                    assert_eq!(rt; name.bytes(), b"teaches".as_slice());
                    assert_eq!(rt; is_var(from, b"x"), true);
                    assert_eq!(rt; is_var(to, b"y"), true);
                    assert_eq!(rt; other.bytes(), b"<A>".as_slice());
                    assert_eq!(rt; is_var(term, b"ann"), false);
                }
                _ => assert!(rt; false),
            }
        }
        Err(_) => assert!(rt; false),
    }
    Ok(())
}

fn is_var(term: &Term, bytes: &[u8]) -> bool {
    match term {
        Term::Var(name) => name.bytes() == bytes,
        Term::Named(_) => false,
    }
}
