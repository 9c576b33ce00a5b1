//! Texts beside what the format of axioms says of them.

use super::*;
use dl_base::{Name, NamedBasic, NamedHead, NamedInclusion, NamedRole};
use std::alloc::{AllocError, Global};
use std::test::Fail;

/// Texts that are no axioms, each with the place of its fault.
const FAULTS: [(&[u8], u64); 47] = [
    // The end comes too early.
    (b"", 1),
    (b"SubClassOf(", 12),
    (b"SubClassOf(A nothing", 21),
    (b"SubClassOf(A No", 16),
    (b"Disjoint(A B ", 14),
    // Keywords.
    (b"Subclassof(A B)", 4),
    (b" Class(A)", 1),
    (b"Class (A)", 6),
    (b"Data(A)", 2),
    (b"EquivalentTo(A B)", 11),
    // Names and reserved words.
    (b"Class(1)", 7),
    (b"Class(And)", 10),
    (b"Class(<A B>)", 9),
    (b"Class(A\xc3\xa9)", 8),
    (b"Property(Inv(r))", 13),
    (b"SubClassOf(nothing A)", 19),
    (b"Domain(Some(r) A)", 12),
    (b"Equivalent(A nothing)", 21),
    // Terms and lists.
    (b"SubClassOf(Some(Inv(Inv(r))) A)", 24),
    (b"SubClassOf(And(A) B)", 17),
    (b"SubClassOf(And(A And(B C)) D)", 21),
    (b"SubClassOf(And(A B C D E F G H I) A)", 32),
    (b"Disjoint(A)", 11),
    (b"Disjoint(A B C D E F G H I)", 26),
    (b"Class(A))", 9),
    // More of each.
    (b"S", 2),
    (b"SubClassOf", 11),
    (b"SubClassOf(A", 13),
    (b"SubClassOf(A B", 15),
    (b"SubClassOf(A And", 17),
    (b"D", 2),
    (b"Subclass(", 4),
    (b"subClassOf(A B)", 1),
    (b"Classes(A)", 6),
    (b"Dog(A)", 3),
    (b"Rangers(r A)", 6),
    (b"Property[r]", 9),
    (b"Class(A B)", 9),
    (b"Class(nothing)", 14),
    (b"Class(Some(r))", 11),
    (b"Class(<A)", 10),
    (b"Class(\0)", 7),
    (b"Class(\xc3\xa9)", 7),
    (b"SubClassOf(Inv(r) A)", 15),
    (b"Domain(nothing A)", 15),
    (b"Range(r Inv(r))", 12),
    (b"SubClassOf(Some(And(A B)) A)", 20),
];

#[test]
fn faults_have_their_place(rt: HostRuntime) -> Result<(), Fail> {
    for (text, want) in FAULTS {
        let found = match read_axiom(rt.alloc(), text) {
            Ok(_) => 0,
            Err(AxiomError::Syntax(place)) => place,
            Err(AxiomError::NoMemory) => return Err(AllocError.into()),
        };
        assert_eq!(rt; found, want);
    }
    Ok(())
}

/// Axioms, each with what `summary` writes of it.
const MEANINGS: [(&[u8], &[u8]); 25] = [
    (b"SubClassOf(A B)", b"A B ;; A:B"),
    (b"SubClassOf(B\t \tA)", b"B A ;; B:A"),
    (b"SubClassOf( \tA A\t )", b"A ;; A:A"),
    (b"SubClassOf(A nothing )", b"A ;; A:0"),
    (b"SubClassOf(A nothings)", b"A nothings ;; A:nothings"),
    (b"SubClassOf(Andy <a>)", b"Andy <a> ;; Andy:<a>"),
    (
        b"SubClassOf(And(C A C) And(B A Some(r)))",
        b"C A B ;r ; CAC:B CAC:A CAC:+r",
    ),
    (
        b"SubClassOf(And(A B C D E F G H) A)",
        b"A B C D E F G H ;; ABCDEFGH:A",
    ),
    (b"SubClassOf(Some(Inv(s)) Some(r))", b";s r ; +-s:+r"),
    (b"SubClassOf(And(Some(A) A) nothing)", b"A ;A ; +AA:0"),
    (b"Equivalent(A B)", b"A B ;; A:B B:A"),
    (b"Equivalent(And(A B) C)", b"A B C ;; AB:C C:A C:B"),
    (b"Disjoint(A B)", b"A B ;; AB:0"),
    (b"Disjoint(A B C)", b"A B C ;; AB:0 AC:0 BC:0"),
    (
        b"Disjoint(And(A B) Some(r) A)",
        b"A B ;r ; AB+r:0 ABA:0 +rA:0",
    ),
    (b"Domain(r A)", b"A ;r ; +r:A"),
    (b"Domain(Inv(r) nothing)", b";r ; +-r:0"),
    (b"Domain(Inv( r ) Some( s ))", b";r s ; +-r:+s"),
    (b"Range(r And(A Some(s)))", b"A ;r s ; +-r:A +-r:+s"),
    (b"Range(Inv(r) A)", b"A ;r ; +r:A"),
    (b"Range(<r> nothing)", b";<r> ; +-<r>:0"),
    (b"Class(A)", b"A ;;"),
    (b"Class( <A> )", b"<A> ;;"),
    (b"Property(r)", b";r ;"),
    (b"Property(A)", b";A ;"),
];

fn write_names(text: &mut Vec<u8>, names: &[Name]) -> Result<(), AllocError> {
    for name in names {
        text.extend_from_slice(name.bytes())?;
        text.push(b' ')?;
    }
    text.push(b';')?;
    Ok(())
}

fn write_role(text: &mut Vec<u8>, role: &NamedRole) -> Result<(), AllocError> {
    if role.inverse {
        text.push(b'-')?;
    }
    text.extend_from_slice(role.name.bytes())
}

fn write_basic(text: &mut Vec<u8>, basic: &NamedBasic) -> Result<(), AllocError> {
    match basic {
        NamedBasic::Concept(name) => text.extend_from_slice(name.bytes()),
        NamedBasic::Exists(role) => {
            text.push(b'+')?;
            write_role(text, role)
        }
    }
}

fn write_inclusion(text: &mut Vec<u8>, inclusion: &NamedInclusion) -> Result<(), AllocError> {
    text.push(b' ')?;
    for basic in inclusion.body.items() {
        write_basic(text, basic)?;
    }
    text.push(b':')?;
    match &inclusion.head {
        NamedHead::Basic(basic) => write_basic(text, basic)?,
        NamedHead::Nothing => text.push(b'0')?,
    }
    Ok(())
}

/// The concept names, the role names and the inclusions of the axiom that the text is. An inclusion is its body, `:` and
/// its head, `0` for nothing; `+` is `Some`, and `-` is `Inv`.
fn summary(alloc: Global, text: &[u8]) -> Result<Vec<u8>, AllocError> {
    let axiom = read_axiom(alloc, text).map_err(|_| AllocError)?;
    let mut found = Vec::new(alloc);
    write_names(&mut found, axiom.concepts())?;
    write_names(&mut found, axiom.roles())?;
    for inclusion in axiom.inclusions() {
        write_inclusion(&mut found, inclusion)?;
    }
    Ok(found)
}

#[test]
fn axioms_have_their_meaning(rt: HostRuntime) -> Result<(), Fail> {
    for (text, want) in MEANINGS {
        let found = summary(rt.alloc(), text)?;
        assert_eq!(rt; found.as_slice(), want);
    }
    Ok(())
}
