//! A worked closure, by hand.
ghost use Rattle.std.specs.Prelude.{◌≡◌, ◌<◌, ◌≤◌, ◌↔◌, IsTrue, Contains, All, length, refl};
ghost use Rattle.dl_base.specs.Axiom.{IsNamed, IsNamedHead, IsStatement};
ghost use Rattle.dl_base.specs.Ontology.{IsPlaced};
ghost use Rattle.dl_base.specs.declared.concept.Basic.TheVariants as BasicConcept;
ghost use Rattle.horn_closure.specs.Closure.{IsScratchOf};

use crate::{Closed, Rules, Scratch, Steps};
use dl_base::{
    Axiom, Basic, BasicSet, Items, Name, NamedBasic, NamedHead, NamedInclusion, NamedRole,
    Ontology, Role,
};
use std::alloc::Global;
use std::cmp::Ordering;
use std::marker::Brand;
use std::process::Abort;
use std::sync::ledger::{Blank, Ledger};
use std::test::Fail;

/// Whether the name is one of these.
fn is_among(names: &[Name], name: &Name) -> bool
    ensures { IsTrue result → Contains names.now name.now }
{
    names.iter().any(|other| other == name)
}

fn is_named(concepts: &[Name], roles: &[Name], b: &NamedBasic) -> bool
    ensures { IsTrue result → IsNamed concepts.now roles.now b.now }
{
    match b {
        NamedBasic::Concept(name) => is_among(concepts, name),
        NamedBasic::Exists(r) => is_among(roles, &r.name),
    }
}

fn is_named_head(concepts: &[Name], roles: &[Name], head: &NamedHead) -> bool
    ensures { IsTrue result → IsNamedHead concepts.now roles.now head.now }
{
    match head {
        NamedHead::Basic(b) => is_named(concepts, roles, b),
        NamedHead::Nothing => true,
    }
}

fn is_statement(concepts: &[Name], roles: &[Name], inclusions: &[NamedInclusion]) -> bool
    ensures { IsTrue result → IsStatement (record { concepts = concepts.now; roles = roles.now; inclusions = inclusions.now }) }
{
    inclusions.iter().all(|i| {
        !i.body.items().is_empty()
            && i.body.items().iter().all(|b| is_named(concepts, roles, b))
            && is_named_head(concepts, roles, &i.head)
    })
}

/// The table's letters: a concept by its name, `r` and `i` for what has a successor by R and its inverse, `s` and `j`
/// by S and its inverse.
fn named(alloc: Global, letter: u8) -> Result<NamedBasic, Fail> {
    let (role, inverse) = match letter {
        b'r' => (b"R", false),
        b'i' => (b"R", true),
        b's' => (b"S", false),
        b'j' => (b"S", true),
        _ => return Ok(NamedBasic::Concept(Name::new(alloc, &[letter])?)),
    };
    let name = Name::new(alloc, role.as_slice())?;
    Ok(NamedBasic::Exists(NamedRole { name, inverse }))
}

fn basic(letter: u8) -> Basic
    ensures { IsPlaced 512 256 result }
{
    match letter {
        b'A' => Basic::Concept(0),
        b'B' => Basic::Concept(1),
        b'C' => Basic::Concept(2),
        b'D' => Basic::Concept(3),
        b'E' => Basic::Concept(4),
        b'F' => Basic::Concept(5),
        b'r' => exists(0, false),
        b'i' => exists(0, true),
        b's' => exists(1, false),
        _ => exists(1, true),
    }
}

fn exists(name: u32, inverse: bool) -> Basic
    ensures { result ≡ BasicConcept.Exists (record { name = name; inverse = inverse }) }
{
    Basic::Exists(Role { name, inverse })
}

fn names(alloc: Global, letters: &[u8]) -> Result<Items<Name>, Fail> {
    let mut names = Items::new(alloc);
    for letter in letters {
        names.push(Name::new(alloc, &[*letter])?)?;
    }
    Ok(names)
}

/// The inclusion with these members and this head, `0` for nothing.
fn inclusion(alloc: Global, members: &[u8], head: u8) -> Result<NamedInclusion, Fail> {
    let mut body = Items::new(alloc);
    for letter in members {
        body.push(named(alloc, *letter)?)?;
    }
    let head = match head {
        b'0' => NamedHead::Nothing,
        letter => NamedHead::Basic(named(alloc, letter)?),
    };
    Ok(NamedInclusion { body, head })
}

/// A chain, a member that stands twice, a cycle, roles and their inverses as members and heads, and three inclusions
/// to nothing, of which the last is the first whose body is derived from A.
const INCLUSIONS: [(&[u8], u8); 11] = [
    (b"A", b'B'),
    (b"B", b'C'),
    (b"CBC", b'D'),
    (b"D", b'A'),
    (b"D", b'r'),
    (b"r", b'E'),
    (b"i", b'F'),
    (b"EF", b'0'),
    (b"E", b'j'),
    (b"jA", b'0'),
    (b"D", b'0'),
];

/// What is held, what is derived from it, and the first inclusion that is violated. The first row stands there twice.
const CLOSURES: [(&[u8], &[u8], Option<u32>); 10] = [
    (b"A", b"ABCDrEj", Some(10)),
    (b"A", b"ABCDrEj", Some(10)),
    (b"B", b"ABCDrEj", Some(10)),
    (b"C", b"C", None),
    (b"", b"", None),
    (b"i", b"iF", None),
    (b"s", b"s", None),
    (b"ir", b"irFEj", Some(8)),
    (b"jE", b"jE", None),
    (b"Ai", b"AiBCDrEjF", Some(8)),
];

fn ontology(rt: &impl Abort, alloc: Global) -> Result<Ontology, Fail> {
    let mut inclusions = Items::new(alloc);
    for (members, head) in INCLUSIONS {
        inclusions.push(inclusion(alloc, members, head)?)?;
    }
    let concepts = names(alloc, b"ABCDEF")?;
    let roles = names(alloc, b"RS")?;
    assert!(rt; is_statement(concepts.items(), roles.items(), inclusions.items()));
    let axiom = Axiom::new(concepts, roles, inclusions);
    Ok(Ontology::new(alloc)?.extend(alloc, &axiom)?)
}

/// Asserts what is derived from what is held, and which inclusion is the first that is violated.
fn assert_closed(rt: &impl Abort, closed: &Closed, derived: &[u8], violated: Option<u32>) {
    for letter in b"ABCDEFrisj" {
        assert_eq!(rt; closed.has(basic(*letter)), derived.contains(letter));
    }
    assert_eq!(rt; closed.violated(), violated);
    assert!(rt; !closed.has(Basic::Concept(512)) && !closed.has(exists(256, true)));
}

fn set_of(letters: &[u8]) -> BasicSet {
    let mut set = BasicSet::new();
    for letter in letters {
        set.add(basic(*letter));
    }
    set
}

fn assert_all<L: Ledger>(
    rt: &impl Abort,
    rules: &Rules,
    scratch: &mut Scratch,
    steps: &mut Steps<L>,
)
    requires { IsScratchOf rules.now scratch.old }
{
    for (held, derived, violated) in CLOSURES {
        let closed = rules.close(&set_of(held), scratch, steps);
        assert_closed(rt, &closed, derived, violated);
    }
}

/// Asserts the names, and that names come before directions in role order.
fn assert_roles(rt: &impl Abort, rules: &Rules) {
    assert_eq!(rt; rules.concepts().len(), 6);
    assert_eq!(rt; rules.roles().len(), 2);
    let (r, s) = (
        Role {
            name: 0,
            inverse: true,
        },
        Role {
            name: 1,
            inverse: false,
        },
    );
    assert_eq!(rt; rules.compared(r, s), Ordering::Less);
    assert_eq!(rt; rules.compared(r, r.inverted()), Ordering::Greater);
}

fn assert_worked<L: Ledger>(rt: &impl Abort, alloc: Global, blank: Blank) -> Result<(), Fail>
    requires name { blank.name ≡ L.name }
    requires parts { blank.parts ≡ L.parts }
    requires some { 0 < L.parts }
{
    let rules = Rules::new(alloc, &ontology(rt, alloc)?)?;
    assert_roles(rt, &rules);
    let mut scratch = rules.scratch(alloc)?;
    let mut steps: Steps<L> = Steps::new(blank);
    assert_all(rt, &rules, &mut scratch, &mut steps);
    Ok(())
}

#[test]
fn closes_by_hand(rt: HostRuntime) -> Result<(), Fail> {
    assert_worked::<Brand>(&rt, rt.alloc(), Blank::new(1))
}
