//! A book that has more names than the rows.
ghost use Rattle.std.specs.Prelude.{◌↔◌, ◌≡◌, ◌<◌, IsTrue, All, IfOk, OnOk};
ghost use Rattle.clash_report.specs.Report.{AreWithinNames};
ghost use Rattle.completion.specs.Numbered.{IsRowOf};

use crate::first_clash;
use assert_tables::Assertions;
use axiom_reader::read_axiom;
use completion::Completed;
use dl_base::{Clash, Items, Name, NameBook, Ontology, Row};
use horn_closure::{Rules, Steps};
use role_graph::RoleGraph;
use std::alloc::{AllocError, Global};
use std::marker::Brand;
use std::process::Abort;
use std::sync::ledger::{Blank, Ledger};
use std::test::Fail;

fn with_axiom(alloc: Global, o: Ontology, text: &[u8]) -> Result<Ontology, AllocError> {
    match read_axiom(alloc, text) {
        Ok(axiom) => match o.extend(alloc, &axiom) {
            Ok(o) => Ok(o),
            Err(_) => Err(AllocError),
        },
        Err(_) => Err(AllocError),
    }
}

/// Nothing is in A, and B is 1.
fn ontology(alloc: Global) -> Result<Ontology, AllocError> {
    let o = with_axiom(alloc, Ontology::new(alloc)?, b"SubClassOf(A nothing)")?;
    with_axiom(alloc, o, b"Class(B)")
}

/// Puts the name into a small book.
fn put(alloc: Global, book: &mut NameBook, name: &[u8]) -> Result<(), AllocError> {
    match Name::new(alloc, name) {
        Ok(name) if book.len() < 3 => {
            book.intern(&name)?;
            Ok(())
        }
        _ => Err(AllocError),
    }
}

/// The names a, c and b, by the numbers 0, 1 and 2.
fn book(alloc: Global) -> Result<NameBook, AllocError> {
    let mut book = NameBook::new(alloc);
    put(alloc, &mut book, b"a")?;
    put(alloc, &mut book, b"c")?;
    put(alloc, &mut book, b"b")?;
    Ok(book)
}

/// Whether the row is of a concept of the ontology.
fn fits(rules: &Rules, row: Row) -> bool
    ensures { IsTrue result ↔ IsRowOf rules.now row }
{
    match row {
        Row::Concept { concept, .. } => (concept as usize) < rules.concepts().len(),
        Row::Role { role, .. } => (role as usize) < rules.roles().len(),
    }
}

/// Adds the row where it is of a concept of the ontology.
fn add(rules: &Rules, base: &mut Assertions, row: Row) -> Result<(), AllocError>
    requires { All (IsRowOf rules.now) base.old }
    ensures { OnOk result (All (IsRowOf rules.now) base.new) }
{
    if fits(rules, row) {
        base.add(row)?;
    }
    Ok(())
}

/// The individuals 1 and 2 in a concept.
fn base(alloc: Global, rules: &Rules, concept: u32) -> Result<Assertions, AllocError>
    ensures { IfOk result (All (IsRowOf rules.now)) }
{
    let mut base = Assertions::new(alloc);
    for individual in 1..3 {
        add(
            rules,
            &mut base,
            Row::Concept {
                concept,
                individual,
            },
        )?;
    }
    Ok(base)
}

/// Whether each individual has a name in the book.
fn are_named(t: &Completed, book: &NameBook) -> bool
    ensures { IsTrue result → AreWithinNames t.now book.now }
{
    match t.next_individual(Some(2)) {
        Some(_) => false,
        None => book.len() == 3,
    }
}

/// The first clash where the two individuals are in the concept.
fn clash<L: Ledger>(
    alloc: Global,
    concept: u32,
    steps: &mut Steps<L>,
) -> Result<Option<Clash>, AllocError> {
    let o = ontology(alloc)?;
    let rules = Rules::new(alloc, &o)?;
    let mut scratch = rules.scratch(alloc)?;
    let graph = RoleGraph::new(alloc, &rules, &mut scratch, steps)?;
    let base = base(alloc, &rules, concept)?;
    let t = Completed::afresh(alloc, &rules, &graph, &base, &mut scratch, steps)?;
    let book = book(alloc)?;
    if are_named(&t, &book) {
        first_clash(alloc, &t, &graph, &o, &book)
    } else {
        Err(AllocError)
    }
}

fn is_at_b(clash: Option<Clash>) -> bool {
    match clash {
        Some(clash) => {
            clash.inclusion == 1
                && clash.name.bytes() == b"b".as_slice()
                && clash.path.items().is_empty()
        }
        None => false,
    }
}

fn assert_least_of_the_rows<L: Ledger>(
    rt: &impl Abort,
    alloc: Global,
    blank: Blank,
) -> Result<(), Fail>
    requires name { blank.name ≡ L.name }
    requires parts { blank.parts ≡ L.parts }
    requires some { 0 < L.parts }
{
    let mut steps: Steps<L> = Steps::new(blank);
    assert!(rt; is_at_b(clash(alloc, 0, &mut steps)?));
    assert!(rt; clash(alloc, 1, &mut steps)?.is_none());
    Ok(())
}

#[test]
fn a_name_in_no_row_is_passed_over(rt: HostRuntime) -> Result<(), Fail> {
    assert_least_of_the_rows::<Brand>(&rt, rt.alloc(), Blank::new(1))
}
