//! The lines of a small base.
ghost use Rattle.std.specs.Prelude.{◌↔◌, ◌≡◌, ◌<◌, IsTrue, All, IfOk, OnOk};
ghost use Rattle.completion.specs.Numbered.{IsRowOf};
ghost use Rattle.horn_closure.specs.Closure.{IsScratchOf};
ghost use Rattle.role_graph.specs.Graph.{IsGraphOf};

use crate::table_lines;
use assert_tables::Assertions;
use axiom_reader::read_axiom;
use completion::Completed;
use dl_base::{Name, NameBook, Ontology, Row};
use horn_closure::{Rules, Scratch, Steps};
use reply_text::TableLines;
use role_graph::RoleGraph;
use std::alloc::{AllocError, Global};
use std::marker::Brand;
use std::process::Abort;
use std::sync::ledger::{Blank, Ledger};
use std::test::Fail;

fn with_axiom(alloc: Global, o: Ontology, text: &[u8]) -> Result<Ontology, AllocError> {
    match read_axiom(alloc, text) {
        Ok(axiom) => match o.extend(alloc, &axiom) {
            Ok(o) => Ok(o),
            Err(_) => Err(AllocError),
        },
        Err(_) => Err(AllocError),
    }
}

/// Whatever is in Z has a successor by r, and whatever is in B has r behind it; what r leads to is in B. Nothing is in D.
fn ontology(alloc: Global) -> Result<Ontology, AllocError> {
    let o = with_axiom(alloc, Ontology::new(alloc)?, b"SubClassOf(Z Some(r))")?;
    let o = with_axiom(alloc, o, b"SubClassOf(B Some(Inv(r)))")?;
    let o = with_axiom(alloc, o, b"SubClassOf(Some(Inv(r)) B)")?;
    with_axiom(alloc, o, b"SubClassOf(D Some(s))")
}

/// Puts the name into a small book.
fn put(alloc: Global, book: &mut NameBook, name: &[u8]) -> Result<(), AllocError> {
    match Name::new(alloc, name) {
        Ok(name) if book.len() < 3 => {
            book.intern(&name)?;
            Ok(())
        }
        _ => Err(AllocError),
    }
}

/// The names a, c and b, by the numbers 0, 1 and 2.
fn book(alloc: Global) -> Result<NameBook, AllocError> {
    let mut book = NameBook::new(alloc);
    put(alloc, &mut book, b"a")?;
    put(alloc, &mut book, b"c")?;
    put(alloc, &mut book, b"b")?;
    Ok(book)
}

/// Whether the row is of a concept of the ontology.
fn fits(rules: &Rules, row: Row) -> bool
    ensures { IsTrue result ↔ IsRowOf rules.now row }
{
    match row {
        Row::Concept { concept, .. } => (concept as usize) < rules.concepts().len(),
        Row::Role { role, .. } => (role as usize) < rules.roles().len(),
    }
}

/// Adds that the individual is in the concept, where the ontology has that.
fn add(
    rules: &Rules,
    base: &mut Assertions,
    concept: u32,
    individual: u32,
) -> Result<(), AllocError>
    requires { All (IsRowOf rules.now) base.old }
    ensures { OnOk result (All (IsRowOf rules.now) base.new) }
{
    let row = Row::Concept {
        concept,
        individual,
    };
    if fits(rules, row) {
        base.add(row)?;
    }
    Ok(())
}

/// The individuals 1 and 2 in Z, and 2 in B.
fn base(alloc: Global, rules: &Rules) -> Result<Assertions, AllocError>
    ensures { IfOk result (All (IsRowOf rules.now)) }
{
    let mut base = Assertions::new(alloc);
    add(rules, &mut base, 0, 1)?;
    add(rules, &mut base, 0, 2)?;
    add(rules, &mut base, 1, 2)?;
    Ok(base)
}

/// The lines of the tables, where the individuals have the book's names.
fn lines_of(alloc: Global, o: &Ontology, tables: &Completed) -> Result<TableLines, AllocError> {
    let book = book(alloc)?;
    table_lines(alloc, tables, o, &book)
}

/// The lines of the base's tables, where the graph is the ontology's.
fn completed_lines<L: Ledger>(
    alloc: Global,
    o: &Ontology,
    rules: &Rules,
    graph: &RoleGraph,
    scratch: &mut Scratch,
    steps: &mut Steps<L>,
) -> Result<TableLines, AllocError>
    requires graph { IsGraphOf rules.now graph.now }
    requires scratch { IsScratchOf rules.now scratch.old }
{
    let base = base(alloc, rules)?;
    let tables = Completed::afresh(alloc, rules, graph, &base, scratch, steps)?;
    lines_of(alloc, o, &tables)
}

/// The lines of the base's tables, where the rules are the ontology's.
fn lines_by<L: Ledger>(
    alloc: Global,
    o: &Ontology,
    rules: &Rules,
    steps: &mut Steps<L>,
) -> Result<TableLines, AllocError> {
    let mut scratch = rules.scratch(alloc)?;
    let graph = RoleGraph::new(alloc, rules, &mut scratch, steps)?;
    completed_lines(alloc, o, rules, &graph, &mut scratch, steps)
}

/// The lines of the base's tables.
fn small_lines<L: Ledger>(alloc: Global, steps: &mut Steps<L>) -> Result<TableLines, AllocError> {
    let o = ontology(alloc)?;
    let rules = Rules::new(alloc, &o)?;
    lines_by(alloc, &o, &rules, steps)
}

/// Whether the line at the place, counted from 0, is this text.
fn is_line(lines: &TableLines, place: usize, text: &[u8]) -> bool {
    match lines.items().get(place) {
        Some(line) => line.text() == text,
        None => false,
    }
}

fn are_witnesses(lines: &TableLines) -> bool {
    is_line(lines, 0, b"witness r 1") && is_line(lines, 1, b"witness Inv(r) 1")
}

fn are_concepts(lines: &TableLines) -> bool {
    is_line(lines, 2, b"concept B b")
        && is_line(lines, 3, b"concept B *r")
        && is_line(lines, 4, b"concept Z b")
        && is_line(lines, 5, b"concept Z c")
}

fn are_roles(lines: &TableLines) -> bool {
    is_line(lines, 6, b"role r b *r")
        && is_line(lines, 7, b"role r c *r")
        && is_line(lines, 8, b"role r *Inv(r) b")
}

fn assert_small_lines<L: Ledger>(rt: &impl Abort, alloc: Global, blank: Blank) -> Result<(), Fail>
    requires name { blank.name ≡ L.name }
    requires parts { blank.parts ≡ L.parts }
    requires some { 0 < L.parts }
{
    let mut steps: Steps<L> = Steps::new(blank);
    let lines = small_lines(alloc, &mut steps)?;
    assert!(rt; lines.items().len() == 9);
    assert!(rt; are_witnesses(&lines));
    assert!(rt; are_concepts(&lines));
    assert!(rt; are_roles(&lines));
    Ok(())
}

#[test]
fn lines_go_by_names(rt: HostRuntime) -> Result<(), Fail> {
    assert_small_lines::<Brand>(&rt, rt.alloc(), Blank::new(1))
}
