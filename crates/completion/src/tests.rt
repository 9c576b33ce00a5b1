//! Small bases, by hand.
ghost use Rattle.std.specs.Prelude.{◌≡◌, ◌<◌, ◌+◌, ◌↔◌, IsTrue, All, IfOk, OnOk, length};
ghost use Rattle.completion.specs.Numbered.{IsRowOf};
ghost use Rattle.horn_closure.specs.Closure.{IsScratchOf};
ghost use Rattle.role_graph.specs.Graph.{IsGraphOf};

use crate::Completed;
use assert_tables::Assertions;
use axiom_reader::read_axiom;
use dl_base::{Basic, Elem, Hint, Ontology, Role, Row, Tables, Witness};
use horn_closure::{Rules, Scratch, Steps};
use role_graph::RoleGraph;
use std::alloc::{AllocError, Global};
use std::marker::Brand;
use std::process::Abort;
use std::sync::ledger::{Blank, Ledger};
use std::test::Fail;

/// Concepts: A is 0, B is 1 and C is 2. Roles: r is 0, s is 1 and t is 2. A needs a successor by r, what is reached by r is
/// in B and needs one by s, what is reached by s needs one by r, and C needs one by the inverse of t.
const AXIOMS: [&[u8]; 5] = [
    b"SubClassOf(A Some(r))",
    b"SubClassOf(Some(Inv(r)) B)",
    b"SubClassOf(Some(Inv(r)) Some(s))",
    b"SubClassOf(Some(Inv(s)) Some(r))",
    b"SubClassOf(C Some(Inv(t)))",
];

const R: Role = Role {
    name: 0,
    inverse: false,
};

const S: Role = Role {
    name: 1,
    inverse: false,
};

const BACK: Role = Role {
    name: 2,
    inverse: true,
};

const fn concept(concept: u32, individual: u32) -> Row {
    Row::Concept {
        concept,
        individual,
    }
}

const fn role(role: u32, from: u32, to: u32) -> Row {
    Row::Role { role, from, to }
}

fn extended(alloc: Global, o: Ontology, text: &[u8]) -> Result<Ontology, AllocError> {
    match read_axiom(alloc, text) {
        Ok(axiom) => match o.extend(alloc, &axiom) {
            Ok(o) => Ok(o),
            Err(_) => Err(AllocError),
        },
        Err(_) => Err(AllocError),
    }
}

fn ontology(alloc: Global) -> Result<Ontology, AllocError> {
    let mut o = Ontology::new(alloc)?;
    for text in AXIOMS {
        o = extended(alloc, o, text)?;
    }
    Ok(o)
}

/// Whether the row is of a concept or a role of the ontology.
fn fits(rules: &Rules, row: Row) -> bool
    ensures { IsTrue result ↔ IsRowOf rules.now row }
{
    match row {
        Row::Concept { concept, .. } => (concept as usize) < rules.concepts().len(),
        Row::Role { role, .. } => (role as usize) < rules.roles().len(),
    }
}

/// Adds the row where it is of a concept or a role of the ontology.
fn add(rules: &Rules, base: &mut Assertions, row: Row) -> Result<(), AllocError>
    requires { All (IsRowOf rules.now) base.old }
    ensures { OnOk result (All (IsRowOf rules.now) base.new) }
{
    if fits(rules, row) {
        base.add(row)?;
    }
    Ok(())
}

/// The rows that are of a concept or a role of the ontology.
fn base(alloc: Global, rules: &Rules, rows: &[Row]) -> Result<Assertions, AllocError>
    ensures { IfOk result (All (IsRowOf rules.now)) }
{
    let mut base = Assertions::new(alloc);
    for row in rows {
        add(rules, &mut base, *row)?;
    }
    Ok(base)
}

fn completed<L: Ledger>(
    alloc: Global,
    rows: &[Row],
    steps: &mut Steps<L>,
) -> Result<Completed, AllocError> {
    let rules = Rules::new(alloc, &ontology(alloc)?)?;
    let base = base(alloc, &rules, rows)?;
    let mut scratch = rules.scratch(alloc)?;
    let graph = RoleGraph::new(alloc, &rules, &mut scratch, steps)?;
    Completed::afresh(alloc, &rules, &graph, &base, &mut scratch, steps)
}

/// Whether the role has a witness of the first generation.
fn is_live(c: &Completed, role: Role) -> bool {
    c.book().is_current(Witness {
        role,
        generation: 1,
    })
}

/// Whether the basic concept was derived at the individual.
fn has(c: &Completed, individual: u32, b: Basic) -> Option<bool> {
    match c.closed_of(individual) {
        Some(closed) => Some(closed.has(b)),
        None => None,
    }
}

/// Two individuals need a successor by r, and a chain with a loop leads on from it. B is derived at witnesses alone.
fn assert_chain<L: Ledger>(
    rt: &impl Abort,
    alloc: Global,
    steps: &mut Steps<L>,
) -> Result<(), Fail> {
    let c = completed(alloc, &[concept(0, 7), concept(0, 500_000_000)], steps)?;
    assert!(rt; is_live(&c, R) && is_live(&c, S) && !is_live(&c, BACK));
    assert_eq!(rt; c.next_individual(None), Some(7));
    assert_eq!(rt; c.next_individual(Some(7)), Some(500_000_000));
    assert_eq!(rt; c.next_individual(Some(500_000_000)), None);
    assert_eq!(rt; has(&c, 7, Basic::Exists(R)), Some(true));
    assert_eq!(rt; has(&c, 7, Basic::Concept(1)), Some(false));
    assert_eq!(rt; has(&c, 8, Basic::Exists(R)), None);
    assert_chain_rows(rt, &c);
    Ok(())
}

/// A successor by r that a row gives needs one by s; where a row gives that too, nothing is needed.
fn assert_named<L: Ledger>(
    rt: &impl Abort,
    alloc: Global,
    steps: &mut Steps<L>,
) -> Result<(), Fail> {
    let c = completed(alloc, &[concept(0, 7), role(0, 7, 3)], steps)?;
    assert!(rt; is_live(&c, R) && is_live(&c, S));
    assert_named_rows(rt, &c);
    let c = completed(alloc, &[role(0, 7, 3), role(1, 3, 7)], steps)?;
    assert!(rt; !is_live(&c, R) && !is_live(&c, S));
    Ok(())
}

/// C needs a successor by the inverse of t, which a row of t gives only to where it ends.
fn assert_inverse<L: Ledger>(
    rt: &impl Abort,
    alloc: Global,
    steps: &mut Steps<L>,
) -> Result<(), Fail> {
    let c = completed(alloc, &[concept(2, 3), role(2, 3, 9)], steps)?;
    assert!(rt; is_live(&c, BACK) && !is_live(&c, R));
    assert_inverse_rows(rt, &c);
    let c = completed(alloc, &[concept(2, 3), role(2, 9, 3)], steps)?;
    assert!(rt; !is_live(&c, BACK));
    Ok(())
}

const NAMED: [Elem; 3] = [Elem::Named(3), Elem::Named(7), Elem::Named(500_000_000)];

fn shared(role: Role, generation: u64) -> Elem {
    Elem::Shared(Witness { role, generation })
}

/// The first three elements in the concept.
fn members<T: Tables>(t: &T, concept: u32) -> [Option<Elem>; 3] {
    let first = t.next_concept(concept, None);
    let second = match first {
        Some(_) => t.next_concept(concept, first),
        None => None,
    };
    let third = match second {
        Some(_) => t.next_concept(concept, second),
        None => None,
    };
    [first, second, third]
}

/// The first three elements from which the role leads.
fn sources<T: Tables>(t: &T, role: Role) -> [Option<Elem>; 3] {
    let first = t.next_source(role, None);
    let second = match first {
        Some(_) => t.next_source(role, first),
        None => None,
    };
    let third = match second {
        Some(_) => t.next_source(role, second),
        None => None,
    };
    [first, second, third]
}

/// The first three elements to which the role leads from this one.
fn targets<T: Tables>(t: &T, role: Role, from: Elem) -> [Option<Elem>; 3] {
    let first = t.next_edge(role, from, None);
    let second = match first {
        Some(_) => t.next_edge(role, from, first),
        None => None,
    };
    let third = match second {
        Some(_) => t.next_edge(role, from, second),
        None => None,
    };
    [first, second, third]
}

fn counts<T: Tables>(t: &T) -> [u64; 3] {
    [
        t.count(Basic::Exists(R)),
        t.count(Basic::Exists(R.inverted())),
        t.count(Basic::Concept(1)),
    ]
}

fn has_rows<T: Tables>(t: &T, role: u32, from: Elem, to: Elem) -> [bool; 3] {
    [
        t.has_role(role, from, to),
        t.has_role(role, to, from),
        t.has_concept(1, to),
    ]
}

/// A chain of witnesses with a loop, behind two individuals. B is derived at a witness alone.
fn assert_chain_rows<T: Tables>(rt: &impl Abort, t: &T) {
    let (r, s) = (shared(R, 1), shared(S, 1));
    assert_eq!(rt; members(t, 0), [Some(NAMED[1]), Some(NAMED[2]), None]);
    assert_eq!(rt; members(t, 1), [Some(r), None, None]);
    assert_eq!(rt; sources(t, R), [Some(NAMED[1]), Some(NAMED[2]), Some(s)]);
    assert_eq!(rt; targets(t, R, NAMED[1]), [Some(r), None, None]);
    assert_eq!(rt;
        targets(t, R.inverted(), r),
        [Some(NAMED[1]), Some(NAMED[2]), Some(s)]
    );
    assert_eq!(rt; counts(t), [3, 1, 1]);
    assert_eq!(rt; has_rows(t, 0, s, r), [true, false, true]);
}

/// A named successor, and no witness beside it.
fn assert_named_rows<T: Tables>(rt: &impl Abort, t: &T) {
    assert_eq!(rt; targets(t, R, NAMED[1]), [Some(NAMED[0]), None, None]);
    assert_eq!(rt;
        targets(t, R.inverted(), NAMED[0]),
        [Some(NAMED[1]), None, None]
    );
    assert_eq!(rt; has_rows(t, 0, NAMED[1], NAMED[0]), [true, false, true]);
}

/// The row to the witness of an inverse role is turned, and so leads from it.
fn assert_inverse_rows<T: Tables>(rt: &impl Abort, t: &T) {
    let back = shared(BACK, 1);
    assert_eq!(rt;
        sources(t, BACK.inverted()),
        [Some(NAMED[0]), Some(back), None]
    );
    assert_eq!(rt; targets(t, BACK, NAMED[0]), [Some(back), None, None]);
    assert_eq!(rt; has_rows(t, 2, back, NAMED[0]), [true, false, false]);
}

/// What is completed of these rows behind what was completed before, which was renewed a few times at most.
fn next<L: Ledger>(
    before: &Completed,
    alloc: Global,
    rules: &Rules,
    graph: &RoleGraph,
    rows: &[Row],
    scratch: &mut Scratch,
    steps: &mut Steps<L>,
) -> Result<Completed, AllocError>
    requires graph { IsGraphOf rules.now graph.now }
    requires scratch { IsScratchOf rules.now scratch.old }
    requires roles { before.now.book.roles ≡ length rules.now.roles }
    ensures scratch { IsScratchOf rules.now scratch.new }
    ensures roles { IfOk result (λ c. c.book.roles ≡ length rules.now.roles) }
{
    if before.book().calls() >= 10 {
        return Err(AllocError);
    }
    let base = base(alloc, rules, rows)?;
    before.renew(alloc, rules, graph, &base, scratch, steps)
}

/// The generation of the role, where it is live.
fn generation(c: &Completed, role: Role) -> Option<u64> {
    match c.book().current(role) {
        Some(witness) => Some(witness.generation),
        None => None,
    }
}

fn generations(c: &Completed) -> [Option<u64>; 4] {
    [
        generation(c, R),
        generation(c, S),
        generation(c, BACK),
        generation(c, BACK.inverted()),
    ]
}

fn assert_generations(rt: &impl Abort, c: &Completed, wanted: [Option<u64>; 4]) {
    assert_eq!(rt; generations(c), wanted);
}

/// R stays live, dies and comes back, beside a role that becomes live later and one that never does.
fn assert_lives<L: Ledger>(
    rt: &impl Abort,
    alloc: Global,
    rules: &Rules,
    graph: &RoleGraph,
    first: &Completed,
    scratch: &mut Scratch,
    steps: &mut Steps<L>,
) -> Result<(), Fail>
    requires graph { IsGraphOf rules.now graph.now }
    requires scratch { IsScratchOf rules.now scratch.old }
    requires roles { first.now.book.roles ≡ length rules.now.roles }
{
    let rows = [concept(0, 7), concept(2, 3)];
    let stays = next(first, alloc, rules, graph, &rows, scratch, steps)?;
    assert_generations(rt, &stays, [Some(1), Some(1), Some(1), None]);
    let dies = next(&stays, alloc, rules, graph, &rows[1..], scratch, steps)?;
    assert_generations(rt, &dies, [None, None, Some(1), None]);
    let back = next(&dies, alloc, rules, graph, &rows[..1], scratch, steps)?;
    assert_generations(rt, &back, [Some(2), Some(2), None, None]);
    assert_back_rows(rt, &back);
    Ok(())
}

/// The witness of the role that came back is another one.
fn assert_back_rows<T: Tables>(rt: &impl Abort, t: &T) {
    assert_eq!(rt; members(t, 1), [Some(shared(R, 2)), None, None]);
}

fn assert_renewals<L: Ledger>(
    rt: &impl Abort,
    alloc: Global,
    steps: &mut Steps<L>,
) -> Result<(), Fail> {
    let rules = Rules::new(alloc, &ontology(alloc)?)?;
    let mut scratch = rules.scratch(alloc)?;
    let graph = RoleGraph::new(alloc, &rules, &mut scratch, steps)?;
    let base = base(alloc, &rules, &[concept(0, 7)])?;
    let first = Completed::afresh(alloc, &rules, &graph, &base, &mut scratch, steps)?;
    assert_generations(rt, &first, [Some(1), Some(1), None, None]);
    assert_lives(rt, alloc, &rules, &graph, &first, &mut scratch, steps)
}

const PLACES: [usize; 6] = [0, 1, 2, 3, 5, usize::MAX];

/// The next elements behind this one, in two concepts and for two roles, each with the hint at this place.
fn next_near<T: Tables>(t: &T, after: Option<Elem>, place: usize) -> [Option<Elem>; 4] {
    let hint = Hint { place };
    let (mut first, mut second, mut third, mut fourth) = (hint, hint, hint, hint);
    [
        t.next_concept_near(0, after, &mut first),
        t.next_concept_near(1, after, &mut second),
        t.next_source_near(R, after, &mut third),
        t.next_source_near(R.inverted(), after, &mut fourth),
    ]
}

fn next_plain<T: Tables>(t: &T, after: Option<Elem>) -> [Option<Elem>; 4] {
    [
        t.next_concept(0, after),
        t.next_concept(1, after),
        t.next_source(R, after),
        t.next_source(R.inverted(), after),
    ]
}

/// The next elements behind this one to which r and its inverse lead, each with the hint at this place.
fn edges_near<T: Tables>(
    t: &T,
    from: Elem,
    after: Option<Elem>,
    place: usize,
) -> [Option<Elem>; 2] {
    let hint = Hint { place };
    let (mut first, mut second) = (hint, hint);
    [
        t.next_edge_near(R, from, after, &mut first),
        t.next_edge_near(R.inverted(), from, after, &mut second),
    ]
}

fn edges_plain<T: Tables>(t: &T, from: Elem, after: Option<Elem>) -> [Option<Elem>; 2] {
    [
        t.next_edge(R, from, after),
        t.next_edge(R.inverted(), from, after),
    ]
}

/// Wherever the hint is, what is found behind the element is what is found without it.
fn assert_near<T: Tables>(rt: &impl Abort, t: &T, after: Option<Elem>) {
    let (seven, witness) = (NAMED[1], shared(R, 1));
    for place in PLACES {
        assert_eq!(rt; next_near(t, after, place), next_plain(t, after));
        assert_eq!(rt;
            edges_near(t, seven, after, place),
            edges_plain(t, seven, after)
        );
        assert_eq!(rt;
            edges_near(t, witness, after, place),
            edges_plain(t, witness, after)
        );
    }
}

fn assert_all_near<T: Tables>(rt: &impl Abort, t: &T) {
    let behind = [
        None,
        Some(NAMED[0]),
        Some(NAMED[1]),
        Some(NAMED[2]),
        Some(shared(R, 1)),
        Some(shared(S, 1)),
    ];
    for after in behind {
        assert_near(rt, t, after);
    }
}

/// The first four elements from which the role leads, each with the hint that the one before left, and where the hint is at
/// the end.
fn walked_sources<T: Tables>(t: &T, role: Role) -> ([Option<Elem>; 4], usize) {
    let mut hint = Hint { place: 0 };
    let mut walked = [None; 4];
    let mut after = None;
    for place in 0..walked.len() {
        after = t.next_source_near(role, after, &mut hint);
        walked[place] = after;
    }
    (walked, hint.place)
}

/// Rows among individuals, in the order of what they lead from, and behind them a witness. The hint goes from one to the next.
fn assert_edges_walked<T: Tables>(rt: &impl Abort, t: &T) {
    let mut hint = Hint { place: 0 };
    assert_eq!(rt;
        t.next_edge_near(R, NAMED[0], None, &mut hint),
        Some(NAMED[1])
    );
    assert_eq!(rt;
        t.next_edge_near(R, NAMED[0], Some(NAMED[1]), &mut hint),
        None
    );
    assert_eq!(rt; hint.place, 1);
    assert_eq!(rt;
        t.next_edge_near(R, NAMED[1], None, &mut hint),
        Some(NAMED[0])
    );
    assert_eq!(rt;
        t.next_edge_near(R, NAMED[1], Some(NAMED[0]), &mut hint),
        Some(NAMED[2])
    );
    assert_eq!(rt; hint.place, 3);
    assert_eq!(rt;
        t.next_edge_near(R, NAMED[2], None, &mut hint),
        Some(shared(R, 1))
    );
}

/// Three rows of r among individuals, and a witness that the last of them needs.
fn assert_hints<L: Ledger>(
    rt: &impl Abort,
    alloc: Global,
    steps: &mut Steps<L>,
) -> Result<(), Fail> {
    let rows = [
        role(0, 3, 7),
        role(0, 7, 3),
        role(0, 7, 500_000_000),
        concept(0, 500_000_000),
    ];
    let c = completed(alloc, &rows, steps)?;
    assert_all_near(rt, &c);
    assert_edges_walked(rt, &c);
    let (r, s) = (shared(R, 1), shared(S, 1));
    let all = [Some(NAMED[0]), Some(NAMED[1]), Some(NAMED[2]), Some(s)];
    assert_eq!(rt; walked_sources(&c, R), (all, 4));
    let all = [Some(NAMED[0]), Some(NAMED[1]), Some(NAMED[2]), Some(r)];
    assert_eq!(rt; walked_sources(&c, S), (all, 4));
    Ok(())
}

fn assert_bases<L: Ledger>(rt: &impl Abort, alloc: Global, blank: Blank) -> Result<(), Fail>
    requires name { blank.name ≡ L.name }
    requires parts { blank.parts ≡ L.parts }
    requires some { 0 < L.parts }
{
    let mut steps: Steps<L> = Steps::new(blank);
    assert_chain(rt, alloc, &mut steps)?;
    assert_named(rt, alloc, &mut steps)?;
    assert_inverse(rt, alloc, &mut steps)?;
    assert_hints(rt, alloc, &mut steps)?;
    assert_renewals(rt, alloc, &mut steps)
}

#[test]
fn individuals_and_witnesses(rt: HostRuntime) -> Result<(), Fail> {
    assert_bases::<Brand>(&rt, rt.alloc(), Blank::new(1))
}
