//! Points and live roles of small ontologies, by hand.
ghost use Rattle.std.specs.Prelude.{◌≡◌, ◌<◌, ◌≤◌, false};

use crate::RoleGraph;
use axiom_reader::read_axiom;
use dl_base::{Basic, Ontology, Role, RoleSet};
use horn_closure::{Rules, Steps};
use std::alloc::{AllocError, Global};
use std::marker::Brand;
use std::process::Abort;
use std::sync::ledger::{Blank, Ledger};
use std::test::Fail;

/// A loop of the roles 0, 1 and 2; a role 3 that points to itself and, by two conditions of which one is never met, not
/// to 0; and a role 4 behind which nothing but the way back is derived.
const AXIOMS: [&[u8]; 6] = [
    b"SubClassOf(Some(Inv(a)) Some(b))",
    b"SubClassOf(Some(Inv(b)) Some(Inv(c)))",
    b"SubClassOf(Some(c) Some(a))",
    b"SubClassOf(Some(Inv(d)) Some(d))",
    b"SubClassOf(And(Some(Inv(d)) A) Some(a))",
    b"SubClassOf(Some(Inv(e)) Some(Inv(e)))",
];

/// Roles in the order z, y, x, w, v by their places. Behind z both y and x lead to a clash, of which that of x comes first in
/// role order; w leads to itself and on to z; and behind v the way back has a clash.
const CLASHING: [&[u8]; 7] = [
    b"SubClassOf(Some(Inv(z)) Some(y))",
    b"SubClassOf(Some(Inv(z)) Some(x))",
    b"SubClassOf(Some(Inv(y)) nothing)",
    b"SubClassOf(Some(Inv(x)) nothing)",
    b"SubClassOf(Some(Inv(w)) Some(w))",
    b"SubClassOf(Some(w) Some(z))",
    b"SubClassOf(Some(v) nothing)",
];

fn role(name: u32) -> Role
    ensures { result ≡ record { name = name; inverse = false } }
{
    Role {
        name,
        inverse: false,
    }
}

fn extended(alloc: Global, o: Ontology, text: &[u8]) -> Result<Ontology, Fail> {
    match read_axiom(alloc, text) {
        Ok(axiom) => Ok(o.extend(alloc, &axiom)?),
        Err(_) => Err(AllocError)?,
    }
}

fn small(alloc: Global, axioms: &[&[u8]]) -> Result<Ontology, Fail> {
    let mut o = Ontology::new(alloc)?;
    for text in axioms {
        o = extended(alloc, o, text)?;
    }
    Ok(o)
}

/// Each of 256 roles points to the next, and the last to the first.
fn round(alloc: Global) -> Result<Ontology, Fail> {
    let mut o = Ontology::new(alloc)?;
    for name in 0..256u32 {
        let next = (name + 1) % 256;
        let text = format!(in alloc; "SubClassOf(Some(Inv(r{name})) Some(r{next}))")?;
        o = extended(alloc, o, text.as_bytes())?;
    }
    Ok(o)
}

fn graph_of<L: Ledger>(
    alloc: Global,
    o: &Ontology,
    steps: &mut Steps<L>,
) -> Result<RoleGraph, Fail> {
    let rules = Rules::new(alloc, o)?;
    let mut scratch = rules.scratch(alloc)?;
    Ok(RoleGraph::new(alloc, &rules, &mut scratch, steps)?)
}

/// What is reached from one role.
fn live_from(graph: &RoleGraph, r: Role) -> RoleSet
    requires { r.name < 256 }
{
    let mut from = RoleSet::new();
    from.add(r);
    graph.live(&from)
}

/// Roles in a list, by their names and whether they are inverses.
fn is_path(path: &[Role], names: &[(u32, bool)]) -> bool {
    path.len() == names.len()
        && path.iter().zip(names).all(|(r, (name, inverse))| r.name == *name
            && r.inverse == *inverse)
}

/// Whether the first clash from the role is of this inclusion, at the end of these roles.
fn has_clash(
    graph: &RoleGraph,
    name: u32,
    inverse: bool,
    number: u32,
    path: &[(u32, bool)],
) -> bool {
    match graph.clash_from(Role { name, inverse }) {
        Some(clash) => clash.inclusion == number && is_path(clash.path.items(), path),
        None => false,
    }
}

fn assert_clashes(rt: &impl Abort, graph: &RoleGraph) {
    let (z, x) = ((0, false), (2, false));
    assert!(rt; has_clash(graph, 0, false, 4, &[z, x]));
    assert!(rt; has_clash(graph, 1, false, 3, &[(1, false)]));
    assert!(rt; has_clash(graph, 3, false, 4, &[(3, false), z, x]));
    assert!(rt; has_clash(graph, 0, true, 4, &[(0, true), z, x]));
    assert!(rt; has_clash(graph, 4, false, 7, &[(4, false), (4, true)]));
    assert!(rt; !has_clash(graph, 9, false, 0, &[]));
}

fn assert_points(rt: &impl Abort, graph: &RoleGraph) {
    let (a, b, c, d, e) = (role(0), role(1), role(2), role(3), role(4));
    assert!(rt;
        graph.spawns(a, b) && graph.spawns(b, c.inverted()) && graph.spawns(c.inverted(), a)
    );
    assert!(rt;
        !graph.spawns(a, c.inverted()) && !graph.spawns(a, a.inverted()) && !graph.spawns(b, a)
    );
    assert!(rt; graph.spawns(d, d) && !graph.spawns(d, a) && !graph.spawns(d, d.inverted()));
    assert!(rt; !graph.spawns(e, e.inverted()) && !graph.spawns(e, e) && !graph.spawns(c, a));
    assert!(rt; !graph.spawns(role(9), role(9).inverted()) && !graph.has_role(role(9)));
    assert!(rt; graph.has_role(a));
    let behind = graph.closed_of(a);
    assert!(rt; behind.has(Basic::Exists(a.inverted())) && behind.has(Basic::Exists(b)));
    assert!(rt; !behind.has(Basic::Exists(a)) && !behind.has(Basic::Concept(0)));
    assert_eq!(rt; behind.violated(), None);
}

fn assert_live(rt: &impl Abort, graph: &RoleGraph) {
    let (a, b, c, d) = (role(0), role(1), role(2), role(3));
    let live = live_from(graph, a);
    assert!(rt; live.has(a) && live.has(b) && live.has(c.inverted()));
    assert!(rt; !live.has(c) && !live.has(d) && !live.has(a.inverted()));
    let live = live_from(graph, d);
    assert!(rt; live.has(d) && !live.has(a));
    let live = live_from(graph, role(200));
    assert!(rt; live.has(role(200)) && !live.has(a));
}

fn assert_round(rt: &impl Abort, graph: &RoleGraph) {
    let live = live_from(graph, role(17));
    for name in 0..256 {
        assert!(rt;
            live.has(role(name)) && !live.has(role(name).inverted()),
            "at {name}"
        );
    }
}

fn assert_graphs<L: Ledger>(rt: &impl Abort, alloc: Global, blank: Blank) -> Result<(), Fail>
    requires name { blank.name ≡ L.name }
    requires parts { blank.parts ≡ L.parts }
    requires some { 0 < L.parts }
{
    let mut steps: Steps<L> = Steps::new(blank);
    let pointing = small(alloc, AXIOMS.as_slice())?;
    let graph = graph_of(alloc, &pointing, &mut steps)?;
    assert_points(rt, &graph);
    assert_live(rt, &graph);
    assert_round(rt, &graph_of(alloc, &round(alloc)?, &mut steps)?);
    let clashing = small(alloc, CLASHING.as_slice())?;
    assert_clashes(rt, &graph_of(alloc, &clashing, &mut steps)?);
    Ok(())
}

#[test]
fn points_live_roles_and_clashes(rt: HostRuntime) -> Result<(), Fail> {
    assert_graphs::<Brand>(&rt, rt.alloc(), Blank::new(1))
}
