//! The order of clashes behind roles.
ghost use Rattle.std.specs.Prelude.{◌≡◌, ◌<◌, All, MatchOption, length};
ghost use Rattle.std.specs.Cmp.Lexicographic.{slice_cmp};
ghost use Rattle.std.specs.Option.{option_copied};
ghost use Rattle.dl_base.specs.Clashes.{role_cmp};
ghost use Rattle.role_graph.specs.FirstClashes.{clash_cmp};
ghost use Rattle.clash_report.specs.After.{IsLesserClash};

use dl_base::{Ontology, Role};
use role_graph::RoleClash;
use std::cmp::Ordering;

/// How two roles of the ontology stand to each other: by the bytes of their names, direct before inverse.
fn compared(o: &Ontology, r: Role, s: Role) -> Ordering
    requires first { r.name < length o.now.roles }
    requires second { s.name < length o.now.roles }
    ensures { result ≡ role_cmp o.now r s }
{
    let names = o.roles();
    names
        .name(r.name)
        .cmp(names.name(s.name))
        .then(r.inverse.cmp(&s.inverse))
}

/// How two lists of roles of the ontology stand to each other, role by role.
fn compared_paths(o: &Ontology, c: &[Role], d: &[Role]) -> Ordering
    requires first { All (λ r. r.name < length o.now.roles) c.now }
    requires second { All (λ r. r.name < length o.now.roles) d.now }
    ensures { result ≡ slice_cmp (role_cmp o.now) c.now d.now }
{
    let both = c.len().min(d.len());
    for i in 0..both {
        let order = compared(o, c[i], d[i]);
        if order != Ordering::Equal {
            return order;
        }
    }
    c.len().cmp(&d.len())
}

/// How two clashes stand to each other: by the number of roles, then role by role, then by the inclusion.
fn compared_clashes(o: &Ontology, c: &RoleClash, d: &RoleClash) -> Ordering
    requires first { All (λ r. r.name < length o.now.roles) c.now.path }
    requires second { All (λ r. r.name < length o.now.roles) d.now.path }
    ensures { result ≡ clash_cmp o.now c.now d.now }
{
    let paths = compared_paths(o, c.path.items(), d.path.items());
    let lengths = c.path.items().len().cmp(&d.path.items().len());
    lengths.then(paths.then(c.inclusion.cmp(&d.inclusion)))
}

/// The clash that comes first of the known one and another, where there are any.
pub(crate) fn lesser<'a>(
    o: &Ontology,
    known: Option<&'a RoleClash>,
    other: Option<&'a RoleClash>,
) -> Option<&'a RoleClash>
    requires known { MatchOption known (Unit {0}) (λ c. All (λ r. r.name < length o.now.roles) c.now.path) }
    requires other { MatchOption other (Unit {0}) (λ c. All (λ r. r.name < length o.now.roles) c.now.path) }
    ensures { IsLesserClash o.now (option_copied known.entry) (option_copied other.entry) (option_copied result) }
{
    match known {
        None => other,
        Some(c) => match other {
            None => known,
            Some(d) => match compared_clashes(o, d, c) {
                Ordering::Less => other,
                _ => known,
            },
        },
    }
}
