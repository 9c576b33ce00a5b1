//! The first clash from each role, found level by level: those with one role first.
ghost use Rattle.std.specs.Prelude.{◌≡◌, ◌<◌, ◌≤◌, ◌+◌, ◌*◌, ◌∷◌, [], IfOk, Some, length, slice_get};
ghost use Rattle.dl_base.specs.Sets.{role_place};
ghost use Rattle.role_graph.specs.Behind.{AreClosures};
ghost use Rattle.role_graph.specs.FirstClashes.{AreFirst};
ghost use Rattle.role_graph.specs.Levels.{IsLevel, unknown};

use crate::clash::RoleClash;
use crate::closures::{BothWays, closed_behind_of, place_of, role_at};
use crate::order::least_derived;
use dl_base::{Items, Role};
use horn_closure::Rules;
use std::alloc::{AllocError, Global};

/// For each role, by its place, the first clash among the lists that begin with it.
pub(crate) fn first_clashes(
    alloc: Global,
    rules: &Rules,
    closed: &[BothWays],
) -> Result<Vec<Option<RoleClash>>, AllocError>
    requires { AreClosures rules.now.inclusions (length rules.now.roles) closed.now }
    ensures { IfOk result (λ v. AreFirst rules.now v.items) }
{
    let _ = rules.roles();
    let mut clashes = Vec::new(alloc);
    let mut level = first_level(alloc, rules, closed, &mut clashes)?;
    while !level.is_empty() {
        level = next_level(
            alloc,
            rules,
            closed,
            level.as_slice(),
            clashes.as_mut_slice(),
        )?;
    }
    Ok(clashes)
}

/// The clashes with one role, and these roles.
fn first_level(
    alloc: Global,
    rules: &Rules,
    closed: &[BothWays],
    clashes: &mut Vec<Option<RoleClash>>,
) -> Result<Vec<Role>, AllocError>
    requires closures { AreClosures rules.now.inclusions (length rules.now.roles) closed.now }
    requires none { clashes.old.items ≡ [] }
    ensures { IfOk result (λ level. IsLevel rules.now clashes.new.items level.items) }
{
    let names = rules.roles().len();
    let mut level = Vec::new(alloc);
    for place in 0..2 * names {
        let r = role_at(place);
        match closed_behind_of(closed, r).violated() {
            Some(inclusion) => {
                clashes.push(Some(own_clash(alloc, r, inclusion)?))?;
                level.push(r)?;
            }
            None => clashes.push(None)?,
        }
    }
    Ok(level)
}

/// Adds the clashes with one more role than those from the level, and gives the roles that they begin with.
fn next_level(
    alloc: Global,
    rules: &Rules,
    closed: &[BothWays],
    level: &[Role],
    clashes: &mut [Option<RoleClash>],
) -> Result<Vec<Role>, AllocError>
    requires closures { AreClosures rules.now.inclusions (length rules.now.roles) closed.now }
    requires level { IsLevel rules.now clashes.old level.now }
    ensures level { IfOk result (λ next. IsLevel rules.now clashes.new next.items) }
    ensures fewer { IfOk result (λ next. unknown clashes.new + length next.items ≡ unknown clashes.old) }
{
    let names = rules.roles().len();
    let mut next = Vec::new(alloc);
    for place in 0..2 * names {
        let r = role_at(place);
        if clashes[place].is_none() {
            if let Some(s) = least_derived(rules, closed_behind_of(closed, r), level) {
                let clash = led_to(alloc, r, clash_of(clashes, s))?;
                clashes[place] = Some(clash);
                next.push(r)?;
            }
        }
    }
    Ok(next)
}

/// The clash that is known of a role.
fn clash_of(clashes: &[Option<RoleClash>], s: Role) -> &RoleClash
    requires placed { s.name < 256 }
    requires known { (c : _) × (slice_get clashes.now (role_place s) ≡ Some (Some c)) }
    ensures { slice_get clashes.now (role_place s) ≡ Some (Some result.now) }
{
    match &clashes[place_of(s)] {
        Some(clash) => clash,
        None => unreachable!(),
    }
}

/// The clash with one role.
fn own_clash(alloc: Global, r: Role, inclusion: u32) -> Result<RoleClash, AllocError>
    ensures { IfOk result (λ c. (c.path ≡ r ∷ []) × (c.inclusion ≡ inclusion)) }
{
    let mut path = Items::new(alloc);
    path.push(r)?;
    Ok(RoleClash { inclusion, path })
}

/// The clash with one more role in front.
fn led_to(alloc: Global, r: Role, clash: &RoleClash) -> Result<RoleClash, AllocError>
    ensures { IfOk result (λ c. (c.path ≡ r ∷ clash.now.path) × (c.inclusion ≡ clash.now.inclusion)) }
{
    let mut path = Items::new(alloc);
    path.push(r)?;
    for s in clash.path.items() {
        path.push(*s)?;
    }
    Ok(RoleClash {
        inclusion: clash.inclusion,
        path,
    })
}
