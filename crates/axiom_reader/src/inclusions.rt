//! The inclusions of an axiom.

ghost use Rattle.std.specs.Prelude.{◌≡◌, ◌++◌, [], ◌∷◌, IfOk, OnOk};
ghost use Rattle.dl_base.specs.declared.axiom.NamedBasic.TheVariants.{Exists};
ghost use Rattle.axiom_reader.specs.declared.tree.RightSide.TheVariants as right_side;
ghost use Rattle.axiom_reader.specs.AxiomMeaning.{inverse_of, sub_class, apart_from_each, apart, inclusions_of};

use crate::copies::{copy_basic, copy_members, copy_role, extend_copied};
use crate::tree::{AxiomTree, Members, RightSide};
use dl_base::{Items, NamedBasic, NamedHead, NamedInclusion, NamedInclusions, NamedRole};
use std::alloc::{AllocError, Global};

/// Appends the inclusions of the left side in the members of another.
fn add_each_member(
    alloc: Global,
    inclusions: &mut NamedInclusions,
    left: &[NamedBasic],
    members: &[NamedBasic],
) -> Result<(), AllocError>
    ensures { OnOk result (inclusions.new ≡ inclusions.old ++ sub_class left.now (right_side.Members members.now)) }
{
    for basic in members {
        let body = copy_members(alloc, left)?;
        let head = NamedHead::Basic(copy_basic(alloc, basic)?);
        inclusions.push(NamedInclusion { body, head })?;
    }
    Ok(())
}

/// Appends the inclusions of the left side in the right one.
fn add_sub_class(
    alloc: Global,
    inclusions: &mut NamedInclusions,
    left: &[NamedBasic],
    right: &RightSide,
) -> Result<(), AllocError>
    ensures { OnOk result (inclusions.new ≡ inclusions.old ++ sub_class left.now right.now) }
{
    match right {
        RightSide::Members(members) => {
            add_each_member(alloc, inclusions, left, members.items())?;
        }
        RightSide::Nothing => {
            let body = copy_members(alloc, left)?;
            let head = NamedHead::Nothing;
            inclusions.push(NamedInclusion { body, head })?;
        }
    }
    Ok(())
}

/// Appends what keeps the side apart from each of the others.
fn add_apart_from_each(
    alloc: Global,
    inclusions: &mut NamedInclusions,
    side: &[NamedBasic],
    others: &[Members],
) -> Result<(), AllocError>
    ensures { OnOk result (inclusions.new ≡ inclusions.old ++ apart_from_each side.now others.now) }
{
    for other in others {
        let mut body = copy_members(alloc, side)?;
        extend_copied(alloc, &mut body, other.items())?;
        let head = NamedHead::Nothing;
        inclusions.push(NamedInclusion { body, head })?;
    }
    Ok(())
}

/// Appends what keeps the sides apart, each from those after it.
fn add_apart(
    alloc: Global,
    inclusions: &mut NamedInclusions,
    sides: &[Members],
) -> Result<(), AllocError>
    ensures { OnOk result (inclusions.new ≡ inclusions.old ++ apart sides.now) }
{
    for (i, side) in sides.iter().enumerate() {
        add_apart_from_each(alloc, inclusions, side.items(), &sides[i + 1..])?;
    }
    Ok(())
}

/// The left side that says that there is a successor by the role.
fn successors(alloc: Global, role: NamedRole) -> Result<Members, AllocError>
    ensures { IfOk result (λ m. m ≡ Exists role ∷ []) }
{
    let mut members = Items::new(alloc);
    members.push(NamedBasic::Exists(role))?;
    Ok(members)
}

/// The role the other way round.
fn inverted(role: NamedRole) -> NamedRole
    ensures { result ≡ inverse_of role }
{
    NamedRole {
        name: role.name,
        inverse: !role.inverse,
    }
}

/// Appends the inclusions of the axiom, in order.
pub(crate) fn add_inclusions(
    alloc: Global,
    inclusions: &mut NamedInclusions,
    tree: &AxiomTree,
) -> Result<(), AllocError>
    ensures { OnOk result (inclusions.new ≡ inclusions.old ++ inclusions_of tree.now) }
{
    match tree {
        AxiomTree::SubClassOf(left, right) => {
            add_sub_class(alloc, inclusions, left.items(), right)
        }
        AxiomTree::Equivalent(one, other) => {
            add_each_member(alloc, inclusions, one.items(), other.items())?;
            add_each_member(alloc, inclusions, other.items(), one.items())
        }
        AxiomTree::Disjoint(sides) => add_apart(alloc, inclusions, sides.items()),
        AxiomTree::Domain(role, right) => {
            let left = successors(alloc, copy_role(alloc, role)?)?;
            add_sub_class(alloc, inclusions, left.items(), right)
        }
        AxiomTree::Range(role, right) => {
            let left = successors(alloc, inverted(copy_role(alloc, role)?))?;
            add_sub_class(alloc, inclusions, left.items(), right)
        }
        AxiomTree::Class(_) | AxiomTree::Property(_) => Ok(()),
    }
}
