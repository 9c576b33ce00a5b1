//! Copies of the parts of a syntax tree.

ghost use Rattle.std.specs.Prelude.{◌≡◌, ◌++◌, IfOk, OnOk};

use crate::tree::Members;
use dl_base::{Items, NamedBasic, NamedRole};
use std::alloc::{AllocError, Global};

/// A role that equals this one.
pub(crate) fn copy_role(alloc: Global, role: &NamedRole) -> Result<NamedRole, AllocError>
    ensures { IfOk result (λ r. r ≡ role.now) }
{
    Ok(NamedRole {
        name: role.name.copy(alloc)?,
        inverse: role.inverse,
    })
}

/// A basic concept that equals this one.
pub(crate) fn copy_basic(alloc: Global, basic: &NamedBasic) -> Result<NamedBasic, AllocError>
    ensures { IfOk result (λ b. b ≡ basic.now) }
{
    match basic {
        NamedBasic::Concept(name) => Ok(NamedBasic::Concept(name.copy(alloc)?)),
        NamedBasic::Exists(role) => Ok(NamedBasic::Exists(copy_role(alloc, role)?)),
    }
}

/// Appends copies of the basic concepts.
pub(crate) fn extend_copied(
    alloc: Global,
    members: &mut Members,
    more: &[NamedBasic],
) -> Result<(), AllocError>
    ensures { OnOk result (members.new ≡ members.old ++ more.now) }
{
    for basic in more {
        members.push(copy_basic(alloc, basic)?)?;
    }
    Ok(())
}

/// A list that equals this one.
pub(crate) fn copy_members(alloc: Global, members: &[NamedBasic]) -> Result<Members, AllocError>
    ensures { IfOk result (λ m. m ≡ members.now) }
{
    let mut copies = Items::new(alloc);
    extend_copied(alloc, &mut copies, members)?;
    Ok(copies)
}
