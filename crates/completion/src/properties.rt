//! The properties by which the lists of the tables are gathered, each at its place.
ghost use Rattle.std.specs.Prelude.{◌≡◌, IfOk};
ghost use Rattle.completion.specs.Numbers.{AreConceptProperties, AreRoleProperties};

use crate::gather::Property;
use dl_base::{Basic, Role};
use std::alloc::{AllocError, Global};

/// For each of so many concepts, at its place, that it is derived.
pub(crate) fn concept_properties(alloc: Global, concepts: u32) -> Result<Vec<Property>, AllocError>
    ensures { IfOk result (λ v. AreConceptProperties concepts v.items) }
{
    let mut properties = Vec::with_capacity(alloc, concepts as usize)?;
    for concept in 0..concepts {
        properties.push(Property::Derived(Basic::Concept(concept)))?;
    }
    Ok(properties)
}

/// For each of so many role names four in a row: that the role leads from there, that its witness is pointed to, and the same
/// of the inverse.
pub(crate) fn role_properties(alloc: Global, names: u32) -> Result<Vec<Property>, AllocError>
    ensures { IfOk result (λ v. AreRoleProperties names v.items) }
{
    let mut properties = Vec::with_capacity(alloc, names as usize * 4)?;
    for name in 0..names {
        let direct = Role {
            name,
            inverse: false,
        };
        properties.push(Property::Derived(Basic::Exists(direct)))?;
        properties.push(Property::Pointing(direct))?;
        properties.push(Property::Derived(Basic::Exists(direct.inverted())))?;
        properties.push(Property::Pointing(direct.inverted()))?;
    }
    Ok(properties)
}
