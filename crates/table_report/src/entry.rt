//! What the lines of tables say, by names that are borrowed.

use dl_base::Name;

/// A role by its name. Roles are ordered by the bytes of their names, direct before inverse.
#[derive(Clone, Copy, PartialEq, Eq, PartialOrd, Ord)]
pub(crate) struct RoleRef<'a> {
    pub(crate) name: &'a Name,
    pub(crate) inverse: bool,
}

/// An individual, or the witness of a role. Individuals come first.
#[derive(Clone, Copy, PartialEq, Eq, PartialOrd, Ord)]
pub(crate) enum MemberRef<'a> {
    Individual(&'a Name),
    Witness(RoleRef<'a>),
}

/// What a line says. Witnesses come before concepts, and these before roles.
#[derive(Clone, Copy, PartialEq, Eq, PartialOrd, Ord)]
pub(crate) enum EntryRef<'a> {
    /// The role is live, in this generation.
    Witness {
        role: RoleRef<'a>,
        generation: u64,
    },
    /// The concept is derived at the member.
    Concept {
        concept: &'a Name,
        member: MemberRef<'a>,
    },
    /// The role leads from one member to another.
    Role {
        role: &'a Name,
        from: MemberRef<'a>,
        to: MemberRef<'a>,
    },
}
