//! How the rows of completed tables are read.
ghost use Rattle.std.specs.Prelude.{◌≡◌};
ghost use Rattle.completion.specs.Least.{IsLesserElement};
ghost use Rattle.completion.specs.TableRows.{table_of};

use crate::Completed;
use crate::rows::TableRows;
use dl_base::{Basic, Elem, Hint, Role, Tables};

impl Tables for TableRows {
    ghost rows = { λ t. table_of t };

    fn has_concept(&self, concept: u32, e: Elem) -> bool {
        match self.members(concept) {
            Some(members) => members.has(e),
            None => false,
        }
    }

    fn has_role(&self, role: u32, from: Elem, to: Elem) -> bool {
        let direct = Role {
            name: role,
            inverse: false,
        };
        self.has_edge(role, from, to)
            || self.points(direct, from, to)
            || self.points(direct.inverted(), to, from)
    }

    fn next_concept(&self, concept: u32, after: Option<Elem>) -> Option<Elem> {
        let mut hint = Hint { place: 0 };
        self.next_concept_near(concept, after, &mut hint)
    }

    fn next_source(&self, role: Role, after: Option<Elem>) -> Option<Elem> {
        let mut hint = Hint { place: 0 };
        self.next_source_near(role, after, &mut hint)
    }

    fn next_edge(&self, role: Role, from: Elem, after: Option<Elem>) -> Option<Elem> {
        let mut hint = Hint { place: 0 };
        self.next_edge_near(role, from, after, &mut hint)
    }

    fn next_concept_near(
        &self,
        concept: u32,
        after: Option<Elem>,
        hint: &mut Hint,
    ) -> Option<Elem> {
        match self.members(concept) {
            Some(members) => members.next_near(after, hint),
            None => None,
        }
    }

    fn next_source_near(&self, role: Role, after: Option<Elem>, hint: &mut Hint) -> Option<Elem> {
        match self.sources(role) {
            Some(sources) => sources.next_near(after, hint),
            None => None,
        }
    }

    /// Individuals come before witnesses, and no element points to an individual; so the witness and what points to one are
    /// looked at only where no row leads to an individual any more.
    fn next_edge_near(
        &self,
        role: Role,
        from: Elem,
        after: Option<Elem>,
        hint: &mut Hint,
    ) -> Option<Elem> {
        match self.next_target(role, from, after, hint) {
            Some(target) => Some(target),
            None => {
                let witness = self.next_witness(role, from, after);
                let pointing = self.next_pointing(role.inverted(), from, after, hint);
                lesser(witness, pointing)
            }
        }
    }

    fn count(&self, basic: Basic) -> u64 {
        match basic {
            Basic::Concept(concept) => match self.members(concept) {
                Some(members) => members.count(),
                None => 0,
            },
            Basic::Exists(role) => match self.sources(role) {
                Some(sources) => sources.count(),
                None => 0,
            },
        }
    }
}

impl Tables for Completed {
    ghost rows = { λ c. c.rows };

    fn has_concept(&self, concept: u32, e: Elem) -> bool {
        self.rows().has_concept(concept, e)
    }

    fn has_role(&self, role: u32, from: Elem, to: Elem) -> bool {
        self.rows().has_role(role, from, to)
    }

    fn next_concept(&self, concept: u32, after: Option<Elem>) -> Option<Elem> {
        self.rows().next_concept(concept, after)
    }

    fn next_source(&self, role: Role, after: Option<Elem>) -> Option<Elem> {
        self.rows().next_source(role, after)
    }

    fn next_edge(&self, role: Role, from: Elem, after: Option<Elem>) -> Option<Elem> {
        self.rows().next_edge(role, from, after)
    }

    fn next_concept_near(
        &self,
        concept: u32,
        after: Option<Elem>,
        hint: &mut Hint,
    ) -> Option<Elem> {
        self.rows().next_concept_near(concept, after, hint)
    }

    fn next_source_near(&self, role: Role, after: Option<Elem>, hint: &mut Hint) -> Option<Elem> {
        self.rows().next_source_near(role, after, hint)
    }

    fn next_edge_near(
        &self,
        role: Role,
        from: Elem,
        after: Option<Elem>,
        hint: &mut Hint,
    ) -> Option<Elem> {
        self.rows().next_edge_near(role, from, after, hint)
    }

    fn count(&self, basic: Basic) -> u64 {
        self.rows().count(basic)
    }
}

/// The lesser of two elements, or the only one.
fn lesser(e: Option<Elem>, f: Option<Elem>) -> Option<Elem>
    ensures { IsLesserElement e f result }
{
    match (e, f) {
        (Some(a), Some(b)) => if b < a { f } else { e },
        (Some(_), None) => e,
        (None, _) => f,
    }
}
