//! How completed tables are read.
ghost use Rattle.std.specs.Prelude.{◌↔◌, IsTrue, List, Contains};
ghost use Rattle.dl_base.specs.Tables.{TableRow, ConceptRow, RoleRow, edge_row, HasEdge, IsIn, IsLeastAbove, AreCounted};
ghost use Rattle.dl_base.specs.declared.element.Elem.{Elem as AnyElem};

use crate::{Basic, Elem, Role};

/// Where tables look first for the next of the elements that are gone through in order. Nothing that is answered depends on
/// it: at worst the element is searched for.
#[derive(Clone, Copy, Debug)]
pub struct Hint {
    /// A place among the elements, in the tables' own count.
    pub place: usize,
}

/// Tables of rows over individuals and witnesses. No call takes memory.
///
/// The calls that end in `_near` answer as those without. They look at the place of the hint first, and leave there the place
/// behind what they find, so that going through the elements in order takes a look for each in place of a search.
pub trait Tables {
    /// The rows, each witness with the generation of its role.
    ghost rows: { Self → List TableRow };

    /// Whether the element is in the concept at this place.
    fn has_concept(&self, concept: u32, e: Elem) -> bool
        ensures { IsTrue result ↔ Contains (rows self.now) (ConceptRow concept e) };

    /// Whether the role name at this place leads from the one element to the other.
    fn has_role(&self, role: u32, from: Elem, to: Elem) -> bool
        ensures { IsTrue result ↔ Contains (rows self.now) (RoleRow role from to) };

    /// The least element above `after`, or of all, that is in the concept.
    fn next_concept(&self, concept: u32, after: Option<Elem>) -> Option<Elem>
        ensures { IsLeastAbove (λ (e : AnyElem). Contains (rows self.now) (ConceptRow concept e)) after result };

    /// The least element above `after`, or of all, from which the role leads.
    fn next_source(&self, role: Role, after: Option<Elem>) -> Option<Elem>
        ensures { IsLeastAbove (HasEdge (rows self.now) role) after result };

    /// The least element above `after`, or of all, to which the role leads from this one.
    fn next_edge(&self, role: Role, from: Elem, after: Option<Elem>) -> Option<Elem>
        ensures { IsLeastAbove (λ (e : AnyElem). Contains (rows self.now) (edge_row role from e)) after result };

    /// As `next_concept`, with a look at the hint first.
    fn next_concept_near(&self, concept: u32, after: Option<Elem>, _hint: &mut Hint) -> Option<Elem>
        ensures { IsLeastAbove (λ (e : AnyElem). Contains (rows self.now) (ConceptRow concept e)) after result }
    {
        self.next_concept(concept, after)
    }

    /// As `next_source`, with a look at the hint first.
    fn next_source_near(&self, role: Role, after: Option<Elem>, _hint: &mut Hint) -> Option<Elem>
        ensures { IsLeastAbove (HasEdge (rows self.now) role) after result }
    {
        self.next_source(role, after)
    }

    /// As `next_edge`, with a look at the hint first.
    fn next_edge_near(
        &self,
        role: Role,
        from: Elem,
        after: Option<Elem>,
        _hint: &mut Hint,
    ) -> Option<Elem>
        ensures { IsLeastAbove (λ (e : AnyElem). Contains (rows self.now) (edge_row role from e)) after result }
    {
        self.next_edge(role, from, after)
    }

    /// How many elements are in the basic concept by the rows.
    fn count(&self, basic: Basic) -> u64
        ensures { AreCounted (IsIn (rows self.now) basic) result };
}
