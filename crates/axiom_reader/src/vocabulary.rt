//! The names of an axiom, each once, in order of first occurrence.

ghost use Rattle.std.specs.Prelude.{◌≡◌, OnOk, [], ◌∷◌};
ghost use Rattle.std.specs.List.{flat_map};
ghost use Rattle.dl_base.specs.Axiom.{with_name};
ghost use Rattle.axiom_reader.specs.AxiomMeaning.{concept_names_of, role_names_of, in_members, in_right, concepts_in, roles_in};

use crate::tree::{AxiomTree, Members, RightSide};
use dl_base::{Items, Name, NamedBasic, Names};
use std::alloc::{AllocError, Global};

/// Names of concepts and of roles, each once.
#[derive(Drop)]
pub(crate) struct Vocabulary {
    pub(crate) concepts: Names,
    pub(crate) roles: Names,
}

/// Appends the name where the list lacks it. The list has the names of one axiom, of which there are at most 64.
#[tactic(auto, using(crate::proofs::NamesRules::known_or_new))]
fn add_name(alloc: Global, names: &mut Names, name: &Name) -> Result<(), AllocError>
    ensures { OnOk result (names.new ≡ with_name names.old name.now) }
{
    if names.items().contains(name) {
        return Ok(());
    }
    names.push(name.copy(alloc)?)?;
    Ok(())
}

impl Vocabulary {
    ghost use Rattle.axiom_reader.specs.Vocabulary.{AddsNames};

    /// The one without names.
    pub(crate) fn new(alloc: Global) -> Vocabulary
        ensures { result ≡ record { concepts = []; roles = [] } }
    {
        Vocabulary {
            concepts: Items::new(alloc),
            roles: Items::new(alloc),
        }
    }

    fn add_concept(&mut self, alloc: Global, name: &Name) -> Result<(), AllocError>
        ensures { OnOk result (AddsNames self.old (name.now ∷ []) [] self.new) }
    {
        add_name(alloc, &mut self.concepts, name)
    }

    fn add_role(&mut self, alloc: Global, name: &Name) -> Result<(), AllocError>
        ensures { OnOk result (AddsNames self.old [] (name.now ∷ []) self.new) }
    {
        add_name(alloc, &mut self.roles, name)
    }

    fn add_basic(&mut self, alloc: Global, basic: &NamedBasic) -> Result<(), AllocError>
        ensures { OnOk result (AddsNames self.old (concept_names_of basic.now) (role_names_of basic.now) self.new) }
    {
        match basic {
            NamedBasic::Concept(name) => self.add_concept(alloc, name),
            NamedBasic::Exists(role) => self.add_role(alloc, &role.name),
        }
    }

    fn add_members(&mut self, alloc: Global, members: &[NamedBasic]) -> Result<(), AllocError>
        ensures { OnOk result (AddsNames self.old (in_members concept_names_of members.now) (in_members role_names_of members.now) self.new) }
    {
        for basic in members {
            self.add_basic(alloc, basic)?;
        }
        Ok(())
    }

    fn add_right(&mut self, alloc: Global, right: &RightSide) -> Result<(), AllocError>
        ensures { OnOk result (AddsNames self.old (in_right concept_names_of right.now) (in_right role_names_of right.now) self.new) }
    {
        match right {
            RightSide::Members(members) => self.add_members(alloc, members.items()),
            RightSide::Nothing => Ok(()),
        }
    }

    fn add_sides(&mut self, alloc: Global, sides: &[Members]) -> Result<(), AllocError>
        ensures { OnOk result (AddsNames self.old (flat_map (in_members concept_names_of) sides.now) (flat_map (in_members role_names_of) sides.now) self.new) }
    {
        for side in sides {
            self.add_members(alloc, side.items())?;
        }
        Ok(())
    }

    /// Appends the new ones of the axiom's names, in order of the text.
    pub(crate) fn add_axiom(&mut self, alloc: Global, tree: &AxiomTree) -> Result<(), AllocError>
        ensures { OnOk result (AddsNames self.old (concepts_in tree.now) (roles_in tree.now) self.new) }
    {
        match tree {
            AxiomTree::SubClassOf(left, right) => {
                self.add_members(alloc, left.items())?;
                self.add_right(alloc, right)
            }
            AxiomTree::Equivalent(one, other) => {
                self.add_members(alloc, one.items())?;
                self.add_members(alloc, other.items())
            }
            AxiomTree::Disjoint(sides) => self.add_sides(alloc, sides.items()),
            AxiomTree::Domain(role, right) | AxiomTree::Range(role, right) => {
                self.add_role(alloc, &role.name)?;
                self.add_right(alloc, right)
            }
            AxiomTree::Class(name) => self.add_concept(alloc, name),
            AxiomTree::Property(name) => self.add_role(alloc, name),
        }
    }
}
