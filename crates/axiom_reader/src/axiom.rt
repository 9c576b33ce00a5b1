//! Reading a whole axiom.

ghost use Rattle.std.specs.Prelude.{◌≡◌, IfOk, IfErr};
ghost use Rattle.axiom_reader.specs.declared.tree.AxiomTree.{AxiomTree};
ghost use Rattle.axiom_reader.specs.AxiomGrammar.{axiom_text};
ghost use Rattle.axiom_reader.specs.AxiomFault.{IsAxiomFault};
ghost use Rattle.axiom_reader.specs.AxiomMeaning.{meaning, HasMembers};

use crate::forms::read_tree;
use crate::inclusions::add_inclusions;
use crate::tree::AxiomTree;
use crate::vocabulary::Vocabulary;
use dl_base::{Axiom, Items};
use grammar::{ReadError, whole};
use std::alloc::{AllocError, Global};
use thiserror::Error;

/// Why a text is refused.
#[derive(Debug, Drop, Error)]
pub enum AxiomError {
    /// No axiom has the bytes up to this place, counted from 1, as its first ones; one more than the number of bytes,
    /// where the text is the front of an axiom.
    #[error("no axiom: the fault is at byte {0}")]
    Syntax(u64),
    /// There is no memory left. This may come at any text.
    #[error("no memory")]
    NoMemory,
}

/// The syntax tree of the axiom that the text is.
fn read_axiom_tree(alloc: Global, text: &[u8]) -> Result<AxiomTree, AxiomError>
    ensures found { IfOk result (λ tree. axiom_text text.now tree) }
    ensures only { IfOk result (λ tree. (other : AxiomTree) → axiom_text text.now other → other ≡ tree) }
    ensures fault { IfErr result (λ error. IsAxiomFault text.now error) }
{
    match whole(read_tree(alloc, text)) {
        Ok(tree) => Ok(tree),
        Err(ReadError::Fault(left)) => Err(AxiomError::Syntax((text.len() - left + 1) as u64)),
        Err(ReadError::Memory) => Err(AxiomError::NoMemory),
    }
}

/// The axiom that the tree means.
#[tactic(auto, unfolding(crate::specs::AxiomMeaning::meaning))]
pub(crate) fn axiom_of(alloc: Global, tree: &AxiomTree) -> Result<Axiom, AllocError>
    requires { HasMembers tree.now }
    ensures { IfOk result (λ a. a ≡ meaning tree.now) }
{
    let mut names = Vocabulary::new(alloc);
    names.add_axiom(alloc, tree)?;
    let mut inclusions = Items::new(alloc);
    add_inclusions(alloc, &mut inclusions, tree)?;
    Ok(Axiom::new(names.concepts, names.roles, inclusions))
}

/// The axiom that the text is.
pub fn read_axiom(alloc: Global, text: &[u8]) -> Result<Axiom, AxiomError>
    // The axiom is what a tree of the text means, and each tree of the text means it.
    ensures found { IfOk result (λ a. (tree : AxiomTree) × axiom_text text.now tree × (a ≡ meaning tree)) }
    ensures only { IfOk result (λ a. (tree : AxiomTree) → axiom_text text.now tree → a ≡ meaning tree) }

    // Else the place is the one where no axiom goes on.
    ensures fault { IfErr result (λ error. IsAxiomFault text.now error) }
{
    let tree = read_axiom_tree(alloc, text)?;
    match axiom_of(alloc, &tree) {
        Ok(axiom) => Ok(axiom),
        Err(AllocError) => Err(AxiomError::NoMemory),
    }
}
