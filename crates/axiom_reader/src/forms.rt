//! Reading the seven forms of axioms.
//!
//! The first byte tells the forms apart, and behind a `D` the second one.

ghost use Rattle.grammar.specs.Reading.{Gives};
ghost use Rattle.axiom_reader.specs.AxiomReading.{sub_class_of_at, equivalent_at, disjoint_behind_at, domain_behind_at, range_at, class_at, property_at, behind_d_at, tree_at};

use crate::parts::{Listed, TwoToEight, read_right, read_role};
use crate::tree::{AxiomTree, Members};
use dl_base::read_name;
use grammar::{ReadError, expect, next_is_byte, read_list, skip_blanks, some_blanks};
use std::alloc::Global;

#[tactic(auto, unfolding(crate::specs::AxiomReading::sub_class_of_at))]
fn read_sub_class_of(alloc: Global, text: &[u8]) -> Result<(AxiomTree, &[u8]), ReadError>
    ensures { Gives (λ x. (x.0, x.1.now)) result (sub_class_of_at text.now) }
{
    let rest = expect(b"SubClassOf(", text)?;
    let (_, rest) = skip_blanks(rest);
    let (left, rest) = Members::read(alloc, rest)?;
    let (_, rest) = some_blanks(rest)?;
    let (right, rest) = read_right(alloc, rest)?;
    let (_, rest) = skip_blanks(rest);
    let rest = expect(b")", rest)?;
    Ok((AxiomTree::SubClassOf(left, right), rest))
}

#[tactic(auto, unfolding(crate::specs::AxiomReading::equivalent_at))]
fn read_equivalent(alloc: Global, text: &[u8]) -> Result<(AxiomTree, &[u8]), ReadError>
    ensures { Gives (λ x. (x.0, x.1.now)) result (equivalent_at text.now) }
{
    let rest = expect(b"Equivalent(", text)?;
    let (_, rest) = skip_blanks(rest);
    let (one, rest) = Members::read(alloc, rest)?;
    let (_, rest) = some_blanks(rest)?;
    let (other, rest) = Members::read(alloc, rest)?;
    let (_, rest) = skip_blanks(rest);
    let rest = expect(b")", rest)?;
    Ok((AxiomTree::Equivalent(one, other), rest))
}

/// What stands behind the first byte of `Disjoint`.
#[tactic(auto, unfolding(crate::specs::AxiomReading::disjoint_behind_at))]
fn read_disjoint_behind(alloc: Global, text: &[u8]) -> Result<(AxiomTree, &[u8]), ReadError>
    ensures { Gives (λ x. (x.0, x.1.now)) result (disjoint_behind_at text.now) }
{
    let rest = expect(b"isjoint(", text)?;
    let (_, rest) = skip_blanks(rest);
    let (first, rest) = Members::read(alloc, rest)?;
    let (sides, rest) = read_list::<TwoToEight<Members>>(alloc, first, rest)?;
    Ok((AxiomTree::Disjoint(sides), rest))
}

/// What stands behind the first byte of `Domain`.
#[tactic(auto, unfolding(crate::specs::AxiomReading::domain_behind_at))]
fn read_domain_behind(alloc: Global, text: &[u8]) -> Result<(AxiomTree, &[u8]), ReadError>
    ensures { Gives (λ x. (x.0, x.1.now)) result (domain_behind_at text.now) }
{
    let rest = expect(b"omain(", text)?;
    let (_, rest) = skip_blanks(rest);
    let (role, rest) = read_role(alloc, rest)?;
    let (_, rest) = some_blanks(rest)?;
    let (right, rest) = read_right(alloc, rest)?;
    let (_, rest) = skip_blanks(rest);
    let rest = expect(b")", rest)?;
    Ok((AxiomTree::Domain(role, right), rest))
}

#[tactic(auto, unfolding(crate::specs::AxiomReading::range_at))]
fn read_range(alloc: Global, text: &[u8]) -> Result<(AxiomTree, &[u8]), ReadError>
    ensures { Gives (λ x. (x.0, x.1.now)) result (range_at text.now) }
{
    let rest = expect(b"Range(", text)?;
    let (_, rest) = skip_blanks(rest);
    let (role, rest) = read_role(alloc, rest)?;
    let (_, rest) = some_blanks(rest)?;
    let (right, rest) = read_right(alloc, rest)?;
    let (_, rest) = skip_blanks(rest);
    let rest = expect(b")", rest)?;
    Ok((AxiomTree::Range(role, right), rest))
}

#[tactic(auto, unfolding(crate::specs::AxiomReading::class_at))]
fn read_class(alloc: Global, text: &[u8]) -> Result<(AxiomTree, &[u8]), ReadError>
    ensures { Gives (λ x. (x.0, x.1.now)) result (class_at text.now) }
{
    let rest = expect(b"Class(", text)?;
    let (_, rest) = skip_blanks(rest);
    let (name, rest) = read_name(alloc, rest)?;
    let (_, rest) = skip_blanks(rest);
    let rest = expect(b")", rest)?;
    Ok((AxiomTree::Class(name), rest))
}

#[tactic(auto, unfolding(crate::specs::AxiomReading::property_at))]
fn read_property(alloc: Global, text: &[u8]) -> Result<(AxiomTree, &[u8]), ReadError>
    ensures { Gives (λ x. (x.0, x.1.now)) result (property_at text.now) }
{
    let rest = expect(b"Property(", text)?;
    let (_, rest) = skip_blanks(rest);
    let (name, rest) = read_name(alloc, rest)?;
    let (_, rest) = skip_blanks(rest);
    let rest = expect(b")", rest)?;
    Ok((AxiomTree::Property(name), rest))
}

/// `Disjoint` and `Domain` share their first byte.
#[tactic(auto, unfolding(crate::specs::AxiomReading::behind_d_at))]
fn read_behind_d(alloc: Global, text: &[u8]) -> Result<(AxiomTree, &[u8]), ReadError>
    ensures { Gives (λ x. (x.0, x.1.now)) result (behind_d_at text.now) }
{
    let rest = expect(b"D", text)?;
    if next_is_byte(b'i', rest) {
        read_disjoint_behind(alloc, rest)
    } else {
        read_domain_behind(alloc, rest)
    }
}

/// An axiom, and the text behind it.
#[tactic(auto, unfolding(crate::specs::AxiomReading::tree_at))]
pub(crate) fn read_tree(alloc: Global, text: &[u8]) -> Result<(AxiomTree, &[u8]), ReadError>
    ensures { Gives (λ x. (x.0, x.1.now)) result (tree_at text.now) }
{
    if next_is_byte(b'S', text) {
        read_sub_class_of(alloc, text)
    } else if next_is_byte(b'E', text) {
        read_equivalent(alloc, text)
    } else if next_is_byte(b'D', text) {
        read_behind_d(alloc, text)
    } else if next_is_byte(b'R', text) {
        read_range(alloc, text)
    } else if next_is_byte(b'C', text) {
        read_class(alloc, text)
    } else {
        read_property(alloc, text)
    }
}
