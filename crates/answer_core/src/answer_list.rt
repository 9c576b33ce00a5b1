//! The answers of a query.
ghost use Rattle.std.specs.Prelude.{◌≡◌, ◌<◌, ◌⊎◌, ◌↔◌, ℕ, List, All, Contains, IfOk, IsTrue, MatchOption, OnOk, length, slice_index};
ghost use Rattle.std.specs.Bool.{OnTrue, OnFalse};
ghost use Rattle.dl_base.specs.Ontology.{Terminology, IsTerminology};
ghost use Rattle.dl_base.specs.Query.{Question, IsQuery};
ghost use Rattle.dl_base.specs.Answers.{AreAnswers};
ghost use Rattle.dl_base.specs.Completion.{AreCompleted};
ghost use Rattle.dl_base.specs.declared.concept.Role.{Role as AnyRole};
ghost use Rattle.dl_base.specs.declared.row.NamedRow.{NamedRow as AnyRow};
ghost use Rattle.query_shape.specs.Shape.{IsLayout, Layout};
ghost use Rattle.tree_witness.specs.Trees.{AreTreesOf};
ghost use Rattle.answer_core.specs.Binding.{IsBoundTo};
ghost use Rattle.answer_core.specs.Found.{AddsLifted, HaveIndividuals, AreWithin, HasKeyOf, IsFoundKey, IsLevelOfOne, IsOf, IsTableOf};

use crate::bound::Bound;
use crate::fixed::{fixed_numbers, has_names};
use crate::number_keys::NumberKeys;
use dl_base::{Elem, Items, Keys, NameBook, Tables};
use join_ops::Matches;
use std::alloc::{AllocError, Global};
use tree_witness::TreeWitnesses;

/// The certain answers, in order, each once: the keys of the matches in completed tables that lift, have individuals of
/// the book at the answer places, and have each name of the query on its own individual.
///
/// It takes memory for the keys, and for a rank of each individual, by which keys are put in order; and none for further
/// matches of a key. Matches are sought by the plan. Behind one that lifts the search goes on behind all that agree with it up
/// to the last of the answer terms in the plan's order. Keys need no set where the answer terms are the first ones in this
/// order.
pub fn answers<T: Tables>(
    alloc: Global,
    t: &T,
    individuals: &NameBook,
    b: &Bound,
) -> Result<Keys, AllocError>
    ensures { (o : Terminology) (rows : List AnyRow) (generation : AnyRole → ℕ) (q : Question)
        → IsTerminology o → IsQuery q → IsBoundTo o q b.now
        → AreCompleted o rows individuals.now generation (T.rows t.now) → IfOk result (AreAnswers o rows q) }
{
    if !has_names(individuals, &b.shape) {
        return Ok(Items::new(alloc));
    }
    let fixed = fixed_numbers(alloc, individuals, &b.shape)?;
    let found = found_keys(alloc, t, b, fixed.as_slice(), individuals.len())?;
    found.spelled(alloc, individuals)
}

/// The keys by number, at the answer places, of the matches that lift and place the fixed terms so, over individuals whose
/// numbers are below `count`. They are sought by the plan.
fn found_keys<T: Tables>(
    alloc: Global,
    t: &T,
    b: &Bound,
    fixed: &[Option<u32>],
    count: usize,
) -> Result<NumberKeys, AllocError>
    requires { length fixed.now ≡ length b.now.shape.terms }
    ensures within { IfOk result (AreWithin count) }
    ensures lifted { (o : Terminology) (rows : List AnyRow) (names : List (List ℕ)) (generation : AnyRole → ℕ)
        → IsTableOf o rows names generation (T.rows t.now)
        → IfOk result (λ found. (numbers : List ℕ) → Contains found numbers
        ↔ IsFoundKey o rows names generation (T.rows t.now) b.now fixed.now count numbers) }
{
    let places = b.answers.items();
    let mut key = vec![in alloc; 0u32; places.len()]?;
    let mut matches = Matches::with_trees(alloc, &b.shape, &b.plan, fixed, &b.trees)?;
    let levels = levels_up_to(places, matches.levels());
    let grouped = are_first(places, matches.levels(), levels);
    let mut found = NumberKeys::new(alloc, grouped);
    'matches: while matches.advance(t) {
        let settled = add_key(
            alloc,
            &mut found,
            &b.trees,
            matches.images(),
            places,
            count,
            key.as_mut_slice(),
        )?;
        if settled {
            matches.skip_agreeing(levels);
        }
    }
    Ok(found)
}

/// How many first levels there are up to the last of those that the terms at the places have.
fn levels_up_to(places: &[u32], levels: &[u32]) -> usize
    requires { All (λ p. p < length levels.now) places.now }
    ensures { All (λ p. slice_index levels.now p < result) places.now }
{
    let mut most = 0;
    for place in places {
        most = most.max(levels[*place as usize] as usize + 1);
    }
    most
}

/// Whether each of so many first levels is that of a term at one of the places. Then matches that come by level have equal
/// keys one after another.
fn are_first(places: &[u32], levels: &[u32], count: usize) -> bool
    requires { All (λ p. p < length levels.now) places.now }
    ensures { IsTrue result ↔ ((level : ℕ) → level < count → IsLevelOfOne levels.now places.now level) }
{
    for level in 0..count {
        if !has_level(places, levels, level) {
            return false;
        }
    }
    true
}

/// Whether the level is that of a term at one of the places.
fn has_level(places: &[u32], levels: &[u32], level: usize) -> bool
    requires { All (λ p. p < length levels.now) places.now }
    ensures { IsTrue result ↔ IsLevelOfOne levels.now places.now level }
{
    for place in places {
        if levels[*place as usize] as usize == level {
            return true;
        }
    }
    false
}

/// Adds the key that the match has at the places, where all of it are individuals whose numbers are below `count` and the
/// match lifts. Tells whether no match with the same images at the places has another key to give: where they have no
/// key, or it is there now. `key` is where it is read into.
fn add_key(
    alloc: Global,
    found: &mut NumberKeys,
    trees: &TreeWitnesses,
    images: &[Elem],
    places: &[u32],
    count: usize,
    key: &mut [u32],
) -> Result<bool, AllocError>
    requires images { length images.now ≡ trees.now.terms }
    requires places { All (λ p. p < length images.now) places.now }
    requires room { length key.old ≡ length places.now }
    ensures lifted { (s : Layout) → IsLayout s → AreTreesOf s trees.now → OnOk result (AddsLifted s images.now places.now count found.old found.new) }
    ensures within { AreWithin count found.old → OnOk result (AreWithin count found.new) }
    ensures settled { IfOk result (λ settled. OnTrue settled (HasKeyOf images.now places.now count found.new)) }
{
    if !read_key(images, places, count, key) {
        return Ok(true);
    }
    if found.is_last(key) {
        return Ok(true);
    }
    if !trees.passes(images) {
        return Ok(false);
    }
    found.add(alloc, key)?;
    Ok(true)
}

/// Whether all terms at the places have individuals whose numbers are below `count`. Then `key` has these numbers.
fn read_key(images: &[Elem], places: &[u32], count: usize, key: &mut [u32]) -> bool
    requires places { All (λ p. p < length images.now) places.now }
    requires room { length key.old ≡ length places.now }
    ensures read { OnTrue result (HaveIndividuals images.now places.now count key.new) }
    ensures none { OnFalse result ((numbers : List ℕ) → HaveIndividuals images.now places.now count numbers → ⊥) }
{
    for i in 0..places.len() {
        let Some(number) = individual(images[places[i] as usize], count) else {
            return false;
        };
        key[i] = number;
    }
    true
}

/// The number of an individual, if it is below `count`.
fn individual(e: Elem, count: usize) -> Option<u32>
    ensures { MatchOption result ((n : ℕ) → IsOf count e n → ⊥) (IsOf count e) }
{
    match e {
        Elem::Named(number) if (number as usize) < count => Some(number),
        _ => None,
    }
}
