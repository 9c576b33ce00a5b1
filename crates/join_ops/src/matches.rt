//! The matches of a shape in tables.
ghost use Rattle.std.specs.Prelude.{◌≡◌, ◌<◌, List, All, length, IfOk};
ghost use Rattle.dl_base.specs.Tables.{TableRow};
ghost use Rattle.dl_base.specs.declared.element.Elem.{Elem as AnyElem};
ghost use Rattle.join_plan.specs.Plans.{IsPlanOf};
ghost use Rattle.join_ops.specs.Joins.{Behind};
ghost use Rattle.join_ops.specs.Levels.{AreOnLevels};
ghost use Rattle.join_ops.specs.Matching.{AreMatches, ArePassing, GoesTo, HasMatchesLeft, SkipsAgreeing};
ghost use Rattle.join_ops.specs.Orders.{AreLevelsBy, images_of};
ghost use Rattle.join_ops.specs.Planned.{BeginsBy};

use crate::by_levels::LevelSearch;
use crate::order::{Leveled, leveled_by};
use crate::twins::add_twins;
use dl_base::{Elem, Items, Tables};
use join_plan::Plan;
use query_shape::Shape;
use std::alloc::{AllocError, Global};
use std::marker::Model;
use tree_witness::TreeWitnesses;

/// A search for the matches of a shape by a plan, which gives them one after another. Terms get their elements in the order
/// in which the paths of the plan come to them. It keeps one element for each term, and no list of matches.
#[derive(Debug, Drop)]
pub struct Matches {
    levels: Items<u32>,
    search: LevelSearch,
    images: Vec<Elem>,
}

impl Model for Matches {
    ghost use Rattle.join_ops.specs.Matching.{PlannedSearch};

    ghost Value = { PlannedSearch };

    ghost use Rattle.join_ops.specs.Matching.{IsKeptSearch};

    ghost view = { λ m. record { levels = m.levels; search = m.search } };

    ghost invariant = { λ m. IsKeptSearch m.levels m.search m.images.items };
}

impl Matches {
    /// The search for the matches that place each fixed term on the individual of its number, by the plan. In any table it
    /// begins with all of them left.
    pub fn new(
        alloc: Global,
        s: &Shape,
        p: &Plan,
        fixed: &[Option<u32>],
    ) -> Result<Matches, AllocError>
        requires plan { IsPlanOf s.now p.now }
        requires fixed { length fixed.now ≡ length s.now.terms }
        ensures left { IfOk result (λ m. (table : List TableRow) → (left : List (List AnyElem)) × HasMatchesLeft table m left × AreMatches table s.now fixed.now left) }
        ensures levels { IfOk result (λ m. AreLevelsBy p.now m.levels) }
        ensures count { IfOk result (λ m. length m.levels ≡ length s.now.terms) }
    {
        let leveled = leveled_by(alloc, s, p, fixed)?;
        Matches::by_level(alloc, leveled)
    }

    /// As `new`, for a search that leaves matches out which don't pass by the tree witnesses: a term that has to have another's
    /// element, as soon as a third one is on a witness, gets that element alone. In any table it begins with matches alone,
    /// among which are all that pass.
    pub fn with_trees(
        alloc: Global,
        s: &Shape,
        p: &Plan,
        fixed: &[Option<u32>],
        trees: &TreeWitnesses,
    ) -> Result<Matches, AllocError>
        requires plan { IsPlanOf s.now p.now }
        requires fixed { length fixed.now ≡ length s.now.terms }
        requires trees { trees.now.terms ≡ length s.now.terms }
        ensures left { IfOk result (λ m. (table : List TableRow) → (left : List (List AnyElem)) × HasMatchesLeft table m left × ArePassing table s.now trees.now fixed.now left) }
        ensures levels { IfOk result (λ m. AreLevelsBy p.now m.levels) }
        ensures count { IfOk result (λ m. length m.levels ≡ length s.now.terms) }
    {
        let mut leveled = leveled_by(alloc, s, p, fixed)?;
        add_twins(
            &mut leveled.conditions,
            trees.entries(),
            leveled.levels.items(),
        )?;
        Matches::by_level(alloc, leveled)
    }

    /// The search for elements that meet the conditions and are on the individual of each fixed level.
    fn by_level(alloc: Global, leveled: Leveled) -> Result<Matches, AllocError>
        requires on { AreOnLevels (length leveled.fixed.items) leveled.conditions.items }
        requires count { length leveled.levels ≡ length leveled.fixed.items }
        requires within { All (λ level. level < length leveled.fixed.items) leveled.levels }
        ensures { IfOk result (BeginsBy leveled) }
    {
        let images = vec![in alloc; Elem::Named(0); leveled.fixed.len()]?;
        let search = LevelSearch::new(alloc, leveled.conditions, leveled.fixed.as_slice())?;
        Ok(Matches {
            levels: leveled.levels,
            search,
            images,
        })
    }

    /// Goes on to the next of the matches that are left in these tables; `false` where there is none. It takes no memory.
    pub fn advance<T: Tables>(&mut self, t: &T) -> bool
        ensures goes { (left : List (List AnyElem)) → HasMatchesLeft (T.rows t.now) self.old left → GoesTo (T.rows t.now) self.old.search.place left result self.new }
        ensures levels { self.new.levels ≡ self.old.levels }
    {
        let found = self.search.advance(t);
        if found {
            gather(
                self.levels.items(),
                self.search.elements(),
                self.images.as_mut_slice(),
            );
        }
        found
    }

    /// Skips those of the matches that are left that agree with the one to which the search has come in all terms of so many
    /// first levels. It takes no memory.
    pub fn skip_agreeing(&mut self, levels: usize)
        ensures skips { (table : List TableRow) (left : List (List AnyElem)) (last : List AnyElem) → HasMatchesLeft table self.old left → self.old.search.place ≡ Behind last
            → SkipsAgreeing table left levels last self.new }
        ensures levels { self.new.levels ≡ self.old.levels }
    {
        self.search.skip_alike(levels);
    }

    /// The match that the search has come to, as the images of the terms by their numbers. It takes no memory.
    pub fn images(&self) -> &[Elem]
        ensures { (elements : List AnyElem) → self.now.search.place ≡ Behind elements → result.now ≡ images_of self.now.levels elements }
    {
        self.images.as_slice()
    }

    /// By number, the level of each term: how many terms get their elements before it. It takes no memory.
    pub fn levels(&self) -> &[u32]
        ensures { result.now ≡ self.now.levels }
    {
        self.levels.items()
    }
}

/// Puts for each term the element of its level among the images.
fn gather(levels: &[u32], elements: &[Elem], images: &mut [Elem])
    requires within { All (λ level. level < length elements.now) levels.now }
    requires room { length images.old ≡ length levels.now }
    ensures { images.new ≡ images_of levels.now elements.now }
{
    for (term, level) in levels.iter().enumerate() {
        images[term] = elements[*level as usize];
    }
}
