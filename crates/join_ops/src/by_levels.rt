//! Searches for elements that meet conditions, by the levels of terms.
ghost use Rattle.std.specs.Prelude.{◌≡◌, List, length, IfOk};
ghost use Rattle.std.specs.Bool.{OnFalse};
ghost use Rattle.dl_base.specs.Tables.{TableRow};
ghost use Rattle.dl_base.specs.declared.element.Elem.{Elem as AnyElem};
ghost use Rattle.join_ops.specs.Joins.{Advances, AreLeft, HasAllLeft, Behind, IsAway, SkipsAlike};
ghost use Rattle.join_ops.specs.Levels.{AreOnLevels};

use crate::condition::Condition;
use crate::level::{Level, levels};
use crate::search::{At, resume};
use dl_base::{Elem, Hint, Tables};
use std::alloc::{AllocError, Global};
use std::marker::Model;

/// A search for elements that meet conditions, which gives them in rising order. It keeps one element for each level, and no
/// list of what it gives.
#[derive(Debug, Drop)]
pub(crate) struct LevelSearch {
    conditions: Vec<Condition>,
    levels: Vec<Level>,
    elements: Vec<Elem>,
    hints: Vec<Hint>,
    at: At,
}

impl Model for LevelSearch {
    ghost use Rattle.std.specs.Prelude.{◌≡◌, length, map};
    ghost use Rattle.join_ops.specs.Joins.{Search};

    ghost Value = { Search };

    ghost use Rattle.join_ops.specs.Levels.{IsSearch, fixed_on, search_place};

    ghost view = { λ m. record { conditions = m.conditions.items; fixed = map fixed_on m.levels.items; place = search_place m.at m.elements.items } };

    ghost invariant = { λ m. IsSearch m.conditions.items m.levels.items (length m.elements.items) × (length m.hints.items ≡ length m.elements.items) };
}

impl LevelSearch {
    /// The search for elements that meet the conditions and are on the individual of each fixed level. In any table it begins
    /// with all of them left.
    pub(crate) fn new(
        alloc: Global,
        conditions: Vec<Condition>,
        fixed: &[Option<u32>],
    ) -> Result<LevelSearch, AllocError>
        requires { AreOnLevels (length fixed.now) conditions.items }
        ensures fixed { IfOk result (λ m. m.fixed ≡ fixed.now) }
        ensures away { IfOk result (λ m. IsAway m.place) }
        ensures left { IfOk result (HasAllLeft conditions.items fixed.now) }
    {
        let levels = levels(alloc, conditions.as_slice(), fixed)?;
        let elements = vec![in alloc; Elem::Named(0); fixed.len()]?;
        let hints = vec![in alloc; Hint { place: 0 }; fixed.len()]?;
        Ok(LevelSearch {
            conditions,
            levels,
            elements,
            hints,
            at: At::Start,
        })
    }

    /// Goes on to the next of what is left in these tables; `false` where there is none. It takes no memory.
    pub(crate) fn advance<T: Tables>(&mut self, t: &T) -> bool
        ensures goes { (left : List (List AnyElem)) → AreLeft (T.rows t.now) self.old left → Advances (T.rows t.now) left result self.new }
        ensures fixed { self.new.fixed ≡ self.old.fixed }
        ensures away { OnFalse result (IsAway self.new.place) }
    {
        let found = resume(
            t,
            self.conditions.as_slice(),
            self.levels.as_slice(),
            self.elements.as_mut_slice(),
            self.hints.as_mut_slice(),
            self.at,
        );
        self.at = if found { At::Behind } else { At::End };
        found
    }

    /// Skips those of what is left that have the same elements on so many first levels as where the search has come. It
    /// takes no memory.
    pub(crate) fn skip_alike(&mut self, levels: usize)
        ensures skips { (table : List TableRow) (left : List (List AnyElem)) (last : List AnyElem) → AreLeft table self.old left → self.old.place ≡ Behind last
            → SkipsAlike table left levels last self.new }
        ensures fixed { self.new.fixed ≡ self.old.fixed }
        ensures away { IsAway self.new.place }
    {
        self.at = At::Past(levels);
    }

    /// The elements that the search has come to, by level. It takes no memory.
    pub(crate) fn elements(&self) -> &[Elem]
        ensures elements { (elements : List AnyElem) → self.now.place ≡ Behind elements → result.now ≡ elements }
        ensures count { length result.now ≡ length self.now.fixed }
    {
        self.elements.as_slice()
    }
}
