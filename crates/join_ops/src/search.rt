//! The search for the next match, by levels.
ghost use Rattle.std.specs.Prelude.{◌≡◌, ◌<◌, length, take, map};
ghost use Rattle.join_ops.specs.Joins.{SearchPlace, Past, IsFound, IsLast};
ghost use Rattle.join_ops.specs.Levels.{Finds, IsAtFront, IsSearch, fixed_on, search_place};

use crate::condition::Condition;
use crate::level::{Level, candidate};
use dl_base::{Elem, Hint, Tables};

/// Where a search stands: before the first match, behind the elements, which are the match given last, behind all that
/// have so many first elements as that match, or at the end.
#[derive(Clone, Copy, Debug)]
pub(crate) enum At {
    Start,
    Behind,
    Past(usize),
    End,
}

/// Whether there is a match behind the place. Then the elements are the least such match.
pub(crate) fn resume<T: Tables>(
    t: &T,
    conditions: &[Condition],
    levels: &[Level],
    elements: &mut [Elem],
    hints: &mut [Hint],
    at: At,
) -> bool
    requires search { IsSearch conditions.now levels.now (length elements.old) }
    requires hints { length hints.old ≡ length elements.old }
    ensures { IsLast (T.rows t.now) conditions.now (map fixed_on levels.now) (search_place at elements.old)
        → Finds (T.rows t.now) conditions.now (map fixed_on levels.now) (search_place at elements.old) result elements.new }
{
    match at {
        At::Start => search(t, conditions, levels, elements, hints, 0, None),
        At::Behind => {
            let last = elements.len() - 1;
            let after = elements[last];
            search(t, conditions, levels, elements, hints, last, Some(after))
        }
        At::Past(terms) => search_past(t, conditions, levels, elements, hints, terms),
        At::End => false,
    }
}

/// Whether there is a match behind all that have so many first elements as this one has. Then the elements are the least
/// such match.
fn search_past<T: Tables>(
    t: &T,
    conditions: &[Condition],
    levels: &[Level],
    elements: &mut [Elem],
    hints: &mut [Hint],
    terms: usize,
) -> bool
    requires search { IsSearch conditions.now levels.now (length elements.old) }
    requires hints { length hints.old ≡ length elements.old }
    ensures { IsFound (T.rows t.now) conditions.now (map fixed_on levels.now) elements.old
        → Finds (T.rows t.now) conditions.now (map fixed_on levels.now) (Past terms elements.old) result elements.new }
{
    let shared = terms.min(elements.len());
    if shared == 0 {
        return false;
    }
    let level = shared - 1;
    let after = elements[level];
    search(t, conditions, levels, elements, hints, level, Some(after))
}

/// Looks for the next match from a level on, where the term of that number is to get an element above `after`, or any.
fn search<T: Tables>(
    t: &T,
    conditions: &[Condition],
    levels: &[Level],
    elements: &mut [Elem],
    hints: &mut [Hint],
    level: usize,
    after: Option<Elem>,
) -> bool
    requires search { IsSearch conditions.now levels.now (length elements.old) }
    requires hints { length hints.old ≡ length elements.old }
    requires level { level < length elements.old }
    ensures { (place : SearchPlace) → IsAtFront (T.rows t.now) conditions.now (map fixed_on levels.now) place (take level elements.old) after
        → Finds (T.rows t.now) conditions.now (map fixed_on levels.now) place result elements.new }
{
    let mut level = level;
    let mut after = after;
    'levels: loop {
        match candidate(
            t,
            conditions,
            &levels[level],
            &elements[..level],
            after,
            &mut hints[level],
        ) {
            Some(e) => {
                elements[level] = e;
                if level + 1 == elements.len() {
                    return true;
                }
                level += 1;
                after = None;
            }
            None => {
                if level == 0 {
                    return false;
                }
                level -= 1;
                after = Some(elements[level]);
            }
        }
    }
}
