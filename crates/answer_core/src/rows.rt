//! Keys as rows of numbers, or of the ranks of individuals.
ghost use Rattle.std.specs.Prelude.{◌≡◌, ◌<◌, ◌↔◌, ℕ, List, All, Contains, IfOk, length, map};
ghost use Rattle.std.specs.Cmp.Lexicographic.{slice_cmp};
ghost use Rattle.std.specs.List.{AllZip};
ghost use Rattle.std.specs.List.Sorted.{IsStrictlySortedBy};
ghost use Rattle.std.specs.Ordering.{nat_cmp};
ghost use Rattle.answer_core.specs.Found.{SpellsKey};
ghost use Rattle.answer_core.specs.Ranks.{IsInRow, names_by_rank, ranks_of, items_of};

use crate::ranks::{Ranked, put_ranks};
use dl_base::{Items, Key, Keys};
use std::alloc::{AllocError, Global};

/// The numbers that are in keys, each once, in rising order.
pub(crate) fn numbers_in(alloc: Global, keys: &[Vec<u32>]) -> Result<Vec<u32>, AllocError>
    ensures rising { IfOk result (λ numbers. IsStrictlySortedBy nat_cmp numbers.items) }
    ensures each { IfOk result (λ numbers. (n : ℕ) → Contains numbers.items n ↔ IsInRow (items_of keys.now) n) }
{
    let mut numbers = Vec::new(alloc);
    for key in keys {
        numbers.extend_from_slice(key.as_slice())?;
    }
    numbers.sort_unstable();
    numbers.dedup();
    Ok(numbers)
}

/// The keys with ranks in place of numbers.
pub(crate) fn ranked(
    alloc: Global,
    keys: Vec<Vec<u32>>,
    ranks: &[u32],
) -> Result<Vec<Vec<u32>>, AllocError>
    requires { All (All (λ n. n < length ranks.now)) (items_of keys.items) }
    ensures { IfOk result (λ rows. items_of rows.items ≡ map (ranks_of ranks.now) (items_of keys.items)) }
{
    let mut rows = Vec::with_capacity(alloc, keys.len())?;
    for mut key in keys {
        put_ranks(key.as_mut_slice(), ranks);
        rows.push(key)?;
    }
    Ok(rows)
}

/// Puts the rows in order, each once.
pub(crate) fn put_in_order(rows: &mut Vec<Vec<u32>>)
    ensures rising { IsStrictlySortedBy (slice_cmp nat_cmp) (items_of rows.new.items) }
    ensures same { (row : List ℕ) → Contains (items_of rows.new.items) row ↔ Contains (items_of rows.old.items) row }
{
    rows.sort_unstable();
    rows.dedup();
}

/// The keys that rows of ranks spell.
pub(crate) fn spelled_rows(
    alloc: Global,
    order: &[Ranked],
    rows: &[Vec<u32>],
) -> Result<Keys, AllocError>
    requires { All (All (λ rank. rank < length order.now)) (items_of rows.now) }
    ensures { IfOk result (AllZip (SpellsKey (names_by_rank order.now)) (items_of rows.now)) }
{
    let mut keys = Items::new(alloc);
    for row in rows {
        keys.push(spelled_row(alloc, order, row.as_slice())?)?;
    }
    Ok(keys)
}

/// The names of the individuals that have these ranks.
fn spelled_row(alloc: Global, order: &[Ranked], row: &[u32]) -> Result<Key, AllocError>
    requires { All (λ rank. rank < length order.now) row.now }
    ensures { IfOk result (SpellsKey (names_by_rank order.now) row.now) }
{
    let mut key = Vec::with_capacity(alloc, row.len())?;
    for rank in row {
        key.push(order[*rank as usize].name.copy(alloc)?)?;
    }
    Ok(Items::from_vec(key))
}
