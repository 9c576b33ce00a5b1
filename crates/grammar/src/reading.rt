//! Reading lists and whole texts.

ghost use Rattle.std.specs.Prelude.{ℕ, ◌+◌, List, [], ◌∷◌, Option, length};
ghost use Rattle.grammar.specs.Reading.{Gives, Outcome, whole, until_at, onto};

use crate::fault::ReadError;
use plain_list::Items;
use std::alloc::Global;

/// A kind of list, by what stands behind its first item.
pub trait ListTail {
    /// The items.
    type Item: Drop;

    /// What is read behind the first item and so many others: another item, or nothing where the list ends.
    ghost another_at: { ℕ → List ℕ → Outcome (Option Self.Item) };

    /// Another item and the text behind it, or nothing where the list ends, behind the first item and so many others.
    fn read_another(
        alloc: Global,
        count: usize,
        text: &[u8],
    ) -> Result<(Option<Self::Item>, &[u8]), ReadError>
        ensures { Gives (λ x. (x.0, x.1.now)) result (another_at count text.now) };
}

/// The list with this first item, of which the text behind the first item is given, and the text behind the list.
#[tactic(auto, using(crate::proofs::Loops::lists))]
pub fn read_list<L: ListTail>(
    alloc: Global,
    first: L::Item,
    text: &[u8],
) -> Result<(Items<L::Item>, &[u8]), ReadError>
    ensures { Gives (λ x. (x.0, x.1.now)) result (onto (first ∷ []) (until_at L.another_at (length text.now + 1) 0 text.now)) }
{
    let mut items = Items::new(alloc);
    items.push(first)?;
    let mut rest = text;
    // Each item takes a byte at least, so there are fewer than there are bytes.
    for i in 0..text.len() + 1 {
        let (item, after) = L::read_another(alloc, i, rest)?;
        rest = after;
        match item {
            Some(item) => items.push(item)?,
            None => return Ok((items, rest)),
        }
    }
    Err(ReadError::Fault(rest.len()))
}

/// The value that was read, where nothing stands behind it. Else the fault is there.
pub fn whole<V: Drop>(read: Result<(V, &[u8]), ReadError>) -> Result<V, ReadError>
    ensures { (given : Outcome V) → Gives (λ x. (x.0, x.1.now)) read.entry given → Gives (λ v. v) result (whole given) }
{
    let (value, rest) = read?;
    if rest.is_empty() {
        Ok(value)
    } else {
        Err(ReadError::Fault(rest.len()))
    }
}
