//! Individuals by the order of their names.
ghost use Rattle.std.specs.Prelude.{◌≡◌, ◌<◌, ◌^◌, ℕ, All, Contains, IfOk, length};
ghost use Rattle.answer_core.specs.Ranks.{AreInOrder, HasNumber, HasRank, ranks_of};

use dl_base::{Name, NameBook};
use std::alloc::{AllocError, Global};

/// An individual with its name. Individuals are ordered by their names.
#[derive(Clone, Copy, PartialEq, Eq, PartialOrd, Ord)]
pub(crate) struct Ranked<'a> {
    pub(crate) name: &'a Name,
    pub(crate) number: u32,
}

/// The individuals of these numbers in the order of their names.
pub(crate) fn by_name<'a>(
    alloc: Global,
    individuals: &'a NameBook,
    numbers: &[u32],
) -> Result<Vec<Ranked<'a>>, AllocError>
    requires { All (λ n. n < length individuals.now) numbers.now }
    ensures in_order { IfOk result (λ order. AreInOrder individuals.now order.items) }
    ensures each { IfOk result (λ order. (n : ℕ) → Contains numbers.now n → HasNumber order.items n) }
    ensures count { IfOk result (λ order. length order.items ≡ length numbers.now) }
{
    let mut order = Vec::with_capacity(alloc, numbers.len())?;
    for number in numbers {
        let name = individuals.name(*number);
        order.push(Ranked {
            name,
            number: *number,
        })?;
    }
    order.sort_unstable();
    Ok(order)
}

/// By number, the rank of each of these individuals, which is its place among them.
pub(crate) fn ranks(alloc: Global, order: &[Ranked], count: usize) -> Result<Vec<u32>, AllocError>
    requires within { All (λ e. e.number < count) order.now }
    requires few { length order.now < 2 ^ 32 }
    ensures len { IfOk result (λ ranks. length ranks.items ≡ count) }
    ensures ranked { IfOk result (λ ranks. (n : ℕ) → HasNumber order.now n → HasRank order.now ranks.items n) }
{
    let mut ranks = vec![in alloc; 0u32; count]?;
    for (rank, individual) in order.iter().enumerate() {
        ranks[individual.number as usize] = rank as u32;
    }
    Ok(ranks)
}

/// Puts the rank in place of each number.
pub(crate) fn put_ranks(numbers: &mut [u32], ranks: &[u32])
    requires { All (λ n. n < length ranks.now) numbers.old }
    ensures { numbers.new ≡ ranks_of ranks.now numbers.old }
{
    for number in numbers.iter_mut() {
        *number = ranks[*number as usize];
    }
}
