//! Numbers of the individuals that have properties, gathered for many properties in one pass over the individuals.
ghost use Rattle.std.specs.Prelude.{◌≡◌, ◌<◌, ◌++◌, ◌∷◌, [], ℕ, IfOk, OnOk, All, Contains, Some, length, slice_get, slice_index_or};
ghost use Rattle.std.specs.Ordering.{nat_cmp};
ghost use Rattle.std.specs.List.Sorted.{IsStrictlySortedBy};
ghost use Rattle.completion.specs.Numbers.{AreAddedToEach, AreNumberLists, IsAddedTo, IsTakenFrom};
ghost use Rattle.completion.specs.declared.gather.Property.{Property as AnyProperty};

use crate::gather::Property;
use crate::individuals::AtIndividual;
use std::alloc::{AllocError, Global};
use std::collections::BTreeMap;
use std::marker::Model;
use std::mem;

/// Numbers that rise. Contracts see the list of them.
#[derive(Drop)]
pub(crate) struct Numbers {
    list: Vec<u32>,
}

impl Model for Numbers {
    ghost use Rattle.std.specs.Prelude.{List, ℕ};
    ghost use Rattle.std.specs.Ordering.{nat_cmp};
    ghost use Rattle.std.specs.List.Sorted.{IsStrictlySortedBy};

    ghost Value = { List ℕ };

    ghost view = { λ n. n.list.items };

    ghost invariant = { λ n. IsStrictlySortedBy nat_cmp n.list.items };
}

impl Numbers {
    /// No numbers, with room for so many.
    fn with_room(alloc: Global, count: usize) -> Result<Numbers, AllocError>
        ensures { IfOk result (λ n. n ≡ []) }
    {
        Ok(Numbers {
            list: Vec::with_capacity(alloc, count)?,
        })
    }

    /// Adds a number above all others.
    fn push(&mut self, number: u32) -> Result<(), AllocError>
        requires { (m : ℕ) → Contains self.old m → m < number }
        ensures { OnOk result (self.new ≡ self.old ++ number ∷ []) }
    {
        self.list.push(number)?;
        Ok(())
    }

    /// The numbers as a list.
    pub(crate) fn into_list(self) -> Vec<u32>
        ensures list { result.items ≡ self }
        ensures rising { IsStrictlySortedBy nat_cmp result.items }
    {
        self.list
    }
}

/// For each of the properties, by its place, the numbers of the individuals that have it.
pub(crate) fn number_lists(
    alloc: Global,
    properties: &[Property],
    individuals: &BTreeMap<u32, AtIndividual>,
) -> Result<Vec<Numbers>, AllocError>
    ensures { IfOk result (λ v. AreNumberLists individuals.now.entries properties.now 0 v.items) }
{
    let mut lists = rooms(alloc, &counts(alloc, properties, individuals)?)?;
    for (number, at) in individuals.iter() {
        add_to_each(&mut lists, properties, *number, at)?;
    }
    Ok(lists)
}

/// How many individuals have each of the properties, by its place.
fn counts(
    alloc: Global,
    properties: &[Property],
    individuals: &BTreeMap<u32, AtIndividual>,
) -> Result<Vec<usize>, AllocError>
    ensures { IfOk result (λ v. length v.items ≡ length properties.now) }
{
    let mut counts = vec![in alloc; 0usize; properties.len()]?;
    for at in individuals.values() {
        count_each(&mut counts, properties, at);
    }
    Ok(counts)
}

/// Counts the individual for each of the properties that it has.
fn count_each(counts: &mut [usize], properties: &[Property], at: &AtIndividual)
    requires { length counts.old ≡ length properties.now }
    ensures { length counts.new ≡ length counts.old }
{
    for (place, property) in properties.iter().enumerate() {
        if property.is_had(at) {
            counts[place] = counts[place].saturating_add(1);
        }
    }
}

/// Empty lists with room for so many numbers each.
fn rooms(alloc: Global, counts: &[usize]) -> Result<Vec<Numbers>, AllocError>
    ensures all { IfOk result (λ v. length v.items ≡ length counts.now) }
    ensures empty { IfOk result (λ v. All (λ n. n ≡ []) v.items) }
{
    let mut rooms = Vec::with_capacity(alloc, counts.len())?;
    for count in counts {
        rooms.push(Numbers::with_room(alloc, *count)?)?;
    }
    Ok(rooms)
}

/// Adds the number of the individual to the list of each property that it has.
fn add_to_each(
    lists: &mut Vec<Numbers>,
    properties: &[Property],
    number: u32,
    at: &AtIndividual,
) -> Result<(), AllocError>
    requires all { length lists.old.items ≡ length properties.now }
    requires above { (i m : ℕ) → Contains (slice_index_or lists.old.items i []) m → m < number }
    ensures { OnOk result (AreAddedToEach number at.now properties.now lists.old.items lists.new.items) }
{
    for place in 0..properties.len() {
        let list = &mut lists[place];
        add_where(list, properties[place], number, at)?;
    }
    Ok(())
}

/// Adds the number of the individual where it has the property.
fn add_where(
    list: &mut Numbers,
    property: Property,
    number: u32,
    at: &AtIndividual,
) -> Result<(), AllocError>
    requires { (m : ℕ) → Contains list.old m → m < number }
    ensures { OnOk result (IsAddedTo number at.now property list.old list.new) }
{
    if property.is_had(at) {
        list.push(number)?;
    }
    Ok(())
}

/// Takes the list at the place, and leaves an empty one there.
pub(crate) fn take_list(alloc: Global, lists: &mut Vec<Numbers>, place: usize) -> Numbers
    requires { place < length lists.old.items }
    ensures { IsTakenFrom place lists.old.items result lists.new.items }
{
    let list = &mut lists[place];
    mem::replace(
        list,
        Numbers {
            list: Vec::new(alloc),
        },
    )
}
