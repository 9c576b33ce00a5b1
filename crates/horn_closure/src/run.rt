//! A closure while it is computed.
ghost use Rattle.std.specs.Prelude.{◌≡◌, ◌<◌, ◌≤◌, ◌+◌, ℕ, List, [], ◌∷◌, All, length, take, min, MatchOption, slice_index, slice_index_or};
ghost use Rattle.dl_base.specs.Ontology.{IsPlaced, IsWithin};
ghost use Rattle.dl_base.specs.Sets.{HasBasic};
ghost use Rattle.horn_closure.specs.Closure.{IsClosure, body_lengths};
ghost use Rattle.horn_closure.specs.Run.{AreRules, IsQueueOf, IsRun, Marks, MarksDerived, count, uses_at};

use crate::queue::Queue;
use crate::seeds::queue_all;
use dl_base::{Basic, BasicSet, Head, Inclusion, Items, place};

/// What was found so far: the basic concepts, and the first inclusion to nothing of which no member is left.
#[derive(Drop)]
pub(crate) struct Found {
    pub(crate) derived: BasicSet,
    pub(crate) violated: Option<u32>,
}

/// The closure of what is held. The numbers of members left are handed back as they were.
pub(crate) fn closure(
    inclusions: &[Inclusion],
    uses: &[Items<u32>],
    held: &BasicSet,
    left: &mut [u32],
    queue: &mut Queue,
) -> Found
    requires rules { AreRules inclusions.now uses.now }
    requires clean { left.old ≡ body_lengths inclusions.now }
    ensures closure { IsClosure inclusions.now (HasBasic held.now) (record { derived = result.derived; violated = result.violated }) }
    ensures clean { left.new ≡ left.old }
{
    queue.clear();
    queue_all(held, queue);
    let mut found = Found {
        derived: *held,
        violated: None,
    };
    saturate(inclusions, uses, left, queue, &mut found);
    give_back_all(uses, left, queue);
    found
}

/// Visits the places of the queue, and those that are added on the way, until each was visited.
fn saturate(
    inclusions: &[Inclusion],
    uses: &[Items<u32>],
    left: &mut [u32],
    queue: &mut Queue,
    found: &mut Found,
)
    requires rules { AreRules inclusions.now uses.now }
    requires run { IsRun inclusions.now [] [] queue.old found.old left.old }
    ensures run { IsRun inclusions.now [] queue.new queue.new found.new left.new }
    ensures advances { MarksDerived inclusions.now found.old.derived queue.old found.new.derived queue.new }
{
    let mut head = 0;
    while head < queue.len() {
        visit(inclusions, uses, head, left, queue, found);
        head += 1;
    }
}

/// Counts each use of the place that stands in the queue after so many others.
fn visit(
    inclusions: &[Inclusion],
    uses: &[Items<u32>],
    head: usize,
    left: &mut [u32],
    queue: &mut Queue,
    found: &mut Found,
)
    requires rules { AreRules inclusions.now uses.now }
    requires inside { head < length queue.old }
    requires run { IsRun inclusions.now [] (take head queue.old) queue.old found.old left.old }
    ensures run { IsRun inclusions.now [] (take (head + 1) queue.new) queue.new found.new left.new }
    ensures advances { MarksDerived inclusions.now found.old.derived queue.old found.new.derived queue.new }
{
    let place = queue.places()[head] as usize;
    for i in uses[place].items() {
        settle(inclusions, *i, left, queue, found);
    }
}

/// Of inclusion i, counted from 0, one member fewer is left. Where that was the last, the head is found.
fn settle(inclusions: &[Inclusion], i: u32, left: &mut [u32], queue: &mut Queue, found: &mut Found)
    requires few { length inclusions.now ≤ 4096 }
    requires within { All (IsWithin 512 256) inclusions.now }
    requires inside { i < length inclusions.now }
    requires each { length left.old ≡ length inclusions.now }
    requires some { 0 < slice_index left.old i }
    requires marks { IsQueueOf found.old.derived queue.old }
    ensures { (remaining visited : List ℕ) → IsRun inclusions.now (i ∷ remaining) visited queue.old found.old left.old
        → IsRun inclusions.now remaining visited queue.new found.new left.new × MarksDerived inclusions.now found.old.derived queue.old found.new.derived queue.new }
{
    let at = i as usize;
    left[at] -= 1;
    if left[at] > 0 {
        return;
    }
    match inclusions[at].head {
        Head::Basic(b) => mark(b, queue, &mut found.derived),
        Head::Nothing => found.violated = Some(least(found.violated, i + 1)),
    }
}

/// Marks the basic concept, and queues its place where it wasn't marked.
fn mark(b: Basic, queue: &mut Queue, derived: &mut BasicSet)
    requires placed { IsPlaced 512 256 b }
    requires marks { IsQueueOf derived.old queue.old }
    ensures { Marks b derived.old queue.old derived.new queue.new }
{
    if !derived.has(b) {
        derived.add(b);
        queue.push(place(b));
    }
}

/// The lesser of the number that is known and another.
fn least(known: Option<u32>, number: u32) -> u32
    ensures { MatchOption known (result ≡ number) (λ first. result ≡ min first number) }
{
    match known {
        Some(first) => first.min(number),
        None => number,
    }
}

/// Hands back each use of the places of the queue.
fn give_back_all(uses: &[Items<u32>], left: &mut [u32], queue: &Queue)
    requires queue { All (λ p. p < length uses.now) queue.now }
    requires inside { (p : ℕ) → p < length uses.now → All (λ i. i < length left.old) (slice_index_or uses.now p []) }
    requires few { (i : ℕ) → i < length left.old → slice_index left.old i + uses_at i uses.now queue.now ≤ 8 }
    ensures { (i : ℕ) → i < length left.old → slice_index left.new i ≡ slice_index left.old i + uses_at i uses.now queue.now }
{
    for place in queue.places() {
        give_back(uses[*place as usize].items(), left);
    }
}

/// Hands back each of these uses.
fn give_back(uses: &[u32], left: &mut [u32])
    requires inside { All (λ i. i < length left.old) uses.now }
    requires few { (i : ℕ) → i < length left.old → slice_index left.old i + count i uses.now ≤ 8 }
    ensures { (i : ℕ) → i < length left.old → slice_index left.new i ≡ slice_index left.old i + count i uses.now }
{
    for i in uses {
        left[*i as usize] += 1;
    }
}
