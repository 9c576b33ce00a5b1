//! The places of basic concepts that a closure has marked, in the order of marking.
ghost use Rattle.std.specs.Prelude.{◌≡◌, ◌<◌, ◌≤◌, ◌∷◌, ◌++◌, [], length};

use dl_base::PLACES;
use std::marker::Model;

/// At most 1,024 places, in the order in which they were added. It takes no memory beside itself.
#[derive(Drop)]
pub(crate) struct Queue {
    places: [u16; PLACES],
    many: usize,
}

impl Model for Queue {
    ghost use Rattle.std.specs.Prelude.{ℕ, List, ◌≤◌, take};

    ghost Value = { List ℕ };

    ghost view = { λ q. take q.many q.places };

    ghost invariant = { λ q. q.many ≤ 1024 };
}

impl Queue {
    /// The empty queue.
    pub(crate) fn new() -> Queue
        ensures { result ≡ [] }
    {
        Queue {
            places: [0; PLACES],
            many: 0,
        }
    }

    /// Leaves no place in it; none is written over.
    pub(crate) fn clear(&mut self)
        ensures { self.new ≡ [] }
    {
        self.many = 0;
    }

    /// How many places it has.
    pub(crate) fn len(&self) -> usize
        ensures length { result ≡ length self.now }
        ensures most { result ≤ 1024 }
    {
        self.many
    }

    /// The places, in order.
    pub(crate) fn places(&self) -> &[u16]
        ensures { result.now ≡ self.now }
    {
        &self.places[..self.many]
    }

    /// Adds a place at the end.
    pub(crate) fn push(&mut self, place: usize)
        requires place { place < 1024 }
        requires room { length self.old < 1024 }
        ensures { self.new ≡ self.old ++ place ∷ [] }
    {
        self.places[self.many] = place as u16;
        self.many += 1;
    }
}
