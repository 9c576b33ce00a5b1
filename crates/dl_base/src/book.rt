//! Books of names: distinct names, each with its place.
ghost use Rattle.std.specs.Prelude.{◌≡◌, ◌≢◌, ◌<◌, ◌≤◌, ◌^◌, AllPairs, [], slice_get, Some, length, Contains, MatchOption, IfOk, OnErr, IsTrue, ◌↔◌};
ghost use Rattle.dl_base.specs.Book.{Interns};

use crate::Name;
use indexmap::IndexMap;
use std::alloc::{AllocError, Global};
use std::marker::Model;

/// A list of distinct names, each at its place, counted from 0. Contracts see it as the list.
#[derive(Drop)]
pub struct NameBook {
    names: IndexMap<Vec<u8>, Name>,
}

impl Model for NameBook {
    ghost use Rattle.std.specs.Prelude.{List, ℕ};
    ghost use Rattle.indexmap.specs.IndexMap.{values};
    ghost use Rattle.dl_base.specs.Book.{IsBook};

    ghost Value = { List (List ℕ) };

    ghost view = { λ b. values b.names };

    ghost invariant = { λ b. IsBook (λ k. k.items) b.names.entries };
}

impl NameBook {
    /// The empty book. It takes no memory.
    pub fn new(alloc: Global) -> NameBook
        ensures { result ≡ [] }
    {
        NameBook {
            names: IndexMap::new(alloc),
        }
    }

    /// The place of the name with these bytes, or `None` exactly where the book hasn't got it. It takes no memory.
    pub fn find(&self, name: &[u8]) -> Option<u32>
        ensures { MatchOption result (Contains self.now name.now → ⊥) (λ id. slice_get self.now id ≡ Some name.now) }
    {
        match self.names.get_index_of(name) {
            Some(i) => Some(i as u32),
            None => None,
        }
    }

    /// The place of a name, which goes last where it is new. At `AllocError` the book is as it was.
    pub fn intern(&mut self, name: &Name) -> Result<u32, AllocError>
        requires { length self.old < 4000000000 }
        ensures ok { IfOk result (Interns self.old name.now self.new) }
        ensures err { OnErr result (self.new ≡ self.old) }
    {
        if let Some(id) = self.find(name.bytes()) {
            return Ok(id);
        }
        let alloc = *self.names.allocator();
        let at = self.names.len() as u32;
        let key = Vec::from_slice(alloc, name.bytes())?;
        let name = name.copy(alloc)?;
        self.names.insert(key, name)?;
        Ok(at)
    }

    /// How many names it has. It takes no memory.
    pub fn len(&self) -> usize
        ensures len { result ≡ length self.now }
        ensures distinct { AllPairs (λ x y. x ≢ y) self.now }
        ensures few { result ≤ 4000000000 }
    {
        self.names.len()
    }

    /// Whether it has no name.
    pub fn is_empty(&self) -> bool
        ensures { IsTrue result ↔ (self.now ≡ []) }
    {
        self.names.is_empty()
    }

    /// The name at a place. It takes no memory.
    pub fn name(&self, id: u32) -> &Name
        requires { id < length self.now }
        ensures { slice_get self.now id ≡ Some result.now }
    {
        &self.names[id as usize]
    }
}
