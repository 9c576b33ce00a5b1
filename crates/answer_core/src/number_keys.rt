//! Keys by the numbers of their individuals.
ghost use Rattle.std.specs.Prelude.{◌≡◌, ◌<◌, ◌↔◌, [], All, Contains, IfOk, IsTrue, OnOk, OnErr, length};
ghost use Rattle.std.specs.Bool.{OnTrue};
ghost use Rattle.answer_core.specs.Found.{AddsKey, AreSpelled};

use crate::key_store::KeyStore;
use crate::ranks::{by_name, ranks};
use crate::rows::{numbers_in, put_in_order, ranked, spelled_rows};
use dl_base::{Keys, NameBook};
use std::alloc::{AllocError, Global};
use std::marker::Model;

/// Keys by number, and the one that was found last. Contracts see them as a list.
#[derive(Drop)]
pub(crate) struct NumberKeys {
    keys: KeyStore,
    last: Vec<u32>,
    has_last: bool,
}

impl Model for NumberKeys {
    ghost use Rattle.std.specs.Prelude.{List, ℕ};

    ghost Value = { List (List ℕ) };

    ghost use Rattle.answer_core.specs.Found.{HasLast};

    ghost view = { λ s. s.keys };

    ghost invariant = { λ s. HasLast s.has_last s.last.items s.keys };
}

impl NumberKeys {
    /// No keys. It takes no memory. `grouped` says that equal keys will be added one after another, so that no set is needed to
    /// leave repeats out. Where it is wrong they take memory, until the keys are spelled.
    pub(crate) fn new(alloc: Global, grouped: bool) -> NumberKeys
        ensures { result ≡ [] }
    {
        NumberKeys {
            keys: KeyStore::new(alloc, grouped),
            last: Vec::new(alloc),
            has_last: false,
        }
    }

    /// Whether the key is the one that was added last. Then it is there, and needn't be looked for.
    pub(crate) fn is_last(&self, key: &[u32]) -> bool
        ensures { OnTrue result (Contains self.now key.now) }
    {
        self.has_last && is_same(self.last.as_slice(), key)
    }

    /// Adds the key. At `AllocError` the keys are as they were.
    pub(crate) fn add(&mut self, alloc: Global, key: &[u32]) -> Result<(), AllocError>
        ensures ok { OnOk result (AddsKey self.old key.now self.new) }
        ensures err { OnErr result (self.new ≡ self.old) }
    {
        self.has_last = false;
        self.last.clear();
        self.last.extend_from_slice(key)?;
        self.keys.add(alloc, key)?;
        self.has_last = true;
        Ok(())
    }

    /// The keys by name, in order. Names are compared to rank the individuals that are in keys, and keys by these ranks. Each
    /// name is copied once for each key that has it.
    pub(crate) fn spelled(self, alloc: Global, individuals: &NameBook) -> Result<Keys, AllocError>
        requires { All (All (λ n. n < length individuals.now)) self }
        ensures { IfOk result (AreSpelled individuals.now self) }
    {
        let keys = self.keys.into_rows()?;
        let numbers = numbers_in(alloc, keys.as_slice())?;
        let order = by_name(alloc, individuals, numbers.as_slice())?;
        let ranks = ranks(alloc, order.as_slice(), individuals.len())?;
        let mut rows = ranked(alloc, keys, ranks.as_slice())?;
        put_in_order(&mut rows);
        spelled_rows(alloc, order.as_slice(), rows.as_slice())
    }
}

fn is_same(key: &[u32], other: &[u32]) -> bool
    ensures { IsTrue result ↔ (key.now ≡ other.now) }
{
    key == other
}
