//! Keys by number in a list or a set.
ghost use Rattle.std.specs.Prelude.{◌≡◌, [], IfOk, OnOk, OnErr};
ghost use Rattle.answer_core.specs.Found.{AddsKey};
ghost use Rattle.answer_core.specs.Ranks.{items_of};

use std::alloc::{AllocError, Global};
use std::collections::BTreeSet;
use std::marker::Model;

/// Keys by number: in a list, if equal ones are added one after another, and else in a set. Contracts see them as one list,
/// those of the set last.
#[derive(Drop)]
pub(crate) struct KeyStore {
    listed: Vec<Vec<u32>>,
    others: BTreeSet<Vec<u32>>,
    grouped: bool,
}

impl Model for KeyStore {
    ghost use Rattle.std.specs.Prelude.{List, ℕ, ◌++◌};

    ghost Value = { List (List ℕ) };

    ghost use Rattle.answer_core.specs.Ranks.{items_of};

    ghost view = { λ s. items_of s.listed.items ++ items_of s.others.keys };
}

impl KeyStore {
    /// No keys. It takes no memory.
    pub(crate) fn new(alloc: Global, grouped: bool) -> KeyStore
        ensures { result ≡ [] }
    {
        KeyStore {
            listed: Vec::new(alloc),
            others: BTreeSet::new(alloc),
            grouped,
        }
    }

    /// Adds a copy of the key; in a set only where it is new. At `AllocError` the keys are as they were.
    pub(crate) fn add(&mut self, alloc: Global, key: &[u32]) -> Result<(), AllocError>
        ensures ok { OnOk result (AddsKey self.old key.now self.new) }
        ensures err { OnErr result (self.new ≡ self.old) }
    {
        if !self.grouped {
            return insert(alloc, &mut self.others, key);
        }
        let copy = Vec::from_slice(alloc, key)?;
        self.listed.push(copy)?;
        Ok(())
    }

    /// The keys in a list.
    pub(crate) fn into_rows(self) -> Result<Vec<Vec<u32>>, AllocError>
        ensures { IfOk result (λ rows. items_of rows.items ≡ self) }
    {
        let mut rows = self.listed;
        for key in self.others {
            rows.push(key)?;
        }
        Ok(rows)
    }
}

/// Adds a copy of the key where it is new. At `AllocError` the keys are as they were.
fn insert(alloc: Global, keys: &mut BTreeSet<Vec<u32>>, key: &[u32]) -> Result<(), AllocError>
    ensures ok { OnOk result (AddsKey (items_of keys.old.keys) key.now (items_of keys.new.keys)) }
    ensures err { OnErr result (items_of keys.new.keys ≡ items_of keys.old.keys) }
{
    if keys.contains(key) {
        return Ok(());
    }
    let copy = Vec::from_slice(alloc, key)?;
    keys.insert(copy)?;
    Ok(())
}
