//! Names.

ghost use Rattle.std.specs.Prelude.{◌≡◌, IfOk, IfErr, ◌≤◌, false, length, refl};
ghost use Rattle.std.specs.Str.{bytes_eq};
ghost use Rattle.std.specs.Cmp.{partial_equiv_from_equiv};
ghost use Rattle.std.specs.Cmp.Lexicographic.{slice_cmp, nat_list_cmp_total, nat_list_eq_equiv, texts_ties, texts_po};
ghost use Rattle.std.specs.Ordering.{nat_cmp, as_partial_cmp};
ghost use Rattle.grammar.specs.Reading.{Gives, whole};
ghost use Rattle.dl_base.specs.Names.{IsName, IsWord};
ghost use Rattle.dl_base.specs.NameReading.{name_at, is_reserved};
ghost use Rattle.dl_base.specs.NameFault.{IsNameFault};

use crate::name_readers::read_name;
use grammar::ReadError;
use std::alloc::{AllocError, Global};
use std::cmp::Ordering;
use std::marker::Model;
use thiserror::Error;

/// A name of a concept, a role, an individual or a variable: its bytes, the brackets of an angled name included.
/// Names are ordered by their bytes.
#[derive(Debug, Drop)]
pub struct Name {
    bytes: Vec<u8>,
}

impl Model for Name {
    ghost use Rattle.std.specs.Prelude.{List, ℕ};
    ghost use Rattle.dl_base.specs.Names.{IsName};

    ghost Value = { List ℕ };

    ghost view = { λ n. n.bytes.items };

    ghost invariant = { λ n. IsName n.bytes.items };
}

/// Why bytes are no name.
#[derive(Debug, Drop, Error)]
pub enum NameError {
    /// No name has the bytes up to this place, counted from 0, as its first ones; the number of bytes, where the
    /// bytes are the first ones of a longer name.
    #[error("no name, from byte {0}")]
    Bad(u64),
    /// Memory ran out.
    #[error("no memory")]
    NoMemory,
}

impl Name {
    /// The name with these bytes.
    pub fn new(alloc: Global, bytes: &[u8]) -> Result<Name, NameError>
        ensures found { IfOk result (λ n. (n ≡ bytes.now) × IsName bytes.now) }
        ensures fault { IfErr result (λ e. IsNameFault bytes.now e) }
    {
        match whole_name(alloc, bytes) {
            Ok(name) => Ok(name),
            Err(ReadError::Fault(left)) => Err(NameError::Bad((bytes.len() - left) as u64)),
            Err(ReadError::Memory) => Err(NameError::NoMemory),
        }
    }

    /// The name that this word is. It is no reserved word.
    pub fn from_word(alloc: Global, word: &[u8]) -> Result<Name, AllocError>
        requires word { IsWord word.now }
        requires short { length word.now ≤ 255 }
        requires free { is_reserved word.now ≡ false }
        ensures { IfOk result (λ n. n ≡ word.now) }
    {
        let bytes = Vec::from_slice(alloc, word)?;
        Ok(Name { bytes })
    }

    /// The name with these bytes. It takes no memory.
    pub fn from_vec(bytes: Vec<u8>) -> Name
        requires { IsName bytes.items }
        ensures { result ≡ bytes.items }
    {
        Name { bytes }
    }

    /// The name's bytes.
    pub fn bytes(&self) -> &[u8]
        ensures bytes { result.now ≡ self.now }
        ensures name { IsName self.now }
    {
        self.bytes.as_slice()
    }

    /// The same name once more.
    pub fn copy(&self, alloc: Global) -> Result<Name, AllocError>
        ensures { IfOk result (λ n. n ≡ self.now) }
    {
        let bytes = Vec::from_slice(alloc, self.bytes.as_slice())?;
        Ok(Name { bytes })
    }
}

fn whole_name(alloc: Global, text: &[u8]) -> Result<Name, ReadError>
    ensures { Gives (λ n. n) result (whole (name_at text.now)) }
{
    let (name, rest) = read_name(alloc, text)?;
    if !rest.is_empty() {
        return Err(ReadError::Fault(rest.len()));
    }
    Ok(name)
}

impl PartialEq for Name {
    ghost eq = { bytes_eq };

    ghost laws = { partial_equiv_from_equiv nat_list_eq_equiv };

    fn eq(&self, other: &Name) -> bool {
        self.bytes.as_slice() == other.bytes.as_slice()
    }
}

impl Eq for Name {
    ghost laws = { nat_list_eq_equiv };
}

impl Ord for Name {
    ghost cmp = { slice_cmp nat_cmp };

    ghost total = { nat_list_cmp_total };

    ghost matches_partial_cmp = { λ _ _. refl };

    ghost matches_eq = { texts_ties };

    fn cmp(&self, other: &Name) -> Ordering {
        self.bytes.as_slice().cmp(other.bytes.as_slice())
    }
}

impl PartialOrd for Name {
    ghost partial_cmp = { as_partial_cmp (slice_cmp nat_cmp) };

    ghost laws = { texts_po };

    fn partial_cmp(&self, other: &Name) -> Option<Ordering> {
        Some(self.cmp(other))
    }
}
