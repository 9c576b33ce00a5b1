//! Names that stand in bytes.

ghost use Rattle.std.specs.Prelude.{◌≡◌, IfOk};
ghost use Rattle.dl_base.specs.Names.{IsName};

use dl_base::Name;
use std::alloc::{AllocError, Global};
use std::marker::Model;

/// A name whose bytes stand in a payload.
#[derive(Drop)]
pub struct NameSlice<'a> {
    bytes: &'a [u8],
}

impl<'a> Model for NameSlice<'a> {
    ghost use Rattle.std.specs.Prelude.{List, ℕ};
    ghost use Rattle.dl_base.specs.Names.{IsName};

    ghost Value = { List ℕ };

    ghost view = { λ n. n.bytes.now };

    ghost invariant = { λ n. IsName n.bytes.now };
}

impl<'a> NameSlice<'a> {
    /// The name with these bytes.
    pub(crate) fn of(bytes: &'a [u8]) -> NameSlice<'a>
        requires { IsName bytes.now }
        ensures { result ≡ bytes.now }
    {
        NameSlice { bytes }
    }

    /// The name's bytes.
    pub fn bytes(&self) -> &'a [u8]
        ensures bytes { result.now ≡ self.now }
        ensures name { IsName self.now }
    {
        self.bytes
    }

    /// The same name, with memory of its own.
    pub fn to_name(&self, alloc: Global) -> Result<Name, AllocError>
        ensures { IfOk result (λ name. name ≡ self.now) }
    {
        let bytes = Vec::from_slice(alloc, self.bytes)?;
        Ok(Name::from_vec(bytes))
    }
}
