// Both areas in memory.
ghost use Rattle.std.specs.Prelude.{◌≡◌, ◌≤◌, [], length, take, OnOk, OnErr, IfOk};
ghost use Rattle.host_io.specs.Disk.{put};
ghost use Rattle.host_io.specs.Memory.{bytes_of, with_bytes};

use crate::Bytes;
use std::alloc::{AllocError, Global};
use std::mem;

/// The bytes of area 0 and of area 1.
#[derive(Debug, Drop)]
pub struct Areas {
    pub first: Bytes,
    pub second: Bytes,
}

impl Areas {
    /// Two areas without bytes. It takes no memory.
    pub fn new(alloc: Global) -> Self
        ensures first { result.first ≡ [] }
        ensures second { result.second ≡ [] }
    {
        Areas {
            first: Bytes::new(alloc),
            second: Bytes::new(alloc),
        }
    }

    /// A copy of both areas.
    pub(crate) fn copy(&self, alloc: Global) -> Result<Areas, AllocError>
        ensures { IfOk result (λ areas. areas ≡ self.now) }
    {
        let first = Bytes::from_slice(alloc, self.first.items())?;
        let second = Bytes::from_slice(alloc, self.second.items())?;
        Ok(Areas { first, second })
    }

    /// The bytes of an area.
    pub(crate) fn bytes(&self, area: u8) -> &[u8]
        ensures { result.now ≡ bytes_of self.now area }
    {
        if area == 0 {
            self.first.items()
        } else {
            self.second.items()
        }
    }

    /// Puts the bytes at a place of an area, over what is there and past its end. At `AllocError` nothing has changed.
    pub(crate) fn put(
        &mut self,
        alloc: Global,
        area: u8,
        at: u64,
        bytes: &[u8],
    ) -> Result<(), AllocError>
        requires { at ≤ length (bytes_of self.old area) }
        ensures ok { OnOk result (self.new ≡ with_bytes self.old area (put at bytes.now (bytes_of self.old area))) }
        ensures err { OnErr result (self.new ≡ self.old) }
    {
        if area == 0 {
            put_at(alloc, &mut self.first, at, bytes)
        } else {
            put_at(alloc, &mut self.second, at, bytes)
        }
    }

    /// Cuts an area to its first bytes.
    pub(crate) fn cut(&mut self, alloc: Global, area: u8, len: u64)
        requires { len ≤ length (bytes_of self.old area) }
        ensures { self.new ≡ with_bytes self.old area (take len (bytes_of self.old area)) }
    {
        if area == 0 {
            cut_to(alloc, &mut self.first, len);
        } else {
            cut_to(alloc, &mut self.second, len);
        }
    }
}

// Puts the bytes at a place, over what is there and past the end. At `AllocError` nothing has changed.
fn put_at(alloc: Global, old: &mut Bytes, at: u64, bytes: &[u8]) -> Result<(), AllocError>
    requires { at ≤ length old.old }
    ensures ok { OnOk result (old.new ≡ put at bytes.now old.old) }
    ensures err { OnErr result (old.new ≡ old.old) }
{
    let mut items = mem::replace(old, Bytes::new(alloc)).into_vec();
    let outcome = put_into(&mut items, at as usize, bytes);
    *old = Bytes::from_vec(items);
    outcome
}

// The bytes past the end come first, since only these may want memory.
fn put_into(items: &mut Vec<u8>, at: usize, bytes: &[u8]) -> Result<(), AllocError>
    requires { at ≤ length items.old.items }
    ensures ok { OnOk result (items.new.items ≡ put at bytes.now items.old.items) }
    ensures err { OnErr result (items.new.items ≡ items.old.items) }
{
    let over = bytes.len().min(items.len() - at);
    items.extend_from_slice(&bytes[over..])?;
    items.as_mut_slice()[at..at + over].copy_from_slice(&bytes[..over]);
    Ok(())
}

// Cuts the bytes to the first ones, so many.
fn cut_to(alloc: Global, old: &mut Bytes, len: u64)
    requires { len ≤ length old.old }
    ensures { old.new ≡ take len old.old }
{
    let mut items = mem::replace(old, Bytes::new(alloc)).into_vec();
    items.truncate(len as usize);
    *old = Bytes::from_vec(items);
}
