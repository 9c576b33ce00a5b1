// Sources of bytes in memory.
ghost use Rattle.std.specs.Prelude.{◌≡◌, ◌↔◌, ◌≤◌, ◌<◌, ◌+◌, ◌-◌, List, ℕ, Some, IsErr, IsOk, length, drop, min, take, IfOk, OnErr, is_ok, if◌then◌else◌};
ghost use Rattle.host_io.specs.Causes.{HasCause, IsListed, raised};
ghost use Rattle.host_io.specs.Source.{Takes, AtEnd};

use crate::counts::{is_listed, raised};
use crate::{Bytes, Calls, Failed, Source};
use std::marker::Model;

// Bytes, of which some at the front were taken. Contracts see the bytes that are left.
#[derive(Debug, Drop)]
struct Rest {
    bytes: Bytes,
    taken: usize,
}

impl Model for Rest {
    ghost use Rattle.std.specs.Prelude.{◌≤◌, List, ℕ, drop, length};

    ghost Value = { List ℕ };

    ghost view = { λ rest. drop rest.taken rest.bytes };

    ghost invariant = { λ rest. rest.taken ≤ length rest.bytes };
}

impl Rest {
    fn new(bytes: Bytes) -> Self
        ensures { result ≡ bytes }
    {
        Rest { bytes, taken: 0 }
    }

    // Takes as many bytes as are left and go into the buffer.
    fn take_into(&mut self, buf: &mut [u8]) -> usize
        ensures count { result ≡ min (length buf.old) (length self.old) }
        ensures read { take result buf.new ≡ take result self.old }
        ensures rest { self.new ≡ drop result self.old }
    {
        let left = &self.bytes.items()[self.taken..];
        let count = left.len().min(buf.len());
        buf[..count].copy_from_slice(&left[..count]);
        self.taken += count;
        count
    }
}

/// Bytes in memory, with failures on demand. Contracts see the bytes that are left, the list of the calls that are
/// to fail, and the counts of calls and of failures, each of which stands still at 2 ^ 64 - 1.
#[derive(Debug, Drop)]
pub struct MemSource {
    rest: Rest,
    fails: Calls,
    calls: u64,
    read_faults: u64,
}

impl Model for MemSource {
    ghost use Rattle.host_io.specs.Memory.{SourceState};

    ghost Value = { SourceState };

    ghost view = { λ source. record { left = source.rest; fails = source.fails; calls = source.calls; read_faults = source.read_faults } };
}

impl MemSource {
    /// A source of these bytes. Each read whose number is listed fails, the first read being number 1.
    pub fn new(bytes: Bytes, fails: Calls) -> Self
        ensures left { result.left ≡ bytes }
        ensures fails { result.fails ≡ fails }
        ensures calls { result.calls ≡ 0 }
        ensures read_faults { result.read_faults ≡ 0 }
    {
        MemSource {
            rest: Rest::new(bytes),
            fails,
            calls: 0,
            read_faults: 0,
        }
    }
}

impl Source for MemSource {
    ghost left = { λ source. Some source.left };

    ghost read_faults = { λ source. source.read_faults };

    /// Takes as many bytes as are left and go into the buffer.
    fn read(&mut self, buf: &mut [u8]) -> Result<usize, Failed>
        requires { 0 < length buf.old }
        ensures within { IfOk result (λ count. count ≤ length buf.new) }
        ensures taken { IfOk result (λ count. Takes (Some self.old.left) (Some self.new.left) (take count buf.new)) }
        ensures end { IfOk result (λ count. count ≡ 0 → AtEnd (Some self.old.left)) }
        ensures failed { OnErr result (Some self.new.left ≡ Some self.old.left) }
        ensures cause { HasCause self.old.read_faults self.new.read_faults result }
        ensures full { IfOk result (λ count. count ≡ min (length buf.old) (length self.old.left)) }

        // The listed calls fail, and no other.
        ensures listed { IsErr result ↔ IsListed self.old.fails self.old.calls }
        ensures fails { self.new.fails ≡ self.old.fails }
        ensures calls { self.new.calls ≡ raised self.old.calls }
        ensures count { self.new.read_faults ≡ (if is_ok result then self.old.read_faults else raised self.old.read_faults) }
    {
        let listed = is_listed(self.fails.items(), self.calls);
        self.calls = raised(self.calls);
        if listed {
            self.read_faults = raised(self.read_faults);
            return Err(Failed);
        }
        Ok(self.rest.take_into(buf))
    }
}

/// Bytes in memory. No read fails. Contracts see the bytes that are left.
#[derive(Debug, Drop)]
pub struct EvenSource {
    rest: Rest,
}

impl Model for EvenSource {
    ghost use Rattle.std.specs.Prelude.{List, ℕ};

    ghost Value = { List ℕ };

    ghost view = { λ source. source.rest };
}

impl EvenSource {
    /// A source of these bytes.
    pub fn new(bytes: Bytes) -> Self
        ensures { result ≡ bytes }
    {
        EvenSource {
            rest: Rest::new(bytes),
        }
    }
}

impl Source for EvenSource {
    ghost left = { λ source. Some source };

    ghost read_faults = { λ _. 0 };

    /// Takes as many bytes as are left and go into the buffer.
    fn read(&mut self, buf: &mut [u8]) -> Result<usize, Failed>
        requires { 0 < length buf.old }
        ensures within { IfOk result (λ count. count ≤ length buf.new) }
        ensures taken { IfOk result (λ count. Takes (Some self.old) (Some self.new) (take count buf.new)) }
        ensures end { IfOk result (λ count. count ≡ 0 → AtEnd (Some self.old)) }
        ensures failed { OnErr result (Some self.new ≡ Some self.old) }
        ensures cause { HasCause 0 0 result }
        ensures full { IfOk result (λ count. count ≡ min (length buf.old) (length self.old)) }
        ensures never { IsOk result }
    {
        Ok(self.rest.take_into(buf))
    }
}
