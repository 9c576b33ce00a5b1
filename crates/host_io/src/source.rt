// What a program reads.
ghost use Rattle.std.specs.Prelude.{◌≡◌, ◌<◌, ◌≤◌, List, ℕ, Option, length, take, IfOk, OnErr, is_ok, if◌then◌else◌};
ghost use Rattle.std.specs.Io.KnownBytes.{ReadConsumes};
ghost use Rattle.host_io.specs.Causes.{HasCause, raised};
ghost use Rattle.host_io.specs.Source.{Takes, AtEnd, untold};

use crate::Failed;
use crate::counts::raised;
use std::io::Read;
use std::marker::Model;

/// Bytes that come in pieces of any size.
pub trait Source {
    /// The bytes that are left, where they are told.
    ghost left: { Self → Option (List ℕ) };

    /// How often a read has failed. The count stands still at 2 ^ 64 - 1.
    ghost read_faults: { Self → ℕ };

    /// Takes the next bytes into the front of the buffer and answers how many: 0 only at the end of input.
    /// At `Failed` nothing was taken, and the buffer may hold anything.
    fn read(&mut self, buf: &mut [u8]) -> Result<usize, Failed>
        requires { 0 < length buf.old }
        ensures within { IfOk result (λ count. count ≤ length buf.new) }
        ensures taken { IfOk result (λ count. Takes (left self.old) (left self.new) (take count buf.new)) }
        ensures end { IfOk result (λ count. count ≡ 0 → AtEnd (left self.old)) }
        ensures failed { OnErr result (left self.new ≡ left self.old) }
        ensures cause { HasCause (read_faults self.old) (read_faults self.new) result };
}

/// A source over a reader of std. It tells no bytes. Contracts see the reader and the count of failed reads.
#[derive(Drop)]
pub struct StdSource<R> {
    reader: R,
    read_faults: u64,
}

impl<R> Model for StdSource<R> {
    ghost use Rattle.host_io.specs.Memory.{ReaderState};

    ghost Value = { ReaderState R };

    ghost view = { λ source. record { reader = source.reader; read_faults = source.read_faults } };
}

impl<R> StdSource<R> {
    /// A source that gives what the reader gives. It reads nothing yet.
    pub fn new(reader: R) -> Self
        ensures reader { result.reader ≡ reader }
        ensures read_faults { result.read_faults ≡ 0 }
    {
        StdSource {
            reader,
            read_faults: 0,
        }
    }
}

impl<R: Read> Source for StdSource<R> {
    ghost left = { λ _. untold };

    ghost read_faults = { λ source. source.read_faults };

    /// Each `Err` of the reader is a failure, one that says that the call was interrupted too.
    fn read(&mut self, buf: &mut [u8]) -> Result<usize, Failed>
        ensures within { IfOk result (λ count. count ≤ length buf.new) }
        ensures taken { IfOk result (λ count. Takes untold untold (take count buf.new)) }
        ensures end { IfOk result (λ count. count ≡ 0 → AtEnd untold) }
        ensures failed { OnErr result (untold ≡ untold) }
        ensures cause { HasCause self.old.read_faults self.new.read_faults result }

        // Where the reader tells what it will give, these bytes were read.
        ensures reader { ReadConsumes (R.remaining self.old.reader) (R.remaining self.new.reader) result buf.new }

        // The count rises at each failure, and only there.
        ensures count { self.new.read_faults ≡ (if is_ok result then self.old.read_faults else raised self.old.read_faults) }
    {
        match self.reader.read(buf) {
            Ok(count) => Ok(count),
            Err(_) => {
                self.read_faults = raised(self.read_faults);
                Err(Failed)
            }
        }
    }
}
