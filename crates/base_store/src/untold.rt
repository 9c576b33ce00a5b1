// A host in memory for tests, which tells nothing of its areas.
ghost use Rattle.std.specs.Prelude.{◌≡◌, ◌<◌, ◌≤◌, IfOk, is_ok, if◌then◌else◌, length};
ghost use Rattle.host_io.specs.Causes.{raised};

use host_io::{Areas, Bytes, Calls, Failed, Host, MemHost};
use std::alloc::{AllocError, Global};
use std::marker::Model;

/// A host in memory over the first area's bytes. A call whose number is listed fails.
#[derive(Drop)]
pub(crate) struct Untold {
    pub(crate) host: MemHost,
    calls: u64,
    disk_faults: u64,
    print_faults: u64,
}

impl Model for Untold {
    ghost use Rattle.host_io.specs.Memory.{HostCounts};

    ghost Value = { HostCounts };

    ghost view = { λ host. record { calls = host.calls; disk_faults = host.disk_faults; print_faults = host.print_faults } };
}

fn raised(count: u64) -> u64
    ensures { result ≡ raised count }
{
    count.saturating_add(1)
}

impl Untold {
    pub(crate) fn new(alloc: Global, area: &[u8], fails: &[u64]) -> Result<Untold, AllocError> {
        let mut areas = Areas::new(alloc);
        areas.first = Bytes::from_slice(alloc, area)?;
        Ok(Untold {
            host: MemHost::new(alloc, areas, Calls::from_slice(alloc, fails)?),
            calls: 0,
            disk_faults: 0,
            print_faults: 0,
        })
    }

    /// What the first area reads as.
    pub(crate) fn area(&self) -> &[u8] {
        self.host.areas().first.items()
    }

    // Counts a call of the disk, and its failure.
    fn count_disk<T>(&mut self, outcome: &Result<T, Failed>)
        ensures calls { self.old.calls ≤ self.new.calls }
        ensures faults { self.old.disk_faults ≤ self.new.disk_faults }
        ensures counts { self.new ≡ record self.old {
          calls = raised self.old.calls;
          disk_faults = if is_ok outcome.now then self.old.disk_faults else raised self.old.disk_faults;
        } }
    {
        self.calls = raised(self.calls);
        if outcome.is_err() {
            self.disk_faults = raised(self.disk_faults);
        }
    }

    // Writes where the area has a byte or ends.
    fn try_write(&mut self, area: u8, at: u64, bytes: &[u8]) -> Result<(), Failed>
        requires { area < 2 }
        ensures { self.new ≡ self.old }
    {
        if self.host.len(area)? < at {
            return Err(Failed);
        }
        self.host.write(area, at, bytes)
    }

    fn try_cut(&mut self, area: u8, len: u64) -> Result<(), Failed>
        requires { area < 2 }
        ensures { self.new ≡ self.old }
    {
        if self.host.len(area)? < len {
            return Err(Failed);
        }
        self.host.cut(area, len)
    }
}

impl Host for Untold {
    ghost use Rattle.std.specs.Prelude.{None};
    ghost use Rattle.host_io.specs.Moments.{anything};
    ghost use Rattle.host_io.specs.Untold.{leaves_anything, nothing_read};

    ghost clock = { λ host. host.calls };

    ghost disk_faults = { λ host. host.disk_faults };

    ghost disk = { λ _. None };

    ghost might = { λ _. anything };

    ghost print_faults = { λ host. host.print_faults };

    ghost printed = { λ _. None };

    ghost lacked = { λ _. 0 };

    ghost counts_now = { λ host moment left le now. tt };

    ghost only_now = { λ host left any. leaves_anything left };

    ghost reads_now = { λ host d is. nothing_read d is };

    fn len(&mut self, area: u8) -> Result<u64, Failed> {
        let outcome = self.host.len(area);
        self.count_disk(&outcome);
        outcome
    }

    fn read(&mut self, area: u8, at: u64, buf: &mut [u8]) -> Result<usize, Failed> {
        let outcome = self.host.read(area, at, buf);
        self.count_disk(&outcome);
        outcome
    }

    fn write(&mut self, area: u8, at: u64, bytes: &[u8]) -> Result<(), Failed> {
        let outcome = self.try_write(area, at, bytes);
        self.count_disk(&outcome);
        outcome
    }

    fn cut(&mut self, area: u8, len: u64) -> Result<(), Failed> {
        let outcome = self.try_cut(area, len);
        self.count_disk(&outcome);
        outcome
    }

    fn sync(&mut self) -> Result<(), Failed> {
        let outcome = self.host.sync();
        self.count_disk(&outcome);
        outcome
    }

    fn print(&mut self, bytes: &[u8]) -> Result<(), Failed> {
        let outcome = self.host.print(bytes);
        self.calls = raised(self.calls);
        if outcome.is_err() {
            self.print_faults = raised(self.print_faults);
        }
        outcome
    }
}
