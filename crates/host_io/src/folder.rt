// The files `obda.0` and `obda.1` of the current folder, and standard output.
ghost use Rattle.std.specs.Prelude.{◌≡◌, ◌≤◌, length, IfOk, is_ok, if◌then◌else◌};
ghost use Rattle.host_io.specs.Causes.{raised};

use crate::area_file::{AreaFile, sync_folder};
use crate::counts::raised;
use crate::{Failed, Host};
use std::io;
use std::io::Write;
use std::marker::Model;
use std::rt::Files;

/// A host that keeps area 0 in the file `obda.0` of the current folder and area 1 in `obda.1`, and prints on the runtime's
/// standard output. A file is opened when it is first needed, and made when it is first written or cut; one that is absent
/// is an area without bytes. It tells neither areas nor what was printed. Contracts see its counts of calls and of
/// failures, each of which stands still at 2 ^ 64 - 1.
#[derive(Drop)]
pub struct FolderHost<'a, R: Files> {
    rt: &'a R,
    first: AreaFile<R::File>,
    second: AreaFile<R::File>,
    // Whether a file was made since the folder was last put on the disk.
    made: bool,
    calls: u64,
    disk_faults: u64,
    print_faults: u64,
}

impl<'a, R: Files> Model for FolderHost<'a, R> {
    ghost use Rattle.host_io.specs.Memory.{HostCounts};

    ghost Value = { HostCounts };

    ghost view = { λ host. record { calls = host.calls; disk_faults = host.disk_faults; print_faults = host.print_faults } };
}

impl<'a, R: Files> FolderHost<'a, R> {
    /// A host over the runtime. It touches nothing yet.
    pub fn new(rt: &'a R) -> Self
        ensures { result ≡ record { calls = 0; disk_faults = 0; print_faults = 0 } }
    {
        FolderHost {
            rt,
            first: AreaFile::new("obda.0"),
            second: AreaFile::new("obda.1"),
            made: false,
            calls: 0,
            disk_faults: 0,
            print_faults: 0,
        }
    }

    // Counts a call of the disk, and its failure.
    fn count_disk<T>(&mut self, outcome: &io::Result<T>)
        ensures counts { self.new ≡ record self.old {
          calls = raised self.old.calls;
          disk_faults = if is_ok outcome.now then self.old.disk_faults else raised self.old.disk_faults;
        } }
        ensures calls { self.old.calls ≤ self.new.calls }
        ensures faults { self.old.disk_faults ≤ self.new.disk_faults }
    {
        self.calls = raised(self.calls);
        if outcome.is_err() {
            self.disk_faults = raised(self.disk_faults);
        }
    }

    // Makes the file of an area, if it isn't there.
    fn make(&mut self, area: u8) -> io::Result<()>
        ensures { self.new ≡ self.old }
    {
        let made = if area == 0 {
            self.first.open_or_make(self.rt)?
        } else {
            self.second.open_or_make(self.rt)?
        };
        self.made = self.made || made;
        Ok(())
    }
}

/// Prints the bytes and flushes them.
pub(crate) fn print_all(rt: &impl Print, bytes: &[u8]) -> io::Result<()> {
    let mut out = io::writer(rt);
    out.write_all(bytes)?;
    out.flush()
}

impl<'a, R: Files> FolderHost<'a, R> {
    fn try_len(&mut self, area: u8) -> io::Result<u64>
        ensures { self.new ≡ self.old }
    {
        if area == 0 {
            self.first.open(self.rt)?;
            self.first.len()
        } else {
            self.second.open(self.rt)?;
            self.second.len()
        }
    }

    fn try_read(&mut self, area: u8, at: u64, buf: &mut [u8]) -> io::Result<usize>
        ensures same { self.new ≡ self.old }
        ensures within { IfOk result (λ count. count ≤ length buf.new) }
    {
        if area == 0 {
            self.first.open(self.rt)?;
            self.first.read(at, buf)
        } else {
            self.second.open(self.rt)?;
            self.second.read(at, buf)
        }
    }

    fn try_write(&mut self, area: u8, at: u64, bytes: &[u8]) -> io::Result<()>
        ensures { self.new ≡ self.old }
    {
        self.make(area)?;
        if area == 0 {
            self.first.write(at, bytes)
        } else {
            self.second.write(at, bytes)
        }
    }

    fn try_cut(&mut self, area: u8, len: u64) -> io::Result<()>
        ensures { self.new ≡ self.old }
    {
        self.make(area)?;
        if area == 0 {
            self.first.cut(len)
        } else {
            self.second.cut(len)
        }
    }

    fn try_sync(&mut self) -> io::Result<()>
        ensures { self.new ≡ self.old }
    {
        self.first.open(self.rt)?;
        self.second.open(self.rt)?;
        self.first.sync()?;
        self.second.sync()?;
        if self.made {
            sync_folder(self.rt)?;
            self.made = false;
        }
        Ok(())
    }
}

impl<'a, R: Files + Print> Host for FolderHost<'a, R> {
    ghost use Rattle.std.specs.Prelude.{None};
    ghost use Rattle.host_io.specs.Moments.{anything};
    ghost use Rattle.host_io.specs.Untold.{leaves_anything, nothing_read};

    ghost disk = { λ _. None };

    ghost printed = { λ _. None };

    ghost clock = { λ host. host.calls };

    ghost might = { λ _. anything };

    ghost lacked = { λ _. 0 };

    ghost disk_faults = { λ host. host.disk_faults };

    ghost print_faults = { λ host. host.print_faults };

    ghost counts_now = { λ host moment left le now. tt };

    ghost only_now = { λ host left any. leaves_anything left };

    ghost reads_now = { λ host d is. nothing_read d is };

    /// The length of the file; 0 where there is none.
    fn len(&mut self, area: u8) -> Result<u64, Failed> {
        let outcome = self.try_len(area);
        self.count_disk(&outcome);
        outcome.map_err(|_| Failed)
    }

    fn read(&mut self, area: u8, at: u64, buf: &mut [u8]) -> Result<usize, Failed> {
        let outcome = self.try_read(area, at, buf);
        self.count_disk(&outcome);
        outcome.map_err(|_| Failed)
    }

    /// Makes the file, where there is none.
    fn write(&mut self, area: u8, at: u64, bytes: &[u8]) -> Result<(), Failed> {
        let outcome = self.try_write(area, at, bytes);
        self.count_disk(&outcome);
        outcome.map_err(|_| Failed)
    }

    /// Makes the file, where there is none.
    fn cut(&mut self, area: u8, len: u64) -> Result<(), Failed> {
        let outcome = self.try_cut(area, len);
        self.count_disk(&outcome);
        outcome.map_err(|_| Failed)
    }

    /// Puts the files that are there on the disk, and the folder, if a file was made in it.
    fn sync(&mut self) -> Result<(), Failed> {
        let outcome = self.try_sync();
        self.count_disk(&outcome);
        outcome.map_err(|_| Failed)
    }

    /// What is printed is flushed.
    fn print(&mut self, bytes: &[u8]) -> Result<(), Failed> {
        let outcome = print_all(self.rt, bytes);
        self.calls = raised(self.calls);
        if outcome.is_err() {
            self.print_faults = raised(self.print_faults);
        }
        outcome.map_err(|_| Failed)
    }
}
