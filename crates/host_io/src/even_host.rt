// A host in memory of which no call is listed to fail.
ghost use Rattle.std.specs.Prelude.{◌≡◌, ◌<◌, ◌≤◌, [], ℕ, true, IfOk, OnErr, OnOk, length};
ghost use Rattle.std.specs.Option.{ForSome};
ghost use Rattle.host_io.specs.Causes.{HasCause};
ghost use Rattle.host_io.specs.Disk.{Cuts, IsCopy, OnArea, Syncs, TakesStep, Writes, area_of};
ghost use Rattle.host_io.specs.Host.{Prints};
ghost use Rattle.host_io.specs.Memory.{clock_of, disk_failed, disk_of, lacked_of, might_of, print_failed, printed_of, state_of, with_call, with_lack};
ghost use Rattle.host_io.specs.Moments.{Elapses, IsNoCall, IsShowing, IsShown, Leaves, Left, Ticks};
ghost use Rattle.host_io.specs.declared.call.Call.{Call};

use crate::{Areas, Bytes, Calls, Failed, Host, MemHost};
use std::alloc::Global;
use std::marker::Model;

/// Two areas and what was printed, in memory. A call fails only where it finds no memory. Contracts see what they see of a
/// `MemHost` of which no call is listed to fail.
#[derive(Debug, Drop)]
pub struct EvenHost {
    host: MemHost,
}

impl Model for EvenHost {
    ghost use Rattle.std.specs.Prelude.{◌≡◌, []};
    ghost use Rattle.host_io.specs.Memory.{HostState};

    ghost Value = { HostState };

    ghost view = { λ even. even.host };

    ghost invariant = { λ even. even.host.fails ≡ [] };
}

impl EvenHost {
    /// A host with areas without bytes, on which nothing was printed. It takes no memory yet.
    pub fn new(alloc: Global) -> Self
        ensures { result ≡ record { given = record { first = []; second = [] }; calls = []; fails = []; disk_faults = 0; print_faults = 0; lacked = 0 } }
    {
        EvenHost {
            host: MemHost::new(alloc, Areas::new(alloc), Calls::new(alloc)),
        }
    }

    /// What was printed.
    pub fn printed(&self) -> &Bytes
        ensures { result.now ≡ (state_of self.now).printed }
    {
        self.host.printed()
    }

    /// How many calls found no memory.
    pub fn lacked(&self) -> u64
        ensures { result ≡ self.now.lacked }
    {
        self.host.lacked()
    }
}

impl Host for EvenHost {
    ghost use Rattle.host_io.specs.Memory.{clock_of, disk_of, lacked_of, might_of, printed_of, state_of};
    ghost use Rattle.host_io.specs.Reached.{counted, nothing_since, reads_image};
    ghost use Rattle.host_io.specs.Replay.{begin};

    ghost disk = { disk_of };

    ghost printed = { printed_of };

    ghost clock = { clock_of };

    ghost might = { might_of };

    ghost lacked = { lacked_of };

    ghost disk_faults = { λ host. host.disk_faults };

    ghost print_faults = { λ host. host.print_faults };

    ghost counts_now = { λ host moment left le now. counted (begin host.given) host.calls moment left now };

    ghost only_now = { λ host left might. nothing_since (begin host.given) host.calls left might };

    ghost reads_now = { λ host d is. reads_image host.given host.calls d is };

    fn len(&mut self, area: u8) -> Result<u64, Failed>
        requires { area < 2 }
        ensures value { IfOk result (λ len. ForSome (disk_of self.old) (λ d. len ≡ length (area_of d area).reads)) }
        ensures disk { disk_of self.new ≡ disk_of self.old }
        ensures printed { printed_of self.new ≡ printed_of self.old }
        ensures time { Elapses (clock_of self.old) (clock_of self.new) (might_of self.old) (might_of self.new) (Leaves (disk_of self.new) (IsShown (printed_of self.new))) }
        ensures tick { Ticks (clock_of self.old) (clock_of self.new) (IsNoCall clock_of lacked_of disk_of printed_of might_of self.old self.new) result }
        ensures cause { HasCause self.old.disk_faults self.new.disk_faults result }
        ensures other { self.new.print_faults ≡ self.old.print_faults }
        ensures went { OnOk result (self.new ≡ with_call self.old Call.Quiet) }
        ensures lack { OnErr result (self.new ≡ with_lack (disk_failed self.old)) }
    {
        self.host.len(area)
    }

    fn read(&mut self, area: u8, at: u64, buf: &mut [u8]) -> Result<usize, Failed>
        requires { area < 2 }
        ensures within { IfOk result (λ count. count ≤ length buf.new) }
        ensures value { IfOk result (λ count. ForSome (disk_of self.old) (λ d. IsCopy (area_of d area).reads at count buf.new)) }
        ensures disk { disk_of self.new ≡ disk_of self.old }
        ensures printed { printed_of self.new ≡ printed_of self.old }
        ensures time { Elapses (clock_of self.old) (clock_of self.new) (might_of self.old) (might_of self.new) (Leaves (disk_of self.new) (IsShown (printed_of self.new))) }
        ensures tick { Ticks (clock_of self.old) (clock_of self.new) (IsNoCall clock_of lacked_of disk_of printed_of might_of self.old self.new) result }
        ensures cause { HasCause self.old.disk_faults self.new.disk_faults result }
        ensures other { self.new.print_faults ≡ self.old.print_faults }
        ensures went { OnOk result (self.new ≡ with_call self.old Call.Quiet) }
        ensures lack { OnErr result (self.new ≡ with_lack (disk_failed self.old)) }
    {
        self.host.read(area, at, buf)
    }

    fn write(&mut self, area: u8, at: u64, bytes: &[u8]) -> Result<(), Failed>
        requires area { area < 2 }
        requires within { ForSome (disk_of self.old) (λ d. at ≤ length (area_of d area).reads) }
        ensures disk { TakesStep (OnArea area (Writes at bytes.now result)) (disk_of self.old) (disk_of self.new) }
        ensures printed { printed_of self.new ≡ printed_of self.old }
        ensures time { Elapses (clock_of self.old) (clock_of self.new) (might_of self.old) (might_of self.new) (Leaves (disk_of self.new) (IsShown (printed_of self.new))) }
        ensures tick { Ticks (clock_of self.old) (clock_of self.new) (IsNoCall clock_of lacked_of disk_of printed_of might_of self.old self.new) result }
        ensures cause { HasCause self.old.disk_faults self.new.disk_faults result }
        ensures other { self.new.print_faults ≡ self.old.print_faults }
        ensures went { OnOk result (self.new ≡ with_call self.old (Call.Write area at bytes.now true)) }
        ensures lack { OnErr result (self.new ≡ with_lack (disk_failed self.old)) }
    {
        self.host.write(area, at, bytes)
    }

    fn cut(&mut self, area: u8, len: u64) -> Result<(), Failed>
        requires area { area < 2 }
        requires within { ForSome (disk_of self.old) (λ d. len ≤ length (area_of d area).reads) }
        ensures disk { TakesStep (OnArea area (Cuts len result)) (disk_of self.old) (disk_of self.new) }
        ensures printed { printed_of self.new ≡ printed_of self.old }
        ensures time { Elapses (clock_of self.old) (clock_of self.new) (might_of self.old) (might_of self.new) (Leaves (disk_of self.new) (IsShown (printed_of self.new))) }
        ensures tick { Ticks (clock_of self.old) (clock_of self.new) (IsNoCall clock_of lacked_of disk_of printed_of might_of self.old self.new) result }
        ensures cause { HasCause self.old.disk_faults self.new.disk_faults result }
        ensures other { self.new.print_faults ≡ self.old.print_faults }
        ensures went { OnOk result (self.new ≡ with_call self.old (Call.Cut area len true)) }
        ensures lack { OnErr result (self.new ≡ with_lack (disk_failed self.old)) }
    {
        self.host.cut(area, len)
    }

    fn sync(&mut self) -> Result<(), Failed>
        ensures disk { TakesStep (Syncs result) (disk_of self.old) (disk_of self.new) }
        ensures printed { printed_of self.new ≡ printed_of self.old }
        ensures time { Elapses (clock_of self.old) (clock_of self.new) (might_of self.old) (might_of self.new) (Leaves (disk_of self.new) (IsShown (printed_of self.new))) }
        ensures tick { Ticks (clock_of self.old) (clock_of self.new) (IsNoCall clock_of lacked_of disk_of printed_of might_of self.old self.new) result }
        ensures cause { HasCause self.old.disk_faults self.new.disk_faults result }
        ensures other { self.new.print_faults ≡ self.old.print_faults }
        ensures went { OnOk result (self.new ≡ with_call self.old (Call.Sync true)) }
        ensures lack { OnErr result (self.new ≡ with_lack (disk_failed self.old)) }
    {
        self.host.sync()
    }

    fn print(&mut self, bytes: &[u8]) -> Result<(), Failed>
        ensures disk { disk_of self.new ≡ disk_of self.old }
        ensures printed { Prints bytes.now result (printed_of self.old) (printed_of self.new) }
        ensures fronts { OnOk result ((moment : ℕ) (left : Left) → moment ≤ clock_of self.old → Leaves (disk_of self.old) (IsShowing (printed_of self.old) bytes.now) left → might_of self.new moment left) }
        ensures time { Elapses (clock_of self.old) (clock_of self.new) (might_of self.old) (might_of self.new) (Leaves (disk_of self.old) (IsShowing (printed_of self.old) bytes.now)) }
        ensures tick { Ticks (clock_of self.old) (clock_of self.new) (IsNoCall clock_of lacked_of disk_of printed_of might_of self.old self.new) result }
        ensures cause { HasCause self.old.print_faults self.new.print_faults result }
        ensures other { self.new.disk_faults ≡ self.old.disk_faults }
        ensures went { OnOk result (self.new ≡ with_call self.old (Call.Print bytes.now true)) }
        ensures lack { OnErr result (self.new ≡ with_lack (print_failed self.old)) }
    {
        self.host.print(bytes)
    }
}
