// A host in memory, with failures on demand.
ghost use Rattle.std.specs.Prelude.{◌≡◌, ◌<◌, ◌≤◌, ◌⊎◌, ◌^◌, ◌++◌, ◌∷◌, ◌↔◌, [], ℕ, List, None, true, false, IfOk, IsErr, IsOk, IsTrue, OnErr, OnOk, length, if◌then◌else◌, ◌-◌, Some, slice_get, take};
ghost use Rattle.std.specs.Option.{ForSome};
ghost use Rattle.host_io.specs.Causes.{HasCause};
ghost use Rattle.host_io.specs.Disk.{Cuts, IsCopy, OnArea, Syncs, TakesStep, Writes, area_of, put};
ghost use Rattle.host_io.specs.Host.{Prints};
ghost use Rattle.host_io.specs.Memory.{IsNextListed, Went, bytes_of, clock_of, disk_failed, disk_of, given_of, lacked_of, might_of, print_failed, printed_of, state_of, with_bytes, with_call, with_lack};
ghost use Rattle.host_io.specs.Replay.{LeavesInside, begin, replay};
ghost use Rattle.host_io.specs.Stop.{IsStop};
ghost use Rattle.host_io.specs.Moments.{Elapses, IsNoCall, IsShowing, IsShown, Leaves, Left, Ticks};
ghost use Rattle.host_io.specs.declared.areas.Areas.{Areas};
ghost use Rattle.host_io.specs.declared.call.Call.{Call};

use crate::counts::{is_listed, raised};
use crate::stop::stop_inside;
use crate::{Areas, Bytes, Call, Calls, Failed, Host};
use std::alloc::{AllocError, Global};
use std::marker::Model;
use std::mem;

/// Two areas and what was printed, in memory. Contracts see the areas that it was given, the list of all its calls, the
/// numbers of the calls that are to fail, and the counts of failures and of calls that found no memory, each of which
/// stands still at 2 ^ 64 - 1. What the areas read as and what was printed is what these calls leave.
///
/// A listed call fails, and does nothing. A write or cut that failed counts its range as touched. A call that finds no
/// memory fails too. It is no call: it has no number, and nothing was touched.
#[derive(Debug, Drop)]
pub struct MemHost {
    alloc: Global,
    areas: Areas,
    // A copy of the areas as they were given, once they may have changed.
    given: Option<Areas>,
    printed: Bytes,
    calls: Vec<Call>,
    fails: Calls,
    disk_faults: u64,
    print_faults: u64,
    lacked: u64,
}

impl Model for MemHost {
    ghost use Rattle.host_io.specs.Memory.{HostState, Keeps, given_of};
    ghost use Rattle.host_io.specs.Replay.{begin, replay};

    ghost Value = { HostState };

    ghost view = { λ host. record {
      given = given_of host.given host.areas;
      calls = host.calls.items;
      fails = host.fails;
      disk_faults = host.disk_faults;
      print_faults = host.print_faults;
      lacked = host.lacked;
    } };

    ghost invariant = { λ host. Keeps (replay (begin (given_of host.given host.areas)) host.calls.items) host.areas host.printed };
}

impl MemHost {
    /// A host with these areas, on which nothing was printed. Each call whose number is listed fails, the first call being
    /// number 1. It takes no memory yet.
    pub fn new(alloc: Global, areas: Areas, fails: Calls) -> Self
        ensures { result ≡ record { given = areas; calls = []; fails = fails; disk_faults = 0; print_faults = 0; lacked = 0 } }
    {
        MemHost {
            alloc,
            areas,
            given: None,
            printed: Bytes::new(alloc),
            calls: Vec::new(alloc),
            fails,
            disk_faults: 0,
            print_faults: 0,
            lacked: 0,
        }
    }

    /// How many calls there were. A call that found no memory is none.
    pub fn calls(&self) -> u64
        ensures { result ≡ length self.now.calls }
    {
        self.calls.len() as u64
    }

    /// What the areas read as.
    pub fn areas(&self) -> &Areas
        ensures first { result.now.first ≡ (state_of self.now).disk.first.reads }
        ensures second { result.now.second ≡ (state_of self.now).disk.second.reads }
    {
        &self.areas
    }

    /// What was printed.
    pub fn printed(&self) -> &Bytes
        ensures { result.now ≡ (state_of self.now).printed }
    {
        &self.printed
    }

    /// How many calls found no memory.
    pub fn lacked(&self) -> u64
        ensures { result ≡ self.now.lacked }
    {
        self.lacked
    }

    /// One image of the disk for a stop inside a call, the first call being number 1, and what was printed before it. An area
    /// has the bytes of the last sync before the call that succeeded, or those that it was given, with the byte `fill` in each
    /// range that was touched since, the one that the call touches included, and past their end. It is `keep` bytes longer
    /// than at that sync, but no longer than the area has been since.
    pub fn stop(&self, call: u64, fill: u8, keep: u64) -> Result<(Areas, Bytes), AllocError>
        requires first { 1 ≤ call }
        requires last { call ≤ length self.now.calls }
        ensures stop { (c : Call) → slice_get self.now.calls (call - 1) ≡ Some c
            → IfOk result (λ left. IsStop (replay (begin self.now.given) (take (call - 1) self.now.calls)) c fill keep left.0 left.1) }

        // It is what a stop inside the call may leave.
        ensures image { (c : Call) → slice_get self.now.calls (call - 1) ≡ Some c
            → IfOk result (λ left. LeavesInside (replay (begin self.now.given) (take (call - 1) self.now.calls)) c (record { first = left.0.first; second = left.0.second; printed = left.1 })) }
    {
        let at = call as usize - 1;
        let given = match &self.given {
            Some(given) => given,
            None => &self.areas,
        };
        stop_inside(
            self.alloc,
            given,
            &self.calls[..at],
            &self.calls[at],
            fill,
            keep,
        )
    }

    // Whether the next call is listed to fail.
    fn fails_next(&self) -> bool
        ensures { IsTrue result ↔ IsNextListed self.now }
    {
        is_listed(self.fails.items(), self.calls.len() as u64)
    }

    // What an area reads as.
    fn bytes(&self, area: u8) -> &[u8]
        ensures { result.now ≡ (area_of (state_of self.now).disk area).reads }
    {
        self.areas.bytes(area)
    }
}

// Appends a call to those that are kept.
fn keep_call(calls: &mut Vec<Call>, call: Call) -> Result<(), AllocError>
    ensures ok { OnOk result (calls.new.items ≡ calls.old.items ++ call ∷ []) }
    ensures err { OnErr result (calls.new.items ≡ calls.old.items) }
    ensures few { length calls.new.items < 2 ^ 64 }
{
    let kept = calls.push(call);
    let _count = calls.len();
    kept?;
    Ok(())
}

// Keeps a copy of the areas, if there is none yet.
fn keep_given(alloc: Global, areas: &Areas, given: &mut Option<Areas>) -> Result<(), AllocError>
    ensures ok { OnOk result ((other : Areas) → given_of given.new other ≡ given_of given.old areas.now) }
    ensures err { OnErr result (given.new ≡ given.old) }
{
    if given.is_none() {
        *given = Some(areas.copy(alloc)?);
    }
    Ok(())
}

// Takes back the call that was kept last.
fn drop_last(calls: &mut Vec<Call>)
    ensures { (before : List Call) (call : Call) → calls.old.items ≡ before ++ call ∷ [] → calls.new.items ≡ before }
{
    let _ = calls.pop();
}

// Puts the bytes behind those that were printed.
fn append(alloc: Global, printed: &mut Bytes, bytes: &[u8]) -> Result<(), AllocError>
    ensures ok { OnOk result (printed.new ≡ printed.old ++ bytes.now) }
    ensures err { OnErr result (printed.new ≡ printed.old) }
{
    let mut items = mem::replace(printed, Bytes::new(alloc)).into_vec();
    let appended = items.extend_from_slice(bytes);
    *printed = Bytes::from_vec(items);
    appended
}

// Keeps a call that writes, and puts its bytes into their area if it is done. At `AllocError` nothing has changed.
fn write_kept(
    alloc: Global,
    areas: &mut Areas,
    calls: &mut Vec<Call>,
    area: u8,
    at: u64,
    bytes: &[u8],
    done: bool,
) -> Result<(), AllocError>
    requires { at ≤ length (bytes_of areas.old area) }
    ensures calls { OnOk result (calls.new.items ≡ calls.old.items ++ Call.Write area at bytes.now done ∷ []) }
    ensures areas { OnOk result (areas.new ≡ (if done then with_bytes areas.old area (put at bytes.now (bytes_of areas.old area)) else areas.old)) }
    ensures err_calls { OnErr result (calls.new.items ≡ calls.old.items) }
    ensures err_areas { OnErr result (areas.new ≡ areas.old) }
    ensures few { length calls.new.items < 2 ^ 64 }
{
    let copy = Bytes::from_slice(alloc, bytes)?;
    keep_call(
        calls,
        Call::Write {
            area,
            at,
            bytes: copy,
            done,
        },
    )?;
    if done {
        if let Err(error) = areas.put(alloc, area, at, bytes) {
            drop_last(calls);
            return Err(error);
        }
    }
    Ok(())
}

// Keeps a call that prints, and appends its bytes if it is done. At `AllocError` nothing has changed.
fn print_kept(
    alloc: Global,
    printed: &mut Bytes,
    calls: &mut Vec<Call>,
    bytes: &[u8],
    done: bool,
) -> Result<(), AllocError>
    ensures calls { OnOk result (calls.new.items ≡ calls.old.items ++ Call.Print bytes.now done ∷ []) }
    ensures printed { OnOk result (printed.new ≡ (if done then printed.old ++ bytes.now else printed.old)) }
    ensures err_calls { OnErr result (calls.new.items ≡ calls.old.items) }
    ensures err_printed { OnErr result (printed.new ≡ printed.old) }
    ensures few { length calls.new.items < 2 ^ 64 }
{
    let copy = Bytes::from_slice(alloc, bytes)?;
    keep_call(calls, Call::Print { bytes: copy, done })?;
    if done {
        if let Err(error) = append(alloc, printed, bytes) {
            drop_last(calls);
            return Err(error);
        }
    }
    Ok(())
}

impl MemHost {
    // Keeps a call that changes nothing that a read gives.
    fn keep_quiet(&mut self) -> Result<(), AllocError>
        ensures ok { OnOk result (self.new ≡ with_call self.old Call.Quiet) }
        ensures err { OnErr result (self.new ≡ self.old) }
        ensures few { length self.new.calls < 2 ^ 64 }
    {
        keep_call(&mut self.calls, Call::Quiet)
    }

    fn keep_sync(&mut self, done: bool) -> Result<(), AllocError>
        ensures ok { OnOk result (self.new ≡ with_call self.old (Call.Sync done)) }
        ensures err { OnErr result (self.new ≡ self.old) }
        ensures few { length self.new.calls < 2 ^ 64 }
    {
        keep_call(&mut self.calls, Call::Sync { done })
    }

    fn keep_write(&mut self, area: u8, at: u64, bytes: &[u8], done: bool) -> Result<(), AllocError>
        requires { at ≤ length (area_of (state_of self.old).disk area).reads }
        ensures ok { OnOk result (self.new ≡ with_call self.old (Call.Write area at bytes.now done)) }
        ensures err { OnErr result (self.new ≡ self.old) }
        ensures few { length self.new.calls < 2 ^ 64 }
    {
        let _count = self.calls.len();
        keep_given(self.alloc, &self.areas, &mut self.given)?;
        write_kept(
            self.alloc,
            &mut self.areas,
            &mut self.calls,
            area,
            at,
            bytes,
            done,
        )
    }

    fn keep_cut(&mut self, area: u8, len: u64, done: bool) -> Result<(), AllocError>
        requires { len ≤ length (area_of (state_of self.old).disk area).reads }
        ensures ok { OnOk result (self.new ≡ with_call self.old (Call.Cut area len done)) }
        ensures err { OnErr result (self.new ≡ self.old) }
        ensures few { length self.new.calls < 2 ^ 64 }
    {
        let _count = self.calls.len();
        keep_given(self.alloc, &self.areas, &mut self.given)?;
        keep_call(&mut self.calls, Call::Cut { area, len, done })?;
        if done {
            self.areas.cut(self.alloc, area, len);
        }
        Ok(())
    }

    fn keep_print(&mut self, bytes: &[u8], done: bool) -> Result<(), AllocError>
        ensures ok { OnOk result (self.new ≡ with_call self.old (Call.Print bytes.now done)) }
        ensures err { OnErr result (self.new ≡ self.old) }
        ensures few { length self.new.calls < 2 ^ 64 }
    {
        print_kept(self.alloc, &mut self.printed, &mut self.calls, bytes, done)
    }

    // How a call of the disk went, where it was kept, or found no memory.
    fn count_disk(&mut self, kept: Result<(), AllocError>, done: bool) -> Result<(), Failed>
        ensures ok { OnOk result (IsOk kept × IsTrue done × (self.new ≡ self.old)) }
        ensures err { OnErr result ((IsOk kept × (done ≡ false) × (self.new ≡ disk_failed self.old)) ⊎ (IsErr kept × (self.new ≡ with_lack (disk_failed self.old)))) }
        ensures later { self.old.disk_faults ≤ self.new.disk_faults }
    {
        if kept.is_ok() && done {
            return Ok(());
        }
        self.disk_faults = raised(self.disk_faults);
        if kept.is_err() {
            self.lacked = raised(self.lacked);
        }
        Err(Failed)
    }

    // How a print went, where it was kept, or found no memory.
    fn count_print(&mut self, kept: Result<(), AllocError>, done: bool) -> Result<(), Failed>
        ensures ok { OnOk result (IsOk kept × IsTrue done × (self.new ≡ self.old)) }
        ensures err { OnErr result ((IsOk kept × (done ≡ false) × (self.new ≡ print_failed self.old)) ⊎ (IsErr kept × (self.new ≡ with_lack (print_failed self.old)))) }
        ensures later { self.old.print_faults ≤ self.new.print_faults }
    {
        if kept.is_ok() && done {
            return Ok(());
        }
        self.print_faults = raised(self.print_faults);
        if kept.is_err() {
            self.lacked = raised(self.lacked);
        }
        Err(Failed)
    }
}

// The calls, each of which is kept and counted.
impl MemHost {
    fn go_quiet(&mut self) -> Result<(), Failed>
        ensures went { Went (λ _. Call.Quiet) disk_failed self.old self.new result }
        ensures later { self.old.disk_faults ≤ self.new.disk_faults }
        ensures few { length self.new.calls < 2 ^ 64 }
    {
        let done = !self.fails_next();
        let kept = self.keep_quiet();
        self.count_disk(kept, done)
    }

    fn go_write(&mut self, area: u8, at: u64, bytes: &[u8]) -> Result<(), Failed>
        requires { at ≤ length (area_of (state_of self.old).disk area).reads }
        ensures went { Went (Call.Write area at bytes.now) disk_failed self.old self.new result }
        ensures later { self.old.disk_faults ≤ self.new.disk_faults }
        ensures few { length self.new.calls < 2 ^ 64 }
    {
        let done = !self.fails_next();
        let kept = self.keep_write(area, at, bytes, done);
        self.count_disk(kept, done)
    }

    fn go_cut(&mut self, area: u8, len: u64) -> Result<(), Failed>
        requires { len ≤ length (area_of (state_of self.old).disk area).reads }
        ensures went { Went (Call.Cut area len) disk_failed self.old self.new result }
        ensures later { self.old.disk_faults ≤ self.new.disk_faults }
        ensures few { length self.new.calls < 2 ^ 64 }
    {
        let done = !self.fails_next();
        let kept = self.keep_cut(area, len, done);
        self.count_disk(kept, done)
    }

    fn go_sync(&mut self) -> Result<(), Failed>
        ensures went { Went Call.Sync disk_failed self.old self.new result }
        ensures later { self.old.disk_faults ≤ self.new.disk_faults }
        ensures few { length self.new.calls < 2 ^ 64 }
    {
        let done = !self.fails_next();
        let kept = self.keep_sync(done);
        self.count_disk(kept, done)
    }

    fn go_print(&mut self, bytes: &[u8]) -> Result<(), Failed>
        ensures went { Went (Call.Print bytes.now) print_failed self.old self.new result }
        ensures later { self.old.print_faults ≤ self.new.print_faults }
        ensures few { length self.new.calls < 2 ^ 64 }
    {
        let done = !self.fails_next();
        let kept = self.keep_print(bytes, done);
        self.count_print(kept, done)
    }
}

// As many bytes from a place on as are there and go into the buffer.
fn copy_from(bytes: &[u8], at: u64, buf: &mut [u8]) -> usize
    ensures within { result ≤ length buf.new }
    ensures copy { IsCopy bytes.now at result buf.new }
{
    if at >= bytes.len() as u64 {
        return 0;
    }
    let rest = &bytes[at as usize..];
    let count = rest.len().min(buf.len());
    buf[..count].copy_from_slice(&rest[..count]);
    count
}

impl Host for MemHost {
    ghost use Rattle.host_io.specs.Memory.{clock_of, disk_of, lacked_of, might_of, printed_of, state_of};
    ghost use Rattle.host_io.specs.Reached.{counted, nothing_since, reads_image};
    ghost use Rattle.host_io.specs.Replay.{begin};

    ghost disk = { disk_of };

    ghost printed = { printed_of };

    ghost clock = { clock_of };

    ghost might = { might_of };

    ghost lacked = { lacked_of };

    ghost disk_faults = { λ host. host.disk_faults };

    ghost print_faults = { λ host. host.print_faults };

    ghost counts_now = { λ host moment left le now. counted (begin host.given) host.calls moment left now };

    ghost only_now = { λ host left might. nothing_since (begin host.given) host.calls left might };

    ghost reads_now = { λ host d is. reads_image host.given host.calls d is };

    fn len(&mut self, area: u8) -> Result<u64, Failed>
        requires { area < 2 }
        ensures value { IfOk result (λ len. ForSome (disk_of self.old) (λ d. len ≡ length (area_of d area).reads)) }
        ensures disk { disk_of self.new ≡ disk_of self.old }
        ensures printed { printed_of self.new ≡ printed_of self.old }
        ensures time { Elapses (clock_of self.old) (clock_of self.new) (might_of self.old) (might_of self.new) (Leaves (disk_of self.new) (IsShown (printed_of self.new))) }
        ensures tick { Ticks (clock_of self.old) (clock_of self.new) (IsNoCall clock_of lacked_of disk_of printed_of might_of self.old self.new) result }
        ensures cause { HasCause self.old.disk_faults self.new.disk_faults result }
        ensures other { self.new.print_faults ≡ self.old.print_faults }
        ensures went { Went (λ _. Call.Quiet) disk_failed self.old self.new result }
    {
        self.go_quiet()?;
        Ok(self.bytes(area).len() as u64)
    }

    fn read(&mut self, area: u8, at: u64, buf: &mut [u8]) -> Result<usize, Failed>
        requires { area < 2 }
        ensures within { IfOk result (λ count. count ≤ length buf.new) }
        ensures value { IfOk result (λ count. ForSome (disk_of self.old) (λ d. IsCopy (area_of d area).reads at count buf.new)) }
        ensures disk { disk_of self.new ≡ disk_of self.old }
        ensures printed { printed_of self.new ≡ printed_of self.old }
        ensures time { Elapses (clock_of self.old) (clock_of self.new) (might_of self.old) (might_of self.new) (Leaves (disk_of self.new) (IsShown (printed_of self.new))) }
        ensures tick { Ticks (clock_of self.old) (clock_of self.new) (IsNoCall clock_of lacked_of disk_of printed_of might_of self.old self.new) result }
        ensures cause { HasCause self.old.disk_faults self.new.disk_faults result }
        ensures other { self.new.print_faults ≡ self.old.print_faults }
        ensures went { Went (λ _. Call.Quiet) disk_failed self.old self.new result }
    {
        self.go_quiet()?;
        Ok(copy_from(self.bytes(area), at, buf))
    }

    fn write(&mut self, area: u8, at: u64, bytes: &[u8]) -> Result<(), Failed>
        requires area { area < 2 }
        requires within { ForSome (disk_of self.old) (λ d. at ≤ length (area_of d area).reads) }
        ensures disk { TakesStep (OnArea area (Writes at bytes.now result)) (disk_of self.old) (disk_of self.new) }
        ensures printed { printed_of self.new ≡ printed_of self.old }
        ensures time { Elapses (clock_of self.old) (clock_of self.new) (might_of self.old) (might_of self.new) (Leaves (disk_of self.new) (IsShown (printed_of self.new))) }
        ensures tick { Ticks (clock_of self.old) (clock_of self.new) (IsNoCall clock_of lacked_of disk_of printed_of might_of self.old self.new) result }
        ensures cause { HasCause self.old.disk_faults self.new.disk_faults result }
        ensures other { self.new.print_faults ≡ self.old.print_faults }
        ensures went { Went (Call.Write area at bytes.now) disk_failed self.old self.new result }
    {
        self.go_write(area, at, bytes)
    }

    fn cut(&mut self, area: u8, len: u64) -> Result<(), Failed>
        requires area { area < 2 }
        requires within { ForSome (disk_of self.old) (λ d. len ≤ length (area_of d area).reads) }
        ensures disk { TakesStep (OnArea area (Cuts len result)) (disk_of self.old) (disk_of self.new) }
        ensures printed { printed_of self.new ≡ printed_of self.old }
        ensures time { Elapses (clock_of self.old) (clock_of self.new) (might_of self.old) (might_of self.new) (Leaves (disk_of self.new) (IsShown (printed_of self.new))) }
        ensures tick { Ticks (clock_of self.old) (clock_of self.new) (IsNoCall clock_of lacked_of disk_of printed_of might_of self.old self.new) result }
        ensures cause { HasCause self.old.disk_faults self.new.disk_faults result }
        ensures other { self.new.print_faults ≡ self.old.print_faults }
        ensures went { Went (Call.Cut area len) disk_failed self.old self.new result }
    {
        self.go_cut(area, len)
    }

    fn sync(&mut self) -> Result<(), Failed>
        ensures disk { TakesStep (Syncs result) (disk_of self.old) (disk_of self.new) }
        ensures printed { printed_of self.new ≡ printed_of self.old }
        ensures time { Elapses (clock_of self.old) (clock_of self.new) (might_of self.old) (might_of self.new) (Leaves (disk_of self.new) (IsShown (printed_of self.new))) }
        ensures tick { Ticks (clock_of self.old) (clock_of self.new) (IsNoCall clock_of lacked_of disk_of printed_of might_of self.old self.new) result }
        ensures cause { HasCause self.old.disk_faults self.new.disk_faults result }
        ensures other { self.new.print_faults ≡ self.old.print_faults }
        ensures went { Went Call.Sync disk_failed self.old self.new result }
    {
        self.go_sync()
    }

    fn print(&mut self, bytes: &[u8]) -> Result<(), Failed>
        ensures disk { disk_of self.new ≡ disk_of self.old }
        ensures printed { Prints bytes.now result (printed_of self.old) (printed_of self.new) }
        ensures fronts { OnOk result ((moment : ℕ) (left : Left) → moment ≤ clock_of self.old → Leaves (disk_of self.old) (IsShowing (printed_of self.old) bytes.now) left → might_of self.new moment left) }
        ensures time { Elapses (clock_of self.old) (clock_of self.new) (might_of self.old) (might_of self.new) (Leaves (disk_of self.old) (IsShowing (printed_of self.old) bytes.now)) }
        ensures tick { Ticks (clock_of self.old) (clock_of self.new) (IsNoCall clock_of lacked_of disk_of printed_of might_of self.old self.new) result }
        ensures cause { HasCause self.old.print_faults self.new.print_faults result }
        ensures other { self.new.disk_faults ≡ self.old.disk_faults }
        ensures went { Went (Call.Print bytes.now) print_failed self.old self.new result }
    {
        self.go_print(bytes)
    }
}
