// A reader of the entries of a log.
ghost use Rattle.std.specs.Prelude.{◌≡◌, ◌≤◌, ◌<◌, ◌+◌, ◌⊎◌, [], ◌∷◌, ◌++◌, ℕ, List, None, Some, true, false, IfErr, IfOk, IsErrAnd, drop, length};
ghost use Rattle.std.specs.Option.{ForSome};
ghost use Rattle.host_io.specs.Causes.{HasCause, Rose};
ghost use Rattle.host_io.specs.Disk.{Disk, IsCopy, IsSettled, settled};
ghost use Rattle.host_io.specs.Moments.{LeavesOnly};
ghost use Rattle.gated_log.specs.Entries.{Bounds, IsFresh, OffendsAtTop, OffendsBehind, within};
ghost use Rattle.gated_log.specs.Fault.{FaultSays};
ghost use Rattle.gated_log.specs.Front.{HasPayload};
ghost use Rattle.gated_log.specs.Opening.{Opens};
ghost use Rattle.gated_log.specs.Reading.{AnswersNext, HasRead, Moves};
ghost use Rattle.gated_log.specs.State.{IsBegun, IsClosedAt, LogReaderState};
ghost use Rattle.gated_log.specs.Stops.{AtFirst, AtOpening, IsOpening, LeavesImages, LeavesThen, WhileOpened};

use crate::Log;
use crate::front::{AtGate, Front, at_gate, front_of};
use crate::initial::{initialise_short, initialise_shut};
use area_layout::EntryHead;
use host_io::{Failed, Host};
use std::marker::Model;

/// Why a log isn't read.
#[derive(Clone, Copy, Debug, PartialEq, Eq)]
pub enum LogFault {
    /// The disk failed. The area is loaded again.
    DiskFault,
    /// The area offends at this place, counted from 0.
    Damaged { area: u8, at: u64 },
}

impl From<Failed> for LogFault {
    ghost use Rattle.gated_log.specs.declared.reader.LogFault.TheVariants.{DiskFault};

    ghost from_gives = { λ _ e. e ≡ DiskFault };

    fn from(_: Failed) -> Self {
        LogFault::DiskFault
    }
}

/// What stands behind the entries that were read.
#[derive(Clone, Copy, Debug, PartialEq, Eq)]
pub enum Next {
    /// An entry, whose payload of so many bytes is in the front of the buffer.
    Entry { kind: u8, len: u32 },
    /// The closed gate, which ends the entries.
    Finished,
}

/// Reads the entries of a log in order. Contracts see the places of the gate that it reads next and of the last entry's
/// gate, the limit, and whether it answered that the entries end.
#[derive(Debug, Drop)]
pub struct Reader {
    gate: u64,
    last: u64,
    limit: u64,
    finished: bool,
}

impl Model for Reader {
    ghost use Rattle.gated_log.specs.State.{LogReaderState};

    ghost Value = { LogReaderState };

    ghost view = { λ r. record { gate = r.gate; last = r.last; limit = r.limit; finished = r.finished } };
}

/// Opens the first area, all of which is on the disk: a fresh one is initialised, and another one has to have the header.
fn open_settled<H: Host>(host: &mut H) -> Result<(), LogFault>
    requires settled { ForSome (H.disk host.old) (λ d. IsSettled d) }

    ensures ok { (b : Bounds) → IfOk result (λ _. ForSome (H.disk host.old) (λ d. (e : Disk) × (H.disk host.new ≡ Some e) × IsSettled e × (e.second ≡ d.second) × Opens b d.first.reads e.first.reads)) }
    ensures damaged { IfErr result (λ f. ForSome (H.disk host.old) (λ d. FaultSays (OffendsAtTop d.first.reads) f)) }
    ensures damaged_place { IfErr result (FaultSays (λ at. at ≡ 0)) }
    ensures moments { (b : Bounds) → ForSome (H.disk host.old) (λ d. LeavesOnly H.clock H.might host.old host.new
        (AtFirst d (H.printed host.old) (IsOpening b d.first.reads))) }
    ensures unwritten { ForSome (H.disk host.old) (λ d. (IsFresh d.first.reads → ⊥) → H.disk host.new ≡ H.disk host.old) }
    ensures told { ForSome (H.disk host.old) (λ d. (e : Disk) × (H.disk host.new ≡ Some e)) }
    ensures untold { H.disk host.old ≡ None → H.disk host.new ≡ None }
    ensures printed { H.printed host.new ≡ H.printed host.old }
    ensures cause { IsErrAnd result (λ f. f ≡ LogFault.DiskFault) → Rose (H.disk_faults host.old) (H.disk_faults host.new) }
    ensures stays { IsErrAnd result (λ f. f ≡ LogFault.DiskFault) ⊎ (H.disk_faults host.new ≡ H.disk_faults host.old) }
    ensures later { H.disk_faults host.old ≤ H.disk_faults host.new }
    ensures other { H.print_faults host.new ≡ H.print_faults host.old }
{
    let mut front = [0; 17];
    let count = read_first(host, 0, &mut front)?;
    match front_of(&front[..count]) {
        Front::Short => initialise_short(host)?,
        Front::Shut => initialise_shut(host)?,
        Front::Whole => {}
        Front::Wrong => return Err(LogFault::Damaged { area: 0, at: 0 }),
    }
    Ok(())
}

/// Reads the first area from a place on into the buffer, and answers how many bytes.
fn read_first<H: Host>(host: &mut H, at: u64, buf: &mut [u8]) -> Result<usize, Failed>
    requires settled { ForSome (H.disk host.old) (λ d. IsSettled d) }

    ensures within { IfOk result (λ count. count ≤ length buf.new) }
    ensures value { IfOk result (λ count. ForSome (H.disk host.old) (λ d. IsCopy d.first.reads at count buf.new)) }
    ensures moments { ForSome (H.disk host.old) (λ d. LeavesOnly H.clock H.might host.old host.new (AtFirst d (H.printed host.old) (λ c. c ≡ d.first.reads))) }
    ensures disk { H.disk host.new ≡ H.disk host.old }
    ensures printed { H.printed host.new ≡ H.printed host.old }
    ensures cause { HasCause (H.disk_faults host.old) (H.disk_faults host.new) result }
    ensures other { H.print_faults host.new ≡ H.print_faults host.old }
{
    host.read(0, at, buf)
}

/// Reads a payload of so many bytes into the front of the buffer, and answers whether they are all there.
fn read_payload<H: Host>(host: &mut H, at: u64, len: u32, buf: &mut [u8]) -> Result<bool, Failed>
    requires room { len ≤ length buf.old }
    requires settled { ForSome (H.disk host.old) (λ d. IsSettled d) }

    ensures value { IfOk result (λ all. ForSome (H.disk host.old) (λ d. HasPayload (drop at d.first.reads) len buf.new all)) }
    ensures moments { ForSome (H.disk host.old) (λ d. LeavesOnly H.clock H.might host.old host.new (AtFirst d (H.printed host.old) (λ c. c ≡ d.first.reads))) }
    ensures disk { H.disk host.new ≡ H.disk host.old }
    ensures printed { H.printed host.new ≡ H.printed host.old }
    ensures cause { HasCause (H.disk_faults host.old) (H.disk_faults host.new) result }
    ensures other { H.print_faults host.new ≡ H.print_faults host.old }
{
    let count = read_first(host, at, &mut buf[..len as usize])?;
    Ok(count == len as usize)
}

/// Reads the entry at a gate, its payload into the front of the buffer, or `None` where the gate is closed.
fn read_entry<H: Host>(
    host: &mut H,
    gate: u64,
    limit: u64,
    buf: &mut [u8],
) -> Result<Option<EntryHead>, LogFault>
    requires room { 8388608 ≤ length buf.old }
    requires ready { ForSome (H.disk host.old) (λ d. IsSettled d × IsBegun (within limit) gate d.first.reads) }

    ensures ok { IfOk result (λ head. ForSome (H.disk host.old) (λ d. HasRead (within limit) gate d.first.reads buf.new head)) }
    ensures bounds { IfOk result (λ head. ForSome head (λ h. (1 ≤ h.kind) × (h.kind ≤ 2) × (h.len ≤ 8388608) × (gate + 6 + h.len ≤ limit))) }
    ensures damaged { IfErr result (λ f. ForSome (H.disk host.old) (λ d. FaultSays (OffendsBehind (within limit) d.first.reads) f)) }
    ensures damaged_place { IfErr result (FaultSays (λ at. at ≡ gate)) }
    ensures moments { ForSome (H.disk host.old) (λ d. LeavesOnly H.clock H.might host.old host.new (AtFirst d (H.printed host.old) (λ c. c ≡ d.first.reads))) }
    ensures disk { H.disk host.new ≡ H.disk host.old }
    ensures printed { H.printed host.new ≡ H.printed host.old }
    ensures cause { IsErrAnd result (λ f. f ≡ LogFault.DiskFault) → Rose (H.disk_faults host.old) (H.disk_faults host.new) }
    ensures stays { IsErrAnd result (λ f. f ≡ LogFault.DiskFault) ⊎ (H.disk_faults host.new ≡ H.disk_faults host.old) }
    ensures later { H.disk_faults host.old ≤ H.disk_faults host.new }
    ensures other { H.print_faults host.new ≡ H.print_faults host.old }
{
    let mut front = [0; 6];
    let count = read_first(host, gate, &mut front)?;
    match at_gate(&front[..count], gate, limit) {
        AtGate::Closed => Ok(None),
        AtGate::Broken => Err(LogFault::Damaged { area: 0, at: gate }),
        AtGate::Open(head) => {
            if read_payload(host, gate + 6, head.len, buf)? {
                Ok(Some(head))
            } else {
                Err(LogFault::Damaged { area: 0, at: gate })
            }
        }
    }
}

impl Reader {
    /// Puts both areas on the disk, reads the header of area 0 and initialises a fresh one. `Damaged` comes exactly where
    /// the header is wrong or not whole, at 0.
    pub fn load<H: Host>(host: &mut H, limit: u64) -> Result<Reader, LogFault>
        ensures reader { IfOk result (λ r. r ≡ record { gate = 17; last = 17; limit = limit; finished = false }) }

        // What a read gives is the only image. The first area has a header: a fresh one got it, another one is as it was.
        ensures ok { IfOk result (λ _. ForSome (H.disk host.old) (λ d. (e : Disk) × (H.disk host.new ≡ Some e) × IsSettled e
            × (e.second.reads ≡ d.second.reads) × Opens (within limit) d.first.reads e.first.reads)) }
        ensures damaged { IfErr result (λ f. ForSome (H.disk host.old) (λ d. FaultSays (OffendsAtTop d.first.reads) f)) }
        ensures damaged_place { IfErr result (FaultSays (λ at. at ≡ 0)) }
        ensures moments { ForSome (H.disk host.old) (λ d. LeavesOnly H.clock H.might host.old host.new (AtOpening (within limit) d (H.printed host.old))) }

        // Until the sync a stop leaves an image of each area, and from then on what opening the first one leaves.
        ensures opening { ForSome (H.disk host.old) (λ d. LeavesThen H.clock H.might (LeavesImages d (H.printed host.old)) (WhileOpened (within limit) d (H.printed host.old)) result host.old host.new) }

        // Whatever is answered, the second area reads as it did, and so does the first one, unless it was fresh.
        ensures reads { ForSome (H.disk host.old) (λ d. (e : Disk) × (H.disk host.new ≡ Some e) × (e.second.reads ≡ d.second.reads)
            × IsOpening (within limit) d.first.reads e.first.reads) }

        // Nothing is written into an area that isn't fresh, whatever is answered.
        ensures unwritten { ForSome (H.disk host.old) (λ d. (IsFresh d.first.reads → ⊥) → (H.disk host.new ≡ Some d) ⊎ (H.disk host.new ≡ Some (settled d))) }
        ensures untold { H.disk host.old ≡ None → H.disk host.new ≡ None }
        ensures printed { H.printed host.new ≡ H.printed host.old }
        ensures cause { IsErrAnd result (λ f. f ≡ LogFault.DiskFault) → Rose (H.disk_faults host.old) (H.disk_faults host.new) }
        ensures stays { IsErrAnd result (λ f. f ≡ LogFault.DiskFault) ⊎ (H.disk_faults host.new ≡ H.disk_faults host.old) }
        ensures later { H.disk_faults host.old ≤ H.disk_faults host.new }
        ensures other { H.print_faults host.new ≡ H.print_faults host.old }
    {
        host.sync()?;
        open_settled(host)?;
        Ok(Reader {
            gate: 17,
            last: 17,
            limit,
            finished: false,
        })
    }

    /// Reads the next entry, its payload into the front of the buffer. `Finished` comes exactly where the gate is closed,
    /// and `Damaged` exactly where the area offends at that gate.
    pub fn next<H: Host>(&mut self, host: &mut H, buf: &mut [u8]) -> Result<Next, LogFault>
        requires room { 8388608 ≤ length buf.old }
        requires ready { ForSome (H.disk host.old) (λ d. IsSettled d × IsBegun (within self.old.limit) self.old.gate d.first.reads) }

        ensures moves { Moves self.old result self.new }
        ensures ok { IfOk result (λ next. ForSome (H.disk host.old) (λ d. AnswersNext self.old d.first.reads buf.new next)) }
        ensures damaged { IfErr result (λ f. ForSome (H.disk host.old) (λ d. FaultSays (OffendsBehind (within self.old.limit) d.first.reads) f)) }
        ensures damaged_place { IfErr result (FaultSays (λ at. at ≡ self.old.gate)) }
        ensures moments { ForSome (H.disk host.old) (λ d. LeavesOnly H.clock H.might host.old host.new (AtFirst d (H.printed host.old) (λ c. c ≡ d.first.reads))) }
        ensures disk { H.disk host.new ≡ H.disk host.old }
        ensures printed { H.printed host.new ≡ H.printed host.old }
        ensures cause { IsErrAnd result (λ f. f ≡ LogFault.DiskFault) → Rose (H.disk_faults host.old) (H.disk_faults host.new) }
        ensures stays { IsErrAnd result (λ f. f ≡ LogFault.DiskFault) ⊎ (H.disk_faults host.new ≡ H.disk_faults host.old) }
        ensures later { H.disk_faults host.old ≤ H.disk_faults host.new }
        ensures other { H.print_faults host.new ≡ H.print_faults host.old }
    {
        match read_entry(host, self.gate, self.limit, buf)? {
            Some(head) => {
                self.last = self.gate;
                self.gate += 6 + u64::from(head.len);
                Ok(Next::Entry {
                    kind: head.kind,
                    len: head.len,
                })
            }
            None => {
                self.finished = true;
                Ok(Next::Finished)
            }
        }
    }

    /// The place of the last entry's gate, and 17 before the first.
    pub fn at(&self) -> u64
        ensures { result ≡ self.now.last }
    {
        self.last
    }

    /// The log, once the end of its entries was answered.
    pub fn into_log(self) -> Log
        requires finished { self.finished ≡ true }
        ensures { result ≡ record { end = self.gate; limit = self.limit } }
    {
        Log::at(self.gate, self.limit)
    }
}
