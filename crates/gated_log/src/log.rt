// A log that takes entries.
ghost use Rattle.std.specs.Prelude.{◌≡◌, ◌≤◌, ◌<◌, ◌+◌, ◌⊎◌, ◌↔◌, ℕ, None, Some, length, IfErr, IfOk, IsErrAnd};
ghost use Rattle.std.specs.Option.{ForSome};
ghost use Rattle.host_io.specs.Causes.{HasCause, Rose};
ghost use Rattle.host_io.specs.Disk.{Disk, IsSettled};
ghost use Rattle.host_io.specs.Moments.{LeavesOnly};
ghost use Rattle.gated_log.specs.Entries.{within};
ghost use Rattle.gated_log.specs.Fault.{FullSays, IsFull};
ghost use Rattle.gated_log.specs.State.{Appended, BeforeOrAfter, IsClosedAt, LogState};
ghost use Rattle.gated_log.specs.Stops.{AtFirst};

use crate::writing::{settle_write, write_entry};
use host_io::{Failed, Host};
use std::marker::Model;

/// A log, ready for its next entry. Contracts see the place of its closed gate and its limit.
#[derive(Debug, Drop)]
pub struct Log {
    end: u64,
    limit: u64,
}

impl Model for Log {
    ghost use Rattle.gated_log.specs.State.{LogState};

    ghost Value = { LogState };

    ghost view = { λ log. record { end = log.end; limit = log.limit } };
}

/// Why an entry is not added.
#[derive(Debug, Drop)]
pub enum AppendFault {
    /// The disk failed. The log is given up; the area stands for the entries from before, or these and the new one.
    DiskFault,
    /// The gate behind the entry would stand past the limit. Nothing was touched; `end` is the place of the log's closed
    /// gate and `size` the bytes from there to the next one.
    Full { log: Log, end: u64, size: u64 },
}

impl From<Failed> for AppendFault {
    ghost use Rattle.gated_log.specs.declared.log.AppendFault.TheVariants.{DiskFault};

    ghost from_gives = { λ _ e. e ≡ DiskFault };

    fn from(_: Failed) -> Self {
        AppendFault::DiskFault
    }
}

/// Writes an entry behind the closed gate at `end`, and opens that gate.
fn add_entry<H: Host>(
    host: &mut H,
    end: u64,
    limit: u64,
    kind: u8,
    payload: &[u8],
) -> Result<(), Failed>
    requires least_kind { 1 ≤ kind }
    requires greatest_kind { kind ≤ 2 }
    requires size { length payload.now ≤ 8388608 }
    requires room { end + 6 + length payload.now ≤ limit }
    requires ready { ForSome (H.disk host.old) (λ d. IsSettled d × IsClosedAt (within limit) end d.first.reads) }

    ensures ok { IfOk result (λ _. ForSome (H.disk host.old) (λ d. (e : Disk) × (H.disk host.new ≡ Some e) × IsSettled e × (e.second ≡ d.second)
        × Appended (within limit) end (record { kind = kind; payload = payload.now }) d.first.reads e.first.reads)) }
    ensures moments { ForSome (H.disk host.old) (λ d. LeavesOnly H.clock H.might host.old host.new
        (AtFirst d (H.printed host.old) (BeforeOrAfter (within limit) end (record { kind = kind; payload = payload.now }) d.first.reads))) }
    ensures reads { ForSome (H.disk host.old) (λ d. (e : Disk) × (H.disk host.new ≡ Some e) × (e.second.reads ≡ d.second.reads)
        × BeforeOrAfter (within limit) end (record { kind = kind; payload = payload.now }) d.first.reads e.first.reads) }
    ensures untold { H.disk host.old ≡ None → H.disk host.new ≡ None }
    ensures printed { H.printed host.new ≡ H.printed host.old }
    ensures cause { HasCause (H.disk_faults host.old) (H.disk_faults host.new) result }
    ensures other { H.print_faults host.new ≡ H.print_faults host.old }
{
    write_entry(host, end, kind, payload)?;
    settle_write(host, end, &[1])
}

impl Log {
    /// A log whose closed gate stands at this place.
    pub(crate) fn at(end: u64, limit: u64) -> Log
        ensures { result ≡ record { end = end; limit = limit } }
    {
        Log { end, limit }
    }

    /// The place of the closed gate.
    pub fn end(&self) -> u64
        ensures { result ≡ self.now.end }
    {
        self.end
    }

    /// Adds an entry, of kind 1 for an ontology or 2 for a transaction. `Full` comes exactly where the gate behind the
    /// entry would stand past the limit. At each moment of the call a stop leaves the entries from before, or these and
    /// the new one; at `Ok` it leaves the latter.
    pub fn append<H: Host>(self, host: &mut H, kind: u8, payload: &[u8]) -> Result<Log, AppendFault>
        requires least_kind { 1 ≤ kind }
        requires greatest_kind { kind ≤ 2 }
        requires size { length payload.now ≤ 8388608 }
        requires ready { ForSome (H.disk host.old) (λ d. IsSettled d × IsClosedAt (within self.limit) self.end d.first.reads) }

        ensures log { IfOk result (λ log. (log.limit ≡ self.limit) × (log.end ≡ self.end + 6 + length payload.now)) }

        // What a read gives is the only image, and stands for the entries and the new one.
        ensures ok { IfOk result (λ _. ForSome (H.disk host.old) (λ d. (e : Disk) × (H.disk host.new ≡ Some e) × IsSettled e × (e.second ≡ d.second)
            × Appended (within self.limit) self.end (record { kind = kind; payload = payload.now }) d.first.reads e.first.reads)) }
        ensures moments { ForSome (H.disk host.old) (λ d. LeavesOnly H.clock H.might host.old host.new
            (AtFirst d (H.printed host.old) (BeforeOrAfter (within self.limit) self.end (record { kind = kind; payload = payload.now }) d.first.reads))) }

        // Whatever is answered, the area stands for the entries from before, or these and the new one.
        ensures reads { ForSome (H.disk host.old) (λ d. (e : Disk) × (H.disk host.new ≡ Some e) × (e.second.reads ≡ d.second.reads)
            × BeforeOrAfter (within self.limit) self.end (record { kind = kind; payload = payload.now }) d.first.reads e.first.reads) }
        ensures full { IsErrAnd result (λ e. IsFull e) ↔ (self.limit < self.end + 6 + length payload.now) }
        ensures full_says { IfErr result (FullSays self (6 + length payload.now)) }
        ensures full_unchanged { IsErrAnd result (λ e. IsFull e) → host.new ≡ host.old }
        ensures untold { H.disk host.old ≡ None → H.disk host.new ≡ None }
        ensures printed { H.printed host.new ≡ H.printed host.old }
        ensures cause { IsErrAnd result (λ e. e ≡ AppendFault.DiskFault) → Rose (H.disk_faults host.old) (H.disk_faults host.new) }
        ensures stays { IsErrAnd result (λ e. e ≡ AppendFault.DiskFault) ⊎ (H.disk_faults host.new ≡ H.disk_faults host.old) }
        ensures later { H.disk_faults host.old ≤ H.disk_faults host.new }
        ensures other { H.print_faults host.new ≡ H.print_faults host.old }
    {
        let size = 6 + payload.len() as u64;
        match self.end.checked_add(size) {
            Some(end) if end <= self.limit => {
                add_entry(host, self.end, self.limit, kind, payload)?;
                Ok(Log {
                    end,
                    limit: self.limit,
                })
            }
            _ => {
                let end = self.end;
                Err(AppendFault::Full {
                    log: self,
                    end,
                    size,
                })
            }
        }
    }
}
