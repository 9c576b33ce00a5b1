// What is written into the first area, and put on the disk.
ghost use Rattle.std.specs.Prelude.{◌≡◌, ◌<◌, ◌≤◌, ◌+◌, ◌^◌, ◌++◌, [], ◌∷◌, List, ℕ, None, Some, length, take, OnOk};
ghost use Rattle.std.specs.Option.{ForSome};
ghost use Rattle.host_io.specs.Causes.{HasCause};
ghost use Rattle.host_io.specs.Disk.{Disk, IsSettled, IsTorn, at_rest, put};
ghost use Rattle.host_io.specs.Moments.{LeavesOnly};
ghost use Rattle.gated_log.specs.Entries.{body};
ghost use Rattle.gated_log.specs.Stops.{AtFirst};

use area_layout::{EntryHead, write_head};
use host_io::{Failed, Host};

/// Writes an entry behind the closed gate at `end`, with a closed gate behind it, all of it on the disk at `Ok`.
pub(crate) fn write_entry<H: Host>(
    host: &mut H,
    end: u64,
    kind: u8,
    payload: &[u8],
) -> Result<(), Failed>
    requires kinds { 1 ≤ kind }
    requires kind_within { kind ≤ 4 }
    requires size { length payload.now ≤ 8388608 }
    requires fits { end + 6 + length payload.now < 2 ^ 64 }
    requires settled { ForSome (H.disk host.old) (λ d. IsSettled d × (end < length d.first.reads)) }

    ensures ok { OnOk result (ForSome (H.disk host.old) (λ d. H.disk host.new ≡ Some (record {
      first = at_rest (put (end + 1) (body (record { kind = kind; payload = payload.now }) ++ 0 ∷ []) d.first.reads);
      second = d.second;
    }))) }
    ensures moments { ForSome (H.disk host.old) (λ d. LeavesOnly H.clock H.might host.old host.new
        (AtFirst d (H.printed host.old) (λ c. take (end + 1) c ≡ take (end + 1) d.first.reads))) }
    ensures told { ForSome (H.disk host.old) (λ d. (e : Disk) × (H.disk host.new ≡ Some e)) }
    ensures untold { H.disk host.old ≡ None → H.disk host.new ≡ None }
    ensures printed { H.printed host.new ≡ H.printed host.old }
    ensures cause { HasCause (H.disk_faults host.old) (H.disk_faults host.new) result }
    ensures other { H.print_faults host.new ≡ H.print_faults host.old }
{
    let head = write_head(&EntryHead {
        kind,
        len: payload.len() as u32,
    });
    host.write(0, end + 1, &head)?;
    host.write(0, end + 6, payload)?;
    host.write(0, end + 6 + payload.len() as u64, &[0])?;
    host.sync()
}

/// Writes bytes at a place, all of them on the disk at `Ok`.
pub(crate) fn settle_write<H: Host>(host: &mut H, at: u64, bytes: &[u8]) -> Result<(), Failed>
    requires settled { ForSome (H.disk host.old) (λ d. IsSettled d × (at ≤ length d.first.reads)) }

    ensures ok { OnOk result (ForSome (H.disk host.old) (λ d. H.disk host.new ≡ Some (record {
      first = at_rest (put at bytes.now d.first.reads);
      second = d.second;
    }))) }
    ensures moments { ForSome (H.disk host.old) (λ d. LeavesOnly H.clock H.might host.old host.new
        (AtFirst d (H.printed host.old) (IsTorn at (length bytes.now) d.first.reads))) }
    ensures told { ForSome (H.disk host.old) (λ d. (e : Disk) × (H.disk host.new ≡ Some e)) }
    ensures untold { H.disk host.old ≡ None → H.disk host.new ≡ None }
    ensures printed { H.printed host.new ≡ H.printed host.old }
    ensures cause { HasCause (H.disk_faults host.old) (H.disk_faults host.new) result }
    ensures other { H.print_faults host.new ≡ H.print_faults host.old }
{
    host.write(0, at, bytes)?;
    host.sync()
}
