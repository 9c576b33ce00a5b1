// A fresh area gets its header.
ghost use Rattle.std.specs.Prelude.{◌≡◌, ◌≢◌, ◌≤◌, ℕ, None, Some, slice_index, length, OnOk};
ghost use Rattle.std.specs.Option.{ForSome};
ghost use Rattle.host_io.specs.Causes.{HasCause};
ghost use Rattle.host_io.specs.Disk.{Disk, IsSettled, at_rest};
ghost use Rattle.host_io.specs.Moments.{LeavesOnly};
ghost use Rattle.gated_log.specs.Entries.{Bounds};
ghost use Rattle.gated_log.specs.Opening.{initialised};
ghost use Rattle.gated_log.specs.Stops.{AtFirst, HoldsNothing};

use crate::front::closed_header;
use crate::writing::settle_write;
use host_io::{Failed, Host};

/// Initialises an area whose header gate is there and closed: the header and a closed gate, then the header gate is opened.
pub(crate) fn initialise_shut<H: Host>(host: &mut H) -> Result<(), Failed>
    requires settled { ForSome (H.disk host.old) (λ d. IsSettled d × (1 ≤ length d.first.reads) × (slice_index d.first.reads 0 ≢ 1)) }

    ensures ok { OnOk result (ForSome (H.disk host.old) (λ d. H.disk host.new ≡ Some (record { first = at_rest (initialised d.first.reads); second = d.second }))) }
    ensures moments { (b : Bounds) → ForSome (H.disk host.old) (λ d. LeavesOnly H.clock H.might host.old host.new (AtFirst d (H.printed host.old) (HoldsNothing b))) }
    ensures told { ForSome (H.disk host.old) (λ d. (e : Disk) × (H.disk host.new ≡ Some e)) }
    ensures untold { H.disk host.old ≡ None → H.disk host.new ≡ None }
    ensures printed { H.printed host.new ≡ H.printed host.old }
    ensures cause { HasCause (H.disk_faults host.old) (H.disk_faults host.new) result }
    ensures other { H.print_faults host.new ≡ H.print_faults host.old }
{
    settle_write(host, 1, &closed_header())?;
    settle_write(host, 0, &[1])
}

/// Initialises an area of one byte at most, of which a closed header gate is made first.
pub(crate) fn initialise_short<H: Host>(host: &mut H) -> Result<(), Failed>
    requires settled { ForSome (H.disk host.old) (λ d. IsSettled d × (length d.first.reads ≤ 1)) }

    ensures ok { OnOk result (ForSome (H.disk host.old) (λ d. H.disk host.new ≡ Some (record { first = at_rest (initialised d.first.reads); second = d.second }))) }
    ensures moments { (b : Bounds) → ForSome (H.disk host.old) (λ d. LeavesOnly H.clock H.might host.old host.new (AtFirst d (H.printed host.old) (HoldsNothing b))) }
    ensures told { ForSome (H.disk host.old) (λ d. (e : Disk) × (H.disk host.new ≡ Some e)) }
    ensures untold { H.disk host.old ≡ None → H.disk host.new ≡ None }
    ensures printed { H.printed host.new ≡ H.printed host.old }
    ensures cause { HasCause (H.disk_faults host.old) (H.disk_faults host.new) result }
    ensures other { H.print_faults host.new ≡ H.print_faults host.old }
{
    settle_write(host, 0, &[0])?;
    initialise_shut(host)
}
