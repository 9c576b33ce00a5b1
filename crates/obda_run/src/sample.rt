//! The sample script, run over a host of its own.
ghost use Rattle.std.specs.Prelude.{◌≡◌, ◌≢◌, ◌≤◌, ◌<◌, IfOk, string_bytes};
ghost use Rattle.host_io.specs.Causes.{Rose};
ghost use Rattle.obda_run.specs.Sample.{IsSampleTally, SampleEnds, sample_line};
ghost use Rattle.obda_run.specs.declared.status.Status.TheVariants.{Done, PrintFault};

use crate::status::Status;
use base_engine::EndFault;
use horn_closure::Steps;
use host_io::{EvenHost, Failed, Host};
use kept_base::Base;
use sample_gen::sample;
use script_tally::{Tally, tally};
use std::alloc::{AllocError, Global};
use std::sync::ledger::{Blank, Ledger};

/// Runs the sample script of this size over a host of its own, and prints the line of its tally.
pub(crate) fn run_sample<H: Host, L: Ledger>(
    alloc: Global,
    size: u32,
    host: &mut H,
    blank: Blank,
) -> Status
    requires name { blank.name ≡ L.name }
    requires parts { blank.parts ≡ L.parts }
    requires some { 0 < L.parts }
    requires least { 1 ≤ size }
    requires most { size ≤ 2000 }
    ensures sample { SampleEnds result size (H.printed host.old) (H.printed host.new) }
    ensures silent { result ≢ Status.Done → result ≢ Status.PrintFault → host.new ≡ host.old }
    ensures disk { H.disk host.new ≡ H.disk host.old }
    ensures disk_still { H.disk_faults host.new ≡ H.disk_faults host.old }
    ensures print_fault { result ≡ Status.PrintFault → Rose (H.print_faults host.old) (H.print_faults host.new) }
    ensures print_fault_ends { H.print_faults host.old < H.print_faults host.new → result ≡ Status.PrintFault }
    ensures print_later { H.print_faults host.old ≤ H.print_faults host.new }
{
    let Ok(tally) = tally_sample::<L>(alloc, size, blank) else {
        return Status::NoMemory;
    };
    let Ok(line) = line_of(alloc, size, tally) else {
        return Status::NoMemory;
    };
    match host.print(line.as_bytes()) {
        Ok(()) => Status::Done,
        Err(Failed) => Status::PrintFault,
    }
}

/// The tally of the sample script of this size, over a host of its own. That host fails only where it finds no memory.
fn tally_sample<L: Ledger>(alloc: Global, size: u32, blank: Blank) -> Result<Tally, AllocError>
    requires name { blank.name ≡ L.name }
    requires parts { blank.parts ≡ L.parts }
    requires some { 0 < L.parts }
    requires least { 1 ≤ size }
    requires most { size ≤ 2000 }
    ensures { IfOk result (IsSampleTally size) }
{
    let script = sample(alloc, size)?;
    let mut host = EvenHost::new(alloc);
    let mut steps: Steps<L> = Steps::new(blank);
    match tally::<Base, EvenHost, L>(alloc, script.items(), &mut host, &mut steps) {
        Ok(tally) => Ok(tally),
        Err(EndFault::NoMemory) | Err(EndFault::DiskFault) => Err(AllocError),
        Err(EndFault::Damaged { .. }) => unreachable!(),
    }
}

/// The line of a sample's tally.
fn line_of(alloc: Global, size: u32, tally: Tally) -> Result<String, AllocError>
    ensures { IfOk result (λ line. string_bytes line ≡ sample_line size tally) }
{
    format!(in alloc;
        "sample {size} replies {} answers {} bytes {}\n",
        tally.replies, tally.answers, tally.bytes
    )
}
