// Scripts over an engine that keeps nothing, and a host that tells nothing.
ghost use Rattle.std.specs.Prelude.{◌≡◌, ◌<◌, ◌≤◌};
ghost use Rattle.host_io.specs.Causes.{raised};

use super::*;
use crate::running::run_loaded;
use base_engine::{CommitFault, EndFault, Engine};
use horn_closure::Steps;
use host_io::{Bytes, Calls, Failed, Host, MemSource};
use reply_text::{Refusal, Reply};
use script_reader::{Command, Request};
use std::alloc::Global;
use std::marker::{Brand, Model};
use std::process::Abort;
use std::sync::ledger::{Blank, Ledger};
use std::test::Fail;

/// It keeps what is printed, and each call of the disk fails.
#[derive(Drop)]
struct Screen {
    shown: Vec<u8>,
    calls: u64,
    disk_faults: u64,
    print_faults: u64,
}

impl Model for Screen {
    ghost use Rattle.host_io.specs.Memory.{HostCounts};

    ghost Value = { HostCounts };

    ghost view = { λ host. record { calls = host.calls; disk_faults = host.disk_faults; print_faults = host.print_faults } };
}

impl Screen {
    fn new(alloc: Global) -> Screen {
        Screen {
            shown: Vec::new(alloc),
            calls: 0,
            disk_faults: 0,
            print_faults: 0,
        }
    }

    fn shown(&self) -> &[u8] {
        self.shown.as_slice()
    }

    fn fails(&mut self) -> Failed
        ensures counts { self.new ≡ record self.old { calls = raised self.old.calls; disk_faults = raised self.old.disk_faults } }
        ensures calls { self.old.calls ≤ self.new.calls }
        ensures faults { self.old.disk_faults ≤ self.new.disk_faults }
    {
        self.calls = self.calls.saturating_add(1);
        self.disk_faults = self.disk_faults.saturating_add(1);
        Failed
    }

    fn keep(&mut self, bytes: &[u8]) -> bool
        ensures { self.new ≡ self.old }
    {
        self.shown.extend_from_slice(bytes).is_ok()
    }
}

impl Host for Screen {
    ghost use Rattle.std.specs.Prelude.{None};
    ghost use Rattle.host_io.specs.Moments.{anything};
    ghost use Rattle.host_io.specs.Untold.{leaves_anything, nothing_read};

    ghost disk = { λ _. None };

    ghost printed = { λ _. None };

    ghost clock = { λ host. host.calls };

    ghost might = { λ _. anything };

    ghost lacked = { λ _. 0 };

    ghost disk_faults = { λ host. host.disk_faults };

    ghost print_faults = { λ host. host.print_faults };

    ghost counts_now = { λ host moment left le now. tt };

    ghost only_now = { λ host left any. leaves_anything left };

    ghost reads_now = { λ host d is. nothing_read d is };

    fn len(&mut self, area: u8) -> Result<u64, Failed> {
        Err(self.fails())
    }

    fn read(&mut self, area: u8, at: u64, buf: &mut [u8]) -> Result<usize, Failed> {
        Err(self.fails())
    }

    fn write(&mut self, area: u8, at: u64, bytes: &[u8]) -> Result<(), Failed> {
        Err(self.fails())
    }

    fn cut(&mut self, area: u8, len: u64) -> Result<(), Failed> {
        Err(self.fails())
    }

    fn sync(&mut self) -> Result<(), Failed> {
        Err(self.fails())
    }

    fn print(&mut self, bytes: &[u8]) -> Result<(), Failed> {
        let kept = self.keep(bytes);
        self.calls = self.calls.saturating_add(1);
        if kept {
            Ok(())
        } else {
            self.print_faults = self.print_faults.saturating_add(1);
            Err(Failed)
        }
    }
}

/// It can't be loaded, keeps nothing, and tells of each request what it is.
#[derive(Drop)]
struct Parrot {
    asked: u64,
}

fn reply_to(request: Request) -> Reply {
    match request {
        Request::Plain(Command::Check) => Reply::Consistent,
        Request::Plain(_) => Reply::Done,
        Request::Block(Ok(o)) => Reply::Loaded {
            inclusions: o.inclusions().len() as u32,
        },
        Request::Block(Err(e)) => Reply::Error(Refusal::Block(e)),
        Request::Bad(r) => Reply::Error(r),
    }
}

impl Engine for Parrot {
    ghost stands = { λ _ s. ⊥ };

    ghost taken = { λ parrot. parrot.asked };

    fn load<H: Host>(alloc: Global, host: &mut H) -> Result<Self, EndFault> {
        Err(EndFault::NoMemory)
    }

    fn step<H: Host, L: Ledger>(
        self,
        alloc: Global,
        host: &mut H,
        request: Request,
        steps: &mut Steps<L>,
    ) -> Result<(Self, Reply), EndFault> {
        let asked = self.asked.saturating_add(1);
        Ok((Parrot { asked }, reply_to(request)))
    }

    fn commit<H: Host, L: Ledger>(
        self,
        alloc: Global,
        host: &mut H,
        session: u8,
        steps: &mut Steps<L>,
    ) -> Result<(Self, Reply), CommitFault> {
        Err(CommitFault::NoMemory)
    }
}

// A script is read to its end, and this is printed.
fn shows<L: Ledger>(
    rt: &impl Abort,
    alloc: Global,
    steps: &mut Steps<L>,
    script: &[u8],
    wanted: &[u8],
) -> Result<(), Fail> {
    let mut source = MemSource::new(Bytes::from_slice(alloc, script)?, Calls::new(alloc));
    let mut host = Screen::new(alloc);
    let parrot = Parrot { asked: 0 };
    let ending = run_loaded(alloc, parrot, &mut source, &mut host, steps);
    assert_eq!(rt; ending, Ending::Done);
    assert!(rt; host.shown() == wanted);
    Ok(())
}

fn replies<L: Ledger>(rt: &impl Abort, alloc: Global, blank: Blank) -> Result<(), Fail>
    requires name { blank.name ≡ L.name }
    requires parts { blank.parts ≡ L.parts }
    requires some { 0 < L.parts }
{
    let mut steps: Steps<L> = Steps::new(blank);
    shows(rt, alloc, &mut steps, b"", b"")?;
    shows(rt, alloc, &mut steps, b"begin 0", b"ok\n")?;
    let lines = b"# x\n\ncheck\r\nfrob\ntidy";
    shows(rt, alloc, &mut steps, lines, b"consistent\nerror 1 1\nok\n")?;
    let block = b"ontology\nSubClassOf(A B)\n end\ncheck";
    shows(rt, alloc, &mut steps, block, b"ok ontology 1\nconsistent\n")?;
    shows(
        rt,
        alloc,
        &mut steps,
        b"ontology\n\n# x",
        b"error 5 3 syntax\n",
    )
}

#[test]
fn replies_come_in_order(rt: HostRuntime) -> Result<(), Fail> {
    replies::<Brand>(&rt, rt.alloc(), Blank::new(1))
}

// A base that can't be loaded ends the run, and nothing is printed.
fn ends<L: Ledger>(rt: &impl Abort, alloc: Global, blank: Blank) -> Result<(), Fail>
    requires name { blank.name ≡ L.name }
    requires parts { blank.parts ≡ L.parts }
    requires some { 0 < L.parts }
{
    let mut source = MemSource::new(Bytes::from_slice(alloc, b"tidy")?, Calls::new(alloc));
    let mut host = Screen::new(alloc);
    let mut steps: Steps<L> = Steps::new(blank);
    let ending = run::<Parrot, MemSource, Screen, L>(alloc, &mut source, &mut host, &mut steps);
    assert_eq!(rt; ending, Ending::NoMemory);
    assert!(rt; host.shown().is_empty());
    Ok(())
}

#[test]
fn nothing_is_printed_where_none_is_loaded(rt: HostRuntime) -> Result<(), Fail> {
    ends::<Brand>(&rt, rt.alloc(), Blank::new(1))
}
