//! One step of a base.
ghost use Rattle.std.specs.Prelude.{◌≡◌, ◌<◌, ◌≤◌, ◌+◌, ◌⊎◌, ℕ, Some, None, Err, IfOk, IsErrOf};
ghost use Rattle.std.specs.Option.{ForSome};
ghost use Rattle.host_io.specs.Causes.{Rose};
ghost use Rattle.host_io.specs.Moments.{LeavesOnly};
ghost use Rattle.script_reader.specs.declared.request.Request.TheVariants as request;
ghost use Rattle.kept_base.specs.Base.{HasCompletedTables, StandsForState};
ghost use Rattle.base_engine.specs.Calls.{DiskKeeps, HasKeptState, IsReopen, ReloadsWhatIsTold, SecondStays, StaysTold, StepLeaves, TouchesArea};
ghost use Rattle.kept_base.specs.Doing.{BaseSteps};
ghost use Rattle.base_engine.specs.Requests.{IsGiven, IsGivenCommand};
ghost use Rattle.base_engine.specs.State.{MachineState};
ghost use Rattle.base_engine.specs.Steps.{StepsTo};

use crate::base::Base;
use base_engine::{CommitFault, EndFault};
use horn_closure::Steps;
use host_io::Host;
use reply_text::Reply;
use script_reader::{Command, Request};
use std::alloc::{AllocError, Global};
use std::sync::ledger::Ledger;

impl Base {
    /// Does one request, and tells the reply. `steps` counts closures.
    pub fn step<H: Host, L: Ledger>(
        self,
        alloc: Global,
        host: &mut H,
        request: Request,
        steps: &mut Steps<L>,
    ) -> Result<(Base, Reply), EndFault>
        requires ready { HasKeptState (StandsForState self) (H.disk host.old) }
        requires given { IsGiven request }
        requires few { self.steps < 100000000 }

        ensures steps { (s : MachineState) → StandsForState self s → DiskKeeps (H.disk host.old) s.history → ReloadsWhatIsTold request (H.disk host.old) → IfOk result (λ done.
            (t : MachineState) × StepsTo s request done.1 t × StandsForState done.0 t × DiskKeeps (H.disk host.new) t.history) }
        ensures ready { IfOk result (λ done. HasKeptState (StandsForState done.0) (H.disk host.new)) }
        ensures completed { IfOk result (λ done. HasCompletedTables done.0) }
        ensures counted { steps.old ≤ steps.new }
        ensures one { IfOk result (λ done. done.0.steps ≤ self.steps + 1) }

        ensures moments { (s : MachineState) → StandsForState self s → ForSome (H.disk host.old) (λ d. DiskKeeps (Some d) s.history
            → LeavesOnly H.clock H.might host.old host.new (StepLeaves s request (H.printed host.old) d.second.reads)) }
        ensures second { SecondStays (H.disk host.old) (H.disk host.new) }

        ensures untouched { IsErrOf result EndFault.NoMemory → H.disk host.new ≡ H.disk host.old }
        ensures disk_fault { IsErrOf result EndFault.DiskFault → TouchesArea request × Rose (H.disk_faults host.old) (H.disk_faults host.new) }
        ensures damaged { (area at : ℕ) → result ≡ Err (EndFault.Damaged area at) → (H.disk host.old ≡ None) × (area ≡ 0) × IsReopen request }
        ensures stays { IsErrOf result EndFault.DiskFault ⊎ (H.disk_faults host.new ≡ H.disk_faults host.old) }
        ensures later { H.disk_faults host.old ≤ H.disk_faults host.new }
        ensures told { StaysTold (H.disk host.old) (H.disk host.new) }
        ensures printed { H.printed host.new ≡ H.printed host.old }
        ensures other { H.print_faults host.new ≡ H.print_faults host.old }
    {
        match request {
            Request::Plain(command) => self.command(alloc, host, command, steps),
            Request::Block(block) => Ok(self.block(alloc, host, block)?),
            Request::Bad(refusal) => {
                self.tell();
                Ok((self, Reply::Error(refusal)))
            }
        }
    }

    /// Does what a line asks.
    fn command<H: Host, L: Ledger>(
        self,
        alloc: Global,
        host: &mut H,
        command: Command,
        steps: &mut Steps<L>,
    ) -> Result<(Base, Reply), EndFault>
        requires ready { HasKeptState (StandsForState self) (H.disk host.old) }
        requires given { IsGivenCommand command }
        requires few { self.steps < 100000000 }

        ensures steps { (s : MachineState) → StandsForState self s → DiskKeeps (H.disk host.old) s.history → ReloadsWhatIsTold (request.Plain command) (H.disk host.old) → IfOk result (λ done.
            (t : MachineState) × StepsTo s (request.Plain command) done.1 t × StandsForState done.0 t × DiskKeeps (H.disk host.new) t.history) }
        ensures ready { IfOk result (λ done. HasKeptState (StandsForState done.0) (H.disk host.new)) }
        ensures completed { IfOk result (λ done. HasCompletedTables done.0) }
        ensures counted { steps.old ≤ steps.new }
        ensures one { IfOk result (λ done. done.0.steps ≤ self.steps + 1) }

        ensures moments { (s : MachineState) → StandsForState self s → ForSome (H.disk host.old) (λ d. DiskKeeps (Some d) s.history
            → LeavesOnly H.clock H.might host.old host.new (StepLeaves s (request.Plain command) (H.printed host.old) d.second.reads)) }
        ensures second { SecondStays (H.disk host.old) (H.disk host.new) }

        ensures untouched { IsErrOf result EndFault.NoMemory → H.disk host.new ≡ H.disk host.old }
        ensures disk_fault { IsErrOf result EndFault.DiskFault → TouchesArea (request.Plain command) × Rose (H.disk_faults host.old) (H.disk_faults host.new) }
        ensures damaged { (area at : ℕ) → result ≡ Err (EndFault.Damaged area at) → (H.disk host.old ≡ None) × (area ≡ 0) × IsReopen (request.Plain command) }
        ensures stays { IsErrOf result EndFault.DiskFault ⊎ (H.disk_faults host.new ≡ H.disk_faults host.old) }
        ensures later { H.disk_faults host.old ≤ H.disk_faults host.new }
        ensures told { StaysTold (H.disk host.old) (H.disk host.new) }
        ensures printed { H.printed host.new ≡ H.printed host.old }
        ensures other { H.print_faults host.new ≡ H.print_faults host.old }
    {
        match command {
            Command::Commit(session) => Ok(self.commit(alloc, host, session, steps)?),
            Command::Reopen => self.reopen(alloc, host),
            command => Ok(self.quiet(alloc, command)?),
        }
    }

    /// The base behind what a line asks that leaves the area alone, and the reply.
    fn quiet(mut self, alloc: Global, command: Command) -> Result<(Base, Reply), AllocError>
        requires given { IsGivenCommand command }
        requires quiet { TouchesArea (request.Plain command) → ⊥ }
        requires few { self.steps < 100000000 }
        ensures step { IfOk result (λ done. BaseSteps self (request.Plain command) done.1 done.0) }
        ensures one { IfOk result (λ done. done.0.steps ≤ self.steps + 1) }
        ensures completed { IfOk result (λ done. HasCompletedTables done.0) }
    {
        let reply = self.reply(alloc, command)?;
        Ok((self, reply))
    }

    /// Does what a line asks that leaves the area alone.
    fn reply(&mut self, alloc: Global, command: Command) -> Result<Reply, AllocError>
        requires given { IsGivenCommand command }
        requires quiet { TouchesArea (request.Plain command) → ⊥ }
        requires few { self.old.steps < 100000000 }
        ensures step { IfOk result (λ reply. BaseSteps self.old (request.Plain command) reply self.new) }
        ensures one { self.new.steps ≤ self.old.steps + 1 }
        ensures completed { HasCompletedTables self.new }
    {
        self.tell();
        match command {
            Command::Begin(session) => Ok(self.begin(alloc, session)),
            Command::Add(session, row) => self.add(alloc, session, row),
            Command::Del(session, row) => self.del(alloc, session, row),
            Command::Abort(session) => Ok(self.abort(session)),
            Command::Ask(query) => self.ask(alloc, &query),
            Command::Prepare(query) => self.prepare(alloc, query),
            Command::Run(handle) => self.run_query(alloc, handle),
            Command::Drop(handle) => Ok(self.drop_query(handle)),
            Command::Check => self.check(alloc),
            Command::Tables => self.tables(alloc),
            Command::Tidy => Ok(self.tidy()),
            Command::Blank | Command::Ontology | Command::Commit(_) | Command::Reopen => {
                unreachable!()
            }
        }
    }
}
