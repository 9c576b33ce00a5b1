//! How a base is loaded.
ghost use Rattle.std.specs.Prelude.{◌≡◌, ◌<◌, ◌≤◌, ◌⊎◌, ◌↔◌, ℕ, All, Contains, None, Some, IfOk, IsErrOf, Err};
ghost use Rattle.std.specs.Option.{ForSome};
ghost use Rattle.completion.specs.Numbered.{IsRowOf};
ghost use Rattle.dl_base.specs.declared.row.Row.{Row as AnyRow};
ghost use Rattle.gated_log.specs.Entries.{within};
ghost use Rattle.gated_log.specs.Stops.{AtOpening};
ghost use Rattle.host_io.specs.Causes.{Rose};
ghost use Rattle.host_io.specs.Moments.{LeavesOnly};
ghost use Rattle.base_store.specs.Area.{IsDamaged, KeepsHistory};
ghost use Rattle.base_store.specs.History.{History};
ghost use Rattle.base_store.specs.Loaded.{HasNumbersOf};
ghost use Rattle.script_reader.specs.declared.command.Command.TheVariants as command;
ghost use Rattle.script_reader.specs.declared.request.Request.TheVariants as request;
ghost use Rattle.kept_base.specs.Base.{HasCompletedTables, StandsForState};
ghost use Rattle.base_engine.specs.Calls.{BothStay, DiskKeeps, HasKeptState, HoldsAtRest, IsDamage, Loads, SecondStays, StaysTold, StepLeaves, StillKeeps};
ghost use Rattle.kept_base.specs.Opening.{AreRowsWithin, IsReasonedOf, IsReasonerOf, StandsFromLoad};
ghost use Rattle.base_engine.specs.State.{IsInitial, MachineState};
ghost use Rattle.base_engine.specs.Steps.{StepsTo};

use crate::base::Base;
use crate::contents::Contents;
use crate::sessions::Sessions;
use assert_tables::Assertions;
use base_engine::EndFault;
use base_reasoner::Reasoner;
use base_store::{Loaded, Store};
use dl_base::{Ontology, RowList};
use gen_arena::Arena;
use horn_closure::Steps;
use host_io::Host;
use reply_text::Reply;
use std::alloc::{AllocError, Global};
use std::marker::Brand;
use std::sync::ledger::{Blank, Ledger};

/// The most slots of prepared queries.
const HANDLES: u32 = 256;

impl Base {
    /// Loads the base that the first area keeps. A fresh area keeps the one without an ontology, and isn't fresh behind the call.
    pub fn load<H: Host>(alloc: Global, host: &mut H) -> Result<Base, EndFault>
        // It stands for the state that the machine begins with over the history, which the area holds.
        ensures loaded { ForSome (H.disk host.old) (λ d. (h : History) → KeepsHistory d.first.reads h → IfOk result (λ base.
            (s : MachineState) × IsInitial h s × StandsForState base s × DiskKeeps (H.disk host.new) h)) }
        ensures ready { IfOk result (λ base. HasKeptState (StandsForState base) (H.disk host.new)) }
        ensures completed { IfOk result (λ base. HasCompletedTables base) }
        ensures no_steps { IfOk result (λ base. base.steps ≡ 0) }
        ensures moments { ForSome (H.disk host.old) (λ d. (h : History) → KeepsHistory d.first.reads h → Loads H.clock H.might d (H.printed host.old) h result host.old host.new) }
        ensures opening { ForSome (H.disk host.old) (λ d. LeavesOnly H.clock H.might host.old host.new (AtOpening (within 1073741824) d (H.printed host.old))) }
        ensures second { SecondStays (H.disk host.old) (H.disk host.new) }

        // Where the area keeps a history, it still does after want of memory.
        ensures no_memory { IsErrOf result EndFault.NoMemory → ForSome (H.disk host.old) (λ d. (h : History) → KeepsHistory d.first.reads h → StillKeeps (H.disk host.new) h) }

        // Damage is told of an area that keeps no history, and nothing is written where there is none.
        ensures damages { ForSome (H.disk host.old) (λ d. (at : ℕ) → IsDamaged d.first.reads at
            → ((result ≡ Err (EndFault.Damaged 0 at)) ⊎ (result ≡ Err EndFault.DiskFault) ⊎ (result ≡ Err EndFault.NoMemory)) × BothStay (H.disk host.old) (H.disk host.new)) }
        ensures damaged { (area at : ℕ) → result ≡ Err (EndFault.Damaged area at) → ForSome (H.disk host.old) (λ d. IsDamage d area at) }
        ensures disk_fault { IsErrOf result EndFault.DiskFault → Rose (H.disk_faults host.old) (H.disk_faults host.new) }
        ensures stays { IsErrOf result EndFault.DiskFault ⊎ (H.disk_faults host.new ≡ H.disk_faults host.old) }
        ensures later { H.disk_faults host.old ≤ H.disk_faults host.new }
        ensures told { StaysTold (H.disk host.old) (H.disk host.new) }
        ensures printed { H.printed host.new ≡ H.printed host.old }
        ensures other { H.print_faults host.new ≡ H.print_faults host.old }
    {
        let (store, loaded) = Store::load(alloc, host)?;
        let base = Base::over(alloc, store, loaded)?;
        Ok(base)
    }

    /// `reopen`: gives the base up and loads it again. Sessions are closed, prepared queries are forgotten, and generations are
    /// counted afresh.
    pub fn reopen<H: Host>(self, alloc: Global, host: &mut H) -> Result<(Base, Reply), EndFault>
        requires ready { HasKeptState (StandsForState self) (H.disk host.old) }
        ensures steps { (s : MachineState) → StandsForState self s → ForSome (H.disk host.old) (λ d. HoldsAtRest d s.history → IfOk result (λ done.
            (t : MachineState) × StepsTo s (request.Plain command.Reopen) done.1 t × StandsForState done.0 t × DiskKeeps (H.disk host.new) t.history)) }
        ensures ready { IfOk result (λ done. HasKeptState (StandsForState done.0) (H.disk host.new)) }
        ensures completed { IfOk result (λ done. HasCompletedTables done.0) }
        ensures no_steps { IfOk result (λ done. done.0.steps ≡ 0) }

        // At each moment of the call the area holds the history.
        ensures moments { (s : MachineState) → StandsForState self s → ForSome (H.disk host.old) (λ d. HoldsAtRest d s.history
            → LeavesOnly H.clock H.might host.old host.new (StepLeaves s (request.Plain command.Reopen) (H.printed host.old) d.second.reads)) }
        ensures second { SecondStays (H.disk host.old) (H.disk host.new) }
        ensures untouched { IsErrOf result EndFault.NoMemory → H.disk host.new ≡ H.disk host.old }
        ensures damaged { (area at : ℕ) → result ≡ Err (EndFault.Damaged area at) → (H.disk host.old ≡ None) × (area ≡ 0) }
        ensures disk_fault { IsErrOf result EndFault.DiskFault → Rose (H.disk_faults host.old) (H.disk_faults host.new) }
        ensures stays { IsErrOf result EndFault.DiskFault ⊎ (H.disk_faults host.new ≡ H.disk_faults host.old) }
        ensures later { H.disk_faults host.old ≤ H.disk_faults host.new }
        ensures told { StaysTold (H.disk host.old) (H.disk host.new) }
        ensures printed { H.printed host.new ≡ H.printed host.old }
        ensures other { H.print_faults host.new ≡ H.print_faults host.old }
    {
        self.give_up();
        let (store, loaded) = Store::load(alloc, host)?;
        let transactions = loaded.transactions;
        let base = Base::over(alloc, store, loaded)?;
        Ok((base, Reply::Reopened { transactions }))
    }

    /// Gives the base up, with all that it holds in memory.
    fn give_up(self) {}

    /// The base of what was loaded.
    fn over(alloc: Global, store: Store, loaded: Loaded) -> Result<Base, AllocError>
        requires numbers { HasNumbersOf store loaded }
        ensures stands { IfOk result (StandsFromLoad store loaded) }
        ensures completed { IfOk result (λ base. HasCompletedTables base) }
        ensures no_steps { IfOk result (λ base. base.steps ≡ 0) }
    {
        let Loaded {
            ontology,
            individuals,
            rows,
            ..
        } = loaded;
        let rows = asserted(alloc, rows)?;
        let reasoner = reasoned(alloc, ontology, &rows)?;
        let sessions = Sessions::new(alloc)?;
        let contents = Contents {
            reasoner,
            individuals,
            rows,
            sessions,
            handles: Arena::new(alloc, HANDLES),
            steps: 0,
        };
        let base = Base { contents, store };
        base.tell();
        Ok(base)
    }
}

/// The rows of the list.
fn asserted(alloc: Global, list: RowList) -> Result<Assertions, AllocError>
    ensures { IfOk result (λ rows. (r : AnyRow) → Contains rows r ↔ Contains list r) }
{
    Assertions::of_rows(alloc, list.into_vec())
}

/// What is derived from the rows, where there is an ontology.
fn reasoned(
    alloc: Global,
    ontology: Option<Ontology>,
    rows: &Assertions,
) -> Result<Option<Reasoner>, AllocError>
    requires { AreRowsWithin ontology rows.now }
    ensures { IfOk result (IsReasonedOf ontology rows.now) }
{
    match ontology {
        Some(ontology) => Ok(Some(counted::<Brand>(alloc, ontology, rows, Blank::new(1))?)),
        None => Ok(None),
    }
}

/// What the ontology derives from the rows, with steps counted of their own.
pub(crate) fn counted<L: Ledger>(
    alloc: Global,
    ontology: Ontology,
    rows: &Assertions,
    blank: Blank,
) -> Result<Reasoner, AllocError>
    requires name { blank.name ≡ L.name }
    requires parts { blank.parts ≡ L.parts }
    requires some { 0 < L.parts }
    requires within { All (IsRowOf ontology) rows.now }
    ensures { IfOk result (IsReasonerOf ontology rows.now) }
{
    let mut steps: Steps<L> = Steps::new(blank);
    Reasoner::new(alloc, ontology, rows, &mut steps)
}
