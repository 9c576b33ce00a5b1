//! The contracts of a base's calls.

ghost use Rattle.std.specs.Prelude.{◌≡◌, ◌≤◌, ◌<◌, ◌+◌, ◌⊎◌, ℕ, Option, Some, None, IfOk, IsErrOf, Err};
ghost use Rattle.std.specs.Option.{ForSome};
ghost use Rattle.host_io.specs.Causes.{Rose};
ghost use Rattle.host_io.specs.Disk.{Disk};
ghost use Rattle.host_io.specs.Moments.{LeavesOnly};
ghost use Rattle.base_store.specs.Area.{IsDamaged, KeepsHistory};
ghost use Rattle.base_store.specs.History.{History};
ghost use Rattle.base_engine.specs.Calls.{BothStay, DiskKeeps, IsDamage, HasKeptState, IsReopen, Loads, ReloadsWhatIsTold, SecondStays, StaysTold, StepLeaves, StillKeeps, TouchesArea};
ghost use Rattle.base_engine.specs.Requests.{IsGiven, commit_of};
ghost use Rattle.base_engine.specs.State.{IsInitial, MachineState};
ghost use Rattle.base_engine.specs.Steps.{StepsTo};

use horn_closure::Steps;
use host_io::Host;
use reply_text::Reply;
use script_reader::Request;
use std::alloc::Global;
use std::sync::ledger::Ledger;

/// Why a base is given up. The host can be loaded again.
#[derive(Clone, Copy, Debug, PartialEq, Eq)]
pub enum EndFault {
    /// The disk failed.
    DiskFault,
    /// An area keeps no history; the number of the area, and the place where it offends.
    Damaged { area: u8, at: u64 },
    /// Memory ran out.
    NoMemory,
}

/// Why a base is given up in a commit. The host can be loaded again.
#[derive(Clone, Copy, Debug, PartialEq, Eq)]
pub enum CommitFault {
    /// The disk failed.
    DiskFault,
    /// Memory ran out. Nothing was written.
    NoMemory,
}

/// A base that does requests, over the first area of a host. The second area is never touched.
pub trait Engine: Drop {
    /// It stands for this state.
    ghost stands: { Self → MachineState → Type 0 };

    /// How many requests it was given since it was loaded.
    ghost taken: { Self → ℕ };

    /// Loads the base that the first area keeps. A fresh area keeps the one without an ontology, and isn't fresh behind the call.
    fn load<H: Host>(alloc: Global, host: &mut H) -> Result<Self, EndFault>
        // It stands for the state that the machine begins with over the history, which the area holds.
        ensures loaded { ForSome (H.disk host.old) (λ d. (h : History) → KeepsHistory d.first.reads h → IfOk result (λ base.
            (s : MachineState) × IsInitial h s × stands base s × DiskKeeps (H.disk host.new) h)) }
        ensures ready { IfOk result (λ base. HasKeptState (stands base) (H.disk host.new)) }
        ensures no_steps { IfOk result (λ base. taken base ≡ 0) }
        ensures moments { ForSome (H.disk host.old) (λ d. (h : History) → KeepsHistory d.first.reads h → Loads H.clock H.might d (H.printed host.old) h result host.old host.new) }
        ensures second { SecondStays (H.disk host.old) (H.disk host.new) }

        // Where the area keeps a history, it still does after want of memory.
        ensures no_memory { IsErrOf result EndFault.NoMemory → ForSome (H.disk host.old) (λ d. (h : History) → KeepsHistory d.first.reads h → StillKeeps (H.disk host.new) h) }

        // Damage is told of an area that keeps no history, and nothing is written where there is none.
        ensures damages { ForSome (H.disk host.old) (λ d. (at : ℕ) → IsDamaged d.first.reads at
            → ((result ≡ Err (EndFault.Damaged 0 at)) ⊎ (result ≡ Err EndFault.DiskFault) ⊎ (result ≡ Err EndFault.NoMemory)) × BothStay (H.disk host.old) (H.disk host.new)) }
        ensures damaged { (area at : ℕ) → result ≡ Err (EndFault.Damaged area at) → ForSome (H.disk host.old) (λ d. IsDamage d area at) }
        ensures disk_fault { IsErrOf result EndFault.DiskFault → Rose (H.disk_faults host.old) (H.disk_faults host.new) }
        ensures stays { IsErrOf result EndFault.DiskFault ⊎ (H.disk_faults host.new ≡ H.disk_faults host.old) }
        ensures later { H.disk_faults host.old ≤ H.disk_faults host.new }
        ensures told { StaysTold (H.disk host.old) (H.disk host.new) }
        ensures printed { H.printed host.new ≡ H.printed host.old }
        ensures other { H.print_faults host.new ≡ H.print_faults host.old };

    /// Does one request, and tells the reply. `steps` counts closures, as a commit makes them.
    fn step<H: Host, L: Ledger>(
        self,
        alloc: Global,
        host: &mut H,
        request: Request,
        steps: &mut Steps<L>,
    ) -> Result<(Self, Reply), EndFault>
        requires ready { HasKeptState (stands self) (H.disk host.old) }
        requires given { IsGiven request }
        requires few { taken self < 100000000 }

        // One step of the machine, from each state that it stands for and whose history the area holds.
        ensures steps { (s : MachineState) → stands self s → DiskKeeps (H.disk host.old) s.history → ReloadsWhatIsTold request (H.disk host.old) → IfOk result (λ done.
            (t : MachineState) × StepsTo s request done.1 t × stands done.0 t × DiskKeeps (H.disk host.new) t.history) }
        ensures ready { IfOk result (λ done. HasKeptState (stands done.0) (H.disk host.new)) }
        ensures counted { steps.old ≤ steps.new }
        ensures one { IfOk result (λ done. taken done.0 ≤ taken self + 1) }

        // At each moment of the call the area holds the history before the step or the one behind it.
        ensures moments { (s : MachineState) → stands self s → ForSome (H.disk host.old) (λ d. DiskKeeps (Some d) s.history
            → LeavesOnly H.clock H.might host.old host.new (StepLeaves s request (H.printed host.old) d.second.reads)) }
        ensures second { SecondStays (H.disk host.old) (H.disk host.new) }

        // Want of memory leaves the disk as it was, and what the area keeps.
        ensures untouched { IsErrOf result EndFault.NoMemory → H.disk host.new ≡ H.disk host.old }
        ensures no_memory { IsErrOf result EndFault.NoMemory → (s : MachineState) → stands self s → DiskKeeps (H.disk host.old) s.history → DiskKeeps (H.disk host.new) s.history }

        // Only requests that touch the area meet a fault of the disk, and only `reopen` meets damage.
        ensures disk_fault { IsErrOf result EndFault.DiskFault → TouchesArea request × Rose (H.disk_faults host.old) (H.disk_faults host.new) }
        ensures damaged { (area at : ℕ) → result ≡ Err (EndFault.Damaged area at) → (H.disk host.old ≡ None) × (area ≡ 0) × IsReopen request }
        ensures stays { IsErrOf result EndFault.DiskFault ⊎ (H.disk_faults host.new ≡ H.disk_faults host.old) }
        ensures later { H.disk_faults host.old ≤ H.disk_faults host.new }
        ensures told { StaysTold (H.disk host.old) (H.disk host.new) }
        ensures printed { H.printed host.new ≡ H.printed host.old }
        ensures other { H.print_faults host.new ≡ H.print_faults host.old };

    /// Commits a session, and tells the reply: one step, by the request that commits it.
    fn commit<H: Host, L: Ledger>(
        self,
        alloc: Global,
        host: &mut H,
        session: u8,
        steps: &mut Steps<L>,
    ) -> Result<(Self, Reply), CommitFault>
        requires ready { HasKeptState (stands self) (H.disk host.old) }
        requires given { session ≤ 15 }
        requires few { taken self < 100000000 }

        ensures steps { (s : MachineState) → stands self s → DiskKeeps (H.disk host.old) s.history → IfOk result (λ done.
            (t : MachineState) × StepsTo s (commit_of session) done.1 t × stands done.0 t × DiskKeeps (H.disk host.new) t.history) }
        ensures ready { IfOk result (λ done. HasKeptState (stands done.0) (H.disk host.new)) }
        ensures counted { steps.old ≤ steps.new }
        ensures one { IfOk result (λ done. taken done.0 ≤ taken self + 1) }

        ensures moments { (s : MachineState) → stands self s → ForSome (H.disk host.old) (λ d. DiskKeeps (Some d) s.history
            → LeavesOnly H.clock H.might host.old host.new (StepLeaves s (commit_of session) (H.printed host.old) d.second.reads)) }
        ensures second { SecondStays (H.disk host.old) (H.disk host.new) }

        ensures untouched { IsErrOf result CommitFault.NoMemory → H.disk host.new ≡ H.disk host.old }
        ensures disk_fault { IsErrOf result CommitFault.DiskFault → Rose (H.disk_faults host.old) (H.disk_faults host.new) }
        ensures later { H.disk_faults host.old ≤ H.disk_faults host.new }
        ensures told { StaysTold (H.disk host.old) (H.disk host.new) }
        ensures printed { H.printed host.new ≡ H.printed host.old }
        ensures other { H.print_faults host.new ≡ H.print_faults host.old };
}
