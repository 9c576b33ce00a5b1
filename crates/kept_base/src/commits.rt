//! Commits.
ghost use Rattle.std.specs.Prelude.{◌≡◌, ◌<◌, ◌≤◌, ◌+◌, ◌⊎◌, None, Some, IfOk, IsErrOf, MatchOption, length};
ghost use Rattle.std.specs.Option.{ForSome};
ghost use Rattle.base_store.specs.History.{History, with_transaction};
ghost use Rattle.base_store.specs.Legal.{CanFollow};
ghost use Rattle.base_store.specs.Store.{HoldsEither, StandsFor, StandsForNext};
ghost use Rattle.gated_log.specs.Stops.{AtFirst};
ghost use Rattle.host_io.specs.Causes.{Rose};
ghost use Rattle.host_io.specs.Disk.{Disk, IsSettled};
ghost use Rattle.host_io.specs.Moments.{LeavesOnly};
ghost use Rattle.txn_codec.specs.Spelling.{changes_bytes};
ghost use Rattle.kept_base.specs.Base.{HasCompletedTables, StandsForState};
ghost use Rattle.base_engine.specs.Calls.{DiskKeeps, HasKeptState, SecondStays, StaysTold, StepLeaves};
ghost use Rattle.kept_base.specs.Committing.{IsOpenIn, MakesBase, with_store};
ghost use Rattle.kept_base.specs.Doing.{DecidesRefusal};
ghost use Rattle.base_engine.specs.Requests.{commit_of};
ghost use Rattle.base_engine.specs.State.{MachineState};
ghost use Rattle.base_engine.specs.Steps.{StepsTo};

use crate::base::Base;
use crate::contents::Outcome;
use base_engine::CommitFault;
use base_store::KeepFault;
use dl_base::{Changes, NamedChange};
use horn_closure::Steps;
use host_io::Host;
use reply_text::{Refusal, Reply};
use std::alloc::{AllocError, Global};
use std::sync::ledger::Ledger;

/// What a commit comes to before the store keeps it.
#[derive(Drop)]
pub(crate) enum Made {
    /// It is refused, and the base is as it was.
    Refused(Base, Refusal),
    /// The base with the changes and without the session. So many rows came, and so many went. The store is yet to keep them.
    Ready {
        base: Base,
        changes: Changes,
        added: u64,
        removed: u64,
    },
}

impl Base {
    /// `commit`: a session's changes become the next transaction, and the session is closed. The store keeps them last, and
    /// nothing behind that takes memory.
    pub fn commit<H: Host, L: Ledger>(
        self,
        alloc: Global,
        host: &mut H,
        session: u8,
        steps: &mut Steps<L>,
    ) -> Result<(Base, Reply), CommitFault>
        requires ready { HasKeptState (StandsForState self) (H.disk host.old) }
        requires given { session ≤ 15 }
        requires few { self.steps < 100000000 }

        ensures steps { (s : MachineState) → StandsForState self s → DiskKeeps (H.disk host.old) s.history → IfOk result (λ done.
            (t : MachineState) × StepsTo s (commit_of session) done.1 t × StandsForState done.0 t × DiskKeeps (H.disk host.new) t.history) }
        ensures ready { IfOk result (λ done. HasKeptState (StandsForState done.0) (H.disk host.new)) }
        ensures completed { IfOk result (λ done. HasCompletedTables done.0) }
        ensures counted { steps.old ≤ steps.new }
        ensures one { IfOk result (λ done. done.0.steps ≤ self.steps + 1) }

        ensures moments { (s : MachineState) → StandsForState self s → ForSome (H.disk host.old) (λ d. DiskKeeps (Some d) s.history
            → LeavesOnly H.clock H.might host.old host.new (StepLeaves s (commit_of session) (H.printed host.old) d.second.reads)) }
        ensures second { SecondStays (H.disk host.old) (H.disk host.new) }

        ensures untouched { IsErrOf result CommitFault.NoMemory → host.new ≡ host.old }
        ensures disk_fault { IsErrOf result CommitFault.DiskFault → Rose (H.disk_faults host.old) (H.disk_faults host.new) }
        ensures stays { IsErrOf result CommitFault.DiskFault ⊎ (H.disk_faults host.new ≡ H.disk_faults host.old) }
        ensures later { H.disk_faults host.old ≤ H.disk_faults host.new }
        ensures told { StaysTold (H.disk host.old) (H.disk host.new) }
        ensures printed { H.printed host.new ≡ H.printed host.old }
        ensures other { H.print_faults host.new ≡ H.print_faults host.old }
    {
        self.tell();
        match self.made(alloc, session, steps)? {
            Made::Refused(base, refusal) => {
                base.tell();
                Ok((base, Reply::Error(refusal)))
            }
            Made::Ready {
                base,
                changes,
                added,
                removed,
            } => {
                let base = base.keeping(alloc, host, changes.items())?;
                base.tell();
                let reply = Reply::Committed {
                    number: base.transactions(),
                    added,
                    removed,
                };
                Ok((base, reply))
            }
        }
    }

    /// Makes the changes of a session, unless they are refused.
    fn made<L: Ledger>(
        self,
        alloc: Global,
        session: u8,
        steps: &mut Steps<L>,
    ) -> Result<Made, AllocError>
        requires session { session ≤ 15 }
        requires few { self.steps < 100000000 }
        ensures made { IfOk result (MakesBase self session) }
        ensures counted { steps.old ≤ steps.new }
    {
        self.tell();
        if let Some(refusal) = self.commit_refusal(session) {
            return Ok(Made::Refused(self, refusal));
        }
        let Base {
            mut contents,
            store,
        } = self;
        match contents.make(alloc, &store, session, steps)? {
            Outcome::Refused(refusal) => Ok(Made::Refused(Base { contents, store }, refusal)),
            Outcome::Made {
                changes,
                added,
                removed,
            } => Ok(Made::Ready {
                base: Base { contents, store },
                changes,
                added,
                removed,
            }),
        }
    }

    /// Why `commit` is refused before the changes are looked at.
    fn commit_refusal(&self, session: u8) -> Option<Refusal>
        ensures { MatchOption result (IsOpenIn self.now session) (λ e. DecidesRefusal self.now (commit_of session) (Some e)) }
    {
        let Some(_) = self.ontology() else {
            return Some(Refusal::NoOntology);
        };
        match self.changes(session) {
            Some(_) => None,
            None => Some(Refusal::NotOpen),
        }
    }

    /// The base with the changes kept by its store.
    fn keeping<H: Host>(
        self,
        alloc: Global,
        host: &mut H,
        changes: &[NamedChange],
    ) -> Result<Base, CommitFault>
        requires few { length changes.now ≤ 10000 }
        requires room { self.store.used + 6 + length (changes_bytes changes.now) ≤ 1073741824 }
        requires ready { ForSome (H.disk host.old) (λ d. (h : History) × StandsFor self.store d h × CanFollow h changes.now) }

        ensures base { IfOk result (λ new. new ≡ with_store self changes.now) }
        ensures ok { IfOk result (λ new. ForSome (H.disk host.old) (λ d. (e : Disk) × (H.disk host.new ≡ Some e) × IsSettled e × (e.second ≡ d.second)
            × StandsForNext (with_transaction changes.now) self.store d new.store e)) }
        ensures moments { ForSome (H.disk host.old) (λ d. LeavesOnly H.clock H.might host.old host.new
            (AtFirst d (H.printed host.old) (HoldsEither (with_transaction changes.now) d.first.reads))) }
        ensures reads { ForSome (H.disk host.old) (λ d. (e : Disk) × (H.disk host.new ≡ Some e) × (e.second.reads ≡ d.second.reads)) }
        ensures untouched { IsErrOf result CommitFault.NoMemory → host.new ≡ host.old }
        ensures untold { H.disk host.old ≡ None → H.disk host.new ≡ None }
        ensures printed { H.printed host.new ≡ H.printed host.old }
        ensures disk_fault { IsErrOf result CommitFault.DiskFault → Rose (H.disk_faults host.old) (H.disk_faults host.new) }
        ensures stays { IsErrOf result CommitFault.DiskFault ⊎ (H.disk_faults host.new ≡ H.disk_faults host.old) }
        ensures later { H.disk_faults host.old ≤ H.disk_faults host.new }
        ensures other { H.print_faults host.new ≡ H.print_faults host.old }
    {
        let Base { contents, store } = self;
        match store.log_transaction(alloc, host, changes) {
            Ok(store) => Ok(Base { contents, store }),
            Err(KeepFault::DiskFault) => Err(CommitFault::DiskFault),
            Err(KeepFault::NoMemory(_)) => Err(CommitFault::NoMemory),
            Err(KeepFault::Full { .. }) => unreachable!(),
        }
    }
}
