//! Blocks: how a base comes by its ontology.
ghost use Rattle.std.specs.Prelude.{◌≡◌, ◌<◌, ◌≤◌, ◌+◌, ◌⊎◌, Some, None, IfOk, IsErrOf, length};
ghost use Rattle.std.specs.Option.{ForSome};
ghost use Rattle.base_store.specs.History.{Empty, with_ontology};
ghost use Rattle.base_store.specs.Store.{HoldsEither, StandsFor, StandsForNext};
ghost use Rattle.gated_log.specs.Stops.{AtFirst};
ghost use Rattle.host_io.specs.Causes.{Rose};
ghost use Rattle.host_io.specs.Disk.{Disk, IsSettled};
ghost use Rattle.host_io.specs.Moments.{LeavesOnly};
ghost use Rattle.txn_codec.specs.Spelling.{ontology_bytes};
ghost use Rattle.script_reader.specs.declared.request.Request.TheVariants as request;
ghost use Rattle.kept_base.specs.Base.{HasCompletedTables, StandsForState};
ghost use Rattle.kept_base.specs.Blocks.{AcceptsBlock};
ghost use Rattle.base_engine.specs.Calls.{DiskKeeps, HasKeptState, SecondStays, StaysTold, StepLeaves};
ghost use Rattle.base_engine.specs.State.{MachineState};
ghost use Rattle.base_engine.specs.Steps.{StepsTo};

use crate::base::Base;
use axiom_reader::BlockResult;
use base_engine::CommitFault;
use base_store::{KeepFault, Store};
use dl_base::Ontology;
use host_io::Host;
use reply_text::{Refusal, Reply};
use std::alloc::Global;
use txn_codec::ontology_len;

impl Base {
    /// A block that was read: its ontology becomes the history's first entry. The store keeps it last, and nothing behind that takes
    /// memory.
    pub fn block<H: Host>(
        self,
        alloc: Global,
        host: &mut H,
        block: BlockResult,
    ) -> Result<(Base, Reply), CommitFault>
        requires ready { HasKeptState (StandsForState self) (H.disk host.old) }
        requires few { self.steps < 100000000 }

        ensures steps { (s : MachineState) → StandsForState self s → DiskKeeps (H.disk host.old) s.history → IfOk result (λ done.
            (t : MachineState) × StepsTo s (request.Block block) done.1 t × StandsForState done.0 t × DiskKeeps (H.disk host.new) t.history) }
        ensures ready { IfOk result (λ done. HasKeptState (StandsForState done.0) (H.disk host.new)) }
        ensures completed { IfOk result (λ done. HasCompletedTables done.0) }
        ensures one { IfOk result (λ done. done.0.steps ≤ self.steps + 1) }

        ensures moments { (s : MachineState) → StandsForState self s → ForSome (H.disk host.old) (λ d. DiskKeeps (Some d) s.history
            → LeavesOnly H.clock H.might host.old host.new (StepLeaves s (request.Block block) (H.printed host.old) d.second.reads)) }
        ensures second { SecondStays (H.disk host.old) (H.disk host.new) }

        ensures untouched { IsErrOf result CommitFault.NoMemory → host.new ≡ host.old }
        ensures disk_fault { IsErrOf result CommitFault.DiskFault → Rose (H.disk_faults host.old) (H.disk_faults host.new) }
        ensures stays { IsErrOf result CommitFault.DiskFault ⊎ (H.disk_faults host.new ≡ H.disk_faults host.old) }
        ensures later { H.disk_faults host.old ≤ H.disk_faults host.new }
        ensures told { StaysTold (H.disk host.old) (H.disk host.new) }
        ensures printed { H.printed host.new ≡ H.printed host.old }
        ensures other { H.print_faults host.new ≡ H.print_faults host.old }
    {
        self.tell();
        match self.accepted(block) {
            Ok(ontology) => {
                let inclusions = ontology.inclusions().len() as u32;
                let Base { contents, store } = self;
                let contents = contents.first(alloc, ontology)?;
                let Some(ontology) = contents.ontology() else {
                    unreachable!();
                };
                let store = keep_ontology(store, alloc, host, ontology)?;
                let base = Base { contents, store };
                base.tell();
                Ok((base, Reply::Loaded { inclusions }))
            }
            Err(refusal) => Ok((self, Reply::Error(refusal))),
        }
    }

    /// The ontology of a block, or why the block is refused. It takes no memory.
    fn accepted(&self, block: BlockResult) -> Result<Ontology, Refusal>
        ensures { AcceptsBlock self.now block result }
    {
        if let Some(_) = self.ontology() {
            return Err(Refusal::OntologyThere);
        }
        match block {
            Ok(ontology) => {
                if self.store.fits(ontology_len(&ontology)) {
                    Ok(ontology)
                } else {
                    Err(Refusal::LogFull)
                }
            }
            Err(error) => Err(Refusal::Block(error)),
        }
    }
}

/// The store with its history's ontology.
fn keep_ontology<H: Host>(
    store: Store,
    alloc: Global,
    host: &mut H,
    ontology: &Ontology,
) -> Result<Store, CommitFault>
    requires room { store.used + 6 + length (ontology_bytes ontology.now) ≤ 1073741824 }
    requires ready { ForSome (H.disk host.old) (λ d. StandsFor store d Empty) }

    ensures store { IfOk result (λ s. s ≡ record { used = store.used + 6 + length (ontology_bytes ontology.now); transactions = store.transactions }) }
    ensures ok { IfOk result (λ s. ForSome (H.disk host.old) (λ d. (e : Disk) × (H.disk host.new ≡ Some e) × IsSettled e × (e.second ≡ d.second)
        × StandsForNext (with_ontology ontology.now) store d s e)) }
    ensures moments { ForSome (H.disk host.old) (λ d. LeavesOnly H.clock H.might host.old host.new
        (AtFirst d (H.printed host.old) (HoldsEither (with_ontology ontology.now) d.first.reads))) }
    ensures reads { ForSome (H.disk host.old) (λ d. (e : Disk) × (H.disk host.new ≡ Some e) × (e.second.reads ≡ d.second.reads)) }
    ensures untouched { IsErrOf result CommitFault.NoMemory → host.new ≡ host.old }
    ensures untold { H.disk host.old ≡ None → H.disk host.new ≡ None }
    ensures printed { H.printed host.new ≡ H.printed host.old }
    ensures disk_fault { IsErrOf result CommitFault.DiskFault → Rose (H.disk_faults host.old) (H.disk_faults host.new) }
    ensures stays { IsErrOf result CommitFault.DiskFault ⊎ (H.disk_faults host.new ≡ H.disk_faults host.old) }
    ensures later { H.disk_faults host.old ≤ H.disk_faults host.new }
    ensures other { H.print_faults host.new ≡ H.print_faults host.old }
{
    match store.log_ontology(alloc, host, ontology) {
        Ok(store) => Ok(store),
        Err(KeepFault::DiskFault) => Err(CommitFault::DiskFault),
        Err(KeepFault::NoMemory(_)) => Err(CommitFault::NoMemory),
        Err(KeepFault::Full { .. }) => unreachable!(),
    }
}
