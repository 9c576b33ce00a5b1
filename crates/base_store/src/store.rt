// A store that takes entries.
ghost use Rattle.std.specs.Prelude.{◌≡◌, ◌≤◌, ◌<◌, ◌+◌, ◌⊎◌, ◌↔◌, ℕ, None, Some, length, IfErr, IfOk, IsErrAnd, IsTrue, OnOk, OnErr};
ghost use Rattle.std.specs.Option.{ForSome};
ghost use Rattle.host_io.specs.Causes.{Rose};
ghost use Rattle.host_io.specs.Disk.{Disk, IsSettled};
ghost use Rattle.host_io.specs.Moments.{LeavesOnly};
ghost use Rattle.gated_log.specs.Stops.{AtFirst};
ghost use Rattle.txn_codec.specs.Changes.{changes_payload};
ghost use Rattle.txn_codec.specs.OntologyPayload.{ontology_payload};
ghost use Rattle.txn_codec.specs.Spelling.{changes_bytes, ontology_bytes};
ghost use Rattle.base_store.specs.History.{Empty, History, with_ontology, with_transaction};
ghost use Rattle.base_store.specs.KeepFault.{HandsBack, IsStoreFull};
ghost use Rattle.base_store.specs.Legal.{CanFollow};
ghost use Rattle.base_store.specs.Store.{HoldsEither, HoldsEitherMore, HoldsMore, IsAtEnd, StandsFor, StandsForNext};

use dl_base::{NamedChange, Ontology};
use gated_log::{AppendFault, Log};
use host_io::{Failed, Host};
use std::alloc::{AllocError, Global};
use std::marker::Model;
use txn_codec::{changes_len, ontology_len, write_changes, write_ontology};

/// The greatest place of a gate: 1 GiB.
pub(crate) const AREA_LIMIT: u64 = 1_073_741_824;

/// A store, ready for its history's next entry. Contracts see the bytes that the history uses and the number of its
/// transactions.
#[derive(Debug, Drop)]
pub struct Store {
    log: Log,
    transactions: u64,
}

impl Model for Store {
    ghost use Rattle.std.specs.Prelude.{◌≡◌, ◌≤◌};
    ghost use Rattle.base_store.specs.Store.{StoreState};

    ghost Value = { StoreState };

    ghost view = { λ s. record { used = s.log.end; transactions = s.transactions } };

    ghost invariant = { λ s. record { limit : s.log.limit ≡ 1073741824; used : s.log.end ≤ 1073741824; transactions : s.transactions ≤ s.log.end } };
}

/// Why an entry is not kept.
#[derive(Debug, Drop)]
pub enum KeepFault {
    /// The disk failed. The store is given up; the area keeps the history from before, or the one with the entry.
    DiskFault,
    /// The gate behind the entry would stand past 1,073,741,824. Nothing was touched; `end` is the place behind the history
    /// and `size` the entry's bytes.
    Full { store: Store, end: u64, size: u64 },
    /// Memory ran out. Nothing was touched.
    NoMemory(Store),
}

impl From<Failed> for KeepFault {
    ghost use Rattle.base_store.specs.declared.store.KeepFault.TheVariants.{DiskFault};

    ghost from_gives = { λ _ e. e ≡ DiskFault };

    fn from(_: Failed) -> Self {
        KeepFault::DiskFault
    }
}

/// Adds an entry that has room behind the history that the area holds.
fn add_entry<H: Host>(log: Log, host: &mut H, kind: u8, payload: &[u8]) -> Result<Log, Failed>
    requires limit { log.limit ≡ 1073741824 }
    requires least_kind { 1 ≤ kind }
    requires greatest_kind { kind ≤ 2 }
    requires size { length payload.now ≤ 8388608 }
    requires room { log.end + 6 + length payload.now ≤ 1073741824 }
    requires ready { ForSome (H.disk host.old) (λ d. (h : History) × IsAtEnd log.end d h) }

    ensures log { IfOk result (λ new. (new.end ≡ log.end + 6 + length payload.now) × (new.limit ≡ 1073741824)) }
    ensures ok { IfOk result (λ _. ForSome (H.disk host.old) (λ d. (e : Disk) × (H.disk host.new ≡ Some e) × IsSettled e × (e.second ≡ d.second)
        × HoldsMore (record { kind = kind; payload = payload.now }) d.first.reads e.first.reads)) }
    ensures moments { ForSome (H.disk host.old) (λ d. LeavesOnly H.clock H.might host.old host.new
        (AtFirst d (H.printed host.old) (HoldsEitherMore (record { kind = kind; payload = payload.now }) d.first.reads))) }
    ensures reads { ForSome (H.disk host.old) (λ d. (e : Disk) × (H.disk host.new ≡ Some e) × (e.second.reads ≡ d.second.reads)
        × HoldsEitherMore (record { kind = kind; payload = payload.now }) d.first.reads e.first.reads) }
    ensures untold { H.disk host.old ≡ None → H.disk host.new ≡ None }
    ensures printed { H.printed host.new ≡ H.printed host.old }
    ensures cause { OnErr result (Rose (H.disk_faults host.old) (H.disk_faults host.new)) }
    ensures stays { OnOk result (H.disk_faults host.new ≡ H.disk_faults host.old) }
    ensures later { H.disk_faults host.old ≤ H.disk_faults host.new }
    ensures other { H.print_faults host.new ≡ H.print_faults host.old }
{
    match log.append(host, kind, payload) {
        Ok(log) => Ok(log),
        Err(AppendFault::DiskFault) => Err(Failed),
        Err(AppendFault::Full { .. }) => unreachable!(),
    }
}

impl Store {
    /// A store over a log, behind so many transactions.
    pub(crate) fn over(log: Log, transactions: u64) -> Store
        requires limit { log.limit ≡ 1073741824 }
        requires used { log.end ≤ 1073741824 }
        requires count { transactions ≤ log.end }
        ensures { result ≡ record { used = log.end; transactions = transactions } }
    {
        Store { log, transactions }
    }

    /// How many transactions its history has. It takes no memory.
    pub fn transactions(&self) -> u64
        ensures { result ≡ self.now.transactions }
    {
        self.transactions
    }

    /// Whether an entry with a payload of so many bytes has room. It takes no memory.
    pub fn fits(&self, payload: u64) -> bool
        ensures { IsTrue result ↔ (self.now.used + 6 + payload ≤ 1073741824) }
    {
        match payload.checked_add(self.log.end() + 6) {
            Some(end) => end <= AREA_LIMIT,
            None => false,
        }
    }

    /// Keeps a transaction. `Full` comes exactly where its entry has no room. At each moment of the call a stop leaves the
    /// history from before, or the one with the transaction; at `Ok` it leaves the latter.
    pub fn log_transaction<H: Host>(
        self,
        alloc: Global,
        host: &mut H,
        changes: &[NamedChange],
    ) -> Result<Store, KeepFault>
        requires few { length changes.now ≤ 10000 }
        requires ready { ForSome (H.disk host.old) (λ d. (h : History) × StandsFor self d h × CanFollow h changes.now) }

        ensures store { IfOk result (λ s. s ≡ record { used = self.used + 6 + length (changes_bytes changes.now); transactions = self.transactions + 1 }) }

        // What a read gives is the only image, and holds the history with the transaction.
        ensures ok { IfOk result (λ s. ForSome (H.disk host.old) (λ d. (e : Disk) × (H.disk host.new ≡ Some e) × IsSettled e × (e.second ≡ d.second)
            × StandsForNext (with_transaction changes.now) self d s e)) }
        ensures moments { ForSome (H.disk host.old) (λ d. LeavesOnly H.clock H.might host.old host.new
            (AtFirst d (H.printed host.old) (HoldsEither (with_transaction changes.now) d.first.reads))) }

        // Whatever is answered, the area holds the history from before, or the one with the transaction.
        ensures reads { ForSome (H.disk host.old) (λ d. (e : Disk) × (H.disk host.new ≡ Some e) × (e.second.reads ≡ d.second.reads)
            × HoldsEither (with_transaction changes.now) d.first.reads e.first.reads) }
        ensures full { IsErrAnd result (λ e. IsStoreFull e) ↔ (1073741824 < self.used + 6 + length (changes_bytes changes.now)) }
        ensures handed_back { IsErrAnd result (λ e. e ≡ KeepFault.DiskFault) ⊎ IfErr result (HandsBack self (6 + length (changes_bytes changes.now))) }
        ensures untouched { IsErrAnd result (λ e. e ≡ KeepFault.DiskFault) ⊎ IfErr result (λ _. host.new ≡ host.old) }
        ensures untold { H.disk host.old ≡ None → H.disk host.new ≡ None }
        ensures printed { H.printed host.new ≡ H.printed host.old }
        ensures cause { IsErrAnd result (λ e. e ≡ KeepFault.DiskFault) → Rose (H.disk_faults host.old) (H.disk_faults host.new) }
        ensures stays { IsErrAnd result (λ e. e ≡ KeepFault.DiskFault) ⊎ (H.disk_faults host.new ≡ H.disk_faults host.old) }
        ensures later { H.disk_faults host.old ≤ H.disk_faults host.new }
        ensures other { H.print_faults host.new ≡ H.print_faults host.old }
    {
        let size = changes_len(changes);
        if !self.fits(size) {
            return Err(self.full(size));
        }
        let Ok(payload) = payload_of_changes(alloc, changes) else {
            return Err(KeepFault::NoMemory(self));
        };
        let log = add_entry(self.log, host, 2, &payload)?;
        Ok(Store {
            log,
            transactions: self.transactions + 1,
        })
    }

    /// Keeps an ontology, as the first entry of a history. `Full` comes exactly where its entry has no room. At each moment
    /// of the call a stop leaves the empty history, or the one with the ontology; at `Ok` it leaves the latter.
    pub fn log_ontology<H: Host>(
        self,
        alloc: Global,
        host: &mut H,
        o: &Ontology,
    ) -> Result<Store, KeepFault>
        requires ready { ForSome (H.disk host.old) (λ d. StandsFor self d Empty) }

        ensures store { IfOk result (λ s. s ≡ record { used = self.used + 6 + length (ontology_bytes o.now); transactions = self.transactions }) }

        // What a read gives is the only image, and holds the history with the ontology.
        ensures ok { IfOk result (λ s. ForSome (H.disk host.old) (λ d. (e : Disk) × (H.disk host.new ≡ Some e) × IsSettled e × (e.second ≡ d.second)
            × StandsForNext (with_ontology o.now) self d s e)) }
        ensures moments { ForSome (H.disk host.old) (λ d. LeavesOnly H.clock H.might host.old host.new
            (AtFirst d (H.printed host.old) (HoldsEither (with_ontology o.now) d.first.reads))) }

        // Whatever is answered, the area holds the history from before, or the one with the ontology.
        ensures reads { ForSome (H.disk host.old) (λ d. (e : Disk) × (H.disk host.new ≡ Some e) × (e.second.reads ≡ d.second.reads)
            × HoldsEither (with_ontology o.now) d.first.reads e.first.reads) }
        ensures full { IsErrAnd result (λ e. IsStoreFull e) ↔ (1073741824 < self.used + 6 + length (ontology_bytes o.now)) }
        ensures handed_back { IsErrAnd result (λ e. e ≡ KeepFault.DiskFault) ⊎ IfErr result (HandsBack self (6 + length (ontology_bytes o.now))) }
        ensures untouched { IsErrAnd result (λ e. e ≡ KeepFault.DiskFault) ⊎ IfErr result (λ _. host.new ≡ host.old) }
        ensures untold { H.disk host.old ≡ None → H.disk host.new ≡ None }
        ensures printed { H.printed host.new ≡ H.printed host.old }
        ensures cause { IsErrAnd result (λ e. e ≡ KeepFault.DiskFault) → Rose (H.disk_faults host.old) (H.disk_faults host.new) }
        ensures stays { IsErrAnd result (λ e. e ≡ KeepFault.DiskFault) ⊎ (H.disk_faults host.new ≡ H.disk_faults host.old) }
        ensures later { H.disk_faults host.old ≤ H.disk_faults host.new }
        ensures other { H.print_faults host.new ≡ H.print_faults host.old }
    {
        let size = ontology_len(o);
        if !self.fits(size) {
            return Err(self.full(size));
        }
        let Ok(payload) = payload_of_ontology(alloc, o) else {
            return Err(KeepFault::NoMemory(self));
        };
        let log = add_entry(self.log, host, 1, &payload)?;
        Ok(Store {
            log,
            transactions: self.transactions,
        })
    }

    /// Says that an entry with a payload of so many bytes has no room.
    fn full(self, payload: u64) -> KeepFault
        requires { payload ≤ 8388608 }
        ensures full { IsStoreFull result }
        ensures says { HandsBack self (6 + payload) result }
    {
        let end = self.log.end();
        KeepFault::Full {
            store: self,
            end,
            size: 6 + payload,
        }
    }
}

/// The payload of a transaction.
fn payload_of_changes(alloc: Global, changes: &[NamedChange]) -> Result<Vec<u8>, AllocError>
    requires { length changes.now ≤ 10000 }
    ensures bytes { IfOk result (λ payload. payload.items ≡ changes_bytes changes.now) }
    ensures means { IfOk result (λ payload. changes_payload payload.items changes.now) }
{
    let mut payload = Vec::new(alloc);
    write_changes(changes, &mut payload)?;
    Ok(payload)
}

/// The payload of an ontology.
fn payload_of_ontology(alloc: Global, o: &Ontology) -> Result<Vec<u8>, AllocError>
    ensures bytes { IfOk result (λ payload. payload.items ≡ ontology_bytes o.now) }
    ensures means { IfOk result (λ payload. ontology_payload payload.items o.now) }
{
    let mut payload = Vec::new(alloc);
    write_ontology(o, &mut payload)?;
    Ok(payload)
}
