// Loading the history that an area keeps.
ghost use Rattle.std.specs.Prelude.{◌≡◌, ◌≤◌, ◌<◌, ◌⊎◌, None, Some, true, false, IfErr, IfOk, IsErrAnd, MatchBool, OnOk, length};
ghost use Rattle.std.specs.Option.{ForSome};
ghost use Rattle.host_io.specs.Causes.{Rose};
ghost use Rattle.host_io.specs.Disk.{Disk, IsSettled, settled};
ghost use Rattle.host_io.specs.Moments.{LeavesOnly};
ghost use Rattle.gated_log.specs.Entries.{IsFresh, within};
ghost use Rattle.gated_log.specs.State.{IsBegun};
ghost use Rattle.gated_log.specs.Stops.{AtFirst, AtOpening, IsOpening, LeavesImages, LeavesThen, WhileOpened};
ghost use Rattle.base_store.specs.Area.{IsDamaged, IsDamagedBehind};
ghost use Rattle.base_store.specs.Loaded.{LoadFaultSays, HasNumbersOf, IsInRange, LoadsFrom, load_fault};
ghost use Rattle.base_store.specs.Loading.{HasAllOf, HasReadSoFar, HasReadAll};

use crate::loading::Loading;
use crate::store::{AREA_LIMIT, Store};
use dl_base::{NameBook, Ontology, RowList};
use gated_log::{Log, LogFault, Next, Reader};
use host_io::Host;
use std::alloc::{AllocError, Global};

/// The most bytes that an entry's payload has.
const PAYLOAD: usize = 8_388_608;

/// What a history has.
#[derive(Drop)]
pub struct Loaded {
    /// Its ontology, once it has one.
    pub ontology: Option<Ontology>,
    /// A book that has each individual of the rows.
    pub individuals: NameBook,
    /// Its rows, each once, by the places of the ontology and of the book.
    pub rows: RowList,
    /// How many transactions it has.
    pub transactions: u64,
}

/// Why a history isn't loaded.
#[derive(Clone, Copy, Debug, PartialEq, Eq)]
pub enum LoadFault {
    /// The disk failed. The area is loaded again.
    DiskFault,
    /// The area keeps no history, and offends at this place, counted from 0.
    Damaged { area: u8, at: u64 },
    /// Memory ran out. The area is loaded again.
    NoMemory,
}

impl From<LogFault> for LoadFault {
    ghost from_gives = { λ f e. e ≡ load_fault f };

    fn from(fault: LogFault) -> Self {
        match fault {
            LogFault::DiskFault => LoadFault::DiskFault,
            LogFault::Damaged { area, at } => LoadFault::Damaged { area, at },
        }
    }
}

impl From<AllocError> for LoadFault {
    ghost use Rattle.base_store.specs.declared.load.LoadFault.TheVariants.{NoMemory};

    ghost from_gives = { λ _ e. e ≡ NoMemory };

    fn from(_: AllocError) -> Self {
        LoadFault::NoMemory
    }
}

impl Store {
    /// Puts both areas on the disk, and reads the history that the first one keeps; a fresh area is initialised. `Damaged`
    /// comes exactly where it keeps none, at the place where it offends; `DiskFault` only where the disk failed in this
    /// call; `NoMemory` may come at any area.
    pub fn load<H: Host>(alloc: Global, host: &mut H) -> Result<(Store, Loaded), LoadFault>
        // Over every host.
        ensures in_range { IfOk result (λ r. IsInRange r.1) }
        ensures numbers { IfOk result (λ r. HasNumbersOf r.0 r.1) }

        // The history that the area keeps is loaded, what a read gives is the only image, and the store stands for it.
        ensures ok { IfOk result (λ r. ForSome (H.disk host.old) (λ d. (e : Disk) × (H.disk host.new ≡ Some e) × (e.second.reads ≡ d.second.reads)
            × LoadsFrom d.first.reads e r.0 r.1)) }
        ensures damaged { IfErr result (λ f. ForSome (H.disk host.old) (λ d. LoadFaultSays (IsDamaged d.first.reads) f)) }

        // Over every host damage is that of the first area.
        ensures damaged_area { IfErr result (LoadFaultSays (λ at. Unit {0})) }
        ensures moments { ForSome (H.disk host.old) (λ d. LeavesOnly H.clock H.might host.old host.new (AtOpening (within 1073741824) d (H.printed host.old))) }

        // Until the sync a stop leaves an image of each area, and from then on what opening the first one leaves.
        ensures opening { ForSome (H.disk host.old) (λ d. LeavesThen H.clock H.might (LeavesImages d (H.printed host.old)) (WhileOpened (within 1073741824) d (H.printed host.old)) result host.old host.new) }

        // Whatever is answered, the second area reads as it did, and so does the first one, unless it was fresh.
        ensures reads { ForSome (H.disk host.old) (λ d. (e : Disk) × (H.disk host.new ≡ Some e) × (e.second.reads ≡ d.second.reads)
            × IsOpening (within 1073741824) d.first.reads e.first.reads) }

        // Nothing is written into an area that isn't fresh, whatever is answered.
        ensures unwritten { ForSome (H.disk host.old) (λ d. (IsFresh d.first.reads → ⊥) → (H.disk host.new ≡ Some d) ⊎ (H.disk host.new ≡ Some (settled d))) }
        ensures untold { H.disk host.old ≡ None → H.disk host.new ≡ None }
        ensures printed { H.printed host.new ≡ H.printed host.old }
        ensures cause { IsErrAnd result (λ f. f ≡ LoadFault.DiskFault) → Rose (H.disk_faults host.old) (H.disk_faults host.new) }
        ensures stays { IsErrAnd result (λ f. f ≡ LoadFault.DiskFault) ⊎ (H.disk_faults host.new ≡ H.disk_faults host.old) }
        ensures later { H.disk_faults host.old ≤ H.disk_faults host.new }
        ensures other { H.print_faults host.new ≡ H.print_faults host.old }
    {
        let reader = Reader::load(host, AREA_LIMIT)?;
        let (log, loading) = read_all(alloc, host, reader)?;
        let store = Store::over(log, loading.transactions);
        let loaded = into_loaded(loading)?;
        Ok((store, loaded))
    }
}

/// What was kept while a log was read, with its rows as a list.
fn into_loaded(loading: Loading) -> Result<Loaded, AllocError>
    ensures { IfOk result (HasAllOf loading) }
{
    let Loading {
        ontology,
        individuals,
        rows,
        transactions,
    } = loading;
    Ok(Loaded {
        ontology,
        individuals,
        rows: rows.into_list()?,
        transactions,
    })
}

/// Reads all entries of a log that was opened, and answers what they come to.
fn read_all<H: Host>(
    alloc: Global,
    host: &mut H,
    reader: Reader,
) -> Result<(Log, Loading), LoadFault>
    requires start { reader ≡ record { gate = 17; last = 17; limit = 1073741824; finished = false } }
    requires ready { ForSome (H.disk host.old) (λ d. IsSettled d × IsBegun (within 1073741824) 17 d.first.reads) }

    ensures all { IfOk result (λ r. HasReadAll (H.disk host.new) r.0 r.1) }
    ensures damaged { IfErr result (λ f. ForSome (H.disk host.old) (λ d. LoadFaultSays (IsDamagedBehind d.first.reads) f)) }
    ensures damaged_area { IfErr result (LoadFaultSays (λ at. Unit {0})) }
    ensures moments { ForSome (H.disk host.old) (λ d. LeavesOnly H.clock H.might host.old host.new (AtFirst d (H.printed host.old) (λ c. c ≡ d.first.reads))) }
    ensures disk { H.disk host.new ≡ H.disk host.old }
    ensures printed { H.printed host.new ≡ H.printed host.old }
    ensures cause { IsErrAnd result (λ f. f ≡ LoadFault.DiskFault) → Rose (H.disk_faults host.old) (H.disk_faults host.new) }
    ensures stays { IsErrAnd result (λ f. f ≡ LoadFault.DiskFault) ⊎ (H.disk_faults host.new ≡ H.disk_faults host.old) }
    ensures later { H.disk_faults host.old ≤ H.disk_faults host.new }
    ensures other { H.print_faults host.new ≡ H.print_faults host.old }
{
    let mut reader = reader;
    let mut payload = buffer(alloc, PAYLOAD)?;
    let mut loading = Loading::new(alloc);
    read_each(alloc, host, &mut reader, &mut payload, &mut loading)?;
    Ok((reader.into_log(), loading))
}

/// A buffer of so many bytes.
fn buffer(alloc: Global, len: usize) -> Result<Vec<u8>, AllocError>
    ensures { IfOk result (λ buf. length buf.items ≡ len) }
{
    vec![in alloc; 0; len]
}

/// Reads each further entry and takes it.
fn read_each<H: Host>(
    alloc: Global,
    host: &mut H,
    reader: &mut Reader,
    payload: &mut [u8],
    loading: &mut Loading,
) -> Result<(), LoadFault>
    requires room { 8388608 ≤ length payload.old }
    requires read { HasReadSoFar (H.disk host.old) reader.old loading.old }

    ensures all { OnOk result ((reader.new.finished ≡ true) × HasReadAll (H.disk host.new) (record { end = reader.new.gate; limit = reader.new.limit }) loading.new) }
    ensures damaged { IfErr result (λ f. ForSome (H.disk host.old) (λ d. LoadFaultSays (IsDamagedBehind d.first.reads) f)) }
    ensures damaged_area { IfErr result (LoadFaultSays (λ at. Unit {0})) }
    ensures moments { ForSome (H.disk host.old) (λ d. LeavesOnly H.clock H.might host.old host.new (AtFirst d (H.printed host.old) (λ c. c ≡ d.first.reads))) }
    ensures disk { H.disk host.new ≡ H.disk host.old }
    ensures printed { H.printed host.new ≡ H.printed host.old }
    ensures cause { IsErrAnd result (λ f. f ≡ LoadFault.DiskFault) → Rose (H.disk_faults host.old) (H.disk_faults host.new) }
    ensures stays { IsErrAnd result (λ f. f ≡ LoadFault.DiskFault) ⊎ (H.disk_faults host.new ≡ H.disk_faults host.old) }
    ensures later { H.disk_faults host.old ≤ H.disk_faults host.new }
    ensures other { H.print_faults host.new ≡ H.print_faults host.old }
{
    while read_next(alloc, host, reader, payload, loading)? {}
    Ok(())
}

/// Reads the next entry and takes it, and answers whether there was one.
fn read_next<H: Host>(
    alloc: Global,
    host: &mut H,
    reader: &mut Reader,
    payload: &mut [u8],
    loading: &mut Loading,
) -> Result<bool, LoadFault>
    requires room { 8388608 ≤ length payload.old }
    requires read { HasReadSoFar (H.disk host.old) reader.old loading.old }

    ensures on { IfOk result (λ on. MatchBool on
        ((reader.old.gate < reader.new.gate) × HasReadSoFar (H.disk host.new) reader.new loading.new)
        ((reader.new.finished ≡ true) × HasReadAll (H.disk host.new) (record { end = reader.new.gate; limit = reader.new.limit }) loading.new)) }
    ensures damaged { IfErr result (λ f. ForSome (H.disk host.old) (λ d. LoadFaultSays (IsDamagedBehind d.first.reads) f)) }
    ensures damaged_area { IfErr result (LoadFaultSays (λ at. Unit {0})) }
    ensures moments { ForSome (H.disk host.old) (λ d. LeavesOnly H.clock H.might host.old host.new (AtFirst d (H.printed host.old) (λ c. c ≡ d.first.reads))) }
    ensures disk { H.disk host.new ≡ H.disk host.old }
    ensures printed { H.printed host.new ≡ H.printed host.old }
    ensures cause { IsErrAnd result (λ f. f ≡ LoadFault.DiskFault) → Rose (H.disk_faults host.old) (H.disk_faults host.new) }
    ensures stays { IsErrAnd result (λ f. f ≡ LoadFault.DiskFault) ⊎ (H.disk_faults host.new ≡ H.disk_faults host.old) }
    ensures later { H.disk_faults host.old ≤ H.disk_faults host.new }
    ensures other { H.print_faults host.new ≡ H.print_faults host.old }
{
    match reader.next(host, payload)? {
        Next::Finished => Ok(false),
        Next::Entry { kind, len } => {
            if loading.take(alloc, kind, &payload[..len as usize])? {
                Ok(true)
            } else {
                Err(LoadFault::Damaged {
                    area: 0,
                    at: reader.at(),
                })
            }
        }
    }
}
