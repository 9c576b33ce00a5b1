// Stops and failed calls, over a host in memory that tells nothing.
ghost use Rattle.std.specs.Prelude.{◌≡◌, ◌≤◌, None, length, vec_len, IfOk};

use crate::store::AREA_LIMIT;
use crate::untold::Untold;
use crate::{KeepFault, Store};
use gated_log::{Next, Reader};
use host_io::{Host, MemHost};
use std::alloc::{AllocError, Global};
use std::test::Fail;
use txn_codec::{CodecError, read_changes, read_ontology};

// An ontology with the concept A, and a transaction that adds A(a): a header, and entries whose gates stand at 17 and 31,
// before a closed gate at 47.
const AREA: [u8; 48] =
    *b"\x01OBDA\x00\x00\x00\x01\x00\x00\x00\x00\x00\x00\x00\x01\x01\x01\x00\x00\x00\x08\x00\x01\x01A\x00\x00\x00\x00\x01\x02\x00\x00\x00\x0a\x00\x00\x00\x01\x01\x02\x01A\x01a\x00";

fn example() -> &'static [u8]
    ensures { length result.now ≡ 48 }
{
    &AREA
}

// A store over a fresh area.
fn opened<H: Host>(host: &mut H, buf: &mut [u8]) -> Option<Store>
    requires untold { H.disk host.old ≡ None }
    requires room { 8388608 ≤ length buf.old }
    ensures { H.disk host.new ≡ None }
{
    let Ok(mut reader) = Reader::load(host, AREA_LIMIT) else {
        return None;
    };
    match reader.next(host, buf) {
        Ok(Next::Finished) => Some(Store::over(reader.into_log(), 0)),
        _ => None,
    }
}

// The store with the ontology of the example.
fn with_ontology<H: Host>(alloc: Global, store: Store, host: &mut H) -> Result<Store, KeepFault>
    requires { H.disk host.old ≡ None }
    ensures { H.disk host.new ≡ None }
{
    match read_ontology(alloc, &example()[23..31]) {
        Ok(ontology) => store.log_ontology(alloc, host, &ontology),
        Err(_) => Err(KeepFault::NoMemory(store)),
    }
}

// The store with the transaction of the example.
fn with_transaction<H: Host>(alloc: Global, store: Store, host: &mut H) -> Result<Store, KeepFault>
    requires { H.disk host.old ≡ None }
    ensures { H.disk host.new ≡ None }
{
    match read_changes(alloc, &example()[37..47]) {
        Ok(changes) if changes.items().len() <= 10000 => {
            store.log_transaction(alloc, host, changes.items())
        }
        _ => Err(KeepFault::NoMemory(store)),
    }
}

// What is kept of a fresh area, and how many calls there were behind the opening and behind the ontology.
#[derive(Drop)]
struct Kept {
    store: Option<Store>,
    opening: u64,
    ontology: u64,
}

fn calls_of(host: &Untold) -> u64 {
    host.host.calls()
}

fn keep_both(alloc: Global, host: &mut Untold, buf: &mut [u8]) -> Kept
    requires { 8388608 ≤ length buf.old }
{
    let store = opened(host, buf);
    let opening = calls_of(host);
    let store = match store {
        Some(store) => with_ontology(alloc, store, host).ok(),
        None => None,
    };
    let ontology = calls_of(host);
    let store = match store {
        Some(store) => with_transaction(alloc, store, host).ok(),
        None => None,
    };
    Kept {
        store,
        opening,
        ontology,
    }
}

// The place of the closed gate, behind at most two entries.
fn end_of<H: Host>(host: &mut H, buf: &mut [u8]) -> Option<u64>
    requires untold { H.disk host.old ≡ None }
    requires room { 8388608 ≤ length buf.old }
{
    let Ok(mut reader) = Reader::load(host, AREA_LIMIT) else {
        return None;
    };
    for _ in 0..3 {
        match reader.next(host, buf) {
            Ok(Next::Finished) => return Some(reader.into_log().end()),
            Ok(Next::Entry { .. }) => {}
            Err(_) => return None,
        }
    }
    None
}

// Whether the area may be left by a stop inside this call, or by its failure: with the entries from before, or with the
// one that is being kept as well.
fn is_left(
    alloc: Global,
    area: &[u8],
    call: u64,
    kept: &Kept,
    buf: &mut [u8],
) -> Result<bool, AllocError>
    requires { 8388608 ≤ length buf.old }
{
    let (before, after) = if call <= kept.opening {
        (17, 17)
    } else if call <= kept.ontology {
        (17, 31)
    } else {
        (31, 47)
    };
    let end = end_of(&mut Untold::new(alloc, area, &[])?, buf);
    Ok(end == Some(before) || end == Some(after))
}

// A fill for what was touched, and how many bytes of it are kept.
const STOPS: [(u8, u64); 5] = [(0, 0), (1, 1), (7, 1000), (1, 1000), (0, 1000)];

// Whether each kind of stop inside this call leaves what it may.
fn stops_well(
    alloc: Global,
    host: &MemHost,
    call: u64,
    kept: &Kept,
    buf: &mut [u8],
) -> Result<bool, AllocError>
    requires { 8388608 ≤ length buf.old }
{
    if call < 1 || host.calls() < call {
        return Ok(false);
    }
    for &(fill, keep) in &STOPS {
        let (areas, _) = host.stop(call, fill, keep)?;
        if !is_left(alloc, areas.first.items(), call, kept, buf)? {
            return Ok(false);
        }
    }
    Ok(true)
}

// Whether nothing is kept, and the area left as it may be, where this call fails.
fn fails_well(alloc: Global, call: u64, kept: &Kept, buf: &mut [u8]) -> Result<bool, AllocError>
    requires { 8388608 ≤ length buf.old }
{
    let mut host = Untold::new(alloc, b"\x01", &[call])?;
    let other = keep_both(alloc, &mut host, buf);
    Ok(other.store.is_none() && is_left(alloc, host.area(), call, kept, buf)?)
}

// A buffer for payloads.
fn buffer(alloc: Global) -> Result<Vec<u8>, AllocError>
    ensures { IfOk result (λ buf. 8388608 ≤ vec_len buf) }
{
    vec![in alloc; 0u8; 8388608]
}

#[test]
fn each_call_stopped_and_failed(rt: HostRuntime) -> Result<(), Fail> {
    let alloc = rt.alloc();
    let mut buf = buffer(alloc)?;
    let mut host = Untold::new(alloc, b"\x01", &[])?;
    let kept = keep_both(alloc, &mut host, &mut buf);
    assert_eq!(rt; host.area(), example());
    for call in 1..=calls_of(&host) {
        assert!(rt;
            stops_well(alloc, &host.host, call, &kept, &mut buf)?,
            "stopped in call {call}"
        );
        assert!(rt;
            fails_well(alloc, call, &kept, &mut buf)?,
            "call {call} failed"
        );
    }
    Ok(())
}

fn has_room(kept: &Kept, payload: u64) -> bool {
    match &kept.store {
        Some(store) => store.fits(payload),
        None => false,
    }
}

#[test]
fn fits_to_the_last_byte(rt: HostRuntime) -> Result<(), Fail> {
    let alloc = rt.alloc();
    let mut buf = buffer(alloc)?;
    let mut host = Untold::new(alloc, b"\x01", &[])?;
    let kept = keep_both(alloc, &mut host, &mut buf);
    assert!(rt; has_room(&kept, 1_073_741_771));
    assert!(rt; !has_room(&kept, 1_073_741_772));
    assert!(rt; !has_room(&kept, u64::MAX));
    Ok(())
}
