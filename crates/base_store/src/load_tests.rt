// The bytes of the format through the public calls, over hosts in memory.
use crate::{LoadFault, Store};
use host_io::{Areas, Bytes, Calls, Host, MemHost};
use std::alloc::{AllocError, Global};
use std::test::Fail;

// The ontology of one concept A, and a transaction that adds A(a).
const AREA: [u8; 48] =
    *b"\x01OBDA\x00\x00\x00\x01\x00\x00\x00\x00\x00\x00\x00\x01\x01\x01\x00\x00\x00\x08\x00\x01\x01A\x00\x00\x00\x00\x01\x02\x00\x00\x00\x0a\x00\x00\x00\x01\x01\x02\x01A\x01a\x00";

// The payloads of the ontology of A, and of transactions: A(a) comes and goes; it comes twice; it comes; it goes; B(a)
// comes.
const ONTOLOGY: &[u8] = b"\x00\x01\x01A\x00\x00\x00\x00";

const COMES_AND_GOES: &[u8] = b"\x00\x00\x00\x02\x01\x02\x01A\x01a\x00\x02\x01A\x01a";

const COMES_TWICE: &[u8] = b"\x00\x00\x00\x02\x01\x02\x01A\x01a\x01\x02\x01A\x01a";

const COMES: &[u8] = b"\x00\x00\x00\x01\x01\x02\x01A\x01a";

const GOES: &[u8] = b"\x00\x00\x00\x01\x00\x02\x01A\x01a";

const OF_ANOTHER: &[u8] = b"\x00\x00\x00\x01\x01\x02\x01B\x01a";

// What loading an area comes to: whether there is an ontology, and how many rows and transactions.
#[derive(Clone, Copy, Debug, PartialEq, Eq)]
enum Seen {
    History(bool, usize, u64),
    Damaged(u64),
    DiskFault,
}

fn load<H: Host>(alloc: Global, host: &mut H) -> Result<Seen, AllocError> {
    match Store::load(alloc, host) {
        Ok((_, loaded)) => Ok(Seen::History(
            loaded.ontology.is_some(),
            loaded.rows.items().len(),
            loaded.transactions,
        )),
        Err(LoadFault::Damaged { at, .. }) => Ok(Seen::Damaged(at)),
        Err(LoadFault::DiskFault) => Ok(Seen::DiskFault),
        Err(LoadFault::NoMemory) => Err(AllocError),
    }
}

// What loading an area with these bytes comes to.
fn loading(alloc: Global, bytes: &[u8]) -> Result<Seen, AllocError> {
    let mut areas = Areas::new(alloc);
    areas.first = Bytes::from_slice(alloc, bytes)?;
    load(alloc, &mut MemHost::new(alloc, areas, Calls::new(alloc)))
}

fn example() -> &'static [u8] {
    &AREA
}

// The first bytes of the area, so many.
fn front(len: usize) -> &'static [u8] {
    let area = example();
    &area[..len.min(area.len())]
}

// The area with the byte at a place set to 255.
fn with_255(alloc: Global, at: usize) -> Result<Vec<u8>, AllocError> {
    let mut bytes = Vec::from_slice(alloc, example())?;
    if let Some(byte) = bytes.get_mut(at) {
        *byte = 255;
    }
    Ok(bytes)
}

// Adds an entry of this kind with this payload.
fn push_entry(bytes: &mut Vec<u8>, kind: u8, payload: &[u8]) -> Result<(), AllocError> {
    let len = u32::try_from(payload.len()).unwrap_or(0);
    bytes.extend_from_slice(&[1, kind])?;
    bytes.extend_from_slice(&len.to_be_bytes())?;
    bytes.extend_from_slice(payload)
}

// An area of these entries, each by its kind and its payload.
fn area_of(alloc: Global, entries: &[(u8, &[u8])]) -> Result<Vec<u8>, AllocError> {
    let mut bytes = Vec::from_slice(alloc, front(17))?;
    for (kind, payload) in entries {
        push_entry(&mut bytes, *kind, payload)?;
    }
    bytes.push(0)?;
    Ok(bytes)
}

// A payload of so many changes, each of which adds A(a).
fn changes(alloc: Global, count: u32) -> Result<Vec<u8>, AllocError> {
    let mut bytes = Vec::from_slice(alloc, &count.to_be_bytes())?;
    for _ in 0..count {
        bytes.extend_from_slice(b"\x01\x02\x01A\x01a")?;
    }
    Ok(bytes)
}

// What a transaction with this payload comes to behind the ontology.
fn behind(alloc: Global, payload: &[u8]) -> Result<Seen, AllocError> {
    loading(alloc, &area_of(alloc, &[(1, ONTOLOGY), (2, payload)])?)
}

// What loading the area comes to with the byte at a place set to 255.
fn seen_with_255(at: usize) -> Seen {
    match at {
        0 | 17 => Seen::History(false, 0, 0),
        1..=16 => Seen::Damaged(0),
        18..=30 => Seen::Damaged(17),
        31 => Seen::History(true, 0, 0),
        32..=46 => Seen::Damaged(31),
        _ => Seen::History(true, 1, 1),
    }
}

// What loading its first bytes comes to, so many.
fn seen_of_front(len: usize) -> Seen {
    match len {
        0 | 1 => Seen::History(false, 0, 0),
        2..=16 => Seen::Damaged(0),
        17..=30 => Seen::Damaged(17),
        31..=46 => Seen::Damaged(31),
        47 => Seen::Damaged(47),
        _ => Seen::History(true, 1, 1),
    }
}

#[test]
fn bytes_and_lengths(rt: HostRuntime) -> Result<(), Fail> {
    let alloc = rt.alloc();
    for at in 0..=48 {
        let changed = with_255(alloc, at)?;
        assert_eq!(rt; loading(alloc, &changed)?, seen_with_255(at), "byte {at}");
        assert_eq!(rt; loading(alloc, front(at))?, seen_of_front(at), "{at} bytes");
    }
    Ok(())
}

#[test]
fn entries(rt: HostRuntime) -> Result<(), Fail> {
    let alloc = rt.alloc();
    assert_eq!(rt; behind(alloc, COMES_AND_GOES)?, Seen::History(true, 0, 1));
    assert_eq!(rt; behind(alloc, COMES_TWICE)?, Seen::History(true, 1, 1));
    assert_eq!(rt; behind(alloc, OF_ANOTHER)?, Seen::Damaged(31));
    assert_eq!(rt; behind(alloc, &changes(alloc, 10_001)?)?, Seen::Damaged(31));
    let ontology_twice = area_of(alloc, &[(1, ONTOLOGY), (1, ONTOLOGY)])?;
    assert_eq!(rt; loading(alloc, &ontology_twice)?, Seen::Damaged(31));
    let transaction_first = area_of(alloc, &[(2, COMES_TWICE)])?;
    assert_eq!(rt; loading(alloc, &transaction_first)?, Seen::Damaged(17));
    Ok(())
}

#[test]
fn a_row_that_comes_again(rt: HostRuntime) -> Result<(), Fail> {
    let alloc = rt.alloc();
    let again = [
        (1u8, ONTOLOGY),
        (2, COMES),
        (2, GOES),
        (2, COMES),
        (2, GOES),
    ];
    for (transactions, rows) in [(1usize, 1usize), (2, 0), (3, 1), (4, 0)] {
        let entries = again.len().min(transactions.saturating_add(1));
        let area = area_of(alloc, &again[..entries])?;
        assert_eq!(rt;
            loading(alloc, &area)?,
            Seen::History(true, rows, transactions as u64)
        );
    }
    Ok(())
}

#[test]
fn a_failed_call(rt: HostRuntime) -> Result<(), Fail> {
    let alloc = rt.alloc();
    let mut areas = Areas::new(alloc);
    areas.first = Bytes::from_slice(alloc, example())?;
    let mut host = MemHost::new(alloc, areas, Calls::from_slice(alloc, &[1])?);
    assert_eq!(rt; load(alloc, &mut host)?, Seen::DiskFault);
    assert_eq!(rt; load(alloc, &mut host)?, Seen::History(true, 1, 1));
    Ok(())
}

// The head of an area whose ontology has the role r alone.
fn with_role(alloc: Global) -> Result<Vec<u8>, AllocError> {
    let mut bytes = Vec::from_slice(alloc, front(17))?;
    push_entry(&mut bytes, 1, b"\x00\x00\x00\x01\x01r\x00\x00")?;
    Ok(bytes)
}

// Adds the name of the individual of this number, behind its length.
fn push_name(alloc: Global, bytes: &mut Vec<u8>, number: u32) -> Result<(), AllocError> {
    let name = format!(in alloc; "x{number}")?;
    bytes.push(u8::try_from(name.len()).unwrap_or(0))?;
    bytes.extend_from_slice(name.as_bytes())
}

// Adds a change by which r comes to lead, or no longer leads, from one individual to another.
fn push_change(
    alloc: Global,
    bytes: &mut Vec<u8>,
    add: u8,
    from: u32,
    to: u32,
) -> Result<(), AllocError> {
    bytes.extend_from_slice(&[add, 3, 1, b'r'])?;
    push_name(alloc, bytes, from)?;
    push_name(alloc, bytes, to)
}

// An area in which r leads from each of 1,000 individuals to each, by 100 transactions, before its last gate.
fn full_of_rows(alloc: Global) -> Result<Vec<u8>, AllocError> {
    let mut bytes = with_role(alloc)?;
    for number in 0..100u32 {
        let mut changes = Vec::from_slice(alloc, &10_000u32.to_be_bytes())?;
        for row in 0..10_000u32 {
            let from = (number * 10).wrapping_add(row / 1000);
            push_change(alloc, &mut changes, 1, from, row % 1000)?;
        }
        push_entry(&mut bytes, 2, &changes)?;
    }
    Ok(bytes)
}

// An area in which r leads from each of 65,536 individuals to itself, by eight transactions, before its last gate.
fn full_of_individuals(alloc: Global) -> Result<Vec<u8>, AllocError> {
    let mut bytes = with_role(alloc)?;
    for number in 0..8u32 {
        let mut changes = Vec::from_slice(alloc, &8192u32.to_be_bytes())?;
        for row in 0..8192u32 {
            let individual = (number * 8192).wrapping_add(row);
            push_change(alloc, &mut changes, 1, individual, individual)?;
        }
        push_entry(&mut bytes, 2, &changes)?;
    }
    Ok(bytes)
}

// What a last transaction comes to, behind which the gate is closed: a row that comes, and then one that goes if it is to.
fn with_last(
    alloc: Global,
    mut area: Vec<u8>,
    comes: (u32, u32),
    goes: Option<(u32, u32)>,
) -> Result<Seen, AllocError> {
    let count = if goes.is_some() { 2u32 } else { 1 };
    let mut changes = Vec::from_slice(alloc, &count.to_be_bytes())?;
    push_change(alloc, &mut changes, 1, comes.0, comes.1)?;
    if let Some((from, to)) = goes {
        push_change(alloc, &mut changes, 0, from, to)?;
    }
    push_entry(&mut area, 2, &changes)?;
    area.push(0)?;
    loading(alloc, &area)
}

#[test]
fn limits_are_judged_behind_a_transaction(rt: HostRuntime) -> Result<(), Fail> {
    let alloc = rt.alloc();
    let area = full_of_rows(alloc)?;
    let gate = area.len() as u64;
    let more = with_last(alloc, area.clone()?, (0, 1000), None)?;
    assert_eq!(rt; more, Seen::Damaged(gate));
    let exchanged = with_last(alloc, area, (0, 1000), Some((0, 0)))?;
    assert_eq!(rt; exchanged, Seen::History(true, 1_000_000, 101));
    let area = full_of_individuals(alloc)?;
    let gate = area.len() as u64;
    let more = with_last(alloc, area.clone()?, (65_536, 65_536), None)?;
    assert_eq!(rt; more, Seen::Damaged(gate));
    let exchanged = with_last(alloc, area, (65_536, 65_536), Some((0, 0)))?;
    assert_eq!(rt; exchanged, Seen::History(true, 65_536, 9));
    Ok(())
}
