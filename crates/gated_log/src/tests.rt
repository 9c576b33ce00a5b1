// The bytes of the format through the public calls, over hosts in memory.
ghost use Rattle.std.specs.Prelude.{◌≤◌, length, vec_len, IfOk};
ghost use Rattle.std.specs.Option.{ForSome};
ghost use Rattle.host_io.specs.Disk.{IsSettled};
ghost use Rattle.gated_log.specs.Entries.{within};
ghost use Rattle.gated_log.specs.State.{IsClosedAt};

use super::*;
use host_io::{Areas, Bytes, Calls, Host, MemHost};
use std::alloc::{AllocError, Global};
use std::test::Fail;

// An ontology and a transaction: a header, and entries whose gates stand at 17 and 31, before a closed gate at 47.
const AREA: [u8; 48] =
    *b"\x01OBDA\x00\x00\x00\x01\x00\x00\x00\x00\x00\x00\x00\x01\x01\x01\x00\x00\x00\x08\x00\x01\x01A\x00\x00\x00\x00\x01\x02\x00\x00\x00\x0a\x00\x00\x00\x01\x01\x02\x01A\x01a\x00";

// 1 GiB.
const LIMIT: u64 = 1073741824;

// What reading an area comes to: so many entries, the last one's gate, and the closed gate.
#[derive(Clone, Copy, Debug, PartialEq, Eq)]
enum Loaded {
    Entries(u64, u64, u64),
    Damaged(u64),
    DiskFault,
    NoCall,
}

// What adding an entry behind those that are read comes to: the closed gate's place, or the end and the size.
#[derive(Clone, Copy, Debug, PartialEq, Eq)]
enum Added {
    Ended(u64),
    Full(u64, u64),
    DiskFault,
    NotRead,
}

// Reads each entry, and answers the log, how many there are, and the last one's gate.
fn read_all<H: Host>(host: &mut H, limit: u64, buf: &mut [u8]) -> Result<(Log, u64, u64), LogFault>
    requires room { 8388608 ≤ length buf.old }
    ensures { IfOk result (λ read. ForSome (H.disk host.new) (λ d. IsSettled d × IsClosedAt (within read.0.limit) read.0.end d.first.reads)) }
{
    let mut reader = Reader::load(host, limit)?;
    let mut count = 0u64;
    loop {
        match reader.next(host, buf)? {
            Next::Entry { .. } => count = count.saturating_add(1),
            Next::Finished => {
                let last = reader.at();
                return Ok((reader.into_log(), count, last));
            }
        }
    }
}

fn loaded_by<H: Host>(host: &mut H, limit: u64, buf: &mut [u8]) -> Loaded
    requires room { 8388608 ≤ length buf.old }
{
    match read_all(host, limit, buf) {
        Ok((log, count, last)) => Loaded::Entries(count, last, log.end()),
        Err(LogFault::Damaged { at, .. }) => Loaded::Damaged(at),
        Err(LogFault::DiskFault) => Loaded::DiskFault,
    }
}

// Reads each entry, and adds one of kind 2.
fn added_by<H: Host>(host: &mut H, payload: &[u8], buf: &mut [u8]) -> Added
    requires room { 8388608 ≤ length buf.old }
    requires size { length payload.now ≤ 8388608 }
{
    match read_all(host, 100, buf) {
        Ok((log, _, _)) => match log.append(host, 2, payload) {
            Ok(log) => Added::Ended(log.end()),
            Err(AppendFault::Full { end, size, .. }) => Added::Full(end, size),
            Err(AppendFault::DiskFault) => Added::DiskFault,
        },
        Err(_) => Added::NotRead,
    }
}

// What reading an area with these bytes comes to.
fn reading(alloc: Global, bytes: &[u8], limit: u64, buf: &mut [u8]) -> Result<Loaded, AllocError>
    requires room { 8388608 ≤ length buf.old }
{
    let mut areas = Areas::new(alloc);
    areas.first = Bytes::from_slice(alloc, bytes)?;
    Ok(loaded_by(
        &mut MemHost::new(alloc, areas, Calls::new(alloc)),
        limit,
        buf,
    ))
}

// What reading the area of 48 bytes comes to with the byte at a place set to 255.
fn with_255(at: usize) -> Loaded {
    match at {
        0 | 17 => Loaded::Entries(0, 17, 17),
        1..=16 => Loaded::Damaged(0),
        18..=22 => Loaded::Damaged(17),
        31 => Loaded::Entries(1, 17, 31),
        32..=36 => Loaded::Damaged(31),
        _ => Loaded::Entries(2, 31, 47),
    }
}

// What reading its first bytes comes to, so many.
fn cut_to(len: usize) -> Loaded {
    match len {
        0 | 1 => Loaded::Entries(0, 17, 17),
        2..=16 => Loaded::Damaged(0),
        17..=30 => Loaded::Damaged(17),
        31..=46 => Loaded::Damaged(31),
        47 => Loaded::Damaged(47),
        _ => Loaded::Entries(2, 31, 47),
    }
}

fn example() -> &'static [u8] {
    &AREA
}

// The first bytes of the area, so many.
fn front(len: usize) -> &'static [u8] {
    let area = example();
    &area[..len.min(area.len())]
}

// The area with the byte at a place set.
fn with_byte(alloc: Global, at: usize, byte: u8) -> Result<Vec<u8>, AllocError> {
    let mut bytes = Vec::from_slice(alloc, example())?;
    if let Some(place) = bytes.get_mut(at) {
        *place = byte;
    }
    Ok(bytes)
}

// The area with another closed gate at its end, and 100 bytes 255 behind it.
fn with_bytes_behind(alloc: Global) -> Result<Vec<u8>, AllocError> {
    let mut bytes = with_byte(alloc, 47, 7)?;
    for _ in 0..100 {
        bytes.push(255)?;
    }
    Ok(bytes)
}

// A buffer for payloads.
fn buffer(alloc: Global) -> Result<Vec<u8>, AllocError>
    ensures { IfOk result (λ buf. 8388608 ≤ vec_len buf) }
{
    vec![in alloc; 0u8; 8388608]
}

#[test]
fn each_byte_and_each_length(rt: HostRuntime) -> Result<(), Fail> {
    let alloc = rt.alloc();
    let mut buf = buffer(alloc)?;
    for at in 0..48 {
        let bytes = with_byte(alloc, at, 255)?;
        assert_eq!(rt;
            reading(alloc, &bytes, LIMIT, &mut buf)?,
            with_255(at),
            "byte {at}"
        );
        assert_eq!(rt;
            reading(alloc, front(at), LIMIT, &mut buf)?,
            cut_to(at),
            "{at} bytes"
        );
    }
    Ok(())
}

// A byte of the area, what it is set to, and what reading it then comes to.
const CHANGED: [(usize, u8, Loaded); 7] = [
    (8, 2, Loaded::Damaged(0)),
    (16, 2, Loaded::Damaged(0)),
    (18, 3, Loaded::Damaged(17)),
    (18, 4, Loaded::Damaged(17)),
    (32, 3, Loaded::Damaged(31)),
    (32, 4, Loaded::Damaged(31)),
    (47, 1, Loaded::Damaged(47)),
];

#[test]
fn what_is_no_version_or_kind_is_damaged(rt: HostRuntime) -> Result<(), Fail> {
    let alloc = rt.alloc();
    let mut buf = buffer(alloc)?;
    for &(at, byte, want) in &CHANGED {
        let bytes = with_byte(alloc, at, byte)?;
        assert_eq!(rt;
            reading(alloc, &bytes, LIMIT, &mut buf)?,
            want,
            "{byte} at {at}"
        );
    }
    Ok(())
}

#[test]
fn the_closed_gate_ends_the_entries_within_the_limit(rt: HostRuntime) -> Result<(), Fail> {
    let alloc = rt.alloc();
    let mut buf = buffer(alloc)?;
    let whole = Loaded::Entries(2, 31, 47);
    let bytes = with_bytes_behind(alloc)?;
    assert_eq!(rt; reading(alloc, &bytes, LIMIT, &mut buf)?, whole);
    assert_eq!(rt; reading(alloc, example(), 47, &mut buf)?, whole);
    assert_eq!(rt;
        reading(alloc, example(), 46, &mut buf)?,
        Loaded::Damaged(31)
    );
    Ok(())
}

// A fill for what was touched, and how many bytes of it are kept.
const STOPS: [(u8, u64); 5] = [(0, 0), (1, 1), (7, 1000), (1, 1000), (0, 1000)];

// What reading what a stop inside this call leaves comes to.
fn stopped(
    alloc: Global,
    host: &MemHost,
    call: u64,
    fill: u8,
    keep: u64,
    buf: &mut [u8],
) -> Result<Loaded, AllocError>
    requires room { 8388608 ≤ length buf.old }
{
    if call < 1 || host.calls() < call {
        return Ok(Loaded::NoCall);
    }
    let (areas, _) = host.stop(call, fill, keep)?;
    reading(alloc, areas.first.items(), LIMIT, buf)
}

// Whether what each kind of stop inside this call leaves comes to one of two things.
fn each_stop_leaves(
    alloc: Global,
    host: &MemHost,
    call: u64,
    either: [Loaded; 2],
    buf: &mut [u8],
) -> Result<bool, AllocError>
    requires room { 8388608 ≤ length buf.old }
{
    for &(fill, keep) in &STOPS {
        let read = stopped(alloc, host, call, fill, keep, buf)?;
        if read != either[0] && read != either[1] {
            return Ok(false);
        }
    }
    Ok(true)
}

// The host after the area with these bytes was read, and an entry added, while these calls fail.
fn after_adding(
    alloc: Global,
    bytes: &[u8],
    fails: &[u64],
    buf: &mut [u8],
) -> Result<MemHost, AllocError>
    requires room { 8388608 ≤ length buf.old }
{
    let mut areas = Areas::new(alloc);
    areas.first = Bytes::from_slice(alloc, bytes)?;
    let mut host = MemHost::new(alloc, areas, Calls::from_slice(alloc, fails)?);
    let _ = added_by(&mut host, &[1; 10], buf);
    Ok(host)
}

// What reading the area comes to after this call failed.
fn failed(alloc: Global, bytes: &[u8], call: u64, buf: &mut [u8]) -> Result<Loaded, AllocError>
    requires room { 8388608 ≤ length buf.old }
{
    let host = after_adding(alloc, bytes, &[call], buf)?;
    reading(alloc, host.areas().first.items(), LIMIT, buf)
}

fn calls_of(host: &MemHost) -> u64 {
    host.calls()
}

// Whether each call of reading an area and adding an entry may be stopped, and may fail, and leaves one of two things.
fn each_call_leaves(
    alloc: Global,
    bytes: &[u8],
    either: [Loaded; 2],
    buf: &mut [u8],
) -> Result<bool, AllocError>
    requires room { 8388608 ≤ length buf.old }
{
    let host = after_adding(alloc, bytes, &[], buf)?;
    for call in 1..=calls_of(&host) {
        if !each_stop_leaves(alloc, &host, call, either, buf)? {
            return Ok(false);
        }
        let read = failed(alloc, bytes, call, buf)?;
        if read != either[0] && read != either[1] {
            return Ok(false);
        }
    }
    Ok(true)
}

// Fresh areas.
const FRESH: [&[u8]; 4] = [b"", b"\x01", &[0; 40], &[7; 40]];

#[test]
fn each_call_stopped_and_failed(rt: HostRuntime) -> Result<(), Fail> {
    let alloc = rt.alloc();
    let mut buf = buffer(alloc)?;
    let longer = [Loaded::Entries(2, 31, 47), Loaded::Entries(3, 47, 63)];
    assert!(rt; each_call_leaves(alloc, example(), longer, &mut buf)?);
    let first = [Loaded::Entries(0, 17, 17), Loaded::Entries(1, 17, 33)];
    for bytes in FRESH {
        assert!(rt; each_call_leaves(alloc, bytes, first, &mut buf)?);
    }
    Ok(())
}

// What the area's bytes are after an entry was added.
fn after_one(alloc: Global, bytes: &[u8], buf: &mut [u8]) -> Result<Vec<u8>, AllocError>
    requires room { 8388608 ≤ length buf.old }
{
    let host = after_adding(alloc, bytes, &[], buf)?;
    Vec::from_slice(alloc, host.areas().first.items())
}

// What adding an entry with 40 bytes to an area comes to, and whether the area is as it was.
fn adding_forty(alloc: Global, bytes: &[u8], buf: &mut [u8]) -> Result<(Added, bool), AllocError>
    requires room { 8388608 ≤ length buf.old }
{
    let mut areas = Areas::new(alloc);
    areas.first = Bytes::from_slice(alloc, bytes)?;
    let mut host = MemHost::new(alloc, areas, Calls::new(alloc));
    let added = added_by(&mut host, &[0; 40], buf);
    Ok((added, host.areas().first.items() == bytes))
}

#[test]
fn an_entry_is_added_within_the_limit(rt: HostRuntime) -> Result<(), Fail> {
    let alloc = rt.alloc();
    let mut buf = buffer(alloc)?;
    let bytes = after_one(alloc, example(), &mut buf)?;
    assert_eq!(rt; bytes.len(), 64);
    assert_eq!(rt;
        &bytes[47..],
        b"\x01\x02\x00\x00\x00\x0a\x01\x01\x01\x01\x01\x01\x01\x01\x01\x01\x00".as_slice()
    );
    assert_eq!(rt;
        adding_forty(alloc, &bytes, &mut buf)?,
        (Added::Full(63, 46), true)
    );
    let fresh = after_one(alloc, b"\x01", &mut buf)?;
    assert!(rt; fresh.starts_with(front(17)));
    Ok(())
}
