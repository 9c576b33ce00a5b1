//! Bytes beside what the format says of them.

use super::*;
use std::alloc::{AllocError, Global};
use std::test::Fail;

/// What is compared of an answer.
#[derive(Clone, Copy, Debug, PartialEq, Eq)]
enum Seen {
    Read,
    Bad(u64),
}

/// What reading gives; changes that are read have to be written as the same bytes.
fn changes(alloc: Global, bytes: &[u8]) -> Result<Seen, AllocError> {
    match read_changes(alloc, bytes) {
        Ok(changes) => {
            let mut out = Vec::new(alloc);
            if changes.items().len() > 4_000_000 {
                return Ok(Seen::Bad(0));
            }
            write_changes(changes.items(), &mut out)?;
            if out.as_slice() == bytes && changes_len(changes.items()) == bytes.len() as u64 {
                Ok(Seen::Read)
            } else {
                Ok(Seen::Bad(0))
            }
        }
        Err(CodecError::Bad(at)) => Ok(Seen::Bad(at)),
        Err(CodecError::NoMemory) => Err(AllocError),
    }
}

/// What reading them one at a time gives; the changes that are handed out have to be written as the same bytes.
fn one_by_one(alloc: Global, bytes: &[u8]) -> Result<Seen, AllocError> {
    match ChangeReader::new(bytes) {
        Ok(reader) => {
            let mut out = Vec::from_slice(alloc, &reader.left().to_be_bytes())?;
            for change in reader {
                put_view(&change, &mut out)?;
            }
            if out.as_slice() == bytes {
                Ok(Seen::Read)
            } else {
                Ok(Seen::Bad(0))
            }
        }
        Err(CodecError::Bad(at)) => Ok(Seen::Bad(at)),
        Err(CodecError::NoMemory) => Err(AllocError),
    }
}

fn put_view(change: &ChangeView<'_>, out: &mut Vec<u8>) -> Result<(), AllocError> {
    out.push(change.add as u8)?;
    match &change.row {
        RowView::Concept {
            concept,
            individual,
        } => {
            out.push(2)?;
            put_slice(concept, out)?;
            put_slice(individual, out)
        }
        RowView::Role { role, from, to } => {
            out.push(3)?;
            put_slice(role, out)?;
            put_slice(from, out)?;
            put_slice(to, out)
        }
    }
}

fn put_slice(name: &NameSlice<'_>, out: &mut Vec<u8>) -> Result<(), AllocError> {
    out.push(u8::try_from(name.bytes().len()).unwrap_or(0))?;
    out.extend_from_slice(name.bytes())
}

/// The same of ontologies.
fn ontology(alloc: Global, bytes: &[u8]) -> Result<Seen, AllocError> {
    match read_ontology(alloc, bytes) {
        Ok(ontology) => {
            let mut out = Vec::new(alloc);
            write_ontology(&ontology, &mut out)?;
            if out.as_slice() == bytes && ontology_len(&ontology) == bytes.len() as u64 {
                Ok(Seen::Read)
            } else {
                Ok(Seen::Bad(0))
            }
        }
        Err(CodecError::Bad(at)) => Ok(Seen::Bad(at)),
        Err(CodecError::NoMemory) => Err(AllocError),
    }
}

/// The bytes with 255 at this place.
fn spoiled(alloc: Global, bytes: &[u8], at: usize) -> Result<Vec<u8>, AllocError> {
    let mut out = Vec::new(alloc);
    for (i, byte) in bytes.iter().enumerate() {
        out.push(if i == at { 255 } else { *byte })?;
    }
    Ok(out)
}

#[test]
fn each_byte_of_the_examples(rt: HostRuntime) -> Result<(), Fail> {
    let payload: [u8; 10] = [0, 0, 0, 1, 1, 2, 1, b'A', 1, b'a'];
    assert_eq!(rt; changes(rt.alloc(), &payload)?, Seen::Read);
    let places: [u64; 10] = [10, 10, 10, 10, 4, 5, 8, 7, 10, 9];
    for at in 0..10 {
        let other = spoiled(rt.alloc(), &payload, at)?;
        assert_eq!(rt;
            changes(rt.alloc(), &other)?,
            Seen::Bad(places[at]),
            "at {at}"
        );
        assert_eq!(rt; changes(rt.alloc(), &payload[..at])?, Seen::Bad(at as u64));
        assert_eq!(rt;
            one_by_one(rt.alloc(), &other)?,
            Seen::Bad(places[at]),
            "at {at}"
        );
        assert_eq!(rt;
            one_by_one(rt.alloc(), &payload[..at])?,
            Seen::Bad(at as u64)
        );
    }
    let payload: [u8; 8] = [0, 1, 1, b'A', 0, 0, 0, 0];
    assert_eq!(rt; ontology(rt.alloc(), &payload)?, Seen::Read);
    let places: [u64; 8] = [0, 4, 4, 3, 4, 6, 6, 8];
    for at in 0..8 {
        let other = spoiled(rt.alloc(), &payload, at)?;
        assert_eq!(rt;
            ontology(rt.alloc(), &other)?,
            Seen::Bad(places[at]),
            "at {at}"
        );
        assert_eq!(rt; ontology(rt.alloc(), &payload[..at])?, Seen::Bad(at as u64));
    }
    Ok(())
}

#[test]
fn changes_and_their_faults(rt: HostRuntime) -> Result<(), Fail> {
    let table: [(&[u8], Seen); 20] = [
        (b"\0\0\0\0", Seen::Read),
        (b"\0\0\0\x01\x01\x02\x01A\x01a\0", Seen::Bad(10)),
        (
            b"\0\0\0\x02\x01\x02\x01A\x01a\0\x03\x01R\x01a\x03<b>",
            Seen::Read,
        ),
        (b"\0\0\0\x01\x02\x02\x01A\x01a", Seen::Bad(4)),
        (b"\0\0\0\x01\x01\x00\x01A\x01a", Seen::Bad(5)),
        (b"\0\0\0\x01\x01\x01\x01A\x01a", Seen::Bad(5)),
        (b"\0\0\0\x01\x01\x04\x01A\x01a", Seen::Bad(5)),
        (b"\0\0\0\x01\x01\x05\x01A\x01a", Seen::Bad(5)),
        (b"\0\0\0\x01\x01\x02\x00\x01a", Seen::Bad(6)),
        (b"\0\0\0\x01\x01\x02\x03And\x01a", Seen::Bad(9)),
        (b"\0\0\0\x01\x01\x02\x04Andy\x01a", Seen::Read),
        (b"\0\0\0\x01\x01\x02\x03Inv\x01a", Seen::Bad(9)),
        (b"\0\0\0\x01\x01\x02\x04Some\x01a", Seen::Bad(10)),
        (b"\0\0\0\x01\x01\x02\x07nothing\x01a", Seen::Bad(13)),
        (b"\0\0\0\x01\x01\x02\x04<\xc3\xa9>\x01a", Seen::Read),
        (b"\0\0\0\x01\x01\x02\x02<>\x01a", Seen::Bad(7)),
        (b"\0\0\0\x01\x01\x02\x03<>>\x01a", Seen::Bad(8)),
        (b"\0\0\0\x01\x01\x02\x04<a>b\x01a", Seen::Bad(9)),
        (b"\0\0\0\x01\x01\x02\x03<ab\x01a", Seen::Bad(9)),
        (b"\0\0\0\x01\x01\x02\x021A\x01a", Seen::Bad(7)),
    ];
    for (bytes, seen) in table {
        assert_eq!(rt; changes(rt.alloc(), bytes)?, seen, "at {bytes:?}");
        assert_eq!(rt; one_by_one(rt.alloc(), bytes)?, seen, "at {bytes:?}");
    }
    Ok(())
}

#[test]
fn ontologies_and_their_faults(rt: HostRuntime) -> Result<(), Fail> {
    let table: [(&[u8], Seen); 17] = [
        (b"\0\0\0\0\0\0", Seen::Read),
        (b"\0\0\0\0\0\0\0", Seen::Bad(6)),
        (b"\0\x01\x01A\0\x01\x01A\0\0", Seen::Read),
        (b"\0\x02\x01A\x01A\0\0\0\0", Seen::Bad(5)),
        (b"\0\x02\x01A\x01A\0\0\0\0\xff", Seen::Bad(5)),
        (b"\0\0\0\x02\x01A\x01A\0\0", Seen::Bad(7)),
        (b"\0\x01\x01A\0\0\0\x01\x01\x01\0\0\0\0\0", Seen::Read),
        (b"\0\x01\x01A\0\0\0\x01\x01\x01\0\x01\0\0\0", Seen::Bad(10)),
        (b"\0\x01\x01A\0\0\0\x01\x01\x02\0\0\0\0\0", Seen::Bad(10)),
        (
            b"\0\x01\x01A\0\x01\x01R\0\x01\x01\x02\0\0\x03\0\0",
            Seen::Read,
        ),
        (
            b"\0\x01\x01A\0\x01\x01R\0\x01\x01\x02\0\0\x03\x01\0",
            Seen::Bad(15),
        ),
        (b"\0\x01\x01A\0\0\0\x01\0\x01\0\0\0\0\0", Seen::Bad(8)),
        (b"\0\x01\x01A\0\0\0\x01\x09\x01\0\0\0\0\0", Seen::Bad(8)),
        (b"\0\x01\x01A\0\0\0\x01\x01\0\0\0\0\0\0", Seen::Bad(9)),
        (b"\0\x01\x01A\0\0\0\x01\x01\x04\0\0\0\0\0", Seen::Bad(9)),
        (b"\0\x01\x01A\0\0\0\x01\x01\x01\0\0\0\0\x01", Seen::Bad(14)),
        (b"\0\x01\x01A\0\0\0\x01\x01\x01\0\0\x04\0\0", Seen::Bad(12)),
    ];
    for (bytes, seen) in table {
        assert_eq!(rt; ontology(rt.alloc(), bytes)?, seen, "at {bytes:?}");
    }
    assert_eq!(rt; ontology(rt.alloc(), b"\x02\x01")?, Seen::Bad(1));
    assert_eq!(rt; ontology(rt.alloc(), b"\x02\0")?, Seen::Bad(2));
    assert_eq!(rt; ontology(rt.alloc(), b"\0\0\x01\x01")?, Seen::Bad(3));
    assert_eq!(rt; ontology(rt.alloc(), b"\0\0\0\0\x10\x01")?, Seen::Bad(5));
    Ok(())
}

/// An addition to a concept of so many bytes, of an individual of so many.
fn add_change(out: &mut Vec<u8>, concept: u8, individual: u8) -> Result<(), AllocError> {
    out.extend_from_slice(&[1, 2, concept])?;
    for _ in 0..concept {
        out.push(b'A')?;
    }
    out.push(individual)?;
    for _ in 0..individual {
        out.push(b'a')?;
    }
    Ok(())
}

#[test]
fn large_payloads_of_changes(rt: HostRuntime) -> Result<(), Fail> {
    let mut out = Vec::new(rt.alloc());
    out.extend_from_slice(&[0, 0, 0x27, 0x10])?;
    for _ in 0..10_000 {
        add_change(&mut out, 60, 60)?;
    }
    assert_eq!(rt; changes(rt.alloc(), out.as_slice())?, Seen::Read);
    // 16,320 changes of 514 bytes, and one of 124.
    let mut out = Vec::new(rt.alloc());
    out.extend_from_slice(&[0, 0, 0x3f, 0xc1])?;
    for _ in 0..16_320 {
        add_change(&mut out, 255, 255)?;
    }
    add_change(&mut out, 60, 60)?;
    assert_eq!(rt; out.len(), 8_388_608);
    assert_eq!(rt; changes(rt.alloc(), out.as_slice())?, Seen::Read);
    Ok(())
}

#[test]
fn the_changes_of_a_payload(rt: HostRuntime) -> Result<(), Fail> {
    let bytes = b"\0\0\0\x02\x01\x02\x01A\x01a\0\x03\x01R\x01a\x03<b>";
    let Ok(mut reader) = ChangeReader::new(bytes) else {
        return Err(Fail::new("no payload"));
    };
    assert_eq!(rt; reader.left(), 2);
    match reader.next() {
        Some(
            ChangeView {
                add: true,
                row: RowView::Concept {
                    concept,
                    individual,
                },
            },
        ) => {
            assert_eq!(rt; concept.bytes(), b"A".as_slice());
            assert_eq!(rt; individual.bytes(), b"a".as_slice());
        }
        _ => return Err(Fail::new("another change")),
    }
    assert_eq!(rt; reader.left(), 1);
    match reader.next() {
        Some(
            ChangeView {
                add: false,
                row: RowView::Role { role, from, to },
            },
        ) => {
            assert_eq!(rt; role.bytes(), b"R".as_slice());
            assert_eq!(rt; from.bytes(), b"a".as_slice());
            assert_eq!(rt; to.bytes(), b"<b>".as_slice());
        }
        _ => return Err(Fail::new("another change")),
    }
    assert_eq!(rt; reader.next().is_none(), true);
    assert_eq!(rt; reader.left(), 0);
    Ok(())
}

/// A payload of 8,388,608 bytes: 1,398,099 changes of 6 bytes, and one of 10.
fn most_changes(alloc: Global) -> Result<Vec<u8>, AllocError> {
    let mut hundred = Vec::new(alloc);
    for _ in 0..100 {
        hundred.extend_from_slice(b"\x01\x02\x01A\x01a")?;
    }
    let mut out = Vec::with_capacity(alloc, 8_388_608)?;
    out.extend_from_slice(&1_398_100u32.to_be_bytes())?;
    for _ in 0..13_980 {
        out.extend_from_slice(hundred.as_slice())?;
    }
    for _ in 0..99 {
        out.extend_from_slice(b"\x01\x02\x01A\x01a")?;
    }
    out.extend_from_slice(b"\x01\x02\x04Andy\x02bc")?;
    Ok(out)
}

#[test]
fn the_most_changes_that_a_payload_has_room_for(rt: HostRuntime) -> Result<(), Fail> {
    let bytes = most_changes(rt.alloc())?;
    assert_eq!(rt; bytes.len(), 8_388_608);
    let Ok(reader) = ChangeReader::new(bytes.as_slice()) else {
        return Err(Fail::new("no payload"));
    };
    let mut added = 0u32;
    for change in reader {
        if change.add {
            added = added.wrapping_add(1);
        }
    }
    assert_eq!(rt; added, 1_398_100);
    Ok(())
}

#[test]
fn a_count_of_changes_that_are_not_there(rt: HostRuntime) -> Result<(), Fail> {
    let more = b"\xff\xff\xff\xff\x01\x02\x01A\x01a";
    assert_eq!(rt; one_by_one(rt.alloc(), more)?, Seen::Bad(10));
    assert_eq!(rt; changes(rt.alloc(), more)?, Seen::Bad(10));
    let fewer = b"\0\0\0\0\x01\x02\x01A\x01a";
    assert_eq!(rt; one_by_one(rt.alloc(), fewer)?, Seen::Bad(4));
    assert_eq!(rt; changes(rt.alloc(), fewer)?, Seen::Bad(4));
    Ok(())
}

/// So many names of three bytes behind their number.
fn add_names(out: &mut Vec<u8>, count: u16) -> Result<(), AllocError> {
    out.extend_from_slice(&count.to_be_bytes())?;
    for i in 0..count {
        let digits: [u8; 4] = [
            3,
            b'A' + (i / 100 % 10) as u8,
            b'0' + (i / 10 % 10) as u8,
            b'0' + (i % 10) as u8,
        ];
        out.extend_from_slice(&digits)?;
    }
    Ok(())
}

#[test]
fn an_ontology_at_its_limits(rt: HostRuntime) -> Result<(), Fail> {
    let mut out = Vec::new(rt.alloc());
    add_names(&mut out, 512)?;
    add_names(&mut out, 256)?;
    out.extend_from_slice(&[0x10, 0])?;
    for _ in 0..4096 {
        out.push(8)?;
        for _ in 0..4 {
            out.extend_from_slice(&[1, 1, 0xff, 3, 0, 0xff])?;
        }
        out.extend_from_slice(&[2, 0, 0])?;
    }
    assert_eq!(rt; ontology(rt.alloc(), out.as_slice())?, Seen::Read);
    Ok(())
}

#[test]
fn the_number_of_changes_is_told(rt: HostRuntime) {
    assert_eq!(rt; count_of_changes(b"\x00\x01\x02\x03\x04"), Some(66_051));
    assert_eq!(rt; count_of_changes(b"\x00\x01\x02"), None);
}
