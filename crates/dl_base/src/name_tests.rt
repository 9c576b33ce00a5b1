//! Texts beside what the format of names says of them.

use super::*;
use std::alloc::{AllocError, Global};
use std::test::Fail;

/// The place at which the text is no name, or nothing where it is one.
fn place(alloc: Global, text: &[u8]) -> Result<Option<u64>, AllocError> {
    match Name::new(alloc, text) {
        Ok(_) => Ok(None),
        Err(NameError::Bad(at)) => Ok(Some(at)),
        Err(NameError::NoMemory) => Err(AllocError),
    }
}

/// Texts, each with the place at which it is no name, or nothing where it is one.
const TEXTS: [(&[u8], Option<u64>); 16] = [
    (b"Z9", None),
    (b"a-b.c_d", None),
    (b"nothings", None),
    (b"<And>", None),
    (b"<\xff\x80>", None),
    (b"", Some(0)),
    (b"nothing", Some(7)),
    (b"Some(", Some(4)),
    (b"1a", Some(0)),
    (b"?x", Some(0)),
    (b"a\xc3\xa9", Some(1)),
    (b"a<", Some(1)),
    (b"<>", Some(1)),
    (b"<a", Some(2)),
    (b"<a\x7fb>", Some(2)),
    (b"<a>b", Some(3)),
];

#[test]
fn names_and_the_places_of_their_faults(rt: HostRuntime) -> Result<(), Fail> {
    for (text, want) in TEXTS {
        assert_eq!(rt; place(rt.alloc(), text)?, want, "at {text:?}");
    }
    Ok(())
}

/// The text with so many letters between these.
fn filled(alloc: Global, front: &[u8], count: usize, back: &[u8]) -> Result<Vec<u8>, AllocError> {
    let mut text = Vec::from_slice(alloc, front)?;
    for _ in 0..count {
        text.push(b'a')?;
    }
    text.extend_from_slice(back)?;
    Ok(text)
}

/// A front, how many letters, and a back, and the place at which the whole is no name.
const LENGTHS: [(&[u8], usize, &[u8], Option<u64>); 8] = [
    (b"", 255, b"", None),
    (b"", 256, b"", Some(255)),
    (b"", 255, b" ", Some(255)),
    (b"", 300, b"", Some(255)),
    (b"<", 253, b">", None),
    (b"<", 254, b">", Some(254)),
    (b"<", 253, b"", Some(254)),
    (b"<", 253, b">>", Some(255)),
];

#[test]
fn names_have_255_bytes_at_most(rt: HostRuntime) -> Result<(), Fail> {
    for (front, count, back, want) in LENGTHS {
        let text = filled(rt.alloc(), front, count, back)?;
        assert_eq!(rt; place(rt.alloc(), text.as_slice())?, want);
    }
    Ok(())
}

#[test]
fn what_a_name_gives(rt: HostRuntime) -> Result<(), Fail> {
    let mut copies = Vec::new(rt.alloc());
    for text in [b"a".as_slice(), b"<a>", b"a0", b"B"] {
        match Name::new(rt.alloc(), text) {
            Ok(name) => copies.push(name.copy(rt.alloc())?)?,
            Err(_) => assert!(rt; false),
        }
    }
    copies.sort()?;
    for (name, text) in copies.iter().zip([b"<a>".as_slice(), b"B", b"a", b"a0"]) {
        assert_eq!(rt; name.bytes(), text);
    }
    Ok(())
}

#[test]
fn the_front_of_a_text(rt: HostRuntime) -> Result<(), Fail> {
    match read_name(rt.alloc(), b"<a>b") {
        Ok((name, rest)) => {
            assert_eq!(rt; name.bytes(), b"<a>".as_slice());
            assert_eq!(rt; rest, b"b".as_slice());
        }
        Err(_) => assert!(rt; false),
    }
    match read_variable(rt.alloc(), b"?x, ?y") {
        Ok((name, rest)) => {
            assert_eq!(rt; name.bytes(), b"x".as_slice());
            assert_eq!(rt; rest, b", ?y".as_slice());
        }
        Err(_) => assert!(rt; false),
    }
    match read_word(b"Some(R)") {
        Ok((word, rest)) => {
            assert_eq!(rt; is_reserved(word), true);
            assert_eq!(rt; rest, b"(R)".as_slice());
        }
        Err(_) => assert!(rt; false),
    }
    match read_word(b"Thing") {
        Ok((word, _)) => {
            if !is_reserved(word) {
                let name = Name::from_word(rt.alloc(), word)?;
                assert_eq!(rt; name.bytes(), b"Thing".as_slice());
            }
        }
        Err(_) => assert!(rt; false),
    }
    Ok(())
}
