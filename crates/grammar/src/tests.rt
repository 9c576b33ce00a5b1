use super::*;
use std::test::Fail;

#[test]
fn the_bytes_at_the_front_of_a_text(rt: HostRuntime) -> Result<(), Fail> {
    let (front, rest) = run(Kind::Naming, 4, b"a-1._");
    assert_eq!(rt; front, b"a-1.".as_slice());
    assert_eq!(rt; rest, b"_".as_slice());
    let (blanks, rest) = skip_blanks(b" \t x");
    assert_eq!(rt; blanks.len(), 3);
    assert_eq!(rt; next_is_byte(b'x', rest), true);
    assert_eq!(rt; next_is_kind(Kind::Angled, rest), true);
    Ok(())
}

#[test]
fn so_many_bytes_are_left_at_a_fault(rt: HostRuntime) -> Result<(), Fail> {
    match expect(b"And(", b"And") {
        Err(ReadError::Fault(left)) => assert_eq!(rt; left, 0),
        _ => assert_eq!(rt; 0, 1),
    }
    match expect(b"And(", b"Amid(") {
        Err(ReadError::Fault(left)) => assert_eq!(rt; left, 4),
        _ => assert_eq!(rt; 0, 1),
    }
    match some_blanks(b"ab") {
        Err(ReadError::Fault(left)) => assert_eq!(rt; left, 2),
        _ => assert_eq!(rt; 0, 1),
    }
    match some_of(Kind::Starting, 2, b"abc") {
        Ok((front, _)) => assert_eq!(rt; front, b"ab".as_slice()),
        Err(_) => assert_eq!(rt; 0, 1),
    }
    Ok(())
}
