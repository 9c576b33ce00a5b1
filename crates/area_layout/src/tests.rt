use super::*;
use std::test::Fail;

#[test]
fn an_area_of_48_bytes(rt: HostRuntime) -> Result<(), Fail> {
    let area: &[u8] =
        b"\x01OBDA\x00\x00\x00\x01\x00\x00\x00\x00\x00\x00\x00\x01\x01\x01\x00\x00\x00\x08\x00\x01\x01A\x00\x00\x00\x00\x01\x02\x00\x00\x00\x0a\x00\x00\x00\x01\x01\x02\x01A\x01a\x00";
    assert_eq!(rt; area.len(), 48);
    let header = Header {
        version: 1,
        epoch: 1,
    };
    assert_eq!(rt; read_header(&area[1..]), Ok(header));
    assert_eq!(rt; write_header(&header).as_slice(), &area[1..17]);
    let ontology = EntryHead { kind: 1, len: 8 };
    assert_eq!(rt; read_head(&area[18..]), Ok(ontology));
    assert_eq!(rt; write_head(&ontology).as_slice(), &area[18..23]);
    let transaction = EntryHead { kind: 2, len: 10 };
    assert_eq!(rt; read_head(&area[32..]), Ok(transaction));
    assert_eq!(rt; write_head(&transaction).as_slice(), &area[32..37]);
    Ok(())
}

#[test]
fn numbers_at_their_limits(rt: HostRuntime) -> Result<(), Fail> {
    let header = Header {
        version: 0x0102_0304,
        epoch: 0x0506_0708_090a_0b0c,
    };
    assert_eq!(rt;
        write_header(&header).as_slice(),
        b"OBDA\x01\x02\x03\x04\x05\x06\x07\x08\x09\x0a\x0b\x0c".as_slice()
    );
    assert_eq!(rt;
        read_head(b"\x04\x00\x80\x00\x00"),
        Ok(EntryHead {
            kind: 4,
            len: 8_388_608
        })
    );
    assert_eq!(rt;
        read_head(b"\x04\x00\x80\x00\x01"),
        Err(LayoutError::Bad(1))
    );
    assert_eq!(rt;
        read_head(b"\x01\xff\xff\xff\xff"),
        Err(LayoutError::Bad(1))
    );
    assert_eq!(rt;
        read_head(b"\x00\xff\x00\x00\x00"),
        Err(LayoutError::Bad(0))
    );
    assert_eq!(rt;
        read_head(b"\x05\x00\x00\x00\x00"),
        Err(LayoutError::Bad(0))
    );
    Ok(())
}

#[test]
fn other_bytes_are_refused(rt: HostRuntime) -> Result<(), Fail> {
    assert_eq!(rt;
        read_header(b"OBDA\x00\x00\x00\x01\x00\x00\x00\x00\x00\x00\x00"),
        Err(LayoutError::Short(15))
    );
    assert_eq!(rt; read_header(b""), Err(LayoutError::Short(0)));
    assert_eq!(rt;
        read_header(b"obda\x00\x00\x00\x01\x00\x00\x00\x00\x00\x00\x00\x01"),
        Err(LayoutError::Bad(0))
    );
    assert_eq!(rt;
        read_header(b"ODBA\x00\x00\x00\x01\x00\x00\x00\x00\x00\x00\x00\x01"),
        Err(LayoutError::Bad(1))
    );
    assert_eq!(rt;
        read_header(b"OBAD\x00\x00\x00\x01\x00\x00\x00\x00\x00\x00\x00\x01"),
        Err(LayoutError::Bad(2))
    );
    assert_eq!(rt;
        read_header(b"OBDa\x00\x00\x00\x01\x00\x00\x00\x00\x00\x00\x00\x01"),
        Err(LayoutError::Bad(3))
    );
    assert_eq!(rt; read_head(b"\x00\x00\x00\x00"), Err(LayoutError::Short(4)));
    Ok(())
}
