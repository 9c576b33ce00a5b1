// Each source and host through its public calls.
use super::*;
use crate::folder::print_all;
use std::cell::Cell;
use std::io::{Cursor, ErrorKind, Read};
use std::process::Abort;
use std::rt::{Env, Files};
use std::test::Fail;
use std::{env, fmt, fs, io};

#[test]
fn a_listed_read_fails_and_takes_nothing(rt: HostRuntime) -> Result<(), Fail> {
    let alloc = rt.alloc();
    let bytes = Bytes::from_slice(alloc, b"abcde")?;
    let fails = Calls::from_slice(alloc, &[2])?;
    let mut source = MemSource::new(bytes, fails);
    let mut buf = [0u8; 2];
    assert_eq!(rt; source.read(&mut buf), Ok(2));
    assert_eq!(rt; buf.as_slice(), b"ab".as_slice());
    assert_eq!(rt; source.read(&mut buf), Err(Failed));
    assert_eq!(rt; source.read(&mut buf), Ok(2));
    assert_eq!(rt; buf.as_slice(), b"cd".as_slice());
    assert_eq!(rt; source.read(&mut buf), Ok(1));
    assert_eq!(rt; buf[0], b'e');
    assert_eq!(rt; source.read(&mut buf), Ok(0));
    Ok(())
}

#[test]
fn an_even_source_gives_its_bytes_in_pieces(rt: HostRuntime) -> Result<(), Fail> {
    let mut source = EvenSource::new(Bytes::from_slice(rt.alloc(), b"abc")?);
    let mut byte = [0u8; 1];
    for want in *b"abc" {
        assert_eq!(rt; source.read(&mut byte), Ok(1));
        assert_eq!(rt; byte[0], want);
    }
    assert_eq!(rt; source.read(&mut byte), Ok(0));
    Ok(())
}

#[test]
fn a_reader_of_std_is_a_source(rt: HostRuntime) {
    let mut source = StdSource::new(Cursor::new(b"xyz".as_slice()));
    let mut buf = [0u8; 2];
    assert_eq!(rt; source.read(&mut buf), Ok(2));
    assert_eq!(rt; buf.as_slice(), b"xy".as_slice());
    assert_eq!(rt; source.read(&mut buf), Ok(1));
    assert_eq!(rt; buf[0], b'z');
    assert_eq!(rt; source.read(&mut buf), Ok(0));
}

// A reader of which each second read fails.
#[derive(Drop)]
struct Faulty {
    fails: bool,
}

impl Read for Faulty {
    fn read(&mut self, buf: &mut [u8]) -> io::Result<usize> {
        self.fails = !self.fails;
        if self.fails {
            return Err(io::Error::from(ErrorKind::Interrupted));
        }
        buf.fill(b'a');
        Ok(buf.len())
    }
}

#[test]
fn a_failed_read_of_a_reader_is_a_failure(rt: HostRuntime) {
    let mut source = StdSource::new(Faulty { fails: false });
    let mut buf = [0u8; 2];
    assert_eq!(rt; source.read(&mut buf), Err(Failed));
    assert_eq!(rt; source.read(&mut buf), Ok(2));
    assert_eq!(rt; buf.as_slice(), b"aa".as_slice());
    assert_eq!(rt; source.read(&mut buf), Err(Failed));
}

// The calls of any host, as a user makes them: within an area's length, and with what they ought to answer.
fn put<H: Host>(
    rt: &impl Abort,
    host: &mut H,
    area: u8,
    at: u64,
    bytes: &[u8],
) -> Result<(), Failed> {
    assert!(rt; area < 2);
    let len = host.len(area)?;
    assert!(rt; at <= len);
    host.write(area, at, bytes)
}

fn shorten<H: Host>(rt: &impl Abort, host: &mut H, area: u8, to: u64) -> Result<(), Failed> {
    assert!(rt; area < 2);
    let len = host.len(area)?;
    assert!(rt; to <= len);
    host.cut(area, to)
}

fn settle<H: Host>(host: &mut H) -> Result<(), Failed> {
    host.sync()
}

fn show<H: Host>(host: &mut H, bytes: &[u8]) -> Result<(), Failed> {
    host.print(bytes)
}

fn length<H: Host>(rt: &impl Abort, host: &mut H, area: u8) -> Result<u64, Failed> {
    assert!(rt; area < 2);
    host.len(area)
}

// Whether three bytes at most are read from this place, and they are these.
fn reads<H: Host>(
    rt: &impl Abort,
    host: &mut H,
    area: u8,
    at: u64,
    want: &[u8],
) -> Result<bool, Failed> {
    assert!(rt; area < 2);
    let mut buf = [0u8; 3];
    let count = host.read(area, at, &mut buf)?;
    assert!(rt; count <= 3);
    Ok(&buf[..count] == want)
}

// Whether the host keeps what it is given in area 0.
fn keeps_an_area<H: Host>(rt: &impl Abort, host: &mut H) -> Result<bool, Failed> {
    put(rt, host, 0, 0, b"abcd")?;
    put(rt, host, 0, 3, b"xyz")?;
    shorten(rt, host, 0, 5)?;
    settle(host)?;
    Ok(
        reads(rt, host, 0, 1, b"bcx")?
            && reads(rt, host, 0, 4, b"y")?
            && reads(rt, host, 1, 7, b"")?
            && length(rt, host, 0)? == 5,
    )
}

#[test]
fn an_even_host_keeps_what_it_is_given(rt: HostRuntime) {
    let mut host = EvenHost::new(rt.alloc());
    assert_eq!(rt; keeps_an_area(&rt, &mut host), Ok(true));
    assert_eq!(rt; show(&mut host, b"end 1\n"), Ok(()));
    assert_eq!(rt; host.printed().items(), b"end 1\n".as_slice());
    assert_eq!(rt; host.lacked(), 0);
}

#[test]
fn the_listed_calls_of_a_host_fail(rt: HostRuntime) -> Result<(), Fail> {
    let alloc = rt.alloc();
    let mut host = MemHost::new(alloc, Areas::new(alloc), Calls::from_slice(alloc, &[2, 4])?);
    assert_eq!(rt; show(&mut host, b"a"), Ok(()));
    assert_eq!(rt; show(&mut host, b"b"), Err(Failed));
    assert_eq!(rt; put(&rt, &mut host, 0, 0, b"c"), Err(Failed));
    assert_eq!(rt; length(&rt, &mut host, 0), Ok(0));
    assert_eq!(rt; keeps_an_area(&rt, &mut host), Ok(true));
    assert_eq!(rt; host.areas().first.items(), b"abcxy".as_slice());
    assert_eq!(rt; host.printed().items(), b"a".as_slice());
    assert_eq!(rt; host.calls(), 16);
    Ok(())
}

// In an image made by hand: the byte that was asked for.
const F: u8 = 255;

// Whether these are the bytes of an image made by hand, with this byte for each `F`.
fn is_image(bytes: &[u8], image: &[u8], fill: u8) -> bool {
    bytes.len() == image.len()
        && bytes.iter().zip(image).all(|(byte, want)| *byte
            == (if *want == F { fill } else { *want }))
}

// What a stop inside a call leaves, whatever the byte that is asked for.
fn expect_stop(
    rt: &impl Abort,
    host: &MemHost,
    call: u64,
    keep: u64,
    first: &[u8],
    second: &[u8],
    printed: &[u8],
) -> Result<(), Fail> {
    assert!(rt; 1 <= call && call <= host.calls());
    for fill in [0, 1, 7] {
        let (areas, shown) = host.stop(call, fill, keep)?;
        assert!(rt;
            is_image(areas.first.items(), first, fill),
            "area 0 at {call}, {fill}, {keep}"
        );
        assert!(rt;
            is_image(areas.second.items(), second, fill),
            "area 1 at {call}, {fill}, {keep}"
        );
        assert!(rt; shown.items() == printed, "printed at {call}");
    }
    Ok(())
}

// A stop inside a call, how many bytes more than at the last sync it keeps at most, and what it leaves of both areas and of
// what was printed.
type Stop = (u64, u64, &'static [u8], &'static [u8], &'static [u8]);

// Calls 1, 4 and 6 ask for a length.
const STOPS: [Stop; 13] = [
    (2, 0, &[1, 2, F], &[], b""),
    (2, 1, &[1, 2, F, F], &[], b""),
    (2, 1_000, &[1, 2, F, F], &[], b""),
    (3, 0, &[1, 2, F], &[], b""),
    (3, 1_000, &[1, 2, F, F], &[], b""),
    (5, 0, &[1, F, F, F], &[], b""),
    (5, 1, &[1, F, F, F], &[], b""),
    (7, 0, &[1, F, F, F], &[], b""),
    (7, 1, &[1, F, F, F], &[F], b""),
    (8, 1_000, &[1, F, F, F], &[F, F], b""),
    (9, 1, &[1, F, F, F], &[F], b"ab"),
    (10, 0, &[1], &[], b"ab"),
    (10, 1_000, &[1], &[], b"ab"),
];

// The calls whose stops are in the table: a write, a sync, a cut, a write that fails, a print and a sync.
fn ten_calls<H: Host>(rt: &impl Abort, host: &mut H) -> Result<(), Failed> {
    put(rt, host, 0, 2, &[8, 9])?;
    settle(host)?;
    shorten(rt, host, 0, 1)?;
    assert_eq!(rt; put(rt, host, 1, 0, &[5, 6]), Err(Failed));
    show(host, b"ab")?;
    settle(host)?;
    assert_eq!(rt; length(rt, host, 0), Ok(1));
    Ok(())
}

#[test]
fn a_stop_leaves_what_the_calls_before_it_may_have_left(rt: HostRuntime) -> Result<(), Fail> {
    let alloc = rt.alloc();
    let areas = Areas {
        first: Bytes::from_slice(alloc, &[1, 2, 3])?,
        second: Bytes::new(alloc),
    };
    let mut host = MemHost::new(alloc, areas, Calls::from_slice(alloc, &[7])?);
    assert_eq!(rt; ten_calls(&rt, &mut host), Ok(()));
    for (call, keep, first, second, printed) in STOPS {
        expect_stop(&rt, &host, call, keep, first, second, printed)?;
    }
    Ok(())
}

// A folder of this test's own, which is the current one from now on.
fn own_folder(rt: &(impl Env + Files + AllocGlobal), name: &str) -> Result<(), Fail> {
    let path = format!(in rt.alloc(); "host_io_test_{name}")?;
    if fs::exists(rt, path.as_str())? {
        fs::remove_dir_all(rt, path.as_str())?;
    }
    fs::create_dir(rt, path.as_str())?;
    env::set_current_dir(rt, path.as_str())?;
    Ok(())
}

#[test]
fn the_folder_keeps_what_was_written(rt: HostRuntime) -> Result<(), Fail> {
    own_folder(&rt, "kept")?;
    let mut host = FolderHost::new(&rt);
    assert_eq!(rt; length(&rt, &mut host, 0), Ok(0));
    assert_eq!(rt; settle(&mut host), Ok(()));
    assert!(rt; !fs::exists(&rt, "obda.0")?);
    assert_eq!(rt; keeps_an_area(&rt, &mut host), Ok(true));
    drop(host);
    assert!(rt; !fs::exists(&rt, "obda.1")?);
    let mut again = FolderHost::new(&rt);
    assert_eq!(rt; settle(&mut again), Ok(()));
    assert_eq!(rt; reads(&rt, &mut again, 0, 2, b"cxy"), Ok(true));
    assert_eq!(rt; show(&mut again, b"printed by a test\n"), Ok(()));
    Ok(())
}

#[test]
fn a_folder_in_the_place_of_a_file_is_a_fault(rt: HostRuntime) -> Result<(), Fail> {
    own_folder(&rt, "in_place")?;
    fs::create_dir(&rt, "obda.0")?;
    let mut host = FolderHost::new(&rt);
    assert_eq!(rt; length(&rt, &mut host, 0), Err(Failed));
    assert_eq!(rt; settle(&mut host), Err(Failed));
    assert_eq!(rt; put(&rt, &mut host, 1, 0, b"a"), Ok(()));
    Ok(())
}

// An output that takes so many bytes and refuses what is more.
#[derive(Drop)]
struct Output {
    room: Cell<usize>,
}

impl Print for Output {
    fn print<D: fmt::Display + Drop>(&self, _value: D) -> io::Result<()> {
        Err(io::Error::from(ErrorKind::Unsupported))
    }

    fn println<D: fmt::Display + Drop>(&self, _value: D) -> io::Result<()> {
        Err(io::Error::from(ErrorKind::Unsupported))
    }

    fn write_all(&self, bytes: &[u8]) -> io::Result<()> {
        match self.room.get().checked_sub(bytes.len()) {
            Some(room) => {
                self.room.set(room);
                Ok(())
            }
            None => Err(io::Error::from(ErrorKind::StorageFull)),
        }
    }
}

#[test]
fn what_the_output_refuses_is_not_printed(rt: HostRuntime) {
    let output = Output { room: Cell::new(5) };
    assert!(rt; print_all(&output, b"end ").is_ok());
    assert_eq!(rt; output.room.get(), 1);
    assert!(rt; print_all(&output, b"1\n").is_err());
    assert_eq!(rt; output.room.get(), 1);
    assert!(rt; print_all(&output, b"\n").is_ok());
    assert_eq!(rt; output.room.get(), 0);
}
