// Documents and their replies.
use super::*;
use crate::documents::{clashes, inclusions, queries, refusals, texts, witnesses};
use host_io::{Areas, Bytes, Calls, Failed, Host, MemHost, MemSource, Source, StdSource};
use std::alloc::Global;
use std::io::{self, Read};
use std::process::Abort;
use std::test::Fail;

// The call over any source and host. It has no clause, so that what a test proves stays small.
fn run<S: Source, H: Host>(alloc: Global, source: &mut S, host: &mut H) -> DocumentEnding {
    answer(alloc, source, host)
}

// A run over a document, how it ends, and the last bytes that it prints.
fn ends(
    rt: &impl Abort,
    alloc: Global,
    document: Bytes,
    want: DocumentEnding,
    tail: &[u8],
) -> Result<(), Fail> {
    let mut source = MemSource::new(document, Calls::new(alloc));
    let mut host = MemHost::new(alloc, Areas::new(alloc), Calls::new(alloc));
    assert_eq!(rt; run(alloc, &mut source, &mut host), want);
    assert!(rt; host.printed().items().ends_with(tail));
    Ok(())
}

// A reader that gives so many bytes at a time.
#[derive(Drop)]
struct Pieces {
    bytes: &'static [u8],
    size: usize,
}

impl Read for Pieces {
    fn read(&mut self, buf: &mut [u8]) -> io::Result<usize> {
        let count = self.size.min(self.bytes.len()).min(buf.len());
        let (piece, rest) = self.bytes.split_at(count);
        buf[..count].copy_from_slice(piece);
        self.bytes = rest;
        Ok(count)
    }
}

// What comes of a document that is read in pieces of so many bytes: how it is refused, and what is printed.
fn outcome(alloc: Global, document: &'static str, size: usize) -> Result<Vec<u8>, Fail> {
    let bytes = document.as_bytes();
    let mut source = StdSource::new(Pieces { bytes, size });
    let mut host = MemHost::new(alloc, Areas::new(alloc), Calls::new(alloc));
    let mut outcome = match run(alloc, &mut source, &mut host) {
        DocumentEnding::Done => Vec::new(alloc),
        DocumentEnding::Refused { code, line } => {
            format!(in alloc; "refused {code} {line}\n")?
                .as_bytes()
                .to_vec(alloc)?
        }
        ending => format!(in alloc; "{ending:?}\n")?.as_bytes().to_vec(alloc)?,
    };
    outcome.extend_from_slice(host.printed().items())?;
    Ok(outcome)
}

// Tries each case of the text, and answers how many there are.
fn try_all(rt: &impl Abort, alloc: Global, text: &'static str) -> Result<usize, Fail> {
    let mut rest = text;
    for count in 0..text.len() {
        let Some((case, more)) = rest.split_once("----\n") else {
            return Ok(count);
        };
        assert!(rt; is_met(alloc, case)?, "{case}");
        rest = more;
    }
    Ok(0)
}

// Whether the case comes out as it says, in whatever pieces its document is read.
fn is_met(alloc: Global, case: &'static str) -> Result<bool, Fail> {
    let Some((document, want)) = case.split_once("=> ") else {
        return Ok(false);
    };
    for size in [1, 2, 4095] {
        if outcome(alloc, document, size)?.as_slice() != want.as_bytes() {
            return Ok(false);
        }
    }
    Ok(true)
}

#[test]
fn documents_have_their_replies(rt: HostRuntime) -> Result<(), Fail> {
    let alloc = rt.alloc();
    assert_eq!(rt; try_all(&rt, alloc, inclusions())?, 12);
    assert_eq!(rt; try_all(&rt, alloc, queries())?, 10);
    assert_eq!(rt; try_all(&rt, alloc, witnesses())?, 6);
    assert_eq!(rt; try_all(&rt, alloc, clashes())?, 13);
    assert_eq!(rt; try_all(&rt, alloc, refusals())?, 17);
    assert_eq!(rt; try_all(&rt, alloc, texts())?, 7);
    Ok(())
}

fn staff() -> &'static str {
    "axiom SubClassOf(Prof Staff)\nfact Prof ann\nask q(?x) :- Staff(?x)\n"
}

#[test]
fn the_first_fault_ends_the_run(rt: HostRuntime) -> Result<(), Fail> {
    let alloc = rt.alloc();
    let document = Bytes::from_slice(alloc, staff().as_bytes())?;
    let mut source = MemSource::new(document, Calls::from_slice(alloc, &[1])?);
    let mut host = MemHost::new(alloc, Areas::new(alloc), Calls::new(alloc));
    assert_eq!(rt;
        run(alloc, &mut source, &mut host),
        DocumentEnding::ReadFault
    );
    assert_eq!(rt; host.calls(), 0);
    let document = Bytes::from_slice(alloc, staff().as_bytes())?;
    let mut source = MemSource::new(document, Calls::new(alloc));
    let mut host = MemHost::new(alloc, Areas::new(alloc), Calls::from_slice(alloc, &[1])?);
    assert_eq!(rt;
        run(alloc, &mut source, &mut host),
        DocumentEnding::PrintFault
    );
    assert_eq!(rt; host.printed().items(), b"".as_slice());
    assert_eq!(rt; host.lacked(), 0);
    Ok(())
}

// So many bytes of comment lines, all but the last of 4,096 bytes with their ends.
fn comments(alloc: Global, length: u64) -> Result<Bytes, Fail> {
    let mut bytes = Bytes::new(alloc);
    for i in 0..length {
        bytes.push(if i % 4096 == 4095 { b'\n' } else { b'#' })?;
    }
    Ok(bytes)
}

// A document whose first line is a comment of so many bytes.
fn behind_a_comment(alloc: Global, length: usize) -> Result<Bytes, Fail> {
    let mut bytes = Bytes::new(alloc);
    for _ in 0..length {
        bytes.push(b'#')?;
    }
    for byte in b"\r\naxiom SubClassOf(A B)\nask q(?x) :- B(?x)\n" {
        bytes.push(*byte)?;
    }
    Ok(bytes)
}

#[test]
fn lines_and_inputs_have_their_limits(rt: HostRuntime) -> Result<(), Fail> {
    let alloc = rt.alloc();
    let too_long = DocumentEnding::Refused { code: 2, line: 1 };
    for (length, want) in [
        (4095, DocumentEnding::Done),
        (4096, DocumentEnding::Done),
        (4097, too_long),
        (70_000, too_long),
    ] {
        ends(&rt, alloc, behind_a_comment(alloc, length)?, want, b"")?;
    }
    let unasked = DocumentEnding::Refused {
        code: 1,
        line: 16_385,
    };
    ends(&rt, alloc, comments(alloc, 67_108_864)?, unasked, b"")?;
    ends(
        &rt,
        alloc,
        comments(alloc, 67_108_865)?,
        DocumentEnding::InputTooLarge,
        b"",
    )
}

// A document with so many individuals, of which the first one has a fact more.
fn individuals(alloc: Global, count: u32) -> Result<Bytes, Fail> {
    let mut text = b"axiom SubClassOf(A B)\n".to_vec(alloc)?;
    for i in 0..count {
        text.extend_from_slice(format!(in alloc; "fact A x{i}\n")?.as_bytes())?;
    }
    text.extend_from_slice(b"fact B x0\nask q(?x) :- B(?x)\n")?;
    Ok(Bytes::from_slice(alloc, &text)?)
}

// A document with so many rows of a role.
fn edges(alloc: Global, count: u32) -> Result<Bytes, Fail> {
    let mut text = b"axiom Property(r)\n".to_vec(alloc)?;
    for i in 0..count {
        text.extend_from_slice(format!(in alloc;
            "fact r x{} y{}\n",
            i % 1000,
            i / 1000
        )?.as_bytes())?;
    }
    text.extend_from_slice(b"fact r x0 y0\nask q(?x) :- r(x7,?x), r(x8,?x)\n")?;
    Ok(Bytes::from_slice(alloc, &text)?)
}

// A document of so many axioms, each with a concept of its own.
fn concepts(alloc: Global, count: u32) -> Result<Bytes, Fail> {
    let mut text = b"# concepts\n".to_vec(alloc)?;
    for i in 0..count {
        text.extend_from_slice(format!(in alloc; "axiom Class(C{i})\n")?.as_bytes())?;
    }
    text.extend_from_slice(b"fact C511 x\nask q(?x) :- C511(?x)\n")?;
    Ok(Bytes::from_slice(alloc, &text)?)
}

#[test]
fn bases_have_their_limits(rt: HostRuntime) -> Result<(), Fail> {
    let alloc = rt.alloc();
    let refused = |code: u8, line: u64| DocumentEnding::Refused { code, line };
    ends(
        &rt,
        alloc,
        individuals(alloc, 65_536)?,
        DocumentEnding::Done,
        b"end 65536\n",
    )?;
    ends(
        &rt,
        alloc,
        individuals(alloc, 65_537)?,
        refused(11, 65_538),
        b"",
    )?;
    ends(
        &rt,
        alloc,
        edges(alloc, 1_000_000)?,
        DocumentEnding::Done,
        b"end 1000\n",
    )?;
    ends(
        &rt,
        alloc,
        edges(alloc, 1_000_001)?,
        refused(11, 1_000_002),
        b"",
    )?;
    ends(
        &rt,
        alloc,
        concepts(alloc, 512)?,
        DocumentEnding::Done,
        b"answer x\nend 1\n",
    )?;
    ends(&rt, alloc, concepts(alloc, 513)?, refused(5, 514), b"")
}
