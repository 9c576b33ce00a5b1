// Command lines, and scripts with their replies.
use super::*;
use crate::scripts::{clashes, handles, refusals, sessions, tables, university};
use host_io::{Areas, Bytes, Calls, EvenHost, Failed, Host, MemHost, MemSource, Source, StdSource};
use std::alloc::{AllocError, Global};
use std::io::{self, Read};
use std::process::Abort;
use std::test::Fail;

// The words of the command line.
fn command_line(alloc: Global, words: &[&str]) -> Result<Vec<String>, Fail> {
    let mut line = Vec::new(alloc);
    for word in words {
        line.push(String::from_str(alloc, word)?)?;
    }
    Ok(line)
}

// The top call over any source and host. It has no clause, so that what a test proves stays small.
fn run<S: Source, H: Host>(
    alloc: Global,
    words: &Vec<String>,
    source: &mut S,
    host: &mut H,
) -> Status {
    serve(alloc, words, source, host)
}

// A run of the script over the host.
fn run_script<H: Host>(alloc: Global, script: &[u8], host: &mut H) -> Result<Status, Fail> {
    let words = command_line(alloc, &["run"])?;
    let mut source = MemSource::new(Bytes::from_slice(alloc, script)?, Calls::new(alloc));
    Ok(run(alloc, &words, &mut source, host))
}

// A host whose first area has these bytes, and whose call of that number fails.
fn host_with(alloc: Global, area: &[u8], fails: &[u64]) -> Result<MemHost, AllocError> {
    let mut areas = Areas::new(alloc);
    areas.first = Bytes::from_slice(alloc, area)?;
    Ok(MemHost::new(alloc, areas, Calls::from_slice(alloc, fails)?))
}

// Tries each case of the text, and answers how many there are.
fn try_all(rt: &impl Abort, alloc: Global, text: &'static str) -> Result<usize, Fail> {
    let mut rest = text;
    for count in 0..text.len() {
        let Some((case, more)) = rest.split_once("----\n") else {
            return Ok(count);
        };
        assert!(rt; is_met(alloc, case)?, "{case}");
        rest = more;
    }
    Ok(0)
}

// A reader that gives so many bytes at a time.
#[derive(Drop)]
struct Pieces {
    bytes: &'static [u8],
    size: usize,
}

impl Read for Pieces {
    fn read(&mut self, buf: &mut [u8]) -> io::Result<usize> {
        let count = self.size.min(self.bytes.len()).min(buf.len());
        let (piece, rest) = self.bytes.split_at(count);
        buf[..count].copy_from_slice(piece);
        self.bytes = rest;
        Ok(count)
    }
}

// Whether the script, which is read in pieces of so many bytes, has these replies.
fn has_replies(
    alloc: Global,
    script: &'static str,
    size: usize,
    want: &[u8],
) -> Result<bool, Fail> {
    let bytes = script.as_bytes();
    let words = command_line(alloc, &["run"])?;
    let mut source = StdSource::new(Pieces { bytes, size });
    let mut host = host_with(alloc, b"", &[])?;
    let status = run(alloc, &words, &mut source, &mut host);
    Ok(status == Status::Done && host.printed().items() == want)
}

// Whether the script has the replies that the case says, in whatever pieces it is read.
fn is_met(alloc: Global, case: &'static str) -> Result<bool, Fail> {
    let Some((script, want)) = case.split_once("=> ") else {
        return Ok(false);
    };
    for size in [1, 2, 4095] {
        if !has_replies(alloc, script, size, want.as_bytes())? {
            return Ok(false);
        }
    }
    Ok(true)
}

#[test]
fn scripts_have_their_replies(rt: HostRuntime) -> Result<(), Fail> {
    let alloc = rt.alloc();
    assert_eq!(rt; try_all(&rt, alloc, sessions())?, 6);
    assert_eq!(rt; try_all(&rt, alloc, refusals())?, 6);
    assert_eq!(rt; try_all(&rt, alloc, clashes())?, 2);
    assert_eq!(rt; try_all(&rt, alloc, handles())?, 3);
    assert_eq!(rt; try_all(&rt, alloc, tables())?, 2);
    assert_eq!(rt; try_all(&rt, alloc, university())?, 1);
    Ok(())
}

// How many bytes one read takes, eight at most.
fn bytes_left<S: Source>(source: &mut S) -> Result<usize, Failed> {
    let mut buf = [0u8; 8];
    source.read(&mut buf)
}

#[test]
fn other_words_touch_nothing(rt: HostRuntime) -> Result<(), Fail> {
    let alloc = rt.alloc();
    let lines: [&[&str]; 13] = [
        &[],
        &["a"],
        &["answers"],
        &["answer", "answer"],
        &["answer", "now"],
        &["answer", "run"],
        &["runs"],
        &["sample"],
        &["sample", "0"],
        &["sample", "01"],
        &["sample", "+1"],
        &["sample", "2001"],
        &["sample", "1", "1"],
    ];
    for line in lines {
        let words = command_line(alloc, line)?;
        let mut source = MemSource::new(Bytes::from_slice(alloc, b"rest")?, Calls::new(alloc));
        let mut host = host_with(alloc, b"", &[])?;
        assert_eq!(rt; run(alloc, &words, &mut source, &mut host), Status::Usage);
        assert_eq!(rt; host.calls(), 0);
        assert_eq!(rt; bytes_left(&mut source), Ok(4));
    }
    Ok(())
}

#[test]
fn a_document_is_answered(rt: HostRuntime) -> Result<(), Fail> {
    let alloc = rt.alloc();
    let words = command_line(alloc, &["answer"])?;
    let document = b"axiom SubClassOf(Prof Staff)\nfact Prof ann\nask q(?x) :- Staff(?x)\n";
    let mut source = MemSource::new(Bytes::from_slice(alloc, document)?, Calls::new(alloc));
    let mut host = host_with(alloc, b"", &[])?;
    assert_eq!(rt; run(alloc, &words, &mut source, &mut host), Status::Done);
    assert_eq!(rt; host.printed().items(), b"answer ann\nend 1\n".as_slice());
    assert_eq!(rt; host.calls(), 1);
    Ok(())
}

// A run of the sample of this size over the host.
fn run_sample<H: Host>(alloc: Global, size: &str, host: &mut H) -> Result<Status, Fail> {
    let words = command_line(alloc, &["sample", size])?;
    let mut source = MemSource::new(Bytes::from_slice(alloc, b"rest")?, Calls::new(alloc));
    let status = run(alloc, &words, &mut source, host);
    Ok(match bytes_left(&mut source) {
        Ok(4) => status,
        _ => Status::ReadFault,
    })
}

// The answers and bytes of the sample of 2,000 are those of a model in another language.
#[test]
fn a_sample_prints_its_line(rt: HostRuntime) -> Result<(), Fail> {
    let alloc = rt.alloc();
    let lines: [(&str, &str); 4] = [
        ("1", "sample 1 replies 8 answers 1 bytes 68\n"),
        ("4", "sample 4 replies 11 answers 8 bytes 153\n"),
        (
            "2000",
            "sample 2000 replies 2007 answers 4928 bytes 76043\n",
        ),
        (
            "2000",
            "sample 2000 replies 2007 answers 4928 bytes 76043\n",
        ),
    ];
    for (size, want) in lines {
        let mut host = host_with(alloc, b"", &[])?;
        assert_eq!(rt; run_sample(alloc, size, &mut host)?, Status::Done);
        assert_eq!(rt; host.printed().items(), want.as_bytes());
        assert_eq!(rt; host.calls(), 1);
    }
    let mut host = host_with(alloc, b"", &[1])?;
    assert_eq!(rt; run_sample(alloc, "1", &mut host)?, Status::PrintFault);
    Ok(())
}

// Two commits.
fn commits() -> &'static [u8] {
    b"ontology
SubClassOf(A Some(r))
end
begin 0
add 0 A a
commit 0
begin 0
add 0 A b
commit 0
"
}

// The replies to the two commits.
fn replies() -> &'static [u8] {
    b"ok ontology 1\nok\nok\nok 1 1 0\nok\nok\nok 2 1 0\n"
}

// How many commits are acknowledged in what was printed.
fn acknowledged(printed: &[u8]) -> u64 {
    let mut count: u64 = 0;
    for line in printed.split(|byte| *byte == b'\n') {
        if line.starts_with(b"ok 1 ") || line.starts_with(b"ok 2 ") {
            count = count.wrapping_add(1);
        }
    }
    count
}

// Whether a run of `reopen` over the area finds as many transactions as were acknowledged, or one more.
fn goes_on(alloc: Global, area: &[u8], printed: &[u8]) -> Result<bool, Fail> {
    let mut host = host_with(alloc, area, &[])?;
    let status = run_script(alloc, b"reopen\n", &mut host)?;
    let count = acknowledged(printed);
    let same = format!(in alloc; "ok reopen {count}\n")?;
    let more = format!(in alloc; "ok reopen {}\n", count.wrapping_add(1))?;
    let found = host.printed().items();
    Ok(status == Status::Done && (found == same.as_bytes() || found == more.as_bytes()))
}

// A fill for what was touched, and how many bytes of it are kept.
const STOPS: [(u8, u64); 5] = [(0, 0), (1, 1), (7, 1000), (1, 1000), (0, 1000)];

// Whether the next run goes on from what each kind of stop inside this call leaves.
fn stops_well(alloc: Global, host: &MemHost, call: u64) -> Result<bool, Fail> {
    if call < 1 || host.calls() < call {
        return Ok(false);
    }
    for &(fill, keep) in &STOPS {
        let (areas, printed) = host.stop(call, fill, keep)?;
        if !goes_on(alloc, areas.first.items(), printed.items())? {
            return Ok(false);
        }
    }
    Ok(true)
}

// Whether the failure of this call ends the run, and the next one goes on from what it leaves.
fn fails_well(alloc: Global, call: u64) -> Result<bool, Fail> {
    let mut host = host_with(alloc, b"", &[call])?;
    let status = run_script(alloc, commits(), &mut host)?;
    let printed = host.printed().items();
    Ok(
        host.calls() == call
            && (status == Status::DiskFault || status == Status::PrintFault)
            && replies().starts_with(printed)
            && goes_on(alloc, host.areas().first.items(), printed)?,
    )
}

#[test]
fn no_acknowledged_commit_is_lost(rt: HostRuntime) -> Result<(), Fail> {
    let alloc = rt.alloc();
    let mut host = host_with(alloc, b"", &[])?;
    assert_eq!(rt; run_script(alloc, commits(), &mut host)?, Status::Done);
    assert_eq!(rt; host.printed().items(), replies());
    for call in 1..=host.calls() {
        assert!(rt; stops_well(alloc, &host, call)?, "stopped in call {call}");
        assert!(rt; fails_well(alloc, call)?, "call {call} failed");
    }
    Ok(())
}

// An ontology with the concept A, and a transaction that adds A(a).
fn example() -> &'static [u8] {
    b"\x01OBDA\x00\x00\x00\x01\x00\x00\x00\x00\x00\x00\x00\x01\x01\x01\x00\x00\x00\x08\x00\x01\x01A\x00\x00\x00\x00\x01\x02\x00\x00\x00\x0a\x00\x00\x00\x01\x01\x02\x01A\x01a\x00"
}

// How a run of `reopen` over the first bytes of the example ends, and those behind them.
fn reopens(
    rt: &impl Abort,
    alloc: Global,
    kept: usize,
    behind: &[u8],
    want: Status,
) -> Result<(), Fail> {
    let mut area = example().get(..kept).unwrap_or_default().to_vec(alloc)?;
    area.extend_from_slice(behind)?;
    let mut host = host_with(alloc, &area, &[])?;
    assert_eq!(rt; run_script(alloc, b"reopen\n", &mut host)?, want);
    let printed: &[u8] = if want == Status::Done {
        b"ok reopen 1\n"
    } else {
        b""
    };
    assert_eq!(rt; host.printed().items(), printed);
    assert_eq!(rt; host.areas().first.items(), area.as_slice());
    Ok(())
}

#[test]
fn areas_are_found_as_they_are(rt: HostRuntime) -> Result<(), Fail> {
    let alloc = rt.alloc();
    reopens(&rt, alloc, 48, b"", Status::Done)?;
    reopens(&rt, alloc, 47, b"\x07\xff\xff\xff\xff", Status::Done)?;
    reopens(&rt, alloc, 40, b"", Status::Damaged { area: 0, at: 31 })?;
    reopens(&rt, alloc, 47, b"", Status::Damaged { area: 0, at: 47 })?;
    reopens(&rt, alloc, 47, b"\x01", Status::Damaged { area: 0, at: 47 })?;
    let mut host = host_with(alloc, b"", &[])?;
    assert_eq!(rt; run_script(alloc, b"", &mut host)?, Status::Done);
    assert_eq!(rt;
        host.areas().first.items(),
        b"\x01OBDA\x00\x00\x00\x01\x00\x00\x00\x00\x00\x00\x00\x01\x00".as_slice()
    );
    assert_eq!(rt; host.areas().second.items(), b"".as_slice());
    Ok(())
}

#[test]
fn the_first_fault_ends_the_run(rt: HostRuntime) -> Result<(), Fail> {
    let alloc = rt.alloc();
    let words = command_line(alloc, &["run"])?;
    let script = Bytes::from_slice(alloc, commits())?;
    let mut source = MemSource::new(script, Calls::from_slice(alloc, &[1])?);
    let mut host = host_with(alloc, example(), &[])?;
    assert_eq!(rt;
        run(alloc, &words, &mut source, &mut host),
        Status::ReadFault
    );
    assert_eq!(rt; host.printed().items(), b"".as_slice());
    assert_eq!(rt; host.lacked(), 0);
    Ok(())
}

// A transaction of so many changes, and what comes behind it.
fn changes(alloc: Global, count: u32, behind: &str) -> Result<Vec<u8>, Fail> {
    let mut text = b"ontology\nSubClassOf(A Some(r))\nend\nbegin 0\n".to_vec(alloc)?;
    for i in 1..=count {
        text.extend_from_slice(format!(in alloc; "add 0 A x{i}\n")?.as_bytes())?;
    }
    text.extend_from_slice(behind.as_bytes())?;
    Ok(text)
}

// A query that is prepared so many times.
fn prepared(alloc: Global, count: u32) -> Result<Vec<u8>, Fail> {
    let mut text = b"ontology\nClass(A)\nend\n".to_vec(alloc)?;
    for _ in 0..count {
        text.extend_from_slice(b"prepare q(?x) :- A(?x)\n")?;
    }
    Ok(text)
}

// Whatever is in A has a successor by each of 256 roles, and a is in A: all roles are live.
fn all_live(alloc: Global) -> Result<Vec<u8>, Fail> {
    let mut text = b"ontology\n".to_vec(alloc)?;
    for i in 0..256u32 {
        text.extend_from_slice(format!(in alloc; "SubClassOf(A Some(r{i}))\n")?.as_bytes())?;
    }
    text.extend_from_slice(b"end\nbegin 0\nadd 0 A a\ncommit 0\ntables\n")?;
    Ok(text)
}

// So many transactions that each add so many individuals to A, and what comes behind them.
fn crowd(alloc: Global, transactions: u32, size: u32, behind: &str) -> Result<Vec<u8>, Fail> {
    let mut text = b"ontology\nClass(A)\nClass(B)\nend\n".to_vec(alloc)?;
    for i in 0..transactions {
        add_to_a(alloc, &mut text, i.saturating_mul(size), size)?;
    }
    text.extend_from_slice(behind.as_bytes())?;
    Ok(text)
}

// A transaction that adds so many individuals to A, where so many were added before.
fn add_to_a(alloc: Global, text: &mut Vec<u8>, before: u32, size: u32) -> Result<(), Fail> {
    text.extend_from_slice(b"begin 0\n")?;
    for i in 1..=size {
        let number = before.saturating_add(i);
        text.extend_from_slice(format!(in alloc; "add 0 A x{number}\n")?.as_bytes())?;
    }
    text.extend_from_slice(b"commit 0\n")?;
    Ok(())
}

// How the replies to a script end.
fn ends(rt: &impl Abort, alloc: Global, script: &[u8], tail: &[u8]) -> Result<(), Fail> {
    let mut host = EvenHost::new(alloc);
    assert_eq!(rt; run_script(alloc, script, &mut host)?, Status::Done);
    assert!(rt; host.printed().items().ends_with(tail));
    Ok(())
}

// So many bytes of comment lines, all but the last of 4,096 bytes with their ends.
fn comments(alloc: Global, length: u64) -> Result<Vec<u8>, Fail> {
    let mut bytes = Vec::new(alloc);
    for i in 0..length {
        bytes.push(if i % 4096 == 4095 { b'\n' } else { b'#' })?;
    }
    Ok(bytes)
}

// The line `check` with so many blanks behind it.
fn check_line(alloc: Global, blanks: usize) -> Result<Vec<u8>, Fail> {
    let mut line = b"ontology\nClass(A)\nend\ncheck".to_vec(alloc)?;
    for _ in 0..blanks {
        line.push(b' ')?;
    }
    Ok(line)
}

#[test]
fn lines_transactions_and_inputs_have_their_limits(rt: HostRuntime) -> Result<(), Fail> {
    let alloc = rt.alloc();
    ends(
        &rt,
        alloc,
        &changes(alloc, 10_000, "commit 0\n")?,
        b"\nok\nok 1 10000 0\n",
    )?;
    ends(
        &rt,
        alloc,
        &changes(alloc, 10_001, "commit 0\n")?,
        b"\nerror 10\nok 1 10000 0\n",
    )?;
    ends(
        &rt,
        alloc,
        &all_live(alloc)?,
        b"\nrole r99 a *r99\nend 513\n",
    )?;
    ends(
        &rt,
        alloc,
        &prepared(alloc, 257)?,
        b"\nprepared 255.1\nerror 15\n",
    )?;
    ends(
        &rt,
        alloc,
        &crowd(
            alloc,
            8,
            8_192,
            "begin 0\nadd 0 A y\ncommit 0\ndel 0 A y\ncommit 0\n",
        )?,
        b"\nok 8 8192 0\nok\nok\nerror 11\nok\nok 9 0 0\n",
    )?;
    ends(&rt, alloc, &check_line(alloc, 4_091)?, b"\nconsistent\n")?;
    ends(&rt, alloc, &check_line(alloc, 4_092)?, b"\nerror 2\n")?;
    ends(&rt, alloc, &comments(alloc, 67_108_864)?, b"")?;
    let mut host = EvenHost::new(alloc);
    let status = run_script(alloc, &comments(alloc, 67_108_865)?, &mut host)?;
    assert_eq!(rt; status, Status::InputTooLarge);
    assert_eq!(rt; host.printed().items(), b"".as_slice());
    Ok(())
}

// In the order of the text this takes 3,600,000,000 looks at rows.
#[test]
fn what_is_least_comes_first(rt: HostRuntime) -> Result<(), Fail> {
    let alloc = rt.alloc();
    let behind = "begin 0\nadd 0 B x1\ncommit 0\nask q(?x) :- A(?x), A(?y), B(?x)\n";
    ends(
        &rt,
        alloc,
        &crowd(alloc, 6, 10_000, behind)?,
        b"\nok 7 1 0\nanswer x1\nend 1\n",
    )
}
