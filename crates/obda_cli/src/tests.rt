// The status lines, and the words of a command line.
use super::*;
use std::alloc::Global;
use std::env::FillError;
use std::test::Fail;

#[test]
fn each_ending_has_its_line(rt: HostRuntime) -> Result<(), Fail> {
    let lines = [
        (Status::Refused { code: 99, line: 1 }, "refused 99 line 1"),
        (
            Status::Refused {
                code: 1,
                line: 18_446_744_073_709_551_615,
            },
            "refused 1 line 18446744073709551615",
        ),
        (Status::Usage, "usage: obda answer, obda run, obda sample N"),
        (Status::ReadFault, "read fault"),
        (Status::PrintFault, "print fault"),
        (Status::DiskFault, "disk fault"),
        (Status::Damaged { area: 0, at: 31 }, "damaged area 0 at 31"),
        (Status::NoMemory, "no memory"),
        (Status::InputTooLarge, "input too large"),
    ];
    for (status, want) in lines {
        match StatusLine::of(status) {
            Some(line) => assert_eq!(rt; format!(in rt.alloc(); "{line}")?.as_str(), want),
            None => assert_eq!(rt; "", want),
        }
    }
    assert!(rt; StatusLine::of(Status::Done).is_none());
    Ok(())
}

// A command line of these words.
#[derive(Drop)]
struct CommandLine {
    words: &'static [&'static [u8]],
}

impl Env for CommandLine {
    fn arg(&self, i: usize, buf: &mut [u8]) -> Result<usize, FillError> {
        if i >= self.words.len() {
            return Err(FillError::NotPresent);
        }
        let word = self.words[i];
        if word.len() > buf.len() {
            return Err(FillError::TooLong);
        }
        buf[..word.len()].copy_from_slice(word);
        Ok(word.len())
    }

    fn var(&self, _name: &str, _buf: &mut [u8]) -> Result<usize, FillError> {
        Err(FillError::NotPresent)
    }

    fn var_at(&self, _i: usize, _buf: &mut [u8]) -> Result<usize, FillError> {
        Err(FillError::NotPresent)
    }
}

fn words_of(alloc: Global, words: &'static [&'static [u8]]) -> Result<Vec<String>, Status> {
    super::words(&(CommandLine { words }, alloc))
}

#[test]
fn the_words_stand_behind_the_name(rt: HostRuntime) {
    match words_of(rt.alloc(), &[b"obda", b"sample", b"4"]) {
        Ok(words) => {
            assert_eq!(rt; words.len(), 2);
            assert_eq!(rt; words[0].as_str(), "sample");
            assert_eq!(rt; words[1].as_str(), "4");
        }
        Err(status) => assert_eq!(rt; status, Status::Done),
    }
    match words_of(rt.alloc(), &[]) {
        Ok(words) => assert_eq!(rt; words.len(), 0),
        Err(status) => assert_eq!(rt; status, Status::Done),
    }
}

#[test]
fn a_word_that_is_no_text_is_a_faulty_command_line(rt: HostRuntime) {
    match words_of(rt.alloc(), &[b"obda", b"answer", b"\xff"]) {
        Ok(words) => assert_eq!(rt; words.len(), 0),
        Err(status) => assert_eq!(rt; status, Status::Usage),
    }
}
