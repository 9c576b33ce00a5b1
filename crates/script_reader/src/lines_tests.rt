// Inputs in pieces of every length, and the lines that they give.
use super::*;
use std::alloc::{AllocError, Global};
use std::test::Fail;

// The lengths of the lines that the input gives in pieces of this length; 9999 stands for one that is too long.
fn lengths(alloc: Global, input: &[u8], piece: usize) -> Result<Vec<usize>, AllocError> {
    let mut lines = Lines::new(alloc)?;
    let mut found = Vec::new(alloc);
    let mut rest = input;
    for _ in 0..input.len() + 1 {
        if rest.is_empty() {
            break;
        }
        let (count, fed) = lines.feed(&rest[..rest.len().min(piece)]);
        rest = &rest[count..];
        tell(&lines, fed, &mut found)?;
    }
    let fed = lines.finish();
    tell(&lines, fed, &mut found)?;
    Ok(found)
}

fn tell(lines: &Lines, fed: Fed, found: &mut Vec<usize>) -> Result<(), AllocError> {
    match fed {
        Fed::More => Ok(()),
        Fed::Line => Ok(found.push(lines.line().len())?),
        Fed::TooLong => Ok(found.push(9999)?),
    }
}

fn long_line(alloc: Global, length: usize, end: &[u8]) -> Result<Vec<u8>, AllocError> {
    let mut line = Vec::new(alloc);
    for _ in 0..length {
        line.push(b'x')?;
    }
    line.extend_from_slice(end)?;
    Ok(line)
}

const PIECES: [usize; 4] = [1, 2, 4095, 10000];

#[test]
fn however_the_input_is_cut_its_lines_are_the_same(rt: HostRuntime) -> Result<(), Fail> {
    let alloc = rt.alloc();
    for piece in PIECES {
        let found = lengths(alloc, b"ab\r\n\nc\r\r\n\r", piece)?;
        assert_eq!(rt; found.as_slice(), [2, 0, 2, 0].as_slice());
        let found = lengths(alloc, &long_line(alloc, 4096, b"\r\nx")?, piece)?;
        assert_eq!(rt; found.as_slice(), [4096, 1].as_slice());
        let found = lengths(alloc, &long_line(alloc, 4096, b"\rx\ny")?, piece)?;
        assert_eq!(rt; found.as_slice(), [9999, 1].as_slice());
        let found = lengths(alloc, &long_line(alloc, 4097, b"")?, piece)?;
        assert_eq!(rt; found.as_slice(), [9999].as_slice());
    }
    Ok(())
}
