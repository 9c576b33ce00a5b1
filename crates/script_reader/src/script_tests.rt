// Scripts, and the requests that they hold.
use super::*;
use crate::command_tests::asked;
use axiom_reader::{Block, BlockResult};
use std::alloc::{AllocError, Global};
use std::test::Fail;

// A request: its word, and its session, its number of inclusions or its line.
type Asked = (&'static str, u64);

fn block_asked(outcome: BlockResult) -> Asked {
    match outcome {
        Ok(ontology) => ("block", ontology.inclusions().len() as u64),
        Err(error) => ("offence", error.line),
    }
}

fn take_inside(
    mut block: Block,
    line: Option<&[u8]>,
    found: &mut Vec<Asked>,
) -> Result<Option<Block>, AllocError> {
    let ended = match line {
        Some(text) => ends_block(text),
        None => false,
    };
    if ended {
        found.push(block_asked(block.finish(true)))?;
        return Ok(None);
    }
    block.line(line)?;
    Ok(Some(block))
}

fn take_outside(
    alloc: Global,
    line: Option<&[u8]>,
    found: &mut Vec<Asked>,
) -> Result<Option<Block>, AllocError> {
    let request = match line {
        Some(text) => asked(alloc, text),
        None => ("too long", 0),
    };
    if request.0 == "ontology" {
        return Ok(Some(Block::new(alloc)?));
    }
    if request.0 != "blank" {
        found.push(request)?;
    }
    Ok(None)
}

fn take_line(
    alloc: Global,
    block: Option<Block>,
    line: Option<&[u8]>,
    found: &mut Vec<Asked>,
) -> Result<Option<Block>, AllocError> {
    match block {
        Some(block) => take_inside(block, line, found),
        None => take_outside(alloc, line, found),
    }
}

fn take(
    alloc: Global,
    block: Option<Block>,
    lines: &Lines,
    fed: Fed,
    found: &mut Vec<Asked>,
) -> Result<Option<Block>, AllocError> {
    match fed {
        Fed::More => Ok(block),
        Fed::Line => take_line(alloc, block, Some(lines.line()), found),
        Fed::TooLong => take_line(alloc, block, None, found),
    }
}

fn requests(alloc: Global, script: &[u8]) -> Result<Vec<Asked>, AllocError> {
    let mut lines = Lines::new(alloc)?;
    let mut found = Vec::new(alloc);
    let mut block = None;
    let mut rest = script;
    for _ in 0..script.len() {
        if rest.is_empty() {
            break;
        }
        let (count, fed) = lines.feed(rest);
        rest = &rest[count..];
        block = take(alloc, block, &lines, fed, &mut found)?;
    }
    let fed = lines.finish();
    if let Some(block) = take(alloc, block, &lines, fed, &mut found)? {
        found.push(block_asked(block.finish(false)))?;
    }
    Ok(found)
}

#[test]
fn blocks_stand_among_lines(rt: HostRuntime) -> Result<(), Fail> {
    let alloc = rt.alloc();
    let found = requests(
        alloc,
        b"begin 3\n ontology\t\r\n# end\nSubClassOf(A B)\n\n end \t\ncheck",
    )?;
    assert_eq!(rt;
        found.as_slice(),
        [("begin", 3), ("block", 1), ("check", 0)].as_slice()
    );
    let found = requests(alloc, b"ontology\nClass(A)\nontology\nend\nend\n")?;
    assert_eq!(rt;
        found.as_slice(),
        [("offence", 2), ("syntax", 1)].as_slice()
    );
    Ok(())
}

#[test]
fn a_block_is_cut_off(rt: HostRuntime) -> Result<(), Fail> {
    let alloc = rt.alloc();
    let found = requests(alloc, b"tidy\nontology\nClass(A)")?;
    assert_eq!(rt; found.as_slice(), [("tidy", 0), ("offence", 2)].as_slice());
    let found = requests(alloc, b"ontology")?;
    assert_eq!(rt; found.as_slice(), [("offence", 1)].as_slice());
    Ok(())
}

// A block in which `end` and 4,094 blanks stand before the line `end`.
fn long_end(alloc: Global) -> Result<Vec<u8>, AllocError> {
    let mut script = Vec::new(alloc);
    script.extend_from_slice(b"ontology\nend")?;
    for _ in 0..4094 {
        script.push(b' ')?;
    }
    script.extend_from_slice(b"\nend\n")?;
    Ok(script)
}

#[test]
fn a_line_that_is_too_long_ends_no_block(rt: HostRuntime) -> Result<(), Fail> {
    let found = requests(rt.alloc(), &long_end(rt.alloc())?)?;
    assert_eq!(rt; found.as_slice(), [("offence", 1)].as_slice());
    Ok(())
}
