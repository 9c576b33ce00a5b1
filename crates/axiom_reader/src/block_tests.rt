//! Blocks beside what the format says of their lines.

use super::*;
use std::alloc::{AllocError, Global};
use std::test::Fail;

/// What the block of these lines comes to.
fn block(alloc: Global, lines: &[Option<&[u8]>], ended: bool) -> Result<BlockResult, AllocError> {
    let mut block = Block::new(alloc)?;
    for line in lines {
        block.line(*line)?;
    }
    Ok(block.finish(ended))
}

/// Blocks without an offence: the lines, and the numbers of concepts, of roles and of inclusions.
const SOUND: [(&[Option<&[u8]>], usize, usize, usize); 4] = [
    (&[], 0, 0, 0),
    (
        &[
            Some(b"# a comment"),
            Some(b""),
            Some(b" \t "),
            Some(b"\t# Class(A"),
            Some(b"  Class(A)\t"),
            Some(b"Property(r)"),
        ],
        1,
        1,
        0,
    ),
    // A body of eight members.
    (&[Some(b"Disjoint(And(A B C D) And(A B C D))")], 4, 0, 1),
    (
        &[
            Some(b"SubClassOf(Professor Some(teaches))"),
            Some(b"Range(teaches Course)"),
            Some(b"Equivalent(Professor Teacher)"),
            Some(b"Disjoint(Professor Course)"),
        ],
        3,
        1,
        5,
    ),
];

#[test]
fn blocks_of_axioms(rt: HostRuntime) -> Result<(), Fail> {
    for (lines, concepts, roles, inclusions) in SOUND {
        match block(rt.alloc(), lines, true)? {
            Ok(found) => {
                assert_eq!(rt; found.concepts().len(), concepts);
                assert_eq!(rt; found.roles().len(), roles);
                assert_eq!(rt; found.inclusions().len(), inclusions);
            }
            Err(error) => assert_eq!(rt; error.line, 0),
        }
    }
    Ok(())
}

/// An axiom with a body of nine members.
const NINE: &[u8] = b"Disjoint(And(A B C D) And(A B C D E))";

/// Blocks that are cut off behind their lines, and the first line of each that offends, with its cause.
const OFFENCES: [(&[Option<&[u8]>], u64, BlockCause); 10] = [
    // No line before the cut offends.
    (&[], 1, BlockCause::Syntax),
    (
        &[Some(b"#"), Some(b" "), Some(b"Class(A)")],
        4,
        BlockCause::Syntax,
    ),
    (
        &[Some(b"Class(A)"), Some(b"Class(A) B"), None],
        2,
        BlockCause::Syntax,
    ),
    (&[Some(b"#"), None, Some(b"Class")], 2, BlockCause::Length),
    (
        &[Some(b"Class(A)"), Some(b""), Some(NINE)],
        3,
        BlockCause::Limit,
    ),
    (&[Some(NINE), Some(b"x"), None], 1, BlockCause::Limit),
    (&[None, None], 1, BlockCause::Length),
    (
        &[Some(b" "), Some(b"\t#"), Some(b"- #")],
        3,
        BlockCause::Syntax,
    ),
    (
        &[Some(b"Class(A) # no comment"), None],
        1,
        BlockCause::Syntax,
    ),
    (&[Some(b"Class(A)\r"), Some(b"")], 1, BlockCause::Syntax),
];

#[test]
fn the_first_line_that_offends(rt: HostRuntime) -> Result<(), Fail> {
    for (lines, line, cause) in OFFENCES {
        let want = BlockError { line, cause };
        match block(rt.alloc(), lines, false)? {
            Ok(_) => assert_eq!(rt; want.line, 0),
            Err(error) => assert_eq!(rt; error, want),
        }
    }
    Ok(())
}
