//! The requests of a whole script.
ghost use Rattle.std.specs.Prelude.{◌≡◌, ◌≤◌, ◌<◌, ◌^◌, ◌++◌, [], ◌∷◌, ℕ, List, Some, None, IfOk, OnOk, length, take};
ghost use Rattle.std.specs.Option.{option_copied};
ghost use Rattle.script_reader.specs.Requests.{Finished, Is, Token};
ghost use Rattle.run_loop.specs.Taking.{IsTold, lines_of};
ghost use Rattle.script_tally.specs.Gathering.{Gathers, GathersAll, GathersBytes};

use axiom_reader::Block;
use plain_list::Items;
use run_loop::{Said, block_request, is_end, read_line};
use script_reader::{Fed, Lines, Request};
use std::alloc::{AllocError, Global};

/// All requests of a script that has ended.
pub(crate) fn requests_of(alloc: Global, script: &[u8]) -> Result<Items<Request>, AllocError>
    requires { length script.now ≤ 67108864 }
    ensures { IfOk result (GathersAll script.now) }
{
    let mut lines = Lines::new(alloc)?;
    let mut requests = Items::new(alloc);
    let mut block = None;
    let mut rest = script;
    while !rest.is_empty() {
        let (begun, count) = gather_part(alloc, rest, &mut lines, block, &mut requests)?;
        block = begun;
        rest = &rest[count..];
    }
    gather_last(alloc, &mut lines, block, &mut requests)?;
    Ok(requests)
}

/// Takes the bytes through the first line end, or all, and answers how many, with the block that is begun behind them.
fn gather_part(
    alloc: Global,
    bytes: &[u8],
    lines: &mut Lines,
    block: Option<Block>,
    requests: &mut Items<Request>,
) -> Result<(Option<Block>, usize), AllocError>
    requires some { 0 < length bytes.now }
    ensures within { IfOk result (λ next. next.1 ≤ length bytes.now) }
    ensures some { IfOk result (λ next. 0 < next.1) }
    ensures gathers { (read : List ℕ) → length read < 2 ^ 62 → GathersBytes read lines.old requests.old block
        → IfOk result (λ next. GathersBytes (read ++ take next.1 bytes.now) lines.new requests.new next.0) }
{
    let (count, fed) = lines.feed(bytes);
    let begun = gather_fed(alloc, fed, lines, block, requests)?;
    Ok((begun, count))
}

/// Takes what the end of the script makes whole: the last line, and the block that is begun.
fn gather_last(
    alloc: Global,
    lines: &mut Lines,
    block: Option<Block>,
    requests: &mut Items<Request>,
) -> Result<(), AllocError>
    ensures { (read : List ℕ) → length read < 2 ^ 62 → GathersBytes read lines.old requests.old block → OnOk result (GathersAll read requests.new) }
{
    let fed = lines.finish();
    let begun = gather_fed(alloc, fed, lines, block, requests)?;
    gather_end(begun, requests)
}

/// Takes what came of the bytes that were fed: a line more, or none.
fn gather_fed(
    alloc: Global,
    fed: Fed,
    lines: &Lines,
    block: Option<Block>,
    requests: &mut Items<Request>,
) -> Result<Option<Block>, AllocError>
    requires { IsTold fed lines.now.bytes }
    ensures { (tokens : List Token) → length tokens < 2 ^ 62 → Gathers tokens requests.old block
        → IfOk result (Gathers (tokens ++ lines_of fed lines.now.bytes) requests.new) }
{
    match fed {
        Fed::More => Ok(block),
        Fed::Line => gather_line(alloc, Some(lines.line()), block, requests),
        Fed::TooLong => gather_line(alloc, None, block, requests),
    }
}

/// Takes one line more. None stands for a line that is too long.
fn gather_line(
    alloc: Global,
    line: Option<&[u8]>,
    block: Option<Block>,
    requests: &mut Items<Request>,
) -> Result<Option<Block>, AllocError>
    ensures { (tokens : List Token) → length tokens < 2 ^ 62 → Gathers tokens requests.old block
        → IfOk result (Gathers (tokens ++ Is (option_copied line.entry) ∷ []) requests.new) }
{
    match block {
        Some(block) => gather_inside(line, block, requests),
        None => gather_outside(alloc, line, requests),
    }
}

/// Takes a line of a block.
fn gather_inside(
    line: Option<&[u8]>,
    mut block: Block,
    requests: &mut Items<Request>,
) -> Result<Option<Block>, AllocError>
    ensures { (tokens : List Token) → length tokens < 2 ^ 62 → Gathers tokens requests.old (Some block)
        → IfOk result (Gathers (tokens ++ Is (option_copied line.entry) ∷ []) requests.new) }
{
    if is_end(line) {
        requests.push(block_request(block.finish(true)))?;
        return Ok(None);
    }
    block.line(line)?;
    Ok(Some(block))
}

/// Takes a line that is in no block.
fn gather_outside(
    alloc: Global,
    line: Option<&[u8]>,
    requests: &mut Items<Request>,
) -> Result<Option<Block>, AllocError>
    ensures { (tokens : List Token) → Gathers tokens requests.old None
        → IfOk result (Gathers (tokens ++ Is (option_copied line.entry) ∷ []) requests.new) }
{
    match read_line(alloc, line)? {
        Said::Nothing => Ok(None),
        Said::Opens => Ok(Some(Block::new(alloc)?)),
        Said::Asks(request) => {
            requests.push(request)?;
            Ok(None)
        }
    }
}

/// Takes the end of the script, which cuts off the block that is begun.
fn gather_end(block: Option<Block>, requests: &mut Items<Request>) -> Result<(), AllocError>
    ensures { (tokens : List Token) → length tokens < 2 ^ 63 → Gathers tokens requests.old block
        → OnOk result (Gathers (tokens ++ Finished ∷ []) requests.new None) }
{
    match block {
        Some(block) => requests.push(block_request(block.finish(false))),
        None => Ok(()),
    }
}
