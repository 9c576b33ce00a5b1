//! Reading a document from a source, to its end.
ghost use Rattle.std.specs.Prelude.{◌≡◌, ◌<◌, ◌≤◌, ◌+◌, ◌^◌, ◌++◌, ℕ, List, [], IfOk, IfErr, IsErrOf, length, take};
ghost use Rattle.std.specs.Option.{ForSome};
ghost use Rattle.host_io.specs.Causes.{Rose};
ghost use Rattle.script_reader.specs.Feeding.{IsBehind};
ghost use Rattle.document_run.specs.Sound.{IsSoundDocument};
ghost use Rattle.document_run.specs.Drafting.{KeepsDraft};
ghost use Rattle.document_run.specs.Run.{HasStopped, IsEarly, IsFinal, IsReading, IsRead};

use crate::document::{Document, Draft};
use crate::ending::DocumentEnding;
use host_io::{Failed, Source};
use script_reader::{Fed, Lines, MAX_INPUT, READ_BUFFER, room_after};
use std::alloc::{AllocError, Global};

/// The document that the source gives, read to its end, or how the run ends without a reply.
pub fn read_document<S: Source>(alloc: Global, source: &mut S) -> Result<Document, DocumentEnding>
    ensures later { S.read_faults source.old ≤ S.read_faults source.new }
    ensures fault { IsErrOf result DocumentEnding.ReadFault → Rose (S.read_faults source.old) (S.read_faults source.new) }
    ensures fault_ends { S.read_faults source.old < S.read_faults source.new → IsErrOf result DocumentEnding.ReadFault }
    ensures early { IfErr result IsEarly }
    ensures sound { IfOk result IsSoundDocument }
    ensures read { ForSome (S.left source.old) (λ input. HasStopped result input (S.left source.new)) }
{
    let Ok(draft) = Draft::new(alloc) else {
        return Err(DocumentEnding::NoMemory);
    };
    let Ok(lines) = Lines::new(alloc) else {
        return Err(DocumentEnding::NoMemory);
    };
    let Ok(mut buffer) = vec![in alloc; 0u8; READ_BUFFER] else {
        return Err(DocumentEnding::NoMemory);
    };
    read_lines(alloc, source, draft, lines, buffer.as_mut_slice())
}

fn read_lines<S: Source>(
    alloc: Global,
    source: &mut S,
    mut draft: Draft,
    mut lines: Lines,
    buffer: &mut [u8],
) -> Result<Document, DocumentEnding>
    requires draft { KeepsDraft [] draft }
    requires lines { IsBehind [] lines }
    requires buffer { length buffer.old ≡ 65536 }
    ensures later { S.read_faults source.old ≤ S.read_faults source.new }
    ensures fault { IsErrOf result DocumentEnding.ReadFault → Rose (S.read_faults source.old) (S.read_faults source.new) }
    ensures fault_ends { S.read_faults source.old < S.read_faults source.new → IsErrOf result DocumentEnding.ReadFault }
    ensures early { IfErr result IsEarly }
    ensures sound { IfOk result IsSoundDocument }
    ensures read { ForSome (S.left source.old) (λ input. HasStopped result input (S.left source.new)) }
{
    let mut taken = 0u64;
    'pieces: loop {
        let room = room_after(taken);
        let Ok(count) = source.read(&mut buffer[..room]) else {
            return Err(DocumentEnding::ReadFault);
        };
        if count == 0 {
            return finish(alloc, draft, lines);
        }
        if taken == MAX_INPUT {
            return Err(DocumentEnding::InputTooLarge);
        }
        match take_piece(alloc, draft, &mut lines, &buffer[..count]) {
            Ok(next) => draft = next,
            Err(_) => return Err(DocumentEnding::NoMemory),
        }
        taken += count as u64;
    }
}

/// Takes a piece of the input, line by line.
fn take_piece(
    alloc: Global,
    mut draft: Draft,
    lines: &mut Lines,
    piece: &[u8],
) -> Result<Draft, AllocError>
    ensures { (read : List ℕ) → length read + length piece.now < 2 ^ 63 → IsReading read lines.old draft
        → IfOk result (IsReading (read ++ piece.now) lines.new) }
{
    let mut rest = piece;
    while !rest.is_empty() {
        let (next, count) = take_part(alloc, draft, lines, rest)?;
        draft = next;
        rest = &rest[count..];
    }
    Ok(draft)
}

/// Takes the bytes through the first line end, or all, and answers how many.
fn take_part(
    alloc: Global,
    draft: Draft,
    lines: &mut Lines,
    bytes: &[u8],
) -> Result<(Draft, usize), AllocError>
    ensures within { IfOk result (λ taken. taken.1 ≤ length bytes.now) }
    ensures some { 0 < length bytes.now → IfOk result (λ taken. 0 < taken.1) }
    ensures reading { (read : List ℕ) → length read < 2 ^ 63 → IsReading read lines.old draft
        → IfOk result (λ taken. IsReading (read ++ take taken.1 bytes.now) lines.new taken.0) }
{
    let (count, fed) = lines.feed(bytes);
    match fed {
        Fed::More => Ok((draft, count)),
        Fed::Line => Ok((draft.take_line(alloc, lines.line())?, count)),
        Fed::TooLong => Ok((draft.take_long_line(), count)),
    }
}

/// The document, where the input has ended.
fn finish(alloc: Global, draft: Draft, mut lines: Lines) -> Result<Document, DocumentEnding>
    ensures ending { IfErr result IsFinal }
    ensures read { (read : List ℕ) → length read ≤ 67108864 → IsReading read lines draft → IsRead result read }
{
    match lines.finish() {
        Fed::More => draft.finish(),
        Fed::Line => match draft.take_line(alloc, lines.line()) {
            Ok(whole) => whole.finish(),
            Err(_) => Err(DocumentEnding::NoMemory),
        },
        Fed::TooLong => draft.take_long_line().finish(),
    }
}
