//! Reading a line of a script from left to right.
//!
//! The first letters tell the commands apart. Each form takes the blanks behind it, since what stands behind blanks may
//! go on with it.

ghost use Rattle.std.specs.Prelude.{◌≡◌};
ghost use Rattle.grammar.specs.Numbers.{number_at};
ghost use Rattle.grammar.specs.Reading.{Gives};
ghost use Rattle.dl_base.specs.declared.row.NamedRow.TheVariants.{Concept};
ghost use Rattle.script_reader.specs.CommandReading.{third_and_blanks_at, row_and_blanks_at, word_and_blanks_at, session_at, session_and_blanks_at, session_and_row_at, word_and_query_at, handle_and_blanks_at, a_command_at, c_command_at, d_command_at, r_command_at, t_command_at, command_at, comment_at, script_line_at};

use cq_reader::{Draft, read_draft};
use dl_base::{Name, NamedRow, read_name};
use gen_arena::Handle;
use grammar::{ReadError, expect, next_is_byte, read_number, skip_blanks, some_blanks};
use std::alloc::Global;

/// A line of a script as it is written. The query of one may be too large or unsafe.
#[derive(Debug, Drop)]
pub enum CommandTree {
    /// A blank line or a comment.
    Blank,
    /// `ontology`
    Ontology,
    /// `begin` and a session.
    Begin(u8),
    /// `add`, a session and a row.
    Add(u8, NamedRow),
    /// `del`, a session and a row.
    Del(u8, NamedRow),
    /// `commit` and a session.
    Commit(u8),
    /// `abort` and a session.
    Abort(u8),
    /// `ask` and a query.
    Ask(Draft),
    /// `prepare` and a query.
    Prepare(Draft),
    /// `run` and a handle.
    Run(Handle),
    /// `drop` and a handle.
    Drop(Handle),
    /// `check`
    Check,
    /// `tables`
    Tables,
    /// `tidy`
    Tidy,
    /// `reopen`
    Reopen,
}

/// A row and the blanks behind it.
#[tactic(auto, unfolding(crate::specs::CommandReading::row_and_blanks_at))]
fn read_row_and_blanks(alloc: Global, text: &[u8]) -> Result<(NamedRow, &[u8]), ReadError>
    ensures { Gives (λ x. (x.0, x.1.now)) result (row_and_blanks_at text.now) }
{
    let (first, rest) = read_name(alloc, text)?;
    let (_, rest) = some_blanks(rest)?;
    let (second, rest) = read_name(alloc, rest)?;
    read_third_and_blanks(alloc, first, second, rest)
}

/// What stands behind the first two names of a row.
#[tactic(auto, unfolding(crate::specs::CommandReading::third_and_blanks_at))]
fn read_third_and_blanks(
    alloc: Global,
    first: Name,
    second: Name,
    text: &[u8],
) -> Result<(NamedRow, &[u8]), ReadError>
    ensures { Gives (λ x. (x.0, x.1.now)) result (third_and_blanks_at first second text.now) }
{
    let (blanks, rest) = skip_blanks(text);
    if blanks.is_empty() {
        return Ok((concept_row(first, second), rest));
    }
    if rest.is_empty() {
        return Ok((concept_row(first, second), rest));
    }
    let (third, rest) = read_name(alloc, rest)?;
    let (_, rest) = skip_blanks(rest);
    let row = NamedRow::Role {
        role: first,
        from: second,
        to: third,
    };
    Ok((row, rest))
}

fn concept_row(concept: Name, individual: Name) -> NamedRow
    ensures { result ≡ Concept concept individual }
{
    NamedRow::Concept {
        concept,
        individual,
    }
}

/// The word and the blanks behind it, of which the text behind is given.
#[tactic(auto, unfolding(crate::specs::CommandReading::word_and_blanks_at))]
fn read_word_and_blanks<'a>(word: &[u8], text: &'a [u8]) -> Result<&'a [u8], ReadError>
    ensures { Gives (λ rest. (tt, rest.now)) result (word_and_blanks_at word.now text.now) }
{
    let rest = expect(word, text)?;
    let (_, rest) = skip_blanks(rest);
    Ok(rest)
}

/// The word, blanks and a session.
#[tactic(auto, unfolding(crate::specs::CommandReading::session_at))]
fn read_session<'a>(word: &[u8], text: &'a [u8]) -> Result<(u8, &'a [u8]), ReadError>
    ensures { Gives (λ x. (x.0, x.1.now)) result (session_at word.now text.now) }
{
    let rest = expect(word, text)?;
    let (_, rest) = some_blanks(rest)?;
    let (session, rest) = read_number(15, rest)?;
    Ok((session as u8, rest))
}

/// The word, blanks, a session and the blanks behind it.
#[tactic(auto, unfolding(crate::specs::CommandReading::session_and_blanks_at))]
fn read_session_and_blanks<'a>(word: &[u8], text: &'a [u8]) -> Result<(u8, &'a [u8]), ReadError>
    ensures { Gives (λ x. (x.0, x.1.now)) result (session_and_blanks_at word.now text.now) }
{
    let (session, rest) = read_session(word, text)?;
    let (_, rest) = skip_blanks(rest);
    Ok((session, rest))
}

/// The word, blanks, a session, blanks, a row and the blanks behind it.
#[tactic(auto, unfolding(crate::specs::CommandReading::session_and_row_at))]
fn read_session_and_row<'a>(
    alloc: Global,
    word: &[u8],
    text: &'a [u8],
) -> Result<(u8, NamedRow, &'a [u8]), ReadError>
    ensures { Gives (λ x. ((x.0, x.1), x.2.now)) result (session_and_row_at word.now text.now) }
{
    let (session, rest) = read_session(word, text)?;
    let (_, rest) = some_blanks(rest)?;
    let (row, rest) = read_row_and_blanks(alloc, rest)?;
    Ok((session, row, rest))
}

/// The word, blanks, a query and the blanks behind it.
#[tactic(auto, unfolding(crate::specs::CommandReading::word_and_query_at))]
fn read_word_and_query<'a>(
    alloc: Global,
    word: &[u8],
    text: &'a [u8],
) -> Result<(Draft, &'a [u8]), ReadError>
    ensures { Gives (λ x. (x.0, x.1.now)) result (word_and_query_at word.now text.now) }
{
    let rest = expect(word, text)?;
    let (_, rest) = some_blanks(rest)?;
    read_draft(alloc, rest)
}

/// The number of a slot.
fn read_slot(text: &[u8]) -> Result<(u32, &[u8]), ReadError>
    ensures { Gives (λ x. (x.0, x.1.now)) result (number_at 4294967295 text.now) }
{
    let (slot, rest) = read_number(u32::MAX as u64, text)?;
    Ok((slot as u32, rest))
}

/// The word, blanks, a handle and the blanks behind it.
#[tactic(auto, unfolding(crate::specs::CommandReading::handle_and_blanks_at))]
fn read_handle_and_blanks<'a>(word: &[u8], text: &'a [u8]) -> Result<(Handle, &'a [u8]), ReadError>
    ensures { Gives (λ x. (x.0, x.1.now)) result (handle_and_blanks_at word.now text.now) }
{
    let rest = expect(word, text)?;
    let (_, rest) = some_blanks(rest)?;
    let (slot, rest) = read_slot(rest)?;
    let rest = expect(b".", rest)?;
    let (generation, rest) = read_number(u64::MAX, rest)?;
    let (_, rest) = skip_blanks(rest);
    let handle = Handle { slot, generation };
    Ok((handle, rest))
}

/// `add`, `abort` and `ask` share their first letter.
#[tactic(auto, unfolding(crate::specs::CommandReading::a_command_at))]
fn read_a_command(alloc: Global, text: &[u8]) -> Result<(CommandTree, &[u8]), ReadError>
    ensures { Gives (λ x. (x.0, x.1.now)) result (a_command_at text.now) }
{
    let rest = expect(b"a", text)?;
    if next_is_byte(b'd', rest) {
        let (session, row, rest) = read_session_and_row(alloc, b"dd", rest)?;
        Ok((CommandTree::Add(session, row), rest))
    } else if next_is_byte(b'b', rest) {
        let (session, rest) = read_session_and_blanks(b"bort", rest)?;
        Ok((CommandTree::Abort(session), rest))
    } else {
        let (query, rest) = read_word_and_query(alloc, b"sk", rest)?;
        Ok((CommandTree::Ask(query), rest))
    }
}

/// `commit` and `check` share their first letter.
#[tactic(auto, unfolding(crate::specs::CommandReading::c_command_at))]
fn read_c_command(text: &[u8]) -> Result<(CommandTree, &[u8]), ReadError>
    ensures { Gives (λ x. (x.0, x.1.now)) result (c_command_at text.now) }
{
    let rest = expect(b"c", text)?;
    if next_is_byte(b'o', rest) {
        let (session, rest) = read_session_and_blanks(b"ommit", rest)?;
        Ok((CommandTree::Commit(session), rest))
    } else {
        let rest = read_word_and_blanks(b"heck", rest)?;
        Ok((CommandTree::Check, rest))
    }
}

/// `del` and `drop` share their first letter.
#[tactic(auto, unfolding(crate::specs::CommandReading::d_command_at))]
fn read_d_command(alloc: Global, text: &[u8]) -> Result<(CommandTree, &[u8]), ReadError>
    ensures { Gives (λ x. (x.0, x.1.now)) result (d_command_at text.now) }
{
    let rest = expect(b"d", text)?;
    if next_is_byte(b'e', rest) {
        let (session, row, rest) = read_session_and_row(alloc, b"el", rest)?;
        Ok((CommandTree::Del(session, row), rest))
    } else {
        let (handle, rest) = read_handle_and_blanks(b"rop", rest)?;
        Ok((CommandTree::Drop(handle), rest))
    }
}

/// `run` and `reopen` share their first letter.
#[tactic(auto, unfolding(crate::specs::CommandReading::r_command_at))]
fn read_r_command(text: &[u8]) -> Result<(CommandTree, &[u8]), ReadError>
    ensures { Gives (λ x. (x.0, x.1.now)) result (r_command_at text.now) }
{
    let rest = expect(b"r", text)?;
    if next_is_byte(b'u', rest) {
        let (handle, rest) = read_handle_and_blanks(b"un", rest)?;
        Ok((CommandTree::Run(handle), rest))
    } else {
        let rest = read_word_and_blanks(b"eopen", rest)?;
        Ok((CommandTree::Reopen, rest))
    }
}

/// `tables` and `tidy` share their first letter.
#[tactic(auto, unfolding(crate::specs::CommandReading::t_command_at))]
fn read_t_command(text: &[u8]) -> Result<(CommandTree, &[u8]), ReadError>
    ensures { Gives (λ x. (x.0, x.1.now)) result (t_command_at text.now) }
{
    let rest = expect(b"t", text)?;
    if next_is_byte(b'a', rest) {
        let rest = read_word_and_blanks(b"ables", rest)?;
        Ok((CommandTree::Tables, rest))
    } else {
        let rest = read_word_and_blanks(b"idy", rest)?;
        Ok((CommandTree::Tidy, rest))
    }
}

#[tactic(auto, unfolding(crate::specs::CommandReading::command_at))]
fn read_command_text(alloc: Global, text: &[u8]) -> Result<(CommandTree, &[u8]), ReadError>
    ensures { Gives (λ x. (x.0, x.1.now)) result (command_at text.now) }
{
    if next_is_byte(b'a', text) {
        read_a_command(alloc, text)
    } else if next_is_byte(b'b', text) {
        let (session, rest) = read_session_and_blanks(b"begin", text)?;
        Ok((CommandTree::Begin(session), rest))
    } else if next_is_byte(b'c', text) {
        read_c_command(text)
    } else if next_is_byte(b'd', text) {
        read_d_command(alloc, text)
    } else if next_is_byte(b'o', text) {
        let rest = read_word_and_blanks(b"ontology", text)?;
        Ok((CommandTree::Ontology, rest))
    } else if next_is_byte(b'p', text) {
        let (query, rest) = read_word_and_query(alloc, b"prepare", text)?;
        Ok((CommandTree::Prepare(query), rest))
    } else if next_is_byte(b'r', text) {
        read_r_command(text)
    } else {
        read_t_command(text)
    }
}

/// A comment, which takes all of the text.
#[tactic(auto, unfolding(crate::specs::CommandReading::comment_at))]
fn read_comment(text: &[u8]) -> Result<(CommandTree, &[u8]), ReadError>
    ensures { Gives (λ x. (x.0, x.1.now)) result (comment_at text.now) }
{
    let rest = expect(b"#", text)?;
    let (_, rest) = rest.split_at(rest.len());
    Ok((CommandTree::Blank, rest))
}

/// What a line says, and the text behind it.
#[tactic(auto, unfolding(crate::specs::CommandReading::script_line_at))]
pub(crate) fn read_script_line(
    alloc: Global,
    text: &[u8],
) -> Result<(CommandTree, &[u8]), ReadError>
    ensures { Gives (λ x. (x.0, x.1.now)) result (script_line_at text.now) }
{
    let (_, rest) = skip_blanks(text);
    if rest.is_empty() {
        return Ok((CommandTree::Blank, rest));
    }
    if next_is_byte(b'#', rest) {
        return read_comment(rest);
    }
    read_command_text(alloc, rest)
}
