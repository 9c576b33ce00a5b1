//! The text of a reply, appended.
ghost use Rattle.std.specs.Prelude.{◌≡◌, ◌++◌, [], ◌∷◌, map, OnOk, OnErr};
ghost use Rattle.std.specs.List.{flat_map};
ghost use Rattle.std.specs.Fmt.{decimal};
ghost use Rattle.reply_text.specs.Extending.{IsAppendedTo};
ghost use Rattle.reply_text.specs.ReplyText.{IsAcknowledgement, answers_text, behind_spaces, cause_word, clash_text, end_count_line, ended_line, error_number, error_text, error_words, key_line, path_words, prepared_text, role_text, table_text, text_of_reply};

use crate::ack::ack_bytes;
use crate::reply::{Refusal, Reply};
use crate::size::size_hint;
use crate::table_line::TableLine;
use axiom_reader::{BlockCause, BlockError};
use dl_base::{Clash, Key, NamedRole};
use gen_arena::Handle;
use itoa::Buffer;
use std::alloc::AllocError;

/// Appends the text of the reply. After `AllocError` there is what was there before.
pub fn reply_bytes(reply: &Reply, out: &mut Vec<u8>) -> Result<(), AllocError>
    ensures written { OnOk result (out.new.items ≡ out.old.items ++ text_of_reply reply.now) }
    ensures kept { OnErr result (out.new.items ≡ out.old.items) }
{
    out.reserve(size_hint(reply))?;
    let before = out.len();
    let written = append_reply(reply, out);
    if written.is_err() {
        out.truncate(before);
    }
    written
}

fn append_reply(reply: &Reply, out: &mut Vec<u8>) -> Result<(), AllocError>
    ensures written { OnOk result (out.new.items ≡ out.old.items ++ text_of_reply reply.now) }
    ensures more { OnErr result (IsAppendedTo out.old.items out.new.items) }
{
    match reply {
        Reply::Prepared(handle) => append_prepared(*handle, out),
        Reply::Answers(keys) => append_answers(keys.items(), out),
        Reply::Consistent => out.extend_from_slice(b"consistent\n"),
        Reply::Inconsistent(clash) => append_clash(clash, out),
        Reply::Table(lines) => append_table(lines.items(), out),
        Reply::Error(refusal) => append_error(refusal, out),
        Reply::Done | Reply::Committed { .. } | Reply::Loaded { .. } | Reply::Reopened { .. } =>
            append_ack(reply, out),
    }
}

fn append_ack(reply: &Reply, out: &mut Vec<u8>) -> Result<(), AllocError>
    requires { IsAcknowledgement reply.now }
    ensures written { OnOk result (out.new.items ≡ out.old.items ++ text_of_reply reply.now) }
    ensures more { OnErr result (IsAppendedTo out.old.items out.new.items) }
{
    let mut buf = [0; 80];
    let len = ack_bytes(reply, &mut buf);
    out.extend_from_slice(&buf[..len])
}

/// Appends a space and the word.
fn append_word(word: &[u8], out: &mut Vec<u8>) -> Result<(), AllocError>
    ensures written { OnOk result (out.new.items ≡ out.old.items ++ 32 ∷ word.now) }
    ensures more { OnErr result (IsAppendedTo out.old.items out.new.items) }
{
    out.push(b' ')?;
    out.extend_from_slice(word)
}

/// Appends a space and the number.
fn append_number(number: u64, out: &mut Vec<u8>) -> Result<(), AllocError>
    ensures written { OnOk result (out.new.items ≡ out.old.items ++ 32 ∷ decimal number) }
    ensures more { OnErr result (IsAppendedTo out.old.items out.new.items) }
{
    let mut buffer = Buffer::new();
    append_word(buffer.format(number).as_bytes(), out)
}

/// The line of a handle: the number of its slot and its generation, with a point between them.
fn append_prepared(handle: Handle, out: &mut Vec<u8>) -> Result<(), AllocError>
    ensures written { OnOk result (out.new.items ≡ out.old.items ++ prepared_text handle) }
    ensures more { OnErr result (IsAppendedTo out.old.items out.new.items) }
{
    out.extend_from_slice(b"prepared")?;
    append_number(handle.slot as u64, out)?;
    out.push(b'.')?;
    let mut buffer = Buffer::new();
    out.extend_from_slice(buffer.format(handle.generation).as_bytes())?;
    out.push(b'\n')?;
    Ok(())
}

/// A line for each key, and one with their number.
fn append_answers(keys: &[Key], out: &mut Vec<u8>) -> Result<(), AllocError>
    ensures written { OnOk result (out.new.items ≡ out.old.items ++ answers_text keys.now) }
    ensures more { OnErr result (IsAppendedTo out.old.items out.new.items) }
{
    append_keys(keys, out)?;
    append_end(keys.len() as u64, out)
}

/// The line that ends a reply: the number of lines before it.
fn append_end(count: u64, out: &mut Vec<u8>) -> Result<(), AllocError>
    ensures written { OnOk result (out.new.items ≡ out.old.items ++ end_count_line count) }
    ensures more { OnErr result (IsAppendedTo out.old.items out.new.items) }
{
    out.extend_from_slice(b"end")?;
    append_number(count, out)?;
    out.push(b'\n')?;
    Ok(())
}

/// A line for each key.
#[tactic(auto, using(crate::proofs::ExtendingRules::extends_further))]
fn append_keys(keys: &[Key], out: &mut Vec<u8>) -> Result<(), AllocError>
    ensures written { OnOk result (out.new.items ≡ out.old.items ++ flat_map key_line keys.now) }
    ensures more { OnErr result (IsAppendedTo out.old.items out.new.items) }
{
    for key in keys {
        append_key(key, out)?;
    }
    Ok(())
}

/// The line of a key: `answer`, and each name behind a space.
fn append_key(key: &Key, out: &mut Vec<u8>) -> Result<(), AllocError>
    ensures written { OnOk result (out.new.items ≡ out.old.items ++ key_line key.now) }
    ensures more { OnErr result (IsAppendedTo out.old.items out.new.items) }
{
    out.extend_from_slice(b"answer")?;
    for name in key.items() {
        append_word(name.bytes(), out)?;
    }
    out.push(b'\n')?;
    Ok(())
}

/// The lines of tables, and one with their number.
fn append_table(lines: &[TableLine], out: &mut Vec<u8>) -> Result<(), AllocError>
    ensures written { OnOk result (out.new.items ≡ out.old.items ++ table_text lines.now) }
    ensures more { OnErr result (IsAppendedTo out.old.items out.new.items) }
{
    append_lines(lines, out)?;
    append_end(lines.len() as u64, out)
}

/// The lines of tables, each with its end.
#[tactic(auto, using(crate::proofs::ExtendingRules::extends_further))]
fn append_lines(lines: &[TableLine], out: &mut Vec<u8>) -> Result<(), AllocError>
    ensures written { OnOk result (out.new.items ≡ out.old.items ++ flat_map ended_line lines.now) }
    ensures more { OnErr result (IsAppendedTo out.old.items out.new.items) }
{
    for line in lines {
        append_line(line, out)?;
    }
    Ok(())
}

/// A line of tables, with its end.
fn append_line(line: &TableLine, out: &mut Vec<u8>) -> Result<(), AllocError>
    ensures written { OnOk result (out.new.items ≡ out.old.items ++ ended_line line.now) }
    ensures more { OnErr result (IsAppendedTo out.old.items out.new.items) }
{
    out.extend_from_slice(line.text())?;
    out.push(b'\n')?;
    Ok(())
}

/// The line of a clash.
fn append_clash(clash: &Clash, out: &mut Vec<u8>) -> Result<(), AllocError>
    ensures written { OnOk result (out.new.items ≡ out.old.items ++ clash_text clash.now) }
    ensures more { OnErr result (IsAppendedTo out.old.items out.new.items) }
{
    out.extend_from_slice(b"inconsistent")?;
    append_number(clash.inclusion as u64, out)?;
    append_word(clash.name.bytes(), out)?;
    append_path(clash.path.items(), out)?;
    out.push(b'\n')?;
    Ok(())
}

/// `via` and each role behind a space, where there is one.
fn append_path(path: &[NamedRole], out: &mut Vec<u8>) -> Result<(), AllocError>
    ensures written { OnOk result (out.new.items ≡ out.old.items ++ behind_spaces (path_words path.now)) }
    ensures more { OnErr result (IsAppendedTo out.old.items out.new.items) }
{
    if path.is_empty() {
        return Ok(());
    }
    append_word(b"via", out)?;
    append_roles(path, out)
}

/// Each role behind a space.
#[tactic(auto, using(crate::proofs::ExtendingRules::extends_further))]
fn append_roles(roles: &[NamedRole], out: &mut Vec<u8>) -> Result<(), AllocError>
    ensures written { OnOk result (out.new.items ≡ out.old.items ++ behind_spaces (map role_text roles.now)) }
    ensures more { OnErr result (IsAppendedTo out.old.items out.new.items) }
{
    for role in roles {
        append_role(role, out)?;
    }
    Ok(())
}

/// A space and the role.
fn append_role(role: &NamedRole, out: &mut Vec<u8>) -> Result<(), AllocError>
    ensures written { OnOk result (out.new.items ≡ out.old.items ++ 32 ∷ role_text role.now) }
    ensures more { OnErr result (IsAppendedTo out.old.items out.new.items) }
{
    if !role.inverse {
        return append_word(role.name.bytes(), out);
    }
    out.extend_from_slice(b" Inv(")?;
    out.extend_from_slice(role.name.bytes())?;
    out.push(b')')?;
    Ok(())
}

/// The line of a refusal.
fn append_error(refusal: &Refusal, out: &mut Vec<u8>) -> Result<(), AllocError>
    ensures written { OnOk result (out.new.items ≡ out.old.items ++ error_text refusal.now) }
    ensures more { OnErr result (IsAppendedTo out.old.items out.new.items) }
{
    out.extend_from_slice(b"error")?;
    append_number(error_number(refusal), out)?;
    append_error_words(refusal, out)?;
    out.push(b'\n')?;
    Ok(())
}

fn error_number(refusal: &Refusal) -> u64
    ensures { result ≡ error_number refusal.now }
{
    match refusal {
        Refusal::Syntax(_) => 1,
        Refusal::LineTooLong => 2,
        Refusal::NoOntology => 3,
        Refusal::OntologyThere => 4,
        Refusal::Block(_) => 5,
        Refusal::UnknownConcept(_) => 6,
        Refusal::UnknownRole(_) => 7,
        Refusal::NotOpen => 8,
        Refusal::AlreadyOpen => 9,
        Refusal::Pending => 10,
        Refusal::Crowded => 11,
        Refusal::LogFull => 12,
        Refusal::NeverGiven => 13,
        Refusal::Dropped(_) => 14,
        Refusal::NoSlot => 15,
        Refusal::QueryTooLarge => 16,
        Refusal::UnsafeVariable(_) => 17,
    }
}

/// What stands behind the number of a refusal, each word behind a space.
fn append_error_words(refusal: &Refusal, out: &mut Vec<u8>) -> Result<(), AllocError>
    ensures written { OnOk result (out.new.items ≡ out.old.items ++ behind_spaces (error_words refusal.now)) }
    ensures more { OnErr result (IsAppendedTo out.old.items out.new.items) }
{
    match refusal {
        Refusal::Syntax(number) | Refusal::Dropped(number) => append_number(*number, out),
        Refusal::Block(error) => append_block_error(error, out),
        Refusal::UnknownConcept(name) | Refusal::UnknownRole(name) => {
            append_word(name.bytes(), out)
        }
        Refusal::UnsafeVariable(variable) => {
            out.extend_from_slice(b" ?")?;
            out.extend_from_slice(variable.bytes())
        }
        Refusal::LineTooLong
        | Refusal::NoOntology
        | Refusal::OntologyThere
        | Refusal::NotOpen
        | Refusal::AlreadyOpen
        | Refusal::Pending
        | Refusal::Crowded
        | Refusal::LogFull
        | Refusal::NeverGiven
        | Refusal::NoSlot
        | Refusal::QueryTooLarge => Ok(()),
    }
}

/// The line of a block that offends and why, each behind a space.
fn append_block_error(error: &BlockError, out: &mut Vec<u8>) -> Result<(), AllocError>
    ensures written { OnOk result (out.new.items ≡ out.old.items ++ behind_spaces (decimal error.now.line ∷ cause_word error.now.cause ∷ [])) }
    ensures more { OnErr result (IsAppendedTo out.old.items out.new.items) }
{
    append_number(error.line, out)?;
    match error.cause {
        BlockCause::Syntax => append_word(b"syntax", out),
        BlockCause::Limit => append_word(b"limit", out),
        BlockCause::Length => append_word(b"length", out),
    }
}
