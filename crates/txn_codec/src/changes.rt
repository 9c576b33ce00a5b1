//! Writing the payload of a transaction.

ghost use Rattle.std.specs.Prelude.{◌≡◌, ◌+◌, ◌*◌, ◌≤◌, ◌++◌, length, OnOk, OnErr, IsOk, All, vec_len, vec_capacity};
ghost use Rattle.std.specs.List.{flat_map};
ghost use Rattle.txn_codec.specs.Changes.{changes_payload};
ghost use Rattle.txn_codec.specs.Spelling.{row_bytes, change_bytes, changes_bytes, HasNames};
ghost use Rattle.txn_codec.specs.Room.{HasRoom, Appends};

use crate::put::{name_len, put, put_name};
use dl_base::{NamedChange, NamedRow};
use std::alloc::AllocError;

/// How many bytes `write_changes` appends for these changes: at most 770 for each, and 4. It takes no memory.
pub fn changes_len(changes: &[NamedChange]) -> u64
    requires { length changes.now ≤ 4294967295 }
    ensures len { result ≡ length (changes_bytes changes.now) }
    ensures most { result ≤ 4 + 770 * length changes.now }
{
    let mut len = 4;
    for change in changes {
        len += 1 + row_len(&change.row);
    }
    len
}

fn row_len(row: &NamedRow) -> u64
    ensures len { result ≡ length (row_bytes row.now) }
    ensures most { result ≤ 769 }
{
    match row {
        NamedRow::Concept {
            concept,
            individual,
        } => 1 + name_len(concept) + name_len(individual),
        NamedRow::Role { role, from, to } => 1 + name_len(role) + name_len(from) + name_len(to),
    }
}

/// Appends the payload of these changes. At `AllocError` the bytes are as they were; it doesn't come where they have
/// room for as many as `changes_len` tells.
pub fn write_changes(changes: &[NamedChange], out: &mut Vec<u8>) -> Result<(), AllocError>
    requires { length changes.now ≤ 4294967295 }

    // The bytes that are appended are a payload of these changes.
    ensures appended { OnOk result (out.new.items ≡ out.old.items ++ changes_bytes changes.now) }
    ensures payload { OnOk result (changes_payload (changes_bytes changes.now) changes.now) }
    ensures err { OnErr result (out.new.items ≡ out.old.items) }

    // With room for them no memory is wanted.
    ensures succeeds { HasRoom out.old (length (changes_bytes changes.now)) → IsOk result }
{
    out.reserve(changes_len(changes) as usize)?;
    put_changes(changes, out);
    Ok(())
}

fn put_changes(changes: &[NamedChange], out: &mut Vec<u8>)
    requires few { length changes.now ≤ 4294967295 }
    requires room { HasRoom out.old (length (changes_bytes changes.now)) }
    ensures appended { Appends out.old out.new (changes_bytes changes.now) }
    ensures names { All (λ c. HasNames c.row) changes.now }
{
    put(&(changes.len() as u32).to_be_bytes(), out);
    for change in changes {
        put_change(change, out);
    }
}

fn put_change(change: &NamedChange, out: &mut Vec<u8>)
    requires { HasRoom out.old (length (change_bytes change.now)) }
    ensures appended { Appends out.old out.new (change_bytes change.now) }
    ensures names { HasNames change.now.row }
{
    put(&[change.add as u8], out);
    put_row(&change.row, out);
}

fn put_row(row: &NamedRow, out: &mut Vec<u8>)
    requires { HasRoom out.old (length (row_bytes row.now)) }
    ensures appended { Appends out.old out.new (row_bytes row.now) }
    ensures names { HasNames row.now }
{
    match row {
        NamedRow::Concept {
            concept,
            individual,
        } => {
            put(&[2], out);
            put_name(concept, out);
            put_name(individual, out);
        }
        NamedRow::Role { role, from, to } => {
            put(&[3], out);
            put_name(role, out);
            put_name(from, out);
            put_name(to, out);
        }
    }
}
