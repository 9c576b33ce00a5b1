//! Entries as lines.
ghost use Rattle.std.specs.Prelude.{◌≡◌, ◌++◌, ◌∷◌, IfOk, OnOk, map, true, false};
ghost use Rattle.std.specs.Fmt.{decimal};
ghost use Rattle.reply_text.specs.ReplyText.{role_text};
ghost use Rattle.table_report.specs.Gathered.{entry_of, member_of, role_read};
ghost use Rattle.table_report.specs.TableLines.{WitnessEntry, entry_text, member_text};

use crate::entry::{EntryRef, MemberRef, RoleRef};
use dl_base::Items;
use itoa::Buffer;
use reply_text::{TableLine, TableLines};
use std::alloc::{AllocError, Global};

/// The lines of the entries.
pub(crate) fn lines(alloc: Global, entries: &[EntryRef<'_>]) -> Result<TableLines, AllocError>
    ensures { IfOk result (λ lines. lines ≡ map entry_text (map entry_of entries.now)) }
{
    let mut lines = Items::new(alloc);
    for entry in entries {
        lines.push(line(alloc, entry)?)?;
    }
    Ok(lines)
}

/// The line of the entry.
fn line(alloc: Global, entry: &EntryRef<'_>) -> Result<TableLine, AllocError>
    ensures { IfOk result (λ line. line ≡ entry_text (entry_of entry.now)) }
{
    let mut text = Vec::new(alloc);
    append_entry(entry, &mut text)?;
    Ok(TableLine::new(text))
}

/// Appends the text of the entry.
fn append_entry(entry: &EntryRef<'_>, out: &mut Vec<u8>) -> Result<(), AllocError>
    ensures { OnOk result (out.new.items ≡ out.old.items ++ entry_text (entry_of entry.now)) }
{
    match entry {
        EntryRef::Witness { role, generation } => append_witness(role, *generation, out),
        EntryRef::Concept { concept, member } => {
            out.extend_from_slice(b"concept ")?;
            out.extend_from_slice(concept.bytes())?;
            append_member(member, out)
        }
        EntryRef::Role { role, from, to } => {
            out.extend_from_slice(b"role ")?;
            out.extend_from_slice(role.bytes())?;
            append_member(from, out)?;
            append_member(to, out)
        }
    }
}

/// Appends what is said of a live role.
fn append_witness(role: &RoleRef<'_>, generation: u64, out: &mut Vec<u8>) -> Result<(), AllocError>
    ensures { OnOk result (out.new.items ≡ out.old.items ++ entry_text (WitnessEntry (role_read role.now) generation)) }
{
    out.extend_from_slice(b"witness ")?;
    append_role(role, out)?;
    let mut buffer = Buffer::new();
    out.push(b' ')?;
    out.extend_from_slice(buffer.format(generation).as_bytes())
}

/// Appends a space and the member: an individual's name, or a star and the witness's role.
fn append_member(member: &MemberRef<'_>, out: &mut Vec<u8>) -> Result<(), AllocError>
    ensures { OnOk result (out.new.items ≡ out.old.items ++ 32 ∷ member_text (member_of member.now)) }
{
    match member {
        MemberRef::Individual(name) => {
            out.push(b' ')?;
            out.extend_from_slice(name.bytes())
        }
        MemberRef::Witness(role) => {
            out.extend_from_slice(b" *")?;
            append_role(role, out)
        }
    }
}

/// Appends the role: its name, or `Inv(name)`.
fn append_role(role: &RoleRef<'_>, out: &mut Vec<u8>) -> Result<(), AllocError>
    ensures { OnOk result (out.new.items ≡ out.old.items ++ role_text (role_read role.now)) }
{
    if !role.inverse {
        return out.extend_from_slice(role.name.bytes());
    }
    out.extend_from_slice(b"Inv(")?;
    out.extend_from_slice(role.name.bytes())?;
    out.push(b')')?;
    Ok(())
}
