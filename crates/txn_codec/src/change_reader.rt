//! Reading the changes of a payload one at a time.

ghost use Rattle.std.specs.Prelude.{◌≡◌, IfOk, IfErr, List, length};
ghost use Rattle.std.specs.Iterator.{YieldsFirstBy, item_count};
ghost use Rattle.grammar.specs.Reading.{whole};
ghost use Rattle.dl_base.specs.declared.row.NamedChange.{NamedChange};
ghost use Rattle.txn_codec.specs.Changes.{changes_payload};
ghost use Rattle.txn_codec.specs.ChangesReading.{sign_at, row_at, change_at, changes_at};
ghost use Rattle.txn_codec.specs.ChangeView.{row_viewed, change_viewed};
ghost use Rattle.txn_codec.specs.Fault.{NamesChangesFault};
ghost use Rattle.txn_codec.specs.PiecesReading.{times_at};
ghost use Rattle.txn_codec.specs.Skimming.{Skims, behind};

use crate::pieces::{skim_byte, skim_spelled_name, skim_u32};
use crate::stop::Stop;
use crate::{ChangeView, CodecError, RowView};
use grammar::next_is_byte;
use std::marker::Model;

/// Whether a row is added, else it is removed.
#[tactic(auto, unfolding(crate::specs::ChangesReading::sign_at))]
fn skim_sign(text: &[u8]) -> Result<(bool, &[u8]), Stop>
    ensures { Skims (λ x. (x.0, x.1.now)) result (sign_at text.now) }
{
    if next_is_byte(1, text) {
        let rest = skim_byte(1, text)?;
        Ok((true, rest))
    } else {
        let rest = skim_byte(0, text)?;
        Ok((false, rest))
    }
}

/// A row behind the number of its names.
#[tactic(auto, unfolding(crate::specs::ChangesReading::row_at))]
fn skim_row(text: &[u8]) -> Result<(RowView<'_>, &[u8]), Stop>
    ensures { Skims (λ x. (row_viewed x.0, x.1.now)) result (row_at text.now) }
{
    if next_is_byte(2, text) {
        let rest = skim_byte(2, text)?;
        let (concept, rest) = skim_spelled_name(rest)?;
        let (individual, rest) = skim_spelled_name(rest)?;
        Ok((
            RowView::Concept {
                concept,
                individual,
            },
            rest,
        ))
    } else {
        let rest = skim_byte(3, text)?;
        let (role, rest) = skim_spelled_name(rest)?;
        let (from, rest) = skim_spelled_name(rest)?;
        let (to, rest) = skim_spelled_name(rest)?;
        Ok((RowView::Role { role, from, to }, rest))
    }
}

#[tactic(auto, unfolding(crate::specs::ChangesReading::change_at))]
fn skim_change(text: &[u8]) -> Result<(ChangeView<'_>, &[u8]), Stop>
    ensures { Skims (λ x. (change_viewed x.0, x.1.now)) result (change_at text.now) }
{
    let (add, rest) = skim_sign(text)?;
    let (row, rest) = skim_row(rest)?;
    Ok((ChangeView { add, row }, rest))
}

/// The bytes behind so many changes.
#[tactic(auto, using(crate::proofs::Skipped::skipped_changes))]
fn skip_changes(count: u32, text: &[u8]) -> Result<&[u8], Stop>
    ensures { Skims (λ rest. rest.now) result (behind (times_at change_at count text.now)) }
{
    let mut rest = text;
    for _ in 0..count {
        let (_, after) = skim_change(rest)?;
        rest = after;
    }
    Ok(rest)
}

/// The reader of bytes that are a payload, before its first change.
#[tactic(auto, unfolding(crate::specs::ChangesReading::changes_at))]
fn checked(text: &[u8]) -> Result<ChangeReader<'_>, Stop>
    ensures { Skims (λ reader. reader) result (whole (changes_at text.now)) }
{
    let (count, rest) = skim_u32(text)?;
    let end = skip_changes(count, rest)?;
    if !end.is_empty() {
        return Err(Stop { left: end.len() });
    }
    Ok(ChangeReader { left: count, rest })
}

/// Hands out the changes of a payload, which was checked to its end, one after another. It takes no memory. Contracts see it
/// as the list of the changes that are left.
#[derive(Drop)]
pub struct ChangeReader<'a> {
    left: u32,
    rest: &'a [u8],
}

impl<'a> Model for ChangeReader<'a> {
    ghost use Rattle.std.specs.Prelude.{◌≡◌, List, [], Ok};
    ghost use Rattle.dl_base.specs.declared.row.NamedChange.{NamedChange};
    ghost use Rattle.txn_codec.specs.ChangesReading.{change_at};
    ghost use Rattle.txn_codec.specs.PiecesReading.{times_at};
    ghost use Rattle.txn_codec.specs.Skimming.{value_or};

    ghost Value = { List NamedChange };

    ghost view = { λ r. value_or [] (times_at change_at r.left r.rest.now) };

    ghost invariant = { λ r. times_at change_at r.left r.rest.now ≡ Ok (value_or [] (times_at change_at r.left r.rest.now), []) };
}

impl<'a> ChangeReader<'a> {
    /// The reader of the changes that the bytes are the payload of. It goes over all the bytes. `Bad` comes exactly where they
    /// are no payload, and `NoMemory` never.
    pub fn new(bytes: &'a [u8]) -> Result<ChangeReader<'a>, CodecError>
        // The bytes are the payload of these changes and of no others.
        ensures found { IfOk result (λ changes. changes_payload bytes.now changes) }
        ensures only { IfOk result (λ changes. (others : List NamedChange) → changes_payload bytes.now others → others ≡ changes) }

        // Else the place is the one where no payload goes on.
        ensures fault { IfErr result (λ error. NamesChangesFault bytes.now error) }
    {
        match checked(bytes) {
            Ok(reader) => Ok(reader),
            Err(stop) => Err(CodecError::Bad((bytes.len() - stop.left) as u64)),
        }
    }

    /// How many changes are left.
    pub fn left(&self) -> u32
        ensures { result ≡ length self.now }
    {
        self.left
    }
}

impl<'a> Iterator for ChangeReader<'a> {
    type Item = ChangeView<'a>;

    ghost next_gives = { YieldsFirstBy change_viewed (λ changes. changes) };

    ghost remaining = { item_count (λ changes. changes) };

    fn next(&mut self) -> Option<ChangeView<'a>> {
        if self.left == 0 {
            return None;
        }
        match skim_change(self.rest) {
            Ok((change, rest)) => {
                self.left -= 1;
                self.rest = rest;
                Some(change)
            }
            Err(_) => unreachable!(),
        }
    }
}
