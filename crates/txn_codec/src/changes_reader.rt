//! Reading the payload of a transaction as a list of its changes.

ghost use Rattle.std.specs.Prelude.{◌≡◌, IfOk, IfErr, List};
ghost use Rattle.dl_base.specs.declared.row.NamedChange.{NamedChange};
ghost use Rattle.txn_codec.specs.Changes.{changes_payload};
ghost use Rattle.txn_codec.specs.Count.{IsCountOfChanges};
ghost use Rattle.txn_codec.specs.Fault.{IsChangesFault};

use crate::{ChangeReader, CodecError};
use byteorder::{BigEndian, ByteOrder};
use dl_base::{Changes, Items};
use std::alloc::{AllocError, Global};

/// How many changes the bytes have, where they are a payload of changes; none where they are too short to be one. It
/// takes no memory, so that a payload of too many changes can be refused before it is read.
pub fn count_of_changes(bytes: &[u8]) -> Option<u32>
    ensures { IsCountOfChanges bytes.now result }
{
    if bytes.len() < 4 {
        return None;
    }
    Some(BigEndian::read_u32(bytes))
}

/// The changes that the bytes are the payload of. Bytes that are none take no memory.
pub fn read_changes(alloc: Global, bytes: &[u8]) -> Result<Changes, CodecError>
    // The bytes are the payload of these changes and of no others.
    ensures found { IfOk result (λ changes. changes_payload bytes.now changes) }
    ensures only { IfOk result (λ changes. (others : List NamedChange) → changes_payload bytes.now others → others ≡ changes) }

    // Else the place is the one where no payload goes on.
    ensures fault { IfErr result (λ error. IsChangesFault bytes.now error) }
{
    let reader = ChangeReader::new(bytes)?;
    match list_of(alloc, reader) {
        Ok(changes) => Ok(changes),
        Err(AllocError) => Err(CodecError::NoMemory),
    }
}

/// The list of the changes that are left.
fn list_of(alloc: Global, reader: ChangeReader<'_>) -> Result<Changes, AllocError>
    ensures { IfOk result (λ changes. changes ≡ reader.entry) }
{
    let mut changes = Vec::with_capacity(alloc, reader.left() as usize)?;
    for change in reader {
        changes.push(change.to_change(alloc)?)?;
    }
    Ok(Items::from_vec(changes))
}
