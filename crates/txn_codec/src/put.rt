//! Appending to bytes that have room.

ghost use Rattle.std.specs.Prelude.{◌≡◌, ◌≤◌, length};
ghost use Rattle.dl_base.specs.Names.{IsName};
ghost use Rattle.txn_codec.specs.Spelling.{name_bytes};
ghost use Rattle.txn_codec.specs.Room.{HasRoom, Appends};

use dl_base::Name;

/// Appends the bytes.
pub(crate) fn put(bytes: &[u8], out: &mut Vec<u8>)
    requires { HasRoom out.old (length bytes.now) }
    ensures { Appends out.old out.new bytes.now }
{
    if out.extend_from_slice(bytes).is_err() {
        unreachable!();
    }
}

/// Appends a name behind its length.
pub(crate) fn put_name(name: &Name, out: &mut Vec<u8>)
    requires { HasRoom out.old (length (name_bytes name.now)) }
    ensures appended { Appends out.old out.new (name_bytes name.now) }
    ensures name { IsName name.now }
{
    let bytes = name.bytes();
    put(&[bytes.len() as u8], out);
    put(bytes, out);
}

/// How many bytes a name takes behind its length.
pub(crate) fn name_len(name: &Name) -> u64
    ensures len { result ≡ length (name_bytes name.now) }
    ensures most { result ≤ 256 }
{
    1 + name.bytes().len() as u64
}
