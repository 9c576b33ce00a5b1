//! How long a reply's text will be, so that its room is reserved once.

use crate::reply::Reply;
use crate::table_line::TableLines;
use dl_base::{Clash, Key, Keys};

/// About how many bytes the text of the reply has, and no fewer than it has where memory could hold them. Nothing
/// rests on it but how often the text is moved while it grows.
pub fn size_hint(reply: &Reply) -> usize {
    match reply {
        Reply::Answers(keys) => answers_size(keys),
        Reply::Inconsistent(clash) => clash_size(clash),
        Reply::Table(lines) => table_size(lines),
        Reply::Done
        | Reply::Committed { .. }
        | Reply::Loaded { .. }
        | Reply::Reopened { .. }
        | Reply::Prepared(_)
        | Reply::Consistent
        | Reply::Error(_) => 80,
    }
}

fn answers_size(keys: &Keys) -> usize {
    let mut size = 25usize;
    for key in keys.items() {
        size = size.saturating_add(key_size(key));
    }
    size
}

fn key_size(key: &Key) -> usize {
    let mut size = 7usize;
    for name in key.items() {
        size = size.saturating_add(name.bytes().len()).saturating_add(1);
    }
    size
}

fn table_size(lines: &TableLines) -> usize {
    let mut size = 25usize;
    for line in lines.items() {
        size = size.saturating_add(line.text().len()).saturating_add(1);
    }
    size
}

fn clash_size(clash: &Clash) -> usize {
    let mut size = 300usize;
    for role in clash.path.items() {
        size = size
            .saturating_add(role.name.bytes().len())
            .saturating_add(6);
    }
    size
}
