//! Entries in order.
ghost use Rattle.std.specs.Prelude.{◌≡◌, ◌↔◌, Contains, map};
ghost use Rattle.std.specs.List.Sorted.{IsStrictlySortedBy};
ghost use Rattle.table_report.specs.Gathered.{entry_of};
ghost use Rattle.table_report.specs.TableLines.{Entry, entry_cmp};

use crate::entry::EntryRef;

/// The same entries in order, each once. It takes no memory.
pub(crate) fn in_order(mut entries: Vec<EntryRef<'_>>) -> Vec<EntryRef<'_>>
    ensures rising { IsStrictlySortedBy entry_cmp (map entry_of result.items) }
    ensures same { (x : Entry) → Contains (map entry_of result.items) x ↔ Contains (map entry_of entries.entry.items) x }
{
    entries.sort_unstable();
    entries.dedup();
    entries
}
