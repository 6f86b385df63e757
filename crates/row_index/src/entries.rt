//! Entries by rising rowids.
ghost use Rattle.std.specs.Prelude.{◌≡◌, ◌≤◌, false, true, if◌then◌else◌, is_ok, length};
ghost use Rattle.std.specs.List.Sorted.{IsPartitionPoint};
ghost use Rattle.std.specs.Option.{option_copied};
ghost use Rattle.row_index.specs.Entries.{entry_of as spec_entry_of, has_rowid, is_behind, with_entry};
ghost use Rattle.row_index.specs.inner.Pairs.{RowidsRise};

use crate::entry::Entry;
use crate::search::search;
use shared_leaves::Leaves;
use vec_base::Memory;

/// The entry of a rowid.
pub(crate) fn entry_of<'a>(entries: &'a Leaves<Entry>, rowid: &i64) -> Option<&'a Entry>
    requires { RowidsRise entries.now }
    ensures { option_copied result ≡ spec_entry_of rowid.now entries.now }
{
    match search(entries, rowid) {
        Ok(at) => Some(entries.get(at)),
        Err(_) => None,
    }
}

/// The place of the first entry above a rowid, or of the first of all.
pub(crate) fn place_after(entries: &Leaves<Entry>, after: &Option<i64>) -> usize
    requires { RowidsRise entries.now }
    ensures within { result ≤ length entries.now }
    ensures place { IsPartitionPoint (λ entry. is_behind after.now entry.rowid ≡ false) (λ entry. is_behind after.now entry.rowid ≡ true) entries.now result }
{
    let Some(rowid) = after else {
        return 0;
    };
    // A place before the end has a next one that fits.
    let _count = entries.len();
    match search(entries, rowid) {
        Ok(at) => at + 1,
        Err(at) => at,
    }
}

/// Puts in the entry of a rowid that none has.
pub(crate) fn insert(entries: &mut Leaves<Entry>, entry: Entry) -> Result<(), Memory>
    requires rising { RowidsRise entries.old }
    requires fresh { has_rowid entry.rowid entries.old ≡ false }
    ensures entries { entries.new ≡ (if is_ok result then with_entry entry entries.old else entries.old) }
    ensures rise { RowidsRise entries.new }
{
    match search(entries, &entry.rowid) {
        Ok(_) => unreachable!(),
        Err(at) => entries.insert(at, entry),
    }
}
