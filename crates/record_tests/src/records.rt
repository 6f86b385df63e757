//! Columns, and records by rising keys.
ghost use Rattle.std.specs.Prelude.{◌≡◌};
ghost use Rattle.std.specs.FinMap.{is_sorted};
ghost use Rattle.std.specs.FinMap.Entries.{below_all};
ghost use Rattle.shadow_records.specs.Keys.{key_cmp};

use row_model::{Column, Kind};
use std::alloc::Global;
use vec_base::{Bytes, List, Memory, ShadowKey, Txt};

/// The kind and the second number of no record.
pub(crate) const NONE: (u8, i64) = (0, 0);

/// A column.
pub(crate) fn column(alloc: Global, name: &str, kind: Kind) -> Result<Column, Memory> {
    Ok(Column {
        name: Txt::from_text(alloc, name)?,
        kind,
    })
}

/// A key of the table with the number 2.
pub(crate) fn key(kind: u8, a: i64, b: i64) -> ShadowKey {
    ShadowKey {
        table: 2,
        kind,
        a,
        b,
    }
}

/// Records of that table, each by its kind, the two numbers of its key and its body, without those of one kind that
/// have this second number.
pub(crate) fn listed(
    alloc: Global,
    given: &[(u8, i64, i64, &[u8])],
    left_out: (u8, i64),
) -> Result<List<(ShadowKey, Bytes)>, Memory> {
    let mut records = List::new(alloc);
    for (kind, a, b, bytes) in given {
        if (*kind, *b) != left_out {
            records.push((key(*kind, *a, *b), Bytes::from_slice(alloc, bytes)?))?;
        }
    }
    Ok(records)
}

/// Whether the key is below those of all records.
fn is_below(key: &ShadowKey, records: &[(ShadowKey, Bytes)]) -> bool
    ensures { result ≡ below_all key_cmp key.now records.now }
{
    match records {
        [] => true,
        [first, rest @ ..] => key.cmp(&first.0).is_lt() && is_below(key, rest),
    }
}

/// Whether the keys rise.
pub(crate) fn rise(records: &[(ShadowKey, Bytes)]) -> bool
    ensures { result ≡ is_sorted key_cmp records.now }
{
    match records {
        [] => true,
        [first, rest @ ..] => is_below(&first.0, rest) && rise(rest),
    }
}
