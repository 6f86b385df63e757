//! The changes that keep a table without rows.
ghost use Rattle.std.specs.Prelude.{◌≡◌, IfOk};
ghost use Rattle.kept_tests.specs.Columns.{one_column};

use crate::keeping::key;
use row_model::{Column, Kind, Metric, Schema};
use std::alloc::Global;
use std::test::Fail;
use table_changes::changes_since;
use table_version::TableVersion;
use vec_base::{Change, List, Memory, ShadowKey, Txt};

/// The name behind its length, and the columns.
const INFO: &[u8] = b"\x01va int8[2] distance_metric=l2, chunk_size=1024";

/// Vectors of two elements, in chunks of 1024 rows.
fn schema(alloc: Global) -> Result<Schema, Memory>
    ensures columns { IfOk result (λ schema. schema.columns ≡ one_column) }
    ensures size { IfOk result (λ schema. schema.chunk_size ≡ 1024) }
{
    let mut columns = List::new(alloc);
    columns.push(Column {
        name: Txt::from_text(alloc, "a")?,
        kind: Kind::Int8Vector(2, Metric::L2),
    })?;
    Ok(Schema {
        columns,
        chunk_size: 1024,
    })
}

/// A table without rows.
fn table(alloc: Global) -> Result<TableVersion, Memory> {
    let name = Txt::from_text(alloc, "v")?;
    TableVersion::new(alloc, name, schema(alloc)?)
}

/// Whether the change puts the body under the key.
fn is_put(change: &Change, wanted: &ShadowKey, body: &[u8]) -> bool {
    match change {
        Change::Put(key, bytes) => key == wanted && bytes.as_slice() == body,
        _ => false,
    }
}

/// Whether the change puts what the table is called and made of.
fn is_info(change: &Change) -> bool {
    is_put(change, &key(1, 0, 0), INFO)
}

/// Whether the change puts a top of 0.
fn is_top(change: &Change) -> bool {
    is_put(change, &key(1, 1, 0), &[0; 8])
}

/// Whether the changes are these two, and no others.
fn are_both(changes: &[Change]) -> bool {
    let [first, second] = changes else {
        return false;
    };
    is_info(first) && is_top(second)
}

/// The changes that keep the table where nothing was kept before.
fn changes(alloc: Global) -> Result<List<Change>, Memory> {
    let table = table(alloc)?;
    changes_since(alloc, &table, None, 1)
}

/// Whether they are both of these changes.
fn are_puts(alloc: Global) -> Result<bool, Memory> {
    let changes = changes(alloc)?;
    Ok(are_both(changes.as_slice()))
}

#[test]
fn a_table_without_rows_is_two_records(rt: HostRuntime) -> Result<(), Fail> {
    assert_eq!(rt; are_puts(rt.alloc()), Ok(true));
    Ok(())
}
