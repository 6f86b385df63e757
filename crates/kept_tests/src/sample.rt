//! A table that has a record of each kind but auxiliary values, in two chunks.
ghost use Rattle.std.specs.Prelude.{◌≡◌, ◌≤◌, ◌++◌, [], ◌∷◌, true, length, IfOk, OnOk};
ghost use Rattle.table_version.specs.Inserting.{are_fitting};
ghost use Rattle.kept_tests.specs.Columns.{sample_columns};

use crate::keeping::kept;
use row_model::{Column, Kind, Metric, Schema};
use shadow_keeper::MemoryKeeper;
use std::alloc::Global;
use std::test::Fail;
use table_version::TableVersion;
use vec_base::{Bytes, List, Memory, Txt, Value};

fn add(alloc: Global, columns: &mut List<Column>, name: &str, kind: Kind) -> Result<(), Memory>
    ensures { OnOk result (columns.new ≡ columns.old ++ record { name = name.now; kind = kind } ∷ []) }
{
    columns.push(Column {
        name: Txt::from_text(alloc, name)?,
        kind,
    })
}

/// Vectors of two elements, a text partition value, a truth value and a text, in chunks of 8 rows.
fn schema(alloc: Global) -> Result<Schema, Memory>
    ensures columns { IfOk result (λ schema. schema.columns ≡ sample_columns) }
    ensures size { IfOk result (λ schema. schema.chunk_size ≡ 8) }
{
    let mut columns = List::new(alloc);
    add(alloc, &mut columns, "a", Kind::Int8Vector(2, Metric::L2))?;
    add(alloc, &mut columns, "p", Kind::TextPartition)?;
    add(alloc, &mut columns, "b", Kind::BoolMeta)?;
    add(alloc, &mut columns, "m", Kind::TextMeta)?;
    Ok(Schema {
        columns,
        chunk_size: 8,
    })
}

/// A table of these columns.
fn table(alloc: Global) -> Result<TableVersion, Memory>
    ensures { IfOk result (λ version. version.table.schema.columns ≡ sample_columns) }
{
    let name = Txt::from_text(alloc, "v")?;
    TableVersion::new(alloc, name, schema(alloc)?)
}

/// The values of a row whose truth value is 1.
#[tactic(auto, using(crate::proofs::ColumnLaws::sample_fits))]
fn values(alloc: Global, first: u8, partition: &str, text: &str) -> Result<List<Value>, Memory>
    requires partition { length partition.now ≤ 16 }
    requires text { length text.now ≤ 16 }
    ensures { IfOk result (λ values. are_fitting sample_columns values ≡ true) }
{
    let mut values = List::new(alloc);
    values.push(Value::Int8(Bytes::from_slice(alloc, &[first, 0])?))?;
    values.push(Value::Text(Txt::from_text(alloc, partition)?))?;
    values.push(Value::Int(1))?;
    values.push(Value::Text(Txt::from_text(alloc, text)?))?;
    Ok(values)
}

/// Puts in a row with an assigned rowid.
fn insert(
    alloc: Global,
    version: &mut TableVersion,
    first: u8,
    partition: &str,
    text: &str,
) -> Result<(), Fail>
    requires columns { version.old.table.schema.columns ≡ sample_columns }
    requires partition { length partition.now ≤ 16 }
    requires text { length text.now ≤ 16 }
    ensures { version.new.table.schema.columns ≡ sample_columns }
{
    let values = values(alloc, first, partition, text)?;
    match version.insert(alloc, None, &values) {
        Ok(_) => Ok(()),
        Err(_) => Err(Fail::from("refused")),
    }
}

/// Rows 1 and 2 in the first chunk, the first with a text of 13 bytes, and row 3 in the second chunk.
fn three_rows(alloc: Global) -> Result<TableVersion, Fail> {
    let mut version = table(alloc)?;
    insert(alloc, &mut version, 5, "north", "abcdefghijklm")?;
    insert(alloc, &mut version, 6, "north", "")?;
    insert(alloc, &mut version, 7, "south", "abc")?;
    Ok(version)
}

/// A keeper of the records of these rows.
pub(crate) fn kept_rows(alloc: Global) -> Result<MemoryKeeper, Fail> {
    let table = three_rows(alloc)?;
    kept(alloc, &table)
}
