//! The tables that are searched.
ghost use Rattle.std.specs.Prelude.{◌≡◌, IfOk, true};
ghost use Rattle.table_version.specs.Inserting.{are_fitting};
ghost use Rattle.nearest_tests.specs.ThreeColumns.{three_columns};

use row_model::{Column, Kind, Metric, Schema};
use std::alloc::Global;
use std::test::Fail;
use table_version::TableVersion;
use vec_base::{Bytes, List, Memory, Refusal, Txt, Value};

fn column(alloc: Global, name: &str, kind: Kind) -> Result<Column, Memory>
    ensures name { IfOk result (λ column. column.name ≡ name.now) }
    ensures kind { IfOk result (λ column. column.kind ≡ kind) }
{
    Ok(Column {
        name: Txt::from_text(alloc, name)?,
        kind,
    })
}

/// A partition column, a column of vectors of two elements, and a metadata column, in chunks of 8 rows.
fn schema(alloc: Global) -> Result<Schema, Memory>
    ensures columns { IfOk result (λ schema. schema.columns ≡ three_columns) }
    ensures size { IfOk result (λ schema. schema.chunk_size ≡ 8) }
{
    let mut columns = List::new(alloc);
    columns.push(column(alloc, "p", Kind::IntPartition)?)?;
    columns.push(column(alloc, "a", Kind::Int8Vector(2, Metric::L2))?)?;
    columns.push(column(alloc, "m", Kind::IntMeta)?)?;
    Ok(Schema {
        columns,
        chunk_size: 8,
    })
}

/// A table of these columns.
pub(crate) fn table(alloc: Global) -> Result<TableVersion, Memory>
    ensures { IfOk result (λ version. version.table.schema.columns ≡ three_columns) }
{
    let name = Txt::from_text(alloc, "v")?;
    TableVersion::new(alloc, name, schema(alloc)?)
}

/// The values of a row: its partition, its vector with 0 behind the first element, and its metadata.
fn values(alloc: Global, partition: i64, first: u8, number: i64) -> Result<List<Value>, Memory>
    ensures { IfOk result (λ values. are_fitting three_columns values ≡ true) }
{
    let mut values = List::new(alloc);
    values.push(Value::Int(partition))?;
    values.push(Value::Int8(Bytes::from_slice(alloc, &[first, 0])?))?;
    values.push(Value::Int(number))?;
    Ok(values)
}

/// Puts in a row. Its metadata is its rowid.
pub(crate) fn insert(
    alloc: Global,
    version: &mut TableVersion,
    rowid: i64,
    partition: i64,
    first: u8,
) -> Result<(), Fail>
    requires { version.old.table.schema.columns ≡ three_columns }
    ensures { version.new.table.schema.columns ≡ three_columns }
{
    let values = values(alloc, partition, first, rowid)?;
    match version.insert(alloc, Some(rowid), &values) {
        Ok(_) => Ok(()),
        Err(_) => Err(Fail::from("refused")),
    }
}

/// Puts in rows of these rowids, all in one partition and with one vector.
pub(crate) fn insert_alike(
    alloc: Global,
    version: &mut TableVersion,
    rowids: &[i64],
) -> Result<(), Fail>
    requires { version.old.table.schema.columns ≡ three_columns }
    ensures { version.new.table.schema.columns ≡ three_columns }
{
    for rowid in rowids {
        insert(alloc, version, *rowid, 1, 5)?;
    }
    Ok(())
}

/// Puts in rows of these rowids in a partition. The first element of a row's vector is its rowid.
pub(crate) fn insert_apart(
    alloc: Global,
    version: &mut TableVersion,
    partition: i64,
    rowids: &[u8],
) -> Result<(), Fail>
    requires { version.old.table.schema.columns ≡ three_columns }
    ensures { version.new.table.schema.columns ≡ three_columns }
{
    for rowid in rowids {
        insert(alloc, version, i64::from(*rowid), partition, *rowid)?;
    }
    Ok(())
}

/// The rows of these rowids go.
pub(crate) fn remove_all(
    alloc: Global,
    version: &mut TableVersion,
    rowids: &[i64],
) -> Result<(), Fail>
    requires { version.old.table.schema.columns ≡ three_columns }
    ensures { version.new.table.schema.columns ≡ three_columns }
{
    for rowid in rowids {
        version.remove(alloc, rowid)?;
    }
    Ok(())
}
