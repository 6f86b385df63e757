//! What is refused as the value of a vector column.
ghost use Rattle.std.specs.Prelude.{◌≡◌, IfOk};
ghost use Rattle.query_tests.specs.Columns.{vector_columns};

use crate::search::column;
use knn_plan::check_insert;
use row_model::{Insert, Kind, Metric, Schema};
use std::alloc::Global;
use std::test::Fail;
use table_version::TableVersion;
use vec_base::{Bytes, List, Memory, Refusal, Txt, Value};

/// A column of vectors of two elements, in chunks of 8 rows.
fn schema(alloc: Global) -> Result<Schema, Memory>
    ensures columns { IfOk result (λ schema. schema.columns ≡ vector_columns) }
    ensures size { IfOk result (λ schema. schema.chunk_size ≡ 8) }
{
    let mut columns = List::new(alloc);
    columns.push(column(alloc, "a", Kind::Int8Vector(2, Metric::L2))?)?;
    Ok(Schema {
        columns,
        chunk_size: 8,
    })
}

/// A table of this column.
fn table(alloc: Global) -> Result<TableVersion, Memory>
    ensures { IfOk result (λ version. version.table.schema.columns ≡ vector_columns) }
{
    let name = Txt::from_text(alloc, "v")?;
    TableVersion::new(alloc, name, schema(alloc)?)
}

/// An INSERT of one value.
fn insert_of(alloc: Global, value: Value) -> Result<Insert, Memory> {
    let mut columns = List::new(alloc);
    columns.push(Txt::from_text(alloc, "a")?)?;
    let mut row = List::new(alloc);
    row.push(value)?;
    let mut rows = List::new(alloc);
    rows.push(row)?;
    Ok(Insert {
        table: Txt::from_text(alloc, "v")?,
        columns,
        rows,
    })
}

/// What refuses an INSERT of one value.
fn refused(alloc: Global, value: Value) -> Result<Option<Refusal>, Memory> {
    let version = table(alloc)?;
    let insert = insert_of(alloc, value)?;
    Ok(check_insert(version.schema(), &insert))
}

#[test]
fn another_number_of_elements_is_refused(rt: HostRuntime) -> Result<(), Fail> {
    let alloc = rt.alloc();
    let three = Value::Int8(Bytes::from_slice(alloc, &[1, 2, 3])?);
    let two = Value::Int8(Bytes::from_slice(alloc, &[1, 2])?);
    assert_eq!(rt; refused(alloc, three)?, Some(Refusal::VectorShape(1, 2, 3)));
    assert_eq!(rt; refused(alloc, two)?, None);
    Ok(())
}

#[test]
fn another_type_is_refused(rt: HostRuntime) -> Result<(), Fail> {
    let alloc = rt.alloc();
    let text = Value::Text(Txt::from_text(alloc, "[1,2]")?);
    assert_eq!(rt; refused(alloc, text)?, Some(Refusal::WrongType(1)));
    Ok(())
}

#[test]
fn null_is_refused(rt: HostRuntime) -> Result<(), Fail> {
    assert_eq!(rt;
        refused(rt.alloc(), Value::Null)?,
        Some(Refusal::NotNull(1))
    );
    Ok(())
}
