//! The places that rows of a table take.
ghost use Rattle.std.specs.Prelude.{◌≡◌, [], ◌∷◌, IfOk};
ghost use Rattle.vec_base.specs.declared.value.Value.TheVariants.{Int8};
ghost use Rattle.table_tests.specs.Columns.{one_column};

use row_model::{Column, Kind, Metric, Schema};
use std::alloc::Global;
use std::test::Fail;
use table_version::TableVersion;
use vec_base::{Bytes, List, Memory, Refusal, Txt, Value};

/// One column of vectors of two elements, in chunks of 8 rows.
fn schema(alloc: Global) -> Result<Schema, Memory>
    ensures columns { IfOk result (λ schema. schema.columns ≡ one_column) }
    ensures size { IfOk result (λ schema. schema.chunk_size ≡ 8) }
{
    let mut columns = List::new(alloc);
    columns.push(Column {
        name: Txt::from_text(alloc, "a")?,
        kind: Kind::Int8Vector(2, Metric::L2),
    })?;
    Ok(Schema {
        columns,
        chunk_size: 8,
    })
}

/// A table of this column.
fn table(alloc: Global) -> Result<TableVersion, Memory>
    ensures { IfOk result (λ version. version.table.schema.columns ≡ one_column) }
{
    let name = Txt::from_text(alloc, "v")?;
    TableVersion::new(alloc, name, schema(alloc)?)
}

/// The values of a row.
fn values(alloc: Global, first: u8) -> Result<List<Value>, Memory>
    ensures { IfOk result (λ values. values ≡ Int8 (first ∷ 0 ∷ []) ∷ []) }
{
    let mut values = List::new(alloc);
    values.push(Value::Int8(Bytes::from_slice(alloc, &[first, 0])?))?;
    Ok(values)
}

/// Puts in a row of this first element with an assigned rowid.
fn insert(alloc: Global, version: &mut TableVersion, first: u8) -> Result<i64, Refusal>
    requires { version.old.table.schema.columns ≡ one_column }
    ensures { version.new.table.schema.columns ≡ one_column }
{
    let values = match values(alloc, first) {
        Ok(values) => values,
        Err(_) => return Err(Refusal::WantOfMemory),
    };
    version.insert(alloc, None, &values)
}

/// Puts in rows of these first elements with assigned rowids.
fn insert_all(alloc: Global, version: &mut TableVersion, firsts: &[u8]) -> Result<(), Refusal>
    requires { version.old.table.schema.columns ≡ one_column }
    ensures { version.new.table.schema.columns ≡ one_column }
{
    for first in firsts {
        insert(alloc, version, *first)?;
    }
    Ok(())
}

/// A table with nine rows.
fn nine_rows(alloc: Global) -> Result<TableVersion, Refusal>
    ensures { IfOk result (λ version. version.table.schema.columns ≡ one_column) }
{
    let mut version = match table(alloc) {
        Ok(version) => version,
        Err(_) => return Err(Refusal::WantOfMemory),
    };
    insert_all(alloc, &mut version, &[1, 2, 3, 4, 5, 6, 7, 8, 9])?;
    Ok(version)
}

/// The chunks behind none and behind the first, and the one behind the first when the ninth row is gone.
fn chunks_read(alloc: Global) -> Result<[Option<u32>; 3], Refusal> {
    let mut version = nine_rows(alloc)?;
    let (first, second) = (version.next_chunk(0), version.next_chunk(1));
    match version.remove(alloc, &9) {
        Ok(_) => Ok([first, second, version.next_chunk(1)]),
        Err(_) => Err(Refusal::WantOfMemory),
    }
}

#[test]
fn the_ninth_row_begins_a_chunk(rt: HostRuntime) -> Result<(), Fail> {
    let chunks = chunks_read(rt.alloc()).or(Err("refused"))?;
    assert_eq!(rt; chunks, [Some(1), Some(2), None]);
    Ok(())
}
