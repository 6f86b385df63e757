//! The places that rows of partitions take.
ghost use Rattle.std.specs.Prelude.{◌≡◌, [], ◌∷◌, IfOk};
ghost use Rattle.vec_base.specs.declared.value.Value.TheVariants.{Int, Int8};
ghost use Rattle.table_tests.specs.Columns.{two_columns};

use row_model::{Column, Kind, Metric, Schema};
use std::alloc::Global;
use std::test::Fail;
use table_version::TableVersion;
use vec_base::{Bytes, List, Memory, Refusal, Txt, Value};

/// Vectors of two elements and an integer partition column, in chunks of 8 rows.
fn schema(alloc: Global) -> Result<Schema, Memory>
    ensures columns { IfOk result (λ schema. schema.columns ≡ two_columns) }
    ensures size { IfOk result (λ schema. schema.chunk_size ≡ 8) }
{
    let mut columns = List::new(alloc);
    columns.push(Column {
        name: Txt::from_text(alloc, "a")?,
        kind: Kind::Int8Vector(2, Metric::L2),
    })?;
    columns.push(Column {
        name: Txt::from_text(alloc, "p")?,
        kind: Kind::IntPartition,
    })?;
    Ok(Schema {
        columns,
        chunk_size: 8,
    })
}

/// A table of these columns.
fn table(alloc: Global) -> Result<TableVersion, Memory>
    ensures { IfOk result (λ version. version.table.schema.columns ≡ two_columns) }
{
    let name = Txt::from_text(alloc, "v")?;
    TableVersion::new(alloc, name, schema(alloc)?)
}

/// The values of a row.
fn values(alloc: Global, first: u8, partition: i64) -> Result<List<Value>, Memory>
    ensures { IfOk result (λ values. values ≡ Int8 (first ∷ 0 ∷ []) ∷ Int partition ∷ []) }
{
    let mut values = List::new(alloc);
    values.push(Value::Int8(Bytes::from_slice(alloc, &[first, 0])?))?;
    values.push(Value::Int(partition))?;
    Ok(values)
}

/// Puts in a row of this first element and partition value with an assigned rowid.
fn insert(
    alloc: Global,
    version: &mut TableVersion,
    first: u8,
    partition: i64,
) -> Result<i64, Refusal>
    requires { version.old.table.schema.columns ≡ two_columns }
    ensures { version.new.table.schema.columns ≡ two_columns }
{
    let values = match values(alloc, first, partition) {
        Ok(values) => values,
        Err(_) => return Err(Refusal::WantOfMemory),
    };
    version.insert(alloc, None, &values)
}

/// Puts in rows of these first elements with assigned rowids.
fn insert_all(
    alloc: Global,
    version: &mut TableVersion,
    firsts: &[u8],
    partition: i64,
) -> Result<(), Refusal>
    requires { version.old.table.schema.columns ≡ two_columns }
    ensures { version.new.table.schema.columns ≡ two_columns }
{
    for first in firsts {
        insert(alloc, version, *first, partition)?;
    }
    Ok(())
}

/// Takes out the rows of these rowids.
fn remove_all(alloc: Global, version: &mut TableVersion, rowids: &[i64]) -> Result<(), Memory>
    requires { version.old.table.schema.columns ≡ two_columns }
    ensures { version.new.table.schema.columns ≡ two_columns }
{
    for rowid in rowids {
        version.remove(alloc, rowid)?;
    }
    Ok(())
}

/// Nine rows of partition 1, of which the second, fourth and sixth are gone, and three of partition 2.
fn rows_of_two(alloc: Global) -> Result<TableVersion, Refusal>
    ensures { IfOk result (λ version. version.table.schema.columns ≡ two_columns) }
{
    let mut version = match table(alloc) {
        Ok(version) => version,
        Err(_) => return Err(Refusal::WantOfMemory),
    };
    insert_all(alloc, &mut version, &[1, 2, 3, 4, 5, 6, 7, 8, 9], 1)?;
    match remove_all(alloc, &mut version, &[2, 4, 6]) {
        Ok(()) => {}
        Err(_) => return Err(Refusal::WantOfMemory),
    }
    insert_all(alloc, &mut version, &[10, 11, 12], 2)?;
    Ok(version)
}

/// Which of the first eight slots of a chunk have a row, as the bits of a byte.
fn validity(version: &TableVersion, chunk: u32) -> Option<u8> {
    let slots = version.slots(chunk)?;
    slots.valid().as_bytes().first().copied()
}

/// The same of the first three chunks.
fn validities(version: &TableVersion) -> [Option<u8>; 3] {
    [
        validity(version, 1),
        validity(version, 2),
        validity(version, 3),
    ]
}

/// The ninth row goes, and a row of partition 1 and one of partition 3 come.
fn change(alloc: Global, version: &mut TableVersion) -> Result<(), Refusal>
    requires { version.old.table.schema.columns ≡ two_columns }
    ensures { version.new.table.schema.columns ≡ two_columns }
{
    match remove_all(alloc, version, &[9]) {
        Ok(()) => {}
        Err(_) => return Err(Refusal::WantOfMemory),
    }
    insert(alloc, version, 13, 1)?;
    insert(alloc, version, 14, 3)?;
    Ok(())
}

/// The bits before and after the change.
fn validities_read(alloc: Global) -> Result<([Option<u8>; 3], [Option<u8>; 3]), Refusal> {
    let mut version = rows_of_two(alloc)?;
    let before = validities(&version);
    change(alloc, &mut version)?;
    Ok((before, validities(&version)))
}

#[test]
fn rows_lie_in_chunks_of_their_partition(rt: HostRuntime) -> Result<(), Fail> {
    let (before, after) = validities_read(rt.alloc()).or(Err("refused"))?;
    assert_eq!(rt; before, [Some(0xd5), Some(1), Some(7)]);
    assert_eq!(rt; after, [Some(0xd7), Some(1), Some(7)]);
    Ok(())
}
