//! Twelve rows in three chunks, of which three are gone, kept and built again.
ghost use Rattle.std.specs.Prelude.{◌≡◌, [], ◌∷◌, true, pos, IfOk, IfSome};
ghost use Rattle.vec_base.specs.declared.value.Value.TheVariants.{Int, Int8};
ghost use Rattle.kept_tests.specs.Columns.{two_columns};
ghost use Rattle.table_version.specs.Versions.{Follows, KeepsOrigin};

use crate::keeping::{built, empty, is_damaged, keep_newer, kept, key, put, take_away};
use row_model::{Column, Kind, Metric, Schema, kind_in};
use shadow_keeper::MemoryKeeper;
use std::alloc::Global;
use std::test::Fail;
use table_version::TableVersion;
use vec_base::{Bytes, List, Memory, ShadowKey, Steps, Txt, Value};

/// Vectors of two elements and an integer partition column, in chunks of 8 rows.
fn schema(alloc: Global) -> Result<Schema, Memory>
    ensures columns { IfOk result (λ schema. schema.columns ≡ two_columns) }
    ensures size { IfOk result (λ schema. schema.chunk_size ≡ 8) }
{
    let mut columns = List::new(alloc);
    columns.push(Column {
        name: Txt::from_text(alloc, "a")?,
        kind: Kind::Int8Vector(2, Metric::L2),
    })?;
    columns.push(Column {
        name: Txt::from_text(alloc, "p")?,
        kind: Kind::IntPartition,
    })?;
    Ok(Schema {
        columns,
        chunk_size: 8,
    })
}

/// A table of these columns.
fn table(alloc: Global) -> Result<TableVersion, Memory>
    ensures { IfOk result (λ version. version.table.schema.columns ≡ two_columns) }
{
    let name = Txt::from_text(alloc, "v")?;
    TableVersion::new(alloc, name, schema(alloc)?)
}

/// The values of a row.
fn values(alloc: Global, first: u8, partition: i64) -> Result<List<Value>, Memory>
    ensures { IfOk result (λ values. values ≡ Int8 (first ∷ 0 ∷ []) ∷ Int partition ∷ []) }
{
    let mut values = List::new(alloc);
    values.push(Value::Int8(Bytes::from_slice(alloc, &[first, 0])?))?;
    values.push(Value::Int(partition))?;
    Ok(values)
}

/// Puts in a row of this first element and partition value with an assigned rowid.
fn insert(alloc: Global, version: &mut TableVersion, first: u8, partition: i64) -> Result<(), Fail>
    requires { version.old.table.schema.columns ≡ two_columns }
    ensures columns { version.new.table.schema.columns ≡ two_columns }
    ensures origin { KeepsOrigin version.old version.new }
{
    let values = values(alloc, first, partition)?;
    match version.insert(alloc, None, &values) {
        Ok(_) => Ok(()),
        Err(_) => Err(Fail::from("refused")),
    }
}

/// Puts in rows of these first elements with assigned rowids.
fn insert_all(
    alloc: Global,
    version: &mut TableVersion,
    firsts: &[u8],
    partition: i64,
) -> Result<(), Fail>
    requires { version.old.table.schema.columns ≡ two_columns }
    ensures { version.new.table.schema.columns ≡ two_columns }
{
    for first in firsts {
        insert(alloc, version, *first, partition)?;
    }
    Ok(())
}

/// Takes out the rows of these rowids.
fn remove_all(alloc: Global, version: &mut TableVersion, rowids: &[i64]) -> Result<(), Memory>
    requires { version.old.table.schema.columns ≡ two_columns }
    ensures { version.new.table.schema.columns ≡ two_columns }
{
    for rowid in rowids {
        version.remove(alloc, rowid)?;
    }
    Ok(())
}

/// Nine rows of partition 1, of which the second, fourth and sixth are gone, and three of partition 2.
fn twelve_rows(alloc: Global) -> Result<TableVersion, Fail>
    ensures { IfOk result (λ version. version.table.schema.columns ≡ two_columns) }
{
    let mut version = table(alloc)?;
    insert_all(alloc, &mut version, &[1, 2, 3, 4, 5, 6, 7, 8, 9], 1)?;
    remove_all(alloc, &mut version, &[2, 4, 6])?;
    insert_all(alloc, &mut version, &[10, 11, 12], 2)?;
    Ok(version)
}

/// Whether the column has this name and kind.
#[tactic(auto, using(crate::proofs::ColumnLaws::column_is))]
fn is_column(column: &Column, name: &str, kind: Kind) -> bool
    ensures { result ≡ true → column.now ≡ record { name = name.now; kind = kind } }
{
    column.name.as_text() == name && column.kind == kind
}

/// Whether these are the columns of the table.
fn are_columns(columns: &[Column]) -> bool
    ensures { result ≡ true → columns.now ≡ two_columns }
{
    let [a, p] = columns else {
        return false;
    };
    is_column(a, "a", Kind::Int8Vector(2, Metric::L2)) && is_column(p, "p", Kind::IntPartition)
}

/// The table that is built of the records of a keeper.
fn built_again(alloc: Global, keeper: &MemoryKeeper) -> Result<TableVersion, Fail>
    ensures { IfOk result (λ version. version.table.schema.columns ≡ two_columns) }
{
    let Ok(version) = built(alloc, keeper)? else {
        return Err(Fail::from("not built"));
    };
    if are_columns(version.schema().columns.as_slice()) {
        Ok(version)
    } else {
        Err(Fail::from("other columns"))
    }
}

/// The table with a row more in the first partition.
fn with_row(alloc: Global, older: &TableVersion) -> Result<TableVersion, Fail>
    requires { older.now.table.schema.columns ≡ two_columns }
    ensures follows { IfOk result (λ newer. Follows older.now.table newer) }
{
    let mut newer = older.share(alloc)?;
    insert(alloc, &mut newer, 13, 1)?;
    Ok(newer)
}

/// The chunk and the slot of a row.
fn place_of(version: &TableVersion, rowid: i64) -> Option<(u32, u16)> {
    let row = version.row(&rowid)?;
    Some((row.chunk(), row.slot()))
}

/// The first element of a row's vector.
fn first_of(version: &TableVersion, rowid: i64) -> Option<u8> {
    let Some(Kind::Int8Vector(_, _)) = kind_in(version.schema().columns.as_slice(), 0) else {
        return None;
    };
    let row = version.row(&rowid)?;
    row.vector(1, &mut Steps::new()).first().copied()
}

/// Whether the same row stands at a rowid in two tables, and the same one next.
fn is_alike(one: &TableVersion, other: &TableVersion, rowid: i64) -> bool {
    place_of(one, rowid) == place_of(other, rowid)
        && first_of(one, rowid) == first_of(other, rowid)
        && one.next_rowid(Some(rowid)) == other.next_rowid(Some(rowid))
}

/// The same of all rowids up to 15.
fn are_alike(one: &TableVersion, other: &TableVersion) -> bool {
    for rowid in 0..16 {
        if !is_alike(one, other, rowid) {
            return false;
        }
    }
    true
}

/// Whether the table has exactly these rows: of each the rowid, the place and the first element of its vector.
fn has_rows(version: &TableVersion, rows: &[(i64, (u32, u16), u8)]) -> bool {
    for (rowid, place, first) in rows {
        if place_of(version, *rowid) != Some(*place) || first_of(version, *rowid) != Some(*first) {
            return false;
        }
    }
    version.rows() == rows.len() as u64
}

/// The table of twelve rows, kept and built again.
fn twelve_again(alloc: Global) -> Result<TableVersion, Fail>
    ensures { IfOk result (λ version. version.table.schema.columns ≡ two_columns) }
{
    let table = twelve_rows(alloc)?;
    let keeper = kept(alloc, &table)?;
    built_again(alloc, &keeper)
}

/// Whether the table that is built again has these rows.
fn has_rows_again(alloc: Global, rows: &[(i64, (u32, u16), u8)]) -> Result<bool, Fail> {
    let again = twelve_again(alloc)?;
    Ok(has_rows(&again, rows))
}

/// Whether the table that is built again looks like the one that was kept.
fn again_alike(alloc: Global) -> Result<bool, Fail> {
    let table = twelve_rows(alloc)?;
    let again = twelve_again(alloc)?;
    Ok(are_alike(&table, &again))
}

/// Where the next row of the first partition stands.
fn next_place(alloc: Global, version: &TableVersion) -> Result<Option<(u32, u16)>, Fail>
    requires { version.now.table.schema.columns ≡ two_columns }
{
    let newer = with_row(alloc, version)?;
    Ok(place_of(&newer, 13))
}

/// The same in the table that is kept.
fn place_before(alloc: Global) -> Result<Option<(u32, u16)>, Fail> {
    let table = twelve_rows(alloc)?;
    next_place(alloc, &table)
}

/// The same in the table that is built again.
fn place_again(alloc: Global) -> Result<Option<(u32, u16)>, Fail> {
    let again = twelve_again(alloc)?;
    next_place(alloc, &again)
}

/// The newer table, built again from the records of the older one and the changes from there.
fn newer_again(
    alloc: Global,
    older: &TableVersion,
    newer: &TableVersion,
) -> Result<TableVersion, Fail>
    requires { Follows older.now.table newer.now }
{
    let mut keeper = kept(alloc, older)?;
    keep_newer(alloc, &mut keeper, older, newer)?;
    built_again(alloc, &keeper)
}

/// Whether a newer table with a row more looks like itself when it is built again so, and differently from the older one.
fn is_newer_again(alloc: Global, older: &TableVersion) -> Result<[bool; 2], Fail>
    requires { older.now.table.schema.columns ≡ two_columns }
{
    let newer = with_row(alloc, older)?;
    let again = newer_again(alloc, older, &newer)?;
    Ok([are_alike(&newer, &again), are_alike(older, &again)])
}

/// The same of the table of twelve rows.
fn twelve_newer_again(alloc: Global) -> Result<[bool; 2], Fail> {
    let table = twelve_rows(alloc)?;
    is_newer_again(alloc, &table)
}

/// How many records a keeper has.
fn count(alloc: Global, keeper: &MemoryKeeper) -> Result<usize, Fail> {
    let records = keeper.tables(alloc)?;
    Ok(records.len())
}

/// How many records a keeper has of the table, and how many after its removal.
fn counts(alloc: Global, table: &TableVersion) -> Result<[usize; 2], Fail> {
    let mut keeper = kept(alloc, table)?;
    let before = count(alloc, &keeper)?;
    take_away(alloc, &mut keeper, table)?;
    Ok([before, count(alloc, &keeper)?])
}

/// The same of the table of twelve rows.
fn twelve_counts(alloc: Global) -> Result<[usize; 2], Fail> {
    let table = twelve_rows(alloc)?;
    counts(alloc, &table)
}

/// Puts the records but that of the first row.
fn put_others(
    alloc: Global,
    keeper: &mut MemoryKeeper,
    records: &[(ShadowKey, Bytes)],
) -> Result<(), Fail> {
    for record in records {
        if record.0 != key(3, 1, 0) {
            put(alloc, keeper, record.0, record.1.as_slice())?;
        }
    }
    Ok(())
}

/// Whether the records are refused where that of the first row is left out.
fn is_refused(alloc: Global, records: &[(ShadowKey, Bytes)]) -> Result<bool, Fail> {
    let mut keeper = empty(alloc)?;
    put_others(alloc, &mut keeper, records)?;
    is_damaged(alloc, &keeper)
}

/// The records of the table of twelve rows.
fn twelve_records(alloc: Global) -> Result<List<(ShadowKey, Bytes)>, Fail> {
    let table = twelve_rows(alloc)?;
    let keeper = kept(alloc, &table)?;
    Ok(keeper.tables(alloc)?)
}

/// Whether the records of the table of twelve rows are refused without that of the first row.
fn without_first_row(alloc: Global) -> Result<bool, Fail> {
    let records = twelve_records(alloc)?;
    is_refused(alloc, records.as_slice())
}

/// The rows of the table of twelve rows.
const ROWS: [(i64, (u32, u16), u8); 9] = [
    (1, (1, 0), 1),
    (3, (1, 2), 3),
    (5, (1, 4), 5),
    (7, (1, 6), 7),
    (8, (1, 7), 8),
    (9, (2, 0), 9),
    (10, (3, 0), 10),
    (11, (3, 1), 11),
    (12, (3, 2), 12),
];

#[test]
fn rows_are_built_again_at_their_places(rt: HostRuntime) -> Result<(), Fail> {
    assert_eq!(rt; has_rows_again(rt.alloc(), &ROWS)?, true);
    Ok(())
}

#[test]
fn the_table_is_built_again(rt: HostRuntime) -> Result<(), Fail> {
    assert_eq!(rt; again_alike(rt.alloc())?, true);
    Ok(())
}

#[test]
fn the_next_row_takes_the_lowest_free_slot(rt: HostRuntime) -> Result<(), Fail> {
    assert_eq!(rt; place_before(rt.alloc())?, Some((1, 1)));
    Ok(())
}

#[test]
fn the_next_row_takes_the_same_place_again(rt: HostRuntime) -> Result<(), Fail> {
    assert_eq!(rt; place_again(rt.alloc())?, Some((1, 1)));
    Ok(())
}

#[test]
fn changes_from_an_older_table_keep_the_newer_one(rt: HostRuntime) -> Result<(), Fail> {
    assert_eq!(rt; twelve_newer_again(rt.alloc())?, [true, false]);
    Ok(())
}

#[test]
fn a_removal_leaves_no_record(rt: HostRuntime) -> Result<(), Fail> {
    assert_eq!(rt; twelve_counts(rt.alloc())?, [23, 0]);
    Ok(())
}

#[test]
fn without_the_record_of_a_row_there_is_no_table(rt: HostRuntime) -> Result<(), Fail> {
    assert_eq!(rt; without_first_row(rt.alloc())?, true);
    Ok(())
}
