//! A row with a column of each kind, read back from records.
use crate::records::{NONE, column, listed, rise};
use record_bodies::{ReadRow, row};
use row_model::{Column, Kind, MOST_COLUMNS, Metric};
use std::alloc::Global;
use std::test::Fail;
use vec_base::{Bytes, List, Memory, ShadowKey, Value};

/// The place of the row, slot 1 of chunk 3, and its text id.
const PLACE: [u8; 9] = [3, 0, 0, 0, 1, 0, 107, 101, 121];

/// A text key, a partition, two vectors, metadata of each kind, and auxiliary values of each kind.
fn columns(alloc: Global) -> Result<List<Column>, Memory> {
    let kinds = [
        ("id", Kind::TextKey),
        ("p", Kind::IntPartition),
        ("a", Kind::Int8Vector(2, Metric::L2)),
        ("b", Kind::BitVector(8)),
        ("i", Kind::IntMeta),
        ("t", Kind::TextMeta),
        ("f", Kind::BoolMeta),
        ("l", Kind::TextMeta),
        ("x", Kind::IntAux),
        ("y", Kind::TextAux),
        ("z", Kind::BlobAux),
    ];
    let mut columns = List::new(alloc);
    for (name, kind) in &kinds {
        columns.push(column(alloc, name, *kind)?)?;
    }
    Ok(columns)
}

/// The records of the row and of its chunk, whose columns have the cells of two slots, without those that are left out.
fn records(alloc: Global, left_out: (u8, i64)) -> Result<List<(ShadowKey, Bytes)>, Memory> {
    let mut numbers = [0; 16];
    numbers[8] = 42;
    let mut short_texts = [0; 32];
    short_texts[16..22].copy_from_slice(&[2, 0, 0, 0, 104, 105]);
    let mut long_texts = [0; 32];
    long_texts[16..].copy_from_slice(b"\x0d\0\0\0abcdefghijkl");
    let mut rowids = [0; 16];
    rowids[8] = 5;
    listed(
        alloc,
        &[
            (2, 3, 0, &[1, 7, 0, 0, 0, 0, 0, 0, 0]),
            (2, 3, 1, &[2]),
            (2, 3, 2, &rowids),
            (4, 3, 0, &[0, 0, 1, 255]),
            (4, 3, 1, &[0, 15]),
            (5, 3, 0, &numbers),
            (5, 3, 1, &short_texts),
            (5, 3, 2, &[2]),
            (5, 3, 3, &long_texts),
            (6, 5, 3, b"abcdefghijklm"),
            (7, 5, 0, &[255; 8]),
            (7, 5, 2, &[1, 2, 3]),
        ],
        left_out,
    )
}

/// The row that the records show, if they show one, for a body with its place and its text id.
fn read(alloc: Global, left_out: (u8, i64), place: &[u8]) -> Result<Option<ReadRow>, Fail> {
    let columns = columns(alloc)?;
    let records = records(alloc, left_out)?;
    let place = Bytes::from_slice(alloc, place)?;
    if MOST_COLUMNS < columns.len() || !rise(records.as_slice()) {
        return Err(Fail::from("no columns or records of a table"));
    }
    Ok(row(alloc, 2, records.as_slice(), columns.as_slice(), 5, &place)?)
}

/// The row that all records show.
fn whole(alloc: Global) -> Result<ReadRow, Fail> {
    match read(alloc, NONE, &PLACE)? {
        Some(row) => Ok(row),
        None => Err(Fail::from("no row")),
    }
}

/// The number in a column.
fn number_at(row: &ReadRow, column: usize) -> Option<i64> {
    match row.values.get(column)? {
        Value::Int(number) => Some(*number),
        _ => None,
    }
}

/// Whether a column holds a text, a vector or a blob of these bytes.
fn holds(row: &ReadRow, column: usize, bytes: &[u8]) -> bool {
    match row.values.get(column) {
        Some(Value::Text(text)) => text.as_text().as_bytes() == bytes,
        Some(Value::Blob(blob)) => blob.as_slice() == bytes,
        Some(Value::Int8(vector)) => vector.as_slice() == bytes,
        Some(Value::Bits(vector)) => vector.as_slice() == bytes,
        _ => false,
    }
}

/// Whether a column holds NULL.
fn is_null_at(row: &ReadRow, column: usize) -> bool {
    matches!(row.values.get(column), Some(Value::Null))
}

/// Whether a row is shown without the records that are left out.
fn is_shown(alloc: Global, left_out: (u8, i64)) -> Result<bool, Fail> {
    Ok(read(alloc, left_out, &PLACE)?.is_some())
}

#[test]
fn the_place_the_text_id_and_the_partition_are_read(rt: HostRuntime) -> Result<(), Fail> {
    let row = whole(rt.alloc())?;
    assert_eq!(rt; (row.chunk, row.slot), (3, 1));
    assert!(rt; holds(&row, 0, b"key"));
    assert_eq!(rt; number_at(&row, 1), Some(7));
    Ok(())
}

#[test]
fn vectors_are_read(rt: HostRuntime) -> Result<(), Fail> {
    let row = whole(rt.alloc())?;
    assert!(rt; holds(&row, 2, &[1, 255]));
    assert!(rt; holds(&row, 3, &[15]));
    Ok(())
}

#[test]
fn numbers_and_truth_values_are_read(rt: HostRuntime) -> Result<(), Fail> {
    let row = whole(rt.alloc())?;
    assert_eq!(rt; number_at(&row, 4), Some(42));
    assert_eq!(rt; number_at(&row, 6), Some(1));
    Ok(())
}

#[test]
fn texts_are_read_from_their_view_or_their_own_record(rt: HostRuntime) -> Result<(), Fail> {
    let row = whole(rt.alloc())?;
    assert!(rt; holds(&row, 5, b"hi"));
    assert!(rt; holds(&row, 7, b"abcdefghijklm"));
    Ok(())
}

#[test]
fn auxiliary_values_are_read_and_null_without_a_record(rt: HostRuntime) -> Result<(), Fail> {
    let row = whole(rt.alloc())?;
    assert_eq!(rt; number_at(&row, 8), Some(-1));
    assert!(rt; is_null_at(&row, 9));
    assert!(rt; holds(&row, 10, &[1, 2, 3]));
    Ok(())
}

#[test]
fn no_row_is_shown_without_a_record_of_its_chunk(rt: HostRuntime) -> Result<(), Fail> {
    let alloc = rt.alloc();
    assert!(rt; !is_shown(alloc, (2, 1))?);
    assert!(rt; !is_shown(alloc, (4, 1))?);
    Ok(())
}

#[test]
fn a_long_text_has_a_record_and_null_has_none(rt: HostRuntime) -> Result<(), Fail> {
    let alloc = rt.alloc();
    assert!(rt; !is_shown(alloc, (6, 3))?);
    assert!(rt; is_shown(alloc, (7, 0))?);
    Ok(())
}

#[test]
fn no_row_is_shown_with_a_text_that_is_no_utf8(rt: HostRuntime) -> Result<(), Fail> {
    let mut place = PLACE;
    place[8] = 255;
    assert!(rt; read(rt.alloc(), NONE, &place)?.is_none());
    Ok(())
}
