//! Places, partition values, and records by their keys.
use crate::records::{NONE, column, key, listed, rise};
use record_bodies::{body, read_partition, read_place, write_partition, write_place};
use row_model::{Kind, Metric, Schema};
use std::alloc::Global;
use std::test::Fail;
use vec_base::{List, Memory, Txt, Value};

/// Minus two, and a text of two bytes.
const PARTITION: [u8; 16] = [
    1, 254, 255, 255, 255, 255, 255, 255, 255, 2, 2, 0, 0, 0, 97, 98,
];

/// A vector between two partition columns, one of numbers and one of texts.
fn schema(alloc: Global) -> Result<Schema, Memory> {
    let mut columns = List::new(alloc);
    columns.push(column(alloc, "p", Kind::IntPartition)?)?;
    columns.push(column(alloc, "a", Kind::Int8Vector(2, Metric::L2))?)?;
    columns.push(column(alloc, "t", Kind::TextPartition)?)?;
    Ok(Schema {
        columns,
        chunk_size: 8,
    })
}

/// The values of these bytes.
fn values(alloc: Global) -> Result<List<Value>, Memory> {
    let mut values = List::new(alloc);
    values.push(Value::Int(-2))?;
    values.push(Value::Text(Txt::from_text(alloc, "ab")?))?;
    Ok(values)
}

/// Whether bytes are read as partition values that are written as the same bytes.
fn is_partition(alloc: Global, bytes: &[u8]) -> Result<bool, Memory> {
    match read_partition(alloc, bytes, &schema(alloc)?)? {
        Some(values) => Ok(write_partition(alloc, &values)?.as_slice() == bytes),
        None => Ok(false),
    }
}

/// The first byte of the body of one of two records, by the first number of its key.
fn first_byte(alloc: Global, a: i64) -> Result<Option<u8>, Fail> {
    let records = listed(alloc, &[(4, 1, 0, &[7]), (4, 3, 0, &[9, 8])], NONE)?;
    if !rise(records.as_slice()) {
        return Err(Fail::from("keys that do not rise"));
    }
    match body(records.as_slice(), &key(4, a, 0)) {
        Some(body) => Ok(body.as_slice().first().copied()),
        None => Ok(None),
    }
}

#[test]
fn a_place_has_six_bytes(rt: HostRuntime) -> Result<(), Fail> {
    let body = write_place(rt.alloc(), 258, 7)?;
    assert_eq!(rt; body.as_slice(), [2, 1, 0, 0, 7, 0].as_slice());
    assert_eq!(rt; read_place(&[2, 1, 0, 0, 7, 0, 97]), Some((258, 7)));
    assert_eq!(rt; read_place(&[2, 1, 0, 0, 7]), None);
    Ok(())
}

#[test]
fn partition_values_are_written_and_read(rt: HostRuntime) -> Result<(), Fail> {
    let alloc = rt.alloc();
    let body = write_partition(alloc, &values(alloc)?)?;
    assert_eq!(rt; body.as_slice(), PARTITION.as_slice());
    assert!(rt; is_partition(alloc, &PARTITION)?);
    Ok(())
}

#[test]
fn other_bytes_are_no_partition_values(rt: HostRuntime) -> Result<(), Fail> {
    let alloc = rt.alloc();
    let mut other_tag = PARTITION;
    other_tag[0] = 2;
    let mut no_utf8 = PARTITION;
    no_utf8[15] = 255;
    assert!(rt; !is_partition(alloc, &PARTITION[..15])?);
    assert!(rt; !is_partition(alloc, &other_tag)?);
    assert!(rt; !is_partition(alloc, &no_utf8)?);
    Ok(())
}

#[test]
fn records_are_found_by_their_keys(rt: HostRuntime) -> Result<(), Fail> {
    assert_eq!(rt; first_byte(rt.alloc(), 3)?, Some(9));
    assert_eq!(rt; first_byte(rt.alloc(), 2)?, None);
    Ok(())
}
