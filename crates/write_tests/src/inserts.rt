//! New rows.
use crate::tables::{add_one, add_two, alone, row, table, three_rows};
use std::alloc::Global;
use std::test::Fail;
use table_writes::Beside;
use vec_base::{Bytes, MOST_SIDE_BYTES, MOST_VALUE_BYTES, Memory, Refusal, Value};

/// A row of rowid 5 and one behind it, and how many rows there are then.
fn given_and_next(alloc: Global) -> Result<(Result<i64, Refusal>, u64), Memory> {
    let mut version = table(alloc)?;
    let first = row(alloc, Value::Int(5), 10, Value::Null)?;
    let second = row(alloc, Value::Null, 20, Value::Null)?;
    let made = add_two(alloc, &mut version, first, second)?;
    Ok((made, version.rows()))
}

#[test]
fn a_row_gets_the_rowid_above_the_last_one(rt: HostRuntime) -> Result<(), Fail> {
    let (made, rows) = given_and_next(rt.alloc())?;
    assert_eq!(rt; made, Ok(6));
    assert_eq!(rt; rows, 2);
    Ok(())
}

/// A row behind three, and one of a rowid that is there.
fn taken(alloc: Global) -> Result<Result<i64, Refusal>, Memory> {
    let mut version = three_rows(alloc)?;
    let first = row(alloc, Value::Null, 10, Value::Null)?;
    let second = row(alloc, Value::Int(2), 20, Value::Null)?;
    add_two(alloc, &mut version, first, second)
}

#[test]
fn a_rowid_that_is_there_is_refused(rt: HostRuntime) -> Result<(), Fail> {
    let made = taken(rt.alloc())?;
    assert_eq!(rt; made, Err(Refusal::Duplicate(2)));
    Ok(())
}

/// So many bytes, or twice as many and so on, up to one more than a value may have.
fn long_note(alloc: Global) -> Result<Value, Memory> {
    let mut bytes = Bytes::new(alloc);
    bytes.push(0)?;
    for _ in 0..20 {
        let more = bytes.copy(alloc)?;
        bytes.extend(more.as_slice())?;
    }
    bytes.push(0)?;
    Ok(Value::Blob(bytes))
}

/// A row with a note that is too long.
fn long(alloc: Global) -> Result<Result<i64, Refusal>, Memory> {
    let mut version = table(alloc)?;
    let values = row(alloc, Value::Null, 10, long_note(alloc)?)?;
    add_one(alloc, &mut version, alone(), values)
}

/// A row with a note of one byte, beside as many bytes as there may be.
fn without_room(alloc: Global) -> Result<Result<i64, Refusal>, Memory> {
    let mut version = table(alloc)?;
    let note = Value::Blob(Bytes::from_slice(alloc, &[7])?);
    let values = row(alloc, Value::Null, 10, note)?;
    let beside = Beside {
        vectors: 0,
        sides: MOST_SIDE_BYTES,
    };
    add_one(alloc, &mut version, beside, values)
}

#[test]
fn a_note_may_not_be_too_long(rt: HostRuntime) -> Result<(), Fail> {
    let alloc = rt.alloc();
    let most = MOST_VALUE_BYTES as u64 + 1;
    assert_eq!(rt; long(alloc)?, Err(Refusal::Full(3, most)));
    let all = MOST_SIDE_BYTES + 1;
    assert_eq!(rt; without_room(alloc)?, Err(Refusal::Full(5, all)));
    Ok(())
}
