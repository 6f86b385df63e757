//! Records of a table of which some have other bodies, or stand beside others.
ghost use Rattle.std.specs.Prelude.{◌≤◌, length};

use crate::keeping::{is_damaged, key, put};
use crate::sample::kept_rows;
use shadow_keeper::MemoryKeeper;
use std::alloc::Global;
use std::test::Fail;
use vec_base::{Bytes, ShadowKey};

/// The columns of the table.
const COLUMNS: &[u8] =
    b"a int8[2] distance_metric=l2, p text partition key, b boolean, m text, chunk_size=8";

/// Puts the records.
fn put_all(
    alloc: Global,
    keeper: &mut MemoryKeeper,
    records: &[(ShadowKey, &[u8])],
) -> Result<(), Fail> {
    for (key, body) in records {
        put(alloc, keeper, *key, *body)?;
    }
    Ok(())
}

/// Whether the records of the table with these are those of no table.
fn refuses(alloc: Global, records: &[(ShadowKey, &[u8])]) -> Result<bool, Fail> {
    let mut keeper = kept_rows(alloc)?;
    put_all(alloc, &mut keeper, records)?;
    is_damaged(alloc, &keeper)
}

/// The same of one record.
fn refuses_one(alloc: Global, key: ShadowKey, body: &[u8]) -> Result<bool, Fail> {
    refuses(alloc, &[(key, body)])
}

/// The same of what the table is called and made of.
fn refuses_info(alloc: Global, name: &[u8], columns: &[u8]) -> Result<bool, Fail>
    requires { length name.now ≤ 64 }
{
    let mut body = Bytes::new(alloc);
    body.push(name.len() as u8)?;
    body.extend(name)?;
    body.extend(columns)?;
    refuses_one(alloc, key(1, 0, 0), body.as_slice())
}

/// The same of the table's top.
fn refuses_top(alloc: Global, top: i64) -> Result<bool, Fail> {
    refuses_one(alloc, key(1, 1, 0), &top.to_le_bytes())
}

/// The same of the place of a row: its chunk and its slot.
fn refuses_place(alloc: Global, rowid: i64, chunk: u8, slot: u8) -> Result<bool, Fail> {
    refuses_one(alloc, key(3, rowid, 0), &[chunk, 0, 0, 0, slot, 0])
}

/// The same of the rowids of the first chunk.
fn refuses_rowids(alloc: Global, rowids: &[i64]) -> Result<bool, Fail> {
    let mut body = Bytes::new(alloc);
    for rowid in rowids {
        body.extend(&rowid.to_le_bytes())?;
    }
    refuses_one(alloc, key(2, 1, 2), body.as_slice())
}

/// Whether bodies that the records have already are refused.
fn bodies_again(alloc: Global) -> Result<[bool; 6], Fail> {
    Ok([
        refuses_info(alloc, b"v", COLUMNS)?,
        refuses_top(alloc, 3)?,
        refuses_one(alloc, key(2, 1, 1), &[3])?,
        refuses_rowids(alloc, &[1, 2, 0, 0, 0, 0, 0, 0])?,
        refuses_place(alloc, 3, 2, 0)?,
        refuses_one(alloc, key(6, 1, 1), b"abcdefghijklm")?,
    ])
}

/// Whether another name, a greater top and another end of a text are refused.
fn other_tables(alloc: Global) -> Result<[bool; 3], Fail> {
    Ok([
        refuses_info(alloc, b"w", COLUMNS)?,
        refuses_top(alloc, 4)?,
        refuses_one(alloc, key(6, 1, 1), b"abcdefghijklz")?,
    ])
}

/// Whether texts are refused that are no UTF-8, that differ from what stands among the metadata, or that stand there whole.
fn texts(alloc: Global) -> Result<[bool; 3], Fail> {
    Ok([
        refuses_one(alloc, key(6, 1, 1), b"abcdefghijkl\xc3")?,
        refuses_one(alloc, key(6, 1, 1), b"zbcdefghijklm")?,
        refuses_one(alloc, key(6, 3, 1), b"abc")?,
    ])
}

/// Whether records of unknown kinds, of columns that are not there, and of a negative chunk are refused.
fn keys(alloc: Global) -> Result<[bool; 5], Fail> {
    Ok([
        refuses_one(alloc, key(0, 0, 0), &[0])?,
        refuses_one(alloc, key(9, 0, 0), &[0])?,
        refuses_one(alloc, key(7, 1, 0), &[0])?,
        refuses_one(alloc, key(4, 1, 1), &[0; 16])?,
        refuses_one(alloc, key(2, -1, 0), &[0])?,
    ])
}

/// Whether a second row at a used slot, a row in a free slot of another chunk, in a chunk that is not there, and behind the last
/// slot are refused.
fn places(alloc: Global) -> Result<[bool; 4], Fail> {
    Ok([
        refuses_place(alloc, 4, 1, 0)?,
        refuses_place(alloc, 3, 1, 2)?,
        refuses_place(alloc, 3, 3, 0)?,
        refuses_place(alloc, 3, 2, 8)?,
    ])
}

/// A chunk of the partition `west` without a used slot.
fn unused_chunk(alloc: Global) -> Result<bool, Fail> {
    refuses(
        alloc,
        &[
            (key(2, 3, 0), b"\x02\x04\x00\x00\x00west"),
            (key(2, 3, 1), &[0]),
            (key(2, 3, 2), &[0; 64]),
            (key(4, 3, 0), &[0; 16]),
            (key(5, 3, 0), &[0]),
            (key(5, 3, 1), &[0; 128]),
        ],
    )
}

/// Whether a free slot that is called used, or has a rowid, a vector or a truth value, is refused.
fn free_slots(alloc: Global) -> Result<[bool; 4], Fail> {
    Ok([
        refuses_one(alloc, key(2, 1, 1), &[7])?,
        refuses_rowids(alloc, &[1, 2, 0, 0, 0, 0, 0, 9])?,
        refuses_one(
            alloc,
            key(4, 1, 0),
            &[5, 0, 6, 0, 0, 0, 0, 0, 0, 0, 0, 0, 0, 0, 0, 1],
        )?,
        refuses_one(alloc, key(5, 1, 0), &[7])?,
    ])
}

/// Whether a name in capitals, a reserved word, no name, and a digit at the front are refused.
fn names(alloc: Global) -> Result<[bool; 4], Fail> {
    Ok([
        refuses_info(alloc, b"V", COLUMNS)?,
        refuses_info(alloc, b"select", COLUMNS)?,
        refuses_info(alloc, b"", COLUMNS)?,
        refuses_info(alloc, b"1v", COLUMNS)?,
    ])
}

/// Whether no columns, a size alone, and a type that is none are refused.
fn columns(alloc: Global) -> Result<[bool; 3], Fail> {
    Ok([
        refuses_info(alloc, b"v", b"")?,
        refuses_info(alloc, b"v", b"chunk_size=8")?,
        refuses_info(alloc, b"v", b"a float[2]")?,
    ])
}

/// Whether a top below a rowid and a negative one are refused.
fn tops(alloc: Global) -> Result<[bool; 2], Fail> {
    Ok([refuses_top(alloc, 2)?, refuses_top(alloc, -1)?])
}

#[test]
fn right_bodies_put_again_are_taken(rt: HostRuntime) -> Result<(), Fail> {
    assert_eq!(rt; bodies_again(rt.alloc())?, [false; 6]);
    Ok(())
}

#[test]
fn bodies_that_make_another_table_are_taken(rt: HostRuntime) -> Result<(), Fail> {
    assert_eq!(rt; other_tables(rt.alloc())?, [false; 3]);
    Ok(())
}

#[test]
fn a_text_that_does_not_agree_is_refused(rt: HostRuntime) -> Result<(), Fail> {
    assert_eq!(rt; texts(rt.alloc())?, [true; 3]);
    Ok(())
}

#[test]
fn keys_of_no_record_are_refused(rt: HostRuntime) -> Result<(), Fail> {
    assert_eq!(rt; keys(rt.alloc())?, [true; 5]);
    Ok(())
}

#[test]
fn a_place_that_does_not_agree_with_its_chunk_is_refused(rt: HostRuntime) -> Result<(), Fail> {
    assert_eq!(rt; places(rt.alloc())?, [true; 4]);
    Ok(())
}

#[test]
fn a_chunk_without_a_row_is_refused(rt: HostRuntime) -> Result<(), Fail> {
    assert_eq!(rt; unused_chunk(rt.alloc())?, true);
    Ok(())
}

#[test]
fn a_free_slot_with_content_is_refused(rt: HostRuntime) -> Result<(), Fail> {
    assert_eq!(rt; free_slots(rt.alloc())?, [true; 4]);
    Ok(())
}

#[test]
fn a_word_that_is_no_name_is_refused(rt: HostRuntime) -> Result<(), Fail> {
    assert_eq!(rt; names(rt.alloc())?, [true; 4]);
    Ok(())
}

#[test]
fn columns_of_no_table_are_refused(rt: HostRuntime) -> Result<(), Fail> {
    assert_eq!(rt; columns(rt.alloc())?, [true; 3]);
    Ok(())
}

#[test]
fn a_top_below_a_rowid_is_refused(rt: HostRuntime) -> Result<(), Fail> {
    assert_eq!(rt; tops(rt.alloc())?, [true; 2]);
    Ok(())
}
