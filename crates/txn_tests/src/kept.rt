//! What the keeper has.
use crate::memory_engine::engine_over;
use crate::script::played;
use shadow_keeper::MemoryKeeper;
use std::alloc::{AllocError, Global};
use std::marker::Sync;
use std::test::Fail;
use std::thread::Threads;
use vec_base::{Bytes, Memory, ShadowKey};
use vec_text::{put_hex, put_number, put_signed};

/// Writes the key of a record and its body.
fn put_record(to: &mut String, key: &ShadowKey, body: &Bytes) -> Result<(), AllocError> {
    put_number(to, u64::from(key.table))?;
    to.push_str(" ")?;
    put_number(to, u64::from(key.kind))?;
    to.push_str(" ")?;
    put_signed(to, key.a)?;
    to.push_str(" ")?;
    put_signed(to, key.b)?;
    to.push_str(" 0x")?;
    put_hex(to, body.as_slice())?;
    to.push_str("\n")
}

/// A line for each record of a keeper of one of these kinds, or of any kind where none is given.
fn records(alloc: Global, keeper: &MemoryKeeper, kinds: &[u8]) -> Result<String, Memory> {
    let mut text = String::new(alloc);
    let records = keeper.tables(alloc)?;
    for (key, body) in records.as_slice() {
        if kinds.is_empty() || kinds.contains(&key.kind) {
            put_record(&mut text, key, body)?;
        }
    }
    Ok(text)
}

/// The records of these kinds that the keeper has after a script, where its calls of these numbers fail.
fn kept_after<R: Threads + Sync>(
    rt: &R,
    alloc: Global,
    fails: &[u64],
    script: &str,
    kinds: &[u8],
) -> Result<String, Memory> {
    let mut engine = engine_over(alloc, fails)?;
    played(rt, alloc, &mut engine, script)?;
    records(alloc, &engine.finish(), kinds)
}

const CHUNKS: &str = "\
open => session 1
1 CREATE VIRTUAL TABLE v USING vec0(a int8[2], p integer partition key, chunk_size=8)
1 INSERT INTO v(a, p) VALUES (vec_int8('[1,0]'), 1), (vec_int8('[2,0]'), 1), (vec_int8('[3,0]'), 1)
1 INSERT INTO v(a, p) VALUES (vec_int8('[4,0]'), 1), (vec_int8('[5,0]'), 1), (vec_int8('[6,0]'), 1)
1 INSERT INTO v(a, p) VALUES (vec_int8('[7,0]'), 1), (vec_int8('[8,0]'), 1), (vec_int8('[9,0]'), 1)
1 DELETE FROM v WHERE rowid IN (2, 4, 6)
1 INSERT INTO v(a, p) VALUES (vec_int8('[10,0]'), 2), (vec_int8('[11,0]'), 2), (vec_int8('[12,0]'), 2)
";

const NEAREST: &str = "\
1 SELECT rowid, distance FROM v WHERE a MATCH vec_int8('[0,0]') AND k = 4 => 1|1 / 3|9 / 5|25 / 7|49 / rows 4
1 SELECT rowid, distance FROM v WHERE a MATCH vec_int8('[0,0]') AND p = 2 AND k = 2 => 10|100 / 11|121 / rows 2
1 DELETE FROM v WHERE rowid = 9 => changed 1
1 INSERT INTO v(rowid, a, p) VALUES (13, vec_int8('[13,0]'), 1) => inserted 1 last 13
1 INSERT INTO v(rowid, a, p) VALUES (14, vec_int8('[14,0]'), 3) => inserted 1 last 14
1 SELECT rowid FROM v WHERE a MATCH vec_int8('[0,0]') AND p = 3 AND k = 5 => 14 / rows 1
";

/// The places of the rows of three chunks.
const PLACES: &str = "\
1 3 1 0 0x010000000000
1 3 3 0 0x010000000200
1 3 5 0 0x010000000400
1 3 7 0 0x010000000600
1 3 8 0 0x010000000700
1 3 9 0 0x020000000000
1 3 10 0 0x030000000000
1 3 11 0 0x030000000100
1 3 12 0 0x030000000200
";

/// The places after a row has gone with its chunk and two rows have come.
const LATER_PLACES: &str = "\
1 3 1 0 0x010000000000
1 3 3 0 0x010000000200
1 3 5 0 0x010000000400
1 3 7 0 0x010000000600
1 3 8 0 0x010000000700
1 3 10 0 0x030000000000
1 3 11 0 0x030000000100
1 3 12 0 0x030000000200
1 3 13 0 0x010000000100
1 3 14 0 0x020000000000
";

/// The partitions, used slots and rowids of the three chunks.
const SLOTS: &str = "\
1 2 1 0 0x010100000000000000
1 2 1 1 0xD5
1 2 1 2 0x01000000000000000000000000000000030000000000000000000000000000000500000000000000000000000000000007000000000000000800000000000000
1 2 2 0 0x010100000000000000
1 2 2 1 0x01
1 2 2 2 0x09000000000000000000000000000000000000000000000000000000000000000000000000000000000000000000000000000000000000000000000000000000
1 2 3 0 0x010200000000000000
1 2 3 1 0x07
1 2 3 2 0x0A000000000000000B000000000000000C0000000000000000000000000000000000000000000000000000000000000000000000000000000000000000000000
";

/// The nearest rows over three chunks, before and after rows have gone and come.
#[test]
fn chunks_are_searched(rt: HostRuntime) -> Result<(), Fail> {
    let mut engine = engine_over(rt.alloc(), &[])?;
    played(&rt, rt.alloc(), &mut engine, CHUNKS)?;
    let told = played(&rt, rt.alloc(), &mut engine, NEAREST)?;
    assert_eq!(rt; told.as_str(), NEAREST);
    Ok(())
}

/// The slots and places of the rows are kept.
#[test]
fn chunks_are_kept(rt: HostRuntime) -> Result<(), Fail> {
    let slots = kept_after(&rt, rt.alloc(), &[], CHUNKS, &[2])?;
    assert_eq!(rt; slots.as_str(), SLOTS);
    let places = kept_after(&rt, rt.alloc(), &[], CHUNKS, &[3])?;
    assert_eq!(rt; places.as_str(), PLACES);
    Ok(())
}

/// A row takes the least free slot of its partition, and the number of a chunk that has gone is taken again.
#[test]
fn later_places_are_kept(rt: HostRuntime) -> Result<(), Fail> {
    let alloc = rt.alloc();
    let script = format!(in alloc; "{CHUNKS}{NEAREST}")?;
    let places = kept_after(&rt, alloc, &[], script.as_str(), &[3])?;
    assert_eq!(rt; places.as_str(), LATER_PLACES);
    Ok(())
}

/// The records of a table without rows: its name with its columns, and the greatest rowid that it held.
const EMPTY_TABLE: &str = "\
1 1 0 0 0x01766120696E74385B325D2064697374616E63655F6D65747269633D6C322C206368756E6B5F73697A653D31303234
1 1 1 0 0x0000000000000000
";

/// A table that is dropped leaves no record, and a new one has its two.
#[test]
fn a_dropped_table_leaves_nothing(rt: HostRuntime) -> Result<(), Fail> {
    let alloc = rt.alloc();
    let dropped = format!(in alloc; "{CHUNKS}1 DROP TABLE v\n")?;
    let none = kept_after(&rt, alloc, &[], dropped.as_str(), &[])?;
    assert_eq!(rt; none.as_str(), "");
    let made = format!(in alloc; "{dropped}1 CREATE VIRTUAL TABLE v USING vec0(a int8[2])\n")?;
    let two = kept_after(&rt, alloc, &[], made.as_str(), &[])?;
    assert_eq!(rt; two.as_str(), EMPTY_TABLE);
    Ok(())
}

const COMMITTED: &str = "\
open
1 CREATE VIRTUAL TABLE v USING vec0(a int8[2])
1 BEGIN
1 INSERT INTO v(a) VALUES (vec_int8('[1,2]'))
1 COMMIT
";

/// The place of the one row.
const ONE_PLACE: &str = "1 3 1 0 0x010000000000\n";

/// A commit that failed leaves the tables from before, and one that is made then the row once.
#[test]
fn a_commit_is_kept_once(rt: HostRuntime) -> Result<(), Fail> {
    let alloc = rt.alloc();
    let failed = kept_after(&rt, alloc, &[3], COMMITTED, &[])?;
    assert_eq!(rt; failed.as_str(), EMPTY_TABLE);
    let again = format!(in alloc; "{COMMITTED}1 COMMIT\n")?;
    let made = kept_after(&rt, alloc, &[3], again.as_str(), &[3])?;
    assert_eq!(rt; made.as_str(), ONE_PLACE);
    let all = kept_after(&rt, alloc, &[3], again.as_str(), &[])?;
    let whole = kept_after(&rt, alloc, &[], COMMITTED, &[])?;
    assert_eq!(rt; all, whole);
    Ok(())
}

const UNCOMMITTED: &str = "\
open
1 CREATE VIRTUAL TABLE v USING vec0(a int8[2])
1 SAVEPOINT s
1 INSERT INTO v(a) VALUES (vec_int8('[1,2]'))
1 CREATE VIRTUAL TABLE w USING vec0(a int8[2])
";

/// The keeper has committed tables alone.
#[test]
fn work_is_not_kept(rt: HostRuntime) -> Result<(), Fail> {
    let kept = kept_after(&rt, rt.alloc(), &[], UNCOMMITTED, &[])?;
    assert_eq!(rt; kept.as_str(), EMPTY_TABLE);
    Ok(())
}
