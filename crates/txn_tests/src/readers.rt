//! Calls that read: a page, the passing of its rows, and the schema of a table.
use crate::memory_engine::engine_over;
use crate::reply::put_reply;
use crate::script::played;
use shadow_keeper::MemoryKeeper;
use std::alloc::Global;
use std::marker::Sync;
use std::test::Fail;
use std::thread::Threads;
use txn_core::Engine;
use vec_base::{Memory, Txt};

const THREE_ROWS: &str = "\
open
open
1 CREATE VIRTUAL TABLE v USING vec0(a int8[1])
1 INSERT INTO v(a) VALUES (vec_int8('[1]')), (vec_int8('[2]')), (vec_int8('[3]'))
1 cursor SELECT rowid FROM v
1 BEGIN
2 CREATE VIRTUAL TABLE w USING vec0(a int8[1], b bit[8])
";

/// An engine with two sessions and a table of three rows. The first session has a cursor over them and reads; the second one has made a table since.
fn engine_read<R: Threads + Sync>(rt: &R, alloc: Global) -> Result<Engine<MemoryKeeper>, Memory> {
    let mut engine = engine_over(alloc, &[])?;
    played(rt, alloc, &mut engine, THREE_ROWS)?;
    engine.known();
    Ok(engine)
}

/// Two pages of two rows from a cursor, the passing of two rows, and so on again.
fn passed(
    alloc: Global,
    engine: &mut Engine<MemoryKeeper>,
    session: u32,
    cursor: u32,
) -> Result<String, Memory> {
    let mut told = String::new(alloc);
    for _ in 0..2 {
        put_reply(&mut told, &engine.page(session, cursor, 2))?;
        told.push_str("; ")?;
        put_reply(&mut told, &engine.page(session, cursor, 2))?;
        told.push_str("; ")?;
        put_reply(&mut told, &engine.advance(session, cursor, 2))?;
        told.push_str("; ")?;
    }
    Ok(told)
}

/// A page leaves the cursor where it is, and an advance passes the rows.
#[test]
fn a_page_is_read_and_passed(rt: HostRuntime) -> Result<(), Fail> {
    let mut engine = engine_read(&rt, rt.alloc())?;
    let told = passed(rt.alloc(), &mut engine, 1, 1)?;
    assert_eq!(rt;
        told.as_str(),
        "1 / 2 / more 2; 1 / 2 / more 2; ok; 3 / last 1; 3 / last 1; ok; "
    );
    Ok(())
}

/// How many columns the table of a name has that a session sees.
fn columns_seen(
    alloc: Global,
    engine: &Engine<MemoryKeeper>,
    session: u32,
    name: &str,
) -> Result<Option<usize>, Memory> {
    let name = Txt::from_text(alloc, name)?;
    match engine.schema(session, &name) {
        Some(schema) => Ok(Some(schema.columns.len())),
        None => Ok(None),
    }
}

/// A session sees the schemas of its snapshot.
#[test]
fn schemas_are_seen(rt: HostRuntime) -> Result<(), Fail> {
    let alloc = rt.alloc();
    let engine = engine_read(&rt, alloc)?;
    assert_eq!(rt; columns_seen(alloc, &engine, 1, "v")?, Some(1));
    assert_eq!(rt; columns_seen(alloc, &engine, 1, "w")?, None);
    assert_eq!(rt; columns_seen(alloc, &engine, 2, "w")?, Some(2));
    assert_eq!(rt; columns_seen(alloc, &engine, 3, "v")?, None);
    Ok(())
}
