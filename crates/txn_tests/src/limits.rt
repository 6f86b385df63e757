//! Limits of sessions, savepoints, cursors, tables, terms and replies.
use crate::memory_engine::engine_over;
use crate::script::{copies, played};
use std::alloc::Global;
use std::marker::Sync;
use std::test::Fail;
use std::thread::Threads;
use vec_base::Memory;

/// The requests of a script and their replies, on a new engine that was given other scripts first, each so many times.
fn played_after<R: Threads + Sync>(
    rt: &R,
    alloc: Global,
    before: &[(&str, u32)],
    script: &str,
) -> Result<String, Memory> {
    let mut engine = engine_over(alloc, &[])?;
    for (text, count) in before {
        let many = copies(alloc, text, *count)?;
        played(rt, alloc, &mut engine, many.as_str())?;
    }
    played(rt, alloc, &mut engine, script)
}

const TWO_ROWS: &str = "\
open
open
1 CREATE VIRTUAL TABLE v USING vec0(a int8[2])
1 INSERT INTO v(a) VALUES (vec_int8('[1,2]')), (vec_int8('[3,4]'))
1 BEGIN
";

const FULL: &str = "\
1 SAVEPOINT s => error 19 full limit 8 count 65
1 cursor SELECT * FROM v => error 19 full limit 7 count 17
2 DELETE FROM v => changed 2
1 fetch 1 1 => 1|vec_int8('[1,2]') / more 1
1 fetch 1 9 => 2|vec_int8('[3,4]') / last 1
1 fetch 2 9 => 1|vec_int8('[1,2]') / 2|vec_int8('[3,4]') / last 2
1 fetch 3 9 => 1|vec_int8('[1,2]') / 2|vec_int8('[3,4]') / last 2
1 fetch 4 9 => 1|vec_int8('[1,2]') / 2|vec_int8('[3,4]') / last 2
1 fetch 5 9 => 1|vec_int8('[1,2]') / 2|vec_int8('[3,4]') / last 2
1 fetch 6 9 => 1|vec_int8('[1,2]') / 2|vec_int8('[3,4]') / last 2
1 fetch 7 9 => 1|vec_int8('[1,2]') / 2|vec_int8('[3,4]') / last 2
1 fetch 8 9 => 1|vec_int8('[1,2]') / 2|vec_int8('[3,4]') / last 2
1 fetch 9 9 => 1|vec_int8('[1,2]') / 2|vec_int8('[3,4]') / last 2
1 fetch 10 9 => 1|vec_int8('[1,2]') / 2|vec_int8('[3,4]') / last 2
1 fetch 11 9 => 1|vec_int8('[1,2]') / 2|vec_int8('[3,4]') / last 2
1 fetch 12 9 => 1|vec_int8('[1,2]') / 2|vec_int8('[3,4]') / last 2
1 fetch 13 9 => 1|vec_int8('[1,2]') / 2|vec_int8('[3,4]') / last 2
1 fetch 14 9 => 1|vec_int8('[1,2]') / 2|vec_int8('[3,4]') / last 2
1 fetch 15 9 => 1|vec_int8('[1,2]') / 2|vec_int8('[3,4]') / last 2
1 fetch 16 9 => 1|vec_int8('[1,2]') / 2|vec_int8('[3,4]') / last 2
1 close 3 => ok
1 cursor SELECT * FROM v => cursor 17
1 RELEASE s => ok
1 SAVEPOINT s => ok
1 SAVEPOINT s => error 19 full limit 8 count 65
1 ROLLBACK => ok
1 fetch 16 9 => error 22 no cursor
1 SELECT * FROM v => rows 0
";

/// A session with 64 savepoints and 16 cursors, whose rows another session deletes.
#[test]
fn savepoints_and_cursors_are_counted(rt: HostRuntime) -> Result<(), Fail> {
    let before = [
        (TWO_ROWS, 1),
        ("1 SAVEPOINT s\n", 64),
        ("1 cursor SELECT * FROM v\n", 16),
    ];
    let played = played_after(&rt, rt.alloc(), &before, FULL)?;
    assert_eq!(rt; played.as_str(), FULL);
    Ok(())
}

const MANY_ROWS: &str = "\
1 SELECT rowid FROM v => error 23 too many rows 4097
1 SELECT rowid FROM v LIMIT 4097 => error 23 too many rows 4097
1 SELECT rowid FROM v LIMIT 4096 => 1 / .. / 4096 / rows 4096
1 cursor SELECT rowid FROM v => cursor 1
1 fetch 1 4096 => 1 / .. / 4096 / more 4096
1 fetch 1 4096 => 4097 / last 1
1 DELETE FROM v WHERE rowid = 17 => changed 1
1 SELECT rowid FROM v => 1 / .. / 4097 / rows 4096
";

/// A reply has at most 4,096 rows, and a cursor gives them all.
#[test]
fn a_reply_has_so_many_rows(rt: HostRuntime) -> Result<(), Fail> {
    let alloc = rt.alloc();
    let groups = copies(alloc, ", (vec_int8('[1]'))", 240)?;
    let insert = format!(in alloc; "1 INSERT INTO v(a) VALUES (vec_int8('[1]')){groups}\n")?;
    let create = "open\n1 CREATE VIRTUAL TABLE v USING vec0(a int8[1])\n";
    let played = played_after(&rt, alloc, &[(create, 1), (insert.as_str(), 17)], MANY_ROWS)?;
    assert_eq!(rt; played.as_str(), MANY_ROWS);
    Ok(())
}

const SESSIONS: &str = "\
open => error 19 full limit 6 count 257
256 leave => ok
open => session 257
open => error 19 full limit 6 count 257
256 COMMIT => error 21 no session
257 COMMIT => error 4 transaction state
";

/// A session that is closed leaves its room, but not its id.
#[test]
fn sessions_are_counted(rt: HostRuntime) -> Result<(), Fail> {
    let played = played_after(&rt, rt.alloc(), &[("open\n", 256)], SESSIONS)?;
    assert_eq!(rt; played.as_str(), SESSIONS);
    Ok(())
}

/// Texts by which a session makes 64 tables.
fn creates(alloc: Global) -> Result<String, Memory> {
    let mut all = String::new(alloc);
    all.push_str("open\n")?;
    for number in 1..65u32 {
        let line = format!(in alloc; "1 CREATE VIRTUAL TABLE t{number} USING vec0(a int8[1])\n")?;
        all.push_str(line.as_str())?;
    }
    Ok(all)
}

const TABLES: &str = "\
1 CREATE VIRTUAL TABLE u USING vec0(a int8[1]) => error 19 full limit 1 count 65
1 CREATE VIRTUAL TABLE t64 USING vec0(a int8[1]) => error 6 table exists
1 DROP TABLE t5 => ok
1 CREATE VIRTUAL TABLE u USING vec0(a int8[1]) => ok
1 INSERT INTO u(a) VALUES (vec_int8('[1]')) => inserted 1 last 1
1 SELECT rowid FROM t64 => rows 0
";

#[test]
fn tables_are_counted(rt: HostRuntime) -> Result<(), Fail> {
    let creates = creates(rt.alloc())?;
    let played = played_after(&rt, rt.alloc(), &[(creates.as_str(), 1)], TABLES)?;
    assert_eq!(rt; played.as_str(), TABLES);
    Ok(())
}

/// A SELECT of 65 items is refused when it is read, and one of 64 is not.
#[test]
fn items_are_counted(rt: HostRuntime) -> Result<(), Fail> {
    let alloc = rt.alloc();
    let items = copies(alloc, "rowid, ", 63)?;
    let script = format!(in alloc;
        "1 SELECT {items}rowid, rowid FROM v => error 19 full limit 12 count 65\n1 SELECT {items}rowid FROM v => error 5 no table\n"
    )?;
    let played = played_after(&rt, alloc, &[("open\n", 1)], script.as_str())?;
    assert_eq!(rt; played, script);
    Ok(())
}
