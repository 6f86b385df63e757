//! Savepoints.
use crate::script::replayed;
use std::test::Fail;

const NAMED_TWICE: &str = "\
open => session 1
open => session 2
1 CREATE VIRTUAL TABLE v USING vec0(a int8[2]) => ok
1 INSERT INTO v(a) VALUES (vec_int8('[1,2]')) => inserted 1 last 1
1 SAVEPOINT s => ok
1 INSERT INTO v(a) VALUES (vec_int8('[1,2]')) => inserted 1 last 2
1 SAVEPOINT S => ok
1 INSERT INTO v(a) VALUES (vec_int8('[1,2]')) => inserted 1 last 3
1 ROLLBACK TO s => ok
1 RELEASE S => ok
1 INSERT INTO v(a) VALUES (vec_int8('[1,2]')) => inserted 1 last 3
2 SELECT rowid FROM v => 1 / rows 1
1 RELEASE s => ok
1 RELEASE s => error 20 no savepoint
2 SELECT rowid FROM v => 1 / 2 / 3 / rows 3
1 COMMIT => error 4 transaction state
";

/// The newest savepoint of a name counts, its tables come back with the greatest rowids that they held, and the release of the first one commits.
#[test]
fn a_savepoint_gives_its_tables_back(rt: HostRuntime) -> Result<(), Fail> {
    let played = replayed(&rt, rt.alloc(), &[], NAMED_TWICE)?;
    assert_eq!(rt; played.as_str(), NAMED_TWICE);
    Ok(())
}

const INSIDE: &str = "\
open => session 1
open => session 2
1 CREATE VIRTUAL TABLE v USING vec0(a int8[1]) => ok
1 BEGIN => ok
1 SAVEPOINT p => ok
1 INSERT INTO v(a) VALUES (vec_int8('[1]')) => inserted 1 last 1
1 SAVEPOINT q => ok
1 DROP TABLE v => ok
1 SAVEPOINT r => ok
1 SELECT rowid FROM v => error 5 no table
1 ROLLBACK TO q => ok
1 RELEASE r => error 20 no savepoint
1 SELECT rowid FROM v => 1 / rows 1
1 RELEASE p => ok
1 RELEASE q => error 20 no savepoint
2 SELECT rowid FROM v => rows 0
1 BEGIN => error 4 transaction state
1 COMMIT => ok
2 SELECT rowid FROM v => 1 / rows 1
";

/// Inside of BEGIN a release commits nothing, and newer savepoints go with an older one.
#[test]
fn a_release_in_a_transaction_commits_nothing(rt: HostRuntime) -> Result<(), Fail> {
    let played = replayed(&rt, rt.alloc(), &[], INSIDE)?;
    assert_eq!(rt; played.as_str(), INSIDE);
    Ok(())
}

const READING: &str = "\
open => session 1
open => session 2
1 CREATE VIRTUAL TABLE v USING vec0(a int8[1]) => ok
2 BEGIN => ok
1 SAVEPOINT s => ok
1 SELECT rowid FROM v => rows 0
1 RELEASE s => ok
2 INSERT INTO v(a) VALUES (vec_int8('[1]')) => inserted 1 last 1
2 COMMIT => ok
1 SAVEPOINT s => ok
1 BEGIN => error 4 transaction state
2 INSERT INTO v(a) VALUES (vec_int8('[2]')) => inserted 1 last 2
1 SELECT rowid FROM v => 1 / rows 1
1 INSERT INTO v(a) VALUES (vec_int8('[3]')) => error 16 old snapshot 2 latest 3
1 RELEASE s => ok
1 INSERT INTO v(a) VALUES (vec_int8('[3]')) => inserted 1 last 3
1 SAVEPOINT s => ok
1 COMMIT => ok
1 RELEASE s => error 20 no savepoint
";

/// A savepoint of an idle session begins a transaction that reads. Its release is no commit where nothing was written.
#[test]
fn a_savepoint_begins_a_transaction(rt: HostRuntime) -> Result<(), Fail> {
    let played = replayed(&rt, rt.alloc(), &[], READING)?;
    assert_eq!(rt; played.as_str(), READING);
    Ok(())
}

const STILL_WRITING: &str = "\
open => session 1
open => session 2
open => session 3
1 CREATE VIRTUAL TABLE v USING vec0(a int8[1]) => ok
3 BEGIN => ok
1 SAVEPOINT s => ok
1 INSERT INTO v(a) VALUES (vec_int8('[1]')) => inserted 1 last 1
1 ROLLBACK TO s => ok
1 SELECT rowid FROM v => rows 0
2 INSERT INTO v(a) VALUES (vec_int8('[2]')) => error 15 busy session 1
1 ROLLBACK TO s => ok
1 RELEASE s => ok
3 INSERT INTO v(a) VALUES (vec_int8('[3]')) => error 16 old snapshot 1 latest 2
2 INSERT INTO v(a) VALUES (vec_int8('[2]')) => inserted 1 last 1
2 BEGIN => ok
2 SAVEPOINT s => ok
2 INSERT INTO v(a) VALUES (vec_int8('[4]')) => inserted 1 last 2
2 ROLLBACK TO s => ok
2 INSERT INTO v(rowid, a) VALUES (9, vec_int8('[4]')) => inserted 1 last 9
2 ROLLBACK TO s => ok
2 INSERT INTO v(a) VALUES (vec_int8('[5]')) => inserted 1 last 2
2 ROLLBACK => ok
2 RELEASE s => error 20 no savepoint
2 SELECT rowid, a FROM v => 1|vec_int8('[2]') / rows 1
";

/// A session that has gone back to a savepoint writes on, and the savepoint stays.
#[test]
fn a_session_that_went_back_writes_on(rt: HostRuntime) -> Result<(), Fail> {
    let played = replayed(&rt, rt.alloc(), &[], STILL_WRITING)?;
    assert_eq!(rt; played.as_str(), STILL_WRITING);
    Ok(())
}
