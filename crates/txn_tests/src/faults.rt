//! Commits that the keeper does not make.
use crate::script::replayed;
use std::test::Fail;

const COMMIT_FAILS: &str = "\
open => session 1
open => session 2
1 CREATE VIRTUAL TABLE v USING vec0(a int8[2]) => ok
1 BEGIN => ok
1 INSERT INTO v(a) VALUES (vec_int8('[1,2]')) => inserted 1 last 1
1 COMMIT => error 24 store fault
1 SELECT rowid FROM v => 1 / rows 1
2 SELECT rowid FROM v => rows 0
1 BEGIN => error 4 transaction state
2 BEGIN IMMEDIATE => error 15 busy session 1
1 COMMIT => ok
2 SELECT rowid FROM v => 1 / rows 1
1 COMMIT => error 4 transaction state
";

/// A transaction whose commit fails stays open, and may be committed again.
#[test]
fn a_failed_commit_leaves_its_transaction(rt: HostRuntime) -> Result<(), Fail> {
    let played = replayed(&rt, rt.alloc(), &[3], COMMIT_FAILS)?;
    assert_eq!(rt; played.as_str(), COMMIT_FAILS);
    Ok(())
}

const RELEASE_FAILS: &str = "\
open => session 1
open => session 2
1 CREATE VIRTUAL TABLE v USING vec0(a int8[2]) => ok
1 SAVEPOINT s => ok
1 INSERT INTO v(a) VALUES (vec_int8('[1,2]')) => inserted 1 last 1
1 cursor SELECT rowid FROM v => cursor 1
1 SAVEPOINT t => ok
1 RELEASE s => error 24 store fault
1 ROLLBACK TO t => ok
1 RELEASE s => error 24 store fault
1 RELEASE t => ok
1 RELEASE s => ok
2 SELECT rowid FROM v => 1 / rows 1
";

/// A release whose commit fails leaves the savepoints.
#[test]
fn a_failed_release_leaves_its_savepoints(rt: HostRuntime) -> Result<(), Fail> {
    let played = replayed(&rt, rt.alloc(), &[3, 4], RELEASE_FAILS)?;
    assert_eq!(rt; played.as_str(), RELEASE_FAILS);
    Ok(())
}

const ALONE_FAIL: &str = "\
open => session 1
1 CREATE VIRTUAL TABLE v USING vec0(a int8[2]) => error 24 store fault
1 SELECT rowid FROM v => error 5 no table
1 CREATE VIRTUAL TABLE v USING vec0(a int8[2]) => ok
1 INSERT INTO v(a) VALUES (vec_int8('[1,2]')) => error 24 store fault
1 SELECT rowid FROM v => rows 0
1 INSERT INTO v(a) VALUES (vec_int8('[1,2]')) => inserted 1 last 1
1 UPDATE v SET a = vec_int8('[0,0]') => error 24 store fault
1 DELETE FROM v => error 24 store fault
1 DROP TABLE v => error 24 store fault
1 SELECT * FROM v => 1|vec_int8('[1,2]') / rows 1
1 BEGIN => ok
1 COMMIT => ok
1 DROP TABLE v => ok
";

/// A write whose own commit fails changes nothing. What does not commit asks nothing of the keeper.
#[test]
fn failed_writes_change_nothing(rt: HostRuntime) -> Result<(), Fail> {
    let played = replayed(&rt, rt.alloc(), &[2, 4, 6, 7, 8], ALONE_FAIL)?;
    assert_eq!(rt; played.as_str(), ALONE_FAIL);
    Ok(())
}
