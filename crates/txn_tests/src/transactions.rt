//! Transactions, and what refuses them.
use crate::script::replayed;
use std::test::Fail;

const ONE_WRITES: &str = "\
open => session 1
open => session 2
1 CREATE VIRTUAL TABLE v USING vec0(a int8[2]) => ok
1 BEGIN IMMEDIATE => ok
2 INSERT INTO v(a) VALUES (vec_int8('[1,2]')) => error 15 busy session 1
2 BEGIN IMMEDIATE => error 15 busy session 1
2 BEGIN => ok
2 DELETE FROM v => error 15 busy session 1
2 SELECT rowid FROM v => rows 0
2 COMMIT => ok
1 leave => ok
2 INSERT INTO v(a) VALUES (vec_int8('[1,2]')) => inserted 1 last 1
1 leave => error 21 no session
open => session 3
2 BEGIN IMMEDIATE => ok
3 DROP TABLE v => error 15 busy session 2
";

/// One session writes at a time, until its transaction or itself ends.
#[test]
fn one_session_writes_at_a_time(rt: HostRuntime) -> Result<(), Fail> {
    let played = replayed(&rt, rt.alloc(), &[], ONE_WRITES)?;
    assert_eq!(rt; played.as_str(), ONE_WRITES);
    Ok(())
}

const OLD_SNAPSHOT: &str = "\
open => session 1
open => session 2
1 CREATE VIRTUAL TABLE v USING vec0(a int8[2]) => ok
1 BEGIN => ok
2 INSERT INTO v(a) VALUES (vec_int8('[1,2]')) => inserted 1 last 1
1 INSERT INTO v(a) VALUES (vec_int8('[1,2]')) => error 16 old snapshot 1 latest 2
1 SELECT rowid FROM v => rows 0
1 COMMIT => ok
1 INSERT INTO v(a) VALUES (vec_int8('[1,2]')) => inserted 1 last 2
1 BEGIN => ok
2 DROP TABLE v => ok
1 SELECT rowid FROM v => 1 / 2 / rows 2
1 EXPLAIN SELECT rowid FROM v => scan
1 UPDATE v SET a = vec_int8('[0,0]') => error 16 old snapshot 3 latest 4
1 ROLLBACK => ok
1 SELECT rowid FROM v => error 5 no table
";

/// A transaction that reads sees the tables of its beginning, and does not write over newer ones.
#[test]
fn a_snapshot_stays_and_is_old(rt: HostRuntime) -> Result<(), Fail> {
    let played = replayed(&rt, rt.alloc(), &[], OLD_SNAPSHOT)?;
    assert_eq!(rt; played.as_str(), OLD_SNAPSHOT);
    Ok(())
}

const SPENT_ROWIDS: &str = "\
open => session 1
1 CREATE VIRTUAL TABLE v USING vec0(a int8[2]) => ok
1 BEGIN => ok
1 INSERT INTO v(rowid, a) VALUES (9223372036854775807, vec_int8('[1,2]')) => inserted 1 last 9223372036854775807
1 INSERT INTO v(a) VALUES (vec_int8('[1,2]')) => error 18 rowids spent
1 ROLLBACK => ok
1 INSERT INTO v(a) VALUES (vec_int8('[1,2]')) => inserted 1 last 1
";

/// A rollback gives back the greatest rowid that a table held.
#[test]
fn a_rollback_gives_rowids_back(rt: HostRuntime) -> Result<(), Fail> {
    let played = replayed(&rt, rt.alloc(), &[], SPENT_ROWIDS)?;
    assert_eq!(rt; played.as_str(), SPENT_ROWIDS);
    Ok(())
}

const PHASES: &str = "\
open => session 1
open => session 2
1 COMMIT => error 4 transaction state
1 ROLLBACK => error 4 transaction state
1 RELEASE s => error 20 no savepoint
1 ROLLBACK TO s => error 20 no savepoint
1 BEGIN => ok
1 BEGIN => error 4 transaction state
1 BEGIN IMMEDIATE => error 4 transaction state
1 CREATE VIRTUAL TABLE v USING vec0(a int8[1]) => ok
1 BEGIN IMMEDIATE => error 4 transaction state
1 SELECT rowid FROM v => rows 0
2 SELECT rowid FROM v => error 5 no table
2 CREATE VIRTUAL TABLE v USING vec0(a int8[1]) => error 15 busy session 1
1 COMMIT => ok
1 COMMIT => error 4 transaction state
2 SELECT rowid FROM v => rows 0
3 SELECT rowid FROM v => error 21 no session
3 BEGIN => error 21 no session
3 COMMIT => error 21 no session
3 RELEASE s => error 21 no session
";

/// What a session may do that is idle, that reads, and that writes.
#[test]
fn each_phase_has_its_requests(rt: HostRuntime) -> Result<(), Fail> {
    let played = replayed(&rt, rt.alloc(), &[], PHASES)?;
    assert_eq!(rt; played.as_str(), PHASES);
    Ok(())
}

const ORDER: &str = "\
open => session 1
open => session 2
1 CREATE VIRTUAL TABLE v USING vec0(a int8[1], m integer) => ok
1 INSERT INTO v(a, m) VALUES (vec_int8('[1]'), 1) => inserted 1 last 1
2 BEGIN => ok
1 INSERT INTO v(a, m) VALUES (vec_int8('[2]'), 2) => inserted 1 last 2
1 BEGIN IMMEDIATE => ok
3 INSERT INTO w(a) VALUES (vec_int8('[1]')) => error 21 no session
2 INSERT INTO w(a) VALUES (vec_int8('[1]')) => error 5 no table
2 CREATE VIRTUAL TABLE v USING vec0(a int8[1]) => error 6 table exists
2 INSERT INTO v(rowid, a, zz) VALUES (1, vec_int8('[1]'), 1) => error 8 no column at 3
2 INSERT INTO v(rowid, a, m) VALUES (1, vec_int8('[1,1]'), 1) => error 10 vector column 1 wants 1 got 2
2 UPDATE v SET rowid = 1 => error 12 fixed column 0
2 INSERT INTO v(rowid, a, m) VALUES (1, vec_int8('[1]'), 1) => error 15 busy session 1
1 COMMIT => ok
2 INSERT INTO v(rowid, a, m) VALUES (1, vec_int8('[1]'), 1) => error 16 old snapshot 2 latest 4
2 DROP TABLE v => error 16 old snapshot 2 latest 4
2 COMMIT => ok
2 INSERT INTO v(rowid, a, m) VALUES (1, vec_int8('[1]'), 1) => error 17 duplicate rowid 1
2 BEGIN => ok
2 INSERT INTO v(rowid, a, m) VALUES (1, vec_int8('[1]'), 1) => error 17 duplicate rowid 1
1 INSERT INTO v(rowid, a, m) VALUES (3, vec_int8('[3]'), 3) => inserted 1 last 3
2 DELETE FROM v WHERE m = 1 => error 16 old snapshot 4 latest 5
";

/// Of several refusals the first in the order is given: of the session, the table, the statement, another writer, the snapshot, and the change.
/// A refused write of a session that reads leaves it reading.
#[test]
fn refusals_come_in_their_order(rt: HostRuntime) -> Result<(), Fail> {
    let played = replayed(&rt, rt.alloc(), &[], ORDER)?;
    assert_eq!(rt; played.as_str(), ORDER);
    Ok(())
}

const WHOLE: &str = "\
open => session 1
1 CREATE VIRTUAL TABLE v USING vec0(id text primary key, a int8[1]) => ok
1 INSERT INTO v(id, a) VALUES ('x', vec_int8('[1]')), ('y', vec_int8('[2]')) => inserted 2 last 2
1 INSERT INTO v(id, a) VALUES ('x', vec_int8('[1]')) => error 17 duplicate rowid 1
1 INSERT INTO v(id, a) VALUES ('z', vec_int8('[3]')), ('x', vec_int8('[1]')) => error 17 duplicate rowid 1
1 INSERT INTO v(rowid, id, a) VALUES (9, 'z', vec_int8('[3]')) => error 12 fixed column 0
1 SELECT * FROM v => 'x'|vec_int8('[1]') / 'y'|vec_int8('[2]') / rows 2
1 BEGIN => ok
1 INSERT INTO v(id, a) VALUES ('z', vec_int8('[3]')) => inserted 1 last 3
1 INSERT INTO v(id, a) VALUES ('u', vec_int8('[4]')), ('y', vec_int8('[1]')) => error 17 duplicate rowid 2
1 COMMIT => ok
1 UPDATE v SET a = vec_int8('[0]') WHERE rowid IN (1, 5) => changed 1
1 DELETE FROM v WHERE rowid > 3 => changed 0
1 SELECT * FROM v WHERE id = 'x' => 'x'|vec_int8('[0]') / rows 1
1 SELECT id FROM v => 'x' / 'y' / 'z' / rows 3
1 EXPLAIN SELECT * FROM v WHERE id = 'x' => point
1 EXPLAIN SELECT * FROM v => scan
1 EXPLAIN SELECT * FROM v WHERE a MATCH vec_int8('[0]') AND k = 1 => nearest
1 EXPLAIN SELECT * FROM v WHERE rowid = 1 => point
";

/// A refused statement changes nothing, alone or inside a transaction, and EXPLAIN says how a SELECT is carried out.
#[test]
fn statements_are_done_whole_or_not(rt: HostRuntime) -> Result<(), Fail> {
    let played = replayed(&rt, rt.alloc(), &[], WHOLE)?;
    assert_eq!(rt; played.as_str(), WHOLE);
    Ok(())
}
