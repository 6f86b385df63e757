//! Cursors, whatever becomes of their tables.
use crate::script::replayed;
use std::test::Fail;

const KEPT_ROWS: &str = "\
open => session 1
open => session 2
1 CREATE VIRTUAL TABLE v USING vec0(a int8[2]) => ok
1 INSERT INTO v(a) VALUES (vec_int8('[1,2]')), (vec_int8('[3,4]')) => inserted 2 last 2
1 BEGIN => ok
1 cursor SELECT rowid FROM v => cursor 1
2 DELETE FROM v => changed 2
2 INSERT INTO v(rowid, a) VALUES (3, vec_int8('[5,6]')) => inserted 1 last 3
1 fetch 1 1 => 1 / more 1
1 fetch 1 5 => 2 / last 1
1 fetch 1 5 => last 0
1 ROLLBACK => ok
1 fetch 1 5 => error 22 no cursor
";

/// A cursor gives the rows of its moment, whatever is committed since, and a rollback closes it.
#[test]
fn a_cursor_keeps_its_rows(rt: HostRuntime) -> Result<(), Fail> {
    let played = replayed(&rt, rt.alloc(), &[], KEPT_ROWS)?;
    assert_eq!(rt; played.as_str(), KEPT_ROWS);
    Ok(())
}

const GONE_TABLE: &str = "\
open => session 1
open => session 2
1 CREATE VIRTUAL TABLE v USING vec0(a int8[2]) => ok
1 INSERT INTO v(a) VALUES (vec_int8('[1,2]')), (vec_int8('[3,4]')) => inserted 2 last 2
1 cursor SELECT rowid, a FROM v => cursor 1
2 UPDATE v SET a = vec_int8('[9,9]') => changed 2
2 DROP TABLE v => ok
2 CREATE VIRTUAL TABLE v USING vec0(b bit[8]) => ok
1 fetch 1 1 => 1|vec_int8('[1,2]') / more 1
1 cursor SELECT * FROM v => cursor 2
2 INSERT INTO v(b) VALUES (vec_bit(X'0F')) => inserted 1 last 1
1 fetch 2 9 => last 0
1 fetch 1 9 => 2|vec_int8('[3,4]') / last 1
1 SELECT * FROM v => 1|vec_bit(X'0F') / rows 1
1 close 1 => ok
1 close 1 => error 22 no cursor
1 fetch 2 0 => last 0
";

/// A table that is changed, dropped and made anew shows its old rows to the cursors that were opened before.
#[test]
fn a_cursor_outlives_its_table(rt: HostRuntime) -> Result<(), Fail> {
    let played = replayed(&rt, rt.alloc(), &[], GONE_TABLE)?;
    assert_eq!(rt; played.as_str(), GONE_TABLE);
    Ok(())
}

const TRANSACTION: &str = "\
open => session 1
open => session 2
1 CREATE VIRTUAL TABLE v USING vec0(a int8[1]) => ok
1 BEGIN => ok
1 INSERT INTO v(a) VALUES (vec_int8('[1]')) => inserted 1 last 1
1 cursor SELECT rowid FROM v => cursor 1
2 fetch 1 1 => error 22 no cursor
1 SAVEPOINT s => ok
1 INSERT INTO v(a) VALUES (vec_int8('[2]')) => inserted 1 last 2
1 cursor SELECT rowid FROM v => cursor 2
1 RELEASE s => ok
1 COMMIT => ok
1 fetch 1 9 => 1 / last 1
1 fetch 2 1 => 1 / more 1
1 SAVEPOINT s => ok
1 fetch 2 0 => more 0
1 ROLLBACK TO s => ok
1 fetch 2 1 => error 22 no cursor
1 cursor SELECT rowid FROM v => cursor 3
1 ROLLBACK => ok
1 close 3 => error 22 no cursor
1 cursor SELECT rowid FROM v => cursor 4
1 leave => ok
1 fetch 4 1 => error 21 no session
";

/// COMMIT and RELEASE keep cursors; ROLLBACK TO, ROLLBACK and the end of the session close them.
#[test]
fn rollbacks_close_cursors(rt: HostRuntime) -> Result<(), Fail> {
    let played = replayed(&rt, rt.alloc(), &[], TRANSACTION)?;
    assert_eq!(rt; played.as_str(), TRANSACTION);
    Ok(())
}

const ROLLED_BACK_TABLE: &str = "\
open => session 1
1 BEGIN => ok
1 CREATE VIRTUAL TABLE v USING vec0(a int8[1]) => ok
1 INSERT INTO v(a) VALUES (vec_int8('[1]')) => inserted 1 last 1
1 cursor SELECT rowid FROM v => cursor 1
1 DROP TABLE v => ok
1 fetch 1 1 => 1 / last 1
1 ROLLBACK => ok
1 fetch 1 1 => error 22 no cursor
1 SELECT rowid FROM v => error 5 no table
";

/// A cursor over a table that its own transaction made and dropped.
#[test]
fn a_cursor_reads_its_own_transaction(rt: HostRuntime) -> Result<(), Fail> {
    let played = replayed(&rt, rt.alloc(), &[], ROLLED_BACK_TABLE)?;
    assert_eq!(rt; played.as_str(), ROLLED_BACK_TABLE);
    Ok(())
}

const EACH_PLAN: &str = "\
open => session 1
1 CREATE VIRTUAL TABLE v USING vec0(a int8[2], m integer) => ok
1 INSERT INTO v(a, m) VALUES (vec_int8('[4,0]'), 1), (vec_int8('[1,0]'), 2), (vec_int8('[3,0]'), 1), (vec_int8('[2,0]'), 2) => inserted 4 last 4
1 cursor SELECT rowid, distance FROM v WHERE a MATCH vec_int8('[0,0]') AND k = 3 => cursor 1
1 cursor SELECT m FROM v WHERE rowid = 3 => cursor 2
1 cursor SELECT rowid FROM v WHERE m = 2 => cursor 3
1 cursor SELECT rowid FROM v LIMIT 2 => cursor 4
1 cursor SELECT rowid FROM v WHERE m = 7 => cursor 5
1 DELETE FROM v => changed 4
1 fetch 1 2 => 2|1 / 4|4 / more 2
1 fetch 1 2 => 3|9 / last 1
1 fetch 2 2 => 1 / last 1
1 fetch 3 1 => 2 / more 1
1 fetch 3 1 => 4 / last 1
1 fetch 4 9 => 1 / 2 / last 2
1 fetch 5 9 => last 0
1 cursor SELECT rowid FROM v => cursor 6
1 fetch 6 1 => last 0
";

/// A cursor over the nearest rows, over the row of a rowid, and over scans.
#[test]
fn each_plan_has_cursors(rt: HostRuntime) -> Result<(), Fail> {
    let played = replayed(&rt, rt.alloc(), &[], EACH_PLAN)?;
    assert_eq!(rt; played.as_str(), EACH_PLAN);
    Ok(())
}

const REFUSED: &str = "\
open => session 1
1 CREATE VIRTUAL TABLE v USING vec0(a int8[2]) => ok
1 cursor SELECT rowid FROM w => error 5 no table
1 cursor SELECT zz FROM v => error 8 no column at 1
1 cursor SELECT rowid FROM v WHERE rowid = 'x' => error 9 type of column 0
1 cursor SELECT rowid FROM v WHERE a MATCH vec_int8('[1]') AND k = 1 => error 10 vector column 1 wants 2 got 1
1 cursor SELECT rowid FROM v WHERE a MATCH vec_int8('[0,0]') AND k = 5000 => error 13 k out of range 5000
1 cursor SELECT distance FROM v => error 14 nearest rule 5
9 cursor SELECT rowid FROM w => error 21 no session
9 fetch 1 1 => error 21 no session
9 close 1 => error 21 no session
1 fetch 1 1 => error 22 no cursor
1 cursor DELETE FROM v => error 1 syntax at 0
1 cursor SELECT rowid FROM v => cursor 1
";

/// A cursor that is refused takes no number.
#[test]
fn cursors_are_refused(rt: HostRuntime) -> Result<(), Fail> {
    let played = replayed(&rt, rt.alloc(), &[], REFUSED)?;
    assert_eq!(rt; played.as_str(), REFUSED);
    Ok(())
}
