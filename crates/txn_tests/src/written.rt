//! Requests that were written by hand.
use crate::compared::compare_all;
use crate::script::copies;
use std::alloc::Global;
use std::test::Fail;
use vec_base::Memory;

const TRANSACTIONS: &str = "\
open
open
open
1 COMMIT
1 ROLLBACK
1 SELECT * FROM v
1 CREATE VIRTUAL TABLE v USING vec0(id text primary key, p integer partition key, a int8[2], b bit[8], m text, f boolean, +x blob, chunk_size=8)
1 CREATE VIRTUAL TABLE v USING vec0(a int8[1])
1 CREATE VIRTUAL TABLE w USING vec0(a int8[1] distance_metric=l1)
1 INSERT INTO v(id, p, a, b, m, f, x) VALUES ('one', 1, vec_int8('[1,2]'), vec_bit(X'0F'), 'short', true, X'0102')
1 INSERT INTO v(id, p, a, b, m, f) VALUES ('two', 2, vec_int8('[3,4]'), vec_bit(X'FF'), 'longer than twelve', false)
1 INSERT INTO v(id, p, a, b, m, f) VALUES ('one', 2, vec_int8('[3,4]'), vec_bit(X'FF'), 'twice', false)
1 INSERT INTO v(rowid, id, p, a, b, m, f) VALUES (7, 'six', 2, vec_int8('[3,4]'), vec_bit(X'FF'), 'given', false)
1 INSERT INTO v(id, p, a, b, m) VALUES ('six', 2, vec_int8('[3,4]'), vec_bit(X'FF'), 'no truth')
1 INSERT INTO v(id, p, a, b, m, f) VALUES (6, 2, vec_int8('[3,4]'), vec_bit(X'FF'), 'number', false)
1 INSERT INTO v(id, p, a, b, m, f) VALUES ('six', 2, vec_int8('[3]'), vec_bit(X'FF'), 'thin', false)
1 INSERT INTO v(id, id, a, b, m, f) VALUES ('six', 'six', vec_int8('[3,4]'), vec_bit(X'FF'), 'thin', false)
1 INSERT INTO v(id, p, a, b, m, f) VALUES ('six', 2, vec_int8('[3,4]'), vec_bit(X'FF'), NULL, false)
1 SELECT * FROM v
1 SELECT zz FROM v
1 SELECT rowid, id, p, m, f, x FROM v WHERE m > 'm'
1 SELECT id, distance FROM v WHERE b MATCH vec_bit(X'00') AND k = 1
1 SELECT id, distance FROM v WHERE a MATCH vec_int8('[0,0]') AND p = 2 AND k = 5
1 SELECT id FROM v WHERE a MATCH vec_int8('[0,0]') AND k = 4097
1 SELECT id FROM v WHERE a MATCH vec_int8('[0,0]') AND x = X'00' AND k = 1
1 SELECT id FROM v WHERE a = 1
1 SELECT id FROM v WHERE f = 'x'
1 SELECT id FROM v LIMIT -1
2 BEGIN
1 BEGIN IMMEDIATE
3 BEGIN IMMEDIATE
2 DELETE FROM v
1 UPDATE v SET m = 'changed' WHERE id = 'one'
1 UPDATE v SET p = 3
1 UPDATE v SET m = 'a', m = 'b'
1 UPDATE v SET a = vec_int8('[9,9]'), x = NULL WHERE p IN (1, 3)
3 SELECT id, m FROM v
2 SELECT id, m FROM v
1 SELECT id, a, m, x FROM v
1 COMMIT
2 SELECT id, m FROM v
3 SELECT id, m FROM v
2 DROP TABLE w
2 ROLLBACK
2 DROP TABLE w
2 DROP TABLE w
1 leave
1 BEGIN
1 leave
3 EXPLAIN SELECT * FROM v WHERE id = 'one'
3 EXPLAIN SELECT * FROM v WHERE m = 'one'
3 EXPLAIN SELECT * FROM v WHERE a MATCH vec_int8('[0,0]') LIMIT 1
open
";

/// Statements of every form in transactions of three sessions.
#[test]
fn transactions_are_answered_alike(rt: HostRuntime) -> Result<(), Fail> {
    let compared = compare_all(&rt, rt.alloc(), TRANSACTIONS)?;
    assert_eq!(rt; compared.unlike.as_str(), "");
    assert_eq!(rt;
        compared.numbers(rt.alloc())?.as_str(),
        "4 5 6 8 9 10 11 12 13 14 15 16 17 21 "
    );
    Ok(())
}

const SAVEPOINTS: &str = "\
open
open
1 CREATE VIRTUAL TABLE v USING vec0(id integer primary key, a int8[2], +x text)
1 RELEASE s
1 ROLLBACK TO s
1 SAVEPOINT s
1 BEGIN
1 INSERT INTO v(a) VALUES (vec_int8('[1,0]')), (vec_int8('[2,0]'))
1 cursor SELECT id FROM v
1 SAVEPOINT t
1 INSERT INTO v(id, a, x) VALUES (9223372036854775807, vec_int8('[3,0]'), 'last')
1 INSERT INTO v(a) VALUES (vec_int8('[4,0]'))
1 cursor SELECT id, x FROM v
1 fetch 2 1
2 INSERT INTO v(a) VALUES (vec_int8('[5,0]'))
2 SELECT * FROM v
1 ROLLBACK TO t
1 fetch 1 1
1 fetch 2 1
1 INSERT INTO v(a) VALUES (vec_int8('[4,0]'))
1 cursor SELECT id, distance FROM v WHERE a MATCH vec_int8('[5,0]') AND k = 2
1 SAVEPOINT T
1 DROP TABLE v
1 SELECT id FROM v
1 fetch 3 1
1 RELEASE t
1 RELEASE t
1 ROLLBACK TO s
1 SELECT id FROM v
1 INSERT INTO v(a) VALUES (vec_int8('[6,0]'))
1 RELEASE s
1 RELEASE s
2 SELECT * FROM v
2 cursor SELECT * FROM v
2 cursor SELECT * FROM v WHERE id = 1
2 cursor SELECT id FROM v LIMIT 0
2 cursor SELECT zz FROM v
2 cursor SELECT id FROM w
2 cursor SELECT id FROM v WHERE x MATCH vec_int8('[5,0]') AND k = 2
2 cursor SELECT id FROM v WHERE x MATCH 'five' AND k = 2
1 DELETE FROM v
1 CREATE VIRTUAL TABLE u USING vec0(a int8[1])
2 fetch 1 0
2 fetch 1 5
2 fetch 2 5
2 fetch 3 5
2 fetch 4 5
2 close 1
2 close 1
2 fetch 1 1
1 close 1
3 close 1
3 fetch 1 1
3 cursor SELECT id FROM v
2 SAVEPOINT s
1 INSERT INTO v(a) VALUES (vec_int8('[7,0]'))
2 INSERT INTO v(a) VALUES (vec_int8('[8,0]'))
2 SELECT id FROM v
2 RELEASE s
2 SELECT id FROM v
2 UPDATE v SET id = 4
2 UPDATE v SET x = 'both', a = vec_int8('[-128,127]')
2 SELECT * FROM v
";

/// Savepoints and cursors of two sessions.
#[test]
fn savepoints_are_answered_alike(rt: HostRuntime) -> Result<(), Fail> {
    let compared = compare_all(&rt, rt.alloc(), SAVEPOINTS)?;
    assert_eq!(rt; compared.unlike.as_str(), "");
    assert_eq!(rt;
        compared.numbers(rt.alloc())?.as_str(),
        "4 5 8 9 12 14 15 16 18 20 21 22 "
    );
    Ok(())
}

/// What is asked beside as many rows, savepoints, cursors, sessions and tables as there may be.
const FULL: &str = "\
1 SELECT rowid FROM v
1 SELECT rowid FROM v LIMIT 4096
1 cursor SELECT rowid FROM v
1 SAVEPOINT s
1 close 4
1 cursor SELECT rowid FROM v
1 cursor SELECT rowid FROM v WHERE a MATCH vec_int8('[1]') AND k = 1
2 DELETE FROM v
1 fetch 16 4096
1 fetch 16 4096
1 fetch 16 4096
1 ROLLBACK TO s
1 fetch 16 4096
1 RELEASE s
1 SAVEPOINT s
open
256 leave
open
257 CREATE VIRTUAL TABLE u USING vec0(a int8[1])
";

/// Lines that bring a session to the limits of rows of a reply, savepoints and cursors, and the machine to that of sessions.
fn full(alloc: Global) -> Result<String, Memory> {
    let groups = copies(alloc, ", (vec_int8('[1]'))", 240)?;
    let insert = format!(in alloc; "1 INSERT INTO v(a) VALUES (vec_int8('[1]')){groups}\n")?;
    let opens = copies(alloc, "open\n", 256)?;
    let inserts = copies(alloc, insert.as_str(), 17)?;
    let marks = copies(alloc, "1 SAVEPOINT s\n", 64)?;
    let cursors = copies(alloc, "1 cursor SELECT rowid FROM v\n", 16)?;
    Ok(format!(in alloc;
        "{opens}1 CREATE VIRTUAL TABLE v USING vec0(a int8[1])\n{inserts}{marks}{cursors}{FULL}"
    )?)
}

/// Limits of replies, savepoints, cursors and sessions.
#[test]
fn limits_are_answered_alike(rt: HostRuntime) -> Result<(), Fail> {
    let lines = full(rt.alloc())?;
    let compared = compare_all(&rt, rt.alloc(), lines.as_str())?;
    assert_eq!(rt; compared.unlike.as_str(), "");
    assert_eq!(rt; compared.numbers(rt.alloc())?.as_str(), "19 22 23 ");
    Ok(())
}
