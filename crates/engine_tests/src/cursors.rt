//! Cursors, and how a SELECT is carried out.

use crate::steps::Step::{Cursor, EndCursor, Fetch, Run};
use crate::steps::{said, two_sessions};
use std::test::Fail;

const ALL: &str = "SELECT id FROM t";

const MORE: &str = "INSERT INTO t(id, a) VALUES (2, vec_int8('[2]')), (3, vec_int8('[3]'))";

/// A cursor keeps the rows of its moment, page by page.
#[test]
fn a_cursor_keeps_its_rows(rt: HostRuntime) -> Result<(), Fail> {
    let mut engine = two_sessions(rt.alloc())?;
    for (id, step, wanted) in [
        (1, Run(MORE), "Inserted(2, 3)"),
        (1, Cursor(ALL), "Cursor(1)"),
        (1, Run("DELETE FROM t WHERE id > 1"), "Changed(2)"),
        (1, Fetch(1, 2), "page 1 2"),
        (1, Fetch(1, 2), "last 3"),
        (1, Fetch(1, 2), "last"),
        (1, EndCursor(1), "Done"),
        (1, Fetch(1, 2), "Refused(NoCursor)"),
        (1, Cursor(ALL), "Cursor(2)"),
    ] {
        assert_eq!(rt; said(rt.alloc(), &mut engine, id, step)?.as_text(), wanted);
    }
    Ok(())
}

/// Cursors belong to their session. ROLLBACK closes them, and COMMIT does not.
#[test]
fn a_rollback_closes_cursors(rt: HostRuntime) -> Result<(), Fail> {
    let mut engine = two_sessions(rt.alloc())?;
    for (id, step, wanted) in [
        (1, Run("BEGIN"), "Done"),
        (1, Cursor(ALL), "Cursor(1)"),
        (2, Fetch(1, 1), "Refused(NoCursor)"),
        (1, Run("COMMIT"), "Done"),
        (1, Fetch(1, 1), "last 1"),
        (1, Run("BEGIN"), "Done"),
        (1, Run("ROLLBACK"), "Done"),
        (1, EndCursor(1), "Refused(NoCursor)"),
    ] {
        assert_eq!(rt; said(rt.alloc(), &mut engine, id, step)?.as_text(), wanted);
    }
    Ok(())
}

/// EXPLAIN says how a SELECT is carried out, in the tables that its session sees.
#[test]
fn a_select_is_explained(rt: HostRuntime) -> Result<(), Fail> {
    let mut engine = two_sessions(rt.alloc())?;
    for (id, step, wanted) in [
        (
            1,
            Run("EXPLAIN SELECT id FROM t WHERE id = 1"),
            "Planned(Point)",
        ),
        (1, Run("EXPLAIN SELECT id FROM t"), "Planned(Scan)"),
        (
            1,
            Run("EXPLAIN SELECT id FROM t WHERE a MATCH vec_int8('[1]') AND k = 1"),
            "Planned(Nearest)",
        ),
        (1, Run("BEGIN"), "Done"),
        (1, Run("DROP TABLE t"), "Done"),
        (1, Run("EXPLAIN SELECT id FROM t"), "Refused(NoTable)"),
        (2, Run("EXPLAIN SELECT id FROM t"), "Planned(Scan)"),
    ] {
        assert_eq!(rt; said(rt.alloc(), &mut engine, id, step)?.as_text(), wanted);
    }
    Ok(())
}
