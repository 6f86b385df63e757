//! Transactions and savepoints of two sessions.

use crate::steps::Step::{Leave, Run};
use crate::steps::{said, two_sessions};
use std::test::Fail;

const ALL: &str = "SELECT id FROM t";

const TWO: &str = "INSERT INTO t(id, a) VALUES (2, vec_int8('[2]'))";

const THREE: &str = "INSERT INTO t(id, a) VALUES (3, vec_int8('[3]'))";

/// What a session wrote is seen by others from its COMMIT on.
#[test]
fn a_commit_shows_what_was_written(rt: HostRuntime) -> Result<(), Fail> {
    let mut engine = two_sessions(rt.alloc())?;
    for (id, step, wanted) in [
        (1, Run("BEGIN"), "Done"),
        (1, Run("BEGIN"), "Refused(TxnState)"),
        (1, Run(TWO), "Inserted(1, 2)"),
        (1, Run(ALL), "rows 1 2"),
        (2, Run(ALL), "rows 1"),
        (1, Run("COMMIT"), "Done"),
        (2, Run(ALL), "rows 1 2"),
        (1, Run("COMMIT"), "Refused(TxnState)"),
    ] {
        assert_eq!(rt; said(rt.alloc(), &mut engine, id, step)?.as_text(), wanted);
    }
    Ok(())
}

/// ROLLBACK gives up what was written.
#[test]
fn a_rollback_gives_up_what_was_written(rt: HostRuntime) -> Result<(), Fail> {
    let mut engine = two_sessions(rt.alloc())?;
    for (id, step, wanted) in [
        (1, Run("BEGIN IMMEDIATE"), "Done"),
        (1, Run("DROP TABLE t"), "Done"),
        (1, Run(ALL), "Refused(NoTable)"),
        (1, Run("ROLLBACK"), "Done"),
        (1, Run(ALL), "rows 1"),
        (1, Run("ROLLBACK"), "Refused(TxnState)"),
    ] {
        assert_eq!(rt; said(rt.alloc(), &mut engine, id, step)?.as_text(), wanted);
    }
    Ok(())
}

/// A transaction that reads sees the tables of its beginning, and cannot write where another one has committed since.
#[test]
fn a_snapshot_stays_and_is_old(rt: HostRuntime) -> Result<(), Fail> {
    let mut engine = two_sessions(rt.alloc())?;
    for (id, step, wanted) in [
        (1, Run("BEGIN"), "Done"),
        (2, Run(TWO), "Inserted(1, 2)"),
        (1, Run(ALL), "rows 1"),
        (1, Run(THREE), "Refused(OldSnapshot(2, 3))"),
        (1, Run("COMMIT"), "Done"),
        (1, Run(ALL), "rows 1 2"),
        (1, Run(THREE), "Inserted(1, 3)"),
    ] {
        assert_eq!(rt; said(rt.alloc(), &mut engine, id, step)?.as_text(), wanted);
    }
    Ok(())
}

/// One session writes at a time; the others read.
#[test]
fn a_second_writer_is_refused(rt: HostRuntime) -> Result<(), Fail> {
    let mut engine = two_sessions(rt.alloc())?;
    for (id, step, wanted) in [
        (1, Run("BEGIN IMMEDIATE"), "Done"),
        (2, Run("BEGIN IMMEDIATE"), "Refused(Busy(1))"),
        (2, Run(TWO), "Refused(Busy(1))"),
        (2, Run(ALL), "rows 1"),
        (1, Run("COMMIT"), "Done"),
        (2, Run(TWO), "Inserted(1, 2)"),
    ] {
        assert_eq!(rt; said(rt.alloc(), &mut engine, id, step)?.as_text(), wanted);
    }
    Ok(())
}

/// ROLLBACK TO gives back the tables of the savepoint, and RELEASE of the first one commits.
#[test]
fn a_savepoint_gives_its_tables_back(rt: HostRuntime) -> Result<(), Fail> {
    let mut engine = two_sessions(rt.alloc())?;
    for (id, step, wanted) in [
        (1, Run("SAVEPOINT s"), "Done"),
        (1, Run(TWO), "Inserted(1, 2)"),
        (1, Run("SAVEPOINT r"), "Done"),
        (1, Run(THREE), "Inserted(1, 3)"),
        (1, Run("ROLLBACK TO r"), "Done"),
        (1, Run(ALL), "rows 1 2"),
        (1, Run("ROLLBACK TO q"), "Refused(NoSavepoint)"),
        (1, Run("RELEASE s"), "Done"),
        (2, Run(ALL), "rows 1 2"),
        (1, Run("COMMIT"), "Refused(TxnState)"),
    ] {
        assert_eq!(rt; said(rt.alloc(), &mut engine, id, step)?.as_text(), wanted);
    }
    Ok(())
}

/// A savepoint of a transaction that BEGIN began is released without a commit.
#[test]
fn a_release_in_a_transaction_commits_nothing(rt: HostRuntime) -> Result<(), Fail> {
    let mut engine = two_sessions(rt.alloc())?;
    for (id, step, wanted) in [
        (1, Run("BEGIN"), "Done"),
        (1, Run("SAVEPOINT s"), "Done"),
        (1, Run(TWO), "Inserted(1, 2)"),
        (1, Run("RELEASE s"), "Done"),
        (2, Run(ALL), "rows 1"),
        (1, Run("RELEASE s"), "Refused(NoSavepoint)"),
        (1, Run("COMMIT"), "Done"),
        (2, Run(ALL), "rows 1 2"),
    ] {
        assert_eq!(rt; said(rt.alloc(), &mut engine, id, step)?.as_text(), wanted);
    }
    Ok(())
}

/// A session that is closed takes its transaction with it.
#[test]
fn a_closed_session_gives_up_its_transaction(rt: HostRuntime) -> Result<(), Fail> {
    let mut engine = two_sessions(rt.alloc())?;
    for (id, step, wanted) in [
        (1, Run("BEGIN IMMEDIATE"), "Done"),
        (1, Run(TWO), "Inserted(1, 2)"),
        (1, Leave, "Done"),
        (1, Run(ALL), "Refused(NoSession)"),
        (2, Run(ALL), "rows 1"),
        (2, Run(TWO), "Inserted(1, 2)"),
    ] {
        assert_eq!(rt; said(rt.alloc(), &mut engine, id, step)?.as_text(), wanted);
    }
    Ok(())
}
