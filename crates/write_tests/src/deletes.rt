//! Rows that go.
use crate::tables::{equal, one_term, remove, three_rows, two_terms};
use std::alloc::Global;
use std::test::Fail;

/// How many rows of rowid 2 go that have the number 10, and how many are left.
fn other_number(alloc: Global) -> Result<(u64, u64), Fail> {
    let mut version = three_rows(alloc)?;
    let terms = two_terms(alloc, equal(alloc, "rowid", 2)?, equal(alloc, "m", 10)?)?;
    let gone = remove(alloc, &mut version, terms)?;
    Ok((gone, version.rows()))
}

/// How many rows of the number 10 go, and how many are left.
fn of_number(alloc: Global) -> Result<(u64, u64), Fail> {
    let mut version = three_rows(alloc)?;
    let terms = one_term(alloc, equal(alloc, "m", 10)?)?;
    let gone = remove(alloc, &mut version, terms)?;
    Ok((gone, version.rows()))
}

#[test]
fn rows_that_meet_all_terms_go(rt: HostRuntime) -> Result<(), Fail> {
    let alloc = rt.alloc();
    assert_eq!(rt; other_number(alloc)?, (0, 3));
    assert_eq!(rt; of_number(alloc)?, (2, 1));
    Ok(())
}
