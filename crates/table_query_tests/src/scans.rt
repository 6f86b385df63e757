//! Scans of a table.
use crate::tables::{equal, plan_of, terms, three_rows};
use row_model::Items;
use std::alloc::Global;
use std::test::Fail;
use table_query::scan_next;

/// The first two rows that a scan for a number comes to, and what is above them.
fn scanned(alloc: Global) -> Result<[Option<i64>; 3], Fail> {
    let version = three_rows(alloc)?;
    let mut tests = Vec::new(alloc);
    tests.push(("m", equal(10)))?;
    let plan = plan_of(alloc, &version, Items::All, terms(alloc, tests)?)?;
    let first = scan_next(&version, &plan, None);
    let second = scan_next(&version, &plan, first);
    Ok([first, second, scan_next(&version, &plan, second)])
}

#[test]
fn a_scan_comes_to_the_rows_that_meet_its_terms(rt: HostRuntime) -> Result<(), Fail> {
    let found = scanned(rt.alloc())?;
    assert_eq!(rt; found, [Some(1), Some(3), None]);
    Ok(())
}
