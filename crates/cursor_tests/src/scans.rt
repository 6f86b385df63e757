//! Cursors that scan a source.
use crate::pages::numbers;
use crate::three_rows::ThreeRows;
use snapshot_cursor::{Cursor, NoRows};
use std::alloc::Global;
use std::test::Fail;
use vec_base::Memory;

/// The numbers of a page of one row, and those of a page of five rows behind it, of a scan of two rows at most.
fn two_pages(alloc: Global) -> Result<([Option<i64>; 3], [Option<i64>; 3]), Memory> {
    let mut cursor = Cursor::open_scan(2);
    let first = numbers(&cursor.page(alloc, &ThreeRows, 1)?);
    cursor.advance(&ThreeRows, 1);
    let second = numbers(&cursor.page(alloc, &ThreeRows, 5)?);
    Ok((first, second))
}

/// Whether a scan of two rows at most is done behind one row, and behind a second one.
fn ends() -> [bool; 2] {
    let mut cursor = Cursor::open_scan(2);
    let early = cursor.done_after(&ThreeRows, 1);
    cursor.advance(&ThreeRows, 1);
    [early, cursor.done_after(&ThreeRows, 1)]
}

/// The numbers of a page of a scan without a limit, and whether that scan is done behind it.
fn all_rows(alloc: Global) -> Result<([Option<i64>; 3], bool), Memory> {
    let cursor = Cursor::open_scan(u64::MAX);
    let page = numbers(&cursor.page(alloc, &ThreeRows, 3)?);
    Ok((page, cursor.done_after(&ThreeRows, 3)))
}

/// How many rows a scan without rows has, and whether it is done at once.
fn without_rows(alloc: Global) -> Result<(usize, bool), Memory> {
    let cursor = Cursor::open_scan(2);
    let page = cursor.page(alloc, &NoRows, 5)?;
    Ok((page.len(), cursor.done_after(&NoRows, 0)))
}

#[test]
fn a_scan_goes_on_up_to_its_limit(rt: HostRuntime) -> Result<(), Fail> {
    assert_eq!(rt;
        two_pages(rt.alloc()),
        Ok(([Some(20), None, None], [Some(50), None, None]))
    );
    Ok(())
}

#[test]
fn a_scan_ends_at_its_limit(rt: HostRuntime) -> Result<(), Fail> {
    assert_eq!(rt; ends(), [false, true]);
    Ok(())
}

#[test]
fn a_scan_ends_with_the_rows(rt: HostRuntime) -> Result<(), Fail> {
    assert_eq!(rt;
        all_rows(rt.alloc()),
        Ok(([Some(20), Some(50), Some(90)], true))
    );
    Ok(())
}

#[test]
fn without_rows_a_scan_is_done(rt: HostRuntime) -> Result<(), Fail> {
    assert_eq!(rt; without_rows(rt.alloc()), Ok((0, true)));
    Ok(())
}
