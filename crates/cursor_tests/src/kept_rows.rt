//! Cursors over rows that are kept.
use crate::pages::numbers;
use snapshot_cursor::{Cursor, NoRows};
use std::alloc::Global;
use std::test::Fail;
use vec_base::{List, Memory, Value};

/// A row with this number as its one value.
fn row(alloc: Global, number: i64) -> Result<List<Value>, Memory> {
    let mut values = List::new(alloc);
    values.push(Value::Int(number))?;
    Ok(values)
}

/// A cursor over three rows that are kept.
fn three_kept(alloc: Global) -> Result<Cursor, Memory> {
    let mut rows = List::new(alloc);
    rows.push(row(alloc, 7)?)?;
    rows.push(row(alloc, 8)?)?;
    rows.push(row(alloc, 9)?)?;
    Ok(Cursor::open_rows(rows))
}

/// The numbers of a page of two rows, and those of the page behind it.
fn two_pages(alloc: Global) -> Result<([Option<i64>; 3], [Option<i64>; 3]), Memory> {
    let mut cursor = three_kept(alloc)?;
    let first = numbers(&cursor.page(alloc, &NoRows, 2)?);
    cursor.advance(&NoRows, 2);
    let second = numbers(&cursor.page(alloc, &NoRows, 2)?);
    Ok((first, second))
}

/// Whether the cursor is done behind two rows, and behind two more.
fn ends(alloc: Global) -> Result<[bool; 2], Memory> {
    let mut cursor = three_kept(alloc)?;
    let early = cursor.done_after(&NoRows, 2);
    cursor.advance(&NoRows, 2);
    Ok([early, cursor.done_after(&NoRows, 2)])
}

#[test]
fn kept_rows_come_page_by_page(rt: HostRuntime) -> Result<(), Fail> {
    assert_eq!(rt;
        two_pages(rt.alloc()),
        Ok(([Some(7), Some(8), None], [Some(9), None, None]))
    );
    Ok(())
}

#[test]
fn kept_rows_end_with_the_last(rt: HostRuntime) -> Result<(), Fail> {
    assert_eq!(rt; ends(rt.alloc()), Ok([false, true]));
    Ok(())
}
