//! Cursors over the rows of a table.
use crate::tables::{plan_of, put_rows, twelve_rows};
use snapshot_cursor::{Cursor, RowSource};
use std::alloc::Global;
use std::test::Fail;
use table_rows::{TableRows, open_scan};
use table_version::TableVersion;
use vec_base::{Memory, Refusal};

/// Pages of so many rows up to the last one, each with a bar behind it.
fn pages<V: RowSource>(
    alloc: Global,
    source: &V,
    mut cursor: Cursor,
    count: u16,
) -> Result<String, Memory> {
    let mut told = String::new(alloc);
    for _ in 0..16 {
        let rows = cursor.page(alloc, source, count)?;
        put_rows(&mut told, &rows)?;
        told.push_str("; ")?;
        if cursor.done_after(source, count) {
            return Ok(told);
        }
        cursor.advance(source, count);
    }
    Ok(told)
}

/// What a cursor for a SELECT gives in pages of so many rows.
fn scanned(
    alloc: Global,
    version: &TableVersion,
    text: &str,
    count: u16,
) -> Result<String, Refusal> {
    let plan = plan_of(alloc, version, text)?;
    if plan.target().is_some() {
        return Err(Refusal::Syntax(0));
    }
    let source = TableRows {
        table: version,
        plan: &plan,
    };
    match pages(alloc, &source, open_scan(version, &plan), count) {
        Ok(told) => Ok(told),
        Err(Memory) => Err(Refusal::WantOfMemory),
    }
}

/// What a cursor over the twelve rows gives in pages of so many rows.
fn given(alloc: Global, text: &str, count: u16) -> Result<String, Refusal> {
    let version = twelve_rows(alloc)?;
    scanned(alloc, &version, text, count)
}

#[test]
fn a_cursor_gives_page_after_page(rt: HostRuntime) -> Result<(), Fail> {
    let told = given(rt.alloc(), "SELECT rowid FROM v WHERE m >= 40", 4)?;
    assert_eq!(rt; told.as_str(), "4 5 6 7 ; 8 9 10 11 ; 12 ; ");
    Ok(())
}

#[test]
fn a_cursor_ends_at_the_limit(rt: HostRuntime) -> Result<(), Fail> {
    let told = given(rt.alloc(), "SELECT rowid, a FROM v WHERE p = 2 LIMIT 2", 2)?;
    assert_eq!(rt;
        told.as_str(),
        "10|vec_int8('[10,0]') 11|vec_int8('[11,0]') ; "
    );
    Ok(())
}
