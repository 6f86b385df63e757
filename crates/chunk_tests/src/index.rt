//! The index of rows: each call on its happy path.
use row_index::RowIndex;
use std::test::Fail;

#[test]
fn rows_are_found_by_rowid(rt: HostRuntime) -> Result<(), Fail> {
    let alloc = rt.alloc();
    let mut index = RowIndex::new(alloc);
    index.put(alloc, 9, 1, 0, None).or(Err("no memory"))?;
    index.put(alloc, 4, 1, 1, None).or(Err("no memory"))?;
    assert_eq!(rt;
        (index.next(None), index.next(Some(4)), index.next(Some(9))),
        (Some(4), Some(9), None)
    );
    let shared = index.share().or(Err("no memory"))?;
    assert_eq!(rt;
        (shared.place(4), shared.place(9), shared.len()),
        (Some((1, 1)), Some((1, 0)), 2)
    );
    assert_eq!(rt; index.remove(alloc, 4), Ok(true));
    assert_eq!(rt; index.remove(alloc, 4), Ok(false));
    assert_eq!(rt;
        (index.next(None), index.place(4), index.len()),
        (Some(9), None, 1)
    );
    assert_eq!(rt; shared.place(4), Some((1, 1)));
    Ok(())
}

#[test]
fn rows_are_found_by_id(rt: HostRuntime) -> Result<(), Fail> {
    let alloc = rt.alloc();
    let mut index = RowIndex::new(alloc);
    index.put(alloc, 1, 1, 0, Some("b")).or(Err("no memory"))?;
    index.put(alloc, 2, 1, 1, Some("a")).or(Err("no memory"))?;
    assert_eq!(rt;
        (index.rowid_of("a"), index.rowid_of("b"), index.id(1)),
        (Some(2), Some(1), Some("b"))
    );
    assert_eq!(rt; index.remove(alloc, 1), Ok(true));
    assert_eq!(rt;
        (index.rowid_of("a"), index.rowid_of("b"), index.id(1)),
        (Some(2), None, None)
    );
    index.put(alloc, 3, 2, 0, Some("b")).or(Err("no memory"))?;
    assert_eq!(rt; (index.rowid_of("b"), index.id(3)), (Some(3), Some("b")));
    Ok(())
}
