//! Places in scans.
ghost use Rattle.std.specs.Prelude.{◌≡◌, take, drop, length, ◌==◌, IfOk};
ghost use Rattle.snapshot_cursor.specs.Left.{first_of, scan_left};

use crate::RowSource;
use std::alloc::Global;
use vec_base::{List, Memory, Value};

/// A place in a scan: the rowid of the row before it, and how many rows may still come.
#[derive(Clone, Copy, Debug)]
pub struct ScanPlace {
    pub after: Option<i64>,
    pub left: u64,
}

/// The place behind the next row.
fn next_place<V: RowSource>(view: &V, place: ScanPlace) -> ScanPlace
    ensures { scan_left result (V.rows view.now) ≡ drop 1 (scan_left place (V.rows view.now)) }
{
    if place.left == 0 {
        return place;
    }
    let after = view.next_after(place.after);
    if after.is_none() {
        return ScanPlace {
            after: place.after,
            left: 0,
        };
    }
    ScanPlace {
        after,
        left: place.left - 1,
    }
}

/// The place behind the next rows.
pub(crate) fn scan_behind<V: RowSource>(view: &V, place: ScanPlace, count: u16) -> ScanPlace
    ensures { scan_left result (V.rows view.now) ≡ drop count (scan_left place (V.rows view.now)) }
{
    let mut place = place;
    for _ in 0..count {
        place = next_place(view, place);
    }
    place
}

/// Whether no row is left.
pub(crate) fn is_end<V: RowSource>(view: &V, place: ScanPlace) -> bool
    ensures { result ≡ (length (scan_left place (V.rows view.now)) == 0) }
{
    if place.left == 0 {
        return true;
    }
    view.next_after(place.after).is_none()
}

/// The values of the next row, if there is one.
fn next_values<V: RowSource>(
    alloc: Global,
    view: &V,
    place: ScanPlace,
) -> Result<Option<List<Value>>, Memory>
    ensures { IfOk result (λ values. values ≡ first_of (scan_left place (V.rows view.now))) }
{
    if place.left == 0 {
        return Ok(None);
    }
    match view.next_after(place.after) {
        Some(rowid) => Ok(Some(view.row(alloc, rowid)?)),
        None => Ok(None),
    }
}

/// The next rows, so many or all.
pub(crate) fn scanned<V: RowSource>(
    alloc: Global,
    view: &V,
    place: ScanPlace,
    count: u16,
) -> Result<List<List<Value>>, Memory>
    ensures { IfOk result (λ rows. rows ≡ take count (scan_left place (V.rows view.now))) }
{
    let mut rows = List::new(alloc);
    let mut place = place;
    for _ in 0..count {
        match next_values(alloc, view, place)? {
            Some(values) => rows.push(values)?,
            None => return Ok(rows),
        }
        place = next_place(view, place);
    }
    Ok(rows)
}
