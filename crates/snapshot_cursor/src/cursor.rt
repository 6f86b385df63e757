//! Cursors.
ghost use Rattle.std.specs.Prelude.{◌≡◌, List as Seq, map, take, drop, length, ◌==◌, IfOk};
ghost use Rattle.row_model.specs.declared.row.Row.{Row as RowOf};
ghost use Rattle.snapshot_cursor.specs.Left.{rows_left};

use crate::kept::{is_end_after, next_copied, passed_with};
use crate::scan::{ScanPlace, is_end, scan_behind, scanned};
use crate::source::RowSource;
use std::alloc::Global;
use vec_base::{List, Memory, Value};

/// Rows that are kept, with the number of those that were passed, or a place in a scan.
#[derive(Debug, Drop)]
pub enum Cursor {
    Rows(List<List<Value>>, usize),
    Scan(ScanPlace),
}

impl Cursor {
    /// A cursor over the first rows of any source, so many or all.
    pub fn open_scan(limit: u64) -> Cursor
        ensures { (rows : Seq RowOf) → rows_left result rows ≡ take limit (map (λ row. row.values) rows) }
    {
        Cursor::Scan(ScanPlace {
            after: None,
            left: limit,
        })
    }

    /// A cursor over these rows, whatever the source.
    pub fn open_rows(kept: List<List<Value>>) -> Cursor
        ensures { (rows : Seq RowOf) → rows_left result rows ≡ kept }
    {
        Cursor::Rows(kept, 0)
    }

    /// The next rows, so many or all.
    pub fn page<V: RowSource>(
        &self,
        alloc: Global,
        view: &V,
        count: u16,
    ) -> Result<List<List<Value>>, Memory>
        ensures { IfOk result (λ rows. rows ≡ take count (rows_left self.now (V.rows view.now))) }
    {
        match self {
            Cursor::Rows(kept, passed) => next_copied(alloc, kept, *passed, count),
            Cursor::Scan(place) => scanned(alloc, view, *place, count),
        }
    }

    /// Whether no row is left behind the next ones.
    pub fn done_after<V: RowSource>(&self, view: &V, count: u16) -> bool
        ensures { result ≡ (length (drop count (rows_left self.now (V.rows view.now))) == 0) }
    {
        match self {
            Cursor::Rows(kept, passed) => is_end_after(kept, *passed, count),
            Cursor::Scan(place) => is_end(view, scan_behind(view, *place, count)),
        }
    }

    /// Passes the next rows. It takes no memory.
    pub fn advance<V: RowSource>(&mut self, view: &V, count: u16)
        ensures { rows_left self.new (V.rows view.now) ≡ drop count (rows_left self.old (V.rows view.now)) }
    {
        match self {
            Cursor::Rows(kept, passed) => *passed = passed_with(kept, *passed, count),
            Cursor::Scan(place) => *place = scan_behind(view, *place, count),
        }
    }
}
