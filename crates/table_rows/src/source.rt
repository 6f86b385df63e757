//! A table and a plan: the rows that a scan answers.
ghost use Rattle.std.specs.Prelude.{◌≡◌, None};
ghost use Rattle.knn_plan.specs.Plans.{IsPlanFor};
ghost use Rattle.row_model.specs.Answer.{answer};
ghost use Rattle.shadow_records.specs.PlacedTables.{plain};
ghost use Rattle.snapshot_cursor.specs.Left.{rows_left};
ghost use Rattle.table_rows.specs.ScanRows.{scan_rows};

use knn_plan::Plan;
use snapshot_cursor::{Cursor, RowSource};
use std::alloc::Global;
use table_query::{project, scan_next};
use table_version::TableVersion;
use vec_base::{List, Memory, Steps, Value};

/// The rows of a table that meet the terms of a plan, each with its items.
#[derive(Drop)]
pub struct TableRows<'a> {
    pub table: &'a TableVersion,
    pub plan: &'a Plan,
    ghost for_columns: { IsPlanFor table.now.table.schema.columns plan.now },
}

impl<'a> RowSource for TableRows<'a> {
    ghost use Rattle.table_rows.specs.ScanRows.{scan_rows};

    ghost rows = { λ source. scan_rows source.plan.now source.table.now.table };

    fn next_after(&self, after: Option<i64>) -> Option<i64> {
        self.table.known();
        scan_next(self.table, self.plan, after)
    }

    fn row(&self, alloc: Global, rowid: i64) -> Result<List<Value>, Memory> {
        self.table.known();
        if self.table.row(&rowid).is_none() {
            return Ok(List::new(alloc));
        }
        project(alloc, self.table, self.plan, rowid, 0, &mut Steps::new())
    }
}

/// A cursor over the rows that a SELECT without a MATCH answers.
pub fn open_scan(table: &TableVersion, plan: &Plan) -> Cursor
    requires plan { IsPlanFor table.now.table.schema.columns plan.now }
    requires no_target { plan.now.target ≡ None }
    ensures { rows_left result (scan_rows plan.now table.now.table) ≡ answer (plain table.now.table) plan.now.select }
{
    table.known();
    match plan.limit() {
        Some(limit) => Cursor::open_scan(limit as u64),
        None => Cursor::open_scan(table.rows()),
    }
}
