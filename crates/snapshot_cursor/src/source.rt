//! What gives rows by rising rowids.
ghost use Rattle.std.specs.Prelude.{◌≡◌, true, List as Seq, Some, IfOk};
ghost use Rattle.std.specs.Option.{option_map};
ghost use Rattle.vec_base.specs.declared.value.Value.{Value as ValueOf};
ghost use Rattle.row_model.specs.Rows.{is_rising};
ghost use Rattle.row_model.specs.declared.row.Row.{Row as RowOf};
ghost use Rattle.snapshot_cursor.specs.Scanned.{next_row, values_of};

use std::alloc::Global;
use vec_base::{List, Memory, Value};

/// What gives rows by rising rowids, each with the values that are answered for it.
pub trait RowSource {
    /// The rows.
    ghost rows: { Self → Seq RowOf };

    /// The least rowid of a row above one, or the least of all.
    fn next_after(&self, after: Option<i64>) -> Option<i64>
        ensures next { result ≡ option_map (λ row. row.rowid) (next_row after (rows self.now)) }
        ensures rising { is_rising (rows self.now) ≡ true };

    /// The values of the row of a rowid, where there is one. Nothing is said of the answer where there is none.
    fn row(&self, alloc: Global, rowid: i64) -> Result<List<Value>, Memory>
        ensures values { IfOk result (λ values. (own : Seq ValueOf) → values_of rowid (rows self.now) ≡ Some own → values ≡ own) };
}

/// A source without rows. It serves cursors whose rows are kept.
#[derive(Clone, Copy, Debug)]
pub struct NoRows;

impl RowSource for NoRows {
    ghost use Rattle.std.specs.Prelude.{[]};

    ghost rows = { λ _. [] };

    fn next_after(&self, _: Option<i64>) -> Option<i64> {
        None
    }

    fn row(&self, alloc: Global, _: i64) -> Result<List<Value>, Memory> {
        Ok(List::new(alloc))
    }
}
