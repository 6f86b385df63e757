//! A row that changes in its place.
ghost use Rattle.std.specs.Prelude.{◌≡◌, ◌<◌, true, length, slice_get, slice_index, IfOk, OnErr, OnOk, is_some};
ghost use Rattle.row_chunks.specs.Cells.{takes_value};
ghost use Rattle.row_store.specs.StoredRows.{row_of, with_cell, with_changed, with_vector};
ghost use Rattle.row_store.specs.Touches.{HasSameShape, KeepsOrigin};
ghost use Rattle.row_store.specs.inner.Changes.{Fits, row_changed};

use crate::part::RowChange;
use crate::{RowStore, claims, parts};
use std::alloc::Global;
use vec_base::{Memory, Value};

impl RowStore {
    /// The row of a rowid changes. Answers whether it is there. After want of memory the rows are as before.
    fn change_row(
        &mut self,
        alloc: Global,
        rowid: &i64,
        change: &RowChange<'_>,
    ) -> Result<bool, Memory>
        requires { Fits self.old.widths self.old.kinds change.now }
        ensures kept { OnErr result (self.new.rows ≡ self.old.rows) }
        ensures rows { OnOk result (self.new.rows ≡ with_changed rowid.now (row_changed change.now) self.old.rows) }
        ensures answer { IfOk result (λ is_there. is_there ≡ is_some (row_of rowid.now self.old.rows)) }
        ensures shape { HasSameShape self.old self.new }
        ensures origin { KeepsOrigin self.old self.new }
    {
        let Some(place) = claims::find(alloc, &mut self.rows, &mut self.touched, rowid)? else {
            return Ok(false);
        };
        self.rows.index.known();
        parts::change_row(&mut self.rows.parts, place.chunk, place.slot, change)?;
        Ok(true)
    }

    /// Another vector comes into a vector column of the row of a rowid. Answers whether the row is there. After want of memory the rows are as
    /// before.
    pub fn set_vector(
        &mut self,
        alloc: Global,
        rowid: &i64,
        column: u8,
        vector: &[u8],
    ) -> Result<bool, Memory>
        requires column { column < length self.old.widths }
        requires width { length vector.now ≡ slice_index self.old.widths column }
        ensures kept { OnErr result (self.new.rows ≡ self.old.rows) }
        ensures rows { OnOk result (self.new.rows ≡ with_changed rowid.now (with_vector column vector.now) self.old.rows) }
        ensures answer { IfOk result (λ is_there. is_there ≡ is_some (row_of rowid.now self.old.rows)) }
        ensures shape { HasSameShape self.old self.new }
        ensures origin { KeepsOrigin self.old self.new }
    {
        self.change_row(alloc, rowid, &RowChange::Vector(column, vector))
    }

    /// Another value comes into a cell of the row of a rowid. Answers whether the row is there. After want of memory the rows are as before.
    pub fn set_cell(
        &mut self,
        alloc: Global,
        rowid: &i64,
        index: u8,
        value: &Value,
    ) -> Result<bool, Memory>
        requires cell { takes_value (slice_get self.old.kinds index) value.now ≡ true }
        ensures kept { OnErr result (self.new.rows ≡ self.old.rows) }
        ensures rows { OnOk result (self.new.rows ≡ with_changed rowid.now (with_cell index value.now) self.old.rows) }
        ensures answer { IfOk result (λ is_there. is_there ≡ is_some (row_of rowid.now self.old.rows)) }
        ensures shape { HasSameShape self.old self.new }
        ensures origin { KeepsOrigin self.old self.new }
    {
        self.change_row(alloc, rowid, &RowChange::Cell(index, value))
    }
}
