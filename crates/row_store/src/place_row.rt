//! A row that takes a named place.
ghost use Rattle.std.specs.Prelude.{◌≡◌, ◌<◌, ◌-◌, ◌^◌, true, length, map, None, Some, IfSome, OnErr, OnOk};
ghost use Rattle.std.specs.Option.{option_copied};
ghost use Rattle.chunk_slots.specs.Slots.{vectors_of};
ghost use Rattle.row_chunks.specs.Cells.{are_cell_values, cells_of, kinds_of};
ghost use Rattle.row_store.specs.StoredRows.{StoredRow, first_in, row_at, row_of, row_with_id, with_row};
ghost use Rattle.row_store.specs.Touches.{HasSameShape};

use crate::part::PlaceRow;
use crate::{RowPlace, RowStore, occupy, parts};
use row_model::Column;
use std::alloc::Global;
use vec_base::{List, Memory, Value};

impl RowStore {
    /// A row takes a place that is free, and is not touched. Its partition values are those of the rows of its chunk. Otherwise it is as with a
    /// row that takes the place that is next. After want of memory the rows are as before.
    pub fn place_row(
        &mut self,
        alloc: Global,
        place: &RowPlace,
        id: Option<&str>,
        partition: &List<Value>,
        columns: &[Column],
        values: &[Value],
    ) -> Result<(), Memory>
        requires fresh { row_of place.now.rowid self.old.rows ≡ None }
        requires own_id { IfSome id (λ text. row_with_id text.now self.old.rows ≡ None) }
        requires chunk { 0 < place.now.chunk }
        requires slot { place.now.slot < self.old.size }
        requires free { row_at self.old.rows place.now.chunk place.now.slot ≡ None }
        requires alike { (row : StoredRow) → first_in self.old.rows place.now.chunk ≡ Some row → row.partition ≡ partition.now }
        requires widths { map length (vectors_of values.now) ≡ self.old.widths }
        requires kinds { kinds_of columns.now ≡ self.old.kinds }
        requires cells { are_cell_values self.old.kinds (cells_of columns.now values.now) ≡ true }
        requires few { length self.old.rows < 2 ^ 64 - 1 }
        ensures kept { OnErr result (self.new.rows ≡ self.old.rows) }
        ensures rows { OnOk result (self.new.rows ≡ with_row (record { rowid = place.now.rowid; chunk = place.now.chunk; slot = place.now.slot; id = option_copied id.entry; partition = partition.now; vectors = vectors_of values.now; cells = cells_of columns.now values.now }) self.old.rows) }
        ensures shape { HasSameShape self.old self.new }
    {
        occupy::prepare_at(alloc, &mut self.rows, place, id, partition)?;
        self.rows.index.known();
        let row = PlaceRow {
            slot: place.slot,
            rowid: place.rowid,
            columns,
            values,
        };
        parts::place_row(alloc, &mut self.rows.parts, &self.shape, place.chunk, &row)?;
        self.rows.claim = None;
        self.count += 1;
        Ok(())
    }
}
