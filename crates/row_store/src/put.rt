//! A new row.
ghost use Rattle.std.specs.Prelude.{◌≡◌, ◌<◌, ◌-◌, ◌^◌, true, length, map, None, IfOk, IfSome, OnErr, OnOk};
ghost use Rattle.std.specs.Option.{option_copied};
ghost use Rattle.chunk_slots.specs.Slots.{vectors_of};
ghost use Rattle.row_chunks.specs.Cells.{are_cell_values, cells_of, kinds_of};
ghost use Rattle.row_store.specs.StoredRows.{row_of, row_with_id};
ghost use Rattle.row_store.specs.Touches.{HasSameShape, IsPut, KeepsOrigin};

use crate::part::PlaceRow;
use crate::{RowStore, claims, parts};
use row_model::Column;
use std::alloc::Global;
use vec_base::{List, Memory, Value};

impl RowStore {
    /// A row takes its place, with the vectors and the cells among its values, each of which is that of the column at its place. After want of memory the rows are as before.
    pub fn put(
        &mut self,
        alloc: Global,
        rowid: &i64,
        id: Option<&str>,
        partition: &List<Value>,
        columns: &[Column],
        values: &[Value],
    ) -> Result<(), Memory>
        requires fresh { row_of rowid.now self.old.rows ≡ None }
        requires own_id { IfSome id (λ text. row_with_id text.now self.old.rows ≡ None) }
        requires widths { map length (vectors_of values.now) ≡ self.old.widths }
        requires kinds { kinds_of columns.now ≡ self.old.kinds }
        requires cells { are_cell_values self.old.kinds (cells_of columns.now values.now) ≡ true }
        requires few { length self.old.rows < 2 ^ 64 - 1 }
        ensures kept { OnErr result (self.new.rows ≡ self.old.rows) }
        ensures put { OnOk result (IsPut self.old self.new rowid.now (option_copied id.entry) partition.now (vectors_of values.now) (cells_of columns.now values.now)) }
        ensures shape { HasSameShape self.old self.new }
        ensures origin { KeepsOrigin self.old self.new }
    {
        let place = claims::prepare(
            alloc,
            &mut self.rows,
            &mut self.touched,
            rowid,
            id,
            partition,
        )?;
        self.rows.index.known();
        let row = PlaceRow {
            slot: place.slot,
            rowid: place.rowid,
            columns,
            values,
        };
        parts::place_row(alloc, &mut self.rows.parts, &self.shape, place.chunk, &row)?;
        self.rows.claim = None;
        self.count += 1;
        Ok(())
    }
}
