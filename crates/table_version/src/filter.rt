//! Which rows of a chunk pass a test on a metadata column.
ghost use Rattle.std.specs.Prelude.{◌≡◌, ℕ, ◌-◌, ◌&&◌, true, false, length, slice_index_or, Some, is_some};
ghost use Rattle.row_chunks.specs.Cells.{takes_test};
ghost use Rattle.row_model.specs.Values.{passes};
ghost use Rattle.shadow_records.specs.PlacedTables.{PlacedRow, first_in, row_at, value_in};
ghost use Rattle.table_version.specs.Viewed.{kind_numbered};

use crate::TableVersion;
use chunk_bitmap::Bitmap;
use row_model::{Group, Test};

impl TableVersion {
    /// Clears the bits of the slots of a chunk whose rows' values in a metadata column, by its number from 1, do not pass a test. The bits
    /// of free slots may stay set or not.
    pub fn filter(&self, chunk: u32, column: u8, test: &Test, keep: &mut Bitmap)
        requires there { is_some (first_in self.now.table.rows chunk) ≡ true }
        requires test { takes_test (kind_numbered self.now.table.schema.columns column) test.now ≡ true }
        requires size { length keep.old ≡ self.now.table.schema.chunk_size }
        ensures size { length keep.new ≡ self.now.table.schema.chunk_size }
        ensures cleared { (slot : ℕ) → slice_index_or keep.old slot false ≡ false → slice_index_or keep.new slot false ≡ false }
        ensures passed { (slot : ℕ) (placed : PlacedRow) → row_at self.now.table.rows chunk slot ≡ Some placed → slice_index_or keep.new slot false ≡ (slice_index_or keep.old slot false && passes test.now (value_in (column - 1) placed)) }
    {
        match self.rows.slots(chunk) {
            Some(rows) => {
                let index = Group::Cells.before(self.schema.columns.as_slice(), column - 1);
                rows.filter(index, test, keep);
            }
            None => unreachable!(),
        }
    }
}
