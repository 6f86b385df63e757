//! What is read of the touches of a table, and a table that keeps them.
ghost use Rattle.std.specs.Prelude.{◌≡◌, true, IfOk};
ghost use Rattle.row_index.specs.Entries.{is_rising, next_after};
ghost use Rattle.row_store.specs.Touches.{is_touched_place};
ghost use Rattle.slot_alloc.specs.Places.{IsNextChunk, IsPlaceMap};

use crate::TableVersion;
use std::alloc::Global;
use vec_base::Memory;

impl TableVersion {
    /// What holds of the touches of every table. The call does nothing: its clauses are all that it gives.
    pub fn known_touches(&self)
        ensures rising { is_rising self.now.touches.rows ≡ true }
        ensures places { IsPlaceMap self.now.touches.places }
        ensures size { self.now.touches.places.size ≡ self.now.table.schema.chunk_size }
    {
        self.rows.known_touches();
    }

    /// The least touched rowid above one, or the least of all.
    pub fn next_touched_row(&self, after: Option<i64>) -> Option<i64>
        ensures { result ≡ next_after after self.now.touches.rows }
    {
        self.rows.next_touched_row(after)
    }

    /// The least number above another of a chunk with a touched place.
    pub fn next_touched_chunk(&self, after: u32) -> Option<u32>
        ensures { IsNextChunk self.now.touches.places after result }
    {
        self.rows.next_touched_chunk(after)
    }

    /// Whether a place is touched.
    pub fn is_touched(&self, chunk: u32, slot: u16) -> bool
        ensures { result ≡ is_touched_place self.now.touches chunk slot }
    {
        self.rows.is_touched(chunk, slot)
    }

    /// An equal table, of which the same is touched. A later change of one leaves the other.
    pub fn share_touched(&self, alloc: Global) -> Result<TableVersion, Memory>
        ensures { IfOk result (λ other. other ≡ self.now) }
    {
        Ok(TableVersion {
            name: self.name.copy(alloc)?,
            schema: self.schema.copy(alloc)?,
            top: self.top,
            rows: self.rows.share_touched(alloc)?,
            side_bytes: self.side_bytes,
        })
    }
}
