//! What is read of the touches of a store, and a store that keeps them.
ghost use Rattle.std.specs.Prelude.{◌≡◌, true, IfOk};
ghost use Rattle.row_index.specs.Entries.{is_rising, next_after};
ghost use Rattle.slot_alloc.specs.Places.{IsNextChunk, IsPlaceMap};
ghost use Rattle.row_store.specs.Touches.{is_touched_place};

use crate::readers::share_rows;
use crate::store::RowStore;
use std::alloc::Global;
use vec_base::Memory;

impl RowStore {
    /// What holds of the touches of every store. The call does nothing: its clauses are all that it gives.
    pub fn known_touches(&self)
        ensures rising { is_rising self.now.touches.rows ≡ true }
        ensures places { IsPlaceMap self.now.touches.places }
        ensures size { self.now.touches.places.size ≡ self.now.size }
    {
        self.touched.known();
    }

    /// The least touched rowid above one, or the least of all.
    pub fn next_touched_row(&self, after: Option<i64>) -> Option<i64>
        ensures { result ≡ next_after after self.now.touches.rows }
    {
        self.touched.next_row(after)
    }

    /// The least number above another of a chunk with a touched place.
    pub fn next_touched_chunk(&self, after: u32) -> Option<u32>
        ensures { IsNextChunk self.now.touches.places after result }
    {
        self.touched.next_chunk(after)
    }

    /// Whether a place is touched.
    pub fn is_touched(&self, chunk: u32, slot: u16) -> bool
        ensures { result ≡ is_touched_place self.now.touches chunk slot }
    {
        self.touched.has_place(chunk, slot)
    }

    /// An equal store, of which the same is touched. A later change of one leaves the other.
    pub fn share_touched(&self, alloc: Global) -> Result<RowStore, Memory>
        ensures { IfOk result (λ other. other ≡ self.now) }
    {
        Ok(RowStore {
            shape: self.shape.share(alloc)?,
            rows: share_rows(&self.rows)?,
            count: self.count,
            touched: self.touched.share()?,
        })
    }
}
