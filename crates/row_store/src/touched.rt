//! Where a store may differ from the one that it was shared from.
ghost use Rattle.std.specs.Prelude.{◌≡◌, ◌<◌, true, [], IfOk, OnOk};
ghost use Rattle.row_index.specs.Entries.{has_rowid, is_rising, next_after};
ghost use Rattle.slot_alloc.specs.Places.{IsChunkSize, IsNextChunk, IsPlaceMap, is_used};
ghost use Rattle.row_store.specs.Touches.{is_touched_row, is_touched_place};
ghost use Rattle.row_store.specs.inner.Widening.{HavePlainValues, IsWider, KeepsRows, KeepsPlaces};

use crate::RowPlace;
use row_index::RowIndex;
use slot_alloc::Places;
use std::alloc::Global;
use std::marker::Model;
use vec_base::{List, Memory};

/// Rowids and places that were touched.
#[derive(Drop)]
pub struct Touched {
    rows: RowIndex,
    places: Places,
}

impl Model for Touched {
    ghost use Rattle.row_store.specs.Touches.{Touches};
    ghost use Rattle.row_store.specs.inner.Widening.{HavePlainValues};

    ghost Value = { Touches };

    ghost view = { λ touched. record { rows = touched.rows; places = touched.places } };

    ghost invariant = { λ touched. HavePlainValues touched.places };
}

/// The rowid is touched. What was touched stays so, also after want of memory.
fn touch_row(alloc: Global, rows: &mut RowIndex, place: &RowPlace) -> Result<(), Memory>
    ensures wider { KeepsRows rows.old rows.new }
    ensures touched { OnOk result (has_rowid place.now.rowid rows.new ≡ true) }
{
    if rows.place(place.rowid).is_some() {
        return Ok(());
    }
    rows.put(alloc, place.rowid, place.chunk, place.slot, None)
}

/// The place is touched. What was touched stays so, also after want of memory.
fn touch_place(alloc: Global, places: &mut Places, place: &RowPlace) -> Result<(), Memory>
    requires plain { HavePlainValues places.old }
    requires chunk { 0 < place.now.chunk }
    requires slot { place.now.slot < places.old.size }
    ensures wider { KeepsPlaces places.old places.new }
    ensures plain { HavePlainValues places.new }
    ensures touched { OnOk result (is_used places.new place.now.chunk place.now.slot ≡ true) }
{
    if places.partition_at(place.chunk, place.slot).is_some() {
        return Ok(());
    }
    places.occupy(alloc, place.chunk, place.slot, &List::new(alloc))
}

impl Touched {
    /// Nothing is touched, in chunks of so many slots.
    pub(crate) fn new(alloc: Global, size: u16) -> Result<Touched, Memory>
        requires { IsChunkSize size }
        ensures rows { IfOk result (λ touched. touched.rows ≡ []) }
        ensures size { IfOk result (λ touched. touched.places.size ≡ size) }
        ensures places { IfOk result (λ touched. touched.places.chunks ≡ []) }
    {
        Ok(Touched {
            rows: RowIndex::new(alloc),
            places: Places::with_chunk_size(alloc, size)?,
        })
    }

    /// The rowid and the place are touched. What was touched stays so, also after want of memory.
    pub(crate) fn touch(&mut self, alloc: Global, place: &RowPlace) -> Result<(), Memory>
        requires chunk { 0 < place.now.chunk }
        requires slot { place.now.slot < self.old.places.size }
        ensures wider { IsWider self.old self.new }
        ensures row { OnOk result (is_touched_row self.new place.now.rowid ≡ true) }
        ensures place { OnOk result (is_touched_place self.new place.now.chunk place.now.slot ≡ true) }
    {
        touch_row(alloc, &mut self.rows, place)?;
        touch_place(alloc, &mut self.places, place)
    }

    /// The same rowids and places are touched.
    pub(crate) fn share(&self) -> Result<Touched, Memory>
        ensures { IfOk result (λ other. other ≡ self.now) }
    {
        Ok(Touched {
            rows: self.rows.share()?,
            places: self.places.share()?,
        })
    }

    /// What holds of all touches. The call does nothing: its clauses are all that it gives.
    pub(crate) fn known(&self)
        ensures rising { is_rising self.now.rows ≡ true }
        ensures places { IsPlaceMap self.now.places }
    {
        self.rows.known();
        self.places.known();
    }

    /// The least touched rowid above one, or the least of all.
    pub(crate) fn next_row(&self, after: Option<i64>) -> Option<i64>
        ensures { result ≡ next_after after self.now.rows }
    {
        self.rows.next(after)
    }

    /// The least number above another of a chunk with a touched place.
    pub(crate) fn next_chunk(&self, after: u32) -> Option<u32>
        ensures { IsNextChunk self.now.places after result }
    {
        self.places.next_chunk(after)
    }

    /// Whether a place is touched.
    pub(crate) fn has_place(&self, chunk: u32, slot: u16) -> bool
        ensures { result ≡ is_touched_place self.now chunk slot }
    {
        self.places.partition_at(chunk, slot).is_some()
    }
}
