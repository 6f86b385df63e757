//! One chunk of rows with its number, and what changes of rows make of it.
ghost use Rattle.std.specs.Prelude.{◌≡◌, true, None, is_some};

use row_chunks::RowChunk;
use row_model::Column;
use shared_leaves::{Copied, Edit};
use std::alloc::Global;
use vec_base::{Memory, Value};

/// A chunk with its number.
#[derive(Drop)]
pub struct Part {
    pub number: u32,
    pub slots: RowChunk,
}

impl Copied for Part {
    fn copied(&self, alloc: Global) -> Result<Part, Memory> {
        Ok(Part {
            number: self.number,
            slots: self.slots.share(alloc)?,
        })
    }
}

/// A row takes a free slot. Each value is that of the column at its place.
#[derive(Drop)]
pub(crate) struct PlaceRow<'a> {
    pub(crate) slot: u16,
    pub(crate) rowid: i64,
    pub(crate) columns: &'a [Column],
    pub(crate) values: &'a [Value],
}

impl Edit<Part> for PlaceRow<'_> {
    ghost use Rattle.row_store.specs.inner.Parts.{CanTake, taken_by, with_content};

    ghost takes = { λ change part. CanTake change.slot change.columns.now change.values.now part };

    ghost edited = { λ change part. with_content change.slot (taken_by change.rowid change.columns.now change.values.now) part };

    fn edit(&self, alloc: Global, part: &mut Part) -> Result<(), Memory> {
        part.slots
            .place_row(alloc, self.slot, self.rowid, self.columns, self.values)
    }
}

/// A row leaves its slot.
#[derive(Drop)]
pub(crate) struct DropRow {
    pub(crate) slot: u16,
}

impl Edit<Part> for DropRow {
    ghost use Rattle.row_chunks.specs.RowSlots.{slot_at};
    ghost use Rattle.row_store.specs.inner.Parts.{with_content};

    ghost takes = { λ change part. is_some (slot_at part.slots change.slot) ≡ true };

    ghost edited = { λ change part. with_content change.slot None part };

    fn edit(&self, _alloc: Global, part: &mut Part) -> Result<(), Memory> {
        part.slots.free(self.slot);
        Ok(())
    }
}

/// What changes of a row in its slot: the vector of a vector column, or the value of a cell.
#[derive(Drop)]
pub enum RowChange<'a> {
    Vector(u8, &'a [u8]),
    Cell(u8, &'a Value),
}

/// A row changes in its slot.
#[derive(Drop)]
pub(crate) struct ChangeRow<'a> {
    pub(crate) slot: u16,
    pub(crate) change: &'a RowChange<'a>,
}

impl Edit<Part> for ChangeRow<'_> {
    ghost use Rattle.row_chunks.specs.RowSlots.{slot_at};
    ghost use Rattle.row_store.specs.inner.Parts.{with_content};
    ghost use Rattle.row_store.specs.inner.Changes.{CanChange, slot_changed};

    ghost takes = { λ change part. CanChange change.slot change.change.now part };

    ghost edited = { λ change part. with_content change.slot (slot_changed change.change.now (slot_at part.slots change.slot)) part };

    fn edit(&self, alloc: Global, part: &mut Part) -> Result<(), Memory> {
        match self.change {
            RowChange::Vector(column, vector) => part.slots.set_vector(self.slot, *column, vector),
            RowChange::Cell(index, value) => part.slots.set_cell(alloc, self.slot, *index, value),
        }
    }
}
