//! Chunks: slots of rows with their vectors and cells.
ghost use Rattle.std.specs.Prelude.{◌≡◌, ℕ, ◌<◌, ◌≤◌, ◌^◌, ◌%◌, sum_by, Bool, true, false, ◌&&◌, map, length, slice_index, slice_index_or, slice_get, Some, None, IfOk, OnOk, is_ok, if◌then◌else◌};
ghost use Rattle.std.specs.List.{All, list_all};
ghost use Rattle.std.specs.Option.{is_some};
ghost use Rattle.vec_base.specs.declared.value.Value.TheVariants.{Null};
ghost use Rattle.row_model.specs.Values.{passes, side_bytes};
ghost use Rattle.chunk_slots.specs.Slots.{vectors_of};
ghost use Rattle.row_chunks.specs.Cells.{is_cell, kinds_of, cells_of, are_cell_values, takes_value, takes_test};
ghost use Rattle.row_chunks.specs.Fields.{value_shown};
ghost use Rattle.row_chunks.specs.RowSlots.{UsedRow, used_by, slot_at, cell_at, cells_in, all_free, with_slot, with_vector, with_cell, plain_slots, HoldCells};
ghost use Rattle.row_chunks.specs.inner.CellColumns.{kinds_in, cells_at, HaveSlot, HaveSize, KeepsOthers};

use crate::Field;
use crate::cell_column::{CellColumn, is_cell};
use chunk_bitmap::Bitmap;
use chunk_slots::Chunk;
use row_model::{Column, Kind, Test};
use shared_leaves::Copied;
use std::alloc::Global;
use std::marker::Model;
use vec_base::{MOST_CHUNK_SIZE, MOST_DIMENSIONS, Memory, Value};

/// So many slots, each free or used by a row, with a vector for each vector column and a cell for each metadata or auxiliary
/// column.
#[derive(Drop)]
pub struct RowChunk {
    slots: Chunk,
    columns: Vec<CellColumn>,
}

impl Model for RowChunk {
    ghost use Rattle.std.specs.Prelude.{length};
    ghost use Rattle.row_chunks.specs.RowSlots.{RowSlots, HoldCells};
    ghost use Rattle.row_chunks.specs.inner.CellColumns.{rows_of, HaveSize};

    ghost Value = { RowSlots };

    ghost view = { λ chunk. rows_of chunk.columns.items chunk.slots };

    ghost invariant = { λ chunk. HaveSize (length chunk.slots.slots) chunk.columns.items × HoldCells (rows_of chunk.columns.items chunk.slots) };
}

/// A new column for each kind.
fn first_columns(alloc: Global, size: u16, kinds: &[Kind]) -> Result<Vec<CellColumn>, Memory>
    requires eights { size % 8 ≡ 0 }
    requires short { size ≤ MOST_CHUNK_SIZE }
    requires kinds { list_all is_cell kinds.now ≡ true }
    ensures kinds { IfOk result (λ columns. kinds_in columns.items ≡ kinds.now) }
    ensures sizes { IfOk result (λ columns. HaveSize size columns.items) }
{
    let mut columns = Vec::with_capacity(alloc, kinds.len())?;
    for kind in kinds {
        columns.push(CellColumn::with_size(alloc, *kind, size)?)?;
    }
    Ok(columns)
}

/// Equal columns.
fn share_columns(alloc: Global, columns: &[CellColumn]) -> Result<Vec<CellColumn>, Memory>
    ensures { IfOk result (λ shared. shared.items ≡ columns.now) }
{
    let mut shared = Vec::with_capacity(alloc, columns.len())?;
    for column in columns {
        shared.push(column.share()?)?;
    }
    Ok(shared)
}

/// Puts the cells among a row's values into the columns for a slot. After want of memory those of other slots are as before.
fn write_cells(
    cells: &mut [CellColumn],
    alloc: Global,
    slot: u16,
    columns: &[Column],
    values: &[Value],
) -> Result<(), Memory>
    requires slot { HaveSlot slot cells.old }
    requires kinds { kinds_of columns.now ≡ kinds_in cells.old }
    requires values { are_cell_values (kinds_in cells.old) (cells_of columns.now values.now) ≡ true }
    ensures kept { KeepsOthers slot cells.old cells.new }
    ensures row { OnOk result (cells_at cells.new slot ≡ cells_of columns.now values.now) }
{
    let mut next = 0;
    for index in 0..columns.len().min(values.len()) {
        if is_cell(columns[index].kind) {
            cells[next].put(alloc, slot, &values[index])?;
            next += 1;
        }
    }
    Ok(())
}

/// The bytes of the texts and blobs of a slot.
#[tactic(auto, using(crate::proofs::BytesLaws::bytes_step, crate::proofs::BytesLaws::slot_in_first, crate::proofs::BytesLaws::slot_in_others))]
fn cell_bytes(columns: &[CellColumn], slot: u16) -> u64
    requires slot { HaveSlot slot columns.now }
    requires short { sum_by side_bytes (cells_at columns.now slot) < 2 ^ 64 }
    ensures { result ≡ sum_by side_bytes (cells_at columns.now slot) }
{
    let Some((column, columns)) = columns.split_first() else {
        return 0;
    };
    column.get(slot).side_bytes() + cell_bytes(columns, slot)
}

impl RowChunk {
    /// All slots are free. It takes the memory of the chunk, but for long texts and auxiliary values.
    pub fn with_shape(
        alloc: Global,
        size: u16,
        widths: &[u16],
        kinds: &[Kind],
    ) -> Result<RowChunk, Memory>
        requires eights { size % 8 ≡ 0 }
        requires slots { size ≤ MOST_CHUNK_SIZE }
        requires short { All (λ width. width ≤ MOST_DIMENSIONS) widths.now }
        requires cells { list_all is_cell kinds.now ≡ true }
        ensures { IfOk result (λ chunk. chunk ≡ all_free size widths.now kinds.now) }
    {
        Ok(RowChunk {
            slots: Chunk::with_shape(alloc, size, widths)?,
            columns: first_columns(alloc, size, kinds)?,
        })
    }

    /// The slots without their cells.
    #[inline]
    pub fn slots(&self) -> &Chunk
        ensures { result.now ≡ plain_slots self.now }
    {
        &self.slots
    }

    /// A row with the vectors and cells among its values takes a free slot. After want of memory the chunk is as before.
    pub fn place_row(
        &mut self,
        alloc: Global,
        slot: u16,
        rowid: i64,
        columns: &[Column],
        values: &[Value],
    ) -> Result<(), Memory>
        requires slot { slot < length self.old.slots }
        requires free { slot_at self.old slot ≡ None }
        requires widths { map length (vectors_of values.now) ≡ self.old.widths }
        requires kinds { kinds_of columns.now ≡ self.old.kinds }
        requires cells { are_cell_values self.old.kinds (cells_of columns.now values.now) ≡ true }
        ensures { self.new ≡ (if is_ok result then with_slot slot (used_by rowid (vectors_of values.now) (cells_of columns.now values.now)) self.old else self.old) }
    {
        write_cells(self.columns.as_mut_slice(), alloc, slot, columns, values)?;
        self.slots.place_row(slot, rowid, values)?;
        Ok(())
    }

    /// Puts another vector into a vector column of a used slot. After want of memory the chunk is as before.
    pub fn set_vector(&mut self, slot: u16, column: u8, vector: &[u8]) -> Result<(), Memory>
        requires used { is_some (slot_at self.old slot) ≡ true }
        requires column { column < length self.old.widths }
        requires width { length vector.now ≡ slice_index self.old.widths column }
        ensures { self.new ≡ (if is_ok result then with_slot slot (with_vector column vector.now (slot_at self.old slot)) self.old else self.old) }
    {
        self.slots.set_vector(slot, column, vector)
    }

    /// Puts another value into a cell of a used slot, by its place among those of the row. After want of memory the chunk is as
    /// before.
    pub fn set_cell(
        &mut self,
        alloc: Global,
        slot: u16,
        index: u8,
        value: &Value,
    ) -> Result<(), Memory>
        requires used { is_some (slot_at self.old slot) ≡ true }
        requires value { takes_value (slice_get self.old.kinds index) value.now ≡ true }
        ensures { self.new ≡ (if is_ok result then with_slot slot (with_cell index value.now (slot_at self.old slot)) self.old else self.old) }
    {
        self.columns[usize::from(index)].put(alloc, slot, value)?;
        Ok(())
    }

    /// Makes a used slot free. It takes no memory.
    pub fn free(&mut self, slot: u16)
        requires { is_some (slot_at self.old slot) ≡ true }
        ensures { self.new ≡ with_slot slot None self.old }
    {
        self.slots.free(slot);
    }

    /// The cell of a used slot, by its place among those of the row.
    #[inline]
    pub fn cell(&self, slot: u16, index: u8) -> Field<'_>
        requires used { is_some (slot_at self.now slot) ≡ true }
        requires index { index < length self.now.kinds }
        ensures { value_shown result ≡ cell_at self.now slot index }
    {
        self.columns[usize::from(index)].get(slot)
    }

    /// Clears the bits of the used slots whose cells at a place do not pass a test. Of free slots no set bit is told.
    #[inline]
    pub fn filter(&self, index: u8, test: &Test, keep: &mut Bitmap)
        requires size { length keep.old ≡ length self.now.slots }
        requires test { takes_test (slice_get self.now.kinds index) test.now ≡ true }
        ensures size { length keep.new ≡ length self.now.slots }
        ensures cleared { (slot : ℕ) → slice_index_or keep.old slot false ≡ false → slice_index_or keep.new slot false ≡ false }
        ensures passed { (slot : ℕ) (used : UsedRow) → slot_at self.now slot ≡ Some used → slice_index_or keep.new slot false ≡ (slice_index_or keep.old slot false && passes test.now (slice_index_or used.cells index Null)) }
    {
        self.columns[usize::from(index)].filter(test, keep);
    }

    /// The bytes of the texts and blobs in the cells of a used slot.
    pub fn side_bytes(&self, slot: u16) -> u64
        requires used { is_some (slot_at self.now slot) ≡ true }
        requires short { sum_by side_bytes (cells_in (slot_at self.now slot)) < 2 ^ 64 }
        ensures { result ≡ sum_by side_bytes (cells_in (slot_at self.now slot)) }
    {
        cell_bytes(self.columns.as_slice(), slot)
    }

    /// The cells of used slots are ones that their columns can hold. The call does nothing: its clause is all that it gives.
    pub fn known(&self)
        ensures { HoldCells self.now }
    {
        let _slots = &self.slots;
    }

    /// An equal chunk. A later change of one leaves the other.
    pub fn share(&self, alloc: Global) -> Result<RowChunk, Memory>
        ensures { IfOk result (λ chunk. chunk ≡ self.now) }
    {
        Ok(RowChunk {
            slots: self.slots.share(alloc)?,
            columns: share_columns(alloc, self.columns.as_slice())?,
        })
    }
}

impl Copied for RowChunk {
    fn copied(&self, alloc: Global) -> Result<RowChunk, Memory> {
        self.share(alloc)
    }
}
