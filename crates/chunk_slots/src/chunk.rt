//! Chunks: slots of rows with their vectors.
ghost use Rattle.std.specs.Prelude.{◌≡◌, ◌<◌, ◌≤◌, ◌%◌, true, map, length, slice_index, None, IfOk, OnOk, is_ok, if◌then◌else◌};
ghost use Rattle.std.specs.List.{All, count_by, position_from};
ghost use Rattle.std.specs.Option.{is_some, is_none, option_copied};
ghost use Rattle.vec_base.specs.Counts.{raised};
ghost use Rattle.chunk_slots.specs.Slots.{used_by, slot_at, rowid_of, vector_at, all_free, with_slot, with_vector, zero_vectors, vector_of, vectors_of};
ghost use Rattle.chunk_slots.specs.inner.Columns.{widths_of, vectors_at, HaveSlot, HaveSize, KeepsOthers};

use crate::column::Column;
use crate::rows::Rows;
use chunk_bitmap::Bitmap;
use shared_leaves::Copied;
use std::alloc::Global;
use std::marker::Model;
use vec_base::{MOST_CHUNK_SIZE, MOST_DIMENSIONS, Memory, Steps, Value};

/// So many slots, each free or used by a row, with a vector for each vector column.
#[derive(Drop)]
pub struct Chunk {
    rows: Rows,
    columns: Vec<Column>,
}

impl Model for Chunk {
    ghost use Rattle.std.specs.Prelude.{length};
    ghost use Rattle.chunk_slots.specs.Slots.{Slots};
    ghost use Rattle.chunk_slots.specs.inner.Columns.{chunk_of, HaveSize};

    ghost Value = { Slots };

    ghost view = { λ chunk. chunk_of chunk.columns.items chunk.rows };

    ghost invariant = { λ chunk. HaveSize (length chunk.rows) chunk.columns.items };
}

/// A column of zeros for each width.
fn zero_columns(alloc: Global, size: u16, widths: &[u16]) -> Result<Vec<Column>, Memory>
    requires eights { size % 8 ≡ 0 }
    requires short { All (λ width. width ≤ MOST_DIMENSIONS) widths.now }
    ensures widths { IfOk result (λ columns. widths_of columns.items ≡ widths.now) }
    ensures sizes { IfOk result (λ columns. HaveSize size columns.items) }
{
    let mut columns = Vec::with_capacity(alloc, widths.len())?;
    for width in widths {
        columns.push(Column::zeros(alloc, size, *width)?)?;
    }
    Ok(columns)
}

/// Equal columns.
fn share_columns(alloc: Global, columns: &[Column]) -> Result<Vec<Column>, Memory>
    ensures { IfOk result (λ shared. shared.items ≡ columns.now) }
{
    let mut shared = Vec::with_capacity(alloc, columns.len())?;
    for column in columns {
        shared.push(column.share()?)?;
    }
    Ok(shared)
}

/// Puts zeros into each column for a slot. After want of memory those of other slots are as before.
fn clear_row(columns: &mut [Column], slot: u16) -> Result<(), Memory>
    requires { HaveSlot slot columns.old }
    ensures kept { KeepsOthers slot columns.old columns.new }
    ensures row { OnOk result (vectors_at columns.new slot ≡ zero_vectors (widths_of columns.old)) }
{
    for index in 0..columns.len() {
        columns[index].clear(slot)?;
    }
    Ok(())
}

/// The vector that a value is, if it is one.
fn vector_of(value: &Value) -> Option<&[u8]>
    ensures { option_copied result ≡ vector_of value.now }
{
    match value {
        Value::Int8(vector) | Value::Bits(vector) => Some(vector.as_slice()),
        _ => None,
    }
}

/// Puts the vectors among values into the columns for a slot. After want of memory those of other slots are as before.
fn write_row(columns: &mut [Column], slot: u16, values: &[Value]) -> Result<(), Memory>
    requires slot { HaveSlot slot columns.old }
    requires widths { map length (vectors_of values.now) ≡ widths_of columns.old }
    ensures kept { KeepsOthers slot columns.old columns.new }
    ensures row { OnOk result (vectors_at columns.new slot ≡ vectors_of values.now) }
{
    let mut column = 0;
    for value in values {
        if let Some(vector) = vector_of(value) {
            columns[column].set(slot, vector)?;
            column += 1;
        }
    }
    Ok(())
}

impl Chunk {
    /// All slots are free. It takes the whole memory of the chunk.
    pub fn with_shape(alloc: Global, size: u16, widths: &[u16]) -> Result<Chunk, Memory>
        requires eights { size % 8 ≡ 0 }
        requires slots { size ≤ MOST_CHUNK_SIZE }
        requires short { All (λ width. width ≤ MOST_DIMENSIONS) widths.now }
        ensures { IfOk result (λ chunk. chunk ≡ all_free size widths.now) }
    {
        Ok(Chunk {
            rows: Rows::free(alloc, size)?,
            columns: zero_columns(alloc, size, widths)?,
        })
    }

    /// The number of slots.
    pub fn size(&self) -> u16
        ensures { result ≡ length self.now.slots }
    {
        self.rows.len()
    }

    /// How many slots are used.
    pub fn used(&self) -> u16
        ensures { result ≡ count_by is_some self.now.slots }
    {
        self.rows.used()
    }

    /// The least slot that is free.
    pub fn first_free(&self) -> Option<u16>
        ensures { result ≡ position_from is_none 0 self.now.slots }
    {
        self.rows.first_free()
    }

    /// Which slots are used.
    pub fn valid(&self) -> &Bitmap
        ensures { result.now ≡ map is_some self.now.slots }
    {
        self.rows.valid()
    }

    /// The rowid of a slot's row, if the slot is used.
    pub fn rowid(&self, slot: u16) -> Option<i64>
        requires { slot < length self.now.slots }
        ensures { result ≡ rowid_of (slot_at self.now slot) }
    {
        self.rows.rowid(slot)
    }

    /// The vector of a used slot in a column. It counts as one read.
    #[inline]
    pub fn vector(&self, slot: u16, column: u8, steps: &mut Steps) -> &[u8]
        requires used { is_some (slot_at self.now slot) ≡ true }
        requires column { column < length self.now.widths }
        ensures vector { result.now ≡ vector_at self.now slot column }
        ensures width { length result.now ≡ slice_index self.now.widths column }
        ensures reads { steps.new.reads ≡ raised steps.old.reads }
        ensures pieces { steps.new.pieces ≡ steps.old.pieces }
    {
        steps.tick();
        self.columns[usize::from(column)].get(slot)
    }

    /// A row with vectors of zeros takes a free slot. After want of memory the chunk is as before.
    pub fn place(&mut self, slot: u16, rowid: i64) -> Result<(), Memory>
        requires slot { slot < length self.old.slots }
        requires free { slot_at self.old slot ≡ None }
        ensures { self.new ≡ (if is_ok result then with_slot slot (used_by rowid (zero_vectors self.old.widths)) self.old else self.old) }
    {
        clear_row(self.columns.as_mut_slice(), slot)?;
        self.rows.place(slot, rowid)?;
        Ok(())
    }

    /// A row with the vectors among its values takes a free slot. After want of memory the chunk is as before.
    pub fn place_row(&mut self, slot: u16, rowid: i64, values: &[Value]) -> Result<(), Memory>
        requires slot { slot < length self.old.slots }
        requires free { slot_at self.old slot ≡ None }
        requires widths { map length (vectors_of values.now) ≡ self.old.widths }
        ensures { self.new ≡ (if is_ok result then with_slot slot (used_by rowid (vectors_of values.now)) self.old else self.old) }
    {
        write_row(self.columns.as_mut_slice(), slot, values)?;
        self.rows.place(slot, rowid)?;
        Ok(())
    }

    /// Puts another vector into a column of a used slot. After want of memory the chunk is as before.
    pub fn set_vector(&mut self, slot: u16, column: u8, vector: &[u8]) -> Result<(), Memory>
        requires used { is_some (slot_at self.old slot) ≡ true }
        requires column { column < length self.old.widths }
        requires width { length vector.now ≡ slice_index self.old.widths column }
        ensures { self.new ≡ (if is_ok result then with_slot slot (with_vector column vector.now (slot_at self.old slot)) self.old else self.old) }
    {
        self.columns[usize::from(column)].set(slot, vector)?;
        Ok(())
    }

    /// Makes a used slot free. It takes no memory.
    pub fn free(&mut self, slot: u16)
        requires { is_some (slot_at self.old slot) ≡ true }
        ensures { self.new ≡ with_slot slot None self.old }
    {
        self.rows.drop_slot(slot);
    }

    /// Makes a used slot free. It takes no memory, and so always succeeds.
    pub fn drop_slot(&mut self, slot: u16) -> Result<(), Memory>
        requires { is_some (slot_at self.old slot) ≡ true }
        ensures ok { is_ok result ≡ true }
        ensures slots { self.new ≡ with_slot slot None self.old }
    {
        self.free(slot);
        Ok(())
    }

    /// An equal chunk. A later change of one leaves the other.
    pub fn share(&self, alloc: Global) -> Result<Chunk, Memory>
        ensures { IfOk result (λ chunk. chunk ≡ self.now) }
    {
        Ok(Chunk {
            rows: self.rows.share(alloc)?,
            columns: share_columns(alloc, self.columns.as_slice())?,
        })
    }
}

impl Copied for Chunk {
    fn copied(&self, alloc: Global) -> Result<Chunk, Memory> {
        self.share(alloc)
    }
}
