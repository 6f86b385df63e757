//! The vectors of one column.
ghost use Rattle.std.specs.Prelude.{◌≡◌, ◌+◌, ◌*◌, ◌<◌, ◌≤◌, ◌/◌, ◌%◌, [], length, take, drop, replicate, slice_index_or, IfOk, is_ok, if◌then◌else◌};
ghost use Rattle.chunk_slots.specs.inner.Blocks.{column_with};

use crate::block::{BLOCK_SLOTS, Block, Clear, Write};
use shared_leaves::Leaves;
use std::alloc::Global;
use std::marker::Model;
use vec_base::{MOST_CHUNK_SIZE, MOST_DIMENSIONS, Memory};

/// A vector of one width for each slot of a chunk, also for the free ones.
#[derive(Drop)]
pub(crate) struct Column {
    width: u16,
    blocks: Leaves<Block>,
}

impl Model for Column {
    ghost use Rattle.std.specs.Prelude.{◌≤◌};
    ghost use Rattle.vec_base.specs.declared.limits.TheConstants.{MOST_DIMENSIONS};
    ghost use Rattle.chunk_slots.specs.inner.Blocks.{VectorColumn, column_of, AreBlocks};

    ghost Value = { VectorColumn };

    ghost view = { λ column. column_of column.width column.blocks };

    ghost invariant = { λ column. (column.width ≤ MOST_DIMENSIONS) × AreBlocks column.width column.blocks };
}

/// Blocks of so many zeros.
fn zero_blocks(alloc: Global, count: u16, len: usize) -> Result<Leaves<Block>, Memory>
    ensures { IfOk result (λ blocks. blocks ≡ replicate count (replicate len 0)) }
{
    let mut blocks = Leaves::new(alloc);
    for _ in 0..count {
        blocks.insert(blocks.len(), Block::zeros(alloc, len)?)?;
    }
    Ok(blocks)
}

/// The place of the block that has the vector of a slot.
#[inline]
fn block_of(slot: u16) -> usize
    ensures { result ≡ slot / 8 }
{
    usize::from(slot / BLOCK_SLOTS)
}

/// Where the vector of a slot begins in its block.
#[inline]
fn start_of(slot: u16, width: usize) -> usize
    requires { width ≤ MOST_DIMENSIONS }
    ensures { result ≡ slot % 8 * width }
{
    usize::from(slot % BLOCK_SLOTS) * width
}

/// So many bytes from a place on.
#[inline]
fn part(bytes: &[u8], start: usize, len: usize) -> &[u8]
    requires { start + len ≤ length bytes.now }
    ensures { result.now ≡ take len (drop start bytes.now) }
{
    &bytes[start..start + len]
}

impl Column {
    /// Zeros for all slots.
    pub(crate) fn zeros(alloc: Global, size: u16, width: u16) -> Result<Column, Memory>
        requires eights { size % 8 ≡ 0 }
        requires short { width ≤ MOST_DIMENSIONS }
        ensures width { IfOk result (λ column. column.width ≡ width) }
        ensures size { IfOk result (λ column. length column.vectors ≡ size) }
    {
        let len = usize::from(BLOCK_SLOTS) * usize::from(width);
        Ok(Column {
            width,
            blocks: zero_blocks(alloc, size / BLOCK_SLOTS, len)?,
        })
    }

    /// The vector of a slot.
    #[inline]
    pub(crate) fn get(&self, slot: u16) -> &[u8]
        requires { slot < length self.now.vectors }
        ensures vector { result.now ≡ slice_index_or self.now.vectors slot [] }
        ensures width { length result.now ≡ self.now.width }
    {
        let width = usize::from(self.width);
        let start = start_of(slot, width);
        part(self.blocks.get(block_of(slot)).as_slice(), start, width)
    }

    /// Puts another vector for a slot. After want of memory the column is as before.
    pub(crate) fn set(&mut self, slot: u16, vector: &[u8]) -> Result<(), Memory>
        requires slot { slot < length self.old.vectors }
        requires width { length vector.now ≡ self.old.width }
        ensures { self.new ≡ (if is_ok result then column_with slot vector.now self.old else self.old) }
    {
        let width = usize::from(self.width);
        let write = Write {
            at: start_of(slot, width),
            bytes: vector,
        };
        self.blocks.edit(block_of(slot), &write)?;
        Ok(())
    }

    /// Puts zeros for a slot. After want of memory the column is as before.
    pub(crate) fn clear(&mut self, slot: u16) -> Result<(), Memory>
        requires { slot < length self.old.vectors }
        ensures { self.new ≡ (if is_ok result then column_with slot (replicate self.old.width 0) self.old else self.old) }
    {
        let len = usize::from(self.width);
        let clear = Clear {
            at: start_of(slot, len),
            len,
        };
        self.blocks.edit(block_of(slot), &clear)?;
        Ok(())
    }

    /// An equal column.
    pub(crate) fn share(&self) -> Result<Column, Memory>
        ensures { IfOk result (λ column. column ≡ self.now) }
    {
        Ok(Column {
            width: self.width,
            blocks: self.blocks.share()?,
        })
    }
}
