//! The vectors of eight slots of one column.
ghost use Rattle.std.specs.Prelude.{◌≡◌, ◌+◌, ◌≤◌, length, replicate, IfOk};

use shared_leaves::{Copied, Edit};
use std::alloc::Global;
use std::marker::Model;
use vec_base::Memory;

/// How many slots have their vectors in one block.
pub(crate) const BLOCK_SLOTS: u16 = 8;

/// The vectors of eight slots, one behind another.
#[derive(Drop)]
pub(crate) struct Block {
    bytes: Vec<u8>,
}

impl Model for Block {
    ghost use Rattle.std.specs.Prelude.{List, ℕ};

    ghost Value = { List ℕ };

    ghost view = { λ block. block.bytes.items };
}

impl Block {
    /// So many zeros.
    pub(crate) fn zeros(alloc: Global, len: usize) -> Result<Block, Memory>
        ensures { IfOk result (λ block. block ≡ replicate len 0) }
    {
        Ok(Block {
            bytes: Vec::from_elem(alloc, 0, len)?,
        })
    }

    #[inline]
    pub(crate) fn as_slice(&self) -> &[u8]
        ensures { result.now ≡ self.now }
    {
        self.bytes.as_slice()
    }
}

impl Copied for Block {
    fn copied(&self, alloc: Global) -> Result<Block, Memory> {
        Ok(Block {
            bytes: Vec::from_slice(alloc, self.bytes.as_slice())?,
        })
    }
}

/// The change of a block in which bytes are written over its own, from a place on.
#[derive(Drop)]
pub(crate) struct Write<'a> {
    pub(crate) at: usize,
    pub(crate) bytes: &'a [u8],
}

impl Edit<Block> for Write<'_> {
    ghost use Rattle.std.specs.Prelude.{◌+◌, ◌≤◌, length};
    ghost use Rattle.chunk_slots.specs.inner.Blocks.{overwritten};

    ghost takes = { λ write block. write.at + length write.bytes.now ≤ length block };

    ghost edited = { λ write block. overwritten write.at write.bytes.now block };

    fn edit(&self, _alloc: Global, item: &mut Block) -> Result<(), Memory> {
        item.bytes.as_mut_slice()[self.at..self.at + self.bytes.len()].copy_from_slice(self.bytes);
        Ok(())
    }
}

/// The change of a block in which so many zeros are written over its bytes, from a place on.
#[derive(Drop)]
pub(crate) struct Clear {
    pub(crate) at: usize,
    pub(crate) len: usize,
}

impl Edit<Block> for Clear {
    ghost use Rattle.std.specs.Prelude.{◌+◌, ◌≤◌, length, replicate};
    ghost use Rattle.chunk_slots.specs.inner.Blocks.{overwritten};

    ghost takes = { λ clear block. clear.at + clear.len ≤ length block };

    ghost edited = { λ clear block. overwritten clear.at (replicate clear.len 0) block };

    fn edit(&self, _alloc: Global, item: &mut Block) -> Result<(), Memory> {
        item.bytes.as_mut_slice()[self.at..self.at + self.len].fill(0);
        Ok(())
    }
}
