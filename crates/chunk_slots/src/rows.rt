//! Which slots are used, and by which rowids.
ghost use Rattle.std.specs.Prelude.{◌≡◌, ◌<◌, ◌≤◌, ◌%◌, true, map, length, replicate, slice_index_or, slice_set, Some, None, IfOk, is_ok, if◌then◌else◌};
ghost use Rattle.std.specs.List.{count_by};
ghost use Rattle.std.specs.Option.{is_some};
ghost use Rattle.chunk_bitmap.specs.BitsOfBytes.{first_clear_of};

use chunk_bitmap::Bitmap;
use shared_leaves::Leaves;
use std::alloc::Global;
use std::marker::Model;
use vec_base::{MOST_CHUNK_SIZE, Memory};

/// For each slot the rowid of its row, if the slot is used.
#[derive(Drop)]
pub(crate) struct Rows {
    valid: Bitmap,
    rowids: Leaves<i64>,
    used: u16,
}

impl Model for Rows {
    ghost use Rattle.std.specs.Prelude.{◌≡◌, ◌≤◌, ◌%◌, ℤ, List, Option, length};
    ghost use Rattle.std.specs.List.{count_by};
    ghost use Rattle.vec_base.specs.declared.limits.TheConstants.{MOST_CHUNK_SIZE};
    ghost use Rattle.chunk_slots.specs.inner.Rows.{rows_of};

    ghost Value = { List (Option ℤ) };

    ghost view = { λ rows. rows_of rows.valid rows.rowids };

    ghost invariant = { λ rows. (length rows.rowids ≡ length rows.valid) × (rows.used ≡ count_by (λ bit. bit) rows.valid) × (length rows.valid ≤ MOST_CHUNK_SIZE) };
}

/// A list of so many zeros.
fn zero_rowids(alloc: Global, size: u16) -> Result<Leaves<i64>, Memory>
    ensures { IfOk result (λ rowids. length rowids ≡ size) }
{
    let mut rowids = Leaves::new(alloc);
    for _ in 0..size {
        rowids.insert(rowids.len(), 0)?;
    }
    Ok(rowids)
}

impl Rows {
    /// All slots are free.
    pub(crate) fn free(alloc: Global, size: u16) -> Result<Rows, Memory>
        requires eights { size % 8 ≡ 0 }
        requires short { size ≤ MOST_CHUNK_SIZE }
        ensures { IfOk result (λ rows. rows ≡ replicate size None) }
    {
        Ok(Rows {
            valid: Bitmap::with_size(alloc, size)?,
            rowids: zero_rowids(alloc, size)?,
            used: 0,
        })
    }

    /// The number of slots.
    pub(crate) fn len(&self) -> u16
        ensures { result ≡ length self.now }
    {
        self.valid.len() as u16
    }

    /// The rowid of a slot's row, if the slot is used.
    pub(crate) fn rowid(&self, slot: u16) -> Option<i64>
        requires { slot < length self.now }
        ensures { result ≡ slice_index_or self.now slot None }
    {
        if self.valid.get(slot) {
            Some(*self.rowids.get(usize::from(slot)))
        } else {
            None
        }
    }

    /// Which slots are used.
    pub(crate) fn valid(&self) -> &Bitmap
        ensures { result.now ≡ map is_some self.now }
    {
        &self.valid
    }

    /// How many slots are used.
    pub(crate) fn used(&self) -> u16
        ensures { result ≡ count_by (λ bit. bit) (map is_some self.now) }
    {
        self.used
    }

    /// The least slot that is free.
    pub(crate) fn first_free(&self) -> Option<u16>
        ensures { result ≡ first_clear_of (map is_some self.now) }
    {
        self.valid.first_clear()
    }

    /// Puts a rowid into a free slot. After want of memory the rows are as before.
    pub(crate) fn place(&mut self, slot: u16, rowid: i64) -> Result<(), Memory>
        requires slot { slot < length self.old }
        requires free { slice_index_or self.old slot None ≡ None }
        ensures { self.new ≡ (if is_ok result then slice_set self.old slot (Some rowid) else self.old) }
    {
        self.rowids.set(usize::from(slot), rowid)?;
        self.valid.set(slot);
        self.used += 1;
        Ok(())
    }

    /// Makes a used slot free. It takes no memory.
    pub(crate) fn drop_slot(&mut self, slot: u16)
        requires { is_some (slice_index_or self.old slot None) ≡ true }
        ensures { self.new ≡ slice_set self.old slot None }
    {
        self.valid.clear(slot);
        self.used -= 1;
    }

    /// Equal rows.
    pub(crate) fn share(&self, alloc: Global) -> Result<Rows, Memory>
        ensures { IfOk result (λ rows. rows ≡ self.now) }
    {
        Ok(Rows {
            valid: self.valid.copy(alloc)?,
            rowids: self.rowids.share()?,
            used: self.used,
        })
    }
}
