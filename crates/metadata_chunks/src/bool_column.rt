//! A column of truth values.
ghost use Rattle.std.specs.Prelude.{◌≡◌, ℕ, ◌+◌, ◌*◌, ◌<◌, ◌≤◌, ◌%◌, Bool, false, length, replicate, slice_index_or, slice_set, IfOk, is_ok, if◌then◌else◌};
ghost use Rattle.vec_base.specs.Comparison.{satisfies};
ghost use Rattle.shadow_records.specs.Cells.{bitmap, of_bits};
ghost use Rattle.metadata_chunks.specs.Columns.{kept, number_of};

use crate::cells::{Test, filled, keep_passing};
use chunk_bitmap::Bitmap;
use shared_leaves::{Copied, Leaves};
use std::alloc::Global;
use std::marker::Model;
use vec_base::{Bytes, MOST_CHUNK_SIZE, Memory, Op};

/// A truth value for each slot.
#[derive(Drop)]
pub struct BoolColumn {
    cells: Leaves<bool>,
}

impl Model for BoolColumn {
    ghost use Rattle.std.specs.Prelude.{◌≡◌, ◌≤◌, ◌%◌, Bool, List, length};
    ghost use Rattle.vec_base.specs.declared.limits.TheConstants.{MOST_CHUNK_SIZE};

    ghost Value = { List Bool };

    ghost view = { λ column. column.cells };

    ghost invariant = { λ column. (length column.cells ≤ MOST_CHUNK_SIZE) × (length column.cells % 8 ≡ 0) };
}

/// How a truth value stands to a constant, as the numbers 0 and 1 do.
#[derive(Drop)]
struct Compared {
    op: Op,
    constant: bool,
}

impl Test<bool> for Compared {
    ghost use Rattle.vec_base.specs.Comparison.{satisfies};
    ghost use Rattle.metadata_chunks.specs.Columns.{number_of};

    ghost passed = { λ test bit. satisfies test.op (number_of bit) (number_of test.constant) };

    #[inline]
    fn passes(&self, bit: &bool) -> bool {
        self.op.holds(bit.cmp(&self.constant))
    }
}

/// The byte of eight truth values, the first in the lowest bit.
fn byte_at(cells: &Leaves<bool>, first: usize) -> u8
    requires eight { first + 8 ≤ length cells.now }
    requires short { length cells.now ≤ MOST_CHUNK_SIZE }
    ensures { result ≡ of_bits (λ bit. slice_index_or cells.now (first + bit) false) 8 }
{
    let mut byte = 0;
    for bit in 0..8 {
        if *cells.get(first + bit) {
            byte += 1 << bit;
        }
    }
    byte
}

impl BoolColumn {
    /// All truth values are false.
    pub fn with_size(alloc: Global, size: u16) -> Result<BoolColumn, Memory>
        requires eights { size % 8 ≡ 0 }
        requires short { size ≤ MOST_CHUNK_SIZE }
        ensures { IfOk result (λ column. column ≡ replicate size false) }
    {
        Ok(BoolColumn {
            cells: filled(alloc, size, &false)?,
        })
    }

    /// The truth value of a slot.
    #[inline]
    pub fn get(&self, slot: u16) -> bool
        requires { slot < length self.now }
        ensures { result ≡ slice_index_or self.now slot false }
    {
        *self.cells.get(usize::from(slot))
    }

    /// Puts another truth value for a slot. After want of memory the column is as before.
    pub fn put(&mut self, slot: u16, bit: bool) -> Result<(), Memory>
        requires { slot < length self.old }
        ensures { self.new ≡ (if is_ok result then slice_set self.old slot bit else self.old) }
    {
        self.cells.set(usize::from(slot), bit)?;
        Ok(())
    }

    /// Clears the bits of the slots whose truth values do not stand to the constant as the operator says.
    pub fn filter(&self, op: Op, constant: bool, keep: &mut Bitmap)
        requires { length keep.old ≡ length self.now }
        ensures { keep.new ≡ kept (λ bit. satisfies op (number_of bit) (number_of constant)) self.now keep.old }
    {
        keep_passing(&self.cells, &Compared { op, constant }, keep);
    }

    /// An equal column. A later change of one leaves the other.
    pub fn share(&self) -> Result<BoolColumn, Memory>
        ensures { IfOk result (λ column. column ≡ self.now) }
    {
        Ok(BoolColumn {
            cells: self.cells.share()?,
        })
    }

    /// The truth values, eight in each byte, the first in the lowest bit.
    pub fn cells(&self, alloc: Global) -> Result<Bytes, Memory>
        ensures { IfOk result (λ bytes. bytes ≡ bitmap (λ slot. slice_index_or self.now slot false) (length self.now)) }
    {
        let mut bytes = Bytes::new(alloc);
        for byte in 0..self.cells.len() / 8 {
            bytes.push(byte_at(&self.cells, 8 * byte))?;
        }
        Ok(bytes)
    }
}

impl Copied for BoolColumn {
    fn copied(&self, _alloc: Global) -> Result<BoolColumn, Memory> {
        self.share()
    }
}
