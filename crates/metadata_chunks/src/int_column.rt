//! A column of numbers.
ghost use Rattle.std.specs.Prelude.{◌≡◌, ◌<◌, ◌≤◌, ◌%◌, pos, length, replicate, slice_index_or, slice_set, IfOk, is_ok, if◌then◌else◌};
ghost use Rattle.std.specs.List.{list_any};
ghost use Rattle.vec_base.specs.Comparison.{satisfies};
ghost use Rattle.vec_base.specs.declared.value.Op.TheVariants.{Eq};
ghost use Rattle.vec_base.specs.declared.value.Value.TheVariants.{Int};
ghost use Rattle.shadow_records.specs.Cells.{laid, number_bytes};
ghost use Rattle.metadata_chunks.specs.Columns.{kept};

use crate::cells::{Test, filled, keep_passing};
use chunk_bitmap::Bitmap;
use shared_leaves::{Copied, Leaves};
use std::alloc::Global;
use std::marker::Model;
use vec_base::{Bytes, List, MOST_CHUNK_SIZE, Memory, Op, Value};

/// A number for each slot.
#[derive(Drop)]
pub struct IntColumn {
    cells: Leaves<i64>,
}

impl Model for IntColumn {
    ghost use Rattle.std.specs.Prelude.{◌≤◌, ℤ, List as Seq, length};
    ghost use Rattle.vec_base.specs.declared.limits.TheConstants.{MOST_CHUNK_SIZE};

    ghost Value = { Seq ℤ };

    ghost view = { λ column. column.cells };

    ghost invariant = { λ column. length column.cells ≤ MOST_CHUNK_SIZE };
}

/// How a number stands to a constant.
#[derive(Drop)]
struct Compared {
    op: Op,
    constant: i64,
}

impl Test<i64> for Compared {
    ghost use Rattle.vec_base.specs.Comparison.{satisfies};
    ghost use Rattle.vec_base.specs.declared.value.Value.TheVariants.{Int};

    ghost passed = { λ test number. satisfies test.op (Int number) (Int test.constant) };

    #[inline]
    fn passes(&self, number: &i64) -> bool {
        self.op.holds(number.cmp(&self.constant))
    }
}

/// Whether a number is one of some values.
#[derive(Drop)]
struct Member<'a> {
    values: &'a [Value],
}

/// Whether a value is the number.
fn is_number(value: &Value, number: &i64) -> bool
    ensures { result ≡ satisfies Eq (Int number.now) value.now }
{
    match value {
        Value::Int(other) => number == other,
        _ => false,
    }
}

impl Test<i64> for Member<'_> {
    ghost use Rattle.std.specs.List.{list_any};
    ghost use Rattle.vec_base.specs.Comparison.{satisfies};
    ghost use Rattle.vec_base.specs.declared.value.Op.TheVariants.{Eq};
    ghost use Rattle.vec_base.specs.declared.value.Value.TheVariants.{Int};

    ghost passed = { λ test number. list_any (satisfies Eq (Int number)) test.values.now };

    fn passes(&self, number: &i64) -> bool {
        self.values.iter().any(|value| is_number(value, number))
    }
}

impl IntColumn {
    /// All numbers are 0.
    pub fn with_size(alloc: Global, size: u16) -> Result<IntColumn, Memory>
        requires eights { size % 8 ≡ 0 }
        requires short { size ≤ MOST_CHUNK_SIZE }
        ensures { IfOk result (λ column. column ≡ replicate size (pos 0)) }
    {
        Ok(IntColumn {
            cells: filled(alloc, size, &0)?,
        })
    }

    /// The number of a slot.
    #[inline]
    pub fn get(&self, slot: u16) -> i64
        requires { slot < length self.now }
        ensures { result ≡ slice_index_or self.now slot (pos 0) }
    {
        *self.cells.get(usize::from(slot))
    }

    /// Puts another number for a slot. After want of memory the column is as before.
    pub fn put(&mut self, slot: u16, number: i64) -> Result<(), Memory>
        requires { slot < length self.old }
        ensures { self.new ≡ (if is_ok result then slice_set self.old slot number else self.old) }
    {
        self.cells.set(usize::from(slot), number)?;
        Ok(())
    }

    /// Clears the bits of the slots whose numbers do not stand to the constant as the operator says.
    pub fn filter(&self, op: Op, constant: i64, keep: &mut Bitmap)
        requires { length keep.old ≡ length self.now }
        ensures { keep.new ≡ kept (λ number. satisfies op (Int number) (Int constant)) self.now keep.old }
    {
        keep_passing(&self.cells, &Compared { op, constant }, keep);
    }

    /// Clears the bits of the slots whose numbers are none of the values.
    pub fn filter_member(&self, values: &List<Value>, keep: &mut Bitmap)
        requires { length keep.old ≡ length self.now }
        ensures { keep.new ≡ kept (λ number. list_any (satisfies Eq (Int number)) values.now) self.now keep.old }
    {
        let test = Member {
            values: values.as_slice(),
        };
        keep_passing(&self.cells, &test, keep);
    }

    /// An equal column. A later change of one leaves the other.
    pub fn share(&self) -> Result<IntColumn, Memory>
        ensures { IfOk result (λ column. column ≡ self.now) }
    {
        Ok(IntColumn {
            cells: self.cells.share()?,
        })
    }

    /// The numbers, each in eight bytes.
    pub fn cells(&self, alloc: Global) -> Result<Bytes, Memory>
        ensures { IfOk result (λ bytes. bytes ≡ laid (λ slot. number_bytes (slice_index_or self.now slot (pos 0))) (length self.now)) }
    {
        let mut bytes = Bytes::new(alloc);
        for slot in 0..self.cells.len() {
            bytes.extend(&self.cells.get(slot).to_le_bytes())?;
        }
        Ok(bytes)
    }
}

impl Copied for IntColumn {
    fn copied(&self, _alloc: Global) -> Result<IntColumn, Memory> {
        self.share()
    }
}
