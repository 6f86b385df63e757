//! Columns of cells of each kind.
ghost use Rattle.std.specs.Prelude.{◌≡◌, ◌<◌, ◌≤◌, ◌%◌, true, length, slice_index_or, IfOk, is_ok, if◌then◌else◌};
ghost use Rattle.std.specs.List.{list_any};
ghost use Rattle.vec_base.specs.Comparison.{satisfies};
ghost use Rattle.vec_base.specs.declared.value.Op.TheVariants.{Eq};
ghost use Rattle.vec_base.specs.declared.value.Value.TheVariants.{Null};
ghost use Rattle.row_model.specs.Schemas.{is_metadata};
ghost use Rattle.row_model.specs.Values.{is_of_kind, passes};
ghost use Rattle.metadata_chunks.specs.Columns.{kept};
ghost use Rattle.row_chunks.specs.Cells.{is_cell, is_cell_value, can_filter, has_members};
ghost use Rattle.row_chunks.specs.Fields.{value_shown};
ghost use Rattle.row_chunks.specs.inner.CellColumns.{column_with};
ghost use Rattle.row_chunks.specs.inner.Shown.{column_shown};

use crate::Field;
use crate::auxiliary::AuxiliaryColumn;
use crate::metadata::{filter_bools, filter_numbers, filter_texts, put_bool, put_number, put_text};
use chunk_bitmap::Bitmap;
use metadata_chunks::{BoolColumn, IntColumn, TextColumn};
use row_model::{Kind, Role, Test};
use std::alloc::Global;
use std::marker::Model;
use vec_base::{List, MOST_CHUNK_SIZE, Memory, Op, Value};

/// Whether columns of the kind have cells: those of metadata and auxiliary values.
#[inline]
pub fn is_cell(kind: Kind) -> bool
    ensures { result ≡ is_cell kind }
{
    kind.has_role(Role::Metadata) || kind.has_role(Role::Auxiliary)
}

/// A cell for each slot, by the kind of the column.
#[derive(Drop)]
enum Cells {
    Ints(IntColumn),
    Bools(BoolColumn),
    Texts(TextColumn),
    Others(AuxiliaryColumn),
}

/// A cell for each slot, also for the free ones.
#[derive(Drop)]
pub(crate) struct CellColumn {
    cells: Cells,
}

impl Model for CellColumn {
    ghost use Rattle.row_chunks.specs.inner.CellColumns.{CellList};
    ghost use Rattle.row_chunks.specs.inner.Shown.{column_shown};

    ghost Value = { CellList };

    ghost view = { λ column. column_shown column.cells };
}

/// Cells of 0, false, empty text or NULL.
fn first_cells(alloc: Global, kind: Kind, size: u16) -> Result<Cells, Memory>
    requires eights { size % 8 ≡ 0 }
    requires short { size ≤ MOST_CHUNK_SIZE }
    requires kind { is_cell kind ≡ true }
    ensures kind { IfOk result (λ cells. (column_shown cells).kind ≡ kind) }
    ensures size { IfOk result (λ cells. length (column_shown cells).cells ≡ size) }
{
    match kind {
        Kind::IntMeta => Ok(Cells::Ints(IntColumn::with_size(alloc, size)?)),
        Kind::BoolMeta => Ok(Cells::Bools(BoolColumn::with_size(alloc, size)?)),
        Kind::TextMeta => Ok(Cells::Texts(TextColumn::with_size(alloc, size)?)),
        _ => Ok(Cells::Others(AuxiliaryColumn::with_size(alloc, kind, size)?)),
    }
}

impl CellColumn {
    /// Cells of 0, false, empty text or NULL, by the kind.
    pub(crate) fn with_size(alloc: Global, kind: Kind, size: u16) -> Result<CellColumn, Memory>
        requires eights { size % 8 ≡ 0 }
        requires short { size ≤ MOST_CHUNK_SIZE }
        requires kind { is_cell kind ≡ true }
        ensures kind { IfOk result (λ column. column.kind ≡ kind) }
        ensures size { IfOk result (λ column. length column.cells ≡ size) }
    {
        Ok(CellColumn {
            cells: first_cells(alloc, kind, size)?,
        })
    }

    /// The value of a slot.
    #[inline]
    pub(crate) fn get(&self, slot: u16) -> Field<'_>
        requires { slot < length self.now.cells }
        ensures { value_shown result ≡ slice_index_or self.now.cells slot Null }
    {
        match &self.cells {
            Cells::Ints(column) => Field::Int(column.get(slot)),
            Cells::Bools(column) => Field::Int(i64::from(column.get(slot))),
            Cells::Texts(column) => Field::Text(column.get(slot)),
            Cells::Others(column) => column.get(slot),
        }
    }

    /// Puts another value for a slot. After want of memory the column is as before.
    pub(crate) fn put(&mut self, alloc: Global, slot: u16, value: &Value) -> Result<(), Memory>
        requires slot { slot < length self.old.cells }
        requires value { is_cell_value self.old.kind value.now ≡ true }
        ensures { self.new ≡ (if is_ok result then column_with slot value.now self.old else self.old) }
    {
        match &mut self.cells {
            Cells::Ints(column) => put_number(column, slot, value),
            Cells::Bools(column) => put_bool(column, slot, value),
            Cells::Texts(column) => put_text(column, alloc, slot, value),
            Cells::Others(column) => column.put(alloc, slot, value),
        }
    }

    /// Clears the bits of the slots whose values do not stand to the constant as the operator says.
    fn filter_compared(&self, op: Op, constant: &Value, keep: &mut Bitmap)
        requires size { length keep.old ≡ length self.now.cells }
        requires metadata { is_metadata self.now.kind ≡ true }
        requires constant { is_of_kind self.now.kind constant.now ≡ true }
        ensures { keep.new ≡ kept (λ value. satisfies op value constant.now) self.now.cells keep.old }
    {
        match &self.cells {
            Cells::Ints(column) => filter_numbers(column, op, constant, keep),
            Cells::Bools(column) => filter_bools(column, op, constant, keep),
            Cells::Texts(column) => filter_texts(column, op, constant, keep),
            Cells::Others(column) => {
                column.known();
                unreachable!()
            }
        }
    }

    /// Clears the bits of the slots whose values are none of some others.
    fn filter_member(&self, values: &List<Value>, keep: &mut Bitmap)
        requires size { length keep.old ≡ length self.now.cells }
        requires members { has_members self.now.kind ≡ true }
        ensures { keep.new ≡ kept (λ value. list_any (satisfies Eq value) values.now) self.now.cells keep.old }
    {
        match &self.cells {
            Cells::Ints(column) => column.filter_member(values, keep),
            Cells::Texts(column) => column.filter_member(values, keep),
            Cells::Bools(_) => unreachable!(),
            Cells::Others(column) => {
                column.known();
                unreachable!()
            }
        }
    }

    /// Clears the bits of the slots whose values do not pass the test.
    pub(crate) fn filter(&self, test: &Test, keep: &mut Bitmap)
        requires size { length keep.old ≡ length self.now.cells }
        requires test { can_filter self.now.kind test.now ≡ true }
        ensures { keep.new ≡ kept (passes test.now) self.now.cells keep.old }
    {
        match test {
            Test::Compare(op, constant) => self.filter_compared(*op, constant, keep),
            Test::Member(values) => self.filter_member(values, keep),
            Test::Match(_) => unreachable!(),
        }
    }

    /// An equal column.
    pub(crate) fn share(&self) -> Result<CellColumn, Memory>
        ensures { IfOk result (λ column. column ≡ self.now) }
    {
        let cells = match &self.cells {
            Cells::Ints(column) => Cells::Ints(column.share()?),
            Cells::Bools(column) => Cells::Bools(column.share()?),
            Cells::Texts(column) => Cells::Texts(column.share()?),
            Cells::Others(column) => Cells::Others(column.share()?),
        };
        Ok(CellColumn { cells })
    }
}
