//! Columns of auxiliary values.
ghost use Rattle.std.specs.Prelude.{◌≡◌, ◌<◌, true, length, replicate, slice_index_or, IfOk, is_ok, if◌then◌else◌};
ghost use Rattle.vec_base.specs.declared.value.Value.TheVariants.{Null};
ghost use Rattle.row_model.specs.Schemas.{is_auxiliary};
ghost use Rattle.row_chunks.specs.Cells.{is_cell_value};
ghost use Rattle.row_chunks.specs.Fields.{value_shown};
ghost use Rattle.row_chunks.specs.inner.CellColumns.{column_with};
ghost use Rattle.row_chunks.specs.inner.Held.{value_held};
ghost use Rattle.row_chunks.specs.declared.auxiliary.AuxiliaryCell.TheVariants.{Null as NullCell};

use crate::Field;
use row_model::Kind;
use shared_leaves::{Copied, Leaves, Shared};
use std::alloc::Global;
use std::marker::Model;
use vec_base::{Bytes, Memory, Txt, Value};

/// An auxiliary value. Other holders may hold its text or bytes.
#[derive(Drop)]
pub(crate) enum AuxiliaryCell {
    Null,
    Int(i64),
    Text(Shared<Txt>),
    Blob(Shared<Bytes>),
}

impl AuxiliaryCell {
    /// The cell of a value that an auxiliary column takes.
    fn of(alloc: Global, kind: Kind, value: &Value) -> Result<AuxiliaryCell, Memory>
        requires auxiliary { is_auxiliary kind ≡ true }
        requires value { is_cell_value kind value.now ≡ true }
        ensures { IfOk result (λ cell. value_held cell ≡ value.now) }
    {
        match value {
            Value::Null => Ok(AuxiliaryCell::Null),
            Value::Int(number) => Ok(AuxiliaryCell::Int(*number)),
            Value::Text(text) => Ok(AuxiliaryCell::Text(Shared::new(alloc, text.copy(alloc)?)?)),
            Value::Blob(bytes) => Ok(AuxiliaryCell::Blob(Shared::new(alloc, bytes.copy(alloc)?)?)),
            Value::Int8(_) => unreachable!(),
            Value::Bits(_) => unreachable!(),
        }
    }

    /// The value that is held.
    #[inline]
    fn field(&self) -> Field<'_>
        ensures { value_shown result ≡ value_held self.now }
    {
        match self {
            AuxiliaryCell::Null => Field::Null,
            AuxiliaryCell::Int(number) => Field::Int(*number),
            AuxiliaryCell::Text(text) => Field::Text(text.get().as_text()),
            AuxiliaryCell::Blob(bytes) => Field::Blob(bytes.get().as_slice()),
        }
    }
}

impl Copied for AuxiliaryCell {
    fn copied(&self, _alloc: Global) -> Result<AuxiliaryCell, Memory> {
        match self {
            AuxiliaryCell::Null => Ok(AuxiliaryCell::Null),
            AuxiliaryCell::Int(number) => Ok(AuxiliaryCell::Int(*number)),
            AuxiliaryCell::Text(text) => Ok(AuxiliaryCell::Text(text.share()?)),
            AuxiliaryCell::Blob(bytes) => Ok(AuxiliaryCell::Blob(bytes.share()?)),
        }
    }
}

/// So many NULLs.
fn nulls(alloc: Global, size: u16) -> Result<Leaves<AuxiliaryCell>, Memory>
    ensures { IfOk result (λ cells. cells ≡ replicate size NullCell) }
{
    let mut cells = Leaves::new(alloc);
    for _ in 0..size {
        cells.insert(cells.len(), AuxiliaryCell::Null)?;
    }
    Ok(cells)
}

/// An auxiliary value for each slot.
#[derive(Drop)]
pub(crate) struct AuxiliaryColumn {
    kind: Kind,
    cells: Leaves<AuxiliaryCell>,
}

impl Model for AuxiliaryColumn {
    ghost use Rattle.std.specs.Prelude.{◌≡◌, true, map};
    ghost use Rattle.row_model.specs.Schemas.{is_auxiliary};
    ghost use Rattle.row_chunks.specs.inner.CellColumns.{CellList};
    ghost use Rattle.row_chunks.specs.inner.Held.{value_held};

    ghost Value = { CellList };

    ghost view = { λ column. record { kind = column.kind; cells = map value_held column.cells } };

    ghost invariant = { λ column. is_auxiliary column.kind ≡ true };
}

impl AuxiliaryColumn {
    /// All values are NULL. They take no memory of their own.
    pub(crate) fn with_size(alloc: Global, kind: Kind, size: u16) -> Result<AuxiliaryColumn, Memory>
        requires { is_auxiliary kind ≡ true }
        ensures kind { IfOk result (λ column. column.kind ≡ kind) }
        ensures cells { IfOk result (λ column. column.cells ≡ replicate size Null) }
    {
        Ok(AuxiliaryColumn {
            kind,
            cells: nulls(alloc, size)?,
        })
    }

    /// The value of a slot.
    #[inline]
    pub(crate) fn get(&self, slot: u16) -> Field<'_>
        requires { slot < length self.now.cells }
        ensures { value_shown result ≡ slice_index_or self.now.cells slot Null }
    {
        self.cells.get(usize::from(slot)).field()
    }

    /// Puts another value for a slot. After want of memory the column is as before.
    pub(crate) fn put(&mut self, alloc: Global, slot: u16, value: &Value) -> Result<(), Memory>
        requires slot { slot < length self.old.cells }
        requires value { is_cell_value self.old.kind value.now ≡ true }
        ensures { self.new ≡ (if is_ok result then column_with slot value.now self.old else self.old) }
    {
        let cell = AuxiliaryCell::of(alloc, self.kind, value)?;
        self.cells.set(usize::from(slot), cell)?;
        Ok(())
    }

    /// The values are for no filter.
    pub(crate) fn known(&self)
        ensures { is_auxiliary self.now.kind ≡ true }
    {
        let _kind = self.kind;
    }

    /// An equal column.
    pub(crate) fn share(&self) -> Result<AuxiliaryColumn, Memory>
        ensures { IfOk result (λ column. column ≡ self.now) }
    {
        Ok(AuxiliaryColumn {
            kind: self.kind,
            cells: self.cells.share()?,
        })
    }
}
