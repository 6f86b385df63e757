//! Rows that change in their places.
ghost use Rattle.std.specs.Prelude.{◌≡◌, ◌<◌, length, true, if◌then◌else◌, Some, None, IfOk, OnErr, OnOk, is_some};
ghost use Rattle.std.specs.Option.{option_copied};
ghost use Rattle.chunk_slots.specs.Slots.{vector_of};
ghost use Rattle.row_model.specs.Values.{side_bytes};
ghost use Rattle.row_store.specs.StoredRows.{row_of as stored_of};
ghost use Rattle.shadow_records.specs.PlacedTables.{row_of};
ghost use Rattle.table_version.specs.PlacedRows.{table_changed};
ghost use Rattle.table_version.specs.Versions.{KeepsOrigin};
ghost use Rattle.table_version.specs.Viewed.{can_set, kind_numbered};
ghost use Rattle.table_version.specs.inner.StoredBytes.{cell_bytes_at};

use crate::TableVersion;
use crate::given::{side_bytes, value_representable};
use row_model::Group;
use row_store::RowStore;
use std::alloc::Global;
use vec_base::{Memory, Value};

/// The vector that a value is, if it is one.
fn vector_of(value: &Value) -> Option<&[u8]>
    ensures { option_copied result ≡ vector_of value.now }
{
    match value {
        Value::Int8(vector) => Some(vector.as_slice()),
        Value::Bits(vector) => Some(vector.as_slice()),
        _ => None,
    }
}

/// The bytes of a text or a blob in a cell of the row of a rowid, if there is one.
fn cell_bytes(rows: &RowStore, rowid: &i64, index: u8) -> u64
    requires { index < length rows.now.kinds }
    ensures { result ≡ cell_bytes_at index (stored_of rowid.now rows.now.rows) }
{
    match rows.row(rowid) {
        Some(row) => row.slots.cell(row.slot, index).side_bytes(),
        None => 0,
    }
}

/// The bytes of a text or a blob that comes, if it comes.
fn bytes_added(comes: bool, value: &Value) -> u64
    ensures { result ≡ (if comes then side_bytes value.now else 0) }
{
    if comes { side_bytes(value) } else { 0 }
}

impl TableVersion {
    /// Another vector comes into the column at a place, from 0, of the row of a rowid.
    fn set_vector(
        &mut self,
        alloc: Global,
        rowid: &i64,
        column: u8,
        value: &Value,
        vector: &[u8],
    ) -> Result<bool, Memory>
        requires column { can_set (kind_numbered self.old.table.schema.columns column) value.now ≡ true }
        requires vector { vector_of value.now ≡ Some vector.now }
        ensures kept { OnErr result (self.new.table ≡ self.old.table) }
        ensures table { OnOk result (self.new.table ≡ table_changed self.old.table rowid.now column value.now) }
        ensures answer { IfOk result (λ is_there. is_there ≡ is_some (row_of self.old.table.rows rowid.now)) }
        ensures origin { KeepsOrigin self.old self.new }
    {
        value_representable(value);
        let number = Group::Vectors.before(self.schema.columns.as_slice(), column - 1);
        let is_there = self.rows.set_vector(alloc, rowid, number, vector)?;
        Ok(is_there)
    }

    /// Another value comes into a metadata or an auxiliary column of the row of a rowid.
    fn set_cell(
        &mut self,
        alloc: Global,
        rowid: &i64,
        column: u8,
        value: &Value,
    ) -> Result<bool, Memory>
        requires column { can_set (kind_numbered self.old.table.schema.columns column) value.now ≡ true }
        requires vector { vector_of value.now ≡ None }
        ensures kept { OnErr result (self.new.table ≡ self.old.table) }
        ensures table { OnOk result (self.new.table ≡ table_changed self.old.table rowid.now column value.now) }
        ensures answer { IfOk result (λ is_there. is_there ≡ is_some (row_of self.old.table.rows rowid.now)) }
        ensures origin { KeepsOrigin self.old self.new }
    {
        value_representable(value);
        let index = Group::Cells.before(self.schema.columns.as_slice(), column - 1);
        let before = cell_bytes(&self.rows, rowid, index);
        let is_there = self.rows.set_cell(alloc, rowid, index, value)?;
        self.side_bytes = self.side_bytes - before + bytes_added(is_there, value);
        Ok(is_there)
    }

    /// Another value comes into a vector, metadata or auxiliary column, by its number from 1, of the row of a rowid. Answers whether the
    /// row is there. After want of memory the table is as before.
    pub fn update(
        &mut self,
        alloc: Global,
        rowid: &i64,
        column: u8,
        value: &Value,
    ) -> Result<bool, Memory>
        requires { can_set (kind_numbered self.old.table.schema.columns column) value.now ≡ true }
        ensures kept { OnErr result (self.new.table ≡ self.old.table) }
        ensures table { OnOk result (self.new.table ≡ table_changed self.old.table rowid.now column value.now) }
        ensures answer { IfOk result (λ is_there. is_there ≡ is_some (row_of self.old.table.rows rowid.now)) }
        ensures origin { KeepsOrigin self.old self.new }
    {
        match vector_of(value) {
            Some(vector) => self.set_vector(alloc, rowid, column, value, vector),
            None => self.set_cell(alloc, rowid, column, value),
        }
    }
}
