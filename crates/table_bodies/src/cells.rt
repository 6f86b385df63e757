//! The cells of slots.
ghost use Rattle.std.specs.Prelude.{◌≡◌, ◌++◌, ◌&&◌, true, false, OnOk};
ghost use Rattle.shadow_records.specs.Cells.{value_cell};
ghost use Rattle.shadow_records.specs.PlacedTables.{row_at, value_in};
ghost use Rattle.shadow_records.specs.Records.{is_bits_column, slot_bit, slot_cell};
ghost use Rattle.table_bodies.specs.Units.{HasCells, seen};
ghost use Rattle.table_bodies.specs.inner.Parts.{StandsAt, rowid_bytes};

use crate::ColumnPlace;
use crate::column_place::cell_width;
use crate::rows::row_in;
use crate::values::{is_one, write_field, write_number, write_zeros};
use row_model::Role;
use table_version::{RowView, TableVersion};
use vec_base::{Bytes, Memory, Steps};

/// Puts the bytes of a rowid behind a body, or eight zeros.
pub(crate) fn write_rowid(body: &mut Bytes, rowid: Option<i64>) -> Result<(), Memory>
    ensures { OnOk result (body.new ≡ body.old ++ rowid_bytes rowid) }
{
    match rowid {
        Some(rowid) => write_number(body, rowid),
        None => write_zeros(body, 8),
    }
}

/// Puts the cell of a row in a column behind a body.
fn write_value(body: &mut Bytes, view: &RowView<'_>, column: ColumnPlace) -> Result<(), Memory>
    requires { StandsAt view.now.columns column }
    ensures { OnOk result (body.new ≡ body.old ++ value_cell (value_in column.place view.now.placed)) }
{
    if column.kind.has_role(Role::Vector) {
        body.extend(view.vector(column.place + 1, &mut Steps::new()))
    } else {
        write_field(body, view.field(column.place + 1))
    }
}

/// Puts the cell of a slot in a column behind a body.
pub(crate) fn write_cell(
    body: &mut Bytes,
    table: &TableVersion,
    column: ColumnPlace,
    chunk: u32,
    slot: u16,
) -> Result<(), Memory>
    requires { HasCells table.now.table.schema.columns column }
    ensures { OnOk result (body.new ≡ body.old ++ slot_cell (seen column) (row_at table.now.table.rows chunk slot)) }
{
    table.known();
    match row_in(table, chunk, slot) {
        Some(view) => write_value(body, &view, column),
        None => write_zeros(body, cell_width(column.kind)),
    }
}

/// Whether the value of a slot in a column is the number 1.
pub(crate) fn is_true(table: &TableVersion, column: ColumnPlace, chunk: u32, slot: u16) -> bool
    requires bits { is_bits_column column.kind ≡ true }
    requires column { HasCells table.now.table.schema.columns column }
    ensures { result ≡ slot_bit (seen column) (row_at table.now.table.rows chunk slot) }
{
    table.known();
    match row_in(table, chunk, slot) {
        Some(view) => is_one(view.field(column.place + 1)),
        None => false,
    }
}
