//! Columns by how many of their role stand before them.
ghost use Rattle.std.specs.Prelude.{◌≡◌, ◌+◌, ◌<◌, ◌^◌, length, pos, IfSome};
ghost use Rattle.std.specs.Option.{option_map};
ghost use Rattle.row_model.specs.Schemas.{has_role};
ghost use Rattle.shadow_records.specs.Cells.{cell_width};
ghost use Rattle.shadow_records.specs.Records.{column_at, nth_column};
ghost use Rattle.table_bodies.specs.Units.{cells_kind, seen};
ghost use Rattle.table_bodies.specs.inner.Parts.{column_here};

use row_model::{Column, Kind, Role};
use shadow_records::{METADATA_RECORDS, TEXT_VIEW_BYTES, VECTOR_RECORDS};
use table_version::TableVersion;

/// A column: its place among all columns, from 0, how many of its role stand before it, and its kind.
#[derive(Clone, Copy, Debug)]
pub struct ColumnPlace {
    pub place: u8,
    pub before: u8,
    pub kind: Kind,
}

/// The place and the kind of the column of a role with so many of that role before it, where the columns begin at a place.
fn find_column(columns: &[Column], role: Role, place: u8, before: u8) -> Option<(u8, Kind)>
    requires { place + length columns.now < 2 ^ 8 }
    ensures { option_map column_here result ≡ nth_column (has_role role) place columns.now before }
{
    let (column, columns) = columns.split_first()?;
    if !column.kind.has_role(role) {
        return find_column(columns, role, place + 1, before);
    }
    if before == 0 {
        return Some((place, column.kind));
    }
    find_column(columns, role, place + 1, before - 1)
}

/// The column of a role with so many of that role before it.
#[tactic(auto, using(crate::proofs::ColumnLaws::columns_few, crate::proofs::ColumnLaws::column_past))]
pub fn column_of(table: &TableVersion, role: Role, before: i64) -> Option<ColumnPlace>
    ensures found { option_map seen result ≡ column_at (has_role role) table.now.table before }
    ensures number { IfSome result (λ column. pos column.before ≡ before) }
{
    table.known();
    let Ok(before) = u8::try_from(before) else {
        return None;
    };
    let (place, kind) = find_column(table.schema().columns.as_slice(), role, 0, before)?;
    Some(ColumnPlace {
        place,
        before,
        kind,
    })
}

/// How many bytes a cell of a column has, where it has whole bytes.
pub(crate) fn cell_width(kind: Kind) -> u16
    ensures { result ≡ cell_width kind }
{
    match kind {
        Kind::Int8Vector(width, _) => width,
        Kind::BitVector(width) => width / 8,
        Kind::IntMeta => 8,
        Kind::TextMeta => 4 + TEXT_VIEW_BYTES as u16,
        _ => 0,
    }
}

/// The kind of the records of a column of vectors or of metadata.
pub(crate) fn cells_kind(kind: Kind) -> u8
    ensures { result ≡ cells_kind kind }
{
    if kind.has_role(Role::Vector) {
        VECTOR_RECORDS
    } else {
        METADATA_RECORDS
    }
}
