//! Bodies by their keys.
ghost use Rattle.std.specs.Prelude.{◌≡◌, ◌≤◌, ◌<◌, ◌^◌, ◌+◌, ◌++◌, ◌∷◌, true, false, drop, length, Some, IfOk, IfSome, OnOk};
ghost use Rattle.std.specs.List.{flat_map};
ghost use Rattle.std.specs.Option.{option_map};
ghost use Rattle.row_chunks.specs.Fields.{value_shown};
ghost use Rattle.row_model.specs.CanonicalColumns.{canonical_columns};
ghost use Rattle.row_model.specs.Groups.{kind_in};
ghost use Rattle.row_model.specs.Schemas.{has_role, is_auxiliary, is_metadata, is_same_role};
ghost use Rattle.row_model.specs.declared.schema.Kind.TheVariants.{TextKey};
ghost use Rattle.row_model.specs.declared.schema.Role.TheVariants.{Vector};
ghost use Rattle.shadow_keeper.specs.declared.keeper.TheConstants.{MOST_CHANGE_BYTES};
ghost use Rattle.shadow_records.specs.Cells.{long_text, partition_value_bytes, side_body};
ghost use Rattle.shadow_records.specs.PlacedTables.{first_in, partition_of, row_of, value_in};
ghost use Rattle.shadow_records.specs.Records.{at_zero, body_of, cells_body, chunk_body, column_at, id_bytes, id_of, info_body, of_chunk, place_body, value_body};
ghost use Rattle.table_bodies.specs.inner.Parts.{HasUnits};

use crate::UnitRecord;
use crate::column_place::column_of;
use crate::values::{long_text, side_body};
use record_bodies::{write_partition, write_place};
use row_model::{Column, Kind, Role};
use shadow_records::{
    AUXILIARY_RECORDS, CHUNK_RECORDS, INFO_RECORDS, LONG_TEXT_RECORDS, METADATA_RECORDS,
    ROW_RECORDS, VECTOR_RECORDS,
};
use std::alloc::Global;
use table_version::{Field, RowView, TableVersion};
use vec_base::{Bytes, Memory, ShadowKey};
use vec0_columns::write_columns;

/// What a table is called and made of.
fn description(alloc: Global, table: &TableVersion) -> Result<Bytes, Memory>
    ensures { IfOk result (λ body. body ≡ length table.now.table.name ∷ (table.now.table.name ++ canonical_columns table.now.table.schema)) }
{
    table.known();
    let name = table.name().as_text().as_bytes();
    let columns = write_columns(alloc, table.schema())?;
    let mut body = Bytes::new(alloc);
    body.push(name.len() as u8)?;
    body.extend(name)?;
    body.extend(columns.as_text().as_bytes())?;
    Ok(body)
}

/// What a table is called and made of, or its top.
fn info_body(alloc: Global, table: &TableVersion, a: i64, b: i64) -> Result<Option<Bytes>, Memory>
    ensures { IfOk result (λ body. body ≡ at_zero b (info_body table.now.table a)) }
{
    if b != 0 {
        Ok(None)
    } else if a == 0 {
        Ok(Some(description(alloc, table)?))
    } else if a == 1 {
        Ok(Some(Bytes::from_slice(alloc, &table.top().to_le_bytes())?))
    } else {
        Ok(None)
    }
}

/// The partition values of a chunk, where it has a row.
fn partition_body(alloc: Global, table: &TableVersion, chunk: u32) -> Result<Option<Bytes>, Memory>
    ensures { IfOk result (λ body. body ≡ option_map (λ first. flat_map partition_value_bytes (partition_of table.now.table.schema.columns first.row.values)) (first_in table.now.table.rows chunk)) }
{
    match table.partition(chunk) {
        Some(values) => Ok(Some(write_partition(alloc, values)?)),
        None => Ok(None),
    }
}

/// What a chunk has beside its cells.
#[tactic(auto, using(crate::proofs::BodyLaws::chunk_past))]
fn chunk_body(alloc: Global, table: &TableVersion, a: i64, b: i64) -> Result<Option<Bytes>, Memory>
    ensures { IfOk result (λ body. body ≡ of_chunk table.now.table (λ chunk. chunk_body table.now.table chunk b) a) }
{
    table.known();
    let Ok(chunk) = u32::try_from(a) else {
        return Ok(None);
    };
    if b == 0 {
        partition_body(alloc, table, chunk)
    } else if b == 1 {
        UnitRecord::Used.whole(alloc, table, chunk)
    } else if b == 2 {
        UnitRecord::Rowids.whole(alloc, table, chunk)
    } else {
        Ok(None)
    }
}

/// The cells of a chunk in a column of vectors or of metadata.
#[tactic(auto, using(crate::proofs::BodyLaws::chunk_past))]
fn cells_body(
    alloc: Global,
    table: &TableVersion,
    role: Role,
    a: i64,
    b: i64,
) -> Result<Option<Bytes>, Memory>
    requires { HasUnits role }
    ensures { IfOk result (λ body. body ≡ of_chunk table.now.table (λ chunk first. option_map (cells_body table.now.table chunk) (column_at (has_role role) table.now.table b)) a) }
{
    table.known();
    let Ok(chunk) = u32::try_from(a) else {
        return Ok(None);
    };
    match column_of(table, role, b) {
        Some(column) => UnitRecord::of_column(column).whole(alloc, table, chunk),
        None => Ok(None),
    }
}

/// Puts the text of a text key behind a body.
fn write_text(body: &mut Bytes, field: Field<'_>) -> Result<(), Memory>
    ensures { OnOk result (body.new ≡ body.old ++ id_of TextKey (value_shown field.entry)) }
{
    match field {
        Field::Text(text) => body.extend(text.as_bytes()),
        Field::Null => Ok(()),
        Field::Int(_) => Ok(()),
        Field::Blob(_) => Ok(()),
    }
}

/// Puts the text behind a body that a row has in a column, where that is a text key.
#[tactic(auto, using(crate::proofs::IdLaws::id_other))]
fn write_key(body: &mut Bytes, view: &RowView<'_>, kind: Kind, place: u8) -> Result<(), Memory>
    requires there { kind_in view.now.columns place ≡ Some kind }
    requires low { place + 1 < 2 ^ 8 }
    ensures { OnOk result (body.new ≡ body.old ++ id_of kind (value_in place view.now.placed)) }
{
    match kind {
        Kind::TextKey => write_text(body, view.field(place + 1)),
        _ => Ok(()),
    }
}

/// Puts the text id behind a body, by the columns from a place on.
#[tactic(auto, using(crate::proofs::IdLaws::kind_next, crate::proofs::IdLaws::columns_next, crate::proofs::IdLaws::id_next, crate::proofs::IdLaws::id_end))]
fn write_id(
    body: &mut Bytes,
    view: &RowView<'_>,
    columns: &[Column],
    place: u8,
) -> Result<(), Memory>
    requires columns { columns.now ≡ drop place view.now.columns }
    requires low { place + length columns.now < 2 ^ 8 }
    requires values { length view.now.placed.row.values ≡ length view.now.columns }
    ensures { OnOk result (body.new ≡ body.old ++ id_bytes columns.now (drop place view.now.placed.row.values)) }
{
    let Some((column, columns)) = columns.split_first() else {
        return Ok(());
    };
    write_key(body, view, column.kind, place)?;
    write_id(body, view, columns, place + 1)
}

/// The place of a row and its text id.
#[tactic(auto, using(crate::proofs::ColumnLaws::columns_few, crate::proofs::IdLaws::row_valued))]
fn row_body(alloc: Global, table: &TableVersion, a: i64) -> Result<Option<Bytes>, Memory>
    ensures { IfOk result (λ body. body ≡ place_body table.now.table.schema.columns (row_of table.now.table.rows a)) }
{
    table.known();
    match table.row(&a) {
        Some(view) => {
            let mut body = write_place(alloc, view.chunk(), view.slot())?;
            write_id(&mut body, &view, table.schema().columns.as_slice(), 0)?;
            Ok(Some(body))
        }
        None => Ok(None),
    }
}

/// The place of a row and its text id, where the second number of the key is 0.
fn place_body(alloc: Global, table: &TableVersion, a: i64, b: i64) -> Result<Option<Bytes>, Memory>
    ensures { IfOk result (λ body. body ≡ at_zero b (place_body table.now.table.schema.columns (row_of table.now.table.rows a))) }
{
    if b == 0 {
        row_body(alloc, table, a)
    } else {
        Ok(None)
    }
}

/// What a row has in a column of a role, where there is such a column.
fn value_of<'a>(
    table: &TableVersion,
    view: &'a RowView<'_>,
    role: Role,
    before: i64,
) -> Option<Field<'a>>
    requires columns { view.now.columns ≡ table.now.table.schema.columns }
    requires role { is_same_role role Vector ≡ false }
    ensures { option_map value_shown result ≡ option_map (λ column. value_in column.place view.now.placed) (column_at (has_role role) table.now.table before) }
{
    table.known();
    let column = column_of(table, role, before)?;
    Some(view.field(column.place + 1))
}

/// A metadata text that its view does not hold whole.
#[tactic(auto, using(crate::proofs::BodyLaws::value_there, crate::proofs::BodyLaws::none_there))]
fn text_body(alloc: Global, table: &TableVersion, a: i64, b: i64) -> Result<Option<Bytes>, Memory>
    ensures { IfOk result (λ body. body ≡ value_body long_text (row_of table.now.table.rows a) (column_at is_metadata table.now.table b)) }
{
    let Some(view) = table.row(&a) else {
        return Ok(None);
    };
    match value_of(table, &view, Role::Metadata, b) {
        Some(field) => long_text(alloc, field),
        None => Ok(None),
    }
}

/// An auxiliary value that is not NULL.
#[tactic(auto, using(crate::proofs::BodyLaws::value_there, crate::proofs::BodyLaws::none_there))]
fn auxiliary_body(
    alloc: Global,
    table: &TableVersion,
    a: i64,
    b: i64,
) -> Result<Option<Bytes>, Memory>
    ensures { IfOk result (λ body. body ≡ value_body side_body (row_of table.now.table.rows a) (column_at is_auxiliary table.now.table b)) }
{
    let Some(view) = table.row(&a) else {
        return Ok(None);
    };
    match value_of(table, &view, Role::Auxiliary, b) {
        Some(field) => side_body(alloc, field),
        None => Ok(None),
    }
}

/// The body of a key, if it has one.
fn body_of(alloc: Global, table: &TableVersion, key: &ShadowKey) -> Result<Option<Bytes>, Memory>
    ensures { IfOk result (λ body. body ≡ body_of table.now.table key.now) }
{
    let ShadowKey { kind, a, b, .. } = *key;
    if kind == INFO_RECORDS {
        info_body(alloc, table, a, b)
    } else if kind == CHUNK_RECORDS {
        chunk_body(alloc, table, a, b)
    } else if kind == ROW_RECORDS {
        place_body(alloc, table, a, b)
    } else if kind == VECTOR_RECORDS {
        cells_body(alloc, table, Role::Vector, a, b)
    } else if kind == METADATA_RECORDS {
        cells_body(alloc, table, Role::Metadata, a, b)
    } else if kind == LONG_TEXT_RECORDS {
        text_body(alloc, table, a, b)
    } else if kind == AUXILIARY_RECORDS {
        auxiliary_body(alloc, table, a, b)
    } else {
        Ok(None)
    }
}

/// The body of a key in the table under its number, if it has one.
pub fn body(alloc: Global, table: &TableVersion, key: &ShadowKey) -> Result<Option<Bytes>, Memory>
    ensures body { IfOk result (λ body. body ≡ body_of table.now.table key.now) }
    ensures short { IfOk result (λ body. IfSome body (λ bytes. length bytes ≤ MOST_CHANGE_BYTES)) }
{
    table.known();
    body_of(alloc, table, key)
}

/// Whether the bytes are the body of a key in the table under its number.
pub fn is_body(
    alloc: Global,
    table: &TableVersion,
    key: &ShadowKey,
    bytes: &Bytes,
) -> Result<bool, Memory>
    ensures only { IfOk result (λ is. is ≡ true → body_of table.now.table key.now ≡ Some bytes.now) }
    ensures always { IfOk result (λ is. body_of table.now.table key.now ≡ Some bytes.now → is ≡ true) }
{
    match body(alloc, table, key)? {
        Some(own) => Ok(own.as_slice() == bytes.as_slice()),
        None => Ok(false),
    }
}
