//! The terms of a plan: on the metadata of a chunk, on each row, and on the distance.
ghost use Rattle.std.specs.Prelude.{List, ◌≡◌, ◌&&◌, ◌||◌, ◌≤◌, ◌-◌, ℕ, not, length, map, slice_index_or, false, true, is_some, Some};
ghost use Rattle.std.specs.List.{list_all};
ghost use Rattle.vec_base.specs.declared.value.Value.TheVariants.{Null};
ghost use Rattle.row_model.specs.Answer.{is_bounded};
ghost use Rattle.row_model.specs.ColumnNames.{is_of};
ghost use Rattle.row_model.specs.Schemas.{is_metadata, is_partition, is_vector};
ghost use Rattle.row_model.specs.Values.{passes, value_at};
ghost use Rattle.row_model.specs.declared.schema.Column.{Column};
ghost use Rattle.row_model.specs.declared.schema.Place.TheVariants.{Declared};
ghost use Rattle.knn_plan.specs.Levels.{meets_bound, meets_on, meets_rest};
ghost use Rattle.knn_plan.specs.PlannedColumns.{term_column};
ghost use Rattle.knn_plan.specs.Plans.{IsPlanFor, PlannedTarget};
ghost use Rattle.knn_plan.specs.TermUses.{is_on_chunks, is_on_rows};
ghost use Rattle.knn_plan.proofs.TermLaws.{IsTermFor};
ghost use Rattle.shadow_records.specs.PlacedTables.{PlacedRow, first_in, row_at, row_of};
ghost use Rattle.table_version.specs.Viewed.{ViewedRow, column_value, is_vector_column};
ghost use Rattle.nearest_query.specs.inner.Scanning.{IsReady};

use crate::field::{passes, value_passes};
use chunk_bitmap::Bitmap;
use knn_plan::{Plan, PlannedColumn};
use row_model::{Constraint, Kind, Place, Role, Test};
use table_version::{Field, TableVersion};
use vec_base::Value;

/// Whether a partition value, the one at the column's number among them, meets a term.
pub(crate) fn value_met(column: &PlannedColumn, test: &Test, values: &[Value]) -> bool
    ensures { result ≡ (not (is_of is_partition column.now.place) || passes test.now (slice_index_or values.now column.now.number Null)) }
{
    if !column.has_role(Role::Partition) {
        return true;
    }
    match values.get(usize::from(column.number)) {
        Some(value) => value_passes(test, value),
        None => value_passes(test, &Value::Null),
    }
}

/// Clears the bits of a chunk's rows that do not meet a term, where that is on metadata.
fn filter_by(
    table: &TableVersion,
    chunk: u32,
    column: PlannedColumn,
    term: &Constraint,
    keep: &mut Bitmap,
)
    requires there { is_some (first_in table.now.table.rows chunk) ≡ true }
    requires column { column ≡ term_column table.now.table.schema.columns term.now }
    requires fits { IsTermFor table.now.table.schema.columns true term.now }
    requires size { length keep.old ≡ table.now.table.schema.chunk_size }
    ensures size { length keep.new ≡ table.now.table.schema.chunk_size }
    ensures cleared { (slot : ℕ) → slice_index_or keep.old slot false ≡ false → slice_index_or keep.new slot false ≡ false }
    ensures passed { (slot : ℕ) (placed : PlacedRow) → row_at table.now.table.rows chunk slot ≡ Some placed → slice_index_or keep.new slot false ≡ (slice_index_or keep.old slot false && meets_on is_metadata table.now.table.schema.columns placed.row term.now) }
{
    if !column.has_role(Role::Metadata) {
        return;
    }
    match column.place {
        Place::Declared(number, _) => table.filter(chunk, number, &term.test, keep),
        _ => unreachable!(),
    }
}

/// Clears the bits of a chunk's rows that do not meet the terms on metadata.
pub(crate) fn filter_all(table: &TableVersion, plan: &Plan, chunk: u32, keep: &mut Bitmap)
    requires ready { (target : PlannedTarget) × IsReady table.now.table plan.now target }
    requires there { is_some (first_in table.now.table.rows chunk) ≡ true }
    requires size { length keep.old ≡ table.now.table.schema.chunk_size }
    ensures size { length keep.new ≡ table.now.table.schema.chunk_size }
    ensures cleared { (slot : ℕ) → slice_index_or keep.old slot false ≡ false → slice_index_or keep.new slot false ≡ false }
    ensures passed { (slot : ℕ) (placed : PlacedRow) → row_at table.now.table.rows chunk slot ≡ Some placed → slice_index_or keep.new slot false ≡ (slice_index_or keep.old slot false && list_all (meets_on is_metadata table.now.table.schema.columns placed.row) plan.now.select.where_terms) }
{
    let columns = plan.terms();
    for (at, term) in plan.select().where_terms.as_slice().iter().enumerate() {
        filter_by(table, chunk, columns[at], term, keep);
    }
}

/// Whether a term has to be tested row by row.
fn is_on_rows(column: PlannedColumn, test: &Test) -> bool
    ensures { result ≡ is_on_rows column.place test.now }
{
    let on_chunks = column.has_role(Role::Partition) || column.has_role(Role::Metadata);
    !(matches!(test, Test::Match(_))
        || column.place.is_count()
        || column.place.is_distance()
        || on_chunks)
}

/// Whether the value in a column of the row of a rowid passes a test.
fn stored_passes(table: &TableVersion, rowid: &i64, number: u8, test: &Test) -> bool
    requires { is_vector_column table.now.table.schema.columns number ≡ false }
    ensures { (placed : PlacedRow) → row_of table.now.table.rows rowid.now ≡ Some placed → result ≡ passes test.now (column_value (record { columns = table.now.table.schema.columns; placed = placed }) number) }
{
    match table.row(rowid) {
        Some(view) => passes(test, view.field(number)),
        None => false,
    }
}

/// Whether the value in a declared column of the row of a rowid passes a test.
fn declared_passes(table: &TableVersion, rowid: &i64, number: u8, kind: Kind, test: &Test) -> bool
    requires numbered { 1 ≤ number }
    requires plain { is_vector_column table.now.table.schema.columns number ≡ false }
    ensures { (placed : PlacedRow) → row_of table.now.table.rows rowid.now ≡ Some placed → result ≡ passes test.now (value_at (Declared number kind) placed.row) }
{
    match kind {
        Kind::IntKey => passes(test, Field::Int(*rowid)),
        _ => stored_passes(table, rowid, number, test),
    }
}

/// Whether the row of a rowid meets a term, where that is tested row by row.
fn term_met(table: &TableVersion, rowid: &i64, column: PlannedColumn, term: &Constraint) -> bool
    requires column { column ≡ term_column table.now.table.schema.columns term.now }
    requires fits { IsTermFor table.now.table.schema.columns true term.now }
    ensures { (placed : PlacedRow) → row_of table.now.table.rows rowid.now ≡ Some placed → result ≡ meets_rest table.now.table.schema.columns placed.row term.now }
{
    if !is_on_rows(column, &term.test) {
        return true;
    }
    match column.place {
        Place::Rowid => passes(&term.test, Field::Int(*rowid)),
        Place::Declared(number, kind) => declared_passes(table, rowid, number, kind, &term.test),
        _ => passes(&term.test, Field::Null),
    }
}

/// Whether the row of a rowid meets each of the terms that are tested row by row.
fn row_terms_met(table: &TableVersion, plan: &Plan, rowid: &i64) -> bool
    requires ready { (target : PlannedTarget) × IsReady table.now.table plan.now target }
    ensures { (placed : PlacedRow) → row_of table.now.table.rows rowid.now ≡ Some placed → result ≡ list_all (meets_rest table.now.table.schema.columns placed.row) plan.now.select.where_terms }
{
    let columns = plan.terms();
    for (at, term) in plan.select().where_terms.as_slice().iter().enumerate() {
        if !term_met(table, rowid, columns[at], term) {
            return false;
        }
    }
    true
}

/// Whether the row of a rowid meets the terms that are tested row by row. The flag says whether there are any.
#[inline]
pub(crate) fn rest_met(table: &TableVersion, plan: &Plan, by_row: bool, rowid: &i64) -> bool
    requires by_row { by_row ≡ plan.now.by_row }
    requires ready { (target : PlannedTarget) × IsReady table.now.table plan.now target }
    ensures { (placed : PlacedRow) → row_of table.now.table.rows rowid.now ≡ Some placed → result ≡ list_all (meets_rest table.now.table.schema.columns placed.row) plan.now.select.where_terms }
{
    if !by_row {
        return true;
    }
    row_terms_met(table, plan, rowid)
}

/// Whether a distance stands to the bound of a test.
fn is_bounded(distance: u32, test: &Test) -> bool
    ensures { result ≡ is_bounded distance test.now }
{
    match test {
        Test::Compare(op, bound) => Value::Int(i64::from(distance)).satisfies(*op, bound),
        _ => true,
    }
}

/// Whether a distance meets each of the terms on it.
fn distance_terms_met(plan: &Plan, distance: u32) -> bool
    requires columns { length plan.now.terms ≡ length plan.now.select.where_terms }
    ensures { (columns : List Column) → plan.now.terms ≡ map (term_column columns) plan.now.select.where_terms → result ≡ list_all (meets_bound columns distance) plan.now.select.where_terms }
{
    let columns = plan.terms();
    for (at, term) in plan.select().where_terms.as_slice().iter().enumerate() {
        if columns[at].place.is_distance() && !is_bounded(distance, &term.test) {
            return false;
        }
    }
    true
}

/// Whether a distance meets the terms on it. The flag says whether there are any.
#[inline]
pub(crate) fn bounds_met(plan: &Plan, by_distance: bool, distance: u32) -> bool
    requires by_distance { by_distance ≡ plan.now.by_distance }
    requires columns { length plan.now.terms ≡ length plan.now.select.where_terms }
    ensures { (columns : List Column) → IsPlanFor columns plan.now → result ≡ list_all (meets_bound columns distance) plan.now.select.where_terms }
{
    if !by_distance {
        return true;
    }
    distance_terms_met(plan, distance)
}
