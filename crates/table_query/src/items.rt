//! The items of a row.
ghost use Rattle.std.specs.Prelude.{◌≡◌, ◌+◌, ◌≤◌, IfOk, OnOk, Some, false, is_some, map, true};
ghost use Rattle.std.specs.List.{AllByRecursion, count_by};
ghost use Rattle.std.specs.Option.{option_map};
ghost use Rattle.vec_base.specs.Counts.{raised, summed};
ghost use Rattle.knn_plan.specs.Plans.{IsPlanFor};
ghost use Rattle.row_chunks.specs.Fields.{value_shown};
ghost use Rattle.row_model.specs.Answer.{item};
ghost use Rattle.row_model.specs.ColumnNames.{is_of, item_places};
ghost use Rattle.row_model.specs.Schemas.{is_vector};
ghost use Rattle.row_model.specs.Valid.{is_valid_row};
ghost use Rattle.row_model.specs.Values.{column_value};
ghost use Rattle.row_model.specs.declared.schema.Place.TheVariants.{Declared};
ghost use Rattle.shadow_records.specs.PlacedTables.{row_of};
ghost use Rattle.table_query.specs.Items.{items_at, near_at, read_at, vector_count};
ghost use Rattle.table_query.specs.Read.{IsThere};
ghost use Rattle.table_version.specs.Viewed.{kind_numbered};

use crate::rows::{column_value, value_at};
use knn_plan::{Plan, PlannedColumn};
use row_model::{Kind, Place, Role};
use std::alloc::Global;
use table_version::{Field, RowView, TableVersion};
use vec_base::{Bytes, List, Memory, Steps, Txt, Value};

/// A copy of a value that is lent.
fn copied(alloc: Global, field: Field<'_>) -> Result<Value, Memory>
    ensures { IfOk result (λ value. value ≡ value_shown field.entry) }
{
    match field {
        Field::Null => Ok(Value::Null),
        Field::Int(number) => Ok(Value::Int(number)),
        Field::Text(text) => Ok(Value::Text(Txt::from_text(alloc, text)?)),
        Field::Blob(bytes) => Ok(Value::Blob(Bytes::from_slice(alloc, bytes)?)),
    }
}

/// A copy of a row's vector in a column, by its number from 1. It counts as one read.
fn vector_item(
    alloc: Global,
    view: &RowView<'_>,
    number: u8,
    kind: Kind,
    steps: &mut Steps,
) -> Result<Value, Memory>
    requires there { kind_numbered view.now.columns number ≡ Some kind }
    requires vectors { is_vector kind ≡ true }
    requires valid { is_valid_row view.now.columns view.now.placed.row ≡ true }
    ensures value { IfOk result (λ value. value ≡ column_value number kind view.now.placed.row) }
    ensures reads { steps.new.reads ≡ raised steps.old.reads }
    ensures pieces { steps.new.pieces ≡ steps.old.pieces }
{
    let bytes = Bytes::from_slice(alloc, view.vector(number, steps))?;
    match kind {
        Kind::Int8Vector(_, _) => Ok(Value::Int8(bytes)),
        _ => Ok(Value::Bits(bytes)),
    }
}

/// A copy of a row's value in a column.
fn column_item(
    alloc: Global,
    view: &RowView<'_>,
    number: u8,
    kind: Kind,
    steps: &mut Steps,
) -> Result<Value, Memory>
    requires there { kind_numbered view.now.columns number ≡ Some kind }
    requires valid { is_valid_row view.now.columns view.now.placed.row ≡ true }
    ensures value { IfOk result (λ value. value ≡ column_value number kind view.now.placed.row) }
    ensures reads { steps.new.reads ≡ read_at (Declared number kind) steps.old.reads }
    ensures pieces { steps.new.pieces ≡ steps.old.pieces }
{
    if kind.has_role(Role::Vector) {
        vector_item(alloc, view, number, kind, steps)
    } else {
        copied(alloc, column_value(view, number, kind))
    }
}

/// The item of a row at a place.
fn item(
    alloc: Global,
    view: &RowView<'_>,
    place: Place,
    distance: u32,
    steps: &mut Steps,
) -> Result<Value, Memory>
    requires there { IsThere view.now.columns place }
    requires valid { is_valid_row view.now.columns view.now.placed.row ≡ true }
    ensures item { IfOk result (λ value. value ≡ item (near_at distance view.now.placed.row) place) }
    ensures reads { steps.new.reads ≡ read_at place steps.old.reads }
    ensures pieces { steps.new.pieces ≡ steps.old.pieces }
{
    match place {
        Place::Distance => Ok(Value::Int(i64::from(distance))),
        Place::Declared(number, kind) => column_item(alloc, view, number, kind, steps),
        _ => copied(alloc, value_at(view, place)),
    }
}

/// The items of a row, where these are their columns.
fn items_of(
    alloc: Global,
    view: &RowView<'_>,
    columns: &[PlannedColumn],
    distance: u32,
    steps: &mut Steps,
) -> Result<List<Value>, Memory>
    requires there { AllByRecursion (λ column. IsThere view.now.columns column.place) columns.now }
    requires valid { is_valid_row view.now.columns view.now.placed.row ≡ true }
    ensures items { IfOk result (λ values. values ≡ map (λ column. item (near_at distance view.now.placed.row) column.place) columns.now) }
    ensures reads { OnOk result (steps.new.reads ≡ summed steps.old.reads (count_by (λ column. is_of is_vector column.place) columns.now)) }
    ensures most { steps.new.reads ≤ steps.old.reads + count_by (λ column. is_of is_vector column.place) columns.now }
    ensures pieces { steps.new.pieces ≡ steps.old.pieces }
{
    let _reads = steps.reads;
    let mut values = Vec::with_capacity(alloc, columns.len())?;
    for column in columns {
        values.push(item(alloc, view, column.place, distance, steps)?)?;
    }
    Ok(List::from_vec(values))
}

/// The items of the row of a rowid, which is at a distance from what is searched. Each item that is a vector is one read.
pub fn project(
    alloc: Global,
    table: &TableVersion,
    plan: &Plan,
    rowid: i64,
    distance: u32,
    steps: &mut Steps,
) -> Result<List<Value>, Memory>
    requires plan { IsPlanFor table.now.table.schema.columns plan.now }
    requires there { is_some (row_of table.now.table.rows rowid) ≡ true }
    ensures items { IfOk result (λ values. option_map (items_at table.now.table.schema.columns plan.now.select.items distance) (row_of table.now.table.rows rowid) ≡ Some values) }
    ensures reads { OnOk result (steps.new.reads ≡ summed steps.old.reads (vector_count (item_places table.now.table.schema.columns plan.now.select.items))) }
    ensures most { steps.new.reads ≤ steps.old.reads + vector_count (item_places table.now.table.schema.columns plan.now.select.items) }
    ensures pieces { steps.new.pieces ≡ steps.old.pieces }
{
    table.known();
    match table.row(&rowid) {
        Some(view) => items_of(alloc, &view, plan.items(), distance, steps),
        None => unreachable!(),
    }
}
