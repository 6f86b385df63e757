//! The items of a SELECT.
ghost use Rattle.std.specs.Prelude.{◌≡◌, ◌<◌, ◌≤◌, ◌+◌, ◌-◌, ◌∷◌, ℕ, length, slice_index_or, IfOk, map, pos};
ghost use Rattle.vec_base.specs.declared.value.Value.TheVariants.{Null};
ghost use Rattle.row_model.specs.Answer.{item, items_of};
ghost use Rattle.row_model.specs.ColumnNames.{key_place, other_places, item_places, place_of};
ghost use Rattle.row_model.specs.Values.{value_at, column_value};
ghost use Rattle.row_model.specs.declared.schema.TheConstants.{MOST_COLUMNS};

use crate::nearest::Near;
use row_model::{Column, Items, Kind, Place, Role, Row};
use std::alloc::Global;
use vec_base::{List, Memory, Txt, Value};

/// The key's place, or that of the rowid where there is no key; the first of these columns has this number.
fn key_place(number: u8, columns: &[Column]) -> Place
    requires numbered { number + length columns.now ≤ MOST_COLUMNS + 1 }
    ensures { result ≡ key_place number columns.now }
{
    let Some((column, more)) = columns.split_first() else {
        return Place::Rowid;
    };
    if column.kind.has_role(Role::Key) {
        Place::Declared(number, column.kind)
    } else {
        key_place(number + 1, more)
    }
}

/// The places of all columns: the key or the rowid, and then the others in their order.
fn all_places(alloc: Global, columns: &[Column]) -> Result<Vec<Place>, Memory>
    requires narrow { length columns.now ≤ MOST_COLUMNS }
    ensures { IfOk result (λ places. places.items ≡ key_place 1 columns.now ∷ other_places 1 columns.now) }
{
    let mut places = Vec::new(alloc);
    places.push(key_place(1, columns))?;
    for (index, column) in columns.iter().enumerate() {
        if !column.kind.has_role(Role::Key) {
            places.push(Place::Declared(index as u8 + 1, column.kind))?;
        }
    }
    Ok(places)
}

/// The places of names.
fn named_places(alloc: Global, columns: &[Column], names: &[Txt]) -> Result<Vec<Place>, Memory>
    requires narrow { length columns.now ≤ MOST_COLUMNS }
    ensures { IfOk result (λ places. places.items ≡ map (place_of columns.now) names.now) }
{
    let mut places = Vec::new(alloc);
    for name in names {
        places.push(Place::of(columns, name))?;
    }
    Ok(places)
}

/// The places of the items.
pub(crate) fn item_places(
    alloc: Global,
    columns: &[Column],
    items: &Items,
) -> Result<Vec<Place>, Memory>
    requires narrow { length columns.now ≤ MOST_COLUMNS }
    ensures { IfOk result (λ places. places.items ≡ item_places columns.now items.now) }
{
    match items {
        Items::All => all_places(alloc, columns),
        Items::Named(names) => named_places(alloc, columns, names.as_slice()),
    }
}

/// A copy of the row's value of this number.
fn stored_value(alloc: Global, number: u8, row: &Row) -> Result<Value, Memory>
    ensures { IfOk result (λ value. value ≡ slice_index_or row.now.values (number - 1) Null) }
{
    let values = row.values.as_slice();
    let at = number.saturating_sub(1) as usize;
    if at < values.len() {
        values[at].copy(alloc)
    } else {
        Ok(Value::Null)
    }
}

/// A copy of the row's value in a declared column.
fn column_value(alloc: Global, number: u8, kind: Kind, row: &Row) -> Result<Value, Memory>
    ensures { IfOk result (λ value. value ≡ column_value number kind row.now) }
{
    match kind {
        Kind::IntKey => Ok(Value::Int(row.rowid)),
        _ => stored_value(alloc, number, row),
    }
}

/// A copy of the row's value at a place.
fn value_at(alloc: Global, place: Place, row: &Row) -> Result<Value, Memory>
    ensures { IfOk result (λ value. value ≡ value_at place row.now) }
{
    match place {
        Place::Rowid => Ok(Value::Int(row.rowid)),
        Place::Declared(number, kind) => column_value(alloc, number, kind, row),
        _ => Ok(Value::Null),
    }
}

/// An item of a row.
fn item(alloc: Global, near: &Near, place: Place) -> Result<Value, Memory>
    ensures { IfOk result (λ value. value ≡ item near.now place) }
{
    match place {
        Place::Distance => Ok(Value::Int(i64::from(near.distance))),
        _ => value_at(alloc, place, near.row),
    }
}

/// The items of a row.
fn items_of(alloc: Global, places: &[Place], near: &Near) -> Result<List<Value>, Memory>
    ensures { IfOk result (λ values. values ≡ items_of places.now near.now) }
{
    let mut values = List::new(alloc);
    for place in places {
        values.push(item(alloc, near, *place)?)?;
    }
    Ok(values)
}

/// The items of all rows.
pub(crate) fn project(
    alloc: Global,
    places: &[Place],
    nears: &[Near],
) -> Result<List<List<Value>>, Memory>
    ensures { IfOk result (λ rows. rows ≡ map (items_of places.now) nears.now) }
{
    let mut rows = List::new(alloc);
    for near in nears {
        rows.push(items_of(alloc, places, near)?)?;
    }
    Ok(rows)
}
