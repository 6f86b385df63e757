//! The values of a new row, from a group of values.
ghost use Rattle.std.specs.Prelude.{◌≡◌, ◌≤◌, length, IfOk};
ghost use Rattle.std.specs.List.{AllByRecursion};
ghost use Rattle.std.specs.Option.{option_copied};
ghost use Rattle.row_model.specs.Change.{assigned, blank, given_rowid, keyed, new_row, put_all, put_at, row_of, rowid_at};
ghost use Rattle.row_model.specs.RepresentableStatements.{AreRepresentable};
ghost use Rattle.row_model.specs.declared.schema.TheConstants.{MOST_COLUMNS};
ghost use Rattle.vec_base.specs.Representable.{IsRepresentable};
ghost use Rattle.shadow_records.specs.PlacedTables.{plain};
ghost use Rattle.table_version.specs.Kept.{id_in, text_in};
ghost use Rattle.table_writes.specs.Writing.{places_named};

use row_model::{Column, Kind, Place, assigned};
use std::alloc::Global;
use table_version::TableVersion;
use vec_base::{List, Memory, Txt, Value};

/// What the names mean.
pub(crate) fn places_of(
    alloc: Global,
    columns: &[Column],
    names: &[Txt],
) -> Result<Vec<Place>, Memory>
    requires narrow { length columns.now ≤ MOST_COLUMNS }
    ensures { IfOk result (λ places. places.items ≡ places_named columns.now names.now) }
{
    let mut places = Vec::with_capacity(alloc, names.len())?;
    for name in names {
        places.push(Place::of(columns, name))?;
    }
    Ok(places)
}

/// The rowid that a value gives at its place.
fn rowid_at(place: Place, value: &Value) -> Option<i64>
    ensures { result ≡ rowid_at place value.now }
{
    match place {
        Place::Rowid | Place::Declared(_, Kind::IntKey) => match value {
            Value::Int(number) => Some(*number),
            _ => None,
        },
        _ => None,
    }
}

/// The rowid that a group of values gives.
pub(crate) fn given_rowid(places: &[Place], given: &[Value]) -> Option<i64>
    ensures { result ≡ given_rowid places.now given.now }
{
    let (place, others) = places.split_first()?;
    let (value, more) = given.split_first()?;
    match rowid_at(*place, value) {
        Some(rowid) => Some(rowid),
        None => given_rowid(others, more),
    }
}

/// Puts a value at its place.
fn put_at(values: &mut [Value], place: Place, value: Value)
    ensures { values.new ≡ put_at place value values.old }
{
    if let Place::Declared(number, _) = place {
        let at = usize::from(number.saturating_sub(1));
        if at < values.len() {
            values[at] = value;
        }
    }
}

/// Puts the values of a group at their places.
fn put_all(
    alloc: Global,
    values: &mut [Value],
    places: &[Place],
    given: &[Value],
) -> Result<(), Memory>
    ensures { IfOk result (λ put. values.new ≡ put_all places.now given.now values.old) }
{
    let Some((place, others)) = places.split_first() else {
        return Ok(());
    };
    let Some((value, more)) = given.split_first() else {
        return Ok(());
    };
    put_at(values, *place, value.copy(alloc)?);
    put_all(alloc, values, others, more)
}

/// Puts the rowid at the place of an integer key.
fn put_key(columns: &[Column], rowid: &i64, values: &mut [Value])
    ensures { values.new ≡ keyed columns.now rowid.now values.old }
{
    let Some((column, others)) = columns.split_first() else {
        return;
    };
    let Some((value, more)) = values.split_first_mut() else {
        return;
    };
    if matches!(column.kind, Kind::IntKey) {
        *value = Value::Int(*rowid);
    }
    put_key(others, rowid, more);
}

/// NULL for each column.
fn blank(alloc: Global, columns: &[Column]) -> Result<Vec<Value>, Memory>
    ensures { IfOk result (λ values. values.items ≡ blank columns.now) }
{
    let mut values = Vec::with_capacity(alloc, columns.len())?;
    for _column in columns {
        values.push(Value::Null)?;
    }
    Ok(values)
}

/// The values of the row that a group of values makes.
fn values_of(
    alloc: Global,
    columns: &[Column],
    places: &[Place],
    rowid: &i64,
    given: &[Value],
) -> Result<List<Value>, Memory>
    ensures { IfOk result (λ values. values ≡ (row_of columns.now places.now rowid.now given.now).values) }
{
    let mut values = blank(alloc, columns)?;
    put_all(alloc, values.as_mut_slice(), places, given)?;
    put_key(columns, rowid, values.as_mut_slice());
    Ok(List::from_vec(values))
}

/// The values of the row that a group of values makes in the table; the rowid is the one that the group gives, if it gives one.
pub(crate) fn new_values(
    alloc: Global,
    table: &TableVersion,
    places: &[Place],
    rowid: &Option<i64>,
    given: &[Value],
) -> Result<List<Value>, Memory>
    requires { rowid.now ≡ given_rowid places.now given.now }
    ensures { IfOk result (λ values. values ≡ (new_row (plain table.now.table) places.now given.now).values) }
{
    let top = table.top();
    let number = assigned(&top, rowid);
    values_of(
        alloc,
        table.schema().columns.as_slice(),
        places,
        &number,
        given,
    )
}

/// The text that a value is, if it is one.
fn text_in(value: &Value) -> Option<&str>
    ensures { option_copied result ≡ text_in value.now }
{
    match value {
        Value::Text(text) => Some(text.as_text()),
        _ => None,
    }
}

/// The text in the column of a text key, if there is one.
pub(crate) fn text_id<'a>(columns: &[Column], values: &'a [Value]) -> Option<&'a str>
    ensures { option_copied result ≡ id_in columns.now values.now }
{
    let (column, columns) = columns.split_first()?;
    let (value, values) = values.split_first()?;
    if matches!(column.kind, Kind::TextKey) {
        text_in(value)
    } else {
        text_id(columns, values)
    }
}

/// Types hold no other values than representable ones. The call does nothing: its clause is all that it gives.
fn values_representable(values: &[Value])
    ensures { AreRepresentable values.now }
{
    for value in values {
        value.representable();
    }
}

/// The same of several rows.
pub(crate) fn rows_representable(rows: &[List<Value>])
    ensures { AllByRecursion AreRepresentable rows.now }
{
    for row in rows {
        values_representable(row.as_slice());
    }
}
