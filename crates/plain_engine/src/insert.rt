//! The rows of an INSERT, one after another.
ghost use Rattle.std.specs.Prelude.{◌≡◌, ◌≤◌, ◌<◌, ◌&&◌, [], ◌∷◌, ◌++◌, ◌+◌, pos, length, Some, None, true, false, IfOk, IfNone, IfSome, OnSome, OnErr, MatchOption};
ghost use Rattle.std.specs.List.{insert};
ghost use Rattle.row_model.specs.declared.row.Row.{Row as RowOf};
ghost use Rattle.row_model.specs.Change.{Elsewhere, assigned, blank, given_rowid, grown, group_refusals, keyed, larger, last_rowid, long_values, new_row, put_all, put_at, room_refusals, row_of, rowid_at, same_id, is_same_text, is_the_text, spent, taken_id, taken_rowid, with_new_row};
ghost use Rattle.row_model.specs.ColumnNames.{is_text_key};
ghost use Rattle.row_model.specs.RefusalOrder.{first};
ghost use Rattle.row_model.specs.Rows.{has_rowid, is_rising, with_row};

use crate::totals::side_bytes;
use row_model::{Column, Kind, Place, Row, has_text_key, is_same_name, over_value};
use std::alloc::Global;
use vec_base::{List, Memory, Refusal, Txt, Value};

/// The first value that is too long.
pub(crate) fn long_value(values: &[Value]) -> Option<Refusal>
    ensures { result ≡ first (long_values values.now) }
{
    let (value, more) = values.split_first()?;
    over_value(side_bytes(value)).or(long_value(more))
}

/// The rowid that a value gives at its place.
fn rowid_at(place: Place, value: &Value) -> Option<i64>
    ensures { result ≡ rowid_at place value.now }
{
    match place {
        Place::Rowid | Place::Declared(_, Kind::IntKey) => match value {
            Value::Int(number) => Some(*number),
            _ => None,
        },
        _ => None,
    }
}

/// The rowid that a group of values gives.
pub(crate) fn given_rowid(places: &[Place], given: &[Value]) -> Option<i64>
    ensures { result ≡ given_rowid places.now given.now }
{
    let (place, others) = places.split_first()?;
    let (value, more) = given.split_first()?;
    match rowid_at(*place, value) {
        Some(rowid) => Some(rowid),
        None => given_rowid(others, more),
    }
}

/// Puts a value at its place.
pub(crate) fn put_at(values: &mut [Value], place: Place, value: Value)
    ensures { values.new ≡ put_at place value values.old }
{
    if let Place::Declared(number, _) = place {
        let at = usize::from(number.saturating_sub(1));
        if at < values.len() {
            values[at] = value;
        }
    }
}

/// Puts the values of a group at their places.
fn put_all(
    alloc: Global,
    values: &mut [Value],
    places: &[Place],
    given: &[Value],
) -> Result<(), Memory>
    ensures { IfOk result (λ put. values.new ≡ put_all places.now given.now values.old) }
{
    let Some((place, others)) = places.split_first() else {
        return Ok(());
    };
    let Some((value, more)) = given.split_first() else {
        return Ok(());
    };
    put_at(values, *place, value.copy(alloc)?);
    put_all(alloc, values, others, more)
}

/// Puts the rowid at the place of an integer key.
fn put_key(columns: &[Column], rowid: &i64, values: &mut [Value])
    ensures { values.new ≡ keyed columns.now rowid.now values.old }
{
    let Some((column, others)) = columns.split_first() else {
        return;
    };
    let Some((value, more)) = values.split_first_mut() else {
        return;
    };
    if matches!(column.kind, Kind::IntKey) {
        *value = Value::Int(*rowid);
    }
    put_key(others, rowid, more);
}

/// NULL for each column.
fn blank(alloc: Global, columns: &[Column]) -> Result<Vec<Value>, Memory>
    ensures { IfOk result (λ values. values.items ≡ blank columns.now) }
{
    let mut values = Vec::with_capacity(alloc, columns.len())?;
    for _column in columns {
        values.push(Value::Null)?;
    }
    Ok(values)
}

/// The row of a group of values.
pub(crate) fn row_of(
    alloc: Global,
    columns: &[Column],
    places: &[Place],
    rowid: &i64,
    given: &[Value],
) -> Result<Row, Memory>
    ensures { IfOk result (λ row. row ≡ row_of columns.now places.now rowid.now given.now) }
{
    let mut values = blank(alloc, columns)?;
    put_all(alloc, values.as_mut_slice(), places, given)?;
    put_key(columns, rowid, values.as_mut_slice());
    Ok(Row {
        rowid: *rowid,
        values: List::from_vec(values),
    })
}

/// Whether both are texts, and the same.
fn is_same_text(a: &Value, b: &Value) -> bool
    ensures { result ≡ is_same_text a.now b.now }
{
    match a {
        Value::Text(text) => is_the_text(text, b),
        _ => false,
    }
}

fn is_the_text(text: &Txt, value: &Value) -> bool
    ensures { result ≡ is_the_text text.now value.now }
{
    match value {
        Value::Text(other) => is_same_name(text, other),
        _ => false,
    }
}

/// Whether both are one text in the column of a text key.
fn is_one_id(kind: Kind, a: &Value, b: &Value) -> bool
    ensures { result ≡ (is_text_key kind && is_same_text a.now b.now) }
{
    matches!(kind, Kind::TextKey) && is_same_text(a, b)
}

/// Whether the values have one text id.
fn same_id(columns: &[Column], a: &[Value], b: &[Value]) -> bool
    ensures { result ≡ same_id columns.now a.now b.now }
{
    let Some((column, columns)) = columns.split_first() else {
        return false;
    };
    let Some((x, a)) = a.split_first() else {
        return false;
    };
    let Some((y, b)) = b.split_first() else {
        return false;
    };
    is_one_id(column.kind, x, y) || same_id(columns, a, b)
}

/// The refusal of a text id that is there.
#[tactic(auto, using(crate::proofs::TextKeyLaws::no_taken_id))]
pub(crate) fn taken_id(columns: &[Column], rows: &[Row], values: &[Value]) -> Option<Refusal>
    ensures { result ≡ first (taken_id columns.now rows.now values.now) }
{
    if !has_text_key(columns) {
        return None;
    }
    same_id_among(columns, rows, values)
}

/// The refusal of a row that has the text id.
fn same_id_among(columns: &[Column], rows: &[Row], values: &[Value]) -> Option<Refusal>
    ensures { result ≡ first (taken_id columns.now rows.now values.now) }
{
    for row in rows {
        if same_id(columns, values, row.values.as_slice()) {
            return Some(Refusal::Duplicate(row.rowid));
        }
    }
    None
}

/// The place of a new row with the rowid, or `None` where a row has it already.
pub(crate) fn free_place(rows: &[Row], rowid: &i64) -> Option<usize>
    requires { is_rising rows.now ≡ true }
    ensures taken { IfNone result (has_rowid rowid.now rows.now ≡ true) }
    ensures free { OnSome result (has_rowid rowid.now rows.now ≡ false) }
    ensures within { IfSome result (λ at. at ≤ length rows.now) }
    ensures place { IfSome result (λ at. (row : RowOf) → row.rowid ≡ rowid.now → insert rows.now at row ≡ with_row row rows.now) }
{
    match rows.binary_search_by(|row| row.rowid.cmp(rowid)) {
        Ok(_) => None,
        Err(at) => Some(at),
    }
}
