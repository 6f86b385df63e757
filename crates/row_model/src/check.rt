//! What refuses a statement by its names, its values and the table's columns. No call takes memory.
ghost use Rattle.std.specs.Prelude.{◌≡◌, ◌<◌, ◌≤◌, ◌+◌, length, Some};
ghost use Rattle.row_model.specs.Check.{check_insert, check_update, check_delete, check_select, names_faults, items_faults, limit_range_faults, limit_faults, item_count, index_after};
ghost use Rattle.row_model.specs.ColumnNames.{place_of};
ghost use Rattle.row_model.specs.RefusalOrder.{least_after};

use crate::fit::{note, note_value};
use crate::forms::{is_nearest, note_change_forms, note_select_forms};
use crate::names::{note_groups, note_names, note_sets};
use crate::terms::{is_row_count, note_terms};
use crate::{Column, Delete, Insert, Items, MOST_COLUMNS, Place, Select, Update};
use vec_base::{LAST_NAME_INDEX, Refusal, Txt, Value};

/// The refusal of an INSERT into a table of these columns, if there is one.
pub fn check_insert(columns: &[Column], insert: &Insert) -> Option<Refusal>
    requires narrow { length columns.now ≤ MOST_COLUMNS }
    ensures { result ≡ check_insert columns.now insert.now }
{
    let names = insert.columns.as_slice();
    let worst = note_names(columns, names);
    if let Some(Refusal::NoColumn(_)) = worst {
        return worst;
    }
    note_groups(worst, columns, names, insert.rows.as_slice())
}

/// The index of the name behind so many.
fn index_after(count: usize) -> u16
    ensures { result ≡ index_after count }
{
    (count.min(usize::from(LAST_NAME_INDEX) - 1) + 1) as u16
}

/// The refusal of an UPDATE of a table of these columns, if there is one.
pub fn check_update(columns: &[Column], update: &Update) -> Option<Refusal>
    requires narrow { length columns.now ≤ MOST_COLUMNS }
    ensures { result ≡ check_update columns.now update.now }
{
    let sets = update.sets.as_slice();
    let terms = update.where_terms.as_slice();
    let worst = note_sets(columns, sets);
    let worst = note_terms(worst, columns, index_after(sets.len()), terms);
    note_change_forms(worst, columns, terms)
}

/// The refusal of a DELETE from a table of these columns, if there is one.
pub fn check_delete(columns: &[Column], delete: &Delete) -> Option<Refusal>
    requires narrow { length columns.now ≤ MOST_COLUMNS }
    ensures { result ≡ check_delete columns.now delete.now }
{
    let terms = delete.where_terms.as_slice();
    let worst = note_terms(None, columns, 1, terms);
    note_change_forms(worst, columns, terms)
}

/// Notes the names of items, the first of which has this index.
fn note_item_names(
    worst: Option<Refusal>,
    columns: &[Column],
    index: u16,
    names: &[Txt],
) -> Option<Refusal>
    requires narrow { length columns.now ≤ MOST_COLUMNS }
    ensures { result ≡ least_after worst (names_faults columns.now index names.now) }
{
    let Some((name, more)) = names.split_first() else {
        return worst;
    };
    let place = Place::of(columns, name);
    let worst = note(worst, place.is_no_item(), Refusal::NoColumn(index));
    note_item_names(worst, columns, index.saturating_add(1), more)
}

/// Notes the items of a SELECT.
fn note_items(worst: Option<Refusal>, columns: &[Column], items: &Items) -> Option<Refusal>
    requires narrow { length columns.now ≤ MOST_COLUMNS }
    ensures { result ≡ least_after worst (items_faults columns.now items.now) }
{
    match items {
        Items::All => worst,
        Items::Named(names) => note_item_names(worst, columns, 1, names.as_slice()),
    }
}

/// The index of the name behind the items.
fn index_after_items(items: &Items) -> u16
    ensures { result ≡ index_after (item_count items.now) }
{
    match items {
        Items::All => 1,
        Items::Named(names) => index_after(names.len()),
    }
}

/// Notes the number of LIMIT where it is out of range.
fn note_limit_range(worst: Option<Refusal>, nearest: bool, value: &Value) -> Option<Refusal>
    ensures { result ≡ least_after worst (limit_range_faults nearest value.now) }
{
    match value {
        Value::Int(number) => {
            let out = if nearest {
                !is_row_count(*number)
            } else {
                *number < 0
            };
            note(worst, out, Refusal::KRange(*number))
        }
        _ => worst,
    }
}

/// Notes the value of LIMIT.
fn note_limit(worst: Option<Refusal>, nearest: bool, limit: &Option<Value>) -> Option<Refusal>
    ensures { result ≡ least_after worst (limit_faults nearest limit.now) }
{
    match limit {
        None => worst,
        Some(value) => {
            let worst = note_value(worst, Place::Count, value);
            note_limit_range(worst, nearest, value)
        }
    }
}

/// The refusal of a SELECT from a table of these columns, if there is one.
pub fn check_select(columns: &[Column], select: &Select) -> Option<Refusal>
    requires narrow { length columns.now ≤ MOST_COLUMNS }
    ensures { result ≡ check_select columns.now select.now }
{
    let terms = select.where_terms.as_slice();
    let worst = note_items(None, columns, &select.items);
    let worst = note_terms(worst, columns, index_after_items(&select.items), terms);
    let worst = note_limit(worst, is_nearest(terms), &select.limit);
    note_select_forms(worst, columns, select)
}
