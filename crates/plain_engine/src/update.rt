//! The rows that UPDATE and DELETE leave.
ghost use Rattle.std.specs.Prelude.{◌≡◌, ◌≤◌, ◌<◌, ◌+◌, true, false, if◌then◌else◌, length, map, IfOk};
ghost use Rattle.row_model.specs.declared.row.Table.{Table as TableOf};
ghost use Rattle.row_model.specs.Values.{met};
ghost use Rattle.row_model.specs.Change.{Elsewhere, kept, put_at, set_all, updated, updated_row, update_refusals, long_values, with_rows};
ghost use Rattle.row_model.specs.RefusalOrder.{first};
ghost use Rattle.plain_engine.specs.inner.ByteTotals.{total_beside};
ghost use Rattle.row_model.specs.Values.{meets_all};
ghost use Rattle.row_model.specs.declared.schema.TheConstants.{MOST_COLUMNS};

use crate::insert::put_at;
use crate::meet::meets_all;
use crate::totals::{Totals, side_bytes};
use row_model::{
    Assign, Column, Constraint, Delete, Place, Row, Update, over_sides, over_value, over_vectors,
};
use std::alloc::Global;
use vec_base::{List, Memory, Refusal, Value};

/// Puts the new values at their places.
fn set_all(
    alloc: Global,
    columns: &[Column],
    sets: &[Assign],
    values: &mut [Value],
) -> Result<(), Memory>
    requires narrow { length columns.now ≤ MOST_COLUMNS }
    ensures { IfOk result (λ put. values.new ≡ set_all columns.now sets.now values.old) }
{
    let Some((set, more)) = sets.split_first() else {
        return Ok(());
    };
    put_at(
        values,
        Place::of(columns, &set.column),
        set.value.copy(alloc)?,
    );
    set_all(alloc, columns, more, values)
}

/// The row with the new values.
fn with_sets(alloc: Global, columns: &[Column], sets: &[Assign], row: &Row) -> Result<Row, Memory>
    requires narrow { length columns.now ≤ MOST_COLUMNS }
    ensures { IfOk result (λ new. new ≡ record { rowid = row.now.rowid; values = set_all columns.now sets.now row.now.values }) }
{
    let mut values = Vec::with_capacity(alloc, row.values.len())?;
    for value in row.values.as_slice() {
        values.push(value.copy(alloc)?)?;
    }
    set_all(alloc, columns, sets, values.as_mut_slice())?;
    Ok(Row {
        rowid: row.rowid,
        values: List::from_vec(values),
    })
}

/// The row with the new values where it meets the terms.
fn updated_row(alloc: Global, columns: &[Column], update: &Update, row: &Row) -> Result<Row, Memory>
    requires narrow { length columns.now ≤ MOST_COLUMNS }
    ensures { IfOk result (λ new. new ≡ updated_row columns.now update.now row.now) }
{
    if meets_all(columns, update.where_terms.as_slice(), row) {
        with_sets(alloc, columns, update.sets.as_slice(), row)
    } else {
        row.copy(alloc)
    }
}

/// All rows after an UPDATE.
pub(crate) fn updated(
    alloc: Global,
    columns: &[Column],
    update: &Update,
    rows: &[Row],
) -> Result<List<Row>, Memory>
    requires narrow { length columns.now ≤ MOST_COLUMNS }
    ensures { IfOk result (λ new. new ≡ updated columns.now update.now rows.now) }
{
    let mut new = Vec::with_capacity(alloc, rows.len())?;
    for row in rows {
        new.push(updated_row(alloc, columns, update, row)?)?;
    }
    Ok(List::from_vec(new))
}

/// The rows that a DELETE leaves.
pub(crate) fn kept(
    alloc: Global,
    columns: &[Column],
    delete: &Delete,
    rows: &[Row],
) -> Result<List<Row>, Memory>
    requires narrow { length columns.now ≤ MOST_COLUMNS }
    ensures { IfOk result (λ new. new ≡ kept columns.now delete.now rows.now) }
{
    let mut new = List::new(alloc);
    for row in rows {
        if !meets_all(columns, delete.where_terms.as_slice(), row) {
            new.push(row.copy(alloc)?)?;
        }
    }
    Ok(new)
}

/// How many rows meet the terms.
pub(crate) fn met_count(columns: &[Column], terms: &[Constraint], rows: &[Row]) -> usize
    requires narrow { length columns.now ≤ MOST_COLUMNS }
    ensures { result ≡ length (met columns.now terms.now rows.now) }
{
    let mut count = 0;
    for row in rows {
        if meets_all(columns, terms, row) {
            count += 1;
        }
    }
    count
}

/// The first new value that is too long.
fn long_set(sets: &[Assign]) -> Option<Refusal>
    ensures { result ≡ first (long_values (map (λ set. set.value) sets.now)) }
{
    let (set, more) = sets.split_first()?;
    over_value(side_bytes(&set.value)).or(long_set(more))
}

/// What refuses an UPDATE that changes so many rows. The totals are those after it.
pub(crate) fn update_refusal(totals: Totals, changed: usize, update: &Update) -> Option<Refusal>
    ensures { (other : Elsewhere) → (table : TableOf) → totals ≡ total_beside other (updated table.schema.columns update.now table.rows) →
        changed ≡ length (met table.schema.columns update.now.where_terms table.rows) → result ≡ first (update_refusals other table update.now) }
{
    let long = if changed > 0 {
        long_set(update.sets.as_slice())
    } else {
        None
    };
    long.or(over_vectors(totals.vectors))
        .or(over_sides(totals.sides))
}
