//! Rows that go into a table, one after another.
ghost use Rattle.std.specs.Prelude.{◌≡◌, ◌≤◌, true, [], ◌∷◌, ◌+◌, List, pos, map, length, None, Ok as ok, Err as err, IfOk, IfErr, OnErr};
ghost use Rattle.std.specs.List.{insert};
ghost use Rattle.row_model.specs.declared.row.Row.{Row as RowOf};
ghost use Rattle.row_model.specs.declared.row.Table.{Table as TableOf};
ghost use Rattle.row_model.specs.Change.{Elsewhere, assigned, given_rowid, group_refusals, grown, larger, last_rowid, new_row, room_refusals, row_refusals, spent, taken_id, taken_rowid, with_new_row};
ghost use Rattle.row_model.specs.RefusalOrder.{first};
ghost use Rattle.row_model.specs.Rows.{is_rising, with_row};
ghost use Rattle.plain_engine.specs.inner.ByteTotals.{total_beside};
ghost use Rattle.plain_engine.specs.inner.OrderedTables.{IsOrdered};
ghost use Rattle.row_model.specs.Valid.{is_top};

use crate::insert::{free_place, given_rowid, long_value, row_of, taken_id};
use crate::totals::{Totals, row_side_bytes, row_vector_bytes};
use row_model::{Place, Row, Table, assigned, larger, over_rows, over_sides, over_vectors, spent};
use std::alloc::Global;
use vec_base::{List, Memory, Refusal, Value};

/// Where a new row goes in among the rows, or the refusal of a rowid that is there. A rowid that is not given is above
/// all others.
fn gap(rows: &[Row], top: &i64, rowid: &Option<i64>) -> Result<usize, Refusal>
    requires rising { is_rising rows.now ≡ true }
    requires topped { is_top top.now rows.now ≡ true }
    ensures taken { IfErr result (λ refusal. taken_rowid rows.now rowid.now ≡ refusal ∷ []) }
    ensures free { IfOk result (λ at. taken_rowid rows.now rowid.now ≡ []) }
    ensures within { IfOk result (λ at. at ≤ length rows.now) }
    ensures place { IfOk result (λ at. spent top.now rowid.now ≡ [] → (row : RowOf) → row.rowid ≡ assigned top.now rowid.now → insert rows.now at row ≡ with_row row rows.now) }
{
    match rowid {
        None => Ok(rows.len()),
        Some(rowid) => match free_place(rows, rowid) {
            Some(at) => Ok(at),
            None => Err(Refusal::Duplicate(*rowid)),
        },
    }
}

/// The refusal of a row for which there is no room beside so many rows.
pub(crate) fn room_refusal(totals: Totals, count: usize, row: &Row) -> Option<Refusal>
    ensures { (other : Elsewhere) → (rows : List RowOf) → totals ≡ total_beside other rows → count ≡ length rows → result ≡ first (room_refusals other rows row.now) }
{
    let rows = (count as u64).saturating_add(1);
    let vectors = totals.vectors.saturating_add(row_vector_bytes(row));
    let sides = totals.sides.saturating_add(row_side_bytes(row));
    over_rows(rows)
        .or(over_vectors(vectors))
        .or(over_sides(sides))
}

/// The row that a group of values makes in the table; the rowid is the one that the group gives, if it gives one.
#[tactic(auto, using(crate::proofs::TopLaws::is_new_row))]
fn new_row(
    alloc: Global,
    table: &Table,
    places: &[Place],
    rowid: &Option<i64>,
    given: &[Value],
) -> Result<Row, Memory>
    requires { rowid.now ≡ given_rowid places.now given.now }
    ensures { IfOk result (λ row. row ≡ new_row table.now places.now given.now) }
{
    let number = assigned(&table.top, rowid);
    row_of(
        alloc,
        table.schema.columns.as_slice(),
        places,
        &number,
        given,
    )
}

/// The refusal of a row that a group of values makes, but for that of a given rowid.
fn row_refusal(
    totals: Totals,
    table: &Table,
    rowid: &Option<i64>,
    row: &Row,
    given: &[Value],
) -> Option<Refusal>
    ensures first { (other : Elsewhere) → totals ≡ total_beside other table.now.rows → taken_rowid table.now.rows rowid.now ≡ [] →
        result ≡ first (row_refusals other table.now rowid.now row.now given.now) }
    ensures left { result ≡ None → spent table.now.top rowid.now ≡ [] }
{
    let rows = table.rows.as_slice();
    let taken = taken_id(table.schema.columns.as_slice(), rows, row.values.as_slice());
    taken
        .or(spent(&table.top, rowid))
        .or(long_value(given))
        .or(room_refusal(totals, rows.len(), row))
}

/// Adds the row that a group of values makes, or answers what refuses it. Where it is refused, or memory is wanted,
/// nothing changes.
fn add_group(
    alloc: Global,
    places: &[Place],
    table: &mut Table,
    totals: &mut Totals,
    given: &[Value],
) -> Result<Option<Refusal>, Memory>
    requires ordered { IsOrdered table.old }
    ensures refusal { (other : Elsewhere) → totals.old ≡ total_beside other table.old.rows → IfOk result (λ refusal. refusal ≡ first (group_refusals other table.old places.now given.now)) }
    ensures added { IfOk result (λ refusal. refusal ≡ None → table.new ≡ with_new_row table.old (new_row table.old places.now given.now)) }
    ensures counted { (other : Elsewhere) → totals.old ≡ total_beside other table.old.rows → IfOk result (λ refusal. refusal ≡ None → totals.new ≡ total_beside other table.new.rows) }
    ensures still_ordered { IfOk result (λ refusal. IsOrdered table.new) }
    ensures refused { IfOk result (λ refusal. (refusal ≡ None → ⊥) → table.new ≡ table.old) }
    ensures err { OnErr result (table.new ≡ table.old) }
{
    let rowid = given_rowid(places, given);
    let at = match gap(table.rows.as_slice(), &table.top, &rowid) {
        Ok(at) => at,
        Err(refusal) => return Ok(Some(refusal)),
    };
    let row = new_row(alloc, table, places, &rowid, given)?;
    let refusal = row_refusal(*totals, table, &rowid, &row, given);
    if refusal.is_some() {
        return Ok(refusal);
    }
    let more = totals.with(&row);
    let top = larger(&table.top, &row.rowid);
    table.rows.insert(at, row)?;
    table.top = top;
    *totals = more;
    Ok(None)
}

/// The rowid of the row that a group of values makes.
fn next_rowid(table: &Table, places: &[Place], given: &[Value]) -> i64
    ensures { result ≡ (new_row table.now places.now given.now).rowid }
{
    assigned(&table.top, &given_rowid(places, given))
}

/// A table with all rows of an INSERT, and the last row's rowid.
#[derive(Drop)]
pub(crate) struct Grown {
    pub(crate) table: Table,
    pub(crate) last: i64,
}

/// Adds the rows that all groups of values make, one after another, or answers the first refusal. The totals are those of
/// the table's rows and of other tables.
pub(crate) fn grow(
    alloc: Global,
    places: &[Place],
    mut table: Table,
    mut totals: Totals,
    rows: &[List<Value>],
) -> Result<Result<Grown, Refusal>, Memory>
    requires ordered { IsOrdered table }
    ensures refused { (other : Elsewhere) → totals ≡ total_beside other table.rows → IfOk result (λ grew. IfErr grew (λ refusal. grown other places.now table rows.now ≡ err refusal)) }
    ensures grown { (other : Elsewhere) → totals ≡ total_beside other table.rows → IfOk result (λ grew. IfOk grew (λ g. grown other places.now table rows.now ≡ ok g.table)) }
    ensures last { IfOk result (λ grew. IfOk grew (λ g. g.last ≡ last_rowid (pos 0) places.now table rows.now)) }
{
    let mut last = 0;
    for given in rows {
        let rowid = next_rowid(&table, places, given.as_slice());
        if let Some(refusal) = add_group(
            alloc,
            places,
            &mut table,
            &mut totals,
            given.as_slice(),
        )? {
            return Ok(Err(refusal));
        }
        last = rowid;
    }
    Ok(Ok(Grown { table, last }))
}
