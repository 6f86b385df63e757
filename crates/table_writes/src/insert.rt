//! New rows, and what refuses them.
ghost use Rattle.std.specs.Prelude.{◌≡◌, ◌⊎◌, ◌+◌, [], pos, length, IfOk, IfErr, OnOk, Ok as ok, Err as err, None, Some};
ghost use Rattle.std.specs.List.{AllByRecursion};
ghost use Rattle.std.specs.Option.{option_copied};
ghost use Rattle.vec_base.specs.declared.refusal.Refusal.TheVariants.{WantOfMemory};
ghost use Rattle.row_model.specs.Change.{group_refusals, grown, last_rowid, long_values, new_row, room_refusals, taken_id, with_new_row};
ghost use Rattle.row_model.specs.Check.{check_insert};
ghost use Rattle.row_model.specs.RefusalOrder.{first};
ghost use Rattle.row_model.specs.WellFormed.{IsWellFormedInsert};
ghost use Rattle.shadow_records.specs.PlacedTables.{plain, plain_rows};
ghost use Rattle.table_version.specs.Versions.{KeepsOrigin};
ghost use Rattle.table_writes.specs.Writing.{elsewhere_of, places_named};
ghost use Rattle.table_writes.specs.inner.TakenGroups.{IsStoredPlace, IsTakenGroup, given_taken, refusals_of, some_row, taken_text};

use crate::Beside;
use crate::beside::{all_side_bytes, all_vector_bytes, side_bytes};
use crate::group::{given_rowid, new_values, places_of, rows_representable, text_id};
use row_model::{Insert, Place, over_rows, over_sides, over_value, over_vectors, spent};
use std::alloc::Global;
use table_version::TableVersion;
use vec_base::{List, Refusal, Value};

/// The refusal of a given rowid that is there.
#[tactic(auto, using(crate::proofs::InsertLaws::shown_some))]
fn taken_rowid(table: &TableVersion, rowid: &Option<i64>) -> Option<Refusal>
    ensures { result ≡ first (given_taken rowid.now table.now.table.rows) }
{
    match rowid {
        Some(rowid) => {
            if table.row(rowid).is_some() {
                Some(Refusal::Duplicate(*rowid))
            } else {
                None
            }
        }
        None => None,
    }
}

/// The refusal of a text that is the key of a row.
fn taken_text(table: &TableVersion, id: Option<&str>) -> Option<Refusal>
    ensures { result ≡ first (taken_text table.now.table.schema.columns (option_copied id.entry) table.now.table.rows) }
{
    match id {
        Some(id) => match table.rowid_of(id) {
            Some(rowid) => Some(Refusal::Duplicate(rowid)),
            None => None,
        },
        None => None,
    }
}

/// The refusal of a text id that is there.
fn taken_id(table: &TableVersion, values: &[Value]) -> Option<Refusal>
    ensures { result ≡ first (taken_id table.now.table.schema.columns (plain_rows table.now.table.rows) values.now) }
{
    table.known();
    let id = text_id(table.schema().columns.as_slice(), values);
    taken_text(table, id)
}

/// The first value that is too long.
fn long_value(values: &[Value]) -> Option<Refusal>
    ensures { result ≡ first (long_values values.now) }
{
    let (value, more) = values.split_first()?;
    over_value(side_bytes(value)).or(long_value(more))
}

/// The refusal of a row for which there is no room.
fn room_refusal(table: &TableVersion, beside: Beside, values: &[Value]) -> Option<Refusal>
    ensures { result ≡ first (room_refusals (elsewhere_of beside) (plain_rows table.now.table.rows) (some_row values.now)) }
{
    let rows = table.rows().saturating_add(1);
    let vectors = beside
        .vectors
        .saturating_add(table.vector_bytes())
        .saturating_add(all_vector_bytes(values));
    let sides = beside
        .sides
        .saturating_add(table.side_bytes())
        .saturating_add(all_side_bytes(values));
    over_rows(rows)
        .or(over_vectors(vectors))
        .or(over_sides(sides))
}

/// The refusal of a row of these values, where these were given.
fn row_refusal(
    table: &TableVersion,
    beside: Beside,
    rowid: &Option<i64>,
    values: &[Value],
    given: &[Value],
) -> Option<Refusal>
    ensures { result ≡ first (refusals_of (elsewhere_of beside) (plain table.now.table) rowid.now values.now given.now) }
{
    let top = table.top();
    taken_rowid(table, rowid)
        .or(taken_id(table, values))
        .or(spent(&top, rowid))
        .or(long_value(given))
        .or(room_refusal(table, beside, values))
}

/// Adds the row that a group of values makes. Answers its rowid, or what refuses it.
fn add_group(
    alloc: Global,
    table: &mut TableVersion,
    beside: Beside,
    places: &[Place],
    given: &[Value],
) -> Result<i64, Refusal>
    requires listed { AllByRecursion (IsStoredPlace table.old.table.schema.columns) places.now }
    requires group { IsTakenGroup table.old.table.schema.columns places.now given.now }
    ensures refused { IfErr result (λ refusal. (first (group_refusals (elsewhere_of beside) (plain table.old.table) places.now given.now)
        ≡ Some refusal) ⊎ (refusal ≡ WantOfMemory)) }
    ensures welcome { OnOk result (first (group_refusals (elsewhere_of beside) (plain table.old.table) places.now given.now) ≡ None) }
    ensures added { OnOk result (plain table.new.table ≡ with_new_row (plain table.old.table) (new_row (plain table.old.table) places.now given.now)) }
    ensures rowid { IfOk result (λ made. made ≡ (new_row (plain table.old.table) places.now given.now).rowid) }
    ensures name { table.new.table.name ≡ table.old.table.name }
    ensures schema { table.new.table.schema ≡ table.old.table.schema }
    ensures origin { KeepsOrigin table.old table.new }
{
    table.known();
    let rowid = given_rowid(places, given);
    let Ok(values) = new_values(alloc, table, places, &rowid, given) else {
        return Err(Refusal::WantOfMemory);
    };
    if let Some(refusal) = row_refusal(table, beside, &rowid, values.as_slice(), given) {
        return Err(refusal);
    }
    table.insert(alloc, rowid, &values)
}

/// Adds the rows that all groups of values make, one after another. Answers the rowid of the last one, or the first refusal.
fn add_groups(
    alloc: Global,
    table: &mut TableVersion,
    beside: Beside,
    places: &[Place],
    rows: &[List<Value>],
) -> Result<i64, Refusal>
    requires listed { AllByRecursion (IsStoredPlace table.old.table.schema.columns) places.now }
    requires groups { AllByRecursion (IsTakenGroup table.old.table.schema.columns places.now) rows.now }
    ensures grown { OnOk result (grown (elsewhere_of beside) places.now (plain table.old.table) rows.now ≡ ok (plain table.new.table)) }
    ensures last { IfOk result (λ last. last ≡ last_rowid (pos 0) places.now (plain table.old.table) rows.now) }
    ensures refused { IfErr result (λ refusal. (grown (elsewhere_of beside) places.now (plain table.old.table) rows.now ≡ err refusal) ⊎ (refusal ≡ WantOfMemory)) }
    ensures name { table.new.table.name ≡ table.old.table.name }
    ensures schema { table.new.table.schema ≡ table.old.table.schema }
    ensures origin { KeepsOrigin table.old table.new }
{
    let mut last = 0;
    for given in rows {
        last = add_group(alloc, table, beside, places, given.as_slice())?;
    }
    Ok(last)
}

/// Adds the rows of an INSERT that the checks take. Answers the rowid of the last row, or the first refusal of the first row that is refused; then
/// the rows before it are there.
pub fn insert_rows(
    alloc: Global,
    table: &mut TableVersion,
    beside: Beside,
    insert: &Insert,
) -> Result<i64, Refusal>
    requires checked { check_insert table.old.table.schema.columns insert.now ≡ None }
    requires formed { IsWellFormedInsert insert.now }
    ensures grown { OnOk result (grown (elsewhere_of beside) (places_named table.old.table.schema.columns insert.now.columns) (plain table.old.table) insert.now.rows
        ≡ ok (plain table.new.table)) }
    ensures last { IfOk result (λ last. last ≡ last_rowid (pos 0) (places_named table.old.table.schema.columns insert.now.columns)
        (plain table.old.table) insert.now.rows) }
    ensures refused { IfErr result (λ refusal. (grown (elsewhere_of beside) (places_named table.old.table.schema.columns insert.now.columns)
        (plain table.old.table) insert.now.rows ≡ err refusal) ⊎ (refusal ≡ WantOfMemory)) }
    ensures name { table.new.table.name ≡ table.old.table.name }
    ensures schema { table.new.table.schema ≡ table.old.table.schema }
    ensures origin { KeepsOrigin table.old table.new }
{
    table.known();
    rows_representable(insert.rows.as_slice());
    let columns = table.schema().columns.as_slice();
    let Ok(places) = places_of(alloc, columns, insert.columns.as_slice()) else {
        return Err(Refusal::WantOfMemory);
    };
    add_groups(
        alloc,
        table,
        beside,
        places.as_slice(),
        insert.rows.as_slice(),
    )
}
