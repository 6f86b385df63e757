//! New values in rows, and what refuses them.
ghost use Rattle.std.specs.Prelude.{◌≡◌, ◌⊎◌, ◌<◌, ◌+◌, nat_lt, if◌then◌else◌, [], length, map, IfOk, IfErr, OnOk, None, Some};
ghost use Rattle.std.specs.List.{AllByRecursion};
ghost use Rattle.vec_base.specs.declared.refusal.Refusal.TheVariants.{WantOfMemory};
ghost use Rattle.row_model.specs.Change.{long_values, rows_side_bytes, update_refusals, updated, with_rows};
ghost use Rattle.row_model.specs.Check.{check_update};
ghost use Rattle.row_model.specs.declared.statement.Update.{Update as UpdateOf};
ghost use Rattle.row_model.specs.RefusalOrder.{first};
ghost use Rattle.row_model.specs.Values.{met};
ghost use Rattle.knn_plan.specs.Plans.{IsPlanFor};
ghost use Rattle.shadow_records.specs.PlacedTables.{plain, plain_rows};
ghost use Rattle.table_version.specs.Versions.{KeepsOrigin};
ghost use Rattle.table_writes.specs.Writing.{elsewhere_of, update_with};
ghost use Rattle.table_writes.specs.inner.Capped.{capped};
ghost use Rattle.table_writes.specs.inner.OneByOne.{one_by_one, set_one};
ghost use Rattle.table_writes.specs.inner.SetColumns.{IsSettable};
ghost use Rattle.table_writes.specs.inner.Updates.{IsUpdateOf};

use crate::Beside;
use crate::found::met_rowids;
use crate::sets::{all_gone, bytes_come, long_set, number_of, sets_representable};
use knn_plan::Plan;
use row_model::{Assign, over_sides, over_vectors};
use std::alloc::Global;
use table_version::TableVersion;
use vec_base::{List, Memory, Refusal};

/// The first new value that is too long, where some row gets it.
fn long_refusal(rowids: &[i64], sets: &[Assign]) -> Option<Refusal>
    ensures { result ≡ first (if nat_lt 0 (length rowids.now) then long_values (map (λ set. set.value) sets.now) else []) }
{
    if rowids.is_empty() {
        None
    } else {
        long_set(sets)
    }
}

/// The bytes of texts and blobs after an UPDATE of the rows of these rowids, with those of other tables.
fn side_total(table: &TableVersion, beside: Beside, rowids: &[i64], sets: &[Assign]) -> u64
    ensures { (update : UpdateOf) → IsUpdateOf table.now.table update rowids.now sets.now →
        result ≡ capped (beside.sides + rows_side_bytes (updated table.now.table.schema.columns update (plain_rows table.now.table.rows))) }
{
    table.known();
    let left = table
        .side_bytes()
        .saturating_sub(all_gone(table, rowids, sets));
    let added = (rowids.len() as u64).saturating_mul(bytes_come(sets));
    beside.sides.saturating_add(left.saturating_add(added))
}

/// What refuses an UPDATE of the rows of these rowids.
fn update_refusal(
    table: &TableVersion,
    beside: Beside,
    rowids: &[i64],
    sets: &[Assign],
) -> Option<Refusal>
    ensures { (update : UpdateOf) → IsUpdateOf table.now.table update rowids.now sets.now →
        result ≡ first (update_refusals (elsewhere_of beside) (plain table.now.table) update) }
{
    table.known();
    sets_representable(sets);
    let long = long_refusal(rowids, sets);
    if long.is_some() {
        return long;
    }
    let vectors = beside.vectors.saturating_add(table.vector_bytes());
    over_vectors(vectors).or(over_sides(side_total(table, beside, rowids, sets)))
}

/// Gives the row of a rowid its new values.
fn set_row(
    alloc: Global,
    table: &mut TableVersion,
    rowid: &i64,
    sets: &[Assign],
) -> Result<(), Memory>
    requires sets { AllByRecursion (IsSettable table.old.table.schema.columns) sets.now }
    ensures changed { OnOk result (plain table.new.table
        ≡ with_rows (plain table.old.table) (set_one table.old.table.schema.columns sets.now rowid.now (plain_rows table.old.table.rows))) }
    ensures name { table.new.table.name ≡ table.old.table.name }
    ensures schema { table.new.table.schema ≡ table.old.table.schema }
    ensures origin { KeepsOrigin table.old table.new }
{
    table.known();
    let Some((set, more)) = sets.split_first() else {
        return Ok(());
    };
    let number = number_of(table.schema().columns.as_slice(), &set.column);
    table.update(alloc, rowid, number, &set.value)?;
    set_row(alloc, table, rowid, more)
}

/// Gives the rows of these rowids their new values.
fn set_rows(
    alloc: Global,
    table: &mut TableVersion,
    rowids: &[i64],
    sets: &[Assign],
) -> Result<(), Memory>
    requires sets { 0 < length rowids.now → AllByRecursion (IsSettable table.old.table.schema.columns) sets.now }
    ensures changed { OnOk result (plain table.new.table
        ≡ with_rows (plain table.old.table) (one_by_one (set_one table.old.table.schema.columns sets.now) rowids.now (plain_rows table.old.table.rows))) }
    ensures name { table.new.table.name ≡ table.old.table.name }
    ensures schema { table.new.table.schema ≡ table.old.table.schema }
    ensures origin { KeepsOrigin table.old table.new }
{
    for rowid in rowids {
        set_row(alloc, table, rowid, sets)?;
    }
    Ok(())
}

/// Gives columns new values in the rows that meet the terms of a plan. Answers how many there were, or what refuses the UPDATE. After want of
/// memory some of them may have new values.
pub fn update_rows(
    alloc: Global,
    table: &mut TableVersion,
    beside: Beside,
    plan: &Plan,
    sets: &List<Assign>,
) -> Result<u64, Refusal>
    requires plan { IsPlanFor table.old.table.schema.columns plan.now }
    requires checked { check_update table.old.table.schema.columns (update_with plan.now.select sets.now) ≡ None }
    ensures counted { IfOk result (λ count. count ≡ length (met table.old.table.schema.columns plan.now.select.where_terms (plain_rows table.old.table.rows))) }
    ensures changed { OnOk result (plain table.new.table
        ≡ with_rows (plain table.old.table) (updated table.old.table.schema.columns (update_with plan.now.select sets.now) (plain_rows table.old.table.rows))) }
    ensures welcome { OnOk result (update_refusals (elsewhere_of beside) (plain table.old.table) (update_with plan.now.select sets.now) ≡ []) }
    ensures refused { IfErr result (λ refusal. (first (update_refusals (elsewhere_of beside) (plain table.old.table) (update_with plan.now.select sets.now))
        ≡ Some refusal) ⊎ (refusal ≡ WantOfMemory)) }
    ensures name { table.new.table.name ≡ table.old.table.name }
    ensures schema { table.new.table.schema ≡ table.old.table.schema }
    ensures origin { KeepsOrigin table.old table.new }
{
    table.known();
    let Ok(rowids) = met_rowids(alloc, table, plan) else {
        return Err(Refusal::WantOfMemory);
    };
    if let Some(refusal) = update_refusal(table, beside, rowids.as_slice(), sets.as_slice()) {
        return Err(refusal);
    }
    match set_rows(alloc, table, rowids.as_slice(), sets.as_slice()) {
        Ok(()) => Ok(rowids.len() as u64),
        Err(_) => Err(Refusal::WantOfMemory),
    }
}
