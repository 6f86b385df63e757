//! Rows that go.
ghost use Rattle.std.specs.Prelude.{◌≡◌, length, IfOk, OnOk};
ghost use Rattle.row_model.specs.Change.{kept, with_rows};
ghost use Rattle.row_model.specs.Values.{met};
ghost use Rattle.knn_plan.specs.Plans.{IsPlanFor};
ghost use Rattle.shadow_records.specs.PlacedTables.{plain, plain_rows};
ghost use Rattle.table_version.specs.Versions.{KeepsOrigin};
ghost use Rattle.table_writes.specs.Writing.{delete_with};
ghost use Rattle.table_writes.specs.inner.OneByOne.{one_by_one, without};

use crate::found::met_rowids;
use knn_plan::Plan;
use std::alloc::Global;
use table_version::TableVersion;
use vec_base::Memory;

/// Removes the rows of these rowids.
fn remove_rows(alloc: Global, table: &mut TableVersion, rowids: &[i64]) -> Result<(), Memory>
    ensures removed { OnOk result (plain table.new.table ≡ with_rows (plain table.old.table) (one_by_one without rowids.now (plain_rows table.old.table.rows))) }
    ensures name { table.new.table.name ≡ table.old.table.name }
    ensures schema { table.new.table.schema ≡ table.old.table.schema }
    ensures origin { KeepsOrigin table.old table.new }
{
    for rowid in rowids {
        table.remove(alloc, rowid)?;
    }
    Ok(())
}

/// Removes the rows that meet the terms of a plan. Answers how many there were. After want of memory some of them may be gone.
pub fn delete_rows(alloc: Global, table: &mut TableVersion, plan: &Plan) -> Result<u64, Memory>
    requires plan { IsPlanFor table.old.table.schema.columns plan.now }
    ensures counted { IfOk result (λ count. count ≡ length (met table.old.table.schema.columns plan.now.select.where_terms (plain_rows table.old.table.rows))) }
    ensures changed { OnOk result (plain table.new.table
        ≡ with_rows (plain table.old.table) (kept table.old.table.schema.columns (delete_with plan.now.select) (plain_rows table.old.table.rows))) }
    ensures name { table.new.table.name ≡ table.old.table.name }
    ensures schema { table.new.table.schema ≡ table.old.table.schema }
    ensures origin { KeepsOrigin table.old table.new }
{
    table.known();
    let rowids = met_rowids(alloc, table, plan)?;
    remove_rows(alloc, table, rowids.as_slice())?;
    Ok(rowids.len() as u64)
}
