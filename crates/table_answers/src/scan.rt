//! The answer of a SELECT that goes over all rows.
ghost use Rattle.std.specs.Prelude.{◌≡◌, ◌<◌, ◌≤◌, ◌⊎◌, IfErr, IfNone, IfOk, IfSome, None, length, take};
ghost use Rattle.vec_base.specs.declared.limits.TheConstants.{MOST_REPLY_ROWS};
ghost use Rattle.vec_base.specs.declared.refusal.Refusal.TheVariants.{TooManyRows, WantOfMemory};
ghost use Rattle.knn_plan.specs.Plans.{IsPlanFor};
ghost use Rattle.row_model.specs.Answer.{answer};
ghost use Rattle.shadow_records.specs.PlacedTables.{plain};
ghost use Rattle.table_rows.specs.ScanRows.{scan_rows as rows_of_scan};

use knn_plan::Plan;
use snapshot_cursor::RowSource;
use std::alloc::Global;
use table_rows::{TableRows, open_scan};
use table_version::TableVersion;
use vec_base::{List, MOST_REPLY_ROWS, Memory, Refusal, Value};

/// How many rows a source has, up to a number.
fn count_upto<V: RowSource>(source: &V, most: u64) -> u64
    ensures { result ≡ length (take most (V.rows source.now)) }
{
    let mut count = 0;
    let mut after = None;
    while count < most {
        after = source.next_after(after);
        if after.is_none() {
            return count;
        }
        count += 1;
    }
    count
}

/// A number that no answer is longer than: LIMIT, or else the number of rows.
fn most_rows(table: &TableVersion, plan: &Plan) -> u64
    requires plan { IsPlanFor table.now.table.schema.columns plan.now }
    requires no_target { plan.now.target ≡ None }
    ensures { length (take result (rows_of_scan plan.now table.now.table)) ≡ length (answer (plain table.now.table) plan.now.select) }
{
    match plan.limit() {
        Some(limit) => limit as u64,
        None => table.rows(),
    }
}

/// How many rows a SELECT would answer, where they are too many for a reply.
fn too_many(table: &TableVersion, plan: &Plan) -> Option<u64>
    requires plan { IsPlanFor table.now.table.schema.columns plan.now }
    requires no_target { plan.now.target ≡ None }
    ensures few { IfNone result (length (answer (plain table.now.table) plan.now.select) ≤ MOST_REPLY_ROWS) }
    ensures many { IfSome result (λ count. (count ≡ length (answer (plain table.now.table) plan.now.select)) × (MOST_REPLY_ROWS < count)) }
{
    let most = most_rows(table, plan);
    if most <= MOST_REPLY_ROWS as u64 {
        return None;
    }
    let count = count_upto(&TableRows { table, plan }, most);
    if count <= MOST_REPLY_ROWS as u64 {
        None
    } else {
        Some(count)
    }
}

/// The rows that a SELECT answers which goes over all rows. Where they are too many for a reply it is refused before one is made.
pub fn scan_rows(
    alloc: Global,
    table: &TableVersion,
    plan: &Plan,
) -> Result<List<List<Value>>, Refusal>
    requires plan { IsPlanFor table.now.table.schema.columns plan.now }
    requires no_target { plan.now.target ≡ None }
    ensures rows { IfOk result (λ rows. rows ≡ answer (plain table.now.table) plan.now.select) }
    ensures few { IfOk result (λ _. length (answer (plain table.now.table) plan.now.select) ≤ MOST_REPLY_ROWS) }
    ensures refused { IfErr result (λ refusal.
        ((refusal ≡ TooManyRows (length (answer (plain table.now.table) plan.now.select))) × (MOST_REPLY_ROWS < length (answer (plain table.now.table) plan.now.select)))
        ⊎ (refusal ≡ WantOfMemory)) }
{
    if let Some(count) = too_many(table, plan) {
        return Err(Refusal::TooManyRows(count));
    }
    match open_scan(table, plan).page(alloc, &TableRows { table, plan }, MOST_REPLY_ROWS as u16) {
        Ok(rows) => Ok(rows),
        Err(Memory) => Err(Refusal::WantOfMemory),
    }
}
