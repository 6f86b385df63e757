//! The answer of a SELECT that says which rowid or key is wanted.
ghost use Rattle.std.specs.Prelude.{◌≡◌, ◌+◌, ◌≤◌, IfOk};
ghost use Rattle.knn_plan.specs.Plans.{IsPlanFor};
ghost use Rattle.row_model.specs.Answer.{answer};
ghost use Rattle.row_model.specs.declared.request.Shape.TheVariants.{Point};
ghost use Rattle.shadow_records.specs.PlacedTables.{plain};
ghost use Rattle.table_answers.specs.Reads.{row_reads};

use knn_plan::Plan;
use std::alloc::Global;
use table_query::{point, project};
use table_version::TableVersion;
use vec_base::{List, Memory, Steps, Value};

/// The rows that a SELECT answers which says which rowid or key is wanted: one row is looked up, and only its vectors are read.
pub fn point_rows(
    alloc: Global,
    table: &TableVersion,
    plan: &Plan,
    steps: &mut Steps,
) -> Result<List<List<Value>>, Memory>
    requires plan { IsPlanFor table.now.table.schema.columns plan.now }
    requires point { plan.now.shape ≡ Point }
    ensures rows { IfOk result (λ rows. rows ≡ answer (plain table.now.table) plan.now.select) }
    ensures reads { steps.new.reads ≤ steps.old.reads + row_reads table.now.table plan.now.select }
    ensures pieces { steps.new.pieces ≡ steps.old.pieces }
{
    table.known();
    let mut rows = List::new(alloc);
    if plan.limit() == Some(0) {
        return Ok(rows);
    }
    if let Some(rowid) = point(table, plan, steps) {
        rows.push(project(alloc, table, plan, rowid, 0, steps)?)?;
    }
    Ok(rows)
}
