//! The chunks that a search looks into.
ghost use Rattle.std.specs.Prelude.{◌≡◌, IfOk};
ghost use Rattle.knn_plan.specs.Plans.{PlannedTarget};
ghost use Rattle.nearest_query.specs.Searches.{is_wanted, wanted_chunks};
ghost use Rattle.nearest_query.specs.inner.Scanning.{IsReady};

use crate::terms::value_met;
use knn_plan::Plan;
use std::alloc::Global;
use table_version::TableVersion;
use vec_base::Memory;

/// Whether a chunk has rows, whose partition values meet the terms.
fn partition_met(table: &TableVersion, plan: &Plan, chunk: u32) -> bool
    requires ready { (target : PlannedTarget) × IsReady table.now.table plan.now target }
    ensures { result ≡ is_wanted table.now.table plan.now.select.where_terms chunk }
{
    let Some(values) = table.partition(chunk) else {
        return false;
    };
    let columns = plan.terms();
    for (at, term) in plan.select().where_terms.as_slice().iter().enumerate() {
        let column = &columns[at];
        if !value_met(column, &term.test, values.as_slice()) {
            return false;
        }
    }
    true
}

/// The chunks whose partition values meet the terms, by rising numbers.
pub(crate) fn wanted(alloc: Global, table: &TableVersion, plan: &Plan) -> Result<Vec<u32>, Memory>
    requires ready { (target : PlannedTarget) × IsReady table.now.table plan.now target }
    ensures { IfOk result (λ chunks. chunks.items ≡ wanted_chunks table.now.table plan.now.select.where_terms) }
{
    let mut chunks = Vec::new(alloc);
    let mut after = 0;
    while let Some(chunk) = table.next_chunk(after) {
        if partition_met(table, plan, chunk) {
            chunks.push(chunk)?;
        }
        after = chunk;
    }
    Ok(chunks)
}
