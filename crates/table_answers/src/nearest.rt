//! The answer of a SELECT with a MATCH.
ghost use Rattle.std.specs.Prelude.{◌≡◌, ◌+◌, ◌*◌, ◌≤◌, IfOk, is_some, length, map, min, true};
ghost use Rattle.std.specs.List.{list_all};
ghost use Rattle.vec_base.specs.declared.limits.TheConstants.{LAST_COUNT};
ghost use Rattle.knn_plan.specs.Plans.{IsPlanFor};
ghost use Rattle.nearest_query.specs.Searches.{wanted_chunks};
ghost use Rattle.row_model.specs.Answer.{answer};
ghost use Rattle.shadow_records.specs.PlacedTables.{plain};
ghost use Rattle.table_answers.specs.Reads.{most_reads, row_reads};
ghost use Rattle.table_answers.specs.inner.HitRows.{hit_items, is_there};

use knn_plan::Plan;
use nearest_query::nearest;
use std::alloc::Global;
use std::marker::Sync;
use std::thread::Threads;
use table_query::project;
use table_version::TableVersion;
use topk_merge::{Gate, Hit};
use vec_base::{List, Memory, Steps, Value};

/// The items of the rows of hits.
fn hit_rows(
    alloc: Global,
    table: &TableVersion,
    plan: &Plan,
    hits: &[Hit],
    steps: &mut Steps,
) -> Result<List<List<Value>>, Memory>
    requires plan { IsPlanFor table.now.table.schema.columns plan.now }
    requires there { list_all (is_there table.now.table) hits.now ≡ true }
    ensures rows { IfOk result (λ rows. rows ≡ map (hit_items table.now.table plan.now.select.items) hits.now) }
    ensures reads { IfOk result (λ _. steps.new.reads ≤ steps.old.reads + length hits.now * row_reads table.now.table plan.now.select) }
    ensures pieces { steps.new.pieces ≡ steps.old.pieces }
{
    let mut rows = Vec::with_capacity(alloc, hits.len())?;
    for hit in hits {
        rows.push(project(alloc, table, plan, hit.rowid, hit.distance, steps)?)?;
    }
    Ok(List::from_vec(rows))
}

/// The rows that a SELECT with a MATCH answers, each as its items. The search goes over chunks in as many pieces as there are workers, each of
/// which is told to the gate.
pub fn nearest_rows<G: Gate, R: Threads + Sync>(
    rt: &R,
    alloc: Global,
    table: &TableVersion,
    plan: &Plan,
    workers: u8,
    gate: &G,
    steps: &mut Steps,
) -> Result<List<List<Value>>, Memory>
    requires plan { IsPlanFor table.now.table.schema.columns plan.now }
    requires nearest { is_some plan.now.target ≡ true }
    requires workers { 1 ≤ workers }
    ensures rows { IfOk result (λ rows. rows ≡ answer (plain table.now.table) plan.now.select) }
    ensures reads { IfOk result (λ _. steps.new.reads ≤ steps.old.reads + most_reads table.now.table plan.now.select) }
    ensures pieces { IfOk result (λ _. min (steps.old.pieces + min workers (length (wanted_chunks table.now.table plan.now.select.where_terms))) LAST_COUNT ≤ steps.new.pieces) }
    ensures most { IfOk result (λ _. steps.new.pieces ≤ steps.old.pieces + min workers (length (wanted_chunks table.now.table plan.now.select.where_terms))) }
{
    table.known();
    let hits = nearest(rt, alloc, table, plan, workers, gate, steps)?;
    hit_rows(alloc, table, plan, hits.as_slice(), steps)
}
