//! The answer of a SELECT.
ghost use Rattle.std.specs.Prelude.{◌≡◌, ◌+◌, ◌≤◌, ◌⊎◌, [], IfErr, IfOk, Some, length, min};
ghost use Rattle.vec_base.specs.declared.limits.TheConstants.{LAST_COUNT};
ghost use Rattle.vec_base.specs.declared.refusal.Refusal.TheVariants.{WantOfMemory};
ghost use Rattle.knn_plan.specs.Plans.{IsPlanFor};
ghost use Rattle.nearest_query.specs.Searches.{wanted_chunks};
ghost use Rattle.row_model.specs.Answer.{answer};
ghost use Rattle.row_model.specs.RefusalOrder.{first};
ghost use Rattle.row_model.specs.Step.{too_many};
ghost use Rattle.row_model.specs.declared.request.Shape.TheVariants.{Nearest};
ghost use Rattle.shadow_records.specs.PlacedTables.{plain};
ghost use Rattle.table_answers.specs.Reads.{most_reads};

use crate::nearest::nearest_rows;
use crate::point::point_rows;
use crate::scan::scan_rows;
use knn_plan::Plan;
use row_model::Shape;
use std::alloc::Global;
use std::marker::Sync;
use std::thread::Threads;
use table_version::TableVersion;
use topk_merge::Gate;
use vec_base::{List, Memory, Refusal, Steps, Value};

/// The rows that a SELECT answers, each as its items. Where they are too many for a reply it is refused before one is made. Of a SELECT with a
/// MATCH the work is counted.
pub fn select_rows<G: Gate, R: Threads + Sync>(
    rt: &R,
    alloc: Global,
    table: &TableVersion,
    plan: &Plan,
    workers: u8,
    gate: &G,
    steps: &mut Steps,
) -> Result<List<List<Value>>, Refusal>
    requires plan { IsPlanFor table.now.table.schema.columns plan.now }
    requires workers { 1 ≤ workers }
    ensures rows { IfOk result (λ rows. rows ≡ answer (plain table.now.table) plan.now.select) }
    ensures few { IfOk result (λ _. too_many plan.now.select (length (answer (plain table.now.table) plan.now.select)) ≡ []) }
    ensures refused { IfErr result (λ refusal. (first (too_many plan.now.select (length (answer (plain table.now.table) plan.now.select))) ≡ Some refusal) ⊎ (refusal ≡ WantOfMemory)) }
    ensures reads { IfOk result (λ _. plan.now.shape ≡ Nearest → steps.new.reads ≤ steps.old.reads + most_reads table.now.table plan.now.select) }
    ensures pieces { IfOk result (λ _. plan.now.shape ≡ Nearest → min (steps.old.pieces + min workers (length (wanted_chunks table.now.table plan.now.select.where_terms))) LAST_COUNT ≤ steps.new.pieces) }
    ensures most { IfOk result (λ _. plan.now.shape ≡ Nearest → steps.new.pieces ≤ steps.old.pieces + min workers (length (wanted_chunks table.now.table plan.now.select.where_terms))) }
{
    table.known();
    match plan.shape() {
        Shape::Nearest => match nearest_rows(rt, alloc, table, plan, workers, gate, steps) {
            Ok(rows) => Ok(rows),
            Err(Memory) => Err(Refusal::WantOfMemory),
        },
        Shape::Point => match point_rows(alloc, table, plan, steps) {
            Ok(rows) => Ok(rows),
            Err(Memory) => Err(Refusal::WantOfMemory),
        },
        Shape::Scan => scan_rows(alloc, table, plan),
    }
}
