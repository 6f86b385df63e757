//! SELECT and EXPLAIN.
ghost use Rattle.std.specs.Prelude.{◌≡◌, ◌<◌, ◌≤◌, ◌⊎◌, ◌++◌, IfErr, IfOk, None, Some, length};
ghost use Rattle.vec_base.specs.declared.refusal.Refusal.TheVariants.{WantOfMemory};
ghost use Rattle.row_model.specs.Answer.{answer, shape_of};
ghost use Rattle.row_model.specs.Check.{check_select};
ghost use Rattle.row_model.specs.RefusalOrder.{first, listed};
ghost use Rattle.row_model.specs.Step.{explained, found, selected, too_many};
ghost use Rattle.row_model.specs.WellFormed.{IsWellFormedSelect};
ghost use Rattle.row_model.specs.declared.request.Reply.TheVariants.{Refused};
ghost use Rattle.row_model.specs.declared.request.Shape.TheVariants.{Nearest};
ghost use Rattle.shadow_records.specs.PlacedTables.{plain};
ghost use Rattle.txn_reads.specs.Searches.{Counts};
ghost use Rattle.txn_reads.specs.inner.TableSearches.{CountsSearch};
ghost use Rattle.txn_sessions.specs.Seen.{session_at, state_of};

use crate::seen::{plan_over, seen_table};
use row_model::{Reply, Select};
use std::alloc::Global;
use std::marker::Sync;
use std::thread::Threads;
use table_answers::select_rows;
use table_version::TableVersion;
use topk_merge::Gate;
use txn_sessions::Machine;
use vec_base::{List, Refusal, Steps, Value};

/// The rows that a SELECT answers of a table, or the first of what refuses it.
fn rows_of<G: Gate, R: Threads + Sync>(
    rt: &R,
    alloc: Global,
    table: &TableVersion,
    select: Select,
    workers: u8,
    gate: &G,
    steps: &mut Steps,
) -> Result<List<List<Value>>, Refusal>
    requires formed { IsWellFormedSelect select }
    requires workers { 1 ≤ workers }
    ensures rows { IfOk result (λ rows. rows ≡ answer (plain table.now.table) select) }
    ensures welcome { IfOk result (λ _. first (listed (check_select table.now.table.schema.columns select) ++ too_many select (length (answer (plain table.now.table) select))) ≡ None) }
    ensures refused { IfErr result (λ refusal. (first (listed (check_select table.now.table.schema.columns select) ++ too_many select (length (answer (plain table.now.table) select))) ≡ Some refusal) ⊎ (refusal ≡ WantOfMemory)) }
    ensures counts { IfOk result (λ rows. shape_of table.now.table.schema.columns select ≡ Nearest → CountsSearch table.now.table select workers steps.old steps.new) }
{
    match plan_over(table, select) {
        Ok(plan) => select_rows(rt, alloc, table, &plan, workers, gate, steps),
        Err(refusal) => Err(refusal),
    }
}

/// Answers a SELECT in a session.
pub fn select<G: Gate, R: Threads + Sync>(
    rt: &R,
    alloc: Global,
    machine: &Machine,
    at: usize,
    select: Select,
    workers: u8,
    gate: &G,
    steps: &mut Steps,
) -> Reply
    requires at { at < length machine.now.sessions.items }
    requires formed { IsWellFormedSelect select }
    requires workers { 1 ≤ workers }
    ensures reply { (selected select (state_of machine.now) (found select.table (state_of machine.now) (session_at machine.now at)) ≡ (result, state_of machine.now)) ⊎ (result ≡ Refused WantOfMemory) }
    ensures counts { Counts (state_of machine.now) (session_at machine.now at) select workers result steps.old steps.new }
{
    let Some(seen) = seen_table(machine, at, &select.table) else {
        return Reply::Refused(Refusal::NoTable);
    };
    match rows_of(rt, alloc, seen.version, select, workers, gate, steps) {
        Ok(rows) => Reply::Rows(rows),
        Err(refusal) => Reply::Refused(refusal),
    }
}

/// How a SELECT would be carried out in a session. It takes no memory.
pub fn explain(machine: &Machine, at: usize, select: Select) -> Reply
    requires at { at < length machine.now.sessions.items }
    requires formed { IsWellFormedSelect select }
    ensures { explained select (state_of machine.now) (found select.table (state_of machine.now) (session_at machine.now at)) ≡ (result, state_of machine.now) }
{
    let Some(seen) = seen_table(machine, at, &select.table) else {
        return Reply::Refused(Refusal::NoTable);
    };
    match plan_over(seen.version, select) {
        Ok(plan) => Reply::Planned(plan.shape()),
        Err(refusal) => Reply::Refused(refusal),
    }
}
