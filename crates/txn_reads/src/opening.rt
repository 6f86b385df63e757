//! Cursors that are opened.
ghost use Rattle.std.specs.Prelude.{◌≡◌, ◌<◌, ◌≤◌, IfErr, IfOk, Some, false, length};
ghost use Rattle.table_version.specs.Versions.{VersionState};
ghost use Rattle.knn_plan.specs.Plans.{IsPlanFor};
ghost use Rattle.row_model.specs.Answer.{answer};
ghost use Rattle.row_model.specs.Check.{is_nearest};
ghost use Rattle.row_model.specs.Step.{cursor_opened, found};
ghost use Rattle.row_model.specs.WellFormed.{IsWellFormedSelect};
ghost use Rattle.row_model.specs.declared.request.Reply.TheVariants.{Refused};
ghost use Rattle.row_model.specs.declared.request.Shape.TheVariants.{Nearest};
ghost use Rattle.shadow_records.specs.PlacedTables.{plain};
ghost use Rattle.snapshot_cursor.specs.Left.{rows_left};
ghost use Rattle.txn_reads.specs.Searches.{Counts};
ghost use Rattle.txn_reads.specs.inner.TableSearches.{CountsSearch};
ghost use Rattle.txn_sessions.specs.Lookups.{IsAt};
ghost use Rattle.txn_reads.specs.inner.CursorPlans.{IsPrepared, rows_by};
ghost use Rattle.txn_sessions.specs.Seen.{Versions, rows_over, session_at, state_of, version_at};
ghost use Rattle.txn_sessions.specs.Sound.{IsOrigin, IsScan, IsSound};
ghost use Rattle.txn_sessions.specs.Takes.{Takes, TakesOrWants};

use crate::seen::{plan_over, seen_table};
use knn_plan::Plan;
use row_model::{Reply, Select, Shape};
use snapshot_cursor::Cursor;
use std::alloc::Global;
use std::marker::Sync;
use std::thread::Threads;
use table_answers::nearest_rows;
use table_rows::open_scan;
use table_version::TableVersion;
use topk_merge::Gate;
use txn_sessions::{Machine, Origin};
use vec_base::{Memory, Refusal, Steps};
use version_shelf::Held;

/// A cursor over the rows that a SELECT answers: a place in a scan, or with a MATCH the rows themselves. Only these take memory.
fn cursor_over<G: Gate, R: Threads + Sync>(
    rt: &R,
    alloc: Global,
    table: &TableVersion,
    plan: &Plan,
    workers: u8,
    gate: &G,
    steps: &mut Steps,
) -> Result<Cursor, Memory>
    requires plan { IsPlanFor table.now.table.schema.columns plan.now }
    requires workers { 1 ≤ workers }
    ensures rows { IfOk result (λ cursor. rows_left cursor (rows_by plan.now.shape plan.now table.now.table) ≡ answer (plain table.now.table) plan.now.select) }
    ensures wants { IfErr result (λ _. plan.now.shape ≡ Nearest) }
    ensures counts { IfOk result (λ _. plan.now.shape ≡ Nearest → CountsSearch table.now.table plan.now.select workers steps.old steps.new) }
{
    match plan.shape() {
        Shape::Nearest => {
            let rows = nearest_rows(rt, alloc, table, plan, workers, gate, steps)?;
            Ok(Cursor::open_rows(rows))
        }
        Shape::Point => Ok(open_scan(table, plan)),
        Shape::Scan => Ok(open_scan(table, plan)),
    }
}

/// Over what the cursor of a plan goes.
fn origin_of(held: Held, number: u32, plan: Plan) -> Origin
    ensures rows { (shelf : Versions) (version : VersionState) → version_at shelf held number ≡ Some version → rows_over shelf result ≡ rows_by plan.shape plan version.table }
    ensures sound { (shelf : Versions) → IsScan shelf held number plan → IsOrigin shelf result }
{
    match plan.shape() {
        Shape::Nearest => Origin::Kept,
        Shape::Point => Origin::Table(held, number, plan),
        Shape::Scan => Origin::Table(held, number, plan),
    }
}

/// The plan of a SELECT that a cursor may be opened for, with the number of its table; or what refuses it.
fn prepared(machine: &Machine, at: usize, select: Select) -> Result<(u32, Plan), Refusal>
    requires at { at < length machine.now.sessions.items }
    requires formed { IsWellFormedSelect select }
    ensures refused { IfErr result (λ refusal. cursor_opened select (state_of machine.now) (session_at machine.now at) (found select.table (state_of machine.now) (session_at machine.now at)) ≡ (Refused refusal, state_of machine.now)) }
    ensures ready { IfOk result (λ ready. IsPrepared machine.now at ready.0 ready.1) }
    ensures select { IfOk result (λ ready. ready.1.select ≡ select) }
{
    let Some(seen) = seen_table(machine, at, &select.table) else {
        return Err(Refusal::NoTable);
    };
    match plan_over(seen.version, select) {
        Ok(plan) => match machine.cursor_refusal(at) {
            Some(refusal) => Err(refusal),
            None => Ok((seen.number, plan)),
        },
        Err(refusal) => Err(refusal),
    }
}

/// Opens a cursor for a plan.
fn open_over<G: Gate, R: Threads + Sync>(
    rt: &R,
    alloc: Global,
    machine: &mut Machine,
    at: usize,
    number: u32,
    plan: Plan,
    workers: u8,
    gate: &G,
    steps: &mut Steps,
) -> Reply
    requires sound { IsSound machine.old }
    requires at { IsAt machine.old.sessions.items at }
    requires prepared { IsPrepared machine.old at number plan }
    requires workers { 1 ≤ workers }
    ensures turn { TakesOrWants machine.old (cursor_opened plan.select (state_of machine.old) (session_at machine.old at) (found plan.select.table (state_of machine.old) (session_at machine.old at))) result machine.new }
    ensures free { (plan.shape ≡ Nearest → ⊥) → Takes machine.old (cursor_opened plan.select (state_of machine.old) (session_at machine.old at) (found plan.select.table (state_of machine.old) (session_at machine.old at))) result machine.new }
    ensures counts { Counts (state_of machine.old) (session_at machine.old at) plan.select workers result steps.old steps.new }
{
    let held = machine.seen(at);
    let Some(version) = machine.shelf.version(&held, number) else {
        unreachable!();
    };
    version.known();
    match cursor_over(rt, alloc, version, &plan, workers, gate, steps) {
        Ok(cursor) => machine.open_cursor(at, cursor, origin_of(held, number, plan)),
        Err(Memory) => Reply::Refused(Refusal::WantOfMemory),
    }
}

/// Opens a cursor over the rows that a SELECT answers in a session. Without a MATCH it takes no memory.
pub fn open_cursor<G: Gate, R: Threads + Sync>(
    rt: &R,
    alloc: Global,
    machine: &mut Machine,
    at: usize,
    select: Select,
    workers: u8,
    gate: &G,
    steps: &mut Steps,
) -> Reply
    requires sound { IsSound machine.old }
    requires at { IsAt machine.old.sessions.items at }
    requires formed { IsWellFormedSelect select }
    requires workers { 1 ≤ workers }
    ensures turn { TakesOrWants machine.old (cursor_opened select (state_of machine.old) (session_at machine.old at) (found select.table (state_of machine.old) (session_at machine.old at))) result machine.new }
    ensures free { is_nearest select.where_terms ≡ false → Takes machine.old (cursor_opened select (state_of machine.old) (session_at machine.old at) (found select.table (state_of machine.old) (session_at machine.old at))) result machine.new }
    ensures counts { Counts (state_of machine.old) (session_at machine.old at) select workers result steps.old steps.new }
{
    match prepared(machine, at, select) {
        Ok((number, plan)) => {
            open_over(rt, alloc, machine, at, number, plan, workers, gate, steps)
        }
        Err(refusal) => Reply::Refused(refusal),
    }
}
