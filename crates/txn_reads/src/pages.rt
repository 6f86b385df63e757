//! Pages of cursors.
ghost use Rattle.std.specs.Prelude.{◌≡◌, ◌<◌, ◌==◌, ◌⊎◌, IfOk, drop, length, take};
ghost use Rattle.vec_base.specs.declared.refusal.Refusal.TheVariants.{WantOfMemory};
ghost use Rattle.row_model.specs.Machine.{cursor_of};
ghost use Rattle.row_model.specs.Step.{fetched};
ghost use Rattle.row_model.specs.declared.request.Reply.TheVariants.{Refused};
ghost use Rattle.snapshot_cursor.specs.Left.{rows_left};
ghost use Rattle.txn_reads.specs.Advancing.{advanced};
ghost use Rattle.txn_reads.specs.inner.Passing.{IsPassed, Passes};
ghost use Rattle.txn_sessions.specs.Lookups.{IsAt};
ghost use Rattle.table_rows.specs.ScanRows.{scan_rows};
ghost use Rattle.txn_sessions.specs.Seen.{rows_in, rows_over, session_at, state_of, version_at};
ghost use Rattle.txn_sessions.specs.Sessions.{open_at};
ghost use Rattle.txn_sessions.specs.Sound.{IsOrigin, IsScan, IsSound};
ghost use Rattle.txn_sessions.specs.Takes.{Takes, TakesOrWants};

use knn_plan::Plan;
use row_model::Reply;
use snapshot_cursor::{Cursor, NoRows};
use std::alloc::Global;
use table_rows::TableRows;
use txn_sessions::{Machine, OpenCursor, Origin};
use vec_base::{List, Memory, Refusal, Value};
use version_shelf::{Held, Shelf};

/// The rows of a scan over the table under a number.
fn rows_under<'a>(shelf: &'a Shelf, held: &Held, number: u32, plan: &'a Plan) -> TableRows<'a>
    requires { IsScan shelf.now held.now number plan.now }
    ensures { scan_rows result.plan.now result.table.now.table ≡ rows_in plan.now (version_at shelf.now held.now number) }
{
    let Some(table) = shelf.version(held, number) else {
        unreachable!();
    };
    TableRows { table, plan }
}

/// The next rows of a cursor, so many or all.
fn next_rows(
    alloc: Global,
    shelf: &Shelf,
    cursor: &OpenCursor,
    count: u16,
) -> Result<List<List<Value>>, Memory>
    requires origin { IsOrigin shelf.now cursor.now.origin }
    ensures { IfOk result (λ rows. rows ≡ take count (rows_left cursor.now.cursor (rows_over shelf.now cursor.now.origin))) }
{
    match &cursor.origin {
        Origin::Kept => cursor.cursor.page(alloc, &NoRows, count),
        Origin::Table(held, number, plan) => {
            let rows = rows_under(shelf, held, *number, plan);
            cursor.cursor.page(alloc, &rows, count)
        }
    }
}

/// Whether no row is left of a cursor behind the next ones.
fn ends_after(shelf: &Shelf, cursor: &OpenCursor, count: u16) -> bool
    requires origin { IsOrigin shelf.now cursor.now.origin }
    ensures { result ≡ (length (drop count (rows_left cursor.now.cursor (rows_over shelf.now cursor.now.origin))) == 0) }
{
    match &cursor.origin {
        Origin::Kept => cursor.cursor.done_after(&NoRows, count),
        Origin::Table(held, number, plan) => {
            let rows = rows_under(shelf, held, *number, plan);
            cursor.cursor.done_after(&rows, count)
        }
    }
}

/// Passes the next rows of a cursor. It takes no memory.
fn pass(shelf: &Shelf, cursor: &mut OpenCursor, count: u16)
    requires origin { IsOrigin shelf.now cursor.old.origin }
    ensures { IsPassed shelf.now count cursor.old cursor.new }
{
    match &cursor.origin {
        Origin::Kept => cursor.cursor.advance(&NoRows, count),
        Origin::Table(held, number, plan) => {
            let rows = rows_under(shelf, held, *number, plan);
            cursor.cursor.advance(&rows, count);
        }
    }
}

/// Passes the next rows of the cursor at a place.
fn pass_at(machine: &mut Machine, at: usize, place: usize, count: u16)
    requires sound { IsSound machine.old }
    requires at { at < length machine.old.sessions.items }
    requires place { place < length (open_at machine.old.sessions.items at).cursors }
    ensures { Passes machine.old at place count machine.new }
{
    let none = OpenCursor {
        number: 0,
        cursor: Cursor::open_scan(0),
        origin: Origin::Kept,
    };
    let mut cursor = machine.exchange_cursor(at, place, none);
    pass(&machine.shelf, &mut cursor, count);
    let _ = machine.exchange_cursor(at, place, cursor);
}

/// The next rows of a session's cursor, so many or all, and whether none is left behind them. Nothing is passed.
pub fn page(alloc: Global, machine: &Machine, at: usize, number: u32, count: u16) -> Reply
    requires sound { IsSound machine.now }
    requires at { at < length machine.now.sessions.items }
    ensures { ((fetched count (state_of machine.now) (session_at machine.now at) (cursor_of number (session_at machine.now at).cursors)).0 ≡ result) ⊎ (result ≡ Refused WantOfMemory) }
{
    let Some(place) = machine.cursor_place(at, number) else {
        return Reply::Refused(Refusal::NoCursor);
    };
    let cursor = &machine.sessions[at].cursors.as_slice()[place];
    match next_rows(alloc, &machine.shelf, cursor, count) {
        Ok(rows) => Reply::Page(rows, ends_after(&machine.shelf, cursor, count)),
        Err(Memory) => Reply::Refused(Refusal::WantOfMemory),
    }
}

/// Passes the next rows of a session's cursor. It takes no memory.
pub fn advance(machine: &mut Machine, at: usize, number: u32, count: u16) -> Reply
    requires sound { IsSound machine.old }
    requires at { IsAt machine.old.sessions.items at }
    ensures { Takes machine.old (advanced count (state_of machine.old) (session_at machine.old at) (cursor_of number (session_at machine.old at).cursors)) result machine.new }
{
    match machine.cursor_place(at, number) {
        Some(place) => {
            pass_at(machine, at, place, count);
            Reply::Done
        }
        None => Reply::Refused(Refusal::NoCursor),
    }
}

/// The next rows of a session's cursor, which are passed where they are answered.
pub fn fetch(alloc: Global, machine: &mut Machine, at: usize, number: u32, count: u16) -> Reply
    requires sound { IsSound machine.old }
    requires at { IsAt machine.old.sessions.items at }
    ensures { TakesOrWants machine.old (fetched count (state_of machine.old) (session_at machine.old at) (cursor_of number (session_at machine.old at).cursors)) result machine.new }
{
    match page(alloc, machine, at, number, count) {
        Reply::Page(rows, is_end) => {
            advance(machine, at, number, count);
            Reply::Page(rows, is_end)
        }
        refused => refused,
    }
}
