//! Requests other than statements.
ghost use Rattle.std.specs.Prelude.{◌≡◌, ◌≤◌, ◌⊎◌, false, MatchOption, None, Some};
ghost use Rattle.vec_base.specs.declared.refusal.Refusal.TheVariants.{WantOfMemory};
ghost use Rattle.row_model.specs.Check.{is_nearest};
ghost use Rattle.row_model.specs.Machine.{cursor_of, on_session};
ghost use Rattle.row_model.specs.Step.{answer_of};
ghost use Rattle.row_model.specs.WellFormed.{IsWellFormedSelect};
ghost use Rattle.row_model.specs.declared.request.Reply.TheVariants.{Refused};
ghost use Rattle.row_model.specs.declared.request.Request.TheVariants.{CloseCursor, CloseSession, Fetch, OpenCursor};
ghost use Rattle.txn_core.specs.Counting.{InSession};
ghost use Rattle.txn_core.specs.Schemas.{seen_schema};
ghost use Rattle.txn_reads.specs.Advancing.{advanced};
ghost use Rattle.txn_reads.specs.Searches.{Counts};
ghost use Rattle.txn_sessions.specs.Seen.{state_of};
ghost use Rattle.txn_sessions.specs.Sound.{IsSound};
ghost use Rattle.txn_sessions.specs.Takes.{Takes, TakesOrWants};

use row_model::{Reply, Schema, Select};
use std::alloc::Global;
use std::marker::Sync;
use std::thread::Threads;
use topk_merge::Gate;
use txn_reads::{advance, fetch, open_cursor, page, schema_seen};
use txn_sessions::Machine;
use vec_base::{Refusal, Steps, Txt};

/// Closes the session of an id.
pub(crate) fn close_session_of(machine: &mut Machine, session: u32) -> Reply
    requires sound { IsSound machine.old }
    ensures { Takes machine.old (answer_of (state_of machine.old) (CloseSession session)) result machine.new }
{
    match machine.place_of(session) {
        Some(at) => machine.close_session(at),
        None => Reply::Refused(Refusal::NoSession),
    }
}

/// Opens a cursor in the session of an id.
pub(crate) fn open_cursor_in<G: Gate, R: Threads + Sync>(
    rt: &R,
    alloc: Global,
    machine: &mut Machine,
    session: u32,
    select: Select,
    workers: u8,
    gate: &G,
    steps: &mut Steps,
) -> Reply
    requires sound { IsSound machine.old }
    requires formed { IsWellFormedSelect select }
    requires workers { 1 ≤ workers }
    ensures turn { TakesOrWants machine.old (answer_of (state_of machine.old) (OpenCursor session select)) result machine.new }
    ensures free { is_nearest select.where_terms ≡ false → Takes machine.old (answer_of (state_of machine.old) (OpenCursor session select)) result machine.new }
    ensures counts { InSession (state_of machine.old) session (λ s. Counts (state_of machine.old) s select workers result steps.old steps.new) }
{
    match machine.place_of(session) {
        Some(at) => open_cursor(rt, alloc, machine, at, select, workers, gate, steps),
        None => Reply::Refused(Refusal::NoSession),
    }
}

/// The next rows of a cursor in the session of an id. Nothing is passed.
pub(crate) fn page_in(
    alloc: Global,
    machine: &Machine,
    session: u32,
    cursor: u32,
    count: u16,
) -> Reply
    requires sound { IsSound machine.now }
    ensures { ((answer_of (state_of machine.now) (Fetch session cursor count)).0 ≡ result) ⊎ (result ≡ Refused WantOfMemory) }
{
    match machine.place_of(session) {
        Some(at) => page(alloc, machine, at, cursor, count),
        None => Reply::Refused(Refusal::NoSession),
    }
}

/// Passes the next rows of a cursor in the session of an id.
pub(crate) fn advance_in(machine: &mut Machine, session: u32, cursor: u32, count: u16) -> Reply
    requires sound { IsSound machine.old }
    ensures { Takes machine.old (on_session (state_of machine.old) session (λ s. advanced count (state_of machine.old) s (cursor_of cursor s.cursors))) result machine.new }
{
    match machine.place_of(session) {
        Some(at) => advance(machine, at, cursor, count),
        None => Reply::Refused(Refusal::NoSession),
    }
}

/// The next rows of a cursor in the session of an id, which are passed.
pub(crate) fn fetch_in(
    alloc: Global,
    machine: &mut Machine,
    session: u32,
    cursor: u32,
    count: u16,
) -> Reply
    requires sound { IsSound machine.old }
    ensures { TakesOrWants machine.old (answer_of (state_of machine.old) (Fetch session cursor count)) result machine.new }
{
    match machine.place_of(session) {
        Some(at) => fetch(alloc, machine, at, cursor, count),
        None => Reply::Refused(Refusal::NoSession),
    }
}

/// Closes a cursor in the session of an id.
pub(crate) fn close_cursor_in(machine: &mut Machine, session: u32, cursor: u32) -> Reply
    requires sound { IsSound machine.old }
    ensures { Takes machine.old (answer_of (state_of machine.old) (CloseCursor session cursor)) result machine.new }
{
    match machine.place_of(session) {
        Some(at) => machine.close_cursor(at, cursor),
        None => Reply::Refused(Refusal::NoSession),
    }
}

/// The schema of the table of the name that the session of an id sees.
pub(crate) fn schema_in<'a>(machine: &'a Machine, session: u32, table: &Txt) -> Option<&'a Schema>
    ensures { MatchOption result (seen_schema (state_of machine.now) session table.now ≡ None) (λ schema. seen_schema (state_of machine.now) session table.now ≡ Some schema.now) }
{
    let at = machine.place_of(session)?;
    schema_seen(machine, at, table)
}
