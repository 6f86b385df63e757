//! Statements in a session.
ghost use Rattle.std.specs.Prelude.{◌≡◌, ◌<◌, ◌≤◌, false, length, true};
ghost use Rattle.row_model.specs.Valid.{IsValidState};
ghost use Rattle.row_model.specs.WellFormed.{IsWellFormed};
ghost use Rattle.row_model.specs.Step.{answer_of};
ghost use Rattle.row_model.specs.declared.request.Request.TheVariants.{Execute};
ghost use Rattle.row_model.specs.declared.statement.Statement.TheVariants.{Explain, Select};
ghost use Rattle.txn_core.specs.Counting.{CountsStatement, InSession};
ghost use Rattle.txn_core.specs.Free.{needs_no_memory};
ghost use Rattle.txn_core.specs.inner.CountedTurns.{MeetsTurn};
ghost use Rattle.txn_reads.specs.Searches.{Counts};
ghost use Rattle.txn_sessions.specs.Lookups.{IsAt};
ghost use Rattle.txn_sessions.specs.Seen.{session_at, state_of};
ghost use Rattle.txn_sessions.specs.Sound.{IsSound};
ghost use Rattle.txn_sessions.specs.Takes.{executed_at};
ghost use Rattle.txn_sessions.specs.Turns.{TurnsTo, TurnsToOrWants};

use row_model::{Reply, Select as SelectRows, Statement};
use std::alloc::Global;
use std::marker::Sync;
use std::thread::Threads;
use topk_merge::Gate;
use txn_reads::{explain, select};
use txn_sessions::{Machine, Turn};
use txn_writes::{create, delete, drop_table, insert, update};
use vec_base::{Refusal, Steps};

/// A SELECT in a session.
#[tactic(auto, using(crate::proofs::ReadTurns::select_turn))]
fn select_turn<G: Gate, R: Threads + Sync>(
    rt: &R,
    alloc: Global,
    machine: &mut Machine,
    at: usize,
    statement: SelectRows,
    workers: u8,
    gate: &G,
    steps: &mut Steps,
) -> Turn
    requires sound { IsSound machine.old }
    requires at { at < length machine.old.sessions.items }
    requires formed { IsWellFormed (Select statement) }
    requires workers { 1 ≤ workers }
    ensures turn { TurnsToOrWants machine.old (executed_at machine.old at (Select statement)) result machine.new }
    ensures counts { MeetsTurn (λ reply. Counts (state_of machine.old) (session_at machine.old at) statement workers reply steps.old steps.new) result }
{
    Turn::Answered(select(rt, alloc, machine, at, statement, workers, gate, steps))
}

/// EXPLAIN in a session.
#[tactic(auto, using(crate::proofs::ReadTurns::explain_turn))]
fn explain_turn(machine: &mut Machine, at: usize, statement: SelectRows) -> Turn
    requires sound { IsSound machine.old }
    requires at { at < length machine.old.sessions.items }
    requires formed { IsWellFormed (Explain statement) }
    ensures { TurnsTo machine.old (executed_at machine.old at (Explain statement)) result machine.new }
{
    Turn::Answered(explain(machine, at, statement))
}

/// A statement that takes no memory, but for the commit that it may come to.
fn execute_free(machine: &mut Machine, at: usize, statement: Statement) -> Turn
    requires sound { IsSound machine.old }
    requires at { IsAt machine.old.sessions.items at }
    requires formed { IsWellFormed statement }
    requires free { needs_no_memory statement ≡ true }
    ensures { TurnsTo machine.old (executed_at machine.old at statement) result machine.new }
{
    match statement {
        Statement::Begin(immediate) => Turn::Answered(machine.begin(at, immediate)),
        Statement::Commit => machine.commit(at),
        Statement::Rollback => Turn::Answered(machine.roll_back(at)),
        Statement::RollbackTo(name) => Turn::Answered(machine.roll_back_to(at, &name)),
        Statement::Savepoint(name) => Turn::Answered(machine.save(at, name)),
        Statement::Release(name) => machine.release(at, &name),
        Statement::Explain(statement) => explain_turn(machine, at, statement),
        _ => unreachable!(),
    }
}

/// Whether a statement takes no memory.
fn is_free(statement: &Statement) -> bool
    ensures { result ≡ needs_no_memory statement.now }
{
    match statement {
        Statement::Begin(_) => true,
        Statement::Commit => true,
        Statement::Rollback => true,
        Statement::RollbackTo(_) => true,
        Statement::Savepoint(_) => true,
        Statement::Release(_) => true,
        Statement::Explain(_) => true,
        _ => false,
    }
}

/// A statement that takes memory.
fn execute_other<G: Gate, R: Threads + Sync>(
    rt: &R,
    alloc: Global,
    machine: &mut Machine,
    at: usize,
    statement: Statement,
    workers: u8,
    gate: &G,
    steps: &mut Steps,
) -> Turn
    requires sound { IsSound machine.old }
    requires at { IsAt machine.old.sessions.items at }
    requires valid { IsValidState (state_of machine.old) }
    requires formed { IsWellFormed statement }
    requires other { needs_no_memory statement ≡ false }
    requires workers { 1 ≤ workers }
    ensures turn { TurnsToOrWants machine.old (executed_at machine.old at statement) result machine.new }
    ensures counts { MeetsTurn (λ reply. CountsStatement (state_of machine.old) (session_at machine.old at) statement workers reply steps.old steps.new) result }
{
    match statement {
        Statement::Create(name, schema) => create(machine, alloc, at, name, schema),
        Statement::Drop(name) => drop_table(machine, at, &name),
        Statement::Insert(statement) => insert(machine, alloc, at, &statement),
        Statement::Update(statement) => update(machine, alloc, at, statement),
        Statement::Delete(statement) => delete(machine, alloc, at, statement),
        Statement::Select(statement) => select_turn(
            rt, alloc, machine, at, statement, workers, gate, steps,
        ),
        _ => unreachable!(),
    }
}

/// A statement in the session at a place.
fn execute_at<G: Gate, R: Threads + Sync>(
    rt: &R,
    alloc: Global,
    machine: &mut Machine,
    at: usize,
    statement: Statement,
    workers: u8,
    gate: &G,
    steps: &mut Steps,
) -> Turn
    requires sound { IsSound machine.old }
    requires at { IsAt machine.old.sessions.items at }
    requires valid { IsValidState (state_of machine.old) }
    requires formed { IsWellFormed statement }
    requires workers { 1 ≤ workers }
    ensures turn { TurnsToOrWants machine.old (executed_at machine.old at statement) result machine.new }
    ensures free { needs_no_memory statement ≡ true → TurnsTo machine.old (executed_at machine.old at statement) result machine.new }
    ensures counts { MeetsTurn (λ reply. CountsStatement (state_of machine.old) (session_at machine.old at) statement workers reply steps.old steps.new) result }
{
    if is_free(&statement) {
        return execute_free(machine, at, statement);
    }
    execute_other(rt, alloc, machine, at, statement, workers, gate, steps)
}

/// A statement in the session of an id.
pub(crate) fn execute_turn<G: Gate, R: Threads + Sync>(
    rt: &R,
    alloc: Global,
    machine: &mut Machine,
    session: u32,
    statement: Statement,
    workers: u8,
    gate: &G,
    steps: &mut Steps,
) -> Turn
    requires sound { IsSound machine.old }
    requires valid { IsValidState (state_of machine.old) }
    requires formed { IsWellFormed statement }
    requires workers { 1 ≤ workers }
    ensures turn { TurnsToOrWants machine.old (answer_of (state_of machine.old) (Execute session statement)) result machine.new }
    ensures free { needs_no_memory statement ≡ true → TurnsTo machine.old (answer_of (state_of machine.old) (Execute session statement)) result machine.new }
    ensures counts { MeetsTurn (λ reply. InSession (state_of machine.old) session (λ s. CountsStatement (state_of machine.old) s statement workers reply steps.old steps.new)) result }
{
    match machine.place_of(session) {
        Some(at) => execute_at(rt, alloc, machine, at, statement, workers, gate, steps),
        None => Turn::Answered(Reply::Refused(Refusal::NoSession)),
    }
}
