//! How many places the shelf has after many commits.
ghost use Rattle.std.specs.Prelude.{◌≡◌, IsTrue, None};
ghost use Rattle.std.specs.FinMap.{get};
ghost use Rattle.vec_base.specs.declared.shadow.ShadowKey.{ShadowKey as Key};
ghost use Rattle.row_model.specs.Step.{answer_of};
ghost use Rattle.row_model.specs.Valid.{IsValidState};
ghost use Rattle.row_model.specs.WellFormed.{IsWellFormed, IsWellFormedRequest};
ghost use Rattle.row_model.specs.declared.request.Request.TheVariants.{Execute};
ghost use Rattle.txn_commits.specs.Keeping.{meanings};
ghost use Rattle.txn_core.specs.Kept.{IsKept};
ghost use Rattle.txn_sessions.specs.Lookups.{IsAt};
ghost use Rattle.txn_sessions.specs.Seen.{state_of};
ghost use Rattle.txn_sessions.specs.Sound.{IsSound};
ghost use Rattle.txn_sessions.specs.Takes.{executed_at};
ghost use Rattle.txn_sessions.specs.Turns.{TurnsToOrWants};

use crate::memory_engine::keeper_over;
use row_model::{Reply, Statement};
use shadow_keeper::Keeper;
use sql_reader::read_statement;
use std::alloc::Global;
use std::test::Fail;
use txn_commits::finish;
use txn_sessions::{Machine, Turn};
use txn_writes::{create, insert, update};
use vec_base::{List, Memory, Refusal};
use version_shelf::{Held, Shelf};

/// A statement that these tests do not execute.
fn refuse(machine: &mut Machine, at: usize, _statement: Statement) -> Turn
    requires { IsSound machine.old }
    ensures { TurnsToOrWants machine.old (executed_at machine.old at _statement) result machine.new }
{
    let _commits = machine.commits;
    Turn::Answered(Reply::Refused(Refusal::WantOfMemory))
}

/// A statement in the session at a place.
fn turn_at(alloc: Global, machine: &mut Machine, at: usize, statement: Statement) -> Turn
    requires sound { IsSound machine.old }
    requires at { IsAt machine.old.sessions.items at }
    requires valid { IsValidState (state_of machine.old) }
    requires formed { IsWellFormed statement }
    ensures { TurnsToOrWants machine.old (executed_at machine.old at statement) result machine.new }
{
    match statement {
        Statement::Create(name, schema) => create(machine, alloc, at, name, schema),
        Statement::Insert(statement) => insert(machine, alloc, at, &statement),
        Statement::Update(statement) => update(machine, alloc, at, statement),
        other => refuse(machine, at, other),
    }
}

/// A statement in the session of an id.
fn turn_of(alloc: Global, machine: &mut Machine, session: u32, statement: Statement) -> Turn
    requires sound { IsSound machine.old }
    requires valid { IsValidState (state_of machine.old) }
    requires formed { IsWellFormed statement }
    ensures { TurnsToOrWants machine.old (answer_of (state_of machine.old) (Execute session statement)) result machine.new }
{
    match machine.place_of(session) {
        Some(at) => turn_at(alloc, machine, at, statement),
        None => Turn::Answered(Reply::Refused(Refusal::NoSession)),
    }
}

/// A statement in the session of an id, which is committed.
fn commit<K: Keeper>(
    alloc: Global,
    machine: &mut Machine,
    keeper: &mut K,
    session: u32,
    statement: Statement,
) -> Reply
    requires kept { IsKept (meanings K.ended K.tells K.tables K.faults K.stopped K.moment K.stopped_since) machine.old keeper.old }
    requires formed { IsWellFormedRequest (Execute session statement) }
    ensures { IsKept (meanings K.ended K.tells K.tables K.faults K.stopped K.moment K.stopped_since) machine.new keeper.new }
{
    let turn = turn_of(alloc, machine, session, statement);
    finish(alloc, machine, keeper, turn)
}

/// A session is opened.
fn open_one<K: Keeper>(alloc: Global, machine: &mut Machine, keeper: &mut K) -> Reply
    requires { IsKept (meanings K.ended K.tells K.tables K.faults K.stopped K.moment K.stopped_since) machine.old keeper.old }
    ensures { IsKept (meanings K.ended K.tells K.tables K.faults K.stopped K.moment K.stopped_since) machine.new keeper.new }
{
    let turn = Turn::Answered(machine.open_session(alloc));
    finish(alloc, machine, keeper, turn)
}

/// A machine without tables beside a keeper without records.
fn begin<K: Keeper>(alloc: Global, keeper: &K) -> Machine
    requires ended { IsTrue (K.ended keeper.now) }
    requires empty { IsTrue (K.tells keeper.now) → (key : Key) → get (K.tables keeper.now) key ≡ None }
    ensures { IsKept (meanings K.ended K.tells K.tables K.faults K.stopped K.moment K.stopped_since) result keeper.now }
{
    Machine::new(alloc, Shelf::new(alloc), Held::none())
}

/// The session 1 commits the statement of a text so many times.
fn repeat<K: Keeper>(
    alloc: Global,
    machine: &mut Machine,
    keeper: &mut K,
    text: &str,
    count: u32,
) -> Result<(), Refusal>
    requires { IsKept (meanings K.ended K.tells K.tables K.faults K.stopped K.moment K.stopped_since) machine.old keeper.old }
    ensures { IsKept (meanings K.ended K.tells K.tables K.faults K.stopped K.moment K.stopped_since) machine.new keeper.new }
{
    for _ in 0..count {
        match read_statement(alloc, text.as_bytes(), &List::new(alloc)) {
            Ok(statement) => {
                if let Reply::Refused(refusal) = commit(alloc, machine, keeper, 1, statement) {
                    return Err(refusal);
                }
            }
            Err(refusal) => return Err(refusal),
        }
    }
    Ok(())
}

/// How many commits were made and how many places there are, where a table with a row is changed so many times.
fn fill<K: Keeper>(
    alloc: Global,
    machine: &mut Machine,
    keeper: &mut K,
    changes: u32,
) -> Result<(u64, usize), Refusal>
    requires { IsKept (meanings K.ended K.tells K.tables K.faults K.stopped K.moment K.stopped_since) machine.old keeper.old }
{
    open_one(alloc, machine, keeper);
    repeat(
        alloc,
        machine,
        keeper,
        "CREATE VIRTUAL TABLE v USING vec0(a int8[2])",
        1,
    )?;
    repeat(
        alloc,
        machine,
        keeper,
        "INSERT INTO v(a) VALUES (vec_int8('[1,2]'))",
        1,
    )?;
    repeat(
        alloc,
        machine,
        keeper,
        "UPDATE v SET a = vec_int8('[0,1]')",
        changes,
    )?;
    Ok((machine.commits, machine.shelf.places()))
}

/// How many commits were made and how many places there are after a thousand changes of a row, each a commit of its own.
fn after_many(alloc: Global) -> Result<(u64, usize), Refusal> {
    match keeper_over(alloc, List::new(alloc)) {
        Ok(mut keeper) => {
            let mut machine = begin(alloc, &keeper);
            fill(alloc, &mut machine, &mut keeper, 1_000)
        }
        Err(Memory) => Err(Refusal::WantOfMemory),
    }
}

/// A place that no catalog names any more is taken again.
#[test]
fn places_are_used_again(rt: HostRuntime) -> Result<(), Fail> {
    let (commits, places) = after_many(rt.alloc())?;
    assert_eq!(rt; commits, 1_002);
    assert!(rt; places <= 8);
    Ok(())
}
