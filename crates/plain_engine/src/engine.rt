//! The plain engine: lists with copies, which does what the definitions say and keeps nothing beside the rows.
ghost use Rattle.std.specs.Prelude.{◌≡◌, IfOk};
ghost use Rattle.row_model.specs.declared.request.Request.TheVariants.{CloseCursor, CloseSession, Execute, Fetch, OpenCursor};
ghost use Rattle.row_model.specs.Machine.{first_state, no_tables};
ghost use Rattle.row_model.specs.Step.{answer_of, executed, StepsInMemory};
ghost use Rattle.row_model.specs.Valid.{IsValidState};
ghost use Rattle.row_model.specs.WellFormed.{IsWellFormedRequest};
ghost use Rattle.plain_engine.specs.inner.Machines.{Answers, IsAt, session_at, state_of};
ghost use Rattle.plain_engine.specs.inner.OneValidity.{state_prop};

use crate::machine::{Machine, place_of};
use crate::reads::{explain, select};
use row_model::{Catalog, Reply, Request, Select, Statement};
use std::alloc::Global;
use std::marker::Model;
use vec_base::{List, Memory, Refusal};

impl Machine {
    /// Executes a statement in the session at the place.
    fn execute(&mut self, alloc: Global, at: usize, statement: Statement) -> Reply
        requires at { IsAt self.old.sessions.items at }
        requires valid { IsValidState (state_of self.old) }
        ensures { Answers (executed (state_of self.old) (session_at self.old at) statement) self.old result self.new }
    {
        match statement {
            Statement::Create(name, schema) => self.create(alloc, at, name, schema),
            Statement::Drop(name) => self.drop_table(alloc, at, &name),
            Statement::Insert(statement) => self.insert(alloc, at, &statement),
            Statement::Update(statement) => self.update(alloc, at, &statement),
            Statement::Delete(statement) => self.delete(alloc, at, &statement),
            Statement::Select(statement) => select(alloc, self.seen(at), &statement),
            Statement::Explain(statement) => explain(self.seen(at), &statement),
            Statement::Begin(immediate) => self.begin(alloc, at, immediate),
            Statement::Commit => self.commit(alloc, at),
            Statement::Rollback => self.roll_back(alloc, at),
            Statement::RollbackTo(name) => self.roll_back_to(alloc, at, &name),
            Statement::Savepoint(name) => self.save(alloc, at, name),
            Statement::Release(name) => self.release(alloc, at, &name),
        }
    }

    /// Executes a statement in the session of the id.
    fn execute_in(&mut self, alloc: Global, id: u32, statement: Statement) -> Reply
        requires valid { IsValidState (state_of self.old) }
        ensures { Answers (answer_of (state_of self.old) (Execute id statement)) self.old result self.new }
    {
        match place_of(self.sessions.as_slice(), id) {
            Some(at) => self.execute(alloc, at, statement),
            None => Reply::Refused(Refusal::NoSession),
        }
    }

    /// Closes the session of the id.
    fn close_in(&mut self, id: u32) -> Reply
        ensures { Answers (answer_of (state_of self.old) (CloseSession id)) self.old result self.new }
    {
        match place_of(self.sessions.as_slice(), id) {
            Some(at) => self.close(at),
            None => Reply::Refused(Refusal::NoSession),
        }
    }

    /// Opens a cursor in the session of the id.
    fn open_cursor_in(&mut self, alloc: Global, id: u32, select: &Select) -> Reply
        requires valid { IsValidState (state_of self.old) }
        ensures { Answers (answer_of (state_of self.old) (OpenCursor id select.now)) self.old result self.new }
    {
        match place_of(self.sessions.as_slice(), id) {
            Some(at) => self.open_cursor(alloc, at, select),
            None => Reply::Refused(Refusal::NoSession),
        }
    }

    /// Answers the next rows of a cursor in the session of the id.
    fn fetch_in(&mut self, alloc: Global, id: u32, number: u32, count: u16) -> Reply
        ensures { Answers (answer_of (state_of self.old) (Fetch id number count)) self.old result self.new }
    {
        match place_of(self.sessions.as_slice(), id) {
            Some(at) => self.fetch(alloc, at, number, count),
            None => Reply::Refused(Refusal::NoSession),
        }
    }

    /// Closes a cursor in the session of the id.
    fn close_cursor_in(&mut self, id: u32, number: u32) -> Reply
        ensures { Answers (answer_of (state_of self.old) (CloseCursor id number)) self.old result self.new }
    {
        match place_of(self.sessions.as_slice(), id) {
            Some(at) => self.close_cursor(at, number),
            None => Reply::Refused(Refusal::NoSession),
        }
    }

    /// Answers a request.
    fn answer(&mut self, alloc: Global, request: Request) -> Reply
        requires valid { IsValidState (state_of self.old) }
        ensures { Answers (answer_of (state_of self.old) request) self.old result self.new }
    {
        match request {
            Request::OpenSession => self.open(alloc),
            Request::CloseSession(id) => self.close_in(id),
            Request::Execute(id, statement) => self.execute_in(alloc, id, statement),
            Request::OpenCursor(id, statement) => self.open_cursor_in(alloc, id, &statement),
            Request::Fetch(id, number, count) => self.fetch_in(alloc, id, number, count),
            Request::CloseCursor(id, number) => self.close_cursor_in(id, number),
        }
    }
}

/// An engine over lists with copies. It has no store. Contracts see it as the state of the machine.
#[derive(Drop)]
pub struct PlainEngine {
    alloc: Global,
    machine: Machine,
    ghost valid: { IsValidState (state_of machine) } by { state_prop (state_of machine) },
}

impl Model for PlainEngine {
    ghost use Rattle.row_model.specs.declared.state.State.{State as StateOf};
    ghost use Rattle.plain_engine.specs.inner.Machines.{state_of};

    ghost Value = { StateOf };

    ghost view = { λ engine. state_of engine.machine };
}

impl PlainEngine {
    /// An engine without tables and sessions. It takes no memory yet.
    pub fn new(alloc: Global) -> Result<PlainEngine, Memory>
        ensures { IfOk result (λ engine. engine ≡ first_state no_tables) }
    {
        let catalog = Catalog {
            tables: List::new(alloc),
        };
        let machine = Machine {
            catalog,
            commits: 0,
            last_id: 0,
            sessions: Vec::new(alloc),
        };
        Ok(PlainEngine { alloc, machine })
    }

    /// Answers a request whose statement is well formed. A refusal leaves the state.
    pub fn answer(&mut self, request: Request) -> Reply
        requires well_formed { IsWellFormedRequest request }
        ensures { StepsInMemory self.old request result self.new }
    {
        self.machine.answer(self.alloc, request)
    }
}
