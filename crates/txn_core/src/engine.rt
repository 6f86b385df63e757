//! The engine over a keeper.
ghost use Rattle.std.specs.Prelude.{◌≡◌, ◌≤◌, ◌⊎◌, IsTrue, MatchOption, None, Some, false, true};
ghost use Rattle.std.specs.FinMap.{get};
ghost use Rattle.vec_base.specs.declared.refusal.Refusal.TheVariants.{WantOfMemory};
ghost use Rattle.vec_base.specs.declared.shadow.ShadowKey.{ShadowKey as Key};
ghost use Rattle.row_model.specs.Check.{is_nearest};
ghost use Rattle.row_model.specs.Machine.{cursor_of, first_state, no_tables, on_session};
ghost use Rattle.row_model.specs.Step.{answer_of};
ghost use Rattle.row_model.specs.WellFormed.{IsWellFormedRequest};
ghost use Rattle.row_model.specs.declared.request.Reply.TheVariants.{Refused};
ghost use Rattle.row_model.specs.declared.request.Request.TheVariants.{CloseCursor, CloseSession, Execute, Fetch, OpenCursor, OpenSession};
ghost use Rattle.row_model.specs.Valid.{IsValidCatalog, IsValidState};
ghost use Rattle.run_commits.specs.Commits.{commit_of};
ghost use Rattle.shadow_records.specs.StandsFor.{StandsFor};
ghost use Rattle.txn_commits.specs.Keeping.{meanings};
ghost use Rattle.txn_core.specs.Counting.{CountsStatement, InSession};
ghost use Rattle.txn_core.specs.Engines.{Served};
ghost use Rattle.txn_core.specs.Free.{needs_no_memory};
ghost use Rattle.txn_core.specs.Schemas.{seen_schema};
ghost use Rattle.txn_reads.specs.Advancing.{advanced};
ghost use Rattle.txn_reads.specs.Searches.{Counts};
ghost use Rattle.txn_sessions.specs.Seen.{catalog_at};
ghost use Rattle.txn_sessions.specs.Sound.{IsOn};
ghost use Rattle.version_shelf.specs.OnShelf.{shown};
ghost use Rattle.version_shelf.specs.Records.{HoldsRecords};

use crate::execute::execute_turn;
use crate::requests::{
    advance_in, close_cursor_in, close_session_of, fetch_in, open_cursor_in, page_in, schema_in,
};
use row_model::{Reply, Schema, Select, Statement};
use shadow_keeper::Keeper;
use std::alloc::Global;
use std::marker::{Model, Sync};
use std::thread::Threads;
use topk_merge::Gate;
use txn_commits::{finish, versions_known};
use txn_sessions::{Machine, Turn};
use vec_base::{Steps, Txt};
use version_shelf::{Held, Shelf};

/// Sessions over tables, and a keeper that has the records of the committed ones. Contracts see the machine's state and the keeper.
#[derive(Drop)]
pub struct Engine<K: Keeper> {
    alloc: Global,
    machine: Machine,
    keeper: K,
}

impl<K: Keeper> Model for Engine<K> {
    ghost use Rattle.txn_commits.specs.Keeping.{meanings};
    ghost use Rattle.txn_core.specs.Engines.{At};
    ghost use Rattle.txn_core.specs.Kept.{IsKept};
    ghost use Rattle.txn_sessions.specs.Seen.{state_of};

    ghost Value = { At K };

    ghost view = { λ engine. record { state = state_of engine.machine; keeper = engine.keeper } };

    ghost invariant = { λ engine. IsKept (meanings K.ended K.tells K.tables K.faults K.stopped K.moment K.stopped_since) engine.machine engine.keeper };
}

impl<K: Keeper + Drop> Engine<K> {
    /// An engine without tables, over a keeper that has told the end of its records and has none.
    pub fn over(alloc: Global, keeper: K) -> Engine<K>
        requires ended { IsTrue (K.ended keeper) }
        requires empty { IsTrue (K.tells keeper) → (key : Key) → get (K.tables keeper) key ≡ None }
        ensures state { result.state ≡ first_state no_tables }
        ensures keeper { result.keeper ≡ keeper }
    {
        Engine {
            alloc,
            machine: Machine::new(alloc, Shelf::new(alloc), Held::none()),
            keeper,
        }
    }

    /// An engine with these committed tables, over a keeper that has told the end of its records and has those of the tables.
    pub(crate) fn with_tables(alloc: Global, shelf: Shelf, held: Held, keeper: K) -> Engine<K>
        requires on { IsOn shelf held }
        requires valid { IsValidCatalog (catalog_at shelf held) }
        requires ended { IsTrue (K.ended keeper) }
        requires holds { IsTrue (K.tells keeper) → HoldsRecords (K.tables keeper) (shown shelf held.places) }
        ensures state { result.state ≡ first_state (catalog_at shelf held) }
        ensures keeper { result.keeper ≡ keeper }
    {
        Engine {
            alloc,
            machine: Machine::new(alloc, shelf, held),
            keeper,
        }
    }

    /// Opens a session.
    pub fn open_session(&mut self) -> Reply
        ensures { Served (meanings K.ended K.tells K.tables K.faults K.stopped K.moment K.stopped_since) self.old OpenSession result self.new }
    {
        let turn = Turn::Answered(self.machine.open_session(self.alloc));
        finish(self.alloc, &mut self.machine, &mut self.keeper, turn)
    }

    /// Closes a session; its transaction is rolled back. It takes no memory.
    pub fn close_session(&mut self, session: u32) -> Reply
        ensures served { Served (meanings K.ended K.tells K.tables K.faults K.stopped K.moment K.stopped_since) self.old (CloseSession session) result self.new }
        ensures free { answer_of self.old.state (CloseSession session) ≡ (result, self.new.state) }
    {
        let turn = Turn::Answered(close_session_of(&mut self.machine, session));
        finish(self.alloc, &mut self.machine, &mut self.keeper, turn)
    }

    /// Executes a statement in a session. Of a SELECT with a MATCH the search goes by so many workers, each piece is told to the gate, and the work is
    /// counted.
    pub fn execute<G: Gate, R: Threads + Sync>(
        &mut self,
        rt: &R,
        session: u32,
        statement: Statement,
        workers: u8,
        gate: &G,
        steps: &mut Steps,
    ) -> Reply
        requires formed { IsWellFormedRequest (Execute session statement) }
        requires workers { 1 ≤ workers }
        ensures served { Served (meanings K.ended K.tells K.tables K.faults K.stopped K.moment K.stopped_since) self.old (Execute session statement) result self.new }
        ensures free { needs_no_memory statement ≡ true → commit_of self.old.state (Execute session statement) result ≡ None → answer_of self.old.state (Execute session statement) ≡ (result, self.new.state) }
        ensures counts { InSession self.old.state session (λ s. CountsStatement self.old.state s statement workers result steps.old steps.new) }
    {
        let turn = execute_turn(
            rt,
            self.alloc,
            &mut self.machine,
            session,
            statement,
            workers,
            gate,
            steps,
        );
        finish(self.alloc, &mut self.machine, &mut self.keeper, turn)
    }

    /// Opens a cursor in a session. Without a MATCH it takes no memory.
    pub fn open_cursor<G: Gate, R: Threads + Sync>(
        &mut self,
        rt: &R,
        session: u32,
        select: Select,
        workers: u8,
        gate: &G,
        steps: &mut Steps,
    ) -> Reply
        requires formed { IsWellFormedRequest (OpenCursor session select) }
        requires workers { 1 ≤ workers }
        ensures served { Served (meanings K.ended K.tells K.tables K.faults K.stopped K.moment K.stopped_since) self.old (OpenCursor session select) result self.new }
        ensures free { is_nearest select.where_terms ≡ false → answer_of self.old.state (OpenCursor session select) ≡ (result, self.new.state) }
        ensures counts { InSession self.old.state session (λ s. Counts self.old.state s select workers result steps.old steps.new) }
    {
        let turn = Turn::Answered(open_cursor_in(
            rt,
            self.alloc,
            &mut self.machine,
            session,
            select,
            workers,
            gate,
            steps,
        ));
        finish(self.alloc, &mut self.machine, &mut self.keeper, turn)
    }

    /// The next rows of a cursor, so many or all, and whether none is left behind them. Nothing changes.
    pub fn page(&self, session: u32, cursor: u32, count: u16) -> Reply
        ensures { ((answer_of self.now.state (Fetch session cursor count)).0 ≡ result) ⊎ (result ≡ Refused WantOfMemory) }
    {
        page_in(self.alloc, &self.machine, session, cursor, count)
    }

    /// Passes the next rows of a cursor. It takes no memory.
    pub fn advance(&mut self, session: u32, cursor: u32, count: u16) -> Reply
        ensures step { on_session self.old.state session (λ s. advanced count self.old.state s (cursor_of cursor s.cursors)) ≡ (result, self.new.state) }
        ensures keeper { self.new.keeper ≡ self.old.keeper }
    {
        advance_in(&mut self.machine, session, cursor, count)
    }

    /// The next rows of a cursor, which are passed: a page, and then an advance where it was answered.
    pub fn fetch(&mut self, session: u32, cursor: u32, count: u16) -> Reply
        ensures { Served (meanings K.ended K.tells K.tables K.faults K.stopped K.moment K.stopped_since) self.old (Fetch session cursor count) result self.new }
    {
        let turn = Turn::Answered(fetch_in(self.alloc, &mut self.machine, session, cursor, count));
        finish(self.alloc, &mut self.machine, &mut self.keeper, turn)
    }

    /// Closes a cursor. It takes no memory.
    pub fn close_cursor(&mut self, session: u32, cursor: u32) -> Reply
        ensures served { Served (meanings K.ended K.tells K.tables K.faults K.stopped K.moment K.stopped_since) self.old (CloseCursor session cursor) result self.new }
        ensures free { answer_of self.old.state (CloseCursor session cursor) ≡ (result, self.new.state) }
    {
        let turn = Turn::Answered(close_cursor_in(&mut self.machine, session, cursor));
        finish(self.alloc, &mut self.machine, &mut self.keeper, turn)
    }

    /// The schema of the table of a name that a session sees; none where the session is not open, or sees no such table.
    pub fn schema(&self, session: u32, table: &Txt) -> Option<&Schema>
        ensures { MatchOption result (seen_schema self.now.state session table.now ≡ None) (λ schema. seen_schema self.now.state session table.now ≡ Some schema.now) }
    {
        schema_in(&self.machine, session, table)
    }

    /// The state is a valid one, and the keeper's records stand for the committed tables. The call does nothing: its clauses are all that it gives.
    pub fn known(&self)
        ensures valid { IsValidState self.now.state }
        ensures stands { IsTrue (K.tells self.now.keeper) → StandsFor (K.tables self.now.keeper) self.now.state.catalog }
    {
        versions_known(&self.machine.shelf, &self.machine.held);
    }

    /// Gives the keeper back. Its records stand for the committed tables.
    pub fn finish(self) -> K
        ensures keeper { result ≡ self.keeper }
        ensures stands { IsTrue (K.tells result) → StandsFor (K.tables result) self.state.catalog }
    {
        versions_known(&self.machine.shelf, &self.machine.held);
        self.keeper
    }
}
