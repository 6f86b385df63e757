//! Writes of a session: a changed catalog takes the place of the one that the session sees.
ghost use Rattle.std.specs.Prelude.{◌≡◌, ◌<◌, ◌++◌, length, None, Ok as ok, Err as err, IfOk};
ghost use Rattle.row_model.specs.Change.{table_named};
ghost use Rattle.row_model.specs.RefusalOrder.{first};
ghost use Rattle.row_model.specs.Step.{created, deletes, dropped, found, inserted, old_snapshot, spent_at_once, taken_in, updates, wrote};
ghost use Rattle.row_model.specs.Valid.{IsValidCatalog};
ghost use Rattle.plain_engine.specs.inner.CatalogChanges.{blocked, number_before};
ghost use Rattle.plain_engine.specs.inner.Machines.{Answers, IsAt, seen_at, session_at, state_of};

use crate::changes;
use crate::machine::Machine;
use crate::transactions::busy_beside;
use row_model::{Catalog, Delete, Insert, Phase, Reply, Schema, Update};
use std::alloc::Global;
use vec_base::{Memory, Refusal, Txt};

/// The refusal of a snapshot of the number where there were so many commits.
fn older_than(number: u64, commits: u64) -> Option<Refusal>
    ensures { result ≡ first (number_before number commits) }
{
    if number < commits {
        Some(Refusal::OldSnapshot(number, commits))
    } else {
        None
    }
}

impl Machine {
    /// The refusal of a snapshot that is older than the last commit.
    fn old_snapshot(&self, at: usize) -> Option<Refusal>
        requires { at < length self.now.sessions.items }
        ensures { result ≡ first (old_snapshot (state_of self.now) (session_at self.now at).phase) }
    {
        match &self.sessions[at].phase {
            Phase::Idle => None,
            Phase::Reading(_, number) => older_than(*number, self.commits),
            Phase::Writing(_, _) => None,
        }
    }

    /// What stands in the way of a session's writes: another writer, and then an old snapshot.
    fn blocked(&self, at: usize) -> Option<Refusal>
        requires { at < length self.now.sessions.items }
        ensures { result ≡ blocked (state_of self.now) (session_at self.now at) }
    {
        busy_beside(self.sessions.as_slice(), self.sessions[at].id).or(self.old_snapshot(at))
    }

    /// The refusal of one more commit, where the session is in no transaction.
    fn spent_at_once(&self, at: usize) -> Option<Refusal>
        requires { at < length self.now.sessions.items }
        ensures { result ≡ first (spent_at_once (state_of self.now) (session_at self.now at).phase) }
    {
        match &self.sessions[at].phase {
            Phase::Idle => self.spent(),
            Phase::Reading(_, _) => None,
            Phase::Writing(_, _) => None,
        }
    }

    /// Puts a changed catalog in its place: it is committed, or a session works on it.
    fn take_in(&mut self, at: usize, catalog: Catalog)
        requires at { IsAt self.old.sessions.items at }
        requires room { first (spent_at_once (state_of self.old) (session_at self.old at).phase) ≡ None }
        ensures { state_of self.new ≡ taken_in (state_of self.old) (session_at self.old at) (session_at self.old at).phase catalog }
    {
        match self.sessions[at].phase {
            Phase::Idle => {
                self.catalog = catalog;
                self.commits += 1;
            }
            Phase::Reading(_, number) => self.sessions[at].phase = Phase::Writing(number, catalog),
            Phase::Writing(base, _) => self.sessions[at].phase = Phase::Writing(base, catalog),
        }
    }

    /// Takes a change in, unless it is refused.
    fn write(&mut self, at: usize, change: Result<(Reply, Catalog), Refusal>) -> Reply
        requires at { IsAt self.old.sessions.items at }
        ensures { wrote (state_of self.old) (session_at self.old at) change ≡ (result, state_of self.new) }
    {
        match change {
            Ok((reply, catalog)) => {
                if let Some(refusal) = self.spent_at_once(at) {
                    return Reply::Refused(refusal);
                }
                self.take_in(at, catalog);
                reply
            }
            Err(refusal) => Reply::Refused(refusal),
        }
    }

    /// Makes an empty table.
    pub(crate) fn create(&mut self, alloc: Global, at: usize, name: Txt, schema: Schema) -> Reply
        requires at { IsAt self.old.sessions.items at }
        ensures { Answers (created name schema (state_of self.old) (session_at self.old at) (found name (state_of self.old) (session_at self.old at))) self.old result self.new }
    {
        match changes::create(alloc, self.seen(at), self.blocked(at), name, schema) {
            Ok(change) => self.write(at, change),
            Err(Memory) => Reply::Refused(Refusal::WantOfMemory),
        }
    }

    /// Removes a table.
    pub(crate) fn drop_table(&mut self, alloc: Global, at: usize, name: &Txt) -> Reply
        requires at { IsAt self.old.sessions.items at }
        requires valid { IsValidCatalog (seen_at self.old at) }
        ensures { Answers (dropped name.now (state_of self.old) (session_at self.old at) (found name.now (state_of self.old) (session_at self.old at))) self.old result self.new }
    {
        match changes::drop_table(alloc, self.seen(at), self.blocked(at), name) {
            Ok(change) => self.write(at, change),
            Err(Memory) => Reply::Refused(Refusal::WantOfMemory),
        }
    }

    /// Adds rows to a table.
    pub(crate) fn insert(&mut self, alloc: Global, at: usize, insert: &Insert) -> Reply
        requires at { IsAt self.old.sessions.items at }
        requires valid { IsValidCatalog (seen_at self.old at) }
        ensures { Answers (inserted insert.now (state_of self.old) (session_at self.old at) (found insert.now.table (state_of self.old) (session_at self.old at))) self.old result self.new }
    {
        match changes::insert(alloc, self.seen(at), self.blocked(at), insert) {
            Ok(change) => self.write(at, change),
            Err(Memory) => Reply::Refused(Refusal::WantOfMemory),
        }
    }

    /// Gives columns new values in the rows that meet the terms.
    pub(crate) fn update(&mut self, alloc: Global, at: usize, update: &Update) -> Reply
        requires at { IsAt self.old.sessions.items at }
        requires valid { IsValidCatalog (seen_at self.old at) }
        ensures { Answers (updates update.now (state_of self.old) (session_at self.old at) (found update.now.table (state_of self.old) (session_at self.old at))) self.old result self.new }
    {
        match changes::update(alloc, self.seen(at), self.blocked(at), update) {
            Ok(change) => self.write(at, change),
            Err(Memory) => Reply::Refused(Refusal::WantOfMemory),
        }
    }

    /// Removes the rows that meet the terms.
    pub(crate) fn delete(&mut self, alloc: Global, at: usize, delete: &Delete) -> Reply
        requires at { IsAt self.old.sessions.items at }
        requires valid { IsValidCatalog (seen_at self.old at) }
        ensures { Answers (deletes delete.now (state_of self.old) (session_at self.old at) (found delete.now.table (state_of self.old) (session_at self.old at))) self.old result self.new }
    {
        match changes::delete(alloc, self.seen(at), self.blocked(at), delete) {
            Ok(change) => self.write(at, change),
            Err(Memory) => Reply::Refused(Refusal::WantOfMemory),
        }
    }
}
