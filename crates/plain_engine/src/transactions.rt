//! BEGIN, COMMIT and ROLLBACK.
ghost use Rattle.std.specs.Prelude.{◌≡◌, ◌<◌, ◌++◌, [], not, true, if◌then◌else◌, length};
ghost use Rattle.vec_base.specs.declared.refusal.Refusal.TheVariants.{TxnState as TxnStateOf};
ghost use Rattle.row_model.specs.declared.state.Phase.TheVariants.{Idle};
ghost use Rattle.row_model.specs.Machine.{is_idle, is_writing, writer_beside};
ghost use Rattle.row_model.specs.RefusalOrder.{first, when};
ghost use Rattle.row_model.specs.Step.{begun, busy, committed, commits_spent, rolled_back};
ghost use Rattle.plain_engine.specs.inner.Machines.{Answers, IsAt, session_at, session_in, state_of};
ghost use Rattle.plain_engine.specs.inner.SessionChanges.{begun_phase, entered};

use crate::copies::copied_catalog;
use crate::machine::{Machine, is_idle};
use row_model::{Catalog, Phase, Reply, Session, over_commits};
use std::alloc::Global;
use std::mem;
use vec_base::{List, Memory, Refusal};

/// The refusal that another session is writing.
pub(crate) fn busy_beside(sessions: &[Session], id: u32) -> Option<Refusal>
    ensures { result ≡ first (busy (writer_beside id sessions.now)) }
{
    let (session, others) = sessions.split_first()?;
    if session.id != id && matches!(session.phase, Phase::Writing(_, _)) {
        return Some(Refusal::Busy(session.id));
    }
    busy_beside(others, id)
}

/// What refuses BEGIN.
fn begin_refusal(sessions: &[Session], at: usize, immediate: bool) -> Option<Refusal>
    requires { at < length sessions.now }
    ensures { result ≡ first (when (not (is_idle (session_in sessions.now at).phase)) TxnStateOf
        ++ (if immediate then busy (writer_beside (session_in sessions.now at).id sessions.now) else [])) }
{
    if !is_idle(&sessions[at].phase) {
        return Some(Refusal::TxnState);
    }
    if immediate {
        busy_beside(sessions, sessions[at].id)
    } else {
        None
    }
}

/// The phase in which a transaction begins on the catalog: writing, or reading.
fn begun_phase(immediate: bool, catalog: Catalog, commits: u64) -> Phase
    ensures { result ≡ begun_phase immediate catalog commits }
{
    if immediate {
        Phase::Writing(commits, catalog)
    } else {
        Phase::Reading(catalog, commits)
    }
}

/// Puts a session into a phase, without marks. Answers the phase before.
fn enter(session: &mut Session, alloc: Global, phase: Phase) -> Phase
    ensures before { result ≡ session.old.phase }
    ensures entered { session.new ≡ entered phase session.old }
{
    session.marks = List::new(alloc);
    session.by_savepoint = false;
    mem::replace(&mut session.phase, phase)
}

/// Ends the transaction of a session, and closes its cursors.
fn leave(session: &mut Session, alloc: Global)
    ensures { session.new ≡ record (entered Idle session.old) { cursors = [] } }
{
    enter(session, alloc, Phase::Idle);
    session.cursors = List::new(alloc);
}

impl Machine {
    /// Begins a transaction on a copy of the committed tables.
    pub(crate) fn begin(&mut self, alloc: Global, at: usize, immediate: bool) -> Reply
        requires at { IsAt self.old.sessions.items at }
        ensures { Answers (begun immediate (state_of self.old) (session_at self.old at)) self.old result self.new }
    {
        if let Some(refusal) = begin_refusal(self.sessions.as_slice(), at, immediate) {
            return Reply::Refused(refusal);
        }
        let Ok(catalog) = copied_catalog(alloc, &self.catalog) else {
            return Reply::Refused(Refusal::WantOfMemory);
        };
        let phase = begun_phase(immediate, catalog, self.commits);
        enter(&mut self.sessions[at], alloc, phase);
        Reply::Done
    }

    /// The refusal of one more commit.
    pub(crate) fn spent(&self) -> Option<Refusal>
        ensures { result ≡ first (commits_spent (state_of self.now)) }
    {
        over_commits(self.commits.saturating_add(1))
    }

    /// Commits what a session wrote.
    fn commit_work(&mut self, alloc: Global, at: usize) -> Reply
        requires at { IsAt self.old.sessions.items at }
        requires writing { is_writing (session_at self.old at).phase ≡ true }
        ensures { Answers (committed (state_of self.old) (session_at self.old at) (session_at self.old at).phase) self.old result self.new }
    {
        if let Some(refusal) = self.spent() {
            return Reply::Refused(refusal);
        }
        if let Phase::Writing(_, work) = enter(&mut self.sessions[at], alloc, Phase::Idle) {
            self.catalog = work;
            self.commits += 1;
        }
        Reply::Done
    }

    /// Ends a transaction: what was written is committed.
    pub(crate) fn commit(&mut self, alloc: Global, at: usize) -> Reply
        requires at { IsAt self.old.sessions.items at }
        ensures { Answers (committed (state_of self.old) (session_at self.old at) (session_at self.old at).phase) self.old result self.new }
    {
        match &self.sessions[at].phase {
            Phase::Idle => Reply::Refused(Refusal::TxnState),
            Phase::Reading(_, _) => {
                enter(&mut self.sessions[at], alloc, Phase::Idle);
                Reply::Done
            }
            Phase::Writing(_, _) => self.commit_work(alloc, at),
        }
    }

    /// Gives a transaction up.
    pub(crate) fn roll_back(&mut self, alloc: Global, at: usize) -> Reply
        requires at { IsAt self.old.sessions.items at }
        ensures { Answers (rolled_back (state_of self.old) (session_at self.old at)) self.old result self.new }
    {
        if is_idle(&self.sessions[at].phase) {
            return Reply::Refused(Refusal::TxnState);
        }
        leave(&mut self.sessions[at], alloc);
        Reply::Done
    }
}
