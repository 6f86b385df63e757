//! BEGIN, COMMIT and ROLLBACK.
ghost use Rattle.std.specs.Prelude.{◌≡◌, ◌<◌, length};
ghost use Rattle.row_model.specs.Machine.{writer_beside};
ghost use Rattle.row_model.specs.RefusalOrder.{first};
ghost use Rattle.row_model.specs.Step.{busy, busy_beside, commits_spent};
ghost use Rattle.row_model.specs.declared.statement.Statement.TheVariants.{Begin as BeginStatement, Commit as CommitStatement, Rollback as RollbackStatement};
ghost use Rattle.txn_sessions.specs.Lookups.{IsAt};
ghost use Rattle.txn_sessions.specs.Seen.{Versions, session_at, session_seen, sessions_seen, state_of};
ghost use Rattle.txn_sessions.specs.Sessions.{begin_phase, open_at};
ghost use Rattle.txn_sessions.specs.Sound.{IsSound};
ghost use Rattle.txn_sessions.specs.Takes.{executed_at, Takes};
ghost use Rattle.txn_sessions.specs.Turns.{begin_refusals, TurnsTo};

use crate::machine::Machine;
use crate::session::{OpenSession, Phase};
use crate::turn::Turn;
use row_model::{Reply, over_commits};
use vec_base::Refusal;
use version_shelf::Held;

/// The refusal where another session is writing.
fn writer_beside(sessions: &[OpenSession], id: u32) -> Option<Refusal>
    ensures { (shelf : Versions) → result ≡ first (busy (writer_beside id (sessions_seen shelf sessions.now))) }
{
    let (session, others) = sessions.split_first()?;
    if session.id != id && session.phase.is_writing() {
        return Some(Refusal::Busy(session.id));
    }
    writer_beside(others, id)
}

/// What refuses BEGIN.
fn begin_refusal(sessions: &[OpenSession], at: usize, immediate: bool) -> Option<Refusal>
    requires { at < length sessions.now }
    ensures { (shelf : Versions) → result ≡ first (begin_refusals immediate (sessions_seen shelf sessions.now) (session_seen shelf (open_at sessions.now at))) }
{
    if !sessions[at].phase.is_idle() {
        return Some(Refusal::TxnState);
    }
    if immediate {
        writer_beside(sessions, sessions[at].id)
    } else {
        None
    }
}

/// The phase of a transaction that begins.
fn begin_phase(immediate: bool, held: Held, commits: u64) -> Phase
    ensures { result ≡ begin_phase immediate held commits }
{
    if immediate {
        Phase::Writing(commits, held)
    } else {
        Phase::Reading(held, commits)
    }
}

impl Machine {
    /// The refusal where another session is writing.
    pub fn busy_beside(&self, at: usize) -> Option<Refusal>
        requires { at < length self.now.sessions.items }
        ensures { result ≡ first (busy_beside (state_of self.now) (session_at self.now at)) }
    {
        writer_beside(self.sessions.as_slice(), self.sessions[at].id)
    }

    /// The refusal of one more commit.
    pub fn commits_spent(&self) -> Option<Refusal>
        ensures { result ≡ first (commits_spent (state_of self.now)) }
    {
        over_commits(self.commits.saturating_add(1))
    }

    /// Begins a transaction.
    pub fn begin(&mut self, at: usize, immediate: bool) -> Reply
        requires sound { IsSound self.old }
        requires at { IsAt self.old.sessions.items at }
        ensures { Takes self.old (executed_at self.old at (BeginStatement immediate)) result self.new }
    {
        match begin_refusal(self.sessions.as_slice(), at, immediate) {
            Some(refusal) => Reply::Refused(refusal),
            None => {
                let phase = begin_phase(immediate, self.held, self.commits);
                self.sessions[at].enter(phase);
                Reply::Done
            }
        }
    }

    /// Ends a transaction: a snapshot goes, and tables of its own are to be committed.
    pub fn commit(&mut self, at: usize) -> Turn
        requires sound { IsSound self.old }
        requires at { IsAt self.old.sessions.items at }
        ensures { TurnsTo self.old (executed_at self.old at CommitStatement) result self.new }
    {
        match self.sessions[at].phase {
            Phase::Idle => Turn::Answered(Reply::Refused(Refusal::TxnState)),
            Phase::Reading(_, _) => {
                self.sessions[at].enter(Phase::Idle);
                Turn::Answered(Reply::Done)
            }
            Phase::Writing(_, held) => match self.commits_spent() {
                Some(refusal) => Turn::Answered(Reply::Refused(refusal)),
                None => Turn::Commits(held, Reply::Done, Some(at)),
            },
        }
    }

    /// Gives a transaction up.
    pub fn roll_back(&mut self, at: usize) -> Reply
        requires sound { IsSound self.old }
        requires at { IsAt self.old.sessions.items at }
        ensures { Takes self.old (executed_at self.old at RollbackStatement) result self.new }
    {
        if self.sessions[at].phase.is_idle() {
            return Reply::Refused(Refusal::TxnState);
        }
        self.sessions[at].leave();
        Reply::Done
    }
}
