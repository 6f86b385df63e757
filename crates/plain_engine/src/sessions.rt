//! Sessions are opened and closed.
ghost use Rattle.std.specs.Prelude.{◌≡◌, ◌+◌, ◌++◌, length};
ghost use Rattle.row_model.specs.Limits.{over_sessions, over_session_ids};
ghost use Rattle.row_model.specs.Machine.{new_session};
ghost use Rattle.row_model.specs.RefusalOrder.{first};
ghost use Rattle.row_model.specs.Step.{closed, opened};
ghost use Rattle.plain_engine.specs.inner.Machines.{Answers, IsAt, session_at, state_of};

use crate::machine::Machine;
use row_model::{Phase, Reply, Session, over_session_ids, over_sessions};
use std::alloc::Global;
use vec_base::{List, Refusal};

/// A session that is in no transaction.
fn new_session(alloc: Global, id: u32) -> Session
    ensures { result ≡ new_session id }
{
    Session {
        id,
        phase: Phase::Idle,
        by_savepoint: false,
        marks: List::new(alloc),
        cursors: List::new(alloc),
        last_cursor: 0,
    }
}

/// The refusal of one more session.
fn one_session_more(sessions: &[Session], last_id: u32) -> Option<Refusal>
    ensures { result ≡ first (over_sessions (length sessions.now + 1) ++ over_session_ids (last_id + 1)) }
{
    over_sessions((sessions.len() as u64).saturating_add(1)).or(over_session_ids(
        u64::from(last_id) + 1,
    ))
}

impl Machine {
    /// Opens a session with the last id plus one.
    pub(crate) fn open(&mut self, alloc: Global) -> Reply
        ensures { Answers (opened (state_of self.old)) self.old result self.new }
    {
        if let Some(refusal) = one_session_more(self.sessions.as_slice(), self.last_id) {
            return Reply::Refused(refusal);
        }
        let id = self.last_id + 1;
        match self.sessions.push(new_session(alloc, id)) {
            Ok(()) => {
                self.last_id = id;
                Reply::Session(id)
            }
            Err(_) => Reply::Refused(Refusal::WantOfMemory),
        }
    }

    /// Closes a session, with its transaction, its marks and its cursors.
    pub(crate) fn close(&mut self, at: usize) -> Reply
        requires at { IsAt self.old.sessions.items at }
        ensures { Answers (closed (state_of self.old) (session_at self.old at)) self.old result self.new }
    {
        self.sessions.remove(at);
        Reply::Done
    }
}
