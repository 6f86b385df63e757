//! Sessions are opened and closed.
ghost use Rattle.std.specs.Prelude.{◌≡◌, ◌+◌, ◌++◌, ◌∷◌, [], length, OnOk, OnErr};
ghost use Rattle.row_model.specs.Limits.{over_sessions, over_session_ids};
ghost use Rattle.row_model.specs.RefusalOrder.{first};
ghost use Rattle.row_model.specs.Step.{opened, closed};
ghost use Rattle.txn_sessions.specs.Lookups.{IsAt};
ghost use Rattle.txn_sessions.specs.Seen.{session_at, state_of};
ghost use Rattle.txn_sessions.specs.Sessions.{session_new};
ghost use Rattle.txn_sessions.specs.Sound.{IsSound};
ghost use Rattle.txn_sessions.specs.Takes.{Takes, TakesOrWants};

use crate::machine::Machine;
use crate::session::OpenSession;
use row_model::{Reply, over_session_ids, over_sessions};
use std::alloc::Global;
use vec_base::{Memory, Refusal};

/// The refusal of one more session.
fn session_refusal(sessions: &[OpenSession], last_id: u32) -> Option<Refusal>
    ensures { result ≡ first (over_sessions (length sessions.now + 1) ++ over_session_ids (last_id + 1)) }
{
    over_sessions((sessions.len() as u64).saturating_add(1)).or(over_session_ids(
        u64::from(last_id) + 1,
    ))
}

impl Machine {
    /// Adds a session to those that are open.
    fn add_session(&mut self, alloc: Global, id: u32) -> Result<(), Memory>
        ensures parts { (self.new.shelf ≡ self.old.shelf) × (self.new.held ≡ self.old.held) × (self.new.commits ≡ self.old.commits) }
        ensures ok { OnOk result ((self.new.sessions.items ≡ self.old.sessions.items ++ session_new id ∷ []) × (self.new.last_id ≡ id)) }
        ensures err { OnErr result ((self.new.sessions.items ≡ self.old.sessions.items) × (self.new.last_id ≡ self.old.last_id)) }
    {
        let session = OpenSession::new(alloc, id)?;
        self.sessions.push(session)?;
        self.last_id = id;
        Ok(())
    }

    /// Opens a session with the last id plus one. The room for its marks and cursors is taken here.
    pub fn open_session(&mut self, alloc: Global) -> Reply
        requires sound { IsSound self.old }
        ensures { TakesOrWants self.old (opened (state_of self.old)) result self.new }
    {
        match session_refusal(self.sessions.as_slice(), self.last_id) {
            Some(refusal) => Reply::Refused(refusal),
            None => {
                let id = self.last_id + 1;
                match self.add_session(alloc, id) {
                    Ok(()) => Reply::Session(id),
                    Err(Memory) => Reply::Refused(Refusal::WantOfMemory),
                }
            }
        }
    }

    /// Closes a session, with its transaction, its marks and its cursors.
    pub fn close_session(&mut self, at: usize) -> Reply
        requires sound { IsSound self.old }
        requires at { IsAt self.old.sessions.items at }
        ensures { Takes self.old (closed (state_of self.old) (session_at self.old at)) result self.new }
    {
        self.sessions.remove(at);
        Reply::Done
    }
}
