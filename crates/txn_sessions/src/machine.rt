//! The machine in memory.
ghost use Rattle.std.specs.Prelude.{◌≡◌, ◌<◌, None, MatchOption, length};
ghost use Rattle.row_model.specs.Machine.{first_state, session_of};
ghost use Rattle.txn_sessions.specs.Lookups.{IsOfId};
ghost use Rattle.txn_sessions.specs.Seen.{Versions, catalog_at, held_seen, sessions_seen, state_of};
ghost use Rattle.txn_sessions.specs.Sound.{IsOn, IsSound};

use crate::session::{OpenSession, Phase};
use std::alloc::Global;
use version_shelf::{Held, Shelf};

/// The committed tables, the number of commits, the last id that a session got, and the open sessions. All their versions stand on the shelf.
#[derive(Drop)]
pub struct Machine {
    pub shelf: Shelf,
    pub held: Held,
    pub commits: u64,
    pub last_id: u32,
    pub sessions: Vec<OpenSession>,
}

/// Where the session of the id stands.
#[tactic(auto, using(crate::proofs::LookupLaws::at_first, crate::proofs::LookupLaws::at_later))]
fn place_in(sessions: &[OpenSession], id: u32) -> Option<usize>
    ensures { MatchOption result ((shelf : Versions) → session_of id (sessions_seen shelf sessions.now) ≡ None) (λ at. IsOfId id sessions.now at) }
{
    let (session, others) = sessions.split_first()?;
    if session.id == id {
        return Some(0);
    }
    match place_in(others, id) {
        Some(at) => Some(at + 1),
        None => None,
    }
}

impl Machine {
    /// A machine with these committed tables, and no session.
    pub fn new(alloc: Global, shelf: Shelf, held: Held) -> Machine
        requires { IsOn shelf held }
        ensures sound { IsSound result }
        ensures state { state_of result ≡ first_state (catalog_at shelf held) }
        ensures shelf { result.shelf ≡ shelf }
        ensures held { result.held ≡ held }
    {
        Machine {
            shelf,
            held,
            commits: 0,
            last_id: 0,
            sessions: Vec::new(alloc),
        }
    }

    /// Where the session of the id stands.
    pub fn place_of(&self, id: u32) -> Option<usize>
        ensures { MatchOption result (session_of id (state_of self.now).sessions ≡ None) (λ at. IsOfId id self.now.sessions.items at) }
    {
        place_in(self.sessions.as_slice(), id)
    }

    /// The catalog that a session sees.
    pub fn seen(&self, at: usize) -> Held
        requires { at < length self.now.sessions.items }
        ensures { result ≡ held_seen self.now at }
    {
        match self.sessions[at].phase {
            Phase::Idle => self.held,
            Phase::Reading(held, _) => held,
            Phase::Writing(_, held) => held,
        }
    }
}
