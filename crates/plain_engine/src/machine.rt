//! The parts of the engine, and where an open session stands.
ghost use Rattle.std.specs.Prelude.{◌≡◌, ◌<◌, length, None, MatchOption};
ghost use Rattle.row_model.specs.Machine.{is_idle, session_of};
ghost use Rattle.plain_engine.specs.inner.Machines.{IsOfId, seen_at};

use row_model::{Catalog, Phase, Session};

/// The committed tables, the number of commits, the last id that a session got, and the open sessions.
#[derive(Drop)]
pub(crate) struct Machine {
    pub(crate) catalog: Catalog,
    pub(crate) commits: u64,
    pub(crate) last_id: u32,
    pub(crate) sessions: Vec<Session>,
}

/// Where the session of the id stands.
#[tactic(auto, using(crate::proofs::PlaceLaws::session_first, crate::proofs::PlaceLaws::session_later))]
pub(crate) fn place_of(sessions: &[Session], id: u32) -> Option<usize>
    ensures { MatchOption result (session_of id sessions.now ≡ None) (λ at. IsOfId id sessions.now at) }
{
    let (session, others) = sessions.split_first()?;
    if session.id == id {
        return Some(0);
    }
    match place_of(others, id) {
        Some(at) => Some(at + 1),
        None => None,
    }
}

/// Whether no transaction is going on.
pub(crate) fn is_idle(phase: &Phase) -> bool
    ensures { result ≡ is_idle phase.now }
{
    matches!(phase, Phase::Idle)
}

impl Machine {
    /// The catalog that the session at the place sees.
    pub(crate) fn seen(&self, at: usize) -> &Catalog
        requires { at < length self.now.sessions.items }
        ensures { result.now ≡ seen_at self.now at }
    {
        match &self.sessions[at].phase {
            Phase::Idle => &self.catalog,
            Phase::Reading(catalog, _) => catalog,
            Phase::Writing(_, work) => work,
        }
    }
}
