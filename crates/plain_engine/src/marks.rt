//! SAVEPOINT, ROLLBACK TO and RELEASE.
ghost use Rattle.std.specs.Prelude.{◌≡◌, ◌<◌, ◌≤◌, ◌+◌, length, None, MatchOption, OnOk, OnErr, IfOk, take};
ghost use Rattle.row_model.specs.Limits.{over_savepoints};
ghost use Rattle.row_model.specs.Machine.{newest_mark};
ghost use Rattle.row_model.specs.RefusalOrder.{first};
ghost use Rattle.row_model.specs.Step.{given_back, released, rolled_to, saved};
ghost use Rattle.plain_engine.specs.inner.Machines.{Answers, IsAt, session_at, state_of};
ghost use Rattle.plain_engine.specs.inner.Places.{IsMarkAt};
ghost use Rattle.plain_engine.specs.inner.SessionChanges.{cut_to, gone_back, phase_of_mark, saved_with};

use crate::copies::copied_catalog;
use crate::machine::Machine;
use row_model::{Catalog, Mark, Phase, Reply, Session, is_same_name, over_savepoints};
use std::alloc::Global;
use std::mem;
use vec_base::{List, Memory, Refusal, Txt};

/// Where the newest mark of the name stands.
#[tactic(auto, using(crate::proofs::PlaceLaws::mark_first, crate::proofs::PlaceLaws::mark_later, crate::proofs::PlaceLaws::mark_none))]
fn mark_place(marks: &[Mark], name: &Txt) -> Option<usize>
    ensures { MatchOption result (newest_mark name.now marks.now ≡ None) (λ at. IsMarkAt name.now marks.now at) }
{
    let (mark, newer) = marks.split_first()?;
    match mark_place(newer, name) {
        Some(at) => Some(at + 1),
        None => {
            if is_same_name(&mark.name, name) {
                Some(0)
            } else {
                None
            }
        }
    }
}

/// The refusal of one more mark.
fn one_mark_more(marks: &[Mark]) -> Option<Refusal>
    ensures { result ≡ first (over_savepoints (length marks.now + 1)) }
{
    over_savepoints((marks.len() as u64).saturating_add(1))
}

/// Adds a mark, and begins a transaction with it where a phase is given.
fn add_mark(
    session: &mut Session,
    name: Txt,
    catalog: Catalog,
    begun: Option<Phase>,
) -> Result<(), Memory>
    ensures ok { OnOk result (session.new ≡ saved_with name catalog begun session.old) }
    ensures err { OnErr result (session.new ≡ session.old) }
{
    session.marks.push(Mark { name, catalog })?;
    if let Some(phase) = begun {
        session.phase = phase;
        session.by_savepoint = true;
    }
    Ok(())
}

/// Keeps the first marks.
fn keep_marks(alloc: Global, marks: &mut List<Mark>, count: usize)
    ensures { marks.new ≡ take count marks.old }
{
    let mut kept = mem::replace(marks, List::new(alloc)).into_vec();
    kept.truncate(count);
    *marks = List::from_vec(kept);
}

/// The phase with its catalog given back.
fn given_back(catalog: Catalog, phase: &Phase) -> Phase
    ensures { result ≡ given_back catalog phase.now }
{
    match phase {
        Phase::Idle => Phase::Idle,
        Phase::Reading(_, number) => Phase::Reading(catalog, *number),
        Phase::Writing(base, _) => Phase::Writing(*base, catalog),
    }
}

/// Gives a catalog back to a session. So many of its marks stay, and no cursor.
fn go_back(session: &mut Session, alloc: Global, catalog: Catalog, count: usize)
    ensures { session.new ≡ gone_back catalog count session.old }
{
    session.phase = given_back(catalog, &session.phase);
    keep_marks(alloc, &mut session.marks, count);
    session.cursors = List::new(alloc);
}

/// Keeps the first marks of a session.
fn cut(session: &mut Session, alloc: Global, count: usize)
    ensures { session.new ≡ cut_to count session.old }
{
    keep_marks(alloc, &mut session.marks, count);
}

impl Machine {
    /// The phase that a mark begins, where the session is in no transaction.
    fn phase_of_mark(&self, alloc: Global, at: usize) -> Result<Option<Phase>, Memory>
        requires { at < length self.now.sessions.items }
        ensures { IfOk result (λ phase. phase ≡ phase_of_mark self.now.catalog self.now.commits (session_at self.now at).phase) }
    {
        match &self.sessions[at].phase {
            Phase::Idle => {
                let catalog = copied_catalog(alloc, &self.catalog)?;
                Ok(Some(Phase::Reading(catalog, self.commits)))
            }
            Phase::Reading(_, _) => Ok(None),
            Phase::Writing(_, _) => Ok(None),
        }
    }

    /// Sets a mark; a session that is in no transaction begins one with it.
    pub(crate) fn save(&mut self, alloc: Global, at: usize, name: Txt) -> Reply
        requires at { IsAt self.old.sessions.items at }
        ensures { Answers (saved name (state_of self.old) (session_at self.old at)) self.old result self.new }
    {
        if let Some(refusal) = one_mark_more(self.sessions[at].marks.as_slice()) {
            return Reply::Refused(refusal);
        }
        let Ok(catalog) = copied_catalog(alloc, self.seen(at)) else {
            return Reply::Refused(Refusal::WantOfMemory);
        };
        let Ok(begun) = self.phase_of_mark(alloc, at) else {
            return Reply::Refused(Refusal::WantOfMemory);
        };
        match add_mark(&mut self.sessions[at], name, catalog, begun) {
            Ok(()) => Reply::Done,
            Err(Memory) => Reply::Refused(Refusal::WantOfMemory),
        }
    }

    /// Goes back to a mark.
    pub(crate) fn roll_back_to(&mut self, alloc: Global, at: usize, name: &Txt) -> Reply
        requires at { IsAt self.old.sessions.items at }
        ensures { Answers (rolled_to name.now (state_of self.old) (session_at self.old at) (newest_mark name.now (session_at self.old at).marks)) self.old result self.new }
    {
        let marks = self.sessions[at].marks.as_slice();
        let Some(place) = mark_place(marks, name) else {
            return Reply::Refused(Refusal::NoSavepoint);
        };
        let Ok(catalog) = copied_catalog(alloc, &marks[place].catalog) else {
            return Reply::Refused(Refusal::WantOfMemory);
        };
        go_back(&mut self.sessions[at], alloc, catalog, place + 1);
        Reply::Done
    }

    /// Lets a mark and the newer ones go. Where the first one goes and a savepoint began the transaction, it is committed.
    pub(crate) fn release(&mut self, alloc: Global, at: usize, name: &Txt) -> Reply
        requires at { IsAt self.old.sessions.items at }
        ensures { Answers (released name.now (state_of self.old) (session_at self.old at) (newest_mark name.now (session_at self.old at).marks)) self.old result self.new }
    {
        let Some(place) = mark_place(self.sessions[at].marks.as_slice(), name) else {
            return Reply::Refused(Refusal::NoSavepoint);
        };
        if (place == 0) & self.sessions[at].by_savepoint {
            return self.commit(alloc, at);
        }
        cut(&mut self.sessions[at], alloc, place);
        Reply::Done
    }
}
