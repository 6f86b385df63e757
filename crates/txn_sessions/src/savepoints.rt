//! SAVEPOINT, ROLLBACK TO and RELEASE.
ghost use Rattle.std.specs.Prelude.{◌≡◌, ◌<◌, ◌+◌, length, None, MatchOption, map};
ghost use Rattle.row_model.specs.Limits.{over_savepoints};
ghost use Rattle.row_model.specs.Machine.{newest_mark};
ghost use Rattle.row_model.specs.RefusalOrder.{first};
ghost use Rattle.row_model.specs.declared.statement.Statement.TheVariants.{Release as ReleaseStatement, RollbackTo as RollbackToStatement, Savepoint as SavepointStatement};
ghost use Rattle.txn_sessions.specs.Lookups.{IsAt, IsMark};
ghost use Rattle.txn_sessions.specs.Seen.{Versions, mark_seen, session_at, state_of};
ghost use Rattle.txn_sessions.specs.Sound.{IsSound};
ghost use Rattle.txn_sessions.specs.Takes.{executed_at, Takes};
ghost use Rattle.txn_sessions.specs.Turns.{released_at, saved_phase, TurnsTo};

use crate::machine::Machine;
use crate::session::{Mark, Phase};
use crate::turn::Turn;
use row_model::{Reply, is_same_name, over_savepoints};
use vec_base::{Refusal, Txt};

/// Where the newest mark of the name stands.
#[tactic(auto, using(crate::proofs::LookupLaws::mark_first, crate::proofs::LookupLaws::mark_later, crate::proofs::LookupLaws::mark_none))]
fn mark_place(marks: &[Mark], name: &Txt) -> Option<usize>
    ensures { MatchOption result ((shelf : Versions) → newest_mark name.now (map (mark_seen shelf) marks.now) ≡ None) (λ at. IsMark name.now marks.now at) }
{
    let (mark, newer) = marks.split_first()?;
    match mark_place(newer, name) {
        Some(at) => Some(at + 1),
        None => {
            if is_same_name(&mark.name, name) {
                Some(0)
            } else {
                None
            }
        }
    }
}

/// The refusal of one more mark.
fn mark_refusal(marks: &[Mark]) -> Option<Refusal>
    ensures { result ≡ first (over_savepoints (length marks.now + 1)) }
{
    over_savepoints((marks.len() as u64).saturating_add(1))
}

impl Machine {
    /// The phase of a session with one more mark.
    fn saved_phase(&self, at: usize) -> Phase
        requires { at < length self.now.sessions.items }
        ensures { result ≡ saved_phase self.now at }
    {
        match self.sessions[at].phase {
            Phase::Idle => Phase::Reading(self.held, self.commits),
            phase => phase,
        }
    }

    /// Sets a mark; an idle session begins a transaction with it.
    pub fn save(&mut self, at: usize, name: Txt) -> Reply
        requires sound { IsSound self.old }
        requires at { IsAt self.old.sessions.items at }
        ensures { Takes self.old (executed_at self.old at (SavepointStatement name)) result self.new }
    {
        match mark_refusal(self.sessions[at].marks.as_slice()) {
            Some(refusal) => Reply::Refused(refusal),
            None => {
                let held = self.seen(at);
                let phase = self.saved_phase(at);
                self.sessions[at].save(name, held, phase);
                Reply::Done
            }
        }
    }

    /// Goes back to a mark, which stays.
    pub fn roll_back_to(&mut self, at: usize, name: &Txt) -> Reply
        requires sound { IsSound self.old }
        requires at { IsAt self.old.sessions.items at }
        ensures { Takes self.old (executed_at self.old at (RollbackToStatement name.now)) result self.new }
    {
        match mark_place(self.sessions[at].marks.as_slice(), name) {
            Some(place) => {
                self.sessions[at].go_back(place);
                Reply::Done
            }
            None => Reply::Refused(Refusal::NoSavepoint),
        }
    }

    /// Lets the mark at a place and the newer ones go. Where it is the first one and a savepoint began the transaction, that is committed.
    fn release_at(&mut self, at: usize, place: usize) -> Turn
        requires sound { IsSound self.old }
        requires at { IsAt self.old.sessions.items at }
        ensures { TurnsTo self.old (released_at place (state_of self.old) (session_at self.old at)) result self.new }
    {
        if (place == 0) & self.sessions[at].by_savepoint {
            self.commit(at)
        } else {
            self.sessions[at].cut(place);
            Turn::Answered(Reply::Done)
        }
    }

    /// Lets a mark and the newer ones go. Where the first one goes and a savepoint began the transaction, that is committed.
    pub fn release(&mut self, at: usize, name: &Txt) -> Turn
        requires sound { IsSound self.old }
        requires at { IsAt self.old.sessions.items at }
        ensures { TurnsTo self.old (executed_at self.old at (ReleaseStatement name.now)) result self.new }
    {
        match mark_place(self.sessions[at].marks.as_slice(), name) {
            Some(place) => self.release_at(at, place),
            None => Turn::Answered(Reply::Refused(Refusal::NoSavepoint)),
        }
    }
}
