//! Places that no catalog names are emptied.
ghost use Rattle.std.specs.Prelude.{◌↔◌, IsTrue};
ghost use Rattle.std.specs.List.{AllByRecursion};
ghost use Rattle.txn_sessions.specs.declared.session.Mark.{Mark as MarkOf};
ghost use Rattle.txn_sessions.specs.declared.session.OpenCursor.{OpenCursor as OpenCursorOf};
ghost use Rattle.txn_sessions.specs.Moves.{Moved};
ghost use Rattle.txn_sessions.specs.Sound.{InPhase, InSession, IsSound};
ghost use Rattle.txn_sessions.specs.Sweeps.{Frees, IsSwept, IsUnnamed, Misses, MissesOrigin};

use crate::machine::Machine;
use crate::session::{Mark, OpenCursor, OpenSession, Origin, Phase};
use version_shelf::Held;

/// Whether the catalog does not name the place.
fn held_misses(held: &Held, place: usize) -> bool
    ensures { IsTrue result ↔ Misses place held.now }
{
    !held.names(place)
}

fn phase_misses(phase: &Phase, place: usize) -> bool
    ensures { IsTrue result ↔ InPhase (Misses place) phase.now }
{
    match phase {
        Phase::Idle => true,
        Phase::Reading(held, _) => held_misses(held, place),
        Phase::Writing(_, held) => held_misses(held, place),
    }
}

fn marks_miss(marks: &[Mark], place: usize) -> bool
    ensures { IsTrue result ↔ AllByRecursion (λ (m : MarkOf). Misses place m.held) marks.now }
{
    let Some((mark, more)) = marks.split_first() else {
        return true;
    };
    if !held_misses(&mark.held, place) {
        return false;
    }
    marks_miss(more, place)
}

fn origin_misses(origin: &Origin, place: usize) -> bool
    ensures { IsTrue result ↔ MissesOrigin place origin.now }
{
    match origin {
        Origin::Kept => true,
        Origin::Table(held, _, _) => held_misses(held, place),
    }
}

fn cursors_miss(cursors: &[OpenCursor], place: usize) -> bool
    ensures { IsTrue result ↔ AllByRecursion (λ (c : OpenCursorOf). MissesOrigin place c.origin) cursors.now }
{
    let Some((cursor, more)) = cursors.split_first() else {
        return true;
    };
    if !origin_misses(&cursor.origin, place) {
        return false;
    }
    cursors_miss(more, place)
}

fn session_misses(session: &OpenSession, place: usize) -> bool
    ensures { IsTrue result ↔ InSession (Misses place) (MissesOrigin place) session.now }
{
    if !phase_misses(&session.phase, place) {
        return false;
    }
    if !marks_miss(session.marks.as_slice(), place) {
        return false;
    }
    cursors_miss(session.cursors.as_slice(), place)
}

fn sessions_miss(sessions: &[OpenSession], place: usize) -> bool
    ensures { IsTrue result ↔ AllByRecursion (InSession (Misses place) (MissesOrigin place)) sessions.now }
{
    let Some((session, more)) = sessions.split_first() else {
        return true;
    };
    if !session_misses(session, place) {
        return false;
    }
    sessions_miss(more, place)
}

impl Machine {
    /// Whether no catalog names the place.
    fn is_unnamed(&self, place: usize) -> bool
        ensures { IsTrue result ↔ IsUnnamed place self.now }
    {
        if !held_misses(&self.held, place) {
            return false;
        }
        sessions_miss(self.sessions.as_slice(), place)
    }

    /// Empties a place, where no catalog names it.
    fn free_unnamed(&mut self, place: usize)
        requires { IsSound self.old }
        ensures { Frees place self.old self.new }
    {
        if !self.is_unnamed(place) {
            return;
        }
        self.shelf.free(place);
    }

    /// Empties the places that no catalog names. All that is seen stays.
    pub fn sweep(&mut self)
        requires sound { IsSound self.old }
        ensures moved { Moved self.old self.new }
        ensures swept { IsSwept self.new }
    {
        for place in 0..self.shelf.places() {
            self.free_unnamed(place);
        }
    }
}
