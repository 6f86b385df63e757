//! The end of a turn.
ghost use Rattle.std.specs.Prelude.{◌≡◌, ◌<◌, ◌+◌, IfSome, IsTrue, length};
ghost use Rattle.vec_base.specs.declared.limits.TheConstants.{MOST_COMMITS};
ghost use Rattle.row_model.specs.Valid.{IsValidState};
ghost use Rattle.txn_commits.specs.Ending.{Finishes, Holds, IsReady};
ghost use Rattle.txn_commits.specs.Keeping.{meanings};
ghost use Rattle.txn_commits.specs.Outcomes.{if_kept, reply_as};
ghost use Rattle.txn_sessions.specs.Seen.{state_from, state_of};
ghost use Rattle.txn_sessions.specs.Sound.{IsOn, IsSound};
ghost use Rattle.txn_sessions.specs.Turns.{ended_at};
ghost use Rattle.version_shelf.specs.OnShelf.{shown};

use crate::batch::keep;
use row_model::Reply;
use shadow_keeper::{Keeper, Kept};
use std::alloc::Global;
use txn_sessions::{Machine, Phase, Turn};
use vec_base::Refusal;
use version_shelf::Held;

/// The reply, where the commit was made.
fn reply_to(kept: Kept, reply: Reply) -> Reply
    ensures { result ≡ reply_as kept reply }
{
    match kept {
        Kept::Done => reply,
        Kept::Failed => Reply::Refused(Refusal::StoreFault),
        Kept::Memory => Reply::Refused(Refusal::WantOfMemory),
    }
}

/// The session's transaction ends.
fn end_transaction(machine: &mut Machine, ending: Option<usize>)
    requires ends { IfSome ending (λ at. at < length machine.old.sessions.items) }
    ensures shelf { machine.new.shelf ≡ machine.old.shelf }
    ensures held { machine.new.held ≡ machine.old.held }
    ensures commits { machine.new.commits ≡ machine.old.commits }
    ensures last_id { machine.new.last_id ≡ machine.old.last_id }
    ensures sessions { machine.new.sessions.items ≡ ended_at ending machine.old.sessions.items }
{
    if let Some(at) = ending {
        machine.sessions[at].enter(Phase::Idle);
    }
}

/// The catalog is the committed one, and the session's transaction ends.
fn advance(machine: &mut Machine, held: Held, ending: Option<usize>)
    requires few { machine.old.commits < MOST_COMMITS }
    requires ends { IfSome ending (λ at. at < length machine.old.sessions.items) }
    ensures shelf { machine.new.shelf ≡ machine.old.shelf }
    ensures held { machine.new.held ≡ held }
    ensures commits { machine.new.commits ≡ machine.old.commits + 1 }
    ensures last_id { machine.new.last_id ≡ machine.old.last_id }
    ensures sessions { machine.new.sessions.items ≡ ended_at ending machine.old.sessions.items }
{
    end_transaction(machine, ending);
    machine.held = held;
    machine.commits += 1;
}

/// The catalog is the committed one, where its commit was made.
fn settle(machine: &mut Machine, kept: Kept, held: Held, ending: Option<usize>)
    requires sound { IsSound machine.old }
    requires on { IsOn machine.old.shelf held }
    requires few { machine.old.commits < MOST_COMMITS }
    requires ends { IfSome ending (λ at. at < length machine.old.sessions.items) }
    ensures sound { IsSound machine.new }
    ensures state { state_of machine.new ≡ if_kept kept (state_from machine.old.shelf held (machine.old.commits + 1) machine.old.last_id (ended_at ending machine.old.sessions.items)) (state_of machine.old) }
    ensures shown { shown machine.new.shelf machine.new.held.places ≡ if_kept kept (shown machine.old.shelf held.places) (shown machine.old.shelf machine.old.held.places) }
{
    match kept {
        Kept::Done => advance(machine, held, ending),
        Kept::Failed => {}
        Kept::Memory => {}
    }
}

/// Brings a turn to its end: an answer stays as it is, and a catalog is committed to the keeper.
pub fn finish<K: Keeper>(alloc: Global, machine: &mut Machine, keeper: &mut K, turn: Turn) -> Reply
    requires sound { IsSound machine.old }
    requires valid { IsValidState (state_of machine.old) }
    requires ready { IsReady machine.old turn }
    requires ended { IsTrue (K.ended keeper.old) }
    requires holds { Holds (meanings K.ended K.tells K.tables K.faults K.stopped K.moment K.stopped_since) machine.old keeper.old }
    ensures { Finishes (meanings K.ended K.tells K.tables K.faults K.stopped K.moment K.stopped_since) machine.old keeper.old turn result machine.new keeper.new }
{
    match turn {
        Turn::Answered(reply) => reply,
        Turn::Commits(held, reply, ending) => {
            let kept = keep(alloc, &machine.shelf, keeper, &machine.held, &held);
            settle(machine, kept, held, ending);
            reply_to(kept, reply)
        }
    }
}
