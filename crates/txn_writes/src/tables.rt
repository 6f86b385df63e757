//! The table that is written, and the changed one.
ghost use Rattle.std.specs.Prelude.{◌≡◌, ◌⊎◌, ◌≤◌, ◌<◌, ℕ, List as Seq, None, Some, length, IfErr, IfNone, IfOk, IfSome, IsSome};
ghost use Rattle.row_model.specs.Step.{found};
ghost use Rattle.row_model.specs.declared.request.Reply.{Reply as ReplyOf};
ghost use Rattle.row_model.specs.declared.state.State.{State as StateOf};
ghost use Rattle.txn_sessions.specs.Changes.{IsPut};
ghost use Rattle.txn_sessions.specs.Lookups.{IsAt};
ghost use Rattle.txn_sessions.specs.Seen.{session_at, state_of};
ghost use Rattle.txn_sessions.specs.Sound.{IsSound};
ghost use Rattle.txn_sessions.specs.Turns.{TurnsToOrWants};
ghost use Rattle.txn_writes.specs.inner.Makes.{IsOpened, Makes, version_seen, versions_seen, write_refusal};
ghost use Rattle.vec_base.specs.declared.limits.TheConstants.{MOST_TABLES};
ghost use Rattle.vec_base.specs.declared.refusal.Refusal.TheVariants.{WantOfMemory};
ghost use Rattle.version_shelf.specs.Numbers.{IsNumber};

use row_model::Reply;
use std::alloc::Global;
use table_version::TableVersion;
use txn_sessions::{Changed, Machine, Turn};
use vec_base::{Refusal, Txt};
use version_shelf::Kept;

/// The number of the table of the name in the catalog that a session sees.
pub(crate) fn number_seen(machine: &Machine, at: usize, name: &Txt) -> Option<u32>
    requires { at < length machine.now.sessions.items }
    ensures high { IfSome result (λ number. number ≤ MOST_TABLES) }
    ensures none { IfNone result (found name.now (state_of machine.now) (session_at machine.now at) ≡ None) }
    ensures some { IfSome result (λ number. IsNumber name.now (versions_seen machine.now at) number) }
{
    machine.shelf.number(&machine.seen(at), name)
}

/// The version under a number of the catalog that a session sees.
pub(crate) fn version_seen(machine: &Machine, at: usize, number: u32) -> &TableVersion
    requires within { at < length machine.now.sessions.items }
    requires low { 1 ≤ number }
    requires high { number ≤ MOST_TABLES }
    requires there { IsSome (version_seen machine.now at number) }
    ensures { version_seen machine.now at number ≡ Some result.now }
{
    match machine.shelf.version(&machine.seen(at), number) {
        Some(version) => version,
        None => unreachable!(),
    }
}

/// An equal version of the one under a number, to be changed, or what refuses each write.
pub(crate) fn opened(
    machine: &Machine,
    alloc: Global,
    at: usize,
    number: u32,
) -> Result<Kept, Refusal>
    requires within { at < length machine.now.sessions.items }
    requires low { 1 ≤ number }
    requires high { number ≤ MOST_TABLES }
    requires there { IsSome (version_seen machine.now at number) }
    ensures free { IfOk result (λ kept. write_refusal machine.now at ≡ None) }
    ensures kept { IfOk result (λ kept. (name : Seq ℕ) → IsNumber name (versions_seen machine.now at) number → IsOpened machine.now at name number kept) }
    ensures refused { IfErr result (λ refusal. (write_refusal machine.now at ≡ Some refusal) ⊎ (refusal ≡ WantOfMemory)) }
{
    if let Some(refusal) = machine.write_refusal(at) {
        return Err(refusal);
    }
    match machine
        .shelf
        .share(alloc, &machine.seen(at), &machine.held, number)
    {
        Ok(kept) => Ok(kept),
        Err(_) => Err(Refusal::WantOfMemory),
    }
}

/// Takes in what a write made, or refuses it.
pub(crate) fn take(machine: &mut Machine, at: usize, made: Result<Changed, Refusal>) -> Turn
    requires sound { IsSound machine.old }
    requires at { IsAt machine.old.sessions.items at }
    requires put { IfOk made (λ changed. IsPut machine.old.shelf changed) }
    ensures { (answer : ReplyOf × StateOf) → Makes machine.old at answer made → TurnsToOrWants machine.old answer result machine.new }
{
    match made {
        Ok(changed) => machine.take_version(at, changed),
        Err(refusal) => Turn::Answered(Reply::Refused(refusal)),
    }
}
