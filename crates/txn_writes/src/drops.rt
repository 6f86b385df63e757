//! DROP.
ghost use Rattle.row_model.specs.Valid.{IsValidCatalog, IsValidState};
ghost use Rattle.row_model.specs.declared.statement.Statement.TheVariants.{Drop as DropStatement};
ghost use Rattle.txn_sessions.specs.Lookups.{IsAt};
ghost use Rattle.txn_sessions.specs.Seen.{state_of};
ghost use Rattle.txn_sessions.specs.Sound.{IsSound};
ghost use Rattle.txn_sessions.specs.Takes.{executed_at};
ghost use Rattle.txn_sessions.specs.Turns.{TurnsTo};
ghost use Rattle.txn_writes.specs.inner.Makes.{catalog_seen};

use crate::tables::number_seen;
use row_model::Reply;
use txn_sessions::{Machine, Turn};
use vec_base::{Refusal, Txt};

/// Removes a table, on a shelf that was swept.
fn dropped(machine: &mut Machine, at: usize, name: &Txt) -> Turn
    requires sound { IsSound machine.old }
    requires at { IsAt machine.old.sessions.items at }
    requires valid { IsValidCatalog (catalog_seen machine.old at) }
    ensures { TurnsTo machine.old (executed_at machine.old at (DropStatement name.now)) result machine.new }
{
    let Some(number) = number_seen(machine, at, name) else {
        return Turn::Answered(Reply::Refused(Refusal::NoTable));
    };
    if let Some(refusal) = machine.write_refusal(at) {
        return Turn::Answered(Reply::Refused(refusal));
    }
    let held = machine.seen(at).without(number);
    machine.take_catalog(at, held, Reply::Done)
}

/// Removes a table. It takes no memory.
pub fn drop_table(machine: &mut Machine, at: usize, name: &Txt) -> Turn
    requires sound { IsSound machine.old }
    requires at { IsAt machine.old.sessions.items at }
    requires valid { IsValidState (state_of machine.old) }
    ensures { TurnsTo machine.old (executed_at machine.old at (DropStatement name.now)) result machine.new }
{
    machine.sweep();
    dropped(machine, at, name)
}
