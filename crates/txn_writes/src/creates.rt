//! CREATE.
ghost use Rattle.std.specs.Prelude.{◌≡◌, ◌<◌, ◌+◌, length};
ghost use Rattle.row_model.specs.Limits.{over_tables};
ghost use Rattle.row_model.specs.RefusalOrder.{first};
ghost use Rattle.row_model.specs.WellFormed.{IsWellFormedCreate};
ghost use Rattle.row_model.specs.declared.statement.Statement.TheVariants.{Create as CreateStatement};
ghost use Rattle.txn_sessions.specs.Lookups.{IsAt};
ghost use Rattle.txn_sessions.specs.Sound.{IsSound};
ghost use Rattle.txn_sessions.specs.Takes.{executed_at};
ghost use Rattle.txn_sessions.specs.Turns.{TurnsToOrWants};
ghost use Rattle.txn_writes.specs.inner.Makes.{Makes, catalog_seen};

use crate::tables::{number_seen, take};
use row_model::{Reply, Schema, over_tables};
use std::alloc::Global;
use table_version::TableVersion;
use txn_sessions::{Changed, Machine, Turn};
use vec_base::{Refusal, Txt};

/// The refusal of one more table in the catalog that a session sees.
fn table_refusal(machine: &Machine, at: usize) -> Option<Refusal>
    requires { at < length machine.now.sessions.items }
    ensures { result ≡ first (over_tables (length (catalog_seen machine.now at).tables + 1)) }
{
    over_tables((machine.shelf.tables(&machine.seen(at)) as u64).saturating_add(1))
}

/// What a CREATE makes, or what refuses it.
fn created(
    machine: &Machine,
    alloc: Global,
    at: usize,
    name: Txt,
    schema: Schema,
) -> Result<Changed, Refusal>
    requires sound { IsSound machine.now }
    requires within { at < length machine.now.sessions.items }
    requires formed { IsWellFormedCreate name schema }
    ensures { Makes machine.now at (executed_at machine.now at (CreateStatement name schema)) result }
{
    if number_seen(machine, at, &name).is_some() {
        return Err(Refusal::TableExists);
    }
    if let Some(refusal) = machine.write_refusal(at) {
        return Err(refusal);
    }
    if let Some(refusal) = table_refusal(machine, at) {
        return Err(refusal);
    }
    let held = machine.seen(at);
    let Some(number) = machine.shelf.free_number(&held) else {
        return Err(Refusal::WantOfMemory);
    };
    let Ok(version) = TableVersion::new(alloc, name, schema) else {
        return Err(Refusal::WantOfMemory);
    };
    Ok(Changed {
        held,
        number,
        version,
        origin: None,
        reply: Reply::Done,
    })
}

/// Makes an empty table.
pub fn create(machine: &mut Machine, alloc: Global, at: usize, name: Txt, schema: Schema) -> Turn
    requires sound { IsSound machine.old }
    requires at { IsAt machine.old.sessions.items at }
    requires well_formed { IsWellFormedCreate name schema }
    ensures { TurnsToOrWants machine.old (executed_at machine.old at (CreateStatement name schema)) result machine.new }
{
    machine.sweep();
    let made = created(machine, alloc, at, name, schema);
    take(machine, at, made)
}
