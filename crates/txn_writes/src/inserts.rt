//! INSERT.
ghost use Rattle.std.specs.Prelude.{◌≡◌, ◌≤◌, ◌<◌, None, length};
ghost use Rattle.row_model.specs.Check.{check_insert};
ghost use Rattle.row_model.specs.Step.{inserted_catalog};
ghost use Rattle.row_model.specs.Valid.{IsValidCatalog, IsValidState};
ghost use Rattle.row_model.specs.WellFormed.{IsWellFormedInsert};
ghost use Rattle.row_model.specs.declared.statement.Statement.TheVariants.{Insert as InsertStatement};
ghost use Rattle.shadow_records.specs.PlacedTables.{plain};
ghost use Rattle.txn_sessions.specs.Lookups.{IsAt};
ghost use Rattle.txn_sessions.specs.Seen.{state_of};
ghost use Rattle.txn_sessions.specs.Sound.{IsSound};
ghost use Rattle.txn_sessions.specs.Takes.{executed_at};
ghost use Rattle.txn_sessions.specs.Turns.{TurnsToOrWants};
ghost use Rattle.txn_writes.specs.inner.Makes.{IsOpened, Makes, MakesChange, catalog_seen, versions_seen};
ghost use Rattle.vec_base.specs.declared.limits.TheConstants.{MOST_TABLES};
ghost use Rattle.version_shelf.specs.Numbers.{IsNumber};

use crate::bytes::beside;
use crate::tables::{number_seen, opened, take, version_seen};
use knn_plan::check_insert;
use row_model::{Insert, Reply};
use std::alloc::Global;
use table_writes::insert_rows;
use txn_sessions::{Changed, Machine, Turn};
use vec_base::Refusal;
use version_shelf::Kept;

/// The opened version with the rows, or what refuses one of them.
fn grow(
    machine: &Machine,
    alloc: Global,
    at: usize,
    number: u32,
    kept: Kept,
    insert: &Insert,
) -> Result<Changed, Refusal>
    requires sound { IsSound machine.now }
    requires within { at < length machine.now.sessions.items }
    requires valid { IsValidCatalog (catalog_seen machine.now at) }
    requires opened { IsOpened machine.now at insert.now.table number kept }
    requires checked { check_insert kept.version.table.schema.columns insert.now ≡ None }
    requires formed { IsWellFormedInsert insert.now }
    ensures { MakesChange machine.now.shelf (inserted_catalog insert.now (catalog_seen machine.now at) (plain kept.version.table)) result }
{
    let Kept {
        mut version,
        origin,
    } = kept;
    match insert_rows(alloc, &mut version, beside(machine, at, number), insert) {
        Ok(last) => Ok(Changed {
            held: machine.seen(at),
            number,
            version,
            origin,
            reply: Reply::Inserted(insert.rows.len() as u64, last),
        }),
        Err(refusal) => Err(refusal),
    }
}

/// The table under the number with the rows, or what refuses them.
fn inserted_under(
    machine: &Machine,
    alloc: Global,
    at: usize,
    number: u32,
    insert: &Insert,
) -> Result<Changed, Refusal>
    requires sound { IsSound machine.now }
    requires within { at < length machine.now.sessions.items }
    requires valid { IsValidCatalog (catalog_seen machine.now at) }
    requires high { number ≤ MOST_TABLES }
    requires number { IsNumber insert.now.table (versions_seen machine.now at) number }
    requires formed { IsWellFormedInsert insert.now }
    ensures { Makes machine.now at (executed_at machine.now at (InsertStatement insert.now)) result }
{
    let version = version_seen(machine, at, number);
    version.known();
    if let Some(refusal) = check_insert(version.schema(), insert) {
        return Err(refusal);
    }
    match opened(machine, alloc, at, number) {
        Ok(kept) => grow(machine, alloc, at, number, kept, insert),
        Err(refusal) => Err(refusal),
    }
}

/// What an INSERT makes.
fn inserted(
    machine: &Machine,
    alloc: Global,
    at: usize,
    insert: &Insert,
) -> Result<Changed, Refusal>
    requires sound { IsSound machine.now }
    requires within { at < length machine.now.sessions.items }
    requires valid { IsValidCatalog (catalog_seen machine.now at) }
    requires formed { IsWellFormedInsert insert.now }
    ensures { Makes machine.now at (executed_at machine.now at (InsertStatement insert.now)) result }
{
    match number_seen(machine, at, &insert.table) {
        Some(number) => inserted_under(machine, alloc, at, number, insert),
        None => Err(Refusal::NoTable),
    }
}

/// Adds rows to a table, all or none.
pub fn insert(machine: &mut Machine, alloc: Global, at: usize, insert: &Insert) -> Turn
    requires sound { IsSound machine.old }
    requires at { IsAt machine.old.sessions.items at }
    requires valid { IsValidState (state_of machine.old) }
    requires well_formed { IsWellFormedInsert insert.now }
    ensures { TurnsToOrWants machine.old (executed_at machine.old at (InsertStatement insert.now)) result machine.new }
{
    machine.sweep();
    let made = inserted(machine, alloc, at, insert);
    take(machine, at, made)
}
