//! UPDATE.
ghost use Rattle.std.specs.Prelude.{◌≡◌, ◌≤◌, ◌<◌, None, length, IfSome};
ghost use Rattle.knn_plan.specs.Plans.{IsPlanFor};
ghost use Rattle.row_model.specs.Check.{check_update};
ghost use Rattle.row_model.specs.Step.{updated_catalog};
ghost use Rattle.row_model.specs.Valid.{IsValidCatalog, IsValidState};
ghost use Rattle.row_model.specs.WellFormed.{IsWellFormedUpdate};
ghost use Rattle.row_model.specs.declared.statement.Statement.TheVariants.{Update as UpdateStatement};
ghost use Rattle.shadow_records.specs.PlacedTables.{plain};
ghost use Rattle.table_writes.specs.Writing.{update_with};
ghost use Rattle.txn_sessions.specs.Lookups.{IsAt};
ghost use Rattle.txn_sessions.specs.Seen.{state_of};
ghost use Rattle.txn_sessions.specs.Sound.{IsSound};
ghost use Rattle.txn_sessions.specs.Takes.{executed_at};
ghost use Rattle.txn_sessions.specs.Turns.{TurnsToOrWants};
ghost use Rattle.txn_writes.specs.inner.Makes.{IsOpened, Makes, MakesChange, catalog_seen, version_seen, versions_seen};
ghost use Rattle.vec_base.specs.declared.limits.TheConstants.{MOST_TABLES};
ghost use Rattle.version_shelf.specs.Numbers.{IsNumber};

use crate::bytes::beside;
use crate::tables::{number_seen, opened, take, version_seen};
use knn_plan::{Plan, plan_update};
use row_model::{Assign, Reply, Update};
use std::alloc::Global;
use table_writes::update_rows;
use txn_sessions::{Changed, Machine, Turn};
use vec_base::{List, Refusal};
use version_shelf::Kept;

/// The opened version with the new values, or what refuses them.
fn set_in(
    machine: &Machine,
    alloc: Global,
    at: usize,
    number: u32,
    kept: Kept,
    plan: &Plan,
    sets: &List<Assign>,
) -> Result<Changed, Refusal>
    requires sound { IsSound machine.now }
    requires within { at < length machine.now.sessions.items }
    requires valid { IsValidCatalog (catalog_seen machine.now at) }
    requires opened { IsOpened machine.now at plan.now.select.table number kept }
    requires plan { IsPlanFor kept.version.table.schema.columns plan.now }
    requires checked { check_update kept.version.table.schema.columns (update_with plan.now.select sets.now) ≡ None }
    ensures { MakesChange machine.now.shelf (updated_catalog (update_with plan.now.select sets.now) (catalog_seen machine.now at) (plain kept.version.table)) result }
{
    let Kept {
        mut version,
        origin,
    } = kept;
    let other = beside(machine, at, number);
    match update_rows(alloc, &mut version, other, plan, sets) {
        Ok(count) => Ok(Changed {
            held: machine.seen(at),
            number,
            version,
            origin,
            reply: Reply::Changed(count),
        }),
        Err(refusal) => Err(refusal),
    }
}

/// The table under the number with the new values in the rows that a plan finds, or what refuses them.
fn set_under(
    machine: &Machine,
    alloc: Global,
    at: usize,
    number: u32,
    plan: &Plan,
    sets: &List<Assign>,
) -> Result<Changed, Refusal>
    requires sound { IsSound machine.now }
    requires within { at < length machine.now.sessions.items }
    requires valid { IsValidCatalog (catalog_seen machine.now at) }
    requires high { number ≤ MOST_TABLES }
    requires number { IsNumber plan.now.select.table (versions_seen machine.now at) number }
    requires plan { IfSome (version_seen machine.now at number) (λ version. IsPlanFor version.table.schema.columns plan.now) }
    requires checked { IfSome (version_seen machine.now at number) (λ version. check_update version.table.schema.columns (update_with plan.now.select sets.now) ≡ None) }
    ensures { Makes machine.now at (executed_at machine.now at (UpdateStatement (update_with plan.now.select sets.now))) result }
{
    match opened(machine, alloc, at, number) {
        Ok(kept) => set_in(machine, alloc, at, number, kept, plan, sets),
        Err(refusal) => Err(refusal),
    }
}

/// The table under the number with the new values, or what refuses them.
fn updated_under(
    machine: &Machine,
    alloc: Global,
    at: usize,
    number: u32,
    update: Update,
) -> Result<Changed, Refusal>
    requires sound { IsSound machine.now }
    requires within { at < length machine.now.sessions.items }
    requires valid { IsValidCatalog (catalog_seen machine.now at) }
    requires high { number ≤ MOST_TABLES }
    requires number { IsNumber update.table (versions_seen machine.now at) number }
    requires formed { IsWellFormedUpdate update }
    ensures { Makes machine.now at (executed_at machine.now at (UpdateStatement update)) result }
{
    let version = version_seen(machine, at, number);
    version.known();
    match plan_update(version.schema(), update) {
        Ok((plan, sets)) => set_under(machine, alloc, at, number, &plan, &sets),
        Err(refusal) => Err(refusal),
    }
}

/// What an UPDATE makes.
fn updated(machine: &Machine, alloc: Global, at: usize, update: Update) -> Result<Changed, Refusal>
    requires sound { IsSound machine.now }
    requires within { at < length machine.now.sessions.items }
    requires valid { IsValidCatalog (catalog_seen machine.now at) }
    requires formed { IsWellFormedUpdate update }
    ensures { Makes machine.now at (executed_at machine.now at (UpdateStatement update)) result }
{
    match number_seen(machine, at, &update.table) {
        Some(number) => updated_under(machine, alloc, at, number, update),
        None => Err(Refusal::NoTable),
    }
}

/// Gives columns new values in the rows that meet all terms, in all of them or none.
pub fn update(machine: &mut Machine, alloc: Global, at: usize, update: Update) -> Turn
    requires sound { IsSound machine.old }
    requires at { IsAt machine.old.sessions.items at }
    requires valid { IsValidState (state_of machine.old) }
    requires well_formed { IsWellFormedUpdate update }
    ensures { TurnsToOrWants machine.old (executed_at machine.old at (UpdateStatement update)) result machine.new }
{
    machine.sweep();
    let made = updated(machine, alloc, at, update);
    take(machine, at, made)
}
