//! DELETE.
ghost use Rattle.std.specs.Prelude.{◌≡◌, ◌≤◌, ◌<◌, length, None, Ok as ok, IfSome};
ghost use Rattle.knn_plan.specs.Plans.{IsPlanFor};
ghost use Rattle.row_model.specs.Check.{check_delete};
ghost use Rattle.row_model.specs.Step.{kept_catalog};
ghost use Rattle.row_model.specs.WellFormed.{IsWellFormedDelete};
ghost use Rattle.row_model.specs.declared.statement.Statement.TheVariants.{Delete as DeleteStatement};
ghost use Rattle.shadow_records.specs.PlacedTables.{plain};
ghost use Rattle.table_writes.specs.Writing.{delete_with};
ghost use Rattle.txn_sessions.specs.Lookups.{IsAt};
ghost use Rattle.txn_sessions.specs.Sound.{IsSound};
ghost use Rattle.txn_sessions.specs.Takes.{executed_at};
ghost use Rattle.txn_sessions.specs.Turns.{TurnsToOrWants};
ghost use Rattle.txn_writes.specs.inner.Makes.{IsOpened, Makes, MakesChange, catalog_seen, version_seen, versions_seen};
ghost use Rattle.vec_base.specs.declared.limits.TheConstants.{MOST_TABLES};
ghost use Rattle.version_shelf.specs.Numbers.{IsNumber};

use crate::tables::{number_seen, opened, take, version_seen};
use knn_plan::{Plan, plan_delete};
use row_model::{Delete, Reply};
use std::alloc::Global;
use table_writes::delete_rows;
use txn_sessions::{Changed, Machine, Turn};
use vec_base::{Memory, Refusal};
use version_shelf::Kept;

/// The opened version without the rows that the plan finds.
fn remove_in(
    machine: &Machine,
    alloc: Global,
    at: usize,
    number: u32,
    kept: Kept,
    plan: &Plan,
) -> Result<Changed, Refusal>
    requires sound { IsSound machine.now }
    requires within { at < length machine.now.sessions.items }
    requires opened { IsOpened machine.now at plan.now.select.table number kept }
    requires plan { IsPlanFor kept.version.table.schema.columns plan.now }
    ensures { MakesChange machine.now.shelf (ok (kept_catalog (delete_with plan.now.select) (catalog_seen machine.now at) (plain kept.version.table))) result }
{
    let Kept {
        mut version,
        origin,
    } = kept;
    match delete_rows(alloc, &mut version, plan) {
        Ok(count) => Ok(Changed {
            held: machine.seen(at),
            number,
            version,
            origin,
            reply: Reply::Changed(count),
        }),
        Err(Memory) => Err(Refusal::WantOfMemory),
    }
}

/// The table under the number without the rows that a plan finds, or what refuses that.
fn remove_under(
    machine: &Machine,
    alloc: Global,
    at: usize,
    number: u32,
    plan: &Plan,
) -> Result<Changed, Refusal>
    requires sound { IsSound machine.now }
    requires within { at < length machine.now.sessions.items }
    requires high { number ≤ MOST_TABLES }
    requires number { IsNumber plan.now.select.table (versions_seen machine.now at) number }
    requires plan { IfSome (version_seen machine.now at number) (λ version. IsPlanFor version.table.schema.columns plan.now) }
    requires checked { IfSome (version_seen machine.now at number) (λ version. check_delete version.table.schema.columns (delete_with plan.now.select) ≡ None) }
    ensures { Makes machine.now at (executed_at machine.now at (DeleteStatement (delete_with plan.now.select))) result }
{
    match opened(machine, alloc, at, number) {
        Ok(kept) => remove_in(machine, alloc, at, number, kept, plan),
        Err(refusal) => Err(refusal),
    }
}

/// The table under the number without the rows, or what refuses that.
fn deleted_under(
    machine: &Machine,
    alloc: Global,
    at: usize,
    number: u32,
    delete: Delete,
) -> Result<Changed, Refusal>
    requires sound { IsSound machine.now }
    requires within { at < length machine.now.sessions.items }
    requires high { number ≤ MOST_TABLES }
    requires number { IsNumber delete.table (versions_seen machine.now at) number }
    requires formed { IsWellFormedDelete delete }
    ensures { Makes machine.now at (executed_at machine.now at (DeleteStatement delete)) result }
{
    let version = version_seen(machine, at, number);
    version.known();
    match plan_delete(version.schema(), delete) {
        Ok(plan) => remove_under(machine, alloc, at, number, &plan),
        Err(refusal) => Err(refusal),
    }
}

/// What a DELETE makes.
fn deleted(machine: &Machine, alloc: Global, at: usize, delete: Delete) -> Result<Changed, Refusal>
    requires sound { IsSound machine.now }
    requires within { at < length machine.now.sessions.items }
    requires formed { IsWellFormedDelete delete }
    ensures { Makes machine.now at (executed_at machine.now at (DeleteStatement delete)) result }
{
    match number_seen(machine, at, &delete.table) {
        Some(number) => deleted_under(machine, alloc, at, number, delete),
        None => Err(Refusal::NoTable),
    }
}

/// Removes the rows that meet all terms.
pub fn delete(machine: &mut Machine, alloc: Global, at: usize, delete: Delete) -> Turn
    requires sound { IsSound machine.old }
    requires at { IsAt machine.old.sessions.items at }
    requires well_formed { IsWellFormedDelete delete }
    ensures { TurnsToOrWants machine.old (executed_at machine.old at (DeleteStatement delete)) result machine.new }
{
    machine.sweep();
    let made = deleted(machine, alloc, at, delete);
    take(machine, at, made)
}
