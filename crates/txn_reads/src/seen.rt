//! The table of a name that a session sees.
ghost use Rattle.std.specs.Prelude.{◌≡◌, ◌<◌, ◌≤◌, IfErr, IfOk, IfNone, IfSome, MatchOption, None, Some, length};
ghost use Rattle.knn_plan.specs.Plans.{IsPlanFor};
ghost use Rattle.row_model.specs.Check.{check_select};
ghost use Rattle.row_model.specs.Step.{found};
ghost use Rattle.row_model.specs.WellFormed.{IsWellFormedSelect};
ghost use Rattle.shadow_records.specs.PlacedTables.{IsPlaced};
ghost use Rattle.txn_reads.specs.SeenSchemas.{schema_found};
ghost use Rattle.txn_reads.specs.SeenTables.{IsSeen};
ghost use Rattle.txn_sessions.specs.Seen.{held_seen, session_at, state_of};

use knn_plan::{Plan, plan_select};
use row_model::{Schema, Select};
use table_version::TableVersion;
use txn_sessions::Machine;
use vec_base::{Refusal, Txt};
use version_shelf::Held;

/// A table that a session sees: its number in the catalog, and its version.
#[derive(Drop)]
pub(crate) struct SeenTable<'a> {
    pub(crate) number: u32,
    pub(crate) version: &'a TableVersion,
}

/// The version of the name in a catalog.
#[tactic(auto, using(crate::proofs::SeenLaws::seen_table, crate::proofs::SeenLaws::none_seen))]
fn version_of<'a>(machine: &'a Machine, at: usize, held: &Held, name: &Txt) -> Option<SeenTable<'a>>
    requires held { held.now ≡ held_seen machine.now at }
    ensures none { IfNone result (found name.now (state_of machine.now) (session_at machine.now at) ≡ None) }
    ensures some { IfSome result (λ seen. IsSeen machine.now at name.now seen.number seen.version.now) }
    ensures placed { IfSome result (λ seen. IsPlaced seen.version.now.table) }
{
    let number = machine.shelf.number(held, name)?;
    let Some(version) = machine.shelf.version(held, number) else {
        unreachable!();
    };
    version.known();
    Some(SeenTable { number, version })
}

/// The table of the name that a session sees.
pub(crate) fn seen_table<'a>(machine: &'a Machine, at: usize, name: &Txt) -> Option<SeenTable<'a>>
    requires at { at < length machine.now.sessions.items }
    ensures none { IfNone result (found name.now (state_of machine.now) (session_at machine.now at) ≡ None) }
    ensures some { IfSome result (λ seen. IsSeen machine.now at name.now seen.number seen.version.now) }
    ensures placed { IfSome result (λ seen. IsPlaced seen.version.now.table) }
{
    version_of(machine, at, &machine.seen(at), name)
}

/// The plan of a SELECT over a table.
pub(crate) fn plan_over(table: &TableVersion, select: Select) -> Result<Plan, Refusal>
    requires formed { IsWellFormedSelect select }
    ensures refused { IfErr result (λ refusal. check_select table.now.table.schema.columns select ≡ Some refusal) }
    ensures plan { IfOk result (λ plan. IsPlanFor table.now.table.schema.columns plan) }
    ensures select { IfOk result (λ plan. plan.select ≡ select) }
{
    table.known();
    plan_select(table.schema(), select)
}

/// The schema of the table of the name that a session sees.
#[tactic(auto, using(crate::proofs::SeenLaws::schema_of_seen, crate::proofs::SeenLaws::schema_nowhere))]
pub fn schema_seen<'a>(machine: &'a Machine, at: usize, name: &Txt) -> Option<&'a Schema>
    requires at { at < length machine.now.sessions.items }
    ensures { MatchOption result (schema_found name.now (state_of machine.now) (session_at machine.now at) ≡ None) (λ schema. schema_found name.now (state_of machine.now) (session_at machine.now at) ≡ Some schema.now) }
{
    let seen = seen_table(machine, at, name)?;
    Some(seen.version.schema())
}
