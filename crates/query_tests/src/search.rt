//! Plans and what they find.
ghost use Rattle.std.specs.Prelude.{◌≡◌, ◌≤◌, ◌++◌, [], ◌∷◌, length, IfOk, OnOk};
ghost use Rattle.vec_base.specs.declared.limits.TheConstants.{MOST_TERMS};
ghost use Rattle.knn_plan.specs.Plans.{IsPlanFor};
ghost use Rattle.row_model.specs.Check.{item_count};

use knn_plan::{Plan, plan_select};
use nearest_query::nearest;
use row_model::{Column, Constraint, Items, Kind, Order, Select, Test};
use std::alloc::Global;
use std::marker::Sync;
use std::test::Fail;
use std::thread::Threads;
use table_version::TableVersion;
use topk_merge::{Hit, NoGate};
use vec_base::{List, MOST_TERMS, Memory, Op, Steps, Txt, Value};

/// A column.
pub(crate) fn column(alloc: Global, name: &str, kind: Kind) -> Result<Column, Memory>
    ensures name { IfOk result (λ column. column.name ≡ name.now) }
    ensures kind { IfOk result (λ column. column.kind ≡ kind) }
{
    Ok(Column {
        name: Txt::from_text(alloc, name)?,
        kind,
    })
}

/// A term.
pub(crate) fn term(alloc: Global, name: &str, test: Test) -> Result<Constraint, Memory> {
    Ok(Constraint {
        column: Txt::from_text(alloc, name)?,
        test,
    })
}

/// A comparison with a text.
pub(crate) fn text_test(alloc: Global, op: Op, text: &str) -> Result<Test, Memory> {
    Ok(Test::Compare(op, Value::Text(Txt::from_text(alloc, text)?)))
}

/// The plan of a SELECT of these items with these terms.
pub(crate) fn plan_of(
    alloc: Global,
    version: &TableVersion,
    items: Items,
    where_terms: List<Constraint>,
) -> Result<Plan, Fail>
    requires items { item_count items ≤ MOST_TERMS }
    requires terms { length where_terms ≤ MOST_TERMS }
    ensures { IfOk result (λ plan. IsPlanFor version.now.table.schema.columns plan) }
{
    version.known();
    let select = Select {
        table: Txt::from_text(alloc, "v")?,
        items,
        where_terms,
        order: Order::Unsaid,
        limit: None,
    };
    match plan_select(version.schema(), select) {
        Ok(plan) => Ok(plan),
        Err(_) => Err(Fail::from("refused")),
    }
}

/// What a search by a plan finds.
pub(crate) fn found<R: Threads + Sync>(
    rt: &R,
    alloc: Global,
    version: &TableVersion,
    plan: &Plan,
) -> Result<List<Hit>, Fail>
    requires { IsPlanFor version.now.table.schema.columns plan.now }
{
    if plan.target().is_none() {
        return Err(Fail::from("no target"));
    }
    let mut steps = Steps::new();
    let hits = nearest(rt, alloc, version, plan, 2, &NoGate, &mut steps)?;
    Ok(hits)
}

/// The rowid and the distance of a hit, if there is one.
pub(crate) fn hit_at(hits: &List<Hit>, place: usize) -> Option<(i64, u32)> {
    let hit = hits.as_slice().get(place)?;
    Some((hit.rowid, hit.distance))
}
