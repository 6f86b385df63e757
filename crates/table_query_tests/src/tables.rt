//! A table of three rows, and plans for it.
ghost use Rattle.std.specs.Prelude.{◌≡◌, ◌≤◌, true, [], ◌∷◌, IfOk, length};
ghost use Rattle.vec_base.specs.declared.limits.TheConstants.{MOST_TERMS};
ghost use Rattle.vec_base.specs.declared.value.Value.TheVariants.{Int, Int8, Null, Text};
ghost use Rattle.knn_plan.specs.Plans.{IsPlanFor};
ghost use Rattle.row_model.specs.Check.{item_count};
ghost use Rattle.table_query_tests.specs.FourColumns.{four_columns};

use knn_plan::{Plan, plan_select};
use row_model::{Column, Constraint, Items, Kind, Metric, Order, Schema, Select, Test};
use std::alloc::Global;
use std::test::Fail;
use table_version::TableVersion;
use vec_base::{Bytes, List, MOST_TERMS, Memory, Op, Txt, Value};

/// The four columns, in chunks of 8 rows.
fn schema(alloc: Global) -> Result<Schema, Memory>
    ensures columns { IfOk result (λ schema. schema.columns ≡ four_columns) }
    ensures size { IfOk result (λ schema. schema.chunk_size ≡ 8) }
{
    let mut columns = List::new(alloc);
    columns.push(Column {
        name: Txt::from_text(alloc, "id")?,
        kind: Kind::TextKey,
    })?;
    columns.push(Column {
        name: Txt::from_text(alloc, "a")?,
        kind: Kind::Int8Vector(2, Metric::L2),
    })?;
    columns.push(Column {
        name: Txt::from_text(alloc, "m")?,
        kind: Kind::IntMeta,
    })?;
    columns.push(Column {
        name: Txt::from_text(alloc, "n")?,
        kind: Kind::TextAux,
    })?;
    Ok(Schema {
        columns,
        chunk_size: 8,
    })
}

/// A table of these columns.
fn table(alloc: Global) -> Result<TableVersion, Memory>
    ensures { IfOk result (λ version. version.table.schema.columns ≡ four_columns) }
{
    let name = Txt::from_text(alloc, "v")?;
    TableVersion::new(alloc, name, schema(alloc)?)
}

/// The values of a row without a note.
fn values(alloc: Global, id: &str, first: u8, number: i64) -> Result<List<Value>, Memory>
    ensures { IfOk result (λ values. values ≡ Text id.now ∷ Int8 (first ∷ 0 ∷ []) ∷ Int number ∷ Null ∷ []) }
{
    let mut values = List::new(alloc);
    values.push(Value::Text(Txt::from_text(alloc, id)?))?;
    values.push(Value::Int8(Bytes::from_slice(alloc, &[first, 0])?))?;
    values.push(Value::Int(number))?;
    values.push(Value::Null)?;
    Ok(values)
}

/// Puts in a row with an assigned rowid.
#[tactic(auto, using(crate::proofs::ColumnLaws::values_fit))]
fn insert(
    alloc: Global,
    version: &mut TableVersion,
    id: &str,
    first: u8,
    number: i64,
) -> Result<(), Fail>
    requires columns { version.old.table.schema.columns ≡ four_columns }
    requires short { length id.now ≤ 8 }
    ensures { version.new.table.schema.columns ≡ four_columns }
{
    let values = values(alloc, id, first, number)?;
    match version.insert(alloc, None, &values) {
        Ok(_) => Ok(()),
        Err(_) => Err(Fail::from("refused")),
    }
}

/// A table with three rows.
pub(crate) fn three_rows(alloc: Global) -> Result<TableVersion, Fail> {
    let mut version = table(alloc)?;
    insert(alloc, &mut version, "x", 1, 10)?;
    insert(alloc, &mut version, "y", 2, 20)?;
    insert(alloc, &mut version, "z", 3, 10)?;
    Ok(version)
}

/// A term on each column of these names.
pub(crate) fn terms(alloc: Global, tests: Vec<(&str, Test)>) -> Result<List<Constraint>, Fail>
    ensures { IfOk result (λ terms. length terms ≤ MOST_TERMS) }
{
    let mut terms = List::new(alloc);
    for (name, test) in tests {
        terms.push(Constraint {
            column: Txt::from_text(alloc, name)?,
            test,
        })?;
    }
    if MOST_TERMS < terms.len() {
        return Err(Fail::from("too many terms"));
    }
    Ok(terms)
}

pub(crate) fn equal(number: i64) -> Test {
    Test::Compare(Op::Eq, Value::Int(number))
}

/// The plan of a SELECT of these items.
pub(crate) fn plan_of(
    alloc: Global,
    version: &TableVersion,
    items: Items,
    where_terms: List<Constraint>,
) -> Result<Plan, Fail>
    requires items { item_count items ≤ MOST_TERMS }
    requires terms { length where_terms ≤ MOST_TERMS }
    ensures { IfOk result (λ plan. IsPlanFor version.now.table.schema.columns plan) }
{
    version.known();
    let select = Select {
        table: Txt::from_text(alloc, "v")?,
        items,
        where_terms,
        order: Order::Unsaid,
        limit: None,
    };
    match plan_select(version.schema(), select) {
        Ok(plan) => Ok(plan),
        Err(_) => Err(Fail::from("refused")),
    }
}
