//! Plans over one table.
ghost use Rattle.std.specs.Prelude.{◌≤◌, length, IfOk};
ghost use Rattle.row_model.specs.declared.schema.TheConstants.{MOST_COLUMNS};
ghost use Rattle.vec_base.specs.declared.limits.TheConstants.{MOST_TERMS};

use knn_plan::{Plan, check_insert, plan_delete, plan_select, plan_update};
use row_model::{
    Assign, Column, Constraint, Delete, Insert, Items, Kind, MOST_COLUMNS, Metric, Order, Role,
    Schema, Select, Shape, Test, Update,
};
use std::alloc::Global;
use std::test::Fail;
use vec_base::{Bytes, List, MOST_TERMS, Op, Refusal, Txt, Value};

fn text(alloc: Global, name: &str) -> Result<Txt, Fail> {
    Ok(Txt::from_text(alloc, name)?)
}

/// Two columns of vectors, a partition column and two metadata columns.
fn schema(alloc: Global) -> Result<Schema, Fail>
    ensures { IfOk result (λ schema. length schema.columns ≤ MOST_COLUMNS) }
{
    let mut columns = List::new(alloc);
    for (name, kind) in [
        ("a", Kind::Int8Vector(2, Metric::L2)),
        ("p", Kind::IntPartition),
        ("m", Kind::IntMeta),
        ("b", Kind::BitVector(8)),
        ("n", Kind::BoolMeta),
    ] {
        columns.push(Column {
            name: text(alloc, name)?,
            kind,
        })?;
    }
    if MOST_COLUMNS < columns.len() {
        return Err(Fail::from("too many columns"));
    }
    Ok(Schema {
        columns,
        chunk_size: 8,
    })
}

/// A term on each column of these names.
fn terms(alloc: Global, tests: Vec<(&str, Test)>) -> Result<List<Constraint>, Fail>
    ensures { IfOk result (λ terms. length terms ≤ MOST_TERMS) }
{
    let mut terms = List::new(alloc);
    for (name, test) in tests {
        terms.push(Constraint {
            column: text(alloc, name)?,
            test,
        })?;
    }
    if MOST_TERMS < terms.len() {
        return Err(Fail::from("too many terms"));
    }
    Ok(terms)
}

fn equal(number: i64) -> Test {
    Test::Compare(Op::Eq, Value::Int(number))
}

/// The plan of the SELECT of all columns with these terms.
fn plan_of(alloc: Global, where_terms: List<Constraint>) -> Result<Plan, Fail>
    requires { length where_terms ≤ MOST_TERMS }
{
    let select = Select {
        table: text(alloc, "v")?,
        items: Items::All,
        where_terms,
        order: Order::Unsaid,
        limit: None,
    };
    match plan_select(&schema(alloc)?, select) {
        Ok(plan) => Ok(plan),
        Err(_) => Err(Fail::from("refused")),
    }
}

#[test]
fn a_search_has_its_target(rt: HostRuntime) -> Result<(), Fail> {
    let alloc = rt.alloc();
    let query = Value::Bits(Bytes::from_slice(alloc, &[7])?);
    let mut tests = Vec::new(alloc);
    tests.push(("n", equal(1)))?;
    tests.push(("k", equal(5)))?;
    tests.push(("b", Test::Match(query)))?;
    let plan = plan_of(alloc, terms(alloc, tests)?)?;
    assert_eq!(rt; plan.shape(), Shape::Nearest);
    assert_eq!(rt; plan.count(), 5);
    assert!(rt; !plan.is_by_row() && !plan.is_by_distance());
    let Some(target) = plan.target() else {
        return Err(Fail::from("no target"));
    };
    assert_eq!(rt; target.column.number, 1);
    assert!(rt; matches!(target.query, Value::Bits(_)));
    let columns = plan.terms();
    assert!(rt; columns.len() == 3 && columns[0].number == 1);
    assert!(rt; columns[0].has_role(Role::Metadata));
    Ok(())
}

#[test]
fn a_point_has_its_terms(rt: HostRuntime) -> Result<(), Fail> {
    let alloc = rt.alloc();
    let mut listed = List::new(alloc);
    listed.push(Value::Int(4))?;
    let mut tests = Vec::new(alloc);
    tests.push(("m", equal(1)))?;
    tests.push(("rowid", Test::Compare(Op::Gt, Value::Int(2))))?;
    tests.push(("rowid", Test::Member(listed)))?;
    tests.push(("rowid", equal(4)))?;
    let plan = plan_of(alloc, terms(alloc, tests)?)?;
    assert_eq!(rt; plan.shape(), Shape::Point);
    assert_eq!(rt; plan.start(), Some(1));
    assert_eq!(rt; plan.listed(), Some(2));
    assert_eq!(rt; plan.point(), Some(3));
    assert!(rt; plan.is_by_row() && plan.limit().is_none());
    assert!(rt; matches!(plan.select().items, Items::All));
    // the rowid, as there is no key, and then the columns
    let items = plan.items();
    assert!(rt; items.len() == 6 && items[4].number == 1);
    Ok(())
}

#[test]
fn changes_have_plans_of_their_rows(rt: HostRuntime) -> Result<(), Fail> {
    let alloc = rt.alloc();
    let schema = schema(alloc)?;
    let mut tests = Vec::new(alloc);
    tests.push(("m", equal(1)))?;
    let delete = Delete {
        table: text(alloc, "v")?,
        where_terms: terms(alloc, tests)?,
    };
    let Ok(plan) = plan_delete(&schema, delete) else {
        return Err(Fail::from("refused"));
    };
    assert_eq!(rt; plan.shape(), Shape::Scan);
    let mut sets = List::new(alloc);
    sets.push(Assign {
        column: text(alloc, "m")?,
        value: Value::Int(3),
    })?;
    let update = Update {
        table: text(alloc, "v")?,
        sets,
        where_terms: List::new(alloc),
    };
    let Ok((plan, sets)) = plan_update(&schema, update) else {
        return Err(Fail::from("refused"));
    };
    assert_eq!(rt; plan.shape(), Shape::Scan);
    assert_eq!(rt; sets.len(), 1);
    Ok(())
}

#[test]
fn a_name_that_is_no_column_is_refused(rt: HostRuntime) -> Result<(), Fail> {
    let alloc = rt.alloc();
    let mut columns = List::new(alloc);
    columns.push(text(alloc, "c")?)?;
    let insert = Insert {
        table: text(alloc, "v")?,
        columns,
        rows: List::new(alloc),
    };
    let refusal = check_insert(&schema(alloc)?, &insert);
    assert!(rt; matches!(refusal, Some(Refusal::NoColumn(1))));
    Ok(())
}
