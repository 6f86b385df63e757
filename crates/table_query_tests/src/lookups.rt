//! Points.
ghost use Rattle.knn_plan.specs.Plans.{IsPlanFor};

use crate::tables::{equal, plan_of, terms, three_rows};
use knn_plan::Plan;
use row_model::{Items, Shape, Test};
use std::alloc::Global;
use std::test::Fail;
use table_query::point;
use table_version::TableVersion;
use vec_base::{Op, Steps, Txt, Value};

/// The rowid that a plan by rowid or key finds.
fn point_of(version: &TableVersion, plan: &Plan) -> Result<Option<i64>, Fail>
    requires { IsPlanFor version.now.table.schema.columns plan.now }
{
    match plan.shape() {
        Shape::Point => Ok(point(version, plan, &mut Steps::new())),
        _ => Err(Fail::from("no point")),
    }
}

/// The rowid of the row of a rowid, where its number is this.
fn at_rowid(
    alloc: Global,
    version: &TableVersion,
    rowid: i64,
    number: i64,
) -> Result<Option<i64>, Fail> {
    let mut tests = Vec::new(alloc);
    tests.push(("rowid", equal(rowid)))?;
    tests.push(("m", equal(number)))?;
    let plan = plan_of(alloc, version, Items::All, terms(alloc, tests)?)?;
    point_of(version, &plan)
}

/// The rowid of the row of a key.
fn at_key(alloc: Global, version: &TableVersion, id: &str) -> Result<Option<i64>, Fail> {
    let mut tests = Vec::new(alloc);
    let text = Value::Text(Txt::from_text(alloc, id)?);
    tests.push(("id", Test::Compare(Op::Eq, text)))?;
    let plan = plan_of(alloc, version, Items::All, terms(alloc, tests)?)?;
    point_of(version, &plan)
}

#[test]
fn a_point_is_the_row_of_a_rowid_or_key(rt: HostRuntime) -> Result<(), Fail> {
    let alloc = rt.alloc();
    let version = three_rows(alloc)?;
    assert_eq!(rt; at_rowid(alloc, &version, 2, 20)?, Some(2));
    assert_eq!(rt; at_rowid(alloc, &version, 2, 10)?, None);
    assert_eq!(rt; at_key(alloc, &version, "z")?, Some(3));
    assert_eq!(rt; at_key(alloc, &version, "w")?, None);
    Ok(())
}
