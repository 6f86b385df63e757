//! Items of a row.
ghost use Rattle.std.specs.Prelude.{◌≡◌, ◌≤◌, IfOk};
ghost use Rattle.vec_base.specs.declared.limits.TheConstants.{MOST_TERMS};
ghost use Rattle.row_model.specs.Check.{item_count};

use crate::tables::{equal, plan_of, terms, three_rows};
use row_model::{Items, Test};
use std::alloc::Global;
use std::test::Fail;
use table_query::project;
use table_version::TableVersion;
use vec_base::{Bytes, List, MOST_TERMS, Steps, Txt, Value};

/// The number, the vector and the distance of a row.
fn named(alloc: Global) -> Result<Items, Fail>
    ensures { IfOk result (λ items. item_count items ≤ MOST_TERMS) }
{
    let mut list = List::new(alloc);
    list.push(Txt::from_text(alloc, "m")?)?;
    list.push(Txt::from_text(alloc, "a")?)?;
    list.push(Txt::from_text(alloc, "distance")?)?;
    Ok(Items::Named(list))
}

/// These items of the second row, at distance 7 from a vector, with the vectors that were read.
fn second_row(
    alloc: Global,
    version: &TableVersion,
    items: Items,
) -> Result<(List<Value>, u64), Fail>
    requires { item_count items ≤ MOST_TERMS }
{
    let mut tests = Vec::new(alloc);
    let query = Value::Int8(Bytes::from_slice(alloc, &[5, 0])?);
    tests.push(("a", Test::Match(query)))?;
    tests.push(("k", equal(1)))?;
    let plan = plan_of(alloc, version, items, terms(alloc, tests)?)?;
    if version.row(&2).is_none() {
        return Err(Fail::from("no row"));
    }
    let mut steps = Steps::new();
    let values = project(alloc, version, &plan, 2, 7, &mut steps)?;
    Ok((values, steps.reads))
}

/// The number at a place.
fn number_at(values: &List<Value>, place: usize) -> Option<i64> {
    match values.as_slice().get(place)? {
        Value::Int(number) => Some(*number),
        _ => None,
    }
}

/// The bytes of the vector at a place.
fn bytes_at(values: &List<Value>, place: usize) -> Option<usize> {
    match values.as_slice().get(place)? {
        Value::Int8(vector) => Some(vector.len()),
        _ => None,
    }
}

/// The items as numbers, with the vectors that were read.
fn items_read(alloc: Global) -> Result<([Option<i64>; 2], Option<usize>, u64), Fail> {
    let version = three_rows(alloc)?;
    let (values, reads) = second_row(alloc, &version, named(alloc)?)?;
    let numbers = [number_at(&values, 0), number_at(&values, 2)];
    Ok((numbers, bytes_at(&values, 1), reads))
}

#[test]
fn items_are_read_from_the_row(rt: HostRuntime) -> Result<(), Fail> {
    let (numbers, bytes, reads) = items_read(rt.alloc())?;
    assert_eq!(rt; numbers, [Some(20), Some(7)]);
    assert_eq!(rt; (bytes, reads), (Some(2), 1));
    Ok(())
}
