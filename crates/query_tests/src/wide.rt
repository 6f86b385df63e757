//! Vectors of as many elements as there can be, as far from each other as they can be.
ghost use Rattle.std.specs.Prelude.{◌≡◌, ◌≤◌, true, length, IfOk};
ghost use Rattle.vec_base.specs.declared.limits.TheConstants.{MOST_TERMS};
ghost use Rattle.table_version.specs.Inserting.{are_fitting};
ghost use Rattle.query_tests.specs.Columns.{wide_columns};

use crate::search::{column, found, hit_at, plan_of, term};
use row_model::{Constraint, Items, Kind, Metric, Schema, Test};
use std::alloc::Global;
use std::marker::Sync;
use std::test::Fail;
use std::thread::Threads;
use table_version::TableVersion;
use vec_base::{Bytes, List, Memory, Op, Txt, Value};

/// A column for each metric, in chunks of 8 rows.
fn schema(alloc: Global) -> Result<Schema, Memory>
    ensures columns { IfOk result (λ schema. schema.columns ≡ wide_columns) }
    ensures size { IfOk result (λ schema. schema.chunk_size ≡ 8) }
{
    let mut columns = List::new(alloc);
    columns.push(column(alloc, "a", Kind::Int8Vector(8192, Metric::L2))?)?;
    columns.push(column(alloc, "b", Kind::Int8Vector(8192, Metric::L1))?)?;
    Ok(Schema {
        columns,
        chunk_size: 8,
    })
}

/// A table of these columns.
fn table(alloc: Global) -> Result<TableVersion, Memory>
    ensures { IfOk result (λ version. version.table.schema.columns ≡ wide_columns) }
{
    let name = Txt::from_text(alloc, "v")?;
    TableVersion::new(alloc, name, schema(alloc)?)
}

/// A vector of one element everywhere.
fn vector(alloc: Global, element: u8) -> Result<Bytes, Memory>
    ensures { IfOk result (λ bytes. length bytes ≡ 8192) }
{
    Bytes::from_slice(alloc, &[element; 8192])
}

/// The values of a row of -128 everywhere.
#[tactic(auto, using(crate::proofs::ColumnLaws::wide_fits))]
fn values(alloc: Global) -> Result<List<Value>, Memory>
    ensures { IfOk result (λ values. are_fitting wide_columns values ≡ true) }
{
    let mut values = List::new(alloc);
    values.push(Value::Int8(vector(alloc, 128)?))?;
    values.push(Value::Int8(vector(alloc, 128)?))?;
    Ok(values)
}

/// A table of one such row.
fn one_row(alloc: Global) -> Result<TableVersion, Fail> {
    let mut version = table(alloc)?;
    let values = values(alloc)?;
    match version.insert(alloc, None, &values) {
        Ok(_) => Ok(version),
        Err(_) => Err(Fail::from("refused")),
    }
}

/// A MATCH of 127 everywhere in a column.
fn terms(alloc: Global, name: &str) -> Result<List<Constraint>, Memory>
    ensures { IfOk result (λ terms. length terms ≤ MOST_TERMS) }
{
    let mut terms = List::new(alloc);
    let query = Value::Int8(vector(alloc, 127)?);
    terms.push(term(alloc, name, Test::Match(query))?)?;
    terms.push(term(alloc, "k", Test::Compare(Op::Eq, Value::Int(1)))?)?;
    Ok(terms)
}

/// The nearest row by a column.
fn search<R: Threads + Sync>(
    rt: &R,
    alloc: Global,
    name: &str,
) -> Result<Option<(i64, u32)>, Fail> {
    let version = one_row(alloc)?;
    let plan = plan_of(alloc, &version, Items::All, terms(alloc, name)?)?;
    let hits = found(rt, alloc, &version, &plan)?;
    Ok(hit_at(&hits, 0))
}

#[test]
fn the_greatest_distances_are_exact(rt: HostRuntime) -> Result<(), Fail> {
    assert_eq!(rt; search(&rt, rt.alloc(), "a")?, Some((1, 532_684_800)));
    assert_eq!(rt; search(&rt, rt.alloc(), "b")?, Some((1, 2_088_960)));
    Ok(())
}
