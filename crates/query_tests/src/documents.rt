//! A document finder.
ghost use Rattle.std.specs.Prelude.{◌≡◌, ◌≤◌, true, length, IfOk};
ghost use Rattle.vec_base.specs.declared.limits.TheConstants.{MOST_TERMS};
ghost use Rattle.knn_plan.specs.Plans.{IsPlanFor};
ghost use Rattle.row_model.specs.Check.{item_count};
ghost use Rattle.table_version.specs.Inserting.{are_fitting};
ghost use Rattle.query_tests.specs.Columns.{document_columns};

use crate::search::{column, found, hit_at, plan_of, term, text_test};
use knn_plan::Plan;
use row_model::{Constraint, Items, Kind, Metric, Schema, Test};
use std::alloc::Global;
use std::marker::Sync;
use std::test::Fail;
use std::thread::Threads;
use table_query::project;
use table_version::TableVersion;
use vec_base::{Bytes, List, Memory, Op, Steps, Txt, Value};

/// The columns of documents, in chunks of 8 rows.
fn schema(alloc: Global) -> Result<Schema, Memory>
    ensures columns { IfOk result (λ schema. schema.columns ≡ document_columns) }
    ensures size { IfOk result (λ schema. schema.chunk_size ≡ 8) }
{
    let mut columns = List::new(alloc);
    columns.push(column(alloc, "doc_id", Kind::IntKey)?)?;
    columns.push(column(alloc, "user", Kind::TextPartition)?)?;
    columns.push(column(alloc, "year", Kind::IntMeta)?)?;
    columns.push(column(alloc, "shown", Kind::BoolMeta)?)?;
    columns.push(column(alloc, "e", Kind::Int8Vector(4, Metric::L1))?)?;
    columns.push(column(alloc, "title", Kind::TextAux)?)?;
    Ok(Schema {
        columns,
        chunk_size: 8,
    })
}

/// A table of documents.
fn table(alloc: Global) -> Result<TableVersion, Memory>
    ensures { IfOk result (λ version. version.table.schema.columns ≡ document_columns) }
{
    let name = Txt::from_text(alloc, "v")?;
    TableVersion::new(alloc, name, schema(alloc)?)
}

/// The values of a document that is shown.
#[tactic(auto, using(crate::proofs::ColumnLaws::document_fits))]
fn values(
    alloc: Global,
    user: &str,
    year: i64,
    last: u8,
    title: &str,
) -> Result<List<Value>, Memory>
    requires user { length user.now ≤ 8 }
    requires title { length title.now ≤ 8 }
    ensures { IfOk result (λ values. are_fitting document_columns values ≡ true) }
{
    let mut values = List::new(alloc);
    values.push(Value::Int(0))?;
    values.push(Value::Text(Txt::from_text(alloc, user)?))?;
    values.push(Value::Int(year))?;
    values.push(Value::Int(1))?;
    values.push(Value::Int8(Bytes::from_slice(alloc, &[1, 2, 3, last])?))?;
    values.push(Value::Text(Txt::from_text(alloc, title)?))?;
    Ok(values)
}

/// Puts in a document.
fn insert(
    alloc: Global,
    version: &mut TableVersion,
    user: &str,
    year: i64,
    last: u8,
    title: &str,
) -> Result<(), Fail>
    requires columns { version.old.table.schema.columns ≡ document_columns }
    requires user { length user.now ≤ 8 }
    requires title { length title.now ≤ 8 }
    ensures { version.new.table.schema.columns ≡ document_columns }
{
    let values = values(alloc, user, year, last, title)?;
    match version.insert(alloc, None, &values) {
        Ok(_) => Ok(()),
        Err(_) => Err(Fail::from("refused")),
    }
}

/// Three documents of two users.
fn documents(alloc: Global) -> Result<TableVersion, Fail> {
    let mut version = table(alloc)?;
    insert(alloc, &mut version, "ann", 2023, 4, "One")?;
    insert(alloc, &mut version, "ann", 2024, 9, "Two")?;
    insert(alloc, &mut version, "bob", 2024, 4, "Three")?;
    Ok(version)
}

/// The five nearest documents of a user from a year on.
fn terms(alloc: Global) -> Result<List<Constraint>, Memory>
    ensures { IfOk result (λ terms. length terms ≤ MOST_TERMS) }
{
    let mut terms = List::new(alloc);
    let query = Value::Int8(Bytes::from_slice(alloc, &[1, 2, 3, 4])?);
    terms.push(term(alloc, "e", Test::Match(query))?)?;
    terms.push(term(alloc, "k", Test::Compare(Op::Eq, Value::Int(5)))?)?;
    terms.push(term(alloc, "user", text_test(alloc, Op::Eq, "ann")?)?)?;
    terms.push(term(alloc, "year", Test::Compare(Op::Ge, Value::Int(2023)))?)?;
    Ok(terms)
}

/// The key, the distance and the title.
fn items(alloc: Global) -> Result<Items, Memory>
    ensures { IfOk result (λ items. item_count items ≤ MOST_TERMS) }
{
    let mut names = List::new(alloc);
    names.push(Txt::from_text(alloc, "doc_id")?)?;
    names.push(Txt::from_text(alloc, "distance")?)?;
    names.push(Txt::from_text(alloc, "title")?)?;
    Ok(Items::Named(names))
}

/// The bytes of the title of a row, by a plan of these items.
fn title_bytes(
    alloc: Global,
    version: &TableVersion,
    plan: &Plan,
    rowid: i64,
) -> Result<Option<usize>, Fail>
    requires { IsPlanFor version.now.table.schema.columns plan.now }
{
    if version.row(&rowid).is_none() {
        return Ok(None);
    }
    let mut steps = Steps::new();
    let values = project(alloc, version, plan, rowid, 5, &mut steps)?;
    match values.as_slice().get(2) {
        Some(Value::Text(title)) => Ok(Some(title.as_text().len())),
        _ => Ok(None),
    }
}

/// The first three hits, and the bytes of the second one's title.
fn search<R: Threads + Sync>(
    rt: &R,
    alloc: Global,
) -> Result<([Option<(i64, u32)>; 3], Option<usize>), Fail> {
    let version = documents(alloc)?;
    let plan = plan_of(alloc, &version, items(alloc)?, terms(alloc)?)?;
    let hits = found(rt, alloc, &version, &plan)?;
    let first = [hit_at(&hits, 0), hit_at(&hits, 1), hit_at(&hits, 2)];
    Ok((first, title_bytes(alloc, &version, &plan, 2)?))
}

#[test]
fn documents_of_a_user_are_found(rt: HostRuntime) -> Result<(), Fail> {
    let (hits, title) = search(&rt, rt.alloc())?;
    assert_eq!(rt; hits, [Some((1, 0)), Some((2, 5)), None]);
    assert_eq!(rt; title, Some(3));
    Ok(())
}
