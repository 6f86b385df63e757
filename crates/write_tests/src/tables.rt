//! Tables of three columns, and statements on them.
ghost use Rattle.std.specs.Prelude.{◌≡◌, ◌≤◌, ◌==◌, true, IfOk, codes, length};
ghost use Rattle.std.specs.List.{list_all};
ghost use Rattle.vec_base.specs.declared.limits.TheConstants.{MOST_TERMS};
ghost use Rattle.row_model.specs.WellFormed.{IsWellFormedInsert, is_filled};
ghost use Rattle.write_tests.specs.ThreeColumns.{row_names, three_columns};

use knn_plan::{check_insert, plan_delete, plan_update};
use row_model::{Assign, Column, Constraint, Delete, Insert, Kind, Metric, Schema, Test, Update};
use std::alloc::Global;
use std::test::Fail;
use table_version::TableVersion;
use table_writes::{Beside, delete_rows, insert_rows, update_rows};
use vec_base::{Bytes, List, MOST_TERMS, Memory, Op, Refusal, Txt, Value};

/// The three columns, in chunks of 8 rows.
fn schema(alloc: Global) -> Result<Schema, Memory>
    ensures columns { IfOk result (λ schema. schema.columns ≡ three_columns) }
    ensures size { IfOk result (λ schema. schema.chunk_size ≡ 8) }
{
    let mut columns = List::new(alloc);
    columns.push(Column {
        name: Txt::from_text(alloc, "a")?,
        kind: Kind::Int8Vector(2, Metric::L2),
    })?;
    columns.push(Column {
        name: Txt::from_text(alloc, "m")?,
        kind: Kind::IntMeta,
    })?;
    columns.push(Column {
        name: Txt::from_text(alloc, "n")?,
        kind: Kind::BlobAux,
    })?;
    Ok(Schema {
        columns,
        chunk_size: 8,
    })
}

/// A table without rows.
pub(crate) fn table(alloc: Global) -> Result<TableVersion, Memory> {
    let name = Txt::from_text(alloc, "v")?;
    TableVersion::new(alloc, name, schema(alloc)?)
}

/// No bytes beside the table's.
pub(crate) fn alone() -> Beside {
    Beside {
        vectors: 0,
        sides: 0,
    }
}

/// A rowid, a vector, a number and a note.
pub(crate) fn row(
    alloc: Global,
    rowid: Value,
    number: i64,
    note: Value,
) -> Result<List<Value>, Memory>
    ensures { IfOk result (λ values. length values ≡ 4) }
{
    let mut values = List::new(alloc);
    values.push(rowid)?;
    values.push(Value::Int8(Bytes::from_slice(alloc, &[1, 2])?))?;
    values.push(Value::Int(number))?;
    values.push(note)?;
    Ok(values)
}

/// The names of the values of a row.
fn names(alloc: Global) -> Result<List<Txt>, Memory>
    ensures { IfOk result (λ names. names ≡ row_names) }
{
    let mut names = List::new(alloc);
    names.push(Txt::from_text(alloc, "rowid")?)?;
    names.push(Txt::from_text(alloc, "a")?)?;
    names.push(Txt::from_text(alloc, "m")?)?;
    names.push(Txt::from_text(alloc, "n")?)?;
    Ok(names)
}

/// An INSERT of these rows.
#[tactic(auto, using(crate::proofs::StatementLaws::formed))]
fn insert_of(alloc: Global, rows: List<List<Value>>) -> Result<Insert, Memory>
    requires some { is_filled rows ≡ true }
    requires each { list_all (λ row. length row == 4) rows ≡ true }
    ensures { IfOk result (λ insert. IsWellFormedInsert insert) }
{
    Ok(Insert {
        table: Txt::from_text(alloc, "v")?,
        columns: names(alloc)?,
        rows,
    })
}

/// Adds the rows of an INSERT. Answers the rowid of the last one, or what refuses it.
fn add_all(
    alloc: Global,
    version: &mut TableVersion,
    beside: Beside,
    insert: &Insert,
) -> Result<i64, Refusal>
    requires { IsWellFormedInsert insert.now }
{
    version.known();
    if let Some(refusal) = check_insert(version.schema(), insert) {
        return Err(refusal);
    }
    insert_rows(alloc, version, beside, insert)
}

/// Adds two rows.
pub(crate) fn add_two(
    alloc: Global,
    version: &mut TableVersion,
    first: List<Value>,
    second: List<Value>,
) -> Result<Result<i64, Refusal>, Memory>
    requires first { length first ≡ 4 }
    requires second { length second ≡ 4 }
{
    let mut rows = List::new(alloc);
    rows.push(first)?;
    rows.push(second)?;
    let insert = insert_of(alloc, rows)?;
    Ok(add_all(alloc, version, alone(), &insert))
}

/// Adds a row.
pub(crate) fn add_one(
    alloc: Global,
    version: &mut TableVersion,
    beside: Beside,
    values: List<Value>,
) -> Result<Result<i64, Refusal>, Memory>
    requires { length values ≡ 4 }
{
    let mut rows = List::new(alloc);
    rows.push(values)?;
    let insert = insert_of(alloc, rows)?;
    Ok(add_all(alloc, version, beside, &insert))
}

/// Rows 1, 2 and 3 with the numbers 10, 20 and 10.
pub(crate) fn three_rows(alloc: Global) -> Result<TableVersion, Memory> {
    let mut version = table(alloc)?;
    let first = row(alloc, Value::Null, 10, Value::Null)?;
    let second = row(alloc, Value::Null, 20, Value::Null)?;
    let _two = add_two(alloc, &mut version, first, second)?;
    let third = row(alloc, Value::Null, 10, Value::Null)?;
    let _one = add_one(alloc, &mut version, alone(), third)?;
    Ok(version)
}

/// A term for a number on a column of this name.
pub(crate) fn equal(alloc: Global, name: &str, number: i64) -> Result<Constraint, Memory> {
    Ok(Constraint {
        column: Txt::from_text(alloc, name)?,
        test: Test::Compare(Op::Eq, Value::Int(number)),
    })
}

/// One term.
pub(crate) fn one_term(alloc: Global, term: Constraint) -> Result<List<Constraint>, Memory>
    ensures { IfOk result (λ terms. length terms ≤ MOST_TERMS) }
{
    let mut terms = List::new(alloc);
    terms.push(term)?;
    Ok(terms)
}

/// Two terms.
pub(crate) fn two_terms(
    alloc: Global,
    first: Constraint,
    second: Constraint,
) -> Result<List<Constraint>, Memory>
    ensures { IfOk result (λ terms. length terms ≤ MOST_TERMS) }
{
    let mut terms = List::new(alloc);
    terms.push(first)?;
    terms.push(second)?;
    Ok(terms)
}

/// Gives a column a new value in the rows that meet the terms.
pub(crate) fn set(
    alloc: Global,
    version: &mut TableVersion,
    beside: Beside,
    name: &str,
    value: Value,
    where_terms: List<Constraint>,
) -> Result<Result<u64, Refusal>, Memory>
    requires { length where_terms ≤ MOST_TERMS }
{
    let mut sets = List::new(alloc);
    sets.push(Assign {
        column: Txt::from_text(alloc, name)?,
        value,
    })?;
    let update = Update {
        table: Txt::from_text(alloc, "v")?,
        sets,
        where_terms,
    };
    Ok(change(alloc, version, beside, update))
}

/// Carries out an UPDATE.
fn change(
    alloc: Global,
    version: &mut TableVersion,
    beside: Beside,
    update: Update,
) -> Result<u64, Refusal>
    requires { length update.where_terms ≤ MOST_TERMS }
{
    version.known();
    match plan_update(version.schema(), update) {
        Ok((plan, sets)) => update_rows(alloc, version, beside, &plan, &sets),
        Err(refusal) => Err(refusal),
    }
}

/// Removes the rows that meet the terms.
pub(crate) fn remove(
    alloc: Global,
    version: &mut TableVersion,
    where_terms: List<Constraint>,
) -> Result<u64, Fail>
    requires { length where_terms ≤ MOST_TERMS }
{
    version.known();
    let delete = Delete {
        table: Txt::from_text(alloc, "v")?,
        where_terms,
    };
    match plan_delete(version.schema(), delete) {
        Ok(plan) => Ok(delete_rows(alloc, version, &plan)?),
        Err(_) => Err(Fail::from("refused")),
    }
}
