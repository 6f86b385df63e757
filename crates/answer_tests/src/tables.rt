//! Tables, rows and plans from the texts of statements.
ghost use Rattle.std.specs.Prelude.{IfOk};
ghost use Rattle.knn_plan.specs.Plans.{IsPlanFor};
ghost use Rattle.row_model.specs.WellFormed.{IsWellFormedInsert, IsWellFormedSelect};

use knn_plan::{Plan, check_insert, plan_select};
use row_model::{Insert, Select, Statement};
use sql_reader::read_statement;
use std::alloc::{AllocError, Global};
use table_version::TableVersion;
use table_writes::{Beside, insert_rows};
use vec_base::{List, Memory, Refusal, Value};
use vec_text::put_separated;

/// A table with a partition, a vector of two elements and a number, in chunks of 8 rows.
const CREATE: &str =
    "CREATE VIRTUAL TABLE v USING vec0(p integer partition key, a int8[2], m integer, chunk_size=8)";

/// Nine rows of one partition and three of another.
const INSERT: &str = "INSERT INTO v(rowid, p, a, m) VALUES \
(1, 1, vec_int8('[1,0]'), 10), (2, 1, vec_int8('[2,0]'), 20), (3, 1, vec_int8('[3,0]'), 30), \
(4, 1, vec_int8('[4,0]'), 40), (5, 1, vec_int8('[5,0]'), 50), (6, 1, vec_int8('[6,0]'), 60), \
(7, 1, vec_int8('[7,0]'), 70), (8, 1, vec_int8('[8,0]'), 80), (9, 1, vec_int8('[9,0]'), 90), \
(10, 2, vec_int8('[10,0]'), 100), (11, 2, vec_int8('[11,0]'), 110), (12, 2, vec_int8('[12,0]'), 120)";

/// The table without rows.
fn table(alloc: Global) -> Result<TableVersion, Refusal> {
    match read_statement(alloc, CREATE.as_bytes(), &List::new(alloc)) {
        Ok(Statement::Create(name, schema)) => match TableVersion::new(alloc, name, schema) {
            Ok(version) => Ok(version),
            Err(Memory) => Err(Refusal::WantOfMemory),
        },
        Ok(_) => Err(Refusal::Syntax(0)),
        Err(refusal) => Err(refusal),
    }
}

/// Adds the rows of an INSERT. Answers the rowid of the last one.
fn add(alloc: Global, version: &mut TableVersion, insert: &Insert) -> Result<i64, Refusal>
    requires { IsWellFormedInsert insert.now }
{
    version.known();
    if let Some(refusal) = check_insert(version.schema(), insert) {
        return Err(refusal);
    }
    let beside = Beside {
        vectors: 0,
        sides: 0,
    };
    insert_rows(alloc, version, beside, insert)
}

/// Adds the twelve rows. Answers the rowid of the last one.
fn add_twelve(alloc: Global, version: &mut TableVersion) -> Result<i64, Refusal> {
    match read_statement(alloc, INSERT.as_bytes(), &List::new(alloc)) {
        Ok(Statement::Insert(insert)) => add(alloc, version, &insert),
        Ok(_) => Err(Refusal::Syntax(0)),
        Err(refusal) => Err(refusal),
    }
}

/// The table with twelve rows.
pub(crate) fn twelve_rows(alloc: Global) -> Result<TableVersion, Refusal> {
    let mut version = table(alloc)?;
    add_twelve(alloc, &mut version)?;
    Ok(version)
}

/// The plan of a SELECT.
fn planned(version: &TableVersion, select: Select) -> Result<Plan, Refusal>
    requires { IsWellFormedSelect select }
    ensures { IfOk result (λ plan. IsPlanFor version.now.table.schema.columns plan) }
{
    version.known();
    plan_select(version.schema(), select)
}

/// The plan of the SELECT that a text spells.
pub(crate) fn plan_of(alloc: Global, version: &TableVersion, text: &str) -> Result<Plan, Refusal>
    ensures { IfOk result (λ plan. IsPlanFor version.now.table.schema.columns plan) }
{
    match read_statement(alloc, text.as_bytes(), &List::new(alloc)) {
        Ok(Statement::Select(select)) => planned(version, select),
        Ok(_) => Err(Refusal::Syntax(0)),
        Err(refusal) => Err(refusal),
    }
}

/// Writes rows, each with a space behind it.
pub(crate) fn put_rows(to: &mut String, rows: &List<List<Value>>) -> Result<(), AllocError> {
    for row in rows.as_slice() {
        put_separated(to, "|", row.as_slice())?;
        to.push_str(" ")?;
    }
    Ok(())
}
