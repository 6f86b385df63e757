//! Requests as short steps, and their replies as texts.

use plain_engine::PlainEngine;
use row_model::{Reply, Request, Statement};
use sql_reader::read_statement;
use std::alloc::Global;
use std::test::Fail;
use vec_base::{List, Memory, Txt, Value};

/// What a session asks.
#[derive(Clone, Copy)]
pub(crate) enum Step<'a> {
    /// Executes the statement that the text spells.
    Run(&'a str),
    /// Opens a cursor over the SELECT that the text spells.
    Cursor(&'a str),
    /// Fetches so many rows from the cursor of the number.
    Fetch(u32, u16),
    /// Closes the cursor of the number.
    EndCursor(u32),
    /// Closes the session.
    Leave,
}

/// The reply to a statement that a text spells.
fn run(alloc: Global, engine: &mut PlainEngine, id: u32, text: &str) -> Reply {
    match read_statement(alloc, text.as_bytes(), &List::new(alloc)) {
        Ok(statement) => engine.answer(Request::Execute(id, statement)),
        Err(refusal) => Reply::Refused(refusal),
    }
}

/// The reply to a cursor over the SELECT that a text spells.
fn open_cursor(alloc: Global, engine: &mut PlainEngine, id: u32, text: &str) -> Reply {
    match read_statement(alloc, text.as_bytes(), &List::new(alloc)) {
        Ok(Statement::Select(select)) => engine.answer(Request::OpenCursor(id, select)),
        Ok(_) => Reply::Done,
        Err(refusal) => Reply::Refused(refusal),
    }
}

/// The first value of a row, where it is a number.
fn first_number(row: &List<Value>) -> i64 {
    match row.as_slice() {
        [Value::Int(number), ..] => *number,
        _ => 0,
    }
}

/// A word, and the first number of each row.
fn numbers(alloc: Global, word: &str, rows: &[List<Value>]) -> Result<Txt, Fail> {
    let mut text = format!(in alloc; "{word}")?;
    for row in rows {
        text = format!(in alloc; "{text} {}", first_number(row))?;
    }
    Ok(Txt::from_string(text))
}

/// What the engine answers to a step of a session.
pub(crate) fn said(
    alloc: Global,
    engine: &mut PlainEngine,
    id: u32,
    step: Step<'_>,
) -> Result<Txt, Fail> {
    let reply = match step {
        Step::Run(text) => run(alloc, engine, id, text),
        Step::Cursor(text) => open_cursor(alloc, engine, id, text),
        Step::Fetch(number, count) => engine.answer(Request::Fetch(id, number, count)),
        Step::EndCursor(number) => engine.answer(Request::CloseCursor(id, number)),
        Step::Leave => engine.answer(Request::CloseSession(id)),
    };
    match reply {
        Reply::Rows(rows) => numbers(alloc, "rows", rows.as_slice()),
        Reply::Page(rows, false) => numbers(alloc, "page", rows.as_slice()),
        Reply::Page(rows, true) => numbers(alloc, "last", rows.as_slice()),
        reply => Ok(Txt::from_string(format!(in alloc; "{reply:?}")?)),
    }
}

/// An engine with two open sessions and a table, which has a row of the rowid 1. Two commits have been made.
pub(crate) fn two_sessions(alloc: Global) -> Result<PlainEngine, Memory> {
    let mut engine = PlainEngine::new(alloc)?;
    engine.answer(Request::OpenSession);
    engine.answer(Request::OpenSession);
    run(
        alloc,
        &mut engine,
        1,
        "CREATE VIRTUAL TABLE t USING vec0(id integer primary key, a int8[1])",
    );
    run(
        alloc,
        &mut engine,
        1,
        "INSERT INTO t(id, a) VALUES (1, vec_int8('[1]'))",
    );
    Ok(engine)
}
