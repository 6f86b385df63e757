//! Requests that texts ask for.
ghost use Rattle.std.specs.Prelude.{IfOk};
ghost use Rattle.row_model.specs.WellFormed.{IsWellFormedRequest};

use row_model::{Request, Statement};
use sql_reader::read_statement;
use std::alloc::Global;
use vec_base::{List, Refusal};

/// What is answered to a text that asks for nothing.
const UNREAD: Refusal = Refusal::Syntax(0);

/// The request that a text asks for. `open` opens a session. Behind the id of a session stands `leave`, `cursor` and a SELECT, `fetch` and the
/// numbers of a cursor and of rows, `close` and the number of a cursor, or any statement.
///
/// Errors: those of the statement; `Syntax` with 0 where a number is none, or a cursor is asked for another statement than a SELECT.
pub(crate) fn read_request(alloc: Global, text: &str) -> Result<Request, Refusal>
    ensures { IfOk result (λ request. IsWellFormedRequest request) }
{
    if text == "open" {
        return Ok(Request::OpenSession);
    }
    let Some((id, words)) = text.split_once(' ') else {
        return Err(UNREAD);
    };
    match id.parse::<u32>() {
        Ok(session) => read_words(alloc, session, words),
        Err(_) => Err(UNREAD),
    }
}

/// The request of a session.
fn read_words(alloc: Global, session: u32, words: &str) -> Result<Request, Refusal>
    ensures { IfOk result (λ request. IsWellFormedRequest request) }
{
    if words == "leave" {
        return Ok(Request::CloseSession(session));
    }
    match words.split_once(' ') {
        Some(("cursor", select)) => read_cursor(alloc, session, select),
        Some(("fetch", numbers)) => read_fetch(session, numbers),
        Some(("close", number)) => read_close(session, number),
        _ => read_execute(alloc, session, words),
    }
}

/// A statement of a session.
fn read_execute(alloc: Global, session: u32, text: &str) -> Result<Request, Refusal>
    ensures { IfOk result (λ request. IsWellFormedRequest request) }
{
    match read_statement(alloc, text.as_bytes(), &List::new(alloc)) {
        Ok(statement) => Ok(Request::Execute(session, statement)),
        Err(refusal) => Err(refusal),
    }
}

/// A cursor of a session.
fn read_cursor(alloc: Global, session: u32, text: &str) -> Result<Request, Refusal>
    ensures { IfOk result (λ request. IsWellFormedRequest request) }
{
    match read_statement(alloc, text.as_bytes(), &List::new(alloc)) {
        Ok(Statement::Select(select)) => Ok(Request::OpenCursor(session, select)),
        Ok(_) => Err(UNREAD),
        Err(refusal) => Err(refusal),
    }
}

/// A fetch of so many rows from the cursor of a number.
fn read_fetch(session: u32, numbers: &str) -> Result<Request, Refusal>
    ensures { IfOk result (λ request. IsWellFormedRequest request) }
{
    let Some((cursor, count)) = numbers.split_once(' ') else {
        return Err(UNREAD);
    };
    match (cursor.parse::<u32>(), count.parse::<u16>()) {
        (Ok(cursor), Ok(count)) => Ok(Request::Fetch(session, cursor, count)),
        _ => Err(UNREAD),
    }
}

/// The cursor of a number is closed.
fn read_close(session: u32, number: &str) -> Result<Request, Refusal>
    ensures { IfOk result (λ request. IsWellFormedRequest request) }
{
    match number.parse::<u32>() {
        Ok(cursor) => Ok(Request::CloseCursor(session, cursor)),
        Err(_) => Err(UNREAD),
    }
}
