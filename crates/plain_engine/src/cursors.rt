//! Cursors of a session: each keeps the rows that are left.
ghost use Rattle.std.specs.Prelude.{◌≡◌, ◌<◌, ◌≤◌, ◌+◌, ◌++◌, drop, length, map, take, None, Ok as ok, Err as err, MatchOption, OnOk, OnErr, IfOk, IfErr};
ghost use Rattle.row_model.specs.Change.{table_named};
ghost use Rattle.row_model.specs.Limits.{over_cursors, over_cursor_numbers};
ghost use Rattle.row_model.specs.Machine.{cursor_of};
ghost use Rattle.row_model.specs.RefusalOrder.{first};
ghost use Rattle.row_model.specs.Step.{cursor_closed, cursor_opened, fetched, found, with_new_cursor};
ghost use Rattle.row_model.specs.Valid.{IsValidCatalog};
ghost use Rattle.plain_engine.specs.inner.CursorAnswers.{cursor_rows, opened_over, rows_to};
ghost use Rattle.plain_engine.specs.inner.Machines.{Answers, IsAt, seen_at, session_at, state_of};
ghost use Rattle.plain_engine.specs.inner.Places.{IsCursorAt};

use crate::answer::answer;
use crate::catalog::find_table;
use crate::copies::copied_rows;
use crate::machine::Machine;
use row_model::{
    Catalog, CursorRows, Reply, Select, Session, check_select, over_cursor_numbers, over_cursors,
};
use std::alloc::Global;
use vec_base::{List, Memory, Refusal, Value};

/// Where the cursor of the number stands.
#[tactic(auto, using(crate::proofs::PlaceLaws::cursor_first, crate::proofs::PlaceLaws::cursor_later))]
fn cursor_place(cursors: &[CursorRows], number: u32) -> Option<usize>
    ensures { MatchOption result (cursor_of number cursors.now ≡ None) (λ at. IsCursorAt number cursors.now at) }
{
    let (cursor, others) = cursors.split_first()?;
    if cursor.number == number {
        return Some(0);
    }
    match cursor_place(others, number) {
        Some(at) => Some(at + 1),
        None => None,
    }
}

/// The refusal of one more cursor.
fn one_cursor_more(cursors: &[CursorRows], last: u32) -> Option<Refusal>
    ensures { result ≡ first (over_cursors (length cursors.now + 1) ++ over_cursor_numbers (last + 1)) }
{
    over_cursors((cursors.len() as u64).saturating_add(1)).or(over_cursor_numbers(
        u64::from(last) + 1,
    ))
}

/// The rows of a cursor over the catalog, or what refuses it: the statement's own faults, and then the limits.
fn cursor_rows(
    alloc: Global,
    catalog: &Catalog,
    full: Option<Refusal>,
    select: &Select,
) -> Result<Result<List<List<Value>>, Refusal>, Memory>
    requires valid { IsValidCatalog catalog.now }
    ensures { IfOk result (λ rows. rows ≡ cursor_rows select.now full (table_named select.now.table catalog.now.tables)) }
{
    let Some(found) = find_table(catalog.tables.as_slice(), &select.table) else {
        return Ok(Err(Refusal::NoTable));
    };
    if let Some(refusal) = check_select(found.table.schema.columns.as_slice(), select) {
        return Ok(Err(refusal));
    }
    if let Some(refusal) = full {
        return Ok(Err(refusal));
    }
    Ok(Ok(answer(alloc, found.table, select)?))
}

/// Adds a cursor over the rows.
fn add_cursor(session: &mut Session, rows: List<List<Value>>) -> Result<(), Memory>
    requires room { first (over_cursor_numbers (session.old.last_cursor + 1)) ≡ None }
    ensures ok { OnOk result (session.new ≡ with_new_cursor rows session.old) }
    ensures err { OnErr result (session.new ≡ session.old) }
{
    let number = session.last_cursor + 1;
    session.cursors.push(CursorRows { number, rows })?;
    session.last_cursor = number;
    Ok(())
}

/// The next rows of a cursor, and those behind them.
#[derive(Drop)]
struct Cut {
    page: List<List<Value>>,
    left: List<List<Value>>,
}

/// Copies of the first rows and of those behind them.
fn cut_rows(alloc: Global, rows: &[List<Value>], count: usize) -> Result<Cut, Memory>
    ensures page { IfOk result (λ cut. cut.page ≡ take count rows.now) }
    ensures left { IfOk result (λ cut. cut.left ≡ drop count rows.now) }
{
    let count = count.min(rows.len());
    let page = copied_rows(alloc, &rows[..count])?;
    let left = copied_rows(alloc, &rows[count..])?;
    Ok(Cut { page, left })
}

impl Machine {
    /// The rows that a SELECT answers to a cursor, or what refuses the cursor.
    fn cursor_rows(
        &self,
        alloc: Global,
        at: usize,
        select: &Select,
    ) -> Result<Result<List<List<Value>>, Refusal>, Memory>
        requires at { at < length self.now.sessions.items }
        requires valid { IsValidCatalog (seen_at self.now at) }
        ensures { IfOk result (λ rows. rows ≡ rows_to select.now (state_of self.now) (session_at self.now at)) }
    {
        let session = &self.sessions[at];
        let full = one_cursor_more(session.cursors.as_slice(), session.last_cursor);
        cursor_rows(alloc, self.seen(at), full, select)
    }

    /// Opens a cursor over the rows that a SELECT answers.
    pub(crate) fn open_cursor(&mut self, alloc: Global, at: usize, select: &Select) -> Reply
        requires at { IsAt self.old.sessions.items at }
        requires valid { IsValidCatalog (seen_at self.old at) }
        ensures { Answers (cursor_opened select.now (state_of self.old) (session_at self.old at) (found select.now.table (state_of self.old) (session_at self.old at))) self.old result self.new }
    {
        match self.cursor_rows(alloc, at, select) {
            Ok(Ok(rows)) => self.add_cursor(at, rows),
            Ok(Err(refusal)) => Reply::Refused(refusal),
            Err(Memory) => Reply::Refused(Refusal::WantOfMemory),
        }
    }

    /// Opens a cursor over the rows.
    fn add_cursor(&mut self, at: usize, rows: List<List<Value>>) -> Reply
        requires at { IsAt self.old.sessions.items at }
        requires room { first (over_cursor_numbers ((session_at self.old at).last_cursor + 1)) ≡ None }
        ensures { Answers (opened_over (state_of self.old) (session_at self.old at) (ok rows)) self.old result self.new }
    {
        let number = self.sessions[at].last_cursor + 1;
        match add_cursor(&mut self.sessions[at], rows) {
            Ok(()) => Reply::Cursor(number),
            Err(Memory) => Reply::Refused(Refusal::WantOfMemory),
        }
    }

    /// Answers the next rows of a cursor.
    pub(crate) fn fetch(&mut self, alloc: Global, at: usize, number: u32, count: u16) -> Reply
        requires at { IsAt self.old.sessions.items at }
        ensures { Answers (fetched count (state_of self.old) (session_at self.old at) (cursor_of number (session_at self.old at).cursors)) self.old result self.new }
    {
        let cursors = self.sessions[at].cursors.as_slice();
        let Some(place) = cursor_place(cursors, number) else {
            return Reply::Refused(Refusal::NoCursor);
        };
        let rows = cursors[place].rows.as_slice();
        let Ok(Cut { page, left }) = cut_rows(alloc, rows, usize::from(count)) else {
            return Reply::Refused(Refusal::WantOfMemory);
        };
        let is_last = left.is_empty();
        let cursor = CursorRows { number, rows: left };
        self.sessions[at].cursors.set(place, cursor);
        Reply::Page(page, is_last)
    }

    /// Closes a cursor.
    pub(crate) fn close_cursor(&mut self, at: usize, number: u32) -> Reply
        requires at { IsAt self.old.sessions.items at }
        ensures { Answers (cursor_closed number (state_of self.old) (session_at self.old at) (cursor_of number (session_at self.old at).cursors)) self.old result self.new }
    {
        let Some(place) = cursor_place(self.sessions[at].cursors.as_slice(), number) else {
            return Reply::Refused(Refusal::NoCursor);
        };
        self.sessions[at].cursors.remove(place);
        Reply::Done
    }
}
