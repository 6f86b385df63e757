//! Replies as lines.

use row_model::{Reply, Shape};
use std::alloc::AllocError;
use vec_base::{List, Refusal, Value};
use vec_text::{Takes, put_counted, put_refusal, put_separated, put_signed_counted};

/// The most rows that are written out.
const MOST_WRITTEN: usize = 20;

/// Writes a reply in one line: its rows with `/` behind each, of many rows the first and the last one, and then what it is.
pub(crate) fn put_reply<W: Takes>(to: &mut W, reply: &Reply) -> Result<(), AllocError> {
    match reply {
        Reply::Done => to.put("ok"),
        Reply::Inserted(count, last) => {
            put_counted(to, "inserted ", *count)?;
            put_signed_counted(to, " last ", last)
        }
        Reply::Changed(count) => put_counted(to, "changed ", *count),
        Reply::Rows(rows) => put_rows(to, "rows ", rows.as_slice()),
        Reply::Planned(shape) => to.put(shape_word(*shape)),
        Reply::Session(id) => put_counted(to, "session ", u64::from(*id)),
        Reply::Cursor(number) => put_counted(to, "cursor ", u64::from(*number)),
        Reply::Page(rows, false) => put_rows(to, "more ", rows.as_slice()),
        Reply::Page(rows, true) => put_rows(to, "last ", rows.as_slice()),
        Reply::Refused(refusal) => put_refused(to, refusal),
    }
}

/// Writes rows, a word and how many they are.
fn put_rows<W: Takes>(to: &mut W, word: &str, rows: &[List<Value>]) -> Result<(), AllocError> {
    match rows {
        [first, .., last] if rows.len() > MOST_WRITTEN => {
            put_row(to, first)?;
            to.put(".. / ")?;
            put_row(to, last)?;
        }
        _ => put_all(to, rows)?,
    }
    put_counted(to, word, rows.len() as u64)
}

/// Writes each row.
fn put_all<W: Takes>(to: &mut W, rows: &[List<Value>]) -> Result<(), AllocError> {
    for row in rows {
        put_row(to, row)?;
    }
    Ok(())
}

/// Writes a row.
fn put_row<W: Takes>(to: &mut W, row: &List<Value>) -> Result<(), AllocError> {
    put_separated(to, "|", row.as_slice())?;
    to.put(" / ")
}

/// How a SELECT is carried out.
fn shape_word(shape: Shape) -> &'static str {
    match shape {
        Shape::Point => "point",
        Shape::Scan => "scan",
        Shape::Nearest => "nearest",
    }
}

/// Writes the number and the text of a refusal.
fn put_refused<W: Takes>(to: &mut W, refusal: &Refusal) -> Result<(), AllocError> {
    put_counted(to, "error ", u64::from(refusal.number()))?;
    to.put(" ")?;
    put_refusal(to, refusal)
}
