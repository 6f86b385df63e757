//! The lines of replies.

ghost use Rattle.std.specs.Prelude.{◌≡◌, OnOk, OnErr};
ghost use Rattle.std.specs.List.{flat_map};
ghost use Rattle.vec_shell.specs.Lines.{lines, row_line, shape_text};

use row_model::{Reply, Shape};
use std::alloc::AllocError;
use vec_base::{List, Refusal, Value};
use vec_text::{Takes, put_counted, put_refusal, put_separated, put_signed_counted};

/// Writes the lines of a reply. Replies on sessions and cursors have none.
pub(crate) fn put_reply<W: Takes>(to: &mut W, reply: &Reply) -> Result<(), AllocError>
    ensures added { OnOk result (W.adds (lines reply.now) to.old to.new) }
    ensures want { OnErr result W.may_want }
{
    match reply {
        Reply::Done => to.put("ok\n"),
        Reply::Inserted(count, last) => put_inserted(to, *count, last),
        Reply::Rows(rows) => put_rows(to, rows),
        Reply::Changed(count) => put_changed(to, *count),
        Reply::Planned(shape) => to.put(shape_line(*shape)),
        Reply::Session(_) | Reply::Cursor(_) | Reply::Page(_, _) => Ok(()),
        Reply::Refused(refusal) => put_refused(to, refusal),
    }
}

/// Writes how many rows were inserted, and the last rowid.
fn put_inserted<W: Takes>(to: &mut W, count: u64, last: &i64) -> Result<(), AllocError>
    ensures added { OnOk result (W.adds (lines (Reply.Inserted count last.now)) to.old to.new) }
    ensures want { OnErr result W.may_want }
{
    put_counted(to, "ok inserted ", count)?;
    put_signed_counted(to, " last ", last)?;
    to.put("\n")
}

/// Writes how many rows were changed.
fn put_changed<W: Takes>(to: &mut W, count: u64) -> Result<(), AllocError>
    ensures added { OnOk result (W.adds (lines (Reply.Changed count)) to.old to.new) }
    ensures want { OnErr result W.may_want }
{
    put_counted(to, "ok changed ", count)?;
    to.put("\n")
}

/// Writes the rows, and how many there are.
fn put_rows<W: Takes>(to: &mut W, rows: &List<List<Value>>) -> Result<(), AllocError>
    ensures added { OnOk result (W.adds (lines (Reply.Rows rows.now)) to.old to.new) }
    ensures want { OnErr result W.may_want }
{
    put_row_lines(to, rows.as_slice())?;
    put_counted(to, "rows ", rows.len() as u64)?;
    to.put("\n")
}

/// Writes a line for each row.
fn put_row_lines<W: Takes>(to: &mut W, rows: &[List<Value>]) -> Result<(), AllocError>
    ensures added { OnOk result (W.adds (flat_map row_line rows.now) to.old to.new) }
    ensures want { OnErr result W.may_want }
{
    for row in rows {
        put_row(to, row.as_slice())?;
    }
    Ok(())
}

/// Writes the line of a row.
fn put_row<W: Takes>(to: &mut W, values: &[Value]) -> Result<(), AllocError>
    ensures added { OnOk result (W.adds (row_line values.now) to.old to.new) }
    ensures want { OnErr result W.may_want }
{
    put_separated(to, "|", values)?;
    to.put("\n")
}

/// How a SELECT is carried out.
fn shape_line(shape: Shape) -> &'static str
    ensures { result.now ≡ shape_text shape }
{
    match shape {
        Shape::Point => "plan point\n",
        Shape::Scan => "plan scan\n",
        Shape::Nearest => "plan nearest\n",
    }
}

/// Writes the line of a refusal: its number and its text.
fn put_refused<W: Takes>(to: &mut W, refusal: &Refusal) -> Result<(), AllocError>
    ensures added { OnOk result (W.adds (lines (Reply.Refused refusal.now)) to.old to.new) }
    ensures want { OnErr result W.may_want }
{
    put_counted(to, "error ", u64::from(refusal.number()))?;
    to.put(" ")?;
    put_refusal(to, refusal)?;
    to.put("\n")
}
