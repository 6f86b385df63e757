//! The bodies of answers.

ghost use Rattle.std.specs.Prelude.{◌≡◌, OnOk, OnErr};
ghost use Rattle.http_replies.specs.Bodies.{bad_body, body, shape_name, truth_json};

use crate::rows::put_rows;
use row_model::{Reply, Shape};
use std::alloc::AllocError;
use vec_base::{List, Refusal, Value};
use vec_text::{Takes, put_counted, put_refusal, put_signed_counted};

/// Writes the body of the answer with a reply.
pub(crate) fn put_body<W: Takes>(to: &mut W, reply: &Reply) -> Result<(), AllocError>
    ensures added { OnOk result (W.adds (body reply.now) to.old to.new) }
    ensures want { OnErr result W.may_want }
{
    match reply {
        Reply::Done => to.put("{\"reply\":\"done\"}"),
        Reply::Inserted(count, last) => put_inserted(to, *count, last),
        Reply::Changed(count) => put_changed(to, *count),
        Reply::Rows(rows) => put_all_rows(to, rows),
        Reply::Planned(shape) => put_planned(to, *shape),
        Reply::Session(id) => put_session(to, *id),
        Reply::Cursor(number) => put_cursor(to, *number),
        Reply::Page(rows, done) => put_page(to, rows, *done),
        Reply::Refused(refusal) => put_refused(to, refusal),
    }
}

/// Writes how many rows were inserted, and the last rowid.
fn put_inserted<W: Takes>(to: &mut W, count: u64, last: &i64) -> Result<(), AllocError>
    ensures added { OnOk result (W.adds (body (Reply.Inserted count last.now)) to.old to.new) }
    ensures want { OnErr result W.may_want }
{
    put_counted(to, "{\"count\":", count)?;
    put_signed_counted(to, ",\"last\":", last)?;
    to.put(",\"reply\":\"inserted\"}")
}

/// Writes how many rows were changed.
fn put_changed<W: Takes>(to: &mut W, count: u64) -> Result<(), AllocError>
    ensures added { OnOk result (W.adds (body (Reply.Changed count)) to.old to.new) }
    ensures want { OnErr result W.may_want }
{
    put_counted(to, "{\"count\":", count)?;
    to.put(",\"reply\":\"changed\"}")
}

/// Writes all rows of an answer.
fn put_all_rows<W: Takes>(to: &mut W, rows: &List<List<Value>>) -> Result<(), AllocError>
    ensures added { OnOk result (W.adds (body (Reply.Rows rows.now)) to.old to.new) }
    ensures want { OnErr result W.may_want }
{
    to.put("{\"reply\":\"rows\",\"rows\":")?;
    put_rows(to, rows.as_slice())?;
    to.put("}")
}

/// Writes how a SELECT is carried out.
fn put_planned<W: Takes>(to: &mut W, shape: Shape) -> Result<(), AllocError>
    ensures added { OnOk result (W.adds (body (Reply.Planned shape)) to.old to.new) }
    ensures want { OnErr result W.may_want }
{
    to.put("{\"plan\":\"")?;
    to.put(shape_name(shape))?;
    to.put("\",\"reply\":\"plan\"}")
}

/// The name of a way to carry out a SELECT.
fn shape_name(shape: Shape) -> &'static str
    ensures { result.now ≡ shape_name shape }
{
    match shape {
        Shape::Point => "point",
        Shape::Scan => "scan",
        Shape::Nearest => "nearest",
    }
}

/// Writes the id of the session that was opened.
fn put_session<W: Takes>(to: &mut W, id: u32) -> Result<(), AllocError>
    ensures added { OnOk result (W.adds (body (Reply.Session id)) to.old to.new) }
    ensures want { OnErr result W.may_want }
{
    put_counted(to, "{\"reply\":\"session\",\"session\":", u64::from(id))?;
    to.put("}")
}

/// Writes the number of the cursor that was opened.
fn put_cursor<W: Takes>(to: &mut W, number: u32) -> Result<(), AllocError>
    ensures added { OnOk result (W.adds (body (Reply.Cursor number)) to.old to.new) }
    ensures want { OnErr result W.may_want }
{
    put_counted(to, "{\"cursor\":", u64::from(number))?;
    to.put(",\"reply\":\"cursor\"}")
}

/// Writes the next rows of a cursor, and whether none is left behind them.
fn put_page<W: Takes>(to: &mut W, rows: &List<List<Value>>, done: bool) -> Result<(), AllocError>
    ensures added { OnOk result (W.adds (body (Reply.Page rows.now done)) to.old to.new) }
    ensures want { OnErr result W.may_want }
{
    to.put("{\"done\":")?;
    to.put(truth_json(done))?;
    to.put(",\"reply\":\"page\",\"rows\":")?;
    put_rows(to, rows.as_slice())?;
    to.put("}")
}

/// A truth value in JSON.
fn truth_json(truth: bool) -> &'static str
    ensures { result.now ≡ truth_json truth }
{
    if truth { "true" } else { "false" }
}

/// Writes why a request is not done: the number and the text of the refusal.
fn put_refused<W: Takes>(to: &mut W, refusal: &Refusal) -> Result<(), AllocError>
    ensures added { OnOk result (W.adds (body (Reply.Refused refusal.now)) to.old to.new) }
    ensures want { OnErr result W.may_want }
{
    put_counted(to, "{\"error\":", u64::from(refusal.number()))?;
    to.put(",\"reply\":\"refused\",\"text\":\"")?;
    put_refusal(to, refusal)?;
    to.put("\"}")
}

/// Writes the body of the answer to what is no request.
pub(crate) fn put_bad_body<W: Takes>(to: &mut W, status: u16) -> Result<(), AllocError>
    ensures added { OnOk result (W.adds (bad_body status) to.old to.new) }
    ensures want { OnErr result W.may_want }
{
    put_counted(to, "{\"reply\":\"bad\",\"status\":", u64::from(status))?;
    to.put("}")
}
