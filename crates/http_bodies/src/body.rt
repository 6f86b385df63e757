//! Bodies that say a statement or a count.
ghost use Rattle.std.specs.Prelude.{◌≡◌, ◌≤◌, codes, IfOk};
ghost use Rattle.serde_json.specs.Find.{get};
ghost use Rattle.serde_json.specs.View.{view};
ghost use Rattle.vec_base.specs.declared.limits.TheConstants.{MOST_REPLY_ROWS};
ghost use Rattle.http_bodies.specs.declared.body.BodyFault.TheVariants.{Memory as WantOfMemory};
ghost use Rattle.http_bodies.specs.Bodies.{Tells, TellsAs, json_at, params_member, statement_in, statement_of, counted, count_in, count_of};

use crate::param::params;
use serde_json::Value as Json;
use std::alloc::{AllocError, Global};
use vec_base::{List, MOST_REPLY_ROWS, Memory, Txt, Value};

/// Why a body is not read: it is not of its form, or there was not enough memory.
#[derive(Clone, Copy, Debug, PartialEq, Eq)]
pub enum BodyFault {
    Form,
    Memory,
}

impl From<AllocError> for BodyFault {
    ghost from_gives = { λ _ e. e ≡ WantOfMemory };

    fn from(_: AllocError) -> Self {
        BodyFault::Memory
    }
}

impl From<Memory> for BodyFault {
    ghost from_gives = { λ _ e. e ≡ WantOfMemory };

    fn from(_: Memory) -> Self {
        BodyFault::Memory
    }
}

/// The text of a statement and its parameters in order.
#[derive(Debug, Drop)]
pub struct StatementBody {
    pub sql: Txt,
    pub params: List<Value>,
}

/// The JSON value that the bytes spell.
fn json(alloc: Global, bytes: &[u8]) -> Result<Json, BodyFault>
    ensures { TellsAs view result (json_at bytes.now) }
{
    match Json::from_slice(alloc, bytes) {
        Ok(value) => Ok(value),
        Err(error) => {
            if error.is_memory() {
                Err(BodyFault::Memory)
            } else {
                Err(BodyFault::Form)
            }
        }
    }
}

/// The parameters of an object, none where it does not say any.
#[tactic(auto, using(serde_json::specs::declared::value::Value::the_lemmas), unfolding(crate::specs::Bodies::params_member))]
fn params_in(alloc: Global, body: &Json) -> Result<List<Value>, BodyFault>
    ensures { Tells result (params_member (get (codes "params") (view body.now))) }
{
    match body.get("params") {
        None => Ok(List::new(alloc)),
        Some(Json::Array(items)) => params(alloc, items),
        Some(_) => Err(BodyFault::Form),
    }
}

/// The statement of an object.
#[tactic(auto, unfolding(crate::specs::Bodies::statement_in))]
fn statement_in(alloc: Global, body: &Json) -> Result<StatementBody, BodyFault>
    ensures { Tells result (statement_in (view body.now)) }
{
    let Some(sql) = body.get("sql").and_then(Json::as_str) else {
        return Err(BodyFault::Form);
    };
    let params = params_in(alloc, body)?;
    Ok(StatementBody {
        sql: Txt::from_text(alloc, sql)?,
        params,
    })
}

/// The statement and the parameters that a body says.
#[tactic(auto, unfolding(crate::specs::Bodies::statement_of))]
pub fn read_statement(alloc: Global, bytes: &[u8]) -> Result<StatementBody, BodyFault>
    ensures exact { Tells result (statement_of bytes.now) }
{
    let body = json(alloc, bytes)?;
    statement_in(alloc, &body)
}

/// A count of rows within its bounds.
fn within(number: i64) -> Option<u16>
    ensures { result ≡ counted number }
{
    if number >= 1 && number <= MOST_REPLY_ROWS as i64 {
        Some(number as u16)
    } else {
        None
    }
}

/// The count of an object.
fn count_in(body: &Json) -> Option<u16>
    ensures { result ≡ count_in (view body.now) }
{
    within(body.get("count").and_then(Json::as_i64)?)
}

/// The count of rows that a body says, from 1 to the most rows of a reply.
#[tactic(auto, unfolding(crate::specs::Bodies::count_of))]
pub fn read_count(alloc: Global, bytes: &[u8]) -> Result<u16, BodyFault>
    ensures exact { Tells result (count_of bytes.now) }
    ensures least { IfOk result (λ count. 1 ≤ count) }
    ensures most { IfOk result (λ count. count ≤ MOST_REPLY_ROWS) }
{
    let body = json(alloc, bytes)?;
    match count_in(&body) {
        Some(count) => Ok(count),
        None => Err(BodyFault::Form),
    }
}
