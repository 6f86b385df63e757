//! Rows and their values in JSON.

ghost use Rattle.std.specs.Prelude.{ℕ, ◌++◌, List as Seq, OnOk, OnErr, codes};
ghost use Rattle.hex.specs.Hex.{encode_upper};
ghost use Rattle.vec_text.specs.SeparatedTexts.{behind, separated};
ghost use Rattle.http_replies.specs.JsonTexts.{array_json, rows_json, value_json};

use crate::escape::put_string;
use std::alloc::AllocError;
use vec_base::{List, Value};
use vec_text::{Takes, put_hex, put_int8, put_signed};

/// What is written in JSON.
trait Json {
    /// Its text.
    ghost json_of: { Self → Seq ℕ };

    /// Writes the text.
    fn put_json<W: Takes>(&self, to: &mut W) -> Result<(), AllocError>
        ensures added { OnOk result (W.adds (json_of self.now) to.old to.new) }
        ensures want { OnErr result W.may_want };
}

impl Json for Value {
    ghost use Rattle.http_replies.specs.JsonTexts.{value_json};

    ghost json_of = { value_json };

    fn put_json<W: Takes>(&self, to: &mut W) -> Result<(), AllocError> {
        match self {
            Value::Null => to.put("null"),
            Value::Int(number) => put_signed(to, *number),
            Value::Text(text) => put_string(to, text.as_text()),
            Value::Blob(bytes) => put_enclosed(to, "{\"hex\":\"", bytes.as_slice()),
            Value::Int8(vector) => put_int8(to, vector.as_slice()),
            Value::Bits(bytes) => put_enclosed(to, "{\"bits\":\"", bytes.as_slice()),
        }
    }
}

impl Json for List<Value> {
    ghost use Rattle.http_replies.specs.JsonTexts.{row_json};

    ghost json_of = { row_json };

    fn put_json<W: Takes>(&self, to: &mut W) -> Result<(), AllocError> {
        put_array(to, self.as_slice())
    }
}

/// Writes rows as an array of arrays.
pub(crate) fn put_rows<W: Takes>(to: &mut W, rows: &[List<Value>]) -> Result<(), AllocError>
    ensures added { OnOk result (W.adds (rows_json rows.now) to.old to.new) }
    ensures want { OnErr result W.may_want }
{
    put_array(to, rows)
}

/// Writes the elements as an array.
fn put_array<J: Json, W: Takes>(to: &mut W, elements: &[J]) -> Result<(), AllocError>
    ensures added { OnOk result (W.adds (array_json J.json_of elements.now) to.old to.new) }
    ensures want { OnErr result W.may_want }
{
    to.put("[")?;
    put_elements(to, elements)?;
    to.put("]")
}

/// Writes the elements with commas between them.
fn put_elements<J: Json, W: Takes>(to: &mut W, elements: &[J]) -> Result<(), AllocError>
    ensures added { OnOk result (W.adds (separated (codes ",") J.json_of elements.now) to.old to.new) }
    ensures want { OnErr result W.may_want }
{
    match elements {
        [] => Ok(()),
        [first, others @ ..] => {
            first.put_json(to)?;
            put_behind(to, ",", others)
        }
    }
}

/// Writes the elements, each with the separator before it.
fn put_behind<J: Json, W: Takes>(
    to: &mut W,
    separator: &str,
    elements: &[J],
) -> Result<(), AllocError>
    ensures added { OnOk result (W.adds (behind separator.now J.json_of elements.now) to.old to.new) }
    ensures want { OnErr result W.may_want }
{
    for element in elements {
        to.put(separator)?;
        element.put_json(to)?;
    }
    Ok(())
}

/// Writes bytes in digits as the string of the one member of an object.
fn put_enclosed<W: Takes>(to: &mut W, before: &str, bytes: &[u8]) -> Result<(), AllocError>
    ensures added { OnOk result (W.adds (before.now ++ encode_upper bytes.now ++ codes "\"}") to.old to.new) }
    ensures want { OnErr result W.may_want }
{
    to.put(before)?;
    put_hex(to, bytes)?;
    to.put("\"}")
}
