//! Values as the literals and calls that statements have for them.

ghost use Rattle.std.specs.Prelude.{◌++◌, OnOk, OnErr};
ghost use Rattle.hex.specs.Hex.{encode_upper};
ghost use Rattle.vec_text.specs.ValueTexts.{doubled, int8_call, quoted, value_text};

use crate::{Piece, Takes, put_hex, put_int8, put_signed};
use std::alloc::AllocError;
use vec_base::Value;

impl Piece for Value {
    ghost use Rattle.vec_text.specs.ValueTexts.{value_text};

    ghost text_of = { value_text };

    fn put_to<W: Takes>(&self, to: &mut W) -> Result<(), AllocError> {
        put_value(to, self)
    }
}

/// Writes a value as the literal or the call that a statement has for it.
pub fn put_value<W: Takes>(to: &mut W, value: &Value) -> Result<(), AllocError>
    ensures added { OnOk result (W.adds (value_text value.now) to.old to.new) }
    ensures want { OnErr result W.may_want }
{
    match value {
        Value::Null => to.put("NULL"),
        Value::Int(number) => put_signed(to, *number),
        Value::Text(text) => put_quoted(to, text.as_text()),
        Value::Blob(bytes) => put_enclosed(to, "X'", bytes.as_slice(), "'"),
        Value::Int8(vector) => put_int8_call(to, vector.as_slice()),
        Value::Bits(bytes) => put_enclosed(to, "vec_bit(X'", bytes.as_slice(), "')"),
    }
}

/// Writes a text in quotes, with each quote in it twice.
pub fn put_quoted<W: Takes>(to: &mut W, text: &str) -> Result<(), AllocError>
    ensures added { OnOk result (W.adds (quoted text.now) to.old to.new) }
    ensures want { OnErr result W.may_want }
{
    to.put("'")?;
    put_doubled(to, text)?;
    to.put("'")
}

/// Writes the text with each quote twice.
fn put_doubled<W: Takes>(to: &mut W, text: &str) -> Result<(), AllocError>
    ensures added { OnOk result (W.adds (doubled text.now) to.old to.new) }
    ensures want { OnErr result W.may_want }
{
    let mut left = text;
    while let Some((before, after)) = left.split_once('\'') {
        to.put(before)?;
        to.put("''")?;
        left = after;
    }
    to.put(left)
}

/// Writes bytes in hexadecimal digits, between two texts.
fn put_enclosed<W: Takes>(
    to: &mut W,
    before: &str,
    bytes: &[u8],
    behind: &str,
) -> Result<(), AllocError>
    ensures added { OnOk result (W.adds (before.now ++ encode_upper bytes.now ++ behind.now) to.old to.new) }
    ensures want { OnErr result W.may_want }
{
    to.put(before)?;
    put_hex(to, bytes)?;
    to.put(behind)
}

/// Writes an int8 vector as the call that makes it.
fn put_int8_call<W: Takes>(to: &mut W, vector: &[u8]) -> Result<(), AllocError>
    ensures added { OnOk result (W.adds (int8_call vector.now) to.old to.new) }
    ensures want { OnErr result W.may_want }
{
    to.put("vec_int8('")?;
    put_int8(to, vector)?;
    to.put("')")
}
