//! The value of a field.

ghost use Rattle.csv_fields.specs.Fields.{IsBitsField, IsBoolField, IsInt8Field, IsIntField, IsMarkedBlob, IsMarkedText, IsTextField, ReadsField, StandsFor};

use crate::FieldFault;
use crate::number::integer;
use row_model::Kind;
use std::alloc::Global;
use vec_base::{Txt, Value};
use vec_literal::{read_bits, read_int8};

/// The value that a field stands for in a column of the kind, `Form` where it stands for none. How many elements a vector
/// has is not looked at.
pub fn value_of(alloc: Global, kind: Kind, field: &str) -> Result<Value, FieldFault>
    ensures exact { ReadsField (StandsFor kind field.now) result }
{
    match kind {
        Kind::IntKey => int_value(field),
        Kind::TextKey => text_value(alloc, field),
        Kind::Int8Vector(_, _) => int8_value(alloc, field),
        Kind::BitVector(_) => bits_value(alloc, field),
        Kind::IntPartition => int_value(field),
        Kind::TextPartition => text_value(alloc, field),
        Kind::IntMeta => int_value(field),
        Kind::TextMeta => text_value(alloc, field),
        Kind::BoolMeta => bool_value(field),
        Kind::IntAux => nullable_int(field),
        Kind::TextAux => nullable_text(alloc, field),
        Kind::BlobAux => nullable_blob(alloc, field),
    }
}

/// The number that the field spells.
fn int_value(field: &str) -> Result<Value, FieldFault>
    ensures exact { ReadsField (IsIntField field.now) result }
{
    match integer(field) {
        Some(number) => Ok(Value::Int(number)),
        None => Err(FieldFault::Form),
    }
}

/// The truth value that the field spells.
fn bool_value(field: &str) -> Result<Value, FieldFault>
    ensures exact { ReadsField (IsBoolField field.now) result }
{
    match field {
        "0" => Ok(Value::Int(0)),
        "1" => Ok(Value::Int(1)),
        _ => Err(FieldFault::Form),
    }
}

/// The field as a text.
fn text_value(alloc: Global, field: &str) -> Result<Value, FieldFault>
    ensures exact { ReadsField (IsTextField field.now) result }
{
    Ok(Value::Text(Txt::from_text(alloc, field)?))
}

/// The vector of numbers that the field spells.
fn int8_value(alloc: Global, field: &str) -> Result<Value, FieldFault>
    ensures exact { ReadsField (IsInt8Field field.now) result }
{
    Ok(Value::Int8(read_int8(alloc, field.as_bytes())?))
}

/// The vector of bits that the field spells.
fn bits_value(alloc: Global, field: &str) -> Result<Value, FieldFault>
    ensures exact { ReadsField (IsBitsField field.now) result }
{
    Ok(Value::Bits(read_bits(alloc, field.as_bytes())?))
}

/// NULL, or the number that the field spells.
fn nullable_int(field: &str) -> Result<Value, FieldFault>
    ensures exact { ReadsField (StandsFor Kind.IntAux field.now) result }
{
    if field.is_empty() {
        return Ok(Value::Null);
    }
    int_value(field)
}

/// NULL, or the text behind its mark.
fn nullable_text(alloc: Global, field: &str) -> Result<Value, FieldFault>
    ensures exact { ReadsField (StandsFor Kind.TextAux field.now) result }
{
    if field.is_empty() {
        return Ok(Value::Null);
    }
    marked_text(alloc, field)
}

/// NULL, or the bytes that are spelled behind their mark.
fn nullable_blob(alloc: Global, field: &str) -> Result<Value, FieldFault>
    ensures exact { ReadsField (StandsFor Kind.BlobAux field.now) result }
{
    if field.is_empty() {
        return Ok(Value::Null);
    }
    marked_blob(alloc, field)
}

/// The text behind its mark.
fn marked_text(alloc: Global, field: &str) -> Result<Value, FieldFault>
    ensures exact { ReadsField (IsMarkedText field.now) result }
{
    match field.strip_prefix('\'') {
        Some(text) => Ok(Value::Text(Txt::from_text(alloc, text)?)),
        None => Err(FieldFault::Form),
    }
}

/// The bytes that are spelled behind their mark.
fn marked_blob(alloc: Global, field: &str) -> Result<Value, FieldFault>
    ensures exact { ReadsField (IsMarkedBlob field.now) result }
{
    match field.strip_prefix('x') {
        Some(digits) => Ok(Value::Blob(read_bits(alloc, digits.as_bytes())?)),
        None => Err(FieldFault::Form),
    }
}
