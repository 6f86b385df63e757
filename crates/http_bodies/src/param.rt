//! The parameters of a statement in JSON.
ghost use Rattle.std.specs.Prelude.{◌≡◌, codes};
ghost use Rattle.serde_json.specs.Find.{get};
ghost use Rattle.serde_json.specs.View.{view, items_view};
ghost use Rattle.http_bodies.specs.Bodies.{Tells, element_at, elements_at, digits_at, param_at, params_at};

use crate::BodyFault;
use hex::FromHexError;
use serde_json::Value as Json;
use std::alloc::Global;
use vec_base::{Bytes, List, Txt, Value};

/// The byte of an element of an int8 vector.
fn element(item: &Json) -> Option<u8>
    ensures { result ≡ element_at (view item.now) }
{
    let number = item.as_i64()?;
    if number < -128 || number > 127 {
        None
    } else if number < 0 {
        Some((number + 256) as u8)
    } else {
        Some(number as u8)
    }
}

/// The bytes of an int8 vector.
fn elements(alloc: Global, items: &[Json]) -> Result<Bytes, BodyFault>
    ensures { Tells result (elements_at (items_view items.now)) }
{
    let mut bytes = Bytes::new(alloc);
    for item in items {
        match element(item) {
            Some(byte) => bytes.push(byte)?,
            None => return Err(BodyFault::Form),
        }
    }
    Ok(bytes)
}

/// The bytes of a string of hexadecimal digits.
fn digits(alloc: Global, item: &Json) -> Result<Bytes, BodyFault>
    ensures { Tells result (digits_at (view item.now)) }
{
    let Some(text) = item.as_str() else {
        return Err(BodyFault::Form);
    };
    match hex::decode(alloc, text) {
        Ok(bytes) => Ok(Bytes::from_vec(bytes)),
        Err(FromHexError::OutOfMemory) => Err(BodyFault::Memory),
        Err(_) => Err(BodyFault::Form),
    }
}

/// The value that a parameter stands for.
#[tactic(auto, using(serde_json::specs::declared::value::Value::the_lemmas), unfolding(crate::specs::Bodies::param_at))]
fn param(alloc: Global, item: &Json) -> Result<Value, BodyFault>
    ensures { Tells result (param_at (view item.now)) }
{
    match item {
        Json::Null => Ok(Value::Null),
        Json::Bool(truth) => Ok(Value::Int(if *truth { 1 } else { 0 })),
        Json::Number(number) => match number.as_i64() {
            Some(number) => Ok(Value::Int(number)),
            None => Err(BodyFault::Form),
        },
        Json::String(text) => Ok(Value::Text(Txt::from_text(alloc, text.as_str())?)),
        Json::Array(items) => Ok(Value::Int8(elements(alloc, items)?)),
        Json::Object(members) => {
            if members.len() != 1 {
                return Err(BodyFault::Form);
            }
            if let Some(found) = item.get("hex") {
                Ok(Value::Blob(digits(alloc, found)?))
            } else if let Some(found) = item.get("bits") {
                Ok(Value::Bits(digits(alloc, found)?))
            } else {
                Err(BodyFault::Form)
            }
        }
    }
}

/// The values that the parameters stand for.
pub(crate) fn params(alloc: Global, items: &[Json]) -> Result<List<Value>, BodyFault>
    ensures { Tells result (params_at (items_view items.now)) }
{
    let mut values = List::new(alloc);
    for item in items {
        values.push(param(alloc, item)?)?;
    }
    Ok(values)
}
