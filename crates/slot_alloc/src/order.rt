//! A strict order of lists of values, by which equal lists are told from others.
ghost use Rattle.std.specs.Prelude.{◌≡◌, ◌↔◌, IsTrue, [], string_bytes};
ghost use Rattle.std.specs.Cmp.Lexicographic.{slice_cmp};
ghost use Rattle.slot_alloc.specs.inner.Orders.{kind_of, number_of, bytes_of, value_cmp};

use std::cmp::Ordering;
use vec_base::{List, Value};

/// The place of the value's kind among the kinds.
fn kind(value: &Value) -> u8
    ensures { result ≡ kind_of value.now }
{
    match value {
        Value::Null => 0,
        Value::Int(_) => 1,
        Value::Text(_) => 2,
        Value::Blob(_) => 3,
        Value::Int8(_) => 4,
        Value::Bits(_) => 5,
    }
}

/// The number of an integer, and 0 for other kinds.
fn number(value: &Value) -> i64
    ensures { result ≡ number_of value.now }
{
    match value {
        Value::Int(number) => *number,
        _ => 0,
    }
}

/// The bytes of a text, a blob or a vector, and none for other kinds.
fn bytes(value: &Value) -> &[u8]
    ensures { result.now ≡ bytes_of value.now }
{
    match value {
        Value::Null | Value::Int(_) => &[],
        Value::Text(text) => text.as_text().as_bytes(),
        Value::Blob(bytes) | Value::Int8(bytes) | Value::Bits(bytes) => bytes.as_slice(),
    }
}

/// How two values stand in the order: by kinds, then by numbers, then by bytes.
fn value_order(a: &Value, b: &Value) -> Ordering
    ensures { result ≡ value_cmp a.now b.now }
{
    kind(a)
        .cmp(&kind(b))
        .then(number(a).cmp(&number(b)))
        .then(bytes(a).cmp(bytes(b)))
}

/// How two lists of values stand in the order: the first two values that differ decide.
fn slice_order(a: &[Value], b: &[Value]) -> Ordering
    ensures { result ≡ slice_cmp value_cmp a.now b.now }
{
    match (a.split_first(), b.split_first()) {
        (None, None) => Ordering::Equal,
        (None, Some(_)) => Ordering::Less,
        (Some(_), None) => Ordering::Greater,
        (Some((x, xs)), Some((y, ys))) => match value_order(x, y) {
            Ordering::Equal => slice_order(xs, ys),
            order => order,
        },
    }
}

/// How two lists of values stand in the order.
pub(crate) fn order(a: &List<Value>, b: &List<Value>) -> Ordering
    ensures { result ≡ slice_cmp value_cmp a.now b.now }
{
    slice_order(a.as_slice(), b.as_slice())
}

/// Whether two lists of values are equal.
pub fn same_values(a: &List<Value>, b: &List<Value>) -> bool
    ensures { IsTrue result ↔ (a.now ≡ b.now) }
{
    order(a, b).is_eq()
}
