//! Tests of values that are lent.
ghost use Rattle.std.specs.Prelude.{◌≡◌};
ghost use Rattle.std.specs.List.{list_any};
ghost use Rattle.vec_base.specs.Comparison.{blob_to, compared, int_to, satisfies, text_to};
ghost use Rattle.vec_base.specs.declared.value.Op.TheVariants.{Eq};
ghost use Rattle.row_chunks.specs.Fields.{value_shown};
ghost use Rattle.row_model.specs.Values.{passes};

use row_model::Test;
use std::cmp::Ordering;
use table_version::Field;
use vec_base::{Op, Value};

/// How a number stands to a constant, if they compare.
#[inline]
fn int_to(number: i64, constant: &Value) -> Option<Ordering>
    ensures { result ≡ int_to number constant.now }
{
    match constant {
        Value::Int(other) => Some(number.cmp(other)),
        _ => None,
    }
}

/// How a text stands to a constant, if they compare.
fn text_to(text: &str, constant: &Value) -> Option<Ordering>
    ensures { result ≡ text_to text.now constant.now }
{
    match constant {
        Value::Text(other) => Some(text.cmp(other.as_text())),
        _ => None,
    }
}

/// How a blob stands to a constant, if they compare.
fn blob_to(bytes: &[u8], constant: &Value) -> Option<Ordering>
    ensures { result ≡ blob_to bytes.now constant.now }
{
    match constant {
        Value::Blob(other) => Some(bytes.cmp(other.as_slice())),
        _ => None,
    }
}

/// How a value that is lent stands to a constant, if they compare.
fn compared(field: Field<'_>, constant: &Value) -> Option<Ordering>
    ensures { result ≡ compared (value_shown field.entry) constant.now }
{
    match field {
        Field::Int(number) => int_to(number, constant),
        Field::Text(text) => text_to(text, constant),
        Field::Blob(bytes) => blob_to(bytes, constant),
        Field::Null => None,
    }
}

/// Whether a value that is lent stands to a constant as the operator says.
fn satisfies(op: Op, field: Field<'_>, constant: &Value) -> bool
    ensures { result ≡ satisfies op (value_shown field.entry) constant.now }
{
    match compared(field, constant) {
        Some(order) => op.holds(order),
        None => false,
    }
}

/// Whether a value that is lent is one of these constants.
fn is_member(field: Field<'_>, constants: &[Value]) -> bool
    ensures { result ≡ list_any (satisfies Eq (value_shown field.entry)) constants.now }
{
    constants
        .iter()
        .any(|constant| satisfies(Op::Eq, field, constant))
}

/// Whether a value that is lent passes a test.
pub fn field_passes(test: &Test, field: Field<'_>) -> bool
    ensures { result ≡ passes test.now (value_shown field.entry) }
{
    match test {
        Test::Compare(op, constant) => satisfies(*op, field, constant),
        Test::Member(constants) => is_member(field, constants.as_slice()),
        Test::Match(_) => true,
    }
}
