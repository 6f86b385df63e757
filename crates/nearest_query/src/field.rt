//! Tests of values.
ghost use Rattle.std.specs.Prelude.{◌≡◌};
ghost use Rattle.std.specs.List.{list_any};
ghost use Rattle.vec_base.specs.Comparison.{blob_to, compared, satisfies, text_to};
ghost use Rattle.vec_base.specs.declared.value.Op.TheVariants.{Eq};
ghost use Rattle.row_chunks.specs.Fields.{value_shown};
ghost use Rattle.row_model.specs.Values.{passes};

use row_model::Test;
use std::cmp::Ordering;
use table_version::Field;
use vec_base::{Op, Value};

/// How a text stands to a constant, if they compare.
fn text_to(text: &str, constant: &Value) -> Option<Ordering>
    ensures { result ≡ text_to text.now constant.now }
{
    match constant {
        Value::Text(other) => Some(text.cmp(other.as_text())),
        _ => None,
    }
}

/// How a blob stands to a constant, if they compare.
fn blob_to(bytes: &[u8], constant: &Value) -> Option<Ordering>
    ensures { result ≡ blob_to bytes.now constant.now }
{
    match constant {
        Value::Blob(other) => Some(bytes.cmp(other.as_slice())),
        _ => None,
    }
}

/// How the value stands to a constant, if they compare.
fn compared(field: Field<'_>, constant: &Value) -> Option<Ordering>
    ensures { result ≡ compared (value_shown field.entry) constant.now }
{
    match field {
        Field::Null => None,
        Field::Int(number) => Value::Int(number).compared(constant),
        Field::Text(text) => text_to(text, constant),
        Field::Blob(bytes) => blob_to(bytes, constant),
    }
}

/// Whether the value stands to the constant as the operator says.
fn satisfies(field: Field<'_>, op: Op, constant: &Value) -> bool
    ensures { result ≡ satisfies op (value_shown field.entry) constant.now }
{
    match compared(field, constant) {
        Some(order) => op.holds(order),
        None => false,
    }
}

/// Whether the value is one of the constants.
fn is_member(field: Field<'_>, constants: &[Value]) -> bool
    ensures { result ≡ list_any (satisfies Eq (value_shown field.entry)) constants.now }
{
    constants
        .iter()
        .any(|constant| satisfies(field, Op::Eq, constant))
}

/// Whether the value passes the test.
pub(crate) fn passes(test: &Test, field: Field<'_>) -> bool
    ensures { result ≡ passes test.now (value_shown field.entry) }
{
    match test {
        Test::Compare(op, constant) => satisfies(field, *op, constant),
        Test::Member(constants) => is_member(field, constants.as_slice()),
        Test::Match(_) => true,
    }
}

/// Whether a value is one of the constants.
fn is_kept_member(value: &Value, constants: &[Value]) -> bool
    ensures { result ≡ list_any (satisfies Eq value.now) constants.now }
{
    constants
        .iter()
        .any(|constant| value.satisfies(Op::Eq, constant))
}

/// Whether a value that is kept passes the test.
pub(crate) fn value_passes(test: &Test, value: &Value) -> bool
    ensures { result ≡ passes test.now value.now }
{
    match test {
        Test::Compare(op, constant) => value.satisfies(*op, constant),
        Test::Member(constants) => is_kept_member(value, constants.as_slice()),
        Test::Match(_) => true,
    }
}
