//! Distances from the vector that is looked for.
ghost use Rattle.std.specs.Prelude.{◌≡◌, ◌≤◌, length, true};
ghost use Rattle.vec_base.specs.declared.limits.TheConstants.{MOST_DIMENSIONS};
ghost use Rattle.row_model.specs.Answer.{distance_at, distance_by, distance_in, vector_of};
ghost use Rattle.row_model.specs.ColumnNames.{is_of};
ghost use Rattle.row_model.specs.Schemas.{is_vector};
ghost use Rattle.row_model.specs.Values.{value_at};
ghost use Rattle.row_model.specs.declared.row.Row.{Row};

use distance_kernels::{hamming, l1, l2_squared};
use knn_plan::Target;
use row_model::{Kind, Metric, Place};
use vec_base::Value;

/// The bytes of a vector.
#[inline]
fn vector_of(value: &Value) -> &[u8]
    ensures { result.now ≡ vector_of value.now }
{
    match value {
        Value::Int8(bytes) => bytes.as_slice(),
        Value::Bits(bytes) => bytes.as_slice(),
        _ => &[],
    }
}

#[inline]
fn distance_by(metric: Metric, a: &[u8], b: &[u8]) -> u32
    requires same_length { length a.now ≡ length b.now }
    requires short { length a.now ≤ MOST_DIMENSIONS }
    ensures { result ≡ distance_by metric a.now b.now }
{
    match metric {
        Metric::L1 => l1(a, b),
        Metric::L2 => l2_squared(a, b),
    }
}

/// The distance of two vectors of a vector column.
#[inline]
fn distance_in(kind: Kind, a: &[u8], b: &[u8]) -> u32
    requires column { is_vector kind ≡ true }
    requires same_length { length a.now ≡ length b.now }
    requires short { length a.now ≤ MOST_DIMENSIONS }
    ensures { result ≡ distance_in kind a.now b.now }
{
    match kind {
        Kind::Int8Vector(_, metric) => distance_by(metric, a, b),
        Kind::BitVector(_) => hamming(a, b),
        _ => unreachable!(),
    }
}

/// The distance of a row's vector from the target.
#[inline]
pub(crate) fn distance_to(target: &Target<'_>, vector: &[u8]) -> u32
    requires column { is_of is_vector target.now.column.place ≡ true }
    requires same_length { length vector.now ≡ length (vector_of target.now.query) }
    requires short { length (vector_of target.now.query) ≤ MOST_DIMENSIONS }
    ensures { (row : Row) → vector.now ≡ vector_of (value_at target.now.column.place row) → result ≡ distance_at target.now.column.place target.now.query row }
{
    match target.column.place {
        Place::Declared(_, kind) => distance_in(kind, vector, vector_of(target.query)),
        _ => unreachable!(),
    }
}
