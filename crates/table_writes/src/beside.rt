//! Bytes counted in 64 bits, beside those of other tables.
ghost use Rattle.std.specs.Prelude.{◌≡◌, sum_by};
ghost use Rattle.row_model.specs.Values.{side_bytes, vector_bytes};
ghost use Rattle.table_writes.specs.inner.Capped.{capped};

use vec_base::Value;

/// The bytes of all other tables: of vectors, and of texts and blobs.
#[derive(Clone, Copy, Debug)]
pub struct Beside {
    pub vectors: u64,
    pub sides: u64,
}

/// Bytes of a text or blob.
pub(crate) fn side_bytes(value: &Value) -> u64
    ensures { result ≡ side_bytes value.now }
{
    match value {
        Value::Text(text) => text.as_text().len() as u64,
        Value::Blob(bytes) => bytes.len() as u64,
        _ => 0,
    }
}

/// Bytes of a vector.
fn vector_bytes(value: &Value) -> u64
    ensures { result ≡ vector_bytes value.now }
{
    match value {
        Value::Int8(bytes) => bytes.len() as u64,
        Value::Bits(bytes) => bytes.len() as u64,
        _ => 0,
    }
}

/// Bytes of all texts and blobs.
pub(crate) fn all_side_bytes(values: &[Value]) -> u64
    ensures { result ≡ capped (sum_by side_bytes values.now) }
{
    let mut total = 0u64;
    for value in values {
        total = total.saturating_add(side_bytes(value));
    }
    total
}

/// Bytes of all vectors.
pub(crate) fn all_vector_bytes(values: &[Value]) -> u64
    ensures { result ≡ capped (sum_by vector_bytes values.now) }
{
    let mut total = 0u64;
    for value in values {
        total = total.saturating_add(vector_bytes(value));
    }
    total
}
