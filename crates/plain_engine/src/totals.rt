//! Bytes counted in 64 bits, against the limits on the bytes of all tables.
ghost use Rattle.std.specs.Prelude.{◌≡◌, ◌+◌, List};
ghost use Rattle.row_model.specs.declared.row.Row.{Row as RowOf};
ghost use Rattle.row_model.specs.Change.{Elsewhere, elsewhere, rows_side_bytes, rows_vector_bytes};
ghost use Rattle.row_model.specs.Rows.{with_row};
ghost use Rattle.plain_engine.specs.inner.ByteTotals.{capped, total_beside};
ghost use Rattle.row_model.specs.Values.{row_side_bytes, row_vector_bytes, side_bytes, vector_bytes};

use row_model::{Named, Row, is_same_name};
use vec_base::{Txt, Value};

/// Bytes of all tables: of vectors, and of texts and blobs. The greatest number stands for every greater one too.
#[derive(Clone, Copy, Debug)]
pub(crate) struct Totals {
    pub(crate) vectors: u64,
    pub(crate) sides: u64,
}

/// Bytes of a text or blob.
pub(crate) fn side_bytes(value: &Value) -> u64
    ensures { result ≡ side_bytes value.now }
{
    match value {
        Value::Text(text) => text.as_text().len() as u64,
        Value::Blob(bytes) => bytes.len() as u64,
        _ => 0,
    }
}

/// Bytes of a vector.
fn vector_bytes(value: &Value) -> u64
    ensures { result ≡ vector_bytes value.now }
{
    match value {
        Value::Int8(bytes) => bytes.len() as u64,
        Value::Bits(bytes) => bytes.len() as u64,
        _ => 0,
    }
}

/// Bytes of a row's texts and blobs.
pub(crate) fn row_side_bytes(row: &Row) -> u64
    ensures { result ≡ capped (row_side_bytes row.now) }
{
    let mut total = 0u64;
    for value in row.values.as_slice() {
        total = total.saturating_add(side_bytes(value));
    }
    total
}

/// Bytes of a row's vectors.
pub(crate) fn row_vector_bytes(row: &Row) -> u64
    ensures { result ≡ capped (row_vector_bytes row.now) }
{
    let mut total = 0u64;
    for value in row.values.as_slice() {
        total = total.saturating_add(vector_bytes(value));
    }
    total
}

impl Totals {
    /// The bytes with those of one more row.
    pub(crate) fn with(self, row: &Row) -> Totals
        ensures { (other : Elsewhere) → (rows : List RowOf) → self ≡ total_beside other rows → result ≡ total_beside other (with_row row.now rows) }
    {
        Totals {
            vectors: self.vectors.saturating_add(row_vector_bytes(row)),
            sides: self.sides.saturating_add(row_side_bytes(row)),
        }
    }

    /// The bytes with those of all rows.
    pub(crate) fn with_rows(self, rows: &[Row]) -> Totals
        ensures vectors { result.vectors ≡ capped (self.vectors + rows_vector_bytes rows.now) }
        ensures sides { result.sides ≡ capped (self.sides + rows_side_bytes rows.now) }
    {
        let mut totals = self;
        for row in rows {
            totals = Totals {
                vectors: totals.vectors.saturating_add(row_vector_bytes(row)),
                sides: totals.sides.saturating_add(row_side_bytes(row)),
            };
        }
        totals
    }

    /// The bytes of all tables but the one of the name.
    fn elsewhere(tables: &[Named], name: &Txt) -> Totals
        ensures vectors { result.vectors ≡ capped (elsewhere name.now (record { tables = tables.now })).vectors }
        ensures sides { result.sides ≡ capped (elsewhere name.now (record { tables = tables.now })).sides }
    {
        let mut totals = Totals {
            vectors: 0,
            sides: 0,
        };
        for named in tables {
            if !is_same_name(&named.name, name) {
                totals = totals.with_rows(named.table.rows.as_slice());
            }
        }
        totals
    }

    /// The bytes of these rows, and of all tables but the one of the name.
    pub(crate) fn beside(tables: &[Named], name: &Txt, rows: &[Row]) -> Totals
        ensures { result ≡ total_beside (elsewhere name.now (record { tables = tables.now })) rows.now }
    {
        Totals::elsewhere(tables, name).with_rows(rows)
    }
}
