//! Writing the canonical text of columns.
ghost use Rattle.std.specs.Prelude.{◌≡◌, ◌++◌, codes, IfOk, OnOk, OnErr};
ghost use Rattle.std.specs.List.{flat_map};
ghost use Rattle.row_model.specs.CanonicalColumns.{metric_text, declared_text, column_text, canonical_columns};
ghost use Rattle.row_model.specs.Schemas.{IsValidSchema};
ghost use Rattle.vec0_columns.specs.ColumnReading.{Declares};

use row_model::{Column, Kind, Metric, Schema};
use std::alloc::{AllocError, Global};
use vec_base::{Memory, Txt};
use vec_text::{Takes, put_number};

/// The canonical text of the schema: each column as it is declared, and the chunk size behind them. Where the schema is
/// valid, reading the text gives it back.
pub fn write_columns(alloc: Global, schema: &Schema) -> Result<Txt, Memory>
    ensures text { IfOk result (λ text. text ≡ canonical_columns schema.now) }
    ensures reads_back { IsValidSchema schema.now → IfOk result (λ text. Declares text schema.now) }
{
    let mut text = String::new(alloc);
    put_columns(&mut text, schema)?;
    Ok(Txt::from_string(text))
}

/// Writes the canonical text of the schema.
pub fn put_columns<W: Takes>(to: &mut W, schema: &Schema) -> Result<(), AllocError>
    ensures added { OnOk result (W.adds (canonical_columns schema.now) to.old to.new) }
    ensures want { OnErr result W.may_want }
{
    put_all(to, schema.columns.as_slice())?;
    to.put("chunk_size=")?;
    put_number(to, u64::from(schema.chunk_size))
}

/// Writes each column with a comma and a space behind it.
fn put_all<W: Takes>(to: &mut W, columns: &[Column]) -> Result<(), AllocError>
    ensures added { OnOk result (W.adds (flat_map (λ column. column_text column ++ codes ", ") columns.now) to.old to.new) }
    ensures want { OnErr result W.may_want }
{
    for column in columns {
        put_column(to, column)?;
        to.put(", ")?;
    }
    Ok(())
}

/// Writes a column as it is declared.
fn put_column<W: Takes>(to: &mut W, column: &Column) -> Result<(), AllocError>
    ensures added { OnOk result (W.adds (column_text column.now) to.old to.new) }
    ensures want { OnErr result W.may_want }
{
    let name = column.name.as_text();
    match column.kind {
        Kind::IntKey => put_two(to, name, " integer primary key"),
        Kind::TextKey => put_two(to, name, " text primary key"),
        Kind::Int8Vector(width, metric) => put_int8_column(to, name, width, metric),
        Kind::BitVector(width) => put_bit_column(to, name, width),
        Kind::IntPartition => put_two(to, name, " integer partition key"),
        Kind::TextPartition => put_two(to, name, " text partition key"),
        Kind::IntMeta => put_two(to, name, " integer"),
        Kind::TextMeta => put_two(to, name, " text"),
        Kind::BoolMeta => put_two(to, name, " boolean"),
        Kind::IntAux => put_auxiliary(to, name, " integer"),
        Kind::TextAux => put_auxiliary(to, name, " text"),
        Kind::BlobAux => put_auxiliary(to, name, " blob"),
    }
}

/// Writes one text and another behind it.
fn put_two<W: Takes>(to: &mut W, first: &str, second: &str) -> Result<(), AllocError>
    ensures added { OnOk result (W.adds (first.now ++ second.now) to.old to.new) }
    ensures want { OnErr result W.may_want }
{
    to.put(first)?;
    to.put(second)
}

/// Writes an auxiliary column, which has a `+` before its name.
fn put_auxiliary<W: Takes>(to: &mut W, name: &str, words: &str) -> Result<(), AllocError>
    ensures added { OnOk result (W.adds (codes "+" ++ name.now ++ words.now) to.old to.new) }
    ensures want { OnErr result W.may_want }
{
    to.put("+")?;
    to.put(name)?;
    to.put(words)
}

/// Writes a column of int8 vectors.
fn put_int8_column<W: Takes>(
    to: &mut W,
    name: &str,
    width: u16,
    metric: Metric,
) -> Result<(), AllocError>
    ensures added { OnOk result (W.adds (declared_text name.now (Kind.Int8Vector width metric)) to.old to.new) }
    ensures want { OnErr result W.may_want }
{
    put_two(to, name, " int8[")?;
    put_number(to, u64::from(width))?;
    to.put("] distance_metric=")?;
    to.put(metric_name(metric))
}

/// Writes a column of bit vectors.
fn put_bit_column<W: Takes>(to: &mut W, name: &str, width: u16) -> Result<(), AllocError>
    ensures added { OnOk result (W.adds (declared_text name.now (Kind.BitVector width)) to.old to.new) }
    ensures want { OnErr result W.may_want }
{
    put_two(to, name, " bit[")?;
    put_number(to, u64::from(width))?;
    to.put("]")
}

/// The name of the metric.
fn metric_name(metric: Metric) -> &'static str
    ensures { result.now ≡ metric_text metric }
{
    match metric {
        Metric::L1 => "l1",
        Metric::L2 => "l2",
    }
}
