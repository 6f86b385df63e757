//! The schema that the parts of a column text declare.
ghost use Rattle.std.specs.Prelude.{◌≡◌, true, ℕ, List, map, length, nat_lt, IfOk};
ghost use Rattle.std.specs.List.{list_all, list_any, count_by};
ghost use Rattle.row_model.specs.Schemas.{IsValidSchema, schema_fault};
ghost use Rattle.vec_base.specs.Answers.{Gives};
ghost use Rattle.vec_base.specs.declared.refusal.Refusal.TheVariants.{WantOfMemory};
ghost use Rattle.vec0_columns.specs.ColumnReading.{answer_of};
ghost use Rattle.vec0_columns.specs.ColumnGrammar.{
  columns_of,
  first_or,
  has_name,
  is_bits_with_metric,
  is_size,
  kind_of,
  least,
  rule_where,
  sizes_of,
};
ghost use Rattle.vec0_columns.specs.inner.NarrowedNumbers.{narrow, narrow_spelled, narrow_arg};

use crate::rule::schema_rule;
use crate::text::{Arg, Spelled};
use row_model::{Column, Kind, Metric, Schema};
use std::alloc::Global;
use vec_base::{DEFAULT_CHUNK_SIZE, List, Memory, Refusal};

/// The schema that the parts declare, or the refusal for the least rule that they break.
pub fn schema_of(alloc: Global, args: &[Arg]) -> Result<Schema, Refusal>
    requires { list_all has_name args.now ≡ true }
    ensures answer { Gives WantOfMemory result (answer_of args.now) }
    ensures valid { IfOk result (λ s. IsValidSchema s) }
{
    let Ok(columns) = columns_of(alloc, args) else {
        return Err(Refusal::WantOfMemory);
    };
    let schema = Schema {
        columns,
        chunk_size: chunk_size(args),
    };
    match text_fault(&schema, args) {
        Some(rule) => Err(Refusal::BadSchema(rule)),
        None => Ok(schema),
    }
}

/// The least rule that the schema breaks, or that its text breaks beside it.
fn text_fault(schema: &Schema, args: &[Arg]) -> Option<u8>
    ensures { result ≡ least (schema_fault schema.now) (least (rule_where (list_any is_bits_with_metric args.now) 11) (rule_where (nat_lt 1 (count_by is_size args.now)) 12)) }
{
    let metric = rule_where(has_bits_with_metric(args), 11);
    let size = rule_where(count_sizes(args) > 1, 12);
    least(schema_rule(schema), least(metric, size))
}

/// The rule, where it is broken.
fn rule_where(broken: bool, rule: u8) -> Option<u8>
    ensures { result ≡ rule_where broken rule }
{
    if broken { Some(rule) } else { None }
}

/// The lesser of two numbers, or the one that there is.
fn least(a: Option<u8>, b: Option<u8>) -> Option<u8>
    ensures { result ≡ least a b }
{
    match (a, b) {
        (None, other) => other,
        (Some(a), None) => Some(a),
        (Some(a), Some(b)) => { if a <= b { Some(a) } else { Some(b) } }
    }
}

/// Whether a column of bits has a metric.
fn has_bits_with_metric(args: &[Arg]) -> bool
    ensures { result ≡ list_any is_bits_with_metric args.now }
{
    args.iter().any(|arg| matches!(arg, Arg::Column(_, Spelled::Bits(_, Some(_)))))
}

/// How often a chunk size is given.
fn count_sizes(args: &[Arg]) -> usize
    ensures { result ≡ count_by is_size args.now }
{
    args.iter()
        .filter(|arg| matches!(arg, Arg::ChunkSize(_)))
        .count()
}

/// The first chunk size, or the default where none is given.
fn chunk_size(args: &[Arg]) -> u16
    ensures { result ≡ first_or DEFAULT_CHUNK_SIZE (sizes_of (map narrow_arg args.now)) }
{
    for arg in args {
        if let Arg::ChunkSize(size) = arg {
            return narrow(*size);
        }
    }
    DEFAULT_CHUNK_SIZE
}

/// The declared columns.
fn columns_of(alloc: Global, args: &[Arg]) -> Result<List<Column>, Memory>
    ensures { IfOk result (λ columns. columns ≡ columns_of (map narrow_arg args.now)) }
{
    let mut columns = List::new(alloc);
    for arg in args {
        if let Arg::Column(name, spelled) = arg {
            columns.push(Column {
                name: name.copy(alloc)?,
                kind: kind_of(*spelled),
            })?;
        }
    }
    Ok(columns)
}

/// The kind that is spelled. The metric of a vector of bytes is `L2` where none is given.
fn kind_of(spelled: Spelled) -> Kind
    ensures { result ≡ kind_of (narrow_spelled spelled) }
{
    match spelled {
        Spelled::Int8(width, Some(metric)) => Kind::Int8Vector(narrow(width), metric),
        Spelled::Int8(width, None) => Kind::Int8Vector(narrow(width), Metric::L2),
        Spelled::Bits(width, _) => Kind::BitVector(narrow(width)),
        Spelled::Plain(kind) => kind,
    }
}

/// The number, or the greatest number of 16 bits where it is greater. No rule of schemas tells the two apart.
fn narrow(number: u64) -> u16
    ensures { result ≡ narrow number }
{
    if number <= u16::MAX as u64 {
        number as u16
    } else {
        u16::MAX
    }
}
