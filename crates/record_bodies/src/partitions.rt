//! The partition values of a chunk.
ghost use Rattle.std.specs.Prelude.{◌≡◌, ◌++◌, IfOk, MatchOption, OnOk, OnErr};
ghost use Rattle.std.specs.List.{flat_map};
ghost use Rattle.row_model.specs.declared.schema.Kind.TheVariants.{IntPartition, TextPartition};
ghost use Rattle.shadow_records.specs.Cells.{partition_value_bytes};
ghost use Rattle.record_bodies.specs.Bodies.{partition_in, partition_value, partition_width};
ghost use Rattle.record_bodies.specs.Partitions.{IsNoPartition, IsPartition};

use crate::bytes::{behind, byte_at, front, int_in, length_in, text_in};
use row_model::{Kind, Role, Schema};
use std::alloc::Global;
use vec_base::{Bytes, List, Memory, Value};

/// How many bytes the value in front has, by its column; other columns have none there.
pub(crate) fn partition_width(kind: Kind, bytes: &[u8]) -> usize
    ensures { result ≡ partition_width kind bytes.now }
{
    match kind {
        Kind::IntPartition => 9,
        Kind::TextPartition => 5 + length_in(behind(bytes, 1)) as usize,
        _ => 0,
    }
}

/// The number behind its tag.
fn tagged_number(bytes: &[u8]) -> Option<Value>
    ensures { result ≡ partition_value IntPartition bytes.now }
{
    if byte_at(bytes, 0) == 1 {
        int_in(behind(bytes, 1))
    } else {
        None
    }
}

/// The text behind its tag and its length.
fn tagged_text(alloc: Global, bytes: &[u8]) -> Result<Option<Value>, Memory>
    ensures { IfOk result (λ value. value ≡ partition_value TextPartition bytes.now) }
{
    if byte_at(bytes, 0) == 2 && bytes.len() == partition_width(Kind::TextPartition, bytes) {
        text_in(alloc, behind(bytes, 5))
    } else {
        Ok(None)
    }
}

/// The value of a partition column that the bytes are.
pub(crate) fn partition_value(
    alloc: Global,
    kind: Kind,
    bytes: &[u8],
) -> Result<Option<Value>, Memory>
    ensures { IfOk result (λ value. value ≡ partition_value kind bytes.now) }
{
    match kind {
        Kind::IntPartition => Ok(tagged_number(bytes)),
        Kind::TextPartition => tagged_text(alloc, bytes),
        _ => Ok(None),
    }
}

/// The partition values that stand behind each other in the bytes, one for each partition column and nothing else.
fn partition_in(alloc: Global, body: &[u8], schema: &Schema) -> Result<Option<List<Value>>, Memory>
    ensures { IfOk result (λ values. values ≡ partition_in schema.now.columns body.now) }
{
    let mut values = List::new(alloc);
    let mut rest = body;
    for column in schema.columns.as_slice() {
        if !column.kind.has_role(Role::Partition) {
            continue;
        }
        let width = partition_width(column.kind, rest);
        match partition_value(alloc, column.kind, front(rest, width))? {
            Some(value) => values.push(value)?,
            None => return Ok(None),
        }
        rest = behind(rest, width);
    }
    if rest.is_empty() {
        Ok(Some(values))
    } else {
        Ok(None)
    }
}

/// The partition values in the body of a chunk, one for each partition column of the schema: a number under an
/// integer column, a text under a text column. None where the body is not in this form, or a text is no UTF-8.
pub fn read_partition(
    alloc: Global,
    body: &[u8],
    schema: &Schema,
) -> Result<Option<List<Value>>, Memory>
    ensures exact { IfOk result (λ values. values ≡ partition_in schema.now.columns body.now) }
    ensures form { IfOk result (λ values. MatchOption values (IsNoPartition schema.now.columns body.now) (IsPartition schema.now.columns body.now)) }
{
    partition_in(alloc, body, schema)
}

/// Puts a value behind a body. After want of memory the body may have gained a part of it.
fn write_value(body: &mut Bytes, value: &Value) -> Result<(), Memory>
    ensures { OnOk result (body.new ≡ body.old ++ partition_value_bytes value.now) }
{
    match value {
        Value::Int(number) => {
            let [a, b, c, d, e, f, g, h] = number.to_le_bytes();
            body.extend(&[1, a, b, c, d, e, f, g, h])
        }
        Value::Text(text) => {
            let text = text.as_text().as_bytes();
            let [a, b, c, d, _, _, _, _] = (text.len() as u64).to_le_bytes();
            body.extend(&[2, a, b, c, d])?;
            body.extend(text)
        }
        _ => Ok(()),
    }
}

/// The body of a chunk's partition values: of a number its tag 1 and eight bytes, of a text its tag 2, its length in
/// four bytes and the text. A value of another type adds nothing.
pub fn write_partition(alloc: Global, values: &List<Value>) -> Result<Bytes, Memory>
    ensures { IfOk result (λ body. body ≡ flat_map partition_value_bytes values.now) }
{
    let mut body = Bytes::new(alloc);
    for value in values.as_slice() {
        write_value(&mut body, value)?;
    }
    Ok(body)
}
