//! What is kept of given values: their text id, their partition values, and the bytes of their texts.
ghost use Rattle.std.specs.Prelude.{◌≡◌, ◌++◌, ◌<◌, ◌^◌, sum_by, IfOk, OnOk};
ghost use Rattle.std.specs.List.{AllByRecursion};
ghost use Rattle.std.specs.Option.{option_copied};
ghost use Rattle.vec_base.specs.Representable.{IsRepresentable};
ghost use Rattle.row_model.specs.RepresentableStatements.{AreRepresentable};
ghost use Rattle.row_model.specs.Values.{side_bytes};
ghost use Rattle.shadow_records.specs.PlacedTables.{partition_of};
ghost use Rattle.table_version.specs.Kept.{id_in, text_in};

use row_model::{Column, Kind, Role};
use std::alloc::Global;
use vec_base::{List, Memory, Value};

/// The text that a value is, if it is one.
fn text_in(value: &Value) -> Option<&str>
    ensures { option_copied result ≡ text_in value.now }
{
    match value {
        Value::Text(text) => Some(text.as_text()),
        _ => None,
    }
}

/// The text in the column of a text key, if there is one.
pub(crate) fn text_id<'a>(columns: &[Column], values: &'a [Value]) -> Option<&'a str>
    ensures { option_copied result ≡ id_in columns.now values.now }
{
    let (column, columns) = columns.split_first()?;
    let (value, values) = values.split_first()?;
    if matches!(column.kind, Kind::TextKey) {
        text_in(value)
    } else {
        text_id(columns, values)
    }
}

/// Adds the values that stand in the partition columns.
fn add_partition(
    alloc: Global,
    columns: &[Column],
    values: &[Value],
    kept: &mut List<Value>,
) -> Result<(), Memory>
    ensures { OnOk result (kept.new ≡ kept.old ++ partition_of columns.now values.now) }
{
    let Some((column, columns)) = columns.split_first() else {
        return Ok(());
    };
    let Some((value, values)) = values.split_first() else {
        return Ok(());
    };
    if column.kind.has_role(Role::Partition) {
        kept.push(value.copy(alloc)?)?;
    }
    add_partition(alloc, columns, values, kept)
}

/// The values that stand in the partition columns.
pub(crate) fn partition_values(
    alloc: Global,
    columns: &[Column],
    values: &[Value],
) -> Result<List<Value>, Memory>
    ensures { IfOk result (λ kept. kept ≡ partition_of columns.now values.now) }
{
    let mut kept = List::new(alloc);
    add_partition(alloc, columns, values, &mut kept)?;
    Ok(kept)
}

/// The bytes of a text or a blob.
pub(crate) fn side_bytes(value: &Value) -> u64
    ensures { result ≡ side_bytes value.now }
{
    match value {
        Value::Text(text) => text.as_text().len() as u64,
        Value::Blob(bytes) => bytes.len() as u64,
        _ => 0,
    }
}

/// The bytes of all texts and blobs.
#[tactic(auto, using(crate::proofs::GivenLaws::sum_step))]
pub(crate) fn all_side_bytes(values: &[Value]) -> u64
    requires { sum_by side_bytes values.now < 2 ^ 64 }
    ensures { result ≡ sum_by side_bytes values.now }
{
    let Some((value, values)) = values.split_first() else {
        return 0;
    };
    side_bytes(value) + all_side_bytes(values)
}

/// Types hold no other values than representable ones. The call does nothing: its clause is all that it gives.
pub(crate) fn value_representable(value: &Value)
    ensures { IsRepresentable value.now }
{
    value.representable();
}

/// The same of several. The call does nothing: its clause is all that it gives.
fn values_representable(values: &[Value])
    ensures { AreRepresentable values.now }
{
    for value in values {
        value.representable();
    }
}

/// The same of a list.
pub(crate) fn list_representable(values: &List<Value>)
    ensures { AreRepresentable values.now }
{
    values_representable(values.as_slice());
}
