//! Columns of metadata with their values.
ghost use Rattle.std.specs.Prelude.{◌≡◌, ◌<◌, true, map, length, slice_set, is_ok, if◌then◌else◌};
ghost use Rattle.vec_base.specs.Comparison.{satisfies};
ghost use Rattle.vec_base.specs.declared.value.Value.TheVariants.{Int, Text};
ghost use Rattle.row_model.specs.declared.schema.Kind.TheVariants.{IntMeta, BoolMeta, TextMeta};
ghost use Rattle.row_model.specs.Values.{is_of_kind};
ghost use Rattle.metadata_chunks.specs.Columns.{kept, number_of};
ghost use Rattle.row_chunks.specs.Cells.{is_cell_value};

use chunk_bitmap::Bitmap;
use metadata_chunks::{BoolColumn, IntColumn, TextColumn};
use std::alloc::Global;
use vec_base::{Memory, Op, Value};

/// Puts a number for a slot.
pub(crate) fn put_number(column: &mut IntColumn, slot: u16, value: &Value) -> Result<(), Memory>
    requires slot { slot < length column.old }
    requires value { is_cell_value IntMeta value.now ≡ true }
    ensures { map (λ number. Int number) column.new ≡ (if is_ok result then slice_set (map (λ number. Int number) column.old) slot value.now else map (λ number. Int number) column.old) }
{
    match value {
        Value::Int(number) => column.put(slot, *number),
        _ => unreachable!(),
    }
}

/// Puts 0 or 1 for a slot.
pub(crate) fn put_bool(column: &mut BoolColumn, slot: u16, value: &Value) -> Result<(), Memory>
    requires slot { slot < length column.old }
    requires value { is_cell_value BoolMeta value.now ≡ true }
    ensures { map number_of column.new ≡ (if is_ok result then slice_set (map number_of column.old) slot value.now else map number_of column.old) }
{
    match value {
        Value::Int(number) => column.put(slot, *number != 0),
        _ => unreachable!(),
    }
}

/// Puts a text for a slot.
pub(crate) fn put_text(
    column: &mut TextColumn,
    alloc: Global,
    slot: u16,
    value: &Value,
) -> Result<(), Memory>
    requires slot { slot < length column.old }
    requires value { is_cell_value TextMeta value.now ≡ true }
    ensures { map (λ text. Text text) column.new ≡ (if is_ok result then slice_set (map (λ text. Text text) column.old) slot value.now else map (λ text. Text text) column.old) }
{
    match value {
        Value::Text(text) => column.put(alloc, slot, text.as_text()),
        _ => unreachable!(),
    }
}

/// Clears the bits of the slots whose numbers do not stand to the constant as the operator says.
pub(crate) fn filter_numbers(column: &IntColumn, op: Op, constant: &Value, keep: &mut Bitmap)
    requires size { length keep.old ≡ length column.now }
    requires constant { is_of_kind IntMeta constant.now ≡ true }
    ensures { keep.new ≡ kept (λ value. satisfies op value constant.now) (map (λ number. Int number) column.now) keep.old }
{
    match constant {
        Value::Int(number) => column.filter(op, *number, keep),
        _ => unreachable!(),
    }
}

/// Clears the bits of the slots whose truth values do not stand to the constant as the operator says.
pub(crate) fn filter_bools(column: &BoolColumn, op: Op, constant: &Value, keep: &mut Bitmap)
    requires size { length keep.old ≡ length column.now }
    requires constant { is_of_kind BoolMeta constant.now ≡ true }
    ensures { keep.new ≡ kept (λ value. satisfies op value constant.now) (map number_of column.now) keep.old }
{
    match constant {
        Value::Int(number) => column.filter(op, *number != 0, keep),
        _ => unreachable!(),
    }
}

/// Clears the bits of the slots whose texts do not stand to the constant as the operator says.
pub(crate) fn filter_texts(column: &TextColumn, op: Op, constant: &Value, keep: &mut Bitmap)
    requires size { length keep.old ≡ length column.now }
    requires constant { is_of_kind TextMeta constant.now ≡ true }
    ensures { keep.new ≡ kept (λ value. satisfies op value constant.now) (map (λ text. Text text) column.now) keep.old }
{
    match constant {
        Value::Text(text) => column.filter(op, text.as_text(), keep),
        _ => unreachable!(),
    }
}
