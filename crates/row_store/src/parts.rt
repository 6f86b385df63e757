//! Chunks by their numbers: finding one, and changes of one slot.
ghost use Rattle.std.specs.Prelude.{◌≡◌, ℕ, ◌<◌, ◌≤◌, true, length, None, Some, MatchOption, IfOk, OnOk, OnErr, is_some, slice_index_or};
ghost use Rattle.std.specs.List.{count_by, list_all};
ghost use Rattle.std.specs.Option.{option_copied};
ghost use Rattle.row_chunks.specs.Cells.{is_cell};
ghost use Rattle.row_chunks.specs.RowSlots.{all_free, slot_at};
ghost use Rattle.shared_leaves.specs.Edits.{HoldsAt};
ghost use Rattle.row_store.specs.declared.part.Part.{Part as PartOf};
ghost use Rattle.row_store.specs.inner.Parts.{part_of, slots_of, seen_at, numbers_rise, number_at, taken_by, with_content, CanTake, ArePartsOf, IsChangedAt, KeepShapes, RowFits};
ghost use Rattle.row_store.specs.inner.Changes.{Fits, slot_changed};
ghost use Rattle.row_store.specs.Touches.{IsChunkShape};

use crate::part::{ChangeRow, DropRow, Part, PlaceRow, RowChange};
use crate::shape::Shape;
use row_chunks::RowChunk;
use shared_leaves::{Leaves, Shared, Within};
use std::alloc::Global;
use vec_base::Memory;

/// The first place of a part whose number is at least this one.
fn first_from(parts: &Leaves<Shared<Part>>, number: u64) -> usize
    requires { numbers_rise parts.now ≡ true }
    ensures within { result ≤ length parts.now }
    ensures front { (k : ℕ) → k < result → number_at parts.now k < number }
    ensures back { (k : ℕ) → result ≤ k → k < length parts.now → number ≤ number_at parts.now k }
{
    let mut low = 0;
    let mut high = parts.len();
    while low < high {
        let middle = low + (high - low) / 2;
        if u64::from(parts.get(middle).get().number) < number {
            low = middle + 1;
        } else {
            high = middle;
        }
    }
    low
}

/// The place of the part of a number, if there is one.
fn find(parts: &Leaves<Shared<Part>>, number: u32) -> Option<usize>
    requires { numbers_rise parts.now ≡ true }
    ensures { MatchOption result
        (part_of parts.now number ≡ None)
        (λ k. (k < length parts.now) × ((d : PartOf) → part_of parts.now number ≡ Some (slice_index_or parts.now k d))) }
{
    let at = first_from(parts, u64::from(number));
    if at == parts.len() {
        return None;
    }
    if parts.get(at).get().number != number {
        return None;
    }
    Some(at)
}

/// The slots of a chunk, if the chunk is there.
pub(crate) fn slots(parts: &Leaves<Shared<Part>>, number: u32) -> Option<&RowChunk>
    requires { numbers_rise parts.now ≡ true }
    ensures { option_copied result ≡ slots_of parts.now number }
{
    let at = find(parts, number)?;
    Some(&parts.get(at).get().slots)
}

/// The least number of a chunk above another number.
pub(crate) fn next_number(parts: &Leaves<Shared<Part>>, after: u32) -> Option<u32>
    requires { numbers_rise parts.now ≡ true }
    ensures { MatchOption result
        ((d : ℕ) → after < d → part_of parts.now d ≡ None)
        (λ c. (after < c) × (is_some (part_of parts.now c) ≡ true) × ((d : ℕ) → after < d → d < c → part_of parts.now d ≡ None)) }
{
    let at = first_from(parts, u64::from(after) + 1);
    if at == parts.len() {
        return None;
    }
    Some(parts.get(at).get().number)
}

/// A row takes a free slot of the part at a place. After want of memory the parts are as before.
fn fill_slot(parts: &mut Leaves<Shared<Part>>, at: usize, row: &PlaceRow<'_>) -> Result<(), Memory>
    requires within { at < length parts.old }
    requires rise { numbers_rise parts.old ≡ true }
    requires fits { HoldsAt (CanTake row.now.slot row.now.columns.now row.now.values.now) at parts.old }
    ensures kept { OnErr result (parts.new ≡ parts.old) }
    ensures changed { OnOk result (IsChangedAt (number_at parts.old at) row.now.slot (taken_by row.now.rowid row.now.columns.now row.now.values.now) parts.old parts.new) }
    ensures shapes { OnOk result (KeepShapes parts.old parts.new) }
{
    parts.edit(at, &Within(row))?;
    Ok(())
}

/// A chunk with a row in one slot.
fn new_part(alloc: Global, shape: &Shape, number: u32, row: &PlaceRow<'_>) -> Result<Part, Memory>
    requires shape { IsChunkShape shape.now.size shape.now.widths }
    requires cells { list_all is_cell shape.now.kinds ≡ true }
    requires slot { row.now.slot < shape.now.size }
    requires fits { RowFits shape.now.widths shape.now.kinds row.now.columns.now row.now.values.now }
    ensures { IfOk result (λ part. part ≡ with_content row.now.slot (taken_by row.now.rowid row.now.columns.now row.now.values.now) (record { number = number; slots = all_free shape.now.size shape.now.widths shape.now.kinds })) }
{
    let mut slots = RowChunk::with_shape(
        alloc,
        shape.size,
        shape.widths.as_slice(),
        shape.kinds.as_slice(),
    )?;
    slots.place_row(alloc, row.slot, row.rowid, row.columns, row.values)?;
    Ok(Part { number, slots })
}

/// A chunk that is not there yet comes with a row in it. After want of memory the parts are as before.
fn add_part(
    alloc: Global,
    parts: &mut Leaves<Shared<Part>>,
    shape: &Shape,
    number: u32,
    row: &PlaceRow<'_>,
) -> Result<(), Memory>
    requires shape { IsChunkShape shape.now.size shape.now.widths }
    requires cells { list_all is_cell shape.now.kinds ≡ true }
    requires slot { row.now.slot < shape.now.size }
    requires fits { RowFits shape.now.widths shape.now.kinds row.now.columns.now row.now.values.now }
    requires parts { ArePartsOf shape.now parts.old }
    requires new { part_of parts.old number ≡ None }
    ensures kept { OnErr result (parts.new ≡ parts.old) }
    ensures changed { OnOk result (IsChangedAt number row.now.slot (taken_by row.now.rowid row.now.columns.now row.now.values.now) parts.old parts.new) }
    ensures shapes { OnOk result (ArePartsOf shape.now parts.new) }
{
    let at = first_from(parts, u64::from(number));
    let part = new_part(alloc, shape, number, row)?;
    parts.insert(at, Shared::new(alloc, part)?)?;
    Ok(())
}

/// A row takes a free slot; a chunk that is not there is made for it. After want of memory the parts are as before.
pub(crate) fn place_row(
    alloc: Global,
    parts: &mut Leaves<Shared<Part>>,
    shape: &Shape,
    number: u32,
    row: &PlaceRow<'_>,
) -> Result<(), Memory>
    requires shape { IsChunkShape shape.now.size shape.now.widths }
    requires cells { list_all is_cell shape.now.kinds ≡ true }
    requires slot { row.now.slot < shape.now.size }
    requires fits { RowFits shape.now.widths shape.now.kinds row.now.columns.now row.now.values.now }
    requires parts { ArePartsOf shape.now parts.old }
    requires free { seen_at parts.old number row.now.slot ≡ None }
    ensures kept { OnErr result (parts.new ≡ parts.old) }
    ensures changed { OnOk result (IsChangedAt number row.now.slot (taken_by row.now.rowid row.now.columns.now row.now.values.now) parts.old parts.new) }
    ensures shapes { OnOk result (ArePartsOf shape.now parts.new) }
{
    match find(parts, number) {
        Some(at) => fill_slot(parts, at, row),
        None => add_part(alloc, parts, shape, number, row),
    }
}

/// A row leaves its slot in the part at a place, where other rows stay. After want of memory the parts are as before.
fn free_slot(parts: &mut Leaves<Shared<Part>>, at: usize, slot: u16) -> Result<(), Memory>
    requires within { at < length parts.old }
    requires rise { numbers_rise parts.old ≡ true }
    requires used { HoldsAt (λ part. is_some (slot_at part.slots slot) ≡ true) at parts.old }
    requires others { HoldsAt (λ part. 1 < count_by is_some part.slots.slots) at parts.old }
    ensures kept { OnErr result (parts.new ≡ parts.old) }
    ensures changed { OnOk result (IsChangedAt (number_at parts.old at) slot None parts.old parts.new) }
    ensures shapes { OnOk result (KeepShapes parts.old parts.new) }
{
    parts.edit(at, &Within(&DropRow { slot }))?;
    Ok(())
}

/// A chunk goes with its last row. After want of memory the parts are as before.
fn remove_part(parts: &mut Leaves<Shared<Part>>, at: usize, slot: u16) -> Result<(), Memory>
    requires within { at < length parts.old }
    requires rise { numbers_rise parts.old ≡ true }
    requires used { HoldsAt (λ part. is_some (slot_at part.slots slot) ≡ true) at parts.old }
    requires last { HoldsAt (λ part. count_by is_some part.slots.slots ≤ 1) at parts.old }
    ensures kept { OnErr result (parts.new ≡ parts.old) }
    ensures changed { OnOk result (IsChangedAt (number_at parts.old at) slot None parts.old parts.new) }
    ensures shapes { OnOk result (KeepShapes parts.old parts.new) }
{
    parts.remove(at)?;
    Ok(())
}

/// How many slots are used.
fn used(slots: &RowChunk) -> u16
    ensures { result ≡ count_by is_some slots.now.slots }
{
    slots.slots().used()
}

/// A row leaves its slot, and its chunk goes with its last row. After want of memory the parts are as before.
pub(crate) fn drop_row(
    parts: &mut Leaves<Shared<Part>>,
    number: u32,
    slot: u16,
) -> Result<(), Memory>
    requires rise { numbers_rise parts.old ≡ true }
    requires used { is_some (seen_at parts.old number slot) ≡ true }
    ensures kept { OnErr result (parts.new ≡ parts.old) }
    ensures changed { OnOk result (IsChangedAt number slot None parts.old parts.new) }
    ensures shapes { OnOk result (KeepShapes parts.old parts.new) }
{
    let Some(at) = find(parts, number) else {
        unreachable!();
    };
    if used(&parts.get(at).get().slots) > 1 {
        free_slot(parts, at, slot)
    } else {
        remove_part(parts, at, slot)
    }
}

/// The row in a slot changes. After want of memory the parts are as before.
pub(crate) fn change_row(
    parts: &mut Leaves<Shared<Part>>,
    number: u32,
    slot: u16,
    change: &RowChange<'_>,
) -> Result<(), Memory>
    requires rise { numbers_rise parts.old ≡ true }
    requires used { is_some (seen_at parts.old number slot) ≡ true }
    requires fits { (part : PartOf) → part_of parts.old number ≡ Some part → Fits part.slots.widths part.slots.kinds change.now }
    ensures kept { OnErr result (parts.new ≡ parts.old) }
    ensures changed { OnOk result (IsChangedAt number slot (slot_changed change.now (seen_at parts.old number slot)) parts.old parts.new) }
    ensures shapes { OnOk result (KeepShapes parts.old parts.new) }
{
    let Some(at) = find(parts, number) else {
        unreachable!();
    };
    parts.edit(at, &Within(&ChangeRow { slot, change }))?;
    Ok(())
}
