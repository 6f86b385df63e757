//! The scan of chunks.
ghost use Rattle.std.specs.Prelude.{◌≡◌, ◌<◌, ℕ, [], ◌∷◌, length, slice_index_or, false, true, Some};
ghost use Rattle.std.specs.List.{AllByRecursion};
ghost use Rattle.std.specs.Option.{option_map};
ghost use Rattle.chunk_slots.specs.Slots.{slot_at};
ghost use Rattle.shadow_records.specs.PlacedTables.{PlacedRow, row_at};
ghost use Rattle.table_version.specs.Kept.{widths_of};
ghost use Rattle.table_version.specs.Versions.{slot_of_row};
ghost use Rattle.nearest_query.specs.Gathered.{found};
ghost use Rattle.nearest_query.specs.Searches.{meets_all_on_partition, on_row};
ghost use Rattle.nearest_query.specs.inner.Scanning.{IsMetChunk, IsReady, hits_in, hits_over, is_read_row, meets_all_on_metadata, row_hit, ticked, with_offers};

use crate::distance::distance_to;
use crate::terms::{bounds_met, filter_all, rest_met};
use chunk_bitmap::Bitmap;
use chunk_slots::Chunk;
use knn_plan::{Plan, Target};
use table_version::TableVersion;
use topk_merge::{Best, Hit};
use vec_base::Steps;

/// Reads the vector of the row in a slot, and offers the row if its distance meets the terms on it.
#[inline]
fn offer_read(
    table: &TableVersion,
    plan: &Plan,
    by_distance: bool,
    target: &Target<'_>,
    chunk: u32,
    slots: &Chunk,
    slot: u16,
    rowid: &i64,
    best: &mut Best,
    steps: &mut Steps,
)
    requires by_distance { by_distance ≡ plan.now.by_distance }
    requires ready { IsReady table.now.table plan.now target.now }
    requires kept_slot { slot_at slots.now slot ≡ option_map slot_of_row (row_at table.now.table.rows chunk slot) }
    requires widths { slots.now.widths ≡ widths_of table.now.table.schema.columns }
    requires row { (placed : PlacedRow) × ((row_at table.now.table.rows chunk slot ≡ Some placed) × (placed.row.rowid ≡ rowid.now)) }
    ensures best { (placed : PlacedRow) → row_at table.now.table.rows chunk slot ≡ Some placed → best.new ≡ with_offers table.now.table.schema.columns plan.now.select.where_terms best.old (row_hit target.now placed ∷ []) }
    ensures reads { steps.new.reads ≡ ticked steps.old.reads 1 }
    ensures pieces { steps.new.pieces ≡ steps.old.pieces }
{
    let distance = distance_to(target, slots.vector(slot, target.column.number, steps));
    if !bounds_met(plan, by_distance, distance) {
        return;
    }
    best.offer(Hit {
        distance,
        rowid: *rowid,
    });
}

/// Offers the row in a slot, where its bit is set and it meets the terms that are tested row by row.
#[inline]
fn offer_slot(
    table: &TableVersion,
    plan: &Plan,
    by_row: bool,
    by_distance: bool,
    target: &Target<'_>,
    chunk: u32,
    slots: &Chunk,
    keep: &Bitmap,
    slot: u16,
    best: &mut Best,
    steps: &mut Steps,
)
    requires by_row { by_row ≡ plan.now.by_row }
    requires by_distance { by_distance ≡ plan.now.by_distance }
    requires ready { IsReady table.now.table plan.now target.now }
    requires within { slot < length keep.now }
    requires used { slot < length slots.now.slots }
    requires kept_slot { slot_at slots.now slot ≡ option_map slot_of_row (row_at table.now.table.rows chunk slot) }
    requires widths { slots.now.widths ≡ widths_of table.now.table.schema.columns }
    requires bit { slice_index_or keep.now slot false ≡ on_row (meets_all_on_metadata table.now.table plan.now.select.where_terms) (row_at table.now.table.rows chunk slot) }
    requires partition { (placed : PlacedRow) → row_at table.now.table.rows chunk slot ≡ Some placed → meets_all_on_partition table.now.table plan.now.select.where_terms placed ≡ true }
    ensures best { best.new ≡ with_offers table.now.table.schema.columns plan.now.select.where_terms best.old (found (is_read_row table.now.table plan.now.select.where_terms) (row_hit target.now) (row_at table.now.table.rows chunk slot)) }
    ensures reads { steps.new.reads ≡ ticked steps.old.reads (length (found (is_read_row table.now.table plan.now.select.where_terms) (row_hit target.now) (row_at table.now.table.rows chunk slot))) }
    ensures pieces { steps.new.pieces ≡ steps.old.pieces }
{
    if !keep.get(slot) {
        return;
    }
    let Some(rowid) = slots.rowid(slot) else {
        return;
    };
    if !rest_met(table, plan, by_row, &rowid) {
        return;
    }
    offer_read(
        table,
        plan,
        by_distance,
        target,
        chunk,
        slots,
        slot,
        &rowid,
        best,
        steps,
    );
}

/// Offers the rows of a chunk whose bits are set, slot by slot.
fn offer_kept(
    table: &TableVersion,
    plan: &Plan,
    target: &Target<'_>,
    chunk: u32,
    slots: &Chunk,
    keep: &Bitmap,
    best: &mut Best,
    steps: &mut Steps,
)
    requires ready { IsReady table.now.table plan.now target.now }
    requires met { IsMetChunk table.now.table plan.now.select.where_terms chunk }
    requires slots { (slot : ℕ) → slot_at slots.now slot ≡ option_map slot_of_row (row_at table.now.table.rows chunk slot) }
    requires size { length slots.now.slots ≡ table.now.table.schema.chunk_size }
    requires widths { slots.now.widths ≡ widths_of table.now.table.schema.columns }
    requires keep { length keep.now ≡ table.now.table.schema.chunk_size }
    requires bits { (slot : ℕ) → slot < table.now.table.schema.chunk_size → slice_index_or keep.now slot false ≡ on_row (meets_all_on_metadata table.now.table plan.now.select.where_terms) (row_at table.now.table.rows chunk slot) }
    ensures best { best.new ≡ with_offers table.now.table.schema.columns plan.now.select.where_terms best.old (hits_in table.now.table plan.now.select.where_terms target.now chunk) }
    ensures reads { steps.new.reads ≡ ticked steps.old.reads (length (hits_in table.now.table plan.now.select.where_terms target.now chunk)) }
    ensures pieces { steps.new.pieces ≡ steps.old.pieces }
{
    let by_row = plan.is_by_row();
    let by_distance = plan.is_by_distance();
    for slot in 0..slots.size() {
        offer_slot(
            table,
            plan,
            by_row,
            by_distance,
            target,
            chunk,
            slots,
            keep,
            slot,
            best,
            steps,
        );
    }
}

/// Offers the rows of a chunk that meet the terms. The bitmap is the caller's, and is written over.
fn scan_chunk(
    table: &TableVersion,
    plan: &Plan,
    target: &Target<'_>,
    chunk: u32,
    keep: &mut Bitmap,
    best: &mut Best,
    steps: &mut Steps,
)
    requires ready { IsReady table.now.table plan.now target.now }
    requires met { IsMetChunk table.now.table plan.now.select.where_terms chunk }
    requires keep { length keep.old ≡ table.now.table.schema.chunk_size }
    ensures keep { length keep.new ≡ table.now.table.schema.chunk_size }
    ensures best { best.new ≡ with_offers table.now.table.schema.columns plan.now.select.where_terms best.old (hits_in table.now.table plan.now.select.where_terms target.now chunk) }
    ensures reads { steps.new.reads ≡ ticked steps.old.reads (length (hits_in table.now.table plan.now.select.where_terms target.now chunk)) }
    ensures pieces { steps.new.pieces ≡ steps.old.pieces }
{
    let Some(slots) = table.slots(chunk) else {
        unreachable!();
    };
    keep.assign(slots.valid());
    filter_all(table, plan, chunk, keep);
    offer_kept(table, plan, target, chunk, slots, keep, best, steps);
}

/// Offers the rows of chunks that meet the terms, chunk by chunk.
pub(crate) fn scan_chunks(
    table: &TableVersion,
    plan: &Plan,
    target: &Target<'_>,
    chunks: &[u32],
    keep: &mut Bitmap,
    best: &mut Best,
    steps: &mut Steps,
)
    requires ready { IsReady table.now.table plan.now target.now }
    requires met { AllByRecursion (IsMetChunk table.now.table plan.now.select.where_terms) chunks.now }
    requires keep { length keep.old ≡ table.now.table.schema.chunk_size }
    ensures keep { length keep.new ≡ table.now.table.schema.chunk_size }
    ensures best { best.new ≡ with_offers table.now.table.schema.columns plan.now.select.where_terms best.old (hits_over table.now.table plan.now.select.where_terms target.now chunks.now) }
    ensures reads { steps.new.reads ≡ ticked steps.old.reads (length (hits_over table.now.table plan.now.select.where_terms target.now chunks.now)) }
    ensures pieces { steps.new.pieces ≡ steps.old.pieces }
{
    for chunk in chunks {
        scan_chunk(table, plan, target, *chunk, keep, best, steps);
    }
}
