//! The search of the nearest rows.
ghost use Rattle.std.specs.Prelude.{◌≡◌, ◌<◌, ◌≤◌, ◌+◌, ◌^◌, min, map, filter, length, [], IfOk, is_some, true};
ghost use Rattle.std.specs.List.{AllByRecursion};
ghost use Rattle.vec_base.specs.declared.limits.TheConstants.{LAST_COUNT};
ghost use Rattle.vec_base.specs.inner.Offers.{offered};
ghost use Rattle.knn_plan.specs.Plans.{IsPlanFor};
ghost use Rattle.topk_merge.specs.Hits.{is_before};
ghost use Rattle.nearest_query.specs.Searches.{nearest_hits, read_rows, wanted_chunks};
ghost use Rattle.nearest_query.specs.inner.Scanning.{IsMetChunk, IsReady, hits_over, is_within};
ghost use Rattle.nearest_query.specs.inner.Pieces.{best_of, piece_scanned, pieces_of, reads_of};

use crate::piece::{ScanPiece, add_pieces, gather};
use crate::wanted::wanted;
use knn_plan::{Plan, Target};
use std::alloc::Global;
use std::marker::Sync;
use std::thread::Threads;
use table_version::TableVersion;
use topk_merge::{Best, Gate, Hit, scan_pieces};
use vec_base::{List, Memory, Steps};

/// Scans the pieces, each told to the gate, and puts together what they found.
fn scan_and_gather<G: Gate, R: Threads + Sync>(
    rt: &R,
    pieces: &mut [ScanPiece<'_>],
    gate: &G,
    best: &mut Best,
    steps: &mut Steps,
)
    requires few { length pieces.old < 2 ^ 32 }
    ensures room { best.new.room ≡ best.old.room }
    ensures hits { best.new.hits ≡ best_of best.old.room best.old.hits (map piece_scanned pieces.old) }
    ensures reads { steps.new.reads ≡ reads_of steps.old.reads (map piece_scanned pieces.old) }
    ensures pieces { steps.new.pieces ≡ pieces_of steps.old.pieces (map piece_scanned pieces.old) }
{
    scan_pieces(rt, pieces, gate);
    gather(pieces, best, steps);
}

/// The first k hits of chunks, by so many pieces. All memory is taken before the first scan.
fn search_chunks<'a, G: Gate, R: Threads + Sync>(
    rt: &R,
    alloc: Global,
    table: &'a TableVersion,
    plan: &'a Plan,
    target: &'a Target<'a>,
    k: u16,
    count: usize,
    chunks: &'a [u32],
    gate: &G,
    steps: &mut Steps,
) -> Result<List<Hit>, Memory>
    requires ready { IsReady table.now.table plan.now target.now }
    requires met { AllByRecursion (IsMetChunk table.now.table plan.now.select.where_terms) chunks.now }
    requires some { count ≡ 0 → chunks.now ≡ [] }
    requires few { count < 2 ^ 8 }
    ensures hits { IfOk result (λ hits. hits ≡ offered is_before k [] (filter (is_within table.now.table.schema.columns plan.now.select.where_terms) (hits_over table.now.table plan.now.select.where_terms target.now chunks.now))) }
    ensures reads { steps.new.reads ≤ steps.old.reads + length (hits_over table.now.table plan.now.select.where_terms target.now chunks.now) }
    ensures pieces { IfOk result (λ _. min (steps.old.pieces + count) LAST_COUNT ≤ steps.new.pieces) }
    ensures most { IfOk result (λ _. steps.new.pieces ≤ steps.old.pieces + count) }
{
    let mut best = Best::with_room(alloc, k)?;
    let mut pieces = Vec::with_capacity(alloc, count)?;
    add_pieces(
        alloc,
        &mut pieces,
        table,
        plan,
        target,
        k,
        count,
        chunks,
        steps,
    )?;
    scan_and_gather(rt, pieces.as_mut_slice(), gate, &mut best, steps);
    Ok(best.into_sorted())
}

/// The first k hits of the chunks whose partition values meet the terms.
fn search<G: Gate, R: Threads + Sync>(
    rt: &R,
    alloc: Global,
    table: &TableVersion,
    plan: &Plan,
    target: &Target<'_>,
    k: u16,
    workers: u8,
    gate: &G,
    steps: &mut Steps,
) -> Result<List<Hit>, Memory>
    requires ready { IsReady table.now.table plan.now target.now }
    requires workers { 1 ≤ workers }
    ensures hits { IfOk result (λ hits. hits ≡ offered is_before k [] (filter (is_within table.now.table.schema.columns plan.now.select.where_terms) (hits_over table.now.table plan.now.select.where_terms target.now (wanted_chunks table.now.table plan.now.select.where_terms)))) }
    ensures reads { steps.new.reads ≤ steps.old.reads + length (hits_over table.now.table plan.now.select.where_terms target.now (wanted_chunks table.now.table plan.now.select.where_terms)) }
    ensures pieces { IfOk result (λ _. min (steps.old.pieces + min workers (length (wanted_chunks table.now.table plan.now.select.where_terms))) LAST_COUNT ≤ steps.new.pieces) }
    ensures most { IfOk result (λ _. steps.new.pieces ≤ steps.old.pieces + min workers (length (wanted_chunks table.now.table plan.now.select.where_terms))) }
{
    let chunks = wanted(alloc, table, plan)?;
    let count = usize::from(workers).min(chunks.len());
    search_chunks(
        rt,
        alloc,
        table,
        plan,
        target,
        k,
        count,
        chunks.as_slice(),
        gate,
        steps,
    )
}

/// The rows that a SELECT with a MATCH answers, as hits in order, whatever the number of workers. Only chunks whose partition values
/// meet the terms are looked into. Each piece is told to the gate, and no memory is taken once the first one is.
pub fn nearest<G: Gate, R: Threads + Sync>(
    rt: &R,
    alloc: Global,
    table: &TableVersion,
    plan: &Plan,
    workers: u8,
    gate: &G,
    steps: &mut Steps,
) -> Result<List<Hit>, Memory>
    requires plan { IsPlanFor table.now.table.schema.columns plan.now }
    requires nearest { is_some plan.now.target ≡ true }
    requires workers { 1 ≤ workers }
    ensures hits { IfOk result (λ hits. hits ≡ nearest_hits table.now.table plan.now.select) }
    ensures reads { steps.new.reads ≤ steps.old.reads + length (read_rows table.now.table plan.now.select.where_terms) }
    ensures pieces { IfOk result (λ _. min (steps.old.pieces + min workers (length (wanted_chunks table.now.table plan.now.select.where_terms))) LAST_COUNT ≤ steps.new.pieces) }
    ensures most { IfOk result (λ _. steps.new.pieces ≤ steps.old.pieces + min workers (length (wanted_chunks table.now.table plan.now.select.where_terms))) }
{
    table.known();
    let Some(target) = plan.target() else {
        unreachable!();
    };
    let k = plan.count() as u16;
    search(rt, alloc, table, plan, &target, k, workers, gate, steps)
}
