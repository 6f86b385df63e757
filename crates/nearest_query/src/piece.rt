//! The pieces of a search.
ghost use Rattle.std.specs.Prelude.{◌≡◌, ◌<◌, ◌≤◌, ◌++◌, length, IfOk};
ghost use Rattle.std.specs.List.{AllByRecursion};
ghost use Rattle.vec_base.specs.Counts.{raised};
ghost use Rattle.nearest_query.specs.inner.Scanning.{IsMetChunk, IsReady};
ghost use Rattle.nearest_query.specs.inner.Pieces.{best_of, new_piece, new_pieces, parted, parts_of, pieces_of, reads_of};

use crate::scan::scan_chunks;
use chunk_bitmap::Bitmap;
use knn_plan::{Plan, Target};
use std::alloc::Global;
use std::marker::Model;
use table_version::TableVersion;
use topk_merge::{Best, Piece};
use vec_base::{Memory, Steps};

/// Whole chunks, and the first of their hits. The bitmap is written over for each chunk.
#[derive(Drop)]
pub(crate) struct ScanPiece<'a> {
    table: &'a TableVersion,
    plan: &'a Plan,
    target: &'a Target<'a>,
    chunks: &'a [u32],
    keep: Bitmap,
    best: Best,
    steps: Steps,
}

impl<'a> Model for ScanPiece<'a> {
    ghost use Rattle.std.specs.Prelude.{◌≡◌, length};
    ghost use Rattle.std.specs.List.{AllByRecursion};
    ghost use Rattle.nearest_query.specs.inner.Pieces.{PieceState};
    ghost use Rattle.nearest_query.specs.inner.Scanning.{IsMetChunk, IsReady};

    ghost Value = { PieceState };

    ghost view = { λ p. record { table = p.table.now.table; plan = p.plan.now; target = p.target.now; chunks = p.chunks.now; best = p.best; reads = p.steps.reads; pieces = p.steps.pieces } };

    ghost invariant = { λ p. IsReady p.table.now.table p.plan.now p.target.now × (length p.keep ≡ p.table.now.table.schema.chunk_size) × AllByRecursion (IsMetChunk p.table.now.table p.plan.now.select.where_terms) p.chunks.now };
}

impl<'a> Piece for ScanPiece<'a> {
    ghost use Rattle.nearest_query.specs.inner.Pieces.{piece_scanned};

    ghost scanned = { piece_scanned };

    fn scan(&mut self) {
        scan_chunks(
            self.table,
            self.plan,
            self.target,
            self.chunks,
            &mut self.keep,
            &mut self.best,
            &mut self.steps,
        );
    }
}

/// A piece before its scan. The counter is split for it.
fn make_piece<'a>(
    alloc: Global,
    table: &'a TableVersion,
    plan: &'a Plan,
    target: &'a Target<'a>,
    k: u16,
    chunks: &'a [u32],
    steps: &mut Steps,
) -> Result<ScanPiece<'a>, Memory>
    requires ready { IsReady table.now.table plan.now target.now }
    requires met { AllByRecursion (IsMetChunk table.now.table plan.now.select.where_terms) chunks.now }
    ensures piece { IfOk result (λ piece. piece ≡ new_piece table.now.table plan.now target.now k chunks.now) }
    ensures pieces { IfOk result (λ _. steps.new.pieces ≡ raised steps.old.pieces) }
    ensures reads { steps.new.reads ≡ steps.old.reads }
{
    let keep = Bitmap::with_size(alloc, table.schema().chunk_size)?;
    let best = Best::with_room(alloc, k)?;
    let steps = steps.split();
    Ok(ScanPiece {
        table,
        plan,
        target,
        chunks,
        keep,
        best,
        steps,
    })
}

/// Adds so many pieces, which share the chunks. The counter is split for each of them.
pub(crate) fn add_pieces<'a>(
    alloc: Global,
    pieces: &mut Vec<ScanPiece<'a>>,
    table: &'a TableVersion,
    plan: &'a Plan,
    target: &'a Target<'a>,
    k: u16,
    count: usize,
    chunks: &'a [u32],
    steps: &mut Steps,
) -> Result<(), Memory>
    requires ready { IsReady table.now.table plan.now target.now }
    requires met { AllByRecursion (IsMetChunk table.now.table plan.now.select.where_terms) chunks.now }
    ensures added { IfOk result (λ _. pieces.new.items ≡ pieces.old.items ++ new_pieces table.now.table plan.now target.now k (parts_of count chunks.now)) }
    ensures pieces { IfOk result (λ _. steps.new.pieces ≡ parted steps.old.pieces count) }
    ensures reads { steps.new.reads ≡ steps.old.reads }
{
    if count == 0 {
        return Ok(());
    }
    let (part, rest) = chunks.split_at(chunks.len() / count);
    let piece = make_piece(alloc, table, plan, target, k, part, steps)?;
    pieces.push(piece)?;
    add_pieces(
        alloc,
        pieces,
        table,
        plan,
        target,
        k,
        count - 1,
        rest,
        steps,
    )
}

/// Puts together what pieces found and counted.
pub(crate) fn gather(pieces: &[ScanPiece<'_>], best: &mut Best, steps: &mut Steps)
    ensures room { best.new.room ≡ best.old.room }
    ensures hits { best.new.hits ≡ best_of best.old.room best.old.hits pieces.now }
    ensures reads { steps.new.reads ≡ reads_of steps.old.reads pieces.now }
    ensures pieces { steps.new.pieces ≡ pieces_of steps.old.pieces pieces.now }
{
    for piece in pieces {
        best.merge(&piece.best);
        steps.join(Steps {
            reads: piece.steps.reads,
            pieces: piece.steps.pieces,
        });
    }
}
