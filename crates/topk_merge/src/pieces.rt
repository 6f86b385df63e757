//! Pieces of work that are scanned side by side.
ghost use Rattle.std.specs.Prelude.{◌≡◌, ◌+◌, ◌<◌, ◌≤◌, ◌^◌, length, map};
ghost use Rattle.std.specs.Thread.{IsSync};

use std::marker::{Send, Sync};
use std::thread::{Threads, join_mut};

/// What is told of each piece before its scan.
pub trait Gate: Sync {
    /// The scan of the piece with this number begins. No contract says what this does.
    fn enter(&self, piece: u32);
}

/// A gate that does nothing.
#[derive(Clone, Copy)]
pub struct NoGate;

impl Gate for NoGate {
    fn enter(&self, _piece: u32) {}
}

/// A piece of work.
pub trait Piece: Send {
    /// What its scan makes of the piece.
    ghost scanned: { Self → Self };

    fn scan(&mut self)
        ensures { self.new ≡ scanned self.old };
}

/// Scans each piece, on as many threads as the runtime gives. The gate is told of each piece by its number, counted from 1.
pub fn scan_pieces<P: Piece, G: Gate, R: Threads + Sync>(rt: &R, pieces: &mut [P], gate: &G)
    requires { length pieces.old < 2 ^ 32 }
    ensures { pieces.new ≡ map P.scanned pieces.old }
{
    scan_from(rt, gate, 1, pieces);
}

// Scans the pieces, the first of which has this number.
fn scan_from<P: Piece, G: Gate, R: Threads + Sync>(rt: &R, gate: &G, first: u32, pieces: &mut [P])
    requires { first + length pieces.old ≤ 2 ^ 32 }
    ensures { pieces.new ≡ map P.scanned pieces.old }
{
    if pieces.is_empty() {
        return;
    }
    if pieces.len() == 1 {
        gate.enter(first);
        pieces[0].scan();
        return;
    }
    let half = pieces.len() / 2;
    let next = first + half as u32;
    let (left, right) = pieces.split_at_mut(half);
    join_mut(
        rt,
        &mut ||
            requires { IsSync R.row × (first + length left.now ≤ 2 ^ 32) }
            ensures { left.exit.now ≡ map P.scanned left.entry.now }
        { scan_from(rt, gate, first, left) },
        &mut ||
            requires { IsSync R.row × (next + length right.now ≤ 2 ^ 32) }
            ensures { right.exit.now ≡ map P.scanned right.entry.now }
        { scan_from(rt, gate, next, right) },
    );
}
