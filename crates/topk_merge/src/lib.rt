//! The first hits of a search in order: a list with room for k of them, which takes no memory after it is made. Pieces of a search that are
//! scanned side by side.
#![tactic(auto)]

mod best;
mod hit;
mod pieces;
#[cfg(test)]
mod tests;

pub use best::Best;
pub use hit::Hit;
pub use pieces::{Gate, NoGate, Piece, scan_pieces};
