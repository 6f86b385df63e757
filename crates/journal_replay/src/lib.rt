//! Opening a journal: its batches are made on tables in memory, piece by piece as they are read.
#![tactic(auto)]

mod fill;
mod follow;
mod opening;

pub use follow::{Opened, PIECE_BYTES};
pub use opening::open_journal;
