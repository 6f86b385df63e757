//! Tables in memory, and the batches of a journal that are made on them straight from its bytes.
#![tactic(auto)]

mod blocks;
mod change;

pub use blocks::{Step, Stop, make_blocks};
pub use change::make_change;
