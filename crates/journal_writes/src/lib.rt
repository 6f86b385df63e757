//! Writes to a disk that are finished and synced, and one block more behind the gate of a journal.
#![tactic(auto)]

mod adding;
mod transfers;

pub use adding::{Added, add};
pub use transfers::write_synced;
