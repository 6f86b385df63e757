//! What keeps records: batches of changes, keepers, and a keeper in memory.
#![tactic(auto)]

mod body;
mod edit;
mod keeper;
mod memory;
mod slots;

pub use keeper::{Batch, Keeper, Kept, Loaded, MOST_CHANGE_BYTES};
pub use memory::MemoryKeeper;
