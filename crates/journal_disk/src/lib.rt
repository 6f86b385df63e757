//! A disk as a journal sees it, with what a stop may leave on it, and the form of it in memory.
#![tactic(auto)]

mod disk;
mod memory;

pub use disk::{Disk, Length, MOST_DISK_BYTES, Synced};
pub use memory::MemoryDisk;
