//! Connections one after another, and the form of them in memory.
#![tactic(auto)]

mod link;
mod memory;

pub use link::{Link, Next};
pub use memory::MemoryLink;
