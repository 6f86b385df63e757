//! The transaction engine: sessions over tables in chunks, whose commits go to a keeper.
#![tactic(auto)]

mod engine;
mod execute;
mod load;
mod requests;
mod start;

pub use engine::Engine;
pub use start::Started;
