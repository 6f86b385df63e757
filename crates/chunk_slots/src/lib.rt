//! Slots of a table's rows: rowids, and a vector for each vector column, in blocks that copies share until they change.
#![tactic(auto)]

mod block;
mod chunk;
mod column;
mod rows;

pub use chunk::Chunk;
