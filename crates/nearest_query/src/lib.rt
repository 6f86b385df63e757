//! The nearest rows of a table in chunks: each chunk that may have some is scanned, and the first of what is found is the answer. Chunks are
//! shared out to as many pieces as there are workers.
#![tactic(auto)]

mod distance;
mod field;
mod piece;
mod scan;
mod search;
mod terms;
mod wanted;

pub use search::nearest;
