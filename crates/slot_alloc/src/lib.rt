//! Which places of a table's chunks are used, by partition values, and which place a new row takes.
#![tactic(auto)]

mod chunk;
mod chunks;
mod order;
mod place;
mod places;
mod search;
mod spare;

pub use order::same_values;
pub use place::Place;
pub use places::Places;
