//! The rows of a table in chunks: where each lies, and what was touched since the rows were shared.
#![tactic(auto)]

mod change;
mod claims;
mod occupy;
mod part;
mod parts;
mod place;
mod place_row;
mod put;
mod readers;
mod remove;
mod rows;
mod shape;
mod store;
mod touched;
mod touches;

pub use place::RowPlace;
pub use readers::RowRef;
pub use store::RowStore;
