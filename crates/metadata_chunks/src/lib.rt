//! The metadata of a chunk's rows: columns of numbers, truth values and texts, and filters over them.
#![tactic(auto)]

mod bool_column;
mod cells;
mod int_column;
mod text_cell;
mod text_column;

pub use bool_column::BoolColumn;
pub use int_column::IntColumn;
pub use text_column::TextColumn;
