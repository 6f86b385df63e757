//! Slots of a table's rows: vectors, and cells for metadata and auxiliary values, which copies share until they change.
#![tactic(auto)]

mod auxiliary;
mod cell_column;
mod field;
mod metadata;
mod row_chunk;

pub use cell_column::is_cell;
pub use field::Field;
pub use row_chunk::RowChunk;
