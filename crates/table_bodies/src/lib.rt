//! The body that a key has in a table: the bytes of the record that is kept under it.
#![tactic(auto)]

mod bits;
mod bodies;
mod cells;
mod column_place;
mod rows;
mod unit_record;
mod values;

pub use bodies::{body, is_body};
pub use column_place::{ColumnPlace, column_of};
pub use rows::row_in;
pub use unit_record::UnitRecord;
