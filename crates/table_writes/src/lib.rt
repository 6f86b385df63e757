//! The writes on one table: new rows, new values, and rows that go. The rows of an UPDATE or a DELETE are found by its plan.
#![tactic(auto)]

mod beside;
mod delete;
mod found;
mod group;
mod insert;
mod sets;
mod update;

pub use beside::Beside;
pub use delete::delete_rows;
pub use insert::insert_rows;
pub use update::update_rows;
