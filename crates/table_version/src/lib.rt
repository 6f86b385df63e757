//! One table: its name, its schema, the greatest rowid that it ever held, and its rows at their places.
#![tactic(auto)]

mod columns;
mod field;
mod filter;
mod given;
mod insert;
mod place_row;
mod readers;
mod remove;
mod row_view;
mod table;
mod touches;
mod update;

pub use row_chunks::Field;
pub use row_store::RowPlace;
pub use row_view::RowView;
pub use table::TableVersion;
