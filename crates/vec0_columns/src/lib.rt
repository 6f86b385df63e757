//! The columns of a table: the text that declares them, and the rules that they keep.
#![tactic(auto)]

mod laws;
mod meaning;
mod read;
mod rule;
mod text;
mod write;

pub use laws::{one_refusal, one_schema};
pub use meaning::schema_of;
pub use read::{read_columns, read_columns_at};
pub use rule::schema_rule;
pub use text::{Arg, Spelled, columns};
pub use write::{put_columns, write_columns};
