//! Statements of SQL: reading them with parameters, and writing the canonical text of each.
#![tactic(auto)]

mod piece;
mod pieces;
mod write;

pub use sql_reader::{
    Given, GivenAssign, GivenSelect, GivenStatement, GivenTerm, GivenTest, Group, read_statement,
};
pub use write::write_statement;
