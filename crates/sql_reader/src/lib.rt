//! Statements of SQL with parameters: what a text spells, or why it is refused.
#![tactic(auto)]

mod body;
mod flaw;
mod given;
mod laws;
mod list;
mod parameters;
mod part;
mod part_meaning;
mod read;
mod select;
mod statement_meaning;
mod term;
mod value;
mod vector;

pub use given::{Given, GivenAssign, GivenSelect, GivenStatement, GivenTerm, GivenTest, Group};
pub use laws::{one_refusal, one_statement};
pub use read::read_statement;
