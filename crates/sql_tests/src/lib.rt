//! Tests of the texts of columns and of statements, over public calls.
#![tactic(auto)]

#[cfg(test)]
mod columns;
#[cfg(test)]
mod statements;
