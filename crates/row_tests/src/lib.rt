//! Tests of rows in chunks.
#![tactic(auto)]

#[cfg(test)]
mod rows;
