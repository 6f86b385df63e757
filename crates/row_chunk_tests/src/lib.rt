//! Tests of chunks of rows.
#![tactic(auto)]

#[cfg(test)]
mod tests;
