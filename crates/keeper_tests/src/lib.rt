//! Tests of keepers.
#![tactic(auto)]

#[cfg(test)]
mod batches;
#[cfg(test)]
mod records;
