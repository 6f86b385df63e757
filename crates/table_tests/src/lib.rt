//! Tests of tables in chunks.
#![tactic(auto)]

#[cfg(test)]
mod cells;
#[cfg(test)]
mod partitions;
#[cfg(test)]
mod tables;
