//! Tests of what a plan finds in a table.
#![tactic(auto)]

#[cfg(test)]
mod items;
#[cfg(test)]
mod lookups;
#[cfg(test)]
mod scans;
#[cfg(test)]
mod tables;
