//! Tests of searches of the nearest rows, over public calls.
#![tactic(auto)]

#[cfg(test)]
mod tables;
#[cfg(test)]
mod tests;
